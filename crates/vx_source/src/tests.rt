use crate::{
    OperandKind, VtypeField, control_name, has_words, operand_kinds, register_name, vector_name,
    vtype_word,
};
use vx_rows::{MaskOp, Op, ScalarOp};

#[test]
fn tells_operands_and_names(rt: HostRuntime) {
    let kinds = operand_kinds(Op::Scalar(ScalarOp::Sb));
    assert!(rt; kinds == [OperandKind::SecondSource, OperandKind::Address].as_slice());
    let kinds = operand_kinds(Op::Mask(MaskOp::VidV));
    assert!(rt; kinds == [OperandKind::VectorDestination, OperandKind::Masked].as_slice());
    assert_eq!(rt; register_name(8), "s0");
    assert_eq!(rt; register_name(31), "t6");
    assert_eq!(rt; vector_name(31), "v31");
    assert_eq!(rt; control_name(0xc21), Some("vtype"));
    assert_eq!(rt; control_name(0xc23), None);
    assert!(rt; has_words(0xd1) && !has_words(0x104));
    assert_eq!(rt; vtype_word(VtypeField::Lmul, 0xd5), "mf8");
}
