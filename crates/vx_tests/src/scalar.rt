use vx_decode::Instr;
use vx_rows::{Op, ScalarOp};
use vx_scalar::{Effect, Regs, scalar, scalar_address};

#[test]
fn instructions_have_effects(rt: HostRuntime) {
    let mut regs = Regs::first();
    assert_eq!(rt; regs.read(2), 0x3f_ffff_ff00);
    regs.write(0, 9);
    assert_eq!(rt; regs.read(0), 0);
    regs.write(5, 0xffff_ffff_ffff_ffff);
    let sum = Instr {
        op: Op::Scalar(ScalarOp::Add),
        rd: 7,
        rs1: 5,
        rs2: 6,
        imm: 0,
        vm: true,
        nf: 0,
    };
    assert_eq!(rt;
        scalar(&sum, &regs, 0x10000),
        Effect::Value(regs.read(5), 0x10004)
    );
    let store = Instr {
        op: Op::Scalar(ScalarOp::Sd),
        rd: 7,
        rs1: 5,
        rs2: 6,
        imm: 2047,
        vm: true,
        nf: 0,
    };
    assert_eq!(rt; scalar_address(&store, &regs), 2046);
}
