//! Rows and names, vector words and their instructions, and which are legal. Scalar words stand in tests/cases/listings.

use vx_decode::{Instr, decode, encode, legal};
use vx_rows::{
    ElemOp, MaskOp, MemoryOp, Op, PermOp, ScalarOp, SetOp, WidenOp, fits_one_at_most, has_its_rows,
    name_of, rows,
};
use vx_vstate::Setting;

#[test]
fn rows_and_names(rt: HostRuntime) {
    let found = rows().iter().find(|r| 0x0010_0513 & r.mask == r.value);
    assert!(rt; found.is_some_and(|r| name_of(r.op, 0) == "addi"));
    assert_eq!(rt; name_of(Op::Memory(MemoryOp::Vlse16), 4), "vlsseg5e16.v");
    assert_eq!(rt; name_of(Op::Memory(MemoryOp::Vsr), 7), "vs8r.v");
    fits_one_at_most();
    has_its_rows();
}

/// A word with the operation, `rd`, `rs1`, `rs2`, the immediate, `vm` and `nf` that it means, by LLVM's assembler.
struct Known(u32, Op, u8, u8, u8, i64, bool, u8);

static WORDS: [Known; 23] = [
    // sd x10, -1366(x21)
    Known(
        0xaaaa_b523,
        Op::Scalar(ScalarOp::Sd),
        0,
        21,
        10,
        -1366,
        true,
        0,
    ),
    // vsetvli x5, x6, e32, m1, ta, ma
    Known(0x0d03_72d7, Op::Set(SetOp::Vsetvli), 5, 6, 0, 208, true, 0),
    // vsetivli x7, 31, e8, mf8, tu, mu
    Known(0xc05f_f3d7, Op::Set(SetOp::Vsetivli), 7, 31, 0, 5, true, 0),
    // vsetvl x1, x2, x3
    Known(0x8031_70d7, Op::Set(SetOp::Vsetvl), 1, 2, 3, 0, true, 0),
    // vadd.vi v1, v2, -16, v0.t
    Known(
        0x0028_30d7,
        Op::Elem(ElemOp::VaddVi),
        1,
        0,
        2,
        -16,
        false,
        0,
    ),
    // vsll.vi v31, v30, 31
    Known(
        0x97ef_bfd7,
        Op::Elem(ElemOp::VsllVi),
        31,
        0,
        30,
        31,
        true,
        0,
    ),
    // vrsub.vx v4, v5, x6
    Known(0x0e53_4257, Op::Elem(ElemOp::VrsubVx), 4, 6, 5, 0, true, 0),
    // vmerge.vim v1, v2, -1, v0
    Known(
        0x5c2f_b0d7,
        Op::Elem(ElemOp::VmergeVim),
        1,
        0,
        2,
        -1,
        false,
        0,
    ),
    // vmadc.vv v3, v4, v5
    Known(
        0x4642_81d7,
        Op::Widen(WidenOp::VmadcVv),
        3,
        5,
        4,
        0,
        true,
        0,
    ),
    // vmv.v.i v9, 15
    Known(0x5e07_b4d7, Op::Elem(ElemOp::VmvVI), 9, 0, 0, 15, true, 0),
    // vmv8r.v v8, v16
    Known(0x9f03_b457, Op::Elem(ElemOp::Vmv8rV), 8, 0, 16, 0, true, 0),
    // vzext.vf4 v2, v3, v0.t
    Known(
        0x4832_2157,
        Op::Elem(ElemOp::VzextVf4),
        2,
        0,
        3,
        0,
        false,
        0,
    ),
    // vmv.x.s x10, v11
    Known(0x42b0_2557, Op::Mask(MaskOp::VmvXS), 10, 0, 11, 0, true, 0),
    // vid.v v12, v0.t
    Known(0x5008_a657, Op::Mask(MaskOp::VidV), 12, 0, 0, 0, false, 0),
    // vmv.s.x v13, x14
    Known(0x4207_66d7, Op::Perm(PermOp::VmvSX), 13, 14, 0, 0, true, 0),
    // vcompress.vm v1, v2, v3
    Known(
        0x5e21_a0d7,
        Op::Perm(PermOp::VcompressVm),
        1,
        3,
        2,
        0,
        true,
        0,
    ),
    // vle32.v v8, (x10), v0.t
    Known(
        0x0005_6407,
        Op::Memory(MemoryOp::Vle32),
        8,
        10,
        0,
        0,
        false,
        0,
    ),
    // vlsseg3e16.v v8, (x10), x11
    Known(
        0x4ab5_5407,
        Op::Memory(MemoryOp::Vlse16),
        8,
        10,
        11,
        0,
        true,
        2,
    ),
    // vsoxseg2ei64.v v4, (x5), v6, v0.t
    Known(
        0x2c62_f227,
        Op::Memory(MemoryOp::Vsoxei64),
        4,
        5,
        6,
        0,
        false,
        1,
    ),
    // vl8re64.v v8, (x9)
    Known(
        0xe284_f407,
        Op::Memory(MemoryOp::Vlre64),
        8,
        9,
        0,
        0,
        true,
        7,
    ),
    // vs4r.v v4, (x2)
    Known(0x6281_0227, Op::Memory(MemoryOp::Vsr), 4, 2, 0, 0, true, 3),
    // vlm.v v0, (x1)
    Known(0x02b0_8007, Op::Memory(MemoryOp::Vlm), 0, 1, 0, 0, true, 0),
    // vle8ff.v v1, (x2)
    Known(
        0x0301_0087,
        Op::Memory(MemoryOp::Vle8ff),
        1,
        2,
        0,
        0,
        true,
        0,
    ),
];

#[test]
fn words_and_instructions(rt: HostRuntime) {
    for known in &WORDS {
        let decoded = decode(known.0);
        let instr = Instr {
            op: known.1,
            rd: known.2,
            rs1: known.3,
            rs2: known.4,
            imm: known.5,
            vm: known.6,
            nf: known.7,
        };
        assert_eq!(rt; decoded, Some(instr));
        if let Some(instr) = decoded {
            assert_eq!(rt; encode(&instr), known.0);
        }
    }
}

#[test]
fn vector_words_with_no_row(rt: HostRuntime) {
    let words = [
        // vadd.vv with the categories OPFVV and OPFVF, vmv.v.v with a vs2, vmseq's and vmand's neighbours, vmand with a mask
        0x0220_90d7,
        0x0220_d0d7,
        0x5e41_80d7,
        0x5610_80d7,
        0x6420_a0d7,
        // vmv3r, vmerge's funct6 in OPMVX, vsetvl with bit 25
        0x9e21_30d7,
        0x5c20_e0d7,
        0x8231_70d7,
        // vle8 with mew, vl3re8, vs1r with the width of 16 bits, vlm with two fields, vlm with a mask, a store with ff
        0x1201_0087,
        0x4281_0087,
        0x0281_5227,
        0x22b0_8007,
        0x00b0_8007,
        0x0301_00a7,
    ];
    for word in words {
        assert_eq!(rt; decode(word), None);
    }
}

#[test]
fn legal_and_illegal_words(rt: HostRuntime) {
    // e32, m1
    let at = Setting {
        vlen: 128,
        vl: 4,
        vtype: 0x10,
        vstart: 0,
        vxrm: 0,
        scalar: 0,
    };
    let words = [
        // vwadd.vv v2, v3, v4
        (0xc632_2157, true),
        // vnsrl.wi v2, v2, 0
        (0xb220_3157, true),
        // vmsne.vi v2, v2, 0
        (0x6620_3157, true),
        // vwadd.vv v2, v2, v4
        (0xc622_2157, false),
        // vadd.vv v0, v2, v4, v0.t
        (0x0022_0057, false),
    ];
    for (word, answer) in words {
        assert_eq!(rt; decode(word).is_some_and(|i| legal(&i, &at)), answer);
    }
}
