use std::alloc::{AllocError, Global};
use std::test::Fail;
use vx_alone::{Alone, End, Turn};
use vx_base::Fault;
use vx_image::raw_image;

/// The program `write(1, 0x10024, 3)`, then `exit(0)`, and the text "hi\n" with one more byte.
pub const HI: [u8; 40] = [
    0x13, 0x05, 0x10, 0x00, 0xb7, 0x05, 0x01, 0x00, 0x93, 0x85, 0x45, 0x02, 0x13, 0x06, 0x30, 0x00,
    0x93, 0x08, 0x00, 0x04, 0x73, 0x00, 0x00, 0x00, 0x13, 0x05, 0x00, 0x00, 0x93, 0x08, 0xd0, 0x05,
    0x73, 0x00, 0x00, 0x00, 0x68, 0x69, 0x0a, 0x00,
];

#[test]
fn a_process_writes_a_text_and_exits(rt: HostRuntime) -> Result<(), Fail> {
    let mut machine = Alone::boot(rt.alloc(), &raw_image(rt.alloc(), &HI)?, 256)?;
    for _ in 0..8 {
        assert_eq!(rt; machine.step(), Turn::Next);
    }
    for _ in 0..2 {
        assert_eq!(rt; machine.step(), Turn::Exited(0));
        assert_eq!(rt; machine.over(), Some(End::Exited(0)));
        assert_eq!(rt; machine.output(), b"hi\n".as_slice());
        assert_eq!(rt; machine.count(), 9);
        assert_eq!(rt; machine.arch().pc, 0x10020);
    }
    Ok(())
}

/// The bytes of instruction words.
fn bytes_of(alloc: Global, words: &[u32]) -> Result<Vec<u8>, AllocError> {
    let mut bytes = Vec::new(alloc);
    for word in words {
        bytes.extend_from_slice(&word.to_le_bytes())?;
    }
    Ok(bytes)
}

#[test]
fn vectors_are_configured_and_controlled(rt: HostRuntime) -> Result<(), Fail> {
    let program = [
        0x0640_0513, // addi a0, zero, 100
        0x0115_72d7, // vsetvli t0, a0, e32, m2, tu, mu
        0xc200_25f3, // csrrs a1, vl, zero
        0xc210_2673, // csrrs a2, vtype, zero
        0xc220_26f3, // csrrs a3, vlenb, zero
        0x00a3_d073, // csrrwi zero, vxrm, 7
        0x00f0_e773, // csrrsi a4, vcsr, 1
        0x00f1_77f3, // csrrci a5, vcsr, 2
        0x00a0_2873, // csrrs a6, vxrm, zero
        0xfff0_0313, // addi t1, zero, -1
        0x0083_1073, // csrrw zero, vstart, t1
        0x0080_28f3, // csrrs a7, vstart, zero
        0xc203_2073, // csrrs zero, vl, t1
    ];
    let bytes = bytes_of(rt.alloc(), &program)?;
    let mut machine = Alone::boot(rt.alloc(), &raw_image(rt.alloc(), bytes.as_slice())?, 256)?;
    for _ in 0..12 {
        assert_eq!(rt; machine.step(), Turn::Next);
    }
    let x = machine.arch().regs.x;
    assert_eq!(rt; [x[5], x[11], x[12], x[13]], [16, 16, 0x11, 32]);
    assert_eq!(rt; [x[14], x[15], x[16], x[17]], [6, 7, 2, 255]);
    let fault = Fault {
        cause: 2,
        tval: 0xc203_2073,
        vstart: 255,
    };
    assert_eq!(rt; machine.step(), Turn::Faulted(fault));
    Ok(())
}

#[test]
fn keeping_vl_at_another_ratio_sets_vill(rt: HostRuntime) -> Result<(), Fail> {
    let program = [
        0xc112_72d7, // vsetivli t0, 4, e32, m2, tu, mu
        0x0190_7057, // vsetvli zero, zero, e64, m2, tu, mu
        0xc210_2673, // csrrs a2, vtype, zero
        0x0221_80d7, // vadd.vv v1, v2, v3
    ];
    let bytes = bytes_of(rt.alloc(), &program)?;
    let mut machine = Alone::boot(rt.alloc(), &raw_image(rt.alloc(), bytes.as_slice())?, 256)?;
    for _ in 0..3 {
        assert_eq!(rt; machine.step(), Turn::Next);
    }
    let x = machine.arch().regs.x;
    assert_eq!(rt; [x[5], x[12]], [4, 0x8000_0000_0000_0000]);
    assert_eq!(rt; machine.arch().v.vl(), 0);
    let fault = Fault {
        cause: 2,
        tval: 0x0221_80d7,
        vstart: 0,
    };
    assert_eq!(rt; machine.step(), Turn::Faulted(fault));
    Ok(())
}

/// Vector arithmetic at e32: the indices of up to 16 elements, to the third of which a masked vadd.vv from vstart 1 on adds 5;
/// their sum by vredsum.vs, with a count of the mask's two bits by vcpop.m from bit 8 on, and bit 16 where vsadd.vi saturated;
/// exit(all of that).
const VECTORS: [u8; 100] = [
    0x13, 0x05, 0x00, 0x01, 0xd7, 0x72, 0x05, 0x01, 0xd7, 0xa0, 0x08, 0x52, 0x57, 0xa1, 0x08, 0x52,
    0x13, 0x03, 0x50, 0x00, 0x57, 0x42, 0x03, 0x5e, 0x57, 0x60, 0x03, 0x42, 0x93, 0x03, 0x10, 0x00,
    0x73, 0x90, 0x83, 0x00, 0x57, 0x01, 0x12, 0x00, 0x57, 0x33, 0x00, 0x5e, 0x57, 0x24, 0x23, 0x02,
    0xd7, 0x25, 0x80, 0x42, 0x57, 0x26, 0x08, 0x42, 0x93, 0x0e, 0xf0, 0xff, 0x93, 0xde, 0x1e, 0x02,
    0x57, 0xc6, 0x0e, 0x5e, 0x57, 0xb7, 0xc0, 0x86, 0xf3, 0x26, 0x90, 0x00, 0x13, 0x16, 0x86, 0x00,
    0x93, 0x96, 0x06, 0x01, 0x33, 0x85, 0xc5, 0x00, 0x33, 0x05, 0xd5, 0x00, 0x93, 0x08, 0xd0, 0x05,
    0x73, 0x00, 0x00, 0x00,
];

#[test]
fn vector_arithmetic_is_done_on_registers_of_each_length(rt: HostRuntime) -> Result<(), Fail> {
    let image = raw_image(rt.alloc(), &VECTORS)?;
    let mut narrow = Alone::boot(rt.alloc(), &image, 128)?;
    let mut wide = Alone::boot(rt.alloc(), &image, 256)?;
    for _ in 0..24 {
        assert_eq!(rt; narrow.step(), Turn::Next);
        assert_eq!(rt; wide.step(), Turn::Next);
    }
    assert_eq!(rt; narrow.step(), Turn::Exited(11 + 2 * 0x100 + 0x10000));
    assert_eq!(rt; wide.step(), Turn::Exited(33 + 2 * 0x100 + 0x10000));
    assert_eq!(rt; wide.arch().v.vstart(), 0);
    Ok(())
}

/// vsetvli t0, x0, e32, m1, tu, mu; then vadd.vv v0, v1, v2, v0.t, which would overwrite its mask.
const OVERWRITES_MASK: [u8; 8] = [0xd7, 0x72, 0x00, 0x01, 0x57, 0x00, 0x11, 0x00];

#[test]
fn vector_arithmetic_that_is_illegal_faults(rt: HostRuntime) -> Result<(), Fail> {
    let image = raw_image(rt.alloc(), &OVERWRITES_MASK)?;
    let mut machine = Alone::boot(rt.alloc(), &image, 256)?;
    assert_eq!(rt; machine.step(), Turn::Next);
    assert_eq!(rt;
        machine.step(),
        Turn::Faulted(Fault {
            cause: 2,
            tval: 0x0011_0057,
            vstart: 0
        })
    );
    assert_eq!(rt; machine.arch().v.vl(), 8);
    Ok(())
}

/// At 0x10050, loads four words and stores them below the stack pointer, stores them once more at one place (by stride 0), loads
/// of the same bytes elements of two fields under the mask 5, stores each field, and writes the 28 bytes.
const MOVES: [u8; 100] = [
    0x17, 0x05, 0x00, 0x00, 0x93, 0x05, 0x05, 0x05, 0x57, 0x70, 0x02, 0xcd, 0x07, 0xe4, 0x05, 0x02,
    0x13, 0x06, 0x01, 0xfc, 0x27, 0x64, 0x06, 0x02, 0x93, 0x06, 0x06, 0x01, 0x27, 0xe4, 0x06, 0x0a,
    0x13, 0x07, 0x05, 0x06, 0x07, 0x00, 0xb7, 0x02, 0x07, 0x85, 0x05, 0x20, 0x93, 0x06, 0x46, 0x01,
    0x27, 0x85, 0x06, 0x02, 0x93, 0x06, 0x86, 0x01, 0xa7, 0x85, 0x06, 0x02, 0x13, 0x05, 0x10, 0x00,
    0x93, 0x05, 0x06, 0x00, 0x13, 0x06, 0xc0, 0x01, 0x93, 0x08, 0x00, 0x04, 0x73, 0x00, 0x00, 0x00,
    0x01, 0x02, 0x03, 0x04, 0x05, 0x06, 0x07, 0x08, 0x09, 0x0a, 0x0b, 0x0c, 0x0d, 0x0e, 0x0f, 0x10,
    0x05, 0x00, 0x00, 0x00,
];

#[test]
fn vectors_are_loaded_and_stored(rt: HostRuntime) -> Result<(), Fail> {
    let mut machine = Alone::boot(rt.alloc(), &raw_image(rt.alloc(), &MOVES)?, 128)?;
    for _ in 0..20 {
        assert_eq!(rt; machine.step(), Turn::Next);
    }
    let written = [
        1, 2, 3, 4, 5, 6, 7, 8, 9, 10, 11, 12, 13, 14, 15, 16, 13, 14, 15, 16, 1, 0, 5, 0, 2, 0, 6,
        0,
    ];
    assert_eq!(rt; machine.output(), written.as_slice());
    Ok(())
}

/// Loads ten elements of 64 bits, fault-only-first, of which nine lie on the last mapped page.
const TRIMMED: [u8; 16] = [
    0x37, 0x15, 0x01, 0x00, 0x13, 0x05, 0x85, 0xfb, 0x57, 0x70, 0xb5, 0xcd, 0x07, 0x74, 0x05, 0x03,
];

#[test]
fn a_load_is_trimmed_at_a_fault_behind_its_first_element(rt: HostRuntime) -> Result<(), Fail> {
    let mut machine = Alone::boot(rt.alloc(), &raw_image(rt.alloc(), &TRIMMED)?, 128)?;
    for _ in 0..4 {
        assert_eq!(rt; machine.step(), Turn::Next);
    }
    assert_eq!(rt; machine.arch().v.vl(), 9);
    assert_eq!(rt; machine.arch().v.vstart(), 0);
    Ok(())
}

/// Stores four elements at indices from the stack pointer on, the third of which wraps to the page of the code.
const REFUSED: [u8; 56] = [
    0x17, 0x05, 0x00, 0x00, 0x13, 0x05, 0x85, 0x01, 0x57, 0x70, 0x92, 0xcd, 0x07, 0x78, 0x05, 0x02,
    0x27, 0x74, 0x01, 0x07, 0x13, 0x00, 0x00, 0x00, 0x00, 0x00, 0x00, 0x00, 0x00, 0x00, 0x00, 0x00,
    0x08, 0x00, 0x00, 0x00, 0x00, 0x00, 0x00, 0x00, 0x00, 0x01, 0x01, 0x00, 0xc0, 0xff, 0xff, 0xff,
    0x10, 0x00, 0x00, 0x00, 0x00, 0x00, 0x00, 0x00,
];

#[test]
fn an_indexed_store_faults_at_its_element(rt: HostRuntime) -> Result<(), Fail> {
    let mut machine = Alone::boot(rt.alloc(), &raw_image(rt.alloc(), &REFUSED)?, 128)?;
    for _ in 0..4 {
        assert_eq!(rt; machine.step(), Turn::Next);
    }
    let fault = Fault {
        cause: 15,
        tval: 0x10000,
        vstart: 2,
    };
    assert_eq!(rt; machine.step(), Turn::Faulted(fault));
    assert_eq!(rt; machine.arch().v.vstart(), 2);
    Ok(())
}
