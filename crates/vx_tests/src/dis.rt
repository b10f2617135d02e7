use std::test::Fail;
use vx_base::MemSink;
use vx_dis::{ListingFault, line_of, write_listing};

/// A file of two instructions and a word that is none.
const FILE: &[u8; 12] = b"\x13\x05\x00\x00\x23\x00\xa1\x00\x00\x00\x00\x00";

#[test]
fn a_word_has_its_line(rt: HostRuntime) -> Result<(), Fail> {
    let text = line_of(rt.alloc(), 0x5554_0867)?;
    assert_eq!(rt; text.slice(), b"jalr a6, s0, 1365".as_slice());
    Ok(())
}

#[test]
fn a_failing_sink_keeps_a_prefix(rt: HostRuntime) -> Result<(), Fail> {
    let alloc = rt.alloc();
    let mut whole = MemSink::new(alloc, 64, 3, Vec::new(alloc))?;
    assert_eq!(rt; write_listing(alloc, FILE, &mut whole), Ok(()));
    assert_eq!(rt;
        whole.bytes(),
        b"addi a0, zero, 0\nsb a0, 0(sp)\n.word 0x00000000\n".as_slice()
    );
    let mut narrow = MemSink::new(alloc, 20, 64, Vec::new(alloc))?;
    assert_eq!(rt;
        write_listing(alloc, FILE, &mut narrow),
        Err(ListingFault::Write)
    );
    assert_eq!(rt; narrow.bytes(), b"addi a0, zero, 0\nsb ".as_slice());
    Ok(())
}
