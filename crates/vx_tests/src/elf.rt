use std::test::Fail;
use vx_base::{Bytes, Perm};
use vx_elf::{ElfFault, Program, SegmentList, read_elf, write_elf};

#[test]
fn what_is_written_is_read_again(rt: HostRuntime) -> Result<(), Fail> {
    let alloc = rt.alloc();
    let program = Program {
        entry: 0x10000,
        code: Bytes::of(vec![in alloc; 0x13, 0x05, 0xf5, 0x7f]?),
        vars: Bytes::of(vec![in alloc; 1, 2, 3]?),
        zero: 5,
    };
    let bytes = write_elf(alloc, &program)?;
    assert_eq!(rt; bytes.len(), 8195);
    let segments = read_elf(alloc, bytes.slice())?;
    assert_eq!(rt; segments.entry, 0x10000);
    assert_eq!(rt; segments.list.len(), 2);
    assert!(rt; !segments.list.is_empty());
    if let Some(vars) = segments.list.get(1) {
        assert_eq!(rt; vars.address, 0x11000);
        assert_eq!(rt; vars.size, 8);
        assert_eq!(rt; vars.perm, Perm { bits: 6 });
        assert_eq!(rt; vars.bytes.slice(), [1, 2, 3].as_slice());
    }
    assert_eq!(rt; segments.list.slice().len(), 2);
    let items = segments.list.into_vec();
    assert_eq!(rt; SegmentList::of(items).len(), 2);
    Ok(())
}

#[test]
fn a_program_of_code_alone_ends_with_it(rt: HostRuntime) -> Result<(), Fail> {
    let alloc = rt.alloc();
    let program = Program {
        entry: 0x10000,
        code: Bytes::of(vec![in alloc; 0x13, 0x05, 0xf5, 0x7f]?),
        vars: Bytes::of(Vec::new(alloc)),
        zero: 0,
    };
    let bytes = write_elf(alloc, &program)?;
    assert_eq!(rt; bytes.len(), 4100);
    assert!(rt; bytes.slice().ends_with(&[0x13, 0x05, 0xf5, 0x7f]));
    Ok(())
}

#[test]
fn faults_have_texts(rt: HostRuntime) -> Result<(), Fail> {
    let text = ElfFault::Short(64, 0).to_string(rt.alloc())?;
    assert_eq!(rt; text.as_str(), "short: 64 bytes needed, 0 there");
    Ok(())
}
