use bitflags::Flags;
use std::alloc::{AllocError, Global};
use std::test::Fail;
use vx_base::{
    Bytes, Fetched, MemShelf, MemSink, NamedFile, Options, Page, PageEntry, PageList, Perm, Shelf,
    SureShelf, Text, Want, WriteFault, push_hex, write_text,
};

/// A file of these words.
fn file(alloc: Global, name: &str, bytes: &[u8]) -> Result<NamedFile, AllocError> {
    Ok(NamedFile {
        name: Text::of(Vec::from_slice(alloc, name.as_bytes())?),
        bytes: Bytes::of(Vec::from_slice(alloc, bytes)?),
    })
}

/// Two files of one name.
fn two_files(alloc: Global) -> Result<Vec<NamedFile>, AllocError> {
    let mut files = Vec::new(alloc);
    files.push(file(alloc, "kernel", &[1, 2, 3])?)?;
    files.push(file(alloc, "kernel", &[4])?)?;
    Ok(files)
}

/// Whether these bytes were got.
fn got(fetched: &Fetched, want: &[u8]) -> bool {
    match fetched {
        Fetched::Got(bytes) => bytes.slice() == want,
        Fetched::Failed | Fetched::TooLong => false,
    }
}

#[test]
fn a_failing_put_leaves_a_prefix(rt: HostRuntime) -> Result<(), Fail> {
    let fails = vec![in rt.alloc(); 2]?;
    let mut sink = MemSink::new(rt.alloc(), 16, 3, fails)?;
    assert_eq!(rt; write_text(&mut sink, b"retire"), Err(WriteFault));
    assert_eq!(rt; sink.bytes(), b"ret".as_slice());
    assert_eq!(rt; write_text(&mut sink, b"ire"), Ok(()));
    assert_eq!(rt; sink.bytes(), b"retire".as_slice());
    Ok(())
}

#[test]
fn a_full_sink_fails(rt: HostRuntime) -> Result<(), Fail> {
    let mut sink = MemSink::new(rt.alloc(), 4, 8, Vec::new(rt.alloc()))?;
    assert_eq!(rt; write_text(&mut sink, b"banks"), Err(WriteFault));
    assert_eq!(rt; sink.bytes(), b"bank".as_slice());
    Ok(())
}

#[test]
fn a_shelf_in_memory_answers_each_way(rt: HostRuntime) -> Result<(), Fail> {
    let alloc = rt.alloc();
    let fails = vec![in alloc; 4]?;
    let mut shelf = MemShelf::new(alloc, two_files(alloc)?, fails);
    let first = shelf.fetch(alloc, "kernel", 3)?;
    assert!(rt; got(&first, &[1, 2, 3]));
    let absent = shelf.fetch(alloc, "kerne", 3)?;
    assert!(rt; matches!(&absent, Fetched::Failed));
    let long = shelf.fetch(alloc, "kernel", 2)?;
    assert!(rt; matches!(&long, Fetched::TooLong));
    let fourth = shelf.fetch(alloc, "kernel", 3)?;
    assert!(rt; matches!(&fourth, Fetched::Failed));
    Ok(())
}

#[test]
fn a_sure_shelf_has_every_name(rt: HostRuntime) -> Result<(), Fail> {
    let alloc = rt.alloc();
    let mut shelf = SureShelf::new(alloc, two_files(alloc)?);
    let first = shelf.fetch(alloc, "kernel", 3)?;
    assert!(rt; got(&first, &[1, 2, 3]));
    let long = shelf.fetch(alloc, "kernel", 2)?;
    assert!(rt; matches!(&long, Fetched::TooLong));
    let unknown = shelf.fetch(alloc, "nowhere", 0)?;
    assert!(rt; got(&unknown, &[]));
    Ok(())
}

#[test]
fn lists_are_read(rt: HostRuntime) -> Result<(), Fail> {
    let bytes = Bytes::of(vec![in rt.alloc(); 7, 8]?);
    assert_eq!(rt; bytes.len(), 2);
    assert!(rt; !bytes.is_empty());
    assert_eq!(rt; bytes.get(1).copied(), Some(8));
    assert_eq!(rt; bytes.into_vec().as_slice(), [7, 8].as_slice());
    let NamedFile { name, .. } = file(rt.alloc(), "é", &[])?;
    assert_eq!(rt; name.len(), 2);
    assert!(rt; !name.is_empty());
    assert_eq!(rt; name.get(0).copied(), Some(0xc3));
    assert_eq!(rt; name.slice(), [0xc3, 0xa9].as_slice());
    let stack = PageEntry {
        page: 0x3ff_ffff,
        perm: Perm { bits: 6 },
    };
    let pages = PageList::of(vec![in rt.alloc(); stack]?);
    assert_eq!(rt; pages.len(), 1);
    assert!(rt; !pages.is_empty());
    assert_eq!(rt; pages.get(0).copied(), Some(stack));
    assert_eq!(rt; pages.into_vec().as_slice(), [stack].as_slice());
    Ok(())
}

#[test]
fn numbers_have_digits(rt: HostRuntime) -> Result<(), Fail> {
    let mut text = String::new(rt.alloc());
    push_hex(&mut text, 4, 0xbad)?;
    assert_eq!(rt; text.as_str(), "0bad");
    Ok(())
}

#[test]
fn a_page_has_its_bytes_least_first(rt: HostRuntime) {
    let mut page = Page { words: [0; 512] };
    page.words[511] = 0xff00_0000_0000_0001;
    for (j, want) in [(0, 0), (4088, 1), (4095, 0xff)] {
        assert_eq!(rt; page.byte(j), want, "byte {j}");
    }
}

#[test]
fn permissions_grant_accesses(rt: HostRuntime) {
    let perm = Perm::R.union(Perm::X);
    assert!(rt; perm.grants(Want::Fetch));
    assert!(rt; perm.grants(Want::Load));
    assert!(rt; !perm.grants(Want::Store));
    assert!(rt; !perm.contains(Perm::W));
}

#[test]
fn options_have_their_first_values(rt: HostRuntime) {
    assert_eq!(rt; Options::new().vlen, 256);
}
