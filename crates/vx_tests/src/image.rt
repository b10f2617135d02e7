use std::test::Fail;
use vx_base::{Bytes, Page, Perm};
use vx_elf::{Program, read_elf, write_elf};
use vx_image::{ImageFault, image_of, place_of, raw_image};

#[test]
fn raw_bytes_are_an_image(rt: HostRuntime) -> Result<(), Fail> {
    let alloc = rt.alloc();
    let image = raw_image(alloc, &[0x73, 0, 0, 0])?;
    assert_eq!(rt; image.entry(), 0x10000);
    assert_eq!(rt; image.pages(alloc)?.len(), 17);
    assert_eq!(rt; image.table_frames(), 5);
    assert_eq!(rt; image.perm(0x10), Some(Perm { bits: 5 }));
    assert_eq!(rt; image.perm(0x11), None);
    let contents = image.contents();
    assert_eq!(rt; place_of(contents.entries, 0x10), Some(0));
    assert_eq!(rt; contents.bytes.len(), 4096 * 17);
    Ok(())
}

#[test]
fn a_written_program_is_an_image(rt: HostRuntime) -> Result<(), Fail> {
    let alloc = rt.alloc();
    let program = Program {
        entry: 0x10000,
        code: Bytes::of(vec![in alloc; 0x73, 0, 0, 0]?),
        vars: Bytes::of(vec![in alloc; 9]?),
        zero: 4096,
    };
    let bytes = write_elf(alloc, &program)?;
    let image = image_of(alloc, &read_elf(alloc, bytes.slice())?)?;
    assert_eq!(rt; image.pages(alloc)?.len(), 3 + 16);
    if image.perm(0x11).is_some() {
        let mut page = Page { words: [7; 512] };
        image.load(0x11, &mut page);
        assert_eq!(rt; page.byte(0), 9);
        assert_eq!(rt; page.byte(1), 0);
    }
    let text = ImageFault::EntryNotCode(0x12).to_string(alloc)?;
    assert_eq!(rt; text.as_str(), "entry 0x0000000000000012 is not code");
    Ok(())
}
