ghost use Rattle.std.specs.Prelude.{◌≡◌};

use crate::{Access, Banks, Cells, LogCells, Port, Queued, Served, VecCells};
use std::test::Fail;

/// An access of a test.
fn access(cycle: u64, port: Port, word: u32, written: bool, bytes: u8, value: u64) -> Access {
    Access {
        cycle,
        port,
        word,
        written,
        bytes,
        value,
    }
}

#[test]
fn bytes_are_written_by_their_mask(rt: HostRuntime) -> Result<(), Fail> {
    let mut cells = VecCells::new(rt.alloc(), 2)?;
    cells.write(Port::Data, 1023, 0x1122_3344_5566_7788, 0xff);
    cells.write(Port::Data, 1023, 0xa1a2_a3a4_a5a6_a7a8, 0b1001_0010);
    assert_eq!(rt; cells.read(Port::Kernel, 1023), 0xa122_33a4_5566_a788);
    assert_eq!(rt; cells.read(Port::Kernel, 1022), 0);
    cells.advance(7);
    assert_eq!(rt; (cells.frames(), cells.now()), (2, 7));
    Ok(())
}

#[test]
fn the_log_lasts_as_long_as_its_room(rt: HostRuntime) -> Result<(), Fail> {
    let mut cells = LogCells::new(rt.alloc(), 1, 3)?;
    cells.write(Port::Kernel, 511, 0x1122_3344_5566_7788, 0b0000_0011);
    cells.advance(5);
    let value = cells.read(Port::Walk, 511);
    assert_eq!(rt; value, 0x7788);
    cells.write(Port::Data, 0, u64::MAX, 0);
    let told = [
        access(0, Port::Kernel, 511, true, 3, 0x7788),
        access(5, Port::Walk, 511, false, 255, 0x7788),
        access(5, Port::Data, 0, true, 0, 0),
    ];
    assert_eq!(rt; cells.log(), Some(told.as_slice()));
    assert_eq!(rt; cells.read(Port::Fetch, 0), 0);
    assert_eq!(rt; cells.log(), None);
    assert_eq!(rt; (cells.frames(), cells.now()), (1, 5));
    Ok(())
}

/// A store of a test to a word of one frame, or a load from one.
fn queued(tag: u32, word: u32, value: u64, store: bool) -> Queued
    ensures { result.word ≡ word }
{
    Queued {
        tag,
        word,
        bytes: 255,
        value,
        store,
    }
}

#[test]
fn banks_serve_in_order(rt: HostRuntime) -> Result<(), Fail> {
    let mut cells = VecCells::new(rt.alloc(), 1)?;
    let mut banks = Banks::new(4, 3);
    banks.offer(queued(0, 5, 70, true));
    banks.offer(queued(1, 2, 71, true));
    banks.offer(queued(2, 5, 72, false));
    assert!(rt; banks.ready(1, 0));
    assert!(rt; !banks.ready(0, 0));
    assert_eq!(rt; banks.serve(&mut cells, 1), Served { tag: 0, value: 70 });
    assert!(rt; !banks.ready(1, 2));
    assert!(rt; banks.ready(1, 3));
    assert_eq!(rt; banks.serve(&mut cells, 1), Served { tag: 2, value: 70 });
    assert!(rt; !banks.ready(1, 9));
    Ok(())
}
