ghost use Rattle.vx_cells.specs.LogCells.{log_cells_told};
ghost use Rattle.vx_tables.specs.Walking.{HaveTables};

use crate::{Walked, build, build_present, walk};
use std::test::Fail;
use vx_base::{PageEntry, PageList, Perm, Want};
use vx_cells::{Access, Cells, LogCells, Port};

/// Walks tables that stay.
fn walked(cells: &mut LogCells, root: u32, address: u64, want: Want) -> Walked
    requires { HaveTables (log_cells_told cells.old) root }
    ensures { HaveTables (log_cells_told cells.new) root }
{
    walk(cells, root, address, want)
}

/// A word of physical memory, where there is one.
fn word_at(cells: &mut LogCells, word: u32) -> Option<u64> {
    if word >= 512 * cells.frames() {
        return None;
    }
    Some(cells.read(Port::Kernel, word))
}

#[test]
fn present_pages_are_walked(rt: HostRuntime) -> Result<(), Fail> {
    let mut cells = LogCells::new(rt.alloc(), 32, 0)?;
    let code = PageEntry {
        page: 0x1ff,
        perm: Perm { bits: 5 },
    };
    let stack = PageEntry {
        page: 0x200,
        perm: Perm { bits: 6 },
    };
    let pages = PageList::of(vec![in rt.alloc(); code, stack]?);
    assert_eq!(rt; build_present(&mut cells, 2, &pages, 9), 4);
    let x = Perm { bits: 5 };
    let w = Perm { bits: 6 };
    for (address, want, answer) in [
        (0x1ff000, Want::Fetch, Walked::Leaf(9, x, false)),
        (0x1fffff, Want::Load, Walked::Leaf(9, x, false)),
        (0x1ff000, Want::Store, Walked::Denied),
        (0x200000, Want::Load, Walked::Leaf(10, w, false)),
        (0x200fff, Want::Store, Walked::Leaf(10, w, true)),
        (0x200000, Want::Load, Walked::Leaf(10, w, true)),
        (0x200000, Want::Fetch, Walked::Denied),
        (0x201000, Want::Load, Walked::Denied),
        (0x400000, Want::Load, Walked::Denied),
        (0x4000_0000, Want::Load, Walked::Denied),
        (0x100_0020_0000, Want::Load, Walked::Denied),
        (0xffff_ffc0_0020_0000, Want::Load, Walked::Denied),
    ] {
        assert_eq!(rt;
            walked(&mut cells, 2, address, want),
            answer,
            "at {address:x}"
        );
    }
    Ok(())
}

#[test]
fn a_walk_is_logged_word_by_word(rt: HostRuntime) -> Result<(), Fail> {
    let mut cells = LogCells::new(rt.alloc(), 16, 2000)?;
    let data = PageEntry {
        page: 0x200,
        perm: Perm { bits: 6 },
    };
    let pages = PageList::of(vec![in rt.alloc(); data]?);
    assert_eq!(rt; build_present(&mut cells, 1, &pages, 7), 3);
    cells.advance(40);
    assert_eq!(rt;
        walked(&mut cells, 1, 0x200008, Want::Store),
        Walked::Leaf(7, Perm { bits: 6 }, true)
    );
    let log = cells.log().ok_or("the log is over")?;
    assert_eq!(rt; log.len(), 1536 + 4);
    for (k, word, written, value) in [
        (1536, 512, false, 0x801),
        (1537, 1025, false, 0xc01),
        (1538, 1536, false, 0x1c17),
        (1539, 1536, true, 0x1cd7),
    ] {
        let access = Access {
            cycle: 40,
            port: Port::Walk,
            word,
            written,
            bytes: 255,
            value,
        };
        assert_eq!(rt; log.get(k).copied(), Some(access));
    }
    Ok(())
}

#[test]
fn tables_stand_one_behind_the_other(rt: HostRuntime) -> Result<(), Fail> {
    let mut cells = LogCells::new(rt.alloc(), 8, 0)?;
    let first = PageEntry {
        page: 0x3ff_ffff,
        perm: Perm { bits: 6 },
    };
    let second = PageEntry {
        page: 0,
        perm: Perm { bits: 0 },
    };
    let pages = PageList::of(vec![in rt.alloc(); first]?);
    assert_eq!(rt; build(&mut cells, 0, &pages), 3);
    let pages = PageList::of(vec![in rt.alloc(); second]?);
    assert_eq!(rt; build(&mut cells, 3, &pages), 3);
    assert_eq!(rt; walked(&mut cells, 3, 8, Want::Load), Walked::Away);
    for (word, value) in [
        (0, 0),
        (255, 0x401),
        (512 + 511, 0x801),
        (1024 + 510, 0),
        (1024 + 511, 0x100),
        (1536, 0x1001),
        (2048, 0x1401),
        (2560, 0x100),
        (2561, 0),
    ] {
        assert_eq!(rt; word_at(&mut cells, word), Some(value), "word {word}");
    }
    Ok(())
}
