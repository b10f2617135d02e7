//! The program's call over shelves and sinks in memory that fail.

ghost use Rattle.std.specs.Prelude.{◌<◌};

use crate::alone::HI;
use crate::read::words_of;
use std::alloc::{AllocError, Global};
use std::test::Fail;
use vx_base::{Bytes, MemShelf, MemSink, NamedFile, Text};
use vx_cells::VecCells;
use vx_top::{Status, frames_for, vexec};

/// A shelf of the program `hi`, whose fetches with these numbers fail.
fn shelf(alloc: Global, fails: Vec<u64>) -> Result<MemShelf, AllocError> {
    let file = NamedFile {
        name: Text::of(Vec::from_slice(alloc, b"hi")?),
        bytes: Bytes::of(Vec::from_slice(alloc, &HI)?),
    };
    Ok(MemShelf::new(alloc, vec![in alloc; file]?, fails))
}

/// A sink with room for a report, whose puts with these numbers fail.
fn sink(alloc: Global, per_put: usize, fails: Vec<u64>) -> Result<MemSink, AllocError>
    requires { 0 < per_put }
{
    MemSink::new(alloc, 4096, per_put, fails)
}

/// What a call answered, and what it wrote.
#[derive(Drop)]
struct Outcome {
    status: Status,
    out: MemSink,
    note: MemSink,
}

/// Calls `vexec` with the words, which lie between spaces, and 32 frames.
fn call(
    alloc: Global,
    words: &str,
    mut shelf: MemShelf,
    mut out: MemSink,
    mut note: MemSink,
) -> Result<Outcome, AllocError> {
    let list = words_of(alloc, words)?;
    let mut cells = VecCells::new(alloc, 32)?;
    let status = vexec(
        alloc,
        list.as_slice(),
        &mut shelf,
        &mut out,
        &mut note,
        &mut cells,
    );
    Ok(Outcome { status, out, note })
}

#[test]
fn a_fault_of_the_output_cuts_the_report_off(rt: HostRuntime) -> Result<(), Fail> {
    let alloc = rt.alloc();
    let shelf = shelf(alloc, Vec::new(alloc))?;
    let out = sink(alloc, 5, vec![in alloc; 2]?)?;
    let note = sink(alloc, 4096, Vec::new(alloc))?;
    let cut = call(alloc, "run --window 1 --lanes 1 raw:hi", shelf, out, note)?;
    assert_eq!(rt; cut.status, Status::WriteFault);
    assert_eq!(rt; cut.out.bytes(), b"proce".as_slice());
    assert_eq!(rt; cut.note.bytes(), b"vexec: write failed\n".as_slice());
    Ok(())
}

#[test]
fn a_fault_of_the_output_cuts_the_listing_off(rt: HostRuntime) -> Result<(), Fail> {
    let alloc = rt.alloc();
    let shelf = shelf(alloc, Vec::new(alloc))?;
    let out = sink(alloc, 6, vec![in alloc; 3]?)?;
    let note = sink(alloc, 4096, Vec::new(alloc))?;
    let cut = call(alloc, "dis hi", shelf, out, note)?;
    assert_eq!(rt; cut.status, Status::WriteFault);
    assert_eq!(rt; cut.out.bytes(), b"addi a0, zer".as_slice());
    Ok(())
}

#[test]
fn a_fault_of_the_shelf_is_told(rt: HostRuntime) -> Result<(), Fail> {
    let alloc = rt.alloc();
    let shelf = shelf(alloc, vec![in alloc; 1]?)?;
    let out = sink(alloc, 4096, Vec::new(alloc))?;
    let note = sink(alloc, 7, vec![in alloc; 2]?)?;
    let refused = call(alloc, "run raw:hi", shelf, out, note)?;
    assert_eq!(rt; refused.status, Status::ReadFault);
    assert_eq!(rt; refused.out.bytes().len(), 0);
    assert_eq!(rt; refused.note.bytes(), b"vexec: ".as_slice());
    Ok(())
}

#[test]
fn words_ask_for_frames(rt: HostRuntime) -> Result<(), Fail> {
    let alloc = rt.alloc();
    for (words, frames) in [
        ("run --frames 21 raw:hi", 21),
        ("run raw:hi", 4096),
        ("alone raw:hi", 0),
        ("dis hi", 0),
    ] {
        let list = words_of(alloc, words)?;
        assert_eq!(rt; frames_for(list.as_slice()), frames, "{words}");
    }
    Ok(())
}
