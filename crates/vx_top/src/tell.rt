ghost use Rattle.std.specs.Prelude.{◌≡◌, string_bytes, MatchResult};
ghost use Rattle.vx_top.specs.Files.{TellsRefusal, TellsReport, TellsListing};
ghost use Rattle.vx_source.specs.Listing.{listing};
ghost use Rattle.vx_machine.specs.Claim.{IsNoted};
ghost use Rattle.vx_top.specs.Noted.{NotesWant};

use crate::fault_notes::bad_image;
use crate::notes;
use crate::refusal::Refusal;
use crate::run::Report;
use std::alloc::{AllocError, Global};
use vx_base::{Sink, write_text};
use vx_dis::{ListingFault, write_listing};
use vx_machine::Stop;
use vx_words::Status;

/// Writes a note. A fault of its sink changes nothing.
pub fn write_note<N: Sink>(note: &mut N, text: &str)
    ensures { IsNoted (N.state note.old) (N.state note.new) text.now }
{
    match write_text(note, text.as_bytes()) {
        Ok(()) => {}
        Err(_) => {}
    }
}

/// Notes that memory was wanting.
pub fn tell_want<N: Sink>(note: &mut N) -> Status
    ensures { NotesWant (N.state note.old) (N.state note.new) result }
{
    write_note(note, notes::no_memory());
    Status::NoMemory
}

/// Answers the status with its note; where memory was wanting for that, notes that.
pub fn tell<N: Sink>(note: &mut N, status: Status, text: Result<String, AllocError>) -> Status
    ensures { MatchResult text (λ t. (result ≡ status) × IsNoted (N.state note.old) (N.state note.new) (string_bytes t)) (λ _. NotesWant (N.state note.old) (N.state note.new) result) }
{
    match text {
        Ok(text) => {
            write_note(note, text.as_str());
            status
        }
        Err(_) => tell_want(note),
    }
}

/// Tells why the file of that name gives no report.
pub fn tell_refusal<N: Sink>(alloc: Global, name: &str, refusal: Refusal, note: &mut N) -> Status
    ensures { TellsRefusal (N.state note.old) (N.state note.new) name.now refusal result }
{
    match refusal {
        Refusal::ReadFault => tell(note, Status::ReadFault, notes::read_failed(alloc, name)),
        Refusal::BadFile(fault) => { tell(note, Status::BadImage, bad_image(alloc, name, fault)) }
        Refusal::TooFewFrames(need, have) => tell(
            note,
            Status::TooFewFrames,
            notes::too_few_frames(alloc, need, have),
        ),
        Refusal::NoMemory => tell_want(note),
    }
}

/// Writes the report, and a note where it could not be written whole.
pub fn tell_report<K: Sink, N: Sink>(report: &Report, out: &mut K, note: &mut N) -> Status
    ensures { TellsReport (K.state out.old) (K.state out.new) (N.state note.old) (N.state note.new) report.now result }
{
    match write_text(out, report.text.slice()) {
        Ok(()) => match report.stop {
            Stop::Done => Status::Done,
            Stop::Spent => Status::Spent,
        },
        Err(_) => {
            write_note(note, notes::write_failed());
            Status::WriteFault
        }
    }
}

/// Writes the listing of a file's bytes, and a note where it could not be written whole.
pub fn tell_listing<K: Sink, N: Sink>(
    alloc: Global,
    bytes: &[u8],
    out: &mut K,
    note: &mut N,
) -> Status
    ensures { TellsListing (K.state out.old) (K.state out.new) (N.state note.old) (N.state note.new) (listing bytes.now) result }
{
    match write_listing(alloc, bytes, out) {
        Ok(()) => Status::Done,
        Err(ListingFault::Write) => {
            write_note(note, notes::write_failed());
            Status::WriteFault
        }
        Err(ListingFault::NoMemory) => tell_want(note),
    }
}
