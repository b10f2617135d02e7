ghost use Rattle.std.specs.Prelude.{◌≡◌, ℕ, List, map, string_bytes};
ghost use Rattle.vx_cells.specs.Cells.{CellsState};
ghost use Rattle.vx_machine.specs.Claim.{Claims};
ghost use Rattle.vx_read.specs.Read.{AreInRange, AreRead};
ghost use Rattle.vx_words.specs.Words.{AskFor};
ghost use Rattle.vx_words.specs.Words.Command.{Dis};

use crate::asm::asm;
use crate::load::{name_of, read_file};
use crate::notes;
use crate::options::options_for;
use crate::run::run_file;
use crate::tell::{tell, tell_listing, tell_refusal, tell_report};
use std::alloc::Global;
use vx_base::{Shelf, Sink};
use vx_cells::Cells;
use vx_read::{Asked, RunWords, read};
use vx_words::{ImageJob, Status};

/// Does the job with the image that words ask for. What the answer says holds for whatever words ask for it.
fn execute<F: Shelf, K: Sink, N: Sink, C: Cells>(
    alloc: Global,
    job: ImageJob,
    run: &RunWords,
    shelf: &mut F,
    out: &mut K,
    note: &mut N,
    cells: &mut C,
) -> Status
    requires in_range { AreInRange run.now }
    requires cycle { (C.state cells.old).cycle ≡ 0 }
    ensures { (words : List (List ℕ)) → AreRead job words run.now → Claims words (record { shelf = F.state shelf.old; out = K.state out.old; note = N.state note.old; cells = C.state cells.old }) (record { shelf = F.state shelf.new; out = K.state out.new; note = N.state note.new; cells = C.state cells.new }) result }
{
    let options = options_for(run);
    match run_file(alloc, job, run.image, &options, shelf, cells) {
        Ok(report) => tell_report(&report, out, note),
        Err(refusal) => tell_refusal(alloc, name_of(run.image), refusal, note),
    }
}

/// Lists the instructions of the file of that name. What the answer says holds for whatever words ask for it, and whatever
/// physical memory there is, which stays as it was.
fn dis<F: Shelf, K: Sink, N: Sink>(
    alloc: Global,
    name: &str,
    shelf: &mut F,
    out: &mut K,
    note: &mut N,
) -> Status
    ensures { (words : List (List ℕ)) (cells : CellsState) → AskFor words (Dis name.now) → Claims words (record { shelf = F.state shelf.old; out = K.state out.old; note = N.state note.old; cells = cells }) (record { shelf = F.state shelf.new; out = K.state out.new; note = N.state note.new; cells = cells }) result }
{
    match read_file(alloc, name, shelf) {
        Ok(bytes) => tell_listing(alloc, bytes.slice(), out, note),
        Err(refusal) => tell_refusal(alloc, name, refusal, note),
    }
}

/// All that the program does: reads the words, runs the image, on the machine or alone, lists the file or assembles the source
/// that they name, writes the report, the listing or the ELF file on `out`, and answers a status, with its note on `note`. The machine's
/// physical memory is `cells`, at cycle 0.
pub fn vexec<F: Shelf, K: Sink, N: Sink, C: Cells>(
    alloc: Global,
    words: &[String],
    shelf: &mut F,
    out: &mut K,
    note: &mut N,
    cells: &mut C,
) -> Status
    requires cycle { (C.state cells.old).cycle ≡ 0 }
    ensures { Claims (map string_bytes words.now) (record { shelf = F.state shelf.old; out = K.state out.old; note = N.state note.old; cells = C.state cells.old }) (record { shelf = F.state shelf.new; out = K.state out.new; note = N.state note.new; cells = C.state cells.new }) result }
{
    match read(words) {
        Ok(Asked::Execute(job, asked)) => execute(alloc, job, &asked, shelf, out, note, cells),
        Ok(Asked::Dis(name)) => dis(alloc, name, shelf, out, note),
        Ok(Asked::Asm(name)) => asm(alloc, name, shelf, out, note),
        Err(index) => tell(note, Status::Usage, notes::bad_words(alloc, index)),
    }
}
