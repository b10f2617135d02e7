ghost use Rattle.std.specs.Prelude.{◌≡◌, ℕ, List, [], IfOk, IfErr};
ghost use Rattle.vx_asm.specs.Assembling.{Tells, fault_told};
ghost use Rattle.vx_cells.specs.Cells.{CellsState};
ghost use Rattle.vx_elf.specs.Writing.{written};
ghost use Rattle.vx_language.specs.Assembly.{faults, assembled};
ghost use Rattle.vx_machine.specs.Claim.{Claims};
ghost use Rattle.vx_top.specs.Sources.{TellsFile, TellsFault, TellsSource};
ghost use Rattle.vx_words.specs.Words.{AskFor};
ghost use Rattle.vx_words.specs.Words.Command.{Asm};

use crate::load::read_file;
use crate::notes;
use crate::source_notes::bad_source;
use crate::tell::{tell, tell_refusal, tell_want, write_note};
use std::alloc::Global;
use vx_asm::{AsmFault, assemble};
use vx_base::{Bytes, Shelf, Sink, write_text};
use vx_elf::write_elf;
use vx_words::Status;

/// The ELF file of a source's program.
fn file_of(alloc: Global, source: &[u8]) -> Result<Bytes, AsmFault>
    ensures faultless { IfOk result (λ _. faults source.now ≡ []) }
    ensures bytes { IfOk result (λ bytes. bytes ≡ written (assembled source.now)) }
    ensures fault { IfErr result (λ fault. Tells source.now (fault_told fault)) }
{
    let program = assemble(alloc, source)?;
    Ok(write_elf(alloc, &program)?)
}

/// Writes a file, and a note where it could not be written whole.
fn tell_file<K: Sink, N: Sink>(file: &[u8], out: &mut K, note: &mut N) -> Status
    ensures { TellsFile (K.state out.old) (K.state out.new) (N.state note.old) (N.state note.new) file.now result }
{
    match write_text(out, file) {
        Ok(()) => Status::Done,
        Err(_) => {
            write_note(note, notes::write_failed());
            Status::WriteFault
        }
    }
}

/// Tells the fault of the source of that name.
fn tell_fault<N: Sink>(
    alloc: Global,
    name: &str,
    source: &[u8],
    fault: AsmFault,
    note: &mut N,
) -> Status
    ensures { TellsFault (N.state note.old) (N.state note.new) name.now source.now (fault_told fault) result }
{
    match fault.fault() {
        Some(fault) => tell(
            note,
            Status::BadSource,
            bad_source(alloc, name, source, fault),
        ),
        None => tell_want(note),
    }
}

/// Assembles a source, and writes the ELF file of its program, or tells its fault.
fn tell_source<K: Sink, N: Sink>(
    alloc: Global,
    name: &str,
    source: &[u8],
    out: &mut K,
    note: &mut N,
) -> Status
    ensures { TellsSource (K.state out.old) (K.state out.new) (N.state note.old) (N.state note.new) name.now source.now result }
{
    match file_of(alloc, source) {
        Ok(file) => tell_file(file.slice(), out, note),
        Err(fault) => tell_fault(alloc, name, source, fault, note),
    }
}

/// Assembles the source in the file of that name. What the answer says holds for whatever words ask for it, and whatever
/// physical memory there is, which stays as it was.
pub fn asm<F: Shelf, K: Sink, N: Sink>(
    alloc: Global,
    name: &str,
    shelf: &mut F,
    out: &mut K,
    note: &mut N,
) -> Status
    ensures { (words : List (List ℕ)) (cells : CellsState) → AskFor words (Asm name.now) → Claims words (record { shelf = F.state shelf.old; out = K.state out.old; note = N.state note.old; cells = cells }) (record { shelf = F.state shelf.new; out = K.state out.new; note = N.state note.new; cells = cells }) result }
{
    match read_file(alloc, name, shelf) {
        Ok(bytes) => tell_source(alloc, name, bytes.slice(), out, note),
        Err(refusal) => tell_refusal(alloc, name, refusal, note),
    }
}
