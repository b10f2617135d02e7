ghost use Rattle.std.specs.Prelude.{◌≡◌, ◌+◌, ◌≤◌, ℕ, [], Some, codes, option_map, unwrap_or, IfOk, IfErr};
ghost use Rattle.vx_language.specs.Assembly.{layout, chunks};
ghost use Rattle.vx_language.specs.Forms.{OfCode, OfVariables};
ghost use Rattle.vx_language.specs.Places.{Place, address_of, total};
ghost use Rattle.vx_statement.specs.Labels.{place_in};
ghost use Rattle.vx_asm.specs.Assembling.{Assembles, Tells, fault_told};
ghost use Rattle.vx_asm.specs.Emitting.{AreParts, part_size};
ghost use Rattle.vx_asm.specs.Written.{IsLaid, IsProgramOf};

use crate::asm_fault::AsmFault;
use crate::emit::emit;
use crate::labels::defined_labels;
use crate::lexical::lexical_fault;
use crate::parts::Parts;
use crate::placing::{Laid, place_lines};
use std::alloc::{AllocError, Global};
use vx_base::Bytes;
use vx_code::address_of;
use vx_elf::Program;
use vx_statement::{Labels, first};

/// Where the code begins in memory.
const CODE_ADDRESS: u64 = 0x10000;

/// The lines of a source, laid out, where it has no fault but those of offsets to labels; else its first fault.
fn lay_out<'a>(alloc: Global, source: &'a [u8]) -> Result<Laid<'a>, AsmFault>
    ensures laid { IfOk result (IsLaid source.entry.now) }
    ensures fault { IfErr result (λ fault. Tells source.entry.now (fault_told fault)) }
{
    let defined = defined_labels(alloc, source)?;
    let laid = place_lines(alloc, source, &defined.labels)?;
    match first(first(lexical_fault(source), defined.fault), laid.fault) {
        Some(fault) => Err(AsmFault::of(fault)),
        None => Ok(laid),
    }
}

/// The address of the label `_start`, or else where the code begins.
fn entry_of(labels: &Labels<'_>, code: u32) -> u64
    requires { (place : Place) → place_in (codes "_start") labels.now ≡ Some place → total place ≤ 8388608 }
    ensures { result ≡ unwrap_or (option_map (address_of code) (place_in (codes "_start") labels.now)) 0x10000 }
{
    match labels.place(b"_start") {
        Some(place) => address_of(code, place) as u64,
        None => CODE_ADDRESS,
    }
}

/// The program of sections, with this entry. `Err` where memory is wanting.
fn program_of(parts: Parts, entry: u64) -> Result<Program, AllocError>
    requires room { part_size parts.code + part_size parts.variables ≤ 8388608 }
    ensures { IfOk result (IsProgramOf entry parts) }
{
    let Parts { code, variables } = parts;
    let mut code = code;
    code.flush()?;
    Ok(Program {
        entry,
        code: Bytes::of(code.bytes),
        vars: Bytes::of(variables.bytes),
        zero: variables.zeros,
    })
}

/// The program of a source whose lines are laid out so, or the first of its labels that is out of reach.
fn put_together(alloc: Global, source: &[u8], laid: &Laid<'_>) -> Result<Program, AsmFault>
    requires laid { IsLaid source.now laid.now }
    ensures { Assembles source.now result }
{
    let code = laid.end.code as u32;
    let emitted = emit(alloc, source, &laid.labels, code)?;
    if let Some(fault) = emitted.fault {
        return Err(AsmFault::of(fault));
    }
    Ok(program_of(emitted.parts, entry_of(&laid.labels, code))?)
}

/// The program of a source, of at most 8 MiB, or its first fault: the one that starts first, and of two that start at one byte
/// the one that comes first in `AsmFault`. Linear in the source.
pub fn assemble(alloc: Global, source: &[u8]) -> Result<Program, AsmFault>
    ensures { Assembles source.now result }
{
    let laid = lay_out(alloc, source)?;
    put_together(alloc, source, &laid)
}
