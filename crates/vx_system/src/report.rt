ghost use Rattle.std.specs.Prelude.{◌≡◌, ◌+◌, ◌<◌, ◌++◌, ◌∷◌, [], codes, decimal, length, IfOk, OnOk, Some, None, string_bytes};
ghost use Rattle.vx_base.specs.Hex.{hex_digits};
ghost use Rattle.vx_machine.specs.Accounts.{standing_of};
ghost use Rattle.vx_system.specs.Told.{told};
ghost use Rattle.vx_words.specs.Lines.{line};
ghost use Rattle.vx_machine.specs.Report.{standing_words, count_words, process_text, measure_word, stop_word, report};

use std::alloc::{AllocError, Global};
use vx_base::{Bytes, Fault, push_hex};
use vx_flat::End;
use vx_machine::{Costs, Measure, Stop};

/// What the report tells of a process.
#[derive(Clone, Copy, Debug)]
pub struct ProcessReport<'a> {
    pub over: Option<End>,
    pub pc: u64,
    pub vstart: u32,
    pub instructions: u64,
    pub costs: Option<Costs>,
    pub output: &'a [u8],
}

/// Appends the 16 hexadecimal digits of a number.
fn push_number(alloc: Global, text: &mut Vec<u8>, n: u64) -> Result<(), AllocError>
    ensures { OnOk result (text.new.items ≡ text.old.items ++ hex_digits 16 n) }
{
    let mut digits = String::new(alloc);
    push_hex(&mut digits, 16, n)?;
    text.extend_from_slice(digits.as_bytes())?;
    Ok(())
}

/// Appends words.
fn push_words(text: &mut Vec<u8>, words: &str) -> Result<(), AllocError>
    ensures { OnOk result (text.new.items ≡ text.old.items ++ words.now) }
{
    text.extend_from_slice(words.as_bytes())?;
    Ok(())
}

/// Appends the line of a process that exited.
fn push_exited(alloc: Global, text: &mut Vec<u8>, number: u32, code: i64) -> Result<(), AllocError>
    ensures { OnOk result (text.new.items ≡ text.old.items ++ line (codes "process " ∷ decimal number ∷ codes ": " ∷ standing_words (standing_of 0 0 (Some (End.Exited code))))) }
{
    let start = format!(in alloc; "process {number}: exited {code}\n")?;
    text.extend_from_slice(start.as_bytes())?;
    Ok(())
}

/// Appends the line of a process that faulted.
fn push_faulted(
    alloc: Global,
    text: &mut Vec<u8>,
    number: u32,
    fault: Fault,
    pc: u64,
) -> Result<(), AllocError>
    ensures { OnOk result (text.new.items ≡ text.old.items ++ line (codes "process " ∷ decimal number ∷ codes ": " ∷ standing_words (standing_of pc 0 (Some (End.Faulted fault))))) }
{
    let cause = fault.cause;
    let start = format!(in alloc; "process {number}: faulted cause {cause} pc 0x")?;
    text.extend_from_slice(start.as_bytes())?;
    push_number(alloc, text, pc)?;
    push_words(text, " tval 0x")?;
    push_number(alloc, text, fault.tval)?;
    let vstart = fault.vstart;
    let end = format!(in alloc; " vstart {vstart}\n")?;
    text.extend_from_slice(end.as_bytes())?;
    Ok(())
}

/// Appends the line of a process that was stopped.
fn push_stopped(
    alloc: Global,
    text: &mut Vec<u8>,
    number: u32,
    pc: u64,
    vstart: u32,
) -> Result<(), AllocError>
    ensures { OnOk result (text.new.items ≡ text.old.items ++ line (codes "process " ∷ decimal number ∷ codes ": " ∷ standing_words (standing_of pc vstart None))) }
{
    let start = format!(in alloc; "process {number}: stopped pc 0x")?;
    text.extend_from_slice(start.as_bytes())?;
    push_number(alloc, text, pc)?;
    let end = format!(in alloc; " vstart {vstart}\n")?;
    text.extend_from_slice(end.as_bytes())?;
    Ok(())
}

/// Appends the line that tells how a process stands.
fn push_standing(
    alloc: Global,
    text: &mut Vec<u8>,
    number: u32,
    process: &ProcessReport<'_>,
) -> Result<(), AllocError>
    ensures { OnOk result (text.new.items ≡ text.old.items ++ line (codes "process " ∷ decimal number ∷ codes ": " ∷ standing_words (standing_of process.now.pc process.now.vstart process.now.over))) }
{
    match process.over {
        Some(End::Exited(code)) => push_exited(alloc, text, number, code),
        Some(End::Faulted(fault)) => push_faulted(alloc, text, number, fault, process.pc),
        None => push_stopped(alloc, text, number, process.pc, process.vstart),
    }
}

/// Appends the line of the instructions of a process, and of what they cost.
fn push_counts(
    alloc: Global,
    text: &mut Vec<u8>,
    instructions: u64,
    costs: Option<Costs>,
) -> Result<(), AllocError>
    ensures { OnOk result (text.new.items ≡ text.old.items ++ line (count_words instructions costs)) }
{
    match costs {
        None => push_instructions(alloc, text, instructions),
        Some(costs) => push_costs(alloc, text, instructions, costs),
    }
}

/// Appends the line of the instructions of a process.
fn push_instructions(alloc: Global, text: &mut Vec<u8>, instructions: u64) -> Result<(), AllocError>
    ensures { OnOk result (text.new.items ≡ text.old.items ++ line (count_words instructions None)) }
{
    let counts = format!(in alloc; "  instructions {instructions}\n")?;
    text.extend_from_slice(counts.as_bytes())?;
    Ok(())
}

/// Appends the line of the instructions of a process, which cost this.
fn push_costs(
    alloc: Global,
    text: &mut Vec<u8>,
    instructions: u64,
    costs: Costs,
) -> Result<(), AllocError>
    ensures { OnOk result (text.new.items ≡ text.old.items ++ line (count_words instructions (Some costs))) }
{
    let cycles = costs.cycles;
    let misses = costs.misses;
    let counts = format!(in alloc;
        "  instructions {instructions} cycles {cycles} misses {misses}\n"
    )?;
    text.extend_from_slice(counts.as_bytes())?;
    Ok(())
}

/// Appends what a process wrote, behind a line with its length.
fn push_output(alloc: Global, text: &mut Vec<u8>, output: &[u8]) -> Result<(), AllocError>
    ensures { OnOk result (text.new.items ≡ text.old.items ++ line (codes "  output " ∷ decimal (length output.now) ∷ []) ++ line (output.now ∷ [])) }
{
    let count = output.len();
    let start = format!(in alloc; "  output {count}\n")?;
    text.extend_from_slice(start.as_bytes())?;
    text.extend_from_slice(output)?;
    text.push(b'\n')?;
    Ok(())
}

/// Appends what the report tells of the process of that number.
fn push_process(
    alloc: Global,
    text: &mut Vec<u8>,
    number: u32,
    process: &ProcessReport<'_>,
) -> Result<(), AllocError>
    ensures { OnOk result (text.new.items ≡ text.old.items ++ process_text number (told process.now)) }
{
    push_standing(alloc, text, number, process)?;
    push_counts(alloc, text, process.instructions, process.costs)?;
    push_output(alloc, text, process.output)?;
    Ok(())
}

/// The report's word for how a run stopped.
pub fn stop_word(stop: Stop) -> &'static str
    ensures { result.now ≡ stop_word stop }
{
    match stop {
        Stop::Done => "done",
        Stop::Spent => "spent",
    }
}

/// The report's word for what a total counts.
fn measure_word(measure: Measure) -> &'static str
    ensures { result.now ≡ measure_word measure }
{
    match measure {
        Measure::Cycles => "cycles",
        Measure::Instructions => "instructions",
    }
}

/// Appends the line that ends the report.
fn push_total(
    alloc: Global,
    text: &mut Vec<u8>,
    total: u64,
    measure: Measure,
    stop: Stop,
) -> Result<(), AllocError>
    ensures { OnOk result (text.new.items ≡ text.old.items ++ line (codes "total " ∷ decimal total ∷ codes " " ∷ measure_word measure ∷ codes ", " ∷ stop_word stop ∷ [])) }
{
    let unit = measure_word(measure);
    let word = stop_word(stop);
    let end = format!(in alloc; "total {total} {unit}, {word}\n")?;
    text.extend_from_slice(end.as_bytes())?;
    Ok(())
}

/// The report's bytes of one process, which stopped so at this total.
pub fn report(
    alloc: Global,
    process: &ProcessReport<'_>,
    total: u64,
    measure: Measure,
    stop: Stop,
) -> Result<Bytes, AllocError>
    ensures { IfOk result (λ text. text ≡ report (told process.now ∷ []) total measure stop) }
{
    let mut text = Vec::new(alloc);
    push_process(alloc, &mut text, 0, process)?;
    push_total(alloc, &mut text, total, measure, stop)?;
    Ok(Bytes::of(text))
}
