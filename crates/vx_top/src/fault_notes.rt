ghost use Rattle.std.specs.Prelude.{◌≡◌, IfOk, string_bytes};
ghost use Rattle.vx_words.specs.Notes.{bad_image};

use crate::notes::FILE_LIMIT;
use std::alloc::{AllocError, Global};
use vx_base::push_hex;
use vx_elf::ElfFault;
use vx_image::ImageFault;
use vx_words::FileFault;

/// The note where a file has more bytes than the limit.
fn too_long(alloc: Global, name: &str) -> Result<String, AllocError>
    ensures { IfOk result (λ text. string_bytes text ≡ bad_image name.now (FileFault.TooLong)) }
{
    format!(in alloc; "vexec: {name}: longer than {FILE_LIMIT} bytes\n")
}

/// The note where an ELF file is too short.
fn short(alloc: Global, name: &str, need: u128, there: u64) -> Result<String, AllocError>
    ensures { IfOk result (λ text. string_bytes text ≡ bad_image name.now (FileFault.BadElf (ElfFault.Short need there))) }
{
    format!(in alloc; "vexec: {name}: short: {need} bytes needed, {there} there\n")
}

/// The note where a file is no ELF file.
fn not_elf(alloc: Global, name: &str) -> Result<String, AllocError>
    ensures { IfOk result (λ text. string_bytes text ≡ bad_image name.now (FileFault.BadElf ElfFault.NotElf)) }
{
    format!(in alloc; "vexec: {name}: not ELF\n")
}

/// The note where an ELF file is for another machine.
fn not_riscv(alloc: Global, name: &str, machine: u16) -> Result<String, AllocError>
    ensures { IfOk result (λ text. string_bytes text ≡ bad_image name.now (FileFault.BadElf (ElfFault.NotRiscv machine))) }
{
    format!(in alloc; "vexec: {name}: machine {machine}\n")
}

/// The note where an ELF file isn't executable.
fn not_exec(alloc: Global, name: &str, kind: u16) -> Result<String, AllocError>
    ensures { IfOk result (λ text. string_bytes text ≡ bad_image name.now (FileFault.BadElf (ElfFault.NotExec kind))) }
{
    format!(in alloc; "vexec: {name}: type {kind}\n")
}

/// The note where an ELF file has compressed code.
fn compressed(alloc: Global, name: &str) -> Result<String, AllocError>
    ensures { IfOk result (λ text. string_bytes text ≡ bad_image name.now (FileFault.BadElf ElfFault.Compressed)) }
{
    format!(in alloc; "vexec: {name}: compressed code\n")
}

/// The note where an ELF file's table of program headers can't be read.
fn bad_table(alloc: Global, name: &str, place: u64) -> Result<String, AllocError>
    ensures { IfOk result (λ text. string_bytes text ≡ bad_image name.now (FileFault.BadElf (ElfFault.BadTable place))) }
{
    format!(in alloc; "vexec: {name}: bad table at {place}\n")
}

/// The note where an ELF file asks for an interpreter.
fn interpreter(alloc: Global, name: &str, index: u32) -> Result<String, AllocError>
    ensures { IfOk result (λ text. string_bytes text ≡ bad_image name.now (FileFault.BadElf (ElfFault.Interp index))) }
{
    format!(in alloc; "vexec: {name}: interpreter at header {index}\n")
}

/// The note where a segment's range is bad.
fn bad_range(alloc: Global, name: &str, index: u32) -> Result<String, AllocError>
    ensures { IfOk result (λ text. string_bytes text ≡ bad_image name.now (FileFault.BadElf (ElfFault.BadRange index))) }
{
    format!(in alloc; "vexec: {name}: bad range at header {index}\n")
}

/// The note where two segments overlap.
fn overlap(alloc: Global, name: &str, one: u32, other: u32) -> Result<String, AllocError>
    ensures { IfOk result (λ text. string_bytes text ≡ bad_image name.now (FileFault.BadElf (ElfFault.Overlap one other))) }
{
    format!(in alloc; "vexec: {name}: segments {one} and {other} overlap\n")
}

/// The note where raw bytes are none or no whole words.
fn raw_length(alloc: Global, name: &str, count: u64) -> Result<String, AllocError>
    ensures { IfOk result (λ text. string_bytes text ≡ bad_image name.now (FileFault.NoImage (ImageFault.RawLength count))) }
{
    format!(in alloc; "vexec: {name}: raw length {count}\n")
}

/// The note where a page may be both written and executed.
fn write_exec(alloc: Global, name: &str, page: u64) -> Result<String, AllocError>
    ensures { IfOk result (λ text. string_bytes text ≡ bad_image name.now (FileFault.NoImage (ImageFault.WriteExec page))) }
{
    format!(in alloc; "vexec: {name}: page {page} is writable and executable\n")
}

/// The note where an image has too many pages.
fn too_many_pages(alloc: Global, name: &str, count: u64) -> Result<String, AllocError>
    ensures { IfOk result (λ text. string_bytes text ≡ bad_image name.now (FileFault.NoImage (ImageFault.TooManyPages count))) }
{
    format!(in alloc; "vexec: {name}: {count} pages\n")
}

/// The note where an image's entry isn't code.
fn entry_not_code(alloc: Global, name: &str, entry: u64) -> Result<String, AllocError>
    ensures { IfOk result (λ text. string_bytes text ≡ bad_image name.now (FileFault.NoImage (ImageFault.EntryNotCode entry))) }
{
    let mut text = format!(in alloc; "vexec: {name}: entry 0x")?;
    push_hex(&mut text, 16, entry)?;
    text.push_str(" is not code\n")?;
    Ok(text)
}

/// The note where an ELF file is refused.
fn bad_elf(alloc: Global, name: &str, fault: ElfFault) -> Result<String, AllocError>
    ensures { IfOk result (λ text. string_bytes text ≡ bad_image name.now (FileFault.BadElf fault)) }
{
    match fault {
        ElfFault::Short(need, there) => short(alloc, name, need, there),
        ElfFault::NotElf => not_elf(alloc, name),
        ElfFault::NotRiscv(machine) => not_riscv(alloc, name, machine),
        ElfFault::NotExec(kind) => not_exec(alloc, name, kind),
        ElfFault::Compressed => compressed(alloc, name),
        ElfFault::BadTable(place) => bad_table(alloc, name, place),
        ElfFault::Interp(index) => interpreter(alloc, name, index),
        ElfFault::BadRange(index) => bad_range(alloc, name, index),
        ElfFault::Overlap(one, other) => overlap(alloc, name, one, other),
        ElfFault::NoMemory => format!(in alloc; "vexec: {name}: \n"),
    }
}

/// The note where a file gives no image.
fn no_image(alloc: Global, name: &str, fault: ImageFault) -> Result<String, AllocError>
    ensures { IfOk result (λ text. string_bytes text ≡ bad_image name.now (FileFault.NoImage fault)) }
{
    match fault {
        ImageFault::RawLength(count) => raw_length(alloc, name, count),
        ImageFault::WriteExec(page) => write_exec(alloc, name, page),
        ImageFault::TooManyPages(count) => too_many_pages(alloc, name, count),
        ImageFault::EntryNotCode(entry) => entry_not_code(alloc, name, entry),
        ImageFault::NoMemory => format!(in alloc; "vexec: {name}: \n"),
    }
}

/// The note where a file is refused.
pub fn bad_image(alloc: Global, name: &str, fault: FileFault) -> Result<String, AllocError>
    ensures { IfOk result (λ text. string_bytes text ≡ bad_image name.now fault) }
{
    match fault {
        FileFault::TooLong => too_long(alloc, name),
        FileFault::BadElf(fault) => bad_elf(alloc, name, fault),
        FileFault::NoImage(fault) => no_image(alloc, name, fault),
    }
}
