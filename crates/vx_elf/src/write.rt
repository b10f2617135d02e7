ghost use Rattle.std.specs.Prelude.{◌≡◌, ◌+◌, ◌≤◌, ◌<◌, ◌^◌, ◌++◌, ◌*◌, length, vec_len, [], ◌∷◌, if◌then◌else◌, IfOk, OnOk, Ok};
ghost use Rattle.std.specs.List.{flat_map};
ghost use Rattle.std.specs.Int.{div_ceil};
ghost use Rattle.vx_base.specs.Numbers.{little_endian};
ghost use Rattle.vx_elf.specs.Reading.{Reads};
ghost use Rattle.vx_elf.specs.Writing.{field_bytes, file_header, program_header, whole_pages, has_code, has_vars, code_header, vars_header, headers_of, filled_to, vars_place, written_start, written, program_segments, IsWritable};

use crate::field::Field;
use crate::header::ProgramHeader;
use crate::program::Program;
use byteorder::{ByteOrder, LittleEndian};
use std::alloc::{AllocError, Global};
use vx_base::Bytes;

/// `e_ident` of a little-endian ELF64 file of version 1.
const IDENT: [u8; 16] = [0x7f, 0x45, 0x4c, 0x46, 2, 1, 1, 0, 0, 0, 0, 0, 0, 0, 0, 0];

/// How many bytes a page has.
const PAGE_LEN: usize = 4096;

/// The address of the code.
const CODE_ADDRESS: u64 = 0x10000;

/// Adds the two bytes of a number.
fn put_half(out: &mut Vec<u8>, n: u16) -> Result<(), AllocError>
    ensures { OnOk result (out.new.items ≡ out.old.items ++ little_endian 2 n) }
{
    let mut bytes = [0; 2];
    LittleEndian::write_u16(&mut bytes, n);
    out.extend_from_slice(&bytes)
}

/// Adds the four bytes of a number.
fn put_word(out: &mut Vec<u8>, n: u32) -> Result<(), AllocError>
    ensures { OnOk result (out.new.items ≡ out.old.items ++ little_endian 4 n) }
{
    let mut bytes = [0; 4];
    LittleEndian::write_u32(&mut bytes, n);
    out.extend_from_slice(&bytes)
}

/// Adds the eight bytes of a number.
fn put_xword(out: &mut Vec<u8>, n: u64) -> Result<(), AllocError>
    ensures { OnOk result (out.new.items ≡ out.old.items ++ little_endian 8 n) }
{
    let mut bytes = [0; 8];
    LittleEndian::write_u64(&mut bytes, n);
    out.extend_from_slice(&bytes)
}

/// Adds a field.
fn put_field(out: &mut Vec<u8>, field: Field) -> Result<(), AllocError>
    ensures { OnOk result (out.new.items ≡ out.old.items ++ field_bytes field) }
{
    match field {
        Field::Half(n) => put_half(out, n),
        Field::Word(n) => put_word(out, n),
        Field::Xword(n) => put_xword(out, n),
    }
}

/// Adds fields one behind the other.
fn put_fields(out: &mut Vec<u8>, fields: &[Field]) -> Result<(), AllocError>
    ensures { OnOk result (out.new.items ≡ out.old.items ++ flat_map field_bytes fields.now) }
{
    for field in fields {
        put_field(out, *field)?;
    }
    Ok(())
}

/// Adds the file header of a file with so many program headers behind it.
#[tactic(auto, unfolding(crate::specs::Writing::file_header))]
fn put_file_header(out: &mut Vec<u8>, entry: u64, count: u16) -> Result<(), AllocError>
    ensures { OnOk result (out.new.items ≡ out.old.items ++ file_header entry count) }
{
    out.extend_from_slice(&IDENT)?;
    put_fields(
        out,
        &[
            Field::Half(2),
            Field::Half(243),
            Field::Word(1),
            Field::Xword(entry),
            Field::Xword(64),
            Field::Xword(0),
            Field::Word(0),
            Field::Half(64),
            Field::Half(56),
            Field::Half(count),
            Field::Half(0),
            Field::Half(0),
            Field::Half(0),
        ],
    )
}

/// Adds a program header.
#[tactic(auto, unfolding(crate::specs::Writing::program_header))]
fn put_program_header(out: &mut Vec<u8>, header: &ProgramHeader) -> Result<(), AllocError>
    ensures { OnOk result (out.new.items ≡ out.old.items ++ program_header header.now) }
{
    put_fields(
        out,
        &[
            Field::Word(header.kind),
            Field::Word(header.flags),
            Field::Xword(header.offset),
            Field::Xword(header.address),
            Field::Xword(header.address),
            Field::Xword(header.file_size),
            Field::Xword(header.memory_size),
            Field::Xword(4096),
        ],
    )
}

/// Adds program headers one behind the other.
fn put_program_headers(out: &mut Vec<u8>, headers: &[ProgramHeader]) -> Result<(), AllocError>
    ensures { OnOk result (out.new.items ≡ out.old.items ++ flat_map program_header headers.now) }
{
    for header in headers {
        put_program_header(out, header)?;
    }
    Ok(())
}

/// The least multiple of 4,096 that isn't below a number of bytes.
fn whole_pages(count: usize) -> usize
    requires { count < 2 ^ 32 }
    ensures { result ≡ whole_pages count }
{
    PAGE_LEN * count.div_ceil(PAGE_LEN)
}

/// Whether a program has code.
fn has_code(program: &Program) -> bool
    ensures { result ≡ has_code program.now }
{
    !program.code.is_empty()
}

/// Whether a program has variables, or zero bytes in their place.
fn has_vars(program: &Program) -> bool
    requires { IsWritable program.now }
    ensures { result ≡ has_vars program.now }
{
    program.vars.len() as u64 + program.zero != 0
}

/// The program header of the code.
#[tactic(auto, unfolding(crate::specs::Writing::code_header))]
fn code_header(program: &Program) -> ProgramHeader
    requires { IsWritable program.now }
    ensures { result ≡ code_header program.now }
{
    let size = program.code.len() as u64;
    ProgramHeader {
        kind: 1,
        flags: 5,
        offset: PAGE_LEN as u64,
        address: CODE_ADDRESS,
        file_size: size,
        memory_size: size,
    }
}

/// The program header of the variables.
#[tactic(auto, unfolding(crate::specs::Writing::vars_header))]
fn vars_header(program: &Program) -> ProgramHeader
    requires { IsWritable program.now }
    ensures { result ≡ vars_header program.now }
{
    let behind = whole_pages(program.code.len()) as u64;
    let size = program.vars.len() as u64;
    ProgramHeader {
        kind: 1,
        flags: 6,
        offset: PAGE_LEN as u64 + behind,
        address: CODE_ADDRESS + behind,
        file_size: size,
        memory_size: size + program.zero,
    }
}

/// Adds a program header to others, where it is there.
fn push_where(
    headers: &mut Vec<ProgramHeader>,
    there: bool,
    header: ProgramHeader,
) -> Result<(), AllocError>
    ensures { OnOk result (headers.new.items ≡ headers.old.items ++ (if there then header ∷ [] else [])) }
{
    if there {
        headers.push(header)?;
    }
    Ok(())
}

/// The program headers of a program.
#[tactic(auto, unfolding(crate::specs::Writing::headers_of))]
fn headers_of(alloc: Global, program: &Program) -> Result<Vec<ProgramHeader>, AllocError>
    requires { IsWritable program.now }
    ensures { IfOk result (λ headers. headers.items ≡ headers_of program.now) }
{
    let mut headers = Vec::new(alloc);
    push_where(&mut headers, has_code(program), code_header(program))?;
    push_where(&mut headers, has_vars(program), vars_header(program))?;
    Ok(headers)
}

/// Fills bytes up to a place with zeros, and adds others.
fn put_at(out: &mut Vec<u8>, place: usize, bytes: &[u8]) -> Result<(), AllocError>
    requires { vec_len out.old ≤ place }
    ensures { OnOk result (out.new.items ≡ filled_to place out.old.items ++ bytes.now) }
{
    out.resize(place, 0)?;
    out.extend_from_slice(bytes)
}

/// The headers of a program, and its code.
#[tactic(auto, unfolding(crate::specs::Writing::written_start))]
fn start_of(alloc: Global, program: &Program) -> Result<Vec<u8>, AllocError>
    requires { IsWritable program.now }
    ensures bytes { IfOk result (λ out. out.items ≡ written_start program.now) }
    ensures entry { OnOk result (program.now.entry < 2 ^ 64) }
{
    let headers = headers_of(alloc, program)?;
    let mut out = Vec::new(alloc);
    put_file_header(&mut out, program.entry, headers.len() as u16)?;
    put_program_headers(&mut out, &headers)?;
    put_at(&mut out, PAGE_LEN, program.code.slice())?;
    Ok(out)
}

/// The file of a program.
#[tactic(auto, unfolding(crate::specs::Writing::written))]
fn file_of(alloc: Global, program: &Program) -> Result<Vec<u8>, AllocError>
    requires { IsWritable program.now }
    ensures bytes { IfOk result (λ out. out.items ≡ written program.now) }
    ensures entry { OnOk result (program.now.entry < 2 ^ 64) }
{
    let mut out = start_of(alloc, program)?;
    if has_vars(program) {
        let place = PAGE_LEN + whole_pages(program.code.len());
        put_at(&mut out, place, program.vars.slice())?;
    }
    Ok(out)
}

/// Writes the ELF file of a program, of at most 8 MiB of code, variables and zero bytes: the file header; a program
/// header for the code, where there is some (R and X, at address 0x10000), and one for the variables, where there are
/// some or zero bytes (R and W, on the pages behind the code); the code from byte 4,096 on; and the variables, from the
/// next multiple of 4,096 on. What it writes is read again as the program's segments.
pub fn write_elf(alloc: Global, program: &Program) -> Result<Bytes, AllocError>
    requires { IsWritable program.now }
    ensures bytes { IfOk result (λ bytes. bytes ≡ written program.now) }
    ensures read_again { IfOk result (λ bytes. Reads bytes (Ok (program_segments program.now))) }
{
    Ok(Bytes::of(file_of(alloc, program)?))
}
