ghost use Rattle.std.specs.Prelude.{◌≡◌, ◌<◌, map, find, length, position, bytes_eq, IfSome, is_some};
ghost use Rattle.vx_rows.specs.Layouts.{layout_of, HasFields};
ghost use Rattle.vx_rows.specs.Table.{mnemonic, operations, shape_of, table};
ghost use Rattle.vx_rows.specs.declared.op.Op.{Op};
ghost use Rattle.vx_rows.specs.declared.row.Nf.TheVariants as nf;
ghost use Rattle.vx_rows.specs.declared.row.Row as ghost_row;
ghost use Rattle.vx_language.specs.Names.{numbered_names, register_number, vector_number, vtype_number, control_number, bare_instr, nf_named, named_instr, instr_named};
ghost use Rattle.vx_source.specs.Names.{named_controls};
ghost use Rattle.vx_statement.specs.Controls.{named};
ghost use Rattle.vx_statement.specs.Letters.{begins_with_v};

use vx_decode::Instr;
use vx_rows::{Nf, Op, Row, name_of, rows};
use vx_source::{VtypeField, register_names, vector_names};

static NUMBERED_NAMES: [&str; 32] = [
    "x0", "x1", "x2", "x3", "x4", "x5", "x6", "x7", "x8", "x9", "x10", "x11", "x12", "x13", "x14",
    "x15", "x16", "x17", "x18", "x19", "x20", "x21", "x22", "x23", "x24", "x25", "x26", "x27",
    "x28", "x29", "x30", "x31",
];

/// The names of the integer registers by their numbers.
#[tactic(auto, unfolding(vx_language::specs::Names::numbered_names))]
fn numbered_names() -> &'static [&'static str]
    ensures names { map (λ name. name.now) result.now ≡ numbered_names }
    ensures count { length result.now ≡ 32 }
{
    &NUMBERED_NAMES
}

/// The place of a name among names.
fn place_among(names: &[&str], name: &[u8]) -> Option<usize>
    ensures within { IfSome result (λ place. place < length names.now) }
    ensures place { result ≡ position (bytes_eq name.now) (map (λ other. other.now) names.now) }
{
    names.iter().position(|other| name == other.as_bytes())
}

/// The number of the integer register of this name, where one has it.
#[tactic(auto, unfolding(vx_language::specs::Names::register_number))]
pub fn register_number(name: &[u8]) -> Option<u8>
    ensures { result ≡ register_number name.now }
{
    match place_among(register_names(), name) {
        Some(number) => Some(number as u8),
        None => numbered_register(name),
    }
}

/// The number of the integer register whose name is its number, where one has it.
fn numbered_register(name: &[u8]) -> Option<u8>
    ensures { result ≡ position (bytes_eq name.now) numbered_names }
{
    match place_among(numbered_names(), name) {
        Some(number) => Some(number as u8),
        None => None,
    }
}

/// The number of the vector register of this name, where one has it.
#[tactic(auto, unfolding(vx_language::specs::Names::vector_number))]
pub fn vector_number(name: &[u8]) -> Option<u8>
    ensures { result ≡ vector_number name.now }
{
    match place_among(vector_names(), name) {
        Some(number) => Some(number as u8),
        None => None,
    }
}

/// The number of which this is the word in a field of vtype, where one has it.
#[tactic(auto, unfolding(vx_language::specs::Names::vtype_number))]
pub fn vtype_number(field: VtypeField, name: &[u8]) -> Option<u64>
    ensures { result ≡ vtype_number field name.now }
{
    match place_among(field.words(), name) {
        Some(number) => Some(number as u64),
        None => None,
    }
}

/// A control register that has a name in text.
#[derive(Clone, Copy)]
struct Control {
    number: u16,
    name: &'static str,
}

static CONTROLS: [Control; 7] = [
    Control {
        number: 0x008,
        name: "vstart",
    },
    Control {
        number: 0x009,
        name: "vxsat",
    },
    Control {
        number: 0x00a,
        name: "vxrm",
    },
    Control {
        number: 0x00f,
        name: "vcsr",
    },
    Control {
        number: 0xc20,
        name: "vl",
    },
    Control {
        number: 0xc21,
        name: "vtype",
    },
    Control {
        number: 0xc22,
        name: "vlenb",
    },
];

/// The control registers that have names (RISC-V "V" 1.0, section 3).
#[tactic(auto, unfolding(vx_source::specs::Names::named_controls))]
fn controls() -> &'static [Control]
    ensures { map named result.now ≡ named_controls }
{
    &CONTROLS
}

/// The number of the control register of this name, where one has it.
pub fn control_number(name: &[u8]) -> Option<u16>
    ensures { result ≡ control_number name.now }
{
    match controls()
        .iter()
        .find(|control| name == control.name.as_bytes())
    {
        Some(control) => Some(control.number),
        None => None,
    }
}

/// Whether an operation has this mnemonic with a field nf.
fn is_named(name: &[u8], op: Op, nf: u8) -> bool
    requires { HasFields (layout_of (shape_of op)).nf nf }
    ensures { result ≡ bytes_eq name.now (mnemonic op nf) }
{
    name == name_of(op, nf).as_bytes()
}

/// The field nf, of those of whole-register rows, with which an operation has this mnemonic.
fn registers_named(name: &[u8], op: Op) -> Option<u8>
    requires { (layout_of (shape_of op)).nf ≡ nf.Registers }
    ensures { result ≡ nf_named name.now op }
{
    if is_named(name, op, 0) {
        return Some(0);
    }
    if is_named(name, op, 1) {
        return Some(1);
    }
    if is_named(name, op, 3) {
        return Some(3);
    }
    if is_named(name, op, 7) { Some(7) } else { None }
}

/// The field nf, of those of segments, with which an operation has this mnemonic.
fn fields_named(name: &[u8], op: Op) -> Option<u8>
    requires { (layout_of (shape_of op)).nf ≡ nf.Any }
    ensures { result ≡ nf_named name.now op }
{
    let mut nf = 0u8;
    while nf < 8 {
        if is_named(name, op, nf) {
            return Some(nf);
        }
        nf += 1;
    }
    None
}

/// The field nf with which an operation has this mnemonic, where it has it.
fn nf_named(name: &[u8], op: Op) -> Option<u8>
    ensures { result ≡ nf_named name.now op }
{
    match op.shape().layout().nf {
        Nf::Absent => if is_named(name, op, 0) { Some(0) } else { None },
        Nf::Any => fields_named(name, op),
        Nf::Registers => registers_named(name, op),
    }
}

/// How many rows stand before those of vector instructions.
const SCALAR_ROWS: usize = 71;

/// Whether a name begins with `v`, as the mnemonics of vector instructions and no others do.
#[tactic(auto, unfolding(crate::specs::Letters::begins_with_v))]
fn begins_with_v(name: &[u8]) -> bool
    ensures { result ≡ begins_with_v name.now }
{
    match name.split_first() {
        Some((first, _)) => *first == b'v',
        None => false,
    }
}

/// The rows whose mnemonics begin as a name does: no other row has it.
#[tactic(auto, unfolding(vx_rows::specs::Table::operations))]
fn rows_beginning_as(name: &[u8]) -> &'static [Row]
    ensures { find (λ (row : ghost_row.Row). is_some (nf_named name.now row.op)) result.now ≡ find (λ (row : ghost_row.Row). is_some (nf_named name.now row.op)) table }
{
    let all = rows();
    if begins_with_v(name) {
        &all[SCALAR_ROWS..]
    } else {
        &all[..SCALAR_ROWS]
    }
}

/// The operation that has this mnemonic, where one has it.
fn operation_named(name: &[u8]) -> Option<Op>
    ensures { result ≡ find (λ (op : Op). is_some (nf_named name.now op)) operations }
{
    match rows_beginning_as(name)
        .iter()
        .find(|row| nf_named(name, row.op).is_some())
    {
        Some(row) => Some(row.op),
        None => None,
    }
}

/// The instruction, without operands yet, of an operation of this mnemonic.
fn named_instr(name: &[u8], op: Op) -> Instr
    ensures { result ≡ named_instr name.now op }
{
    Instr {
        nf: nf_named(name, op).unwrap_or(0),
        ..bare(op)
    }
}

/// The instruction, without operands yet, of the row of this mnemonic, where one has it.
#[tactic(auto, unfolding(vx_language::specs::Names::instr_named))]
pub fn instr_named(name: &[u8]) -> Option<Instr>
    ensures { result ≡ instr_named name.now }
{
    match operation_named(name) {
        Some(op) => Some(named_instr(name, op)),
        None => None,
    }
}

/// An operation's instruction, without operands yet.
pub fn bare(op: Op) -> Instr
    ensures { result ≡ bare_instr op }
{
    Instr {
        op,
        rd: 0,
        rs1: 0,
        rs2: 0,
        imm: 0,
        vm: true,
        nf: 0,
    }
}
