ghost use Rattle.std.specs.Prelude.{◌≡◌, ℕ, ◌++◌, map};
ghost use Rattle.vx_language.specs.Forms.{directives, pseudo_statements};
ghost use Rattle.vx_statement.specs.Ways.{named_form};

use crate::range::{Range, Reach};
use crate::slot::Slot;
use crate::way::Way;
use vx_decode::Instr;
use vx_rows::{Op, ScalarOp};

/// A part of a program.
#[derive(Clone, Copy, PartialEq, Eq, Debug)]
pub enum Section {
    /// The code.
    Code,
    /// The variables.
    Variables,
}

/// Which instructions a statement gives.
#[derive(Clone, Copy, PartialEq, Eq, Debug)]
pub enum Expansion {
    /// The one that it names.
    Alone,
    /// Those that load a number.
    LoadsNumber,
    /// Those that load an address.
    LoadsAddress,
}

/// What a statement does.
#[derive(Clone, Copy)]
pub enum Action {
    /// Chooses a section.
    Enters(Section),
    /// Puts its numbers, each in so many bytes.
    PutsNumbers(u32),
    /// Puts a text's bytes.
    PutsText,
    /// Puts so many zeros.
    PutsZeros,
    /// Puts zeros up to a multiple of a power of two.
    Aligns,
    /// Puts the words of instructions.
    Puts(Expansion, Instr),
    /// Nothing.
    Rests,
}

/// A form of a statement: what stands behind its name, and what it does.
#[derive(Clone, Copy)]
pub struct Form {
    /// What stands behind the name.
    pub way: Way,
    /// What the statement does.
    pub action: Action,
}

impl Default for Form {
    /// The form with no slots, which does nothing.
    fn default() -> Form {
        Form {
            way: Way::Slots(&[]),
            action: Action::Rests,
        }
    }
}

/// A form, and its name.
#[derive(Clone, Copy)]
pub struct NamedForm {
    /// The name.
    pub name: &'static str,
    /// The form.
    pub form: Form,
}

const BYTES: Range = Range {
    least: -128,
    greatest: 255,
};

const HALVES: Range = Range {
    least: -32_768,
    greatest: 65_535,
};

const WORDS: Range = Range {
    least: -2_147_483_648,
    greatest: 4_294_967_295,
};

const DOUBLE_WORDS: Range = Range {
    least: i64::MIN,
    greatest: u64::MAX,
};

const COUNTS: Range = Range {
    least: 0,
    greatest: u64::MAX,
};

const POWERS: Range = Range {
    least: 0,
    greatest: 12,
};

const LOADED: Range = Range {
    least: -2_147_483_648,
    greatest: 2_147_483_647,
};

const COMMA: Slot = Slot::Mark(b',');

/// An instruction with these operands.
macro_rules! instr {
    ($op:ident, $rs1:literal, $imm:literal) => {
        Instr { op: Op::Scalar(ScalarOp::$op), rd: 0, rs1: $rs1, rs2: 0, imm: $imm, vm: true, nf: 0 }
    };
}

/// A form with these slots and this action.
macro_rules! form {
    ($name:literal, [$($slot:expr),*], $action:expr) => {
        NamedForm { name: $name, form: Form { way: Way::Slots(&[$($slot),*]), action: $action } }
    };
}

/// A form with a list of numbers of this range, each of so many bytes.
macro_rules! numbers {
    ($name:literal, $range:ident, $bytes:literal) => {
        NamedForm { name: $name, form: Form { way: Way::Numbers($range), action: Action::PutsNumbers($bytes) } }
    };
}

static LISTED: [NamedForm; 21] = [
    form!(".text", [], Action::Enters(Section::Code)),
    form!(".data", [], Action::Enters(Section::Variables)),
    numbers!(".byte", BYTES, 1),
    numbers!(".half", HALVES, 2),
    numbers!(".word", WORDS, 4),
    numbers!(".dword", DOUBLE_WORDS, 8),
    form!(".ascii", [Slot::Text], Action::PutsText),
    form!(".zero", [Slot::Datum(COUNTS)], Action::PutsZeros),
    form!(".align", [Slot::Datum(POWERS)], Action::Aligns),
    form!(".globl", [Slot::Symbol], Action::Rests),
    form!(
        "nop",
        [],
        Action::Puts(Expansion::Alone, instr!(Addi, 0, 0))
    ),
    form!(
        "mv",
        [Slot::Rd, COMMA, Slot::Rs1],
        Action::Puts(Expansion::Alone, instr!(Addi, 0, 0))
    ),
    form!(
        "j",
        [Slot::Offset(Reach::Jump)],
        Action::Puts(Expansion::Alone, instr!(Jal, 0, 0))
    ),
    form!(
        "jr",
        [Slot::Rs1],
        Action::Puts(Expansion::Alone, instr!(Jalr, 0, 0))
    ),
    form!(
        "ret",
        [],
        Action::Puts(Expansion::Alone, instr!(Jalr, 1, 0))
    ),
    form!(
        "beqz",
        [Slot::Rs1, COMMA, Slot::Offset(Reach::Branch)],
        Action::Puts(Expansion::Alone, instr!(Beq, 0, 0))
    ),
    form!(
        "bnez",
        [Slot::Rs1, COMMA, Slot::Offset(Reach::Branch)],
        Action::Puts(Expansion::Alone, instr!(Bne, 0, 0))
    ),
    form!(
        "csrr",
        [Slot::Rd, COMMA, Slot::ControlRegister],
        Action::Puts(Expansion::Alone, instr!(Csrrs, 0, 0))
    ),
    form!(
        "fence",
        [],
        Action::Puts(Expansion::Alone, instr!(Fence, 0, 255))
    ),
    form!(
        "li",
        [Slot::Rd, COMMA, Slot::Immediate(LOADED)],
        Action::Puts(Expansion::LoadsNumber, instr!(Addi, 0, 0))
    ),
    form!(
        "la",
        [Slot::Rd, COMMA, Slot::Label],
        Action::Puts(Expansion::LoadsAddress, instr!(Addi, 0, 0))
    ),
];

/// The directives and the pseudo-statements.
#[tactic(auto, unfolding(vx_language::specs::Forms::directives, vx_language::specs::Forms::pseudo_statements))]
pub fn listed_forms() -> &'static [NamedForm]
    ensures { (commas : ℕ) → map (named_form commas) result.now ≡ directives commas ++ pseudo_statements }
{
    &LISTED
}
