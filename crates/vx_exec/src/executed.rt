ghost use Rattle.vx_vstate.specs.Views.{view_of};
ghost use Rattle.std.specs.Prelude.{IsTrue, ◌≡◌, ℕ, ◌<◌, length, List, Some};
ghost use Rattle.vx_decode.specs.declared.instr.Instr.{Instr};
ghost use Rattle.vx_exec.specs.Executed.{IsExecutable, reads};
ghost use Rattle.vx_mask.specs.Kinds.{is_telling};
ghost use Rattle.vx_operands.specs.Forms.{form_of};
ghost use Rattle.vx_vector.specs.Arithmetic.{told, words_after};
ghost use Rattle.vx_vector.specs.Instructions.{places_of, reading_of};
ghost use Rattle.vx_vector.specs.Laws.{IsSound, word_saturates};
ghost use Rattle.vx_vector.specs.Words.{destination_words};
ghost use Rattle.vx_vstate.specs.Registers.{word_at};
ghost use Rattle.vx_vstate.specs.State.{SettingView};

use vx_decode::Instr;
use vx_rows::Op;
use vx_vector::{Places, Word, legal_readings_are_sound};
use vx_vstate::{Setting, WordFile};

/// Law of instructions: a legal one of vector arithmetic reads what its row says.
pub fn instructions_read()
    ensures { (i : Instr) (at : SettingView) (words : List ℕ) → IsExecutable i at → reading_of i.op at (places_of i) words ≡ Some (reads i at words) }
{}

/// Where an instruction has its operands.
#[inline(always)]
pub(crate) fn places(i: &Instr) -> Places
    ensures { result ≡ places_of i.now }
{
    Places {
        vd: i.rd,
        vs1: i.rs1,
        vs2: i.rs2,
        vm: i.vm,
        imm: i.imm,
    }
}

/// What a legal instruction reads of a file is sound.
#[inline(always)]
pub(crate) fn reads_soundly<S: WordFile>(i: &Instr, at: &Setting, file: &S)
    requires same { S.vlen file.now ≡ at.now.vlen }
    requires executable { IsExecutable i.now (view_of at.now) }
    ensures { IsSound (reads i.now (view_of at.now) (S.words file.now)) }
{
    legal_readings_are_sound();
    instructions_read();
    let _word = file.word(0, 0);
}

/// Word `w` of an instruction's destination as the instruction leaves it, and whether an active element of it saturated. The
/// instruction is one of vector arithmetic and legal under the setting; the file is of the setting's VLEN; and the destination
/// has such a word.
#[inline(always)]
pub fn word_of<S: WordFile>(i: &Instr, at: &Setting, file: &S, w: u32) -> Word
    requires same { S.vlen file.now ≡ at.now.vlen }
    requires executable { IsExecutable i.now (view_of at.now) }
    requires within { w < length (destination_words (reads i.now (view_of at.now) (S.words file.now))) }
    ensures value { result.value ≡ word_at at.now.vlen (words_after (reads i.now (view_of at.now) (S.words file.now))) i.now.rd w }
    ensures sat { result.sat ≡ word_saturates (reads i.now (view_of at.now) (S.words file.now)) w }
{
    word_by(i.op, i, at, file, w)
}

/// The same, where the operation is known: code that names it has its own copy of the way to it.
#[inline(always)]
pub(crate) fn word_by<S: WordFile>(op: Op, i: &Instr, at: &Setting, file: &S, w: u32) -> Word
    requires operation { op ≡ i.now.op }
    requires same { S.vlen file.now ≡ at.now.vlen }
    requires executable { IsExecutable i.now (view_of at.now) }
    requires within { w < length (destination_words (reads i.now (view_of at.now) (S.words file.now))) }
    ensures value { result.value ≡ word_at at.now.vlen (words_after (reads i.now (view_of at.now) (S.words file.now))) i.now.rd w }
    ensures sat { result.sat ≡ word_saturates (reads i.now (view_of at.now) (S.words file.now)) w }
{
    reads_soundly(i, at, file);
    let regs = places(i);
    match op {
        Op::Elem(_) => vx_elem::word(op, at, file, &regs, w),
        Op::Widen(_) => vx_widen::word(op, at, file, &regs, w),
        Op::Fixed(_) => vx_fixed::word(op, at, file, &regs, w),
        Op::Mask(_) => vx_mask::word(op, at, file, &regs, w),
        Op::Perm(_) => vx_perm::word(op, at, file, &regs, w),
        Op::Scalar(_) | Op::Set(_) | Op::Memory(_) => unreachable!(),
    }
}

/// The number that an instruction puts into its integer register. The instruction is vcpop, vfirst or vmv.x.s and legal under
/// the setting; the file is of the setting's VLEN.
#[inline(always)]
pub fn scalar_of<S: WordFile>(i: &Instr, at: &Setting, file: &S) -> u64
    requires same { S.vlen file.now ≡ at.now.vlen }
    requires executable { IsExecutable i.now (view_of at.now) }
    requires tells { IsTrue (is_telling (form_of i.now.op).family) }
    ensures { told (reads i.now (view_of at.now) (S.words file.now)) ≡ Some result }
{
    reads_soundly(i, at, file);
    let regs = places(i);
    vx_mask::count(i.op, at, file, &regs)
}
