//! A whole instruction of vector arithmetic, done on the vector state.

ghost use Rattle.std.specs.Prelude.{◌≡◌, ℕ, ◌+◌, ◌<◌, ◌≤◌, ◌||◌, false, length, slice_index, vec_len, None};
ghost use Rattle.vx_exec.specs.Executed.{IsExecutable, reads};
ghost use Rattle.vx_mask.specs.Kinds.{is_telling};
ghost use Rattle.vx_packed.specs.Joined.{some_below};
ghost use Rattle.vx_rows.specs.Table.{class_of};
ghost use Rattle.vx_rows.specs.declared.op.Op.TheVariants.{Elem, Perm};
ghost use Rattle.vx_rows.specs.declared.row.Class.TheVariants.{VectorArithmetic};
ghost use Rattle.vx_vector.specs.Arithmetic.{saturates, told, words_after};
ghost use Rattle.vx_vector.specs.Laws.{word_saturates};
ghost use Rattle.vx_vector.specs.Words.{destination_words};
ghost use Rattle.vx_vstate.specs.Registers.{word_at};
ghost use Rattle.vx_vstate.specs.State.{finished, setting_of};
ghost use Rattle.vx_vstate.specs.Views.{view_of};

use crate::executed::{places, reads_soundly, scalar_of, word_by};
use crate::run::{Run, is_telling, run_by};
use std::alloc::{AllocError, Global};
use vx_decode::Instr;
use vx_rows::{ElemOp, Family, Op, PermOp};
use vx_vector::{other_words_stay, words_are_made};
use vx_vstate::{Setting, VState};

/// As many words as all registers have at the most.
const MOST_WORDS: usize = 1024;

/// Does instructions of vector arithmetic. It has room for all the words that one makes, so that no word is read after another
/// was written; what is in that room means nothing between instructions.
#[derive(Debug, Drop)]
pub struct Calculator {
    made: Vec<u64>,
    ghost room: { vec_len made ≡ 1024 },
}

impl Calculator {
    /// Takes all the memory that it ever needs.
    pub fn new(alloc: Global) -> Result<Calculator, AllocError> {
        Ok(Calculator {
            made: vec![in alloc; 0; MOST_WORDS]?,
        })
    }

    /// Does an instruction of this family, legal under this setting, which is that of the state: the words of its destination
    /// are those that it makes of the registers as they were, vxsat is joined, and vstart is 0. Answers the number that it puts
    /// into an integer register, where it does.
    pub fn execute(
        &mut self,
        i: &Instr,
        family: Family,
        at: &Setting,
        v: &mut VState,
    ) -> Option<u64>
        requires setting { view_of at.now ≡ setting_of v.old at.now.scalar }
        requires class { class_of i.now.op ≡ VectorArithmetic family }
        requires executable { IsExecutable i.now (view_of at.now) }
        ensures told { told (reads i.now (view_of at.now) v.old.words) ≡ result }
        ensures done { v.new ≡ finished (record v.old { words = words_after (reads i.now (view_of at.now) v.old.words) }) 0 (saturates (reads i.now (view_of at.now) v.old.words)) }
    {
        other_words_stay();
        if is_telling(family) {
            let number = scalar_of(i, at, &*v);
            v.finish(0, false);
            return Some(number);
        }
        write(i, family, at, v, &mut self.made);
        None
    }
}

/// Does an instruction that writes vector registers.
#[inline(always)]
fn write(i: &Instr, family: Family, at: &Setting, v: &mut VState, made: &mut [u64])
    requires setting { view_of at.now ≡ setting_of v.old at.now.scalar }
    requires class { class_of i.now.op ≡ VectorArithmetic family }
    requires executable { IsExecutable i.now (view_of at.now) }
    requires writes { is_telling family ≡ false }
    requires room { length made.old ≡ 1024 }
    ensures told { told (reads i.now (view_of at.now) v.old.words) ≡ None }
    ensures done { v.new ≡ finished (record v.old { words = words_after (reads i.now (view_of at.now) v.old.words) }) 0 (saturates (reads i.now (view_of at.now) v.old.words)) }
{
    words_are_made();
    other_words_stay();
    reads_soundly(i, at, &*v);
    let run = run_by(family, at);
    let sat = make(i, at, &*v, run, made);
    v.put_words(i.rd, run.first, &made[..run.count as usize]);
    v.finish(0, sat);
}

/// Whether one of two holds.
#[inline(always)]
fn either(a: bool, b: bool) -> bool
    ensures { result ≡ (a || b) }
{
    a || b
}

/// Makes the words of a run of an instruction's destination, and answers whether an active element of them saturated. The
/// operation is named, so that the loop goes through no dispatch where it is known. The first `done` words are made already.
#[inline(always)]
fn make_of(
    op: Op,
    i: &Instr,
    at: &Setting,
    v: &VState,
    run: Run,
    done: u32,
    made: &mut [u64],
) -> bool
    requires operation { op ≡ i.now.op }
    requires same { v.now.vlen ≡ at.now.vlen }
    requires executable { IsExecutable i.now (view_of at.now) }
    requires within { (k : ℕ) → k < run.count → run.first + k < length (destination_words (reads i.now (view_of at.now) v.now.words)) }
    requires small { (k : ℕ) → k < run.count → run.first + k < 1024 }
    requires room { run.count ≤ length made.old }
    requires done { done ≤ run.count }
    requires made { (k : ℕ) → k < done → slice_index made.old k ≡ word_at at.now.vlen (words_after (reads i.now (view_of at.now) v.now.words)) i.now.rd (run.first + k) }
    requires unsaturated { (k : ℕ) → k < done → word_saturates (reads i.now (view_of at.now) v.now.words) (run.first + k) ≡ false }
    ensures room { length made.new ≡ length made.old }
    ensures made { (k : ℕ) → k < run.count → slice_index made.new k ≡ word_at at.now.vlen (words_after (reads i.now (view_of at.now) v.now.words)) i.now.rd (run.first + k) }
    ensures sat { result ≡ some_below run.count (λ k. word_saturates (reads i.now (view_of at.now) v.now.words) (run.first + k)) }
{
    let mut sat = false;
    for k in done..run.count {
        let word = word_by(op, i, at, v, run.first + k);
        made[k as usize] = word.value;
        sat = either(sat, word.sat);
    }
    sat
}

/// The same for operations of elements of one width: those that programs use most have a loop of their own.
fn make_elements(
    op: ElemOp,
    i: &Instr,
    at: &Setting,
    v: &VState,
    run: Run,
    done: u32,
    made: &mut [u64],
) -> bool
    requires operation { Elem op ≡ i.now.op }
    requires same { v.now.vlen ≡ at.now.vlen }
    requires executable { IsExecutable i.now (view_of at.now) }
    requires within { (k : ℕ) → k < run.count → run.first + k < length (destination_words (reads i.now (view_of at.now) v.now.words)) }
    requires small { (k : ℕ) → k < run.count → run.first + k < 1024 }
    requires room { run.count ≤ length made.old }
    requires done { done ≤ run.count }
    requires made { (k : ℕ) → k < done → slice_index made.old k ≡ word_at at.now.vlen (words_after (reads i.now (view_of at.now) v.now.words)) i.now.rd (run.first + k) }
    requires unsaturated { (k : ℕ) → k < done → word_saturates (reads i.now (view_of at.now) v.now.words) (run.first + k) ≡ false }
    ensures room { length made.new ≡ length made.old }
    ensures made { (k : ℕ) → k < run.count → slice_index made.new k ≡ word_at at.now.vlen (words_after (reads i.now (view_of at.now) v.now.words)) i.now.rd (run.first + k) }
    ensures sat { result ≡ some_below run.count (λ k. word_saturates (reads i.now (view_of at.now) v.now.words) (run.first + k)) }
{
    match op {
        ElemOp::VaddVv => make_of(Op::Elem(ElemOp::VaddVv), i, at, v, run, done, made),
        ElemOp::VaddVx => make_of(Op::Elem(ElemOp::VaddVx), i, at, v, run, done, made),
        ElemOp::VaddVi => make_of(Op::Elem(ElemOp::VaddVi), i, at, v, run, done, made),
        ElemOp::VsubVv => make_of(Op::Elem(ElemOp::VsubVv), i, at, v, run, done, made),
        ElemOp::VandVv => make_of(Op::Elem(ElemOp::VandVv), i, at, v, run, done, made),
        ElemOp::VandVi => make_of(Op::Elem(ElemOp::VandVi), i, at, v, run, done, made),
        ElemOp::VorVv => make_of(Op::Elem(ElemOp::VorVv), i, at, v, run, done, made),
        ElemOp::VxorVv => make_of(Op::Elem(ElemOp::VxorVv), i, at, v, run, done, made),
        ElemOp::VsllVi => make_of(Op::Elem(ElemOp::VsllVi), i, at, v, run, done, made),
        ElemOp::VsrlVi => make_of(Op::Elem(ElemOp::VsrlVi), i, at, v, run, done, made),
        ElemOp::VmulVv => make_of(Op::Elem(ElemOp::VmulVv), i, at, v, run, done, made),
        ElemOp::VmaccVv => make_of(Op::Elem(ElemOp::VmaccVv), i, at, v, run, done, made),
        _ => make_of(Op::Elem(op), i, at, v, run, done, made),
    }
}

/// The same for permutations.
fn make_permuted(
    op: PermOp,
    i: &Instr,
    at: &Setting,
    v: &VState,
    run: Run,
    done: u32,
    made: &mut [u64],
) -> bool
    requires operation { Perm op ≡ i.now.op }
    requires same { v.now.vlen ≡ at.now.vlen }
    requires executable { IsExecutable i.now (view_of at.now) }
    requires within { (k : ℕ) → k < run.count → run.first + k < length (destination_words (reads i.now (view_of at.now) v.now.words)) }
    requires small { (k : ℕ) → k < run.count → run.first + k < 1024 }
    requires room { run.count ≤ length made.old }
    requires done { done ≤ run.count }
    requires made { (k : ℕ) → k < done → slice_index made.old k ≡ word_at at.now.vlen (words_after (reads i.now (view_of at.now) v.now.words)) i.now.rd (run.first + k) }
    requires unsaturated { (k : ℕ) → k < done → word_saturates (reads i.now (view_of at.now) v.now.words) (run.first + k) ≡ false }
    ensures room { length made.new ≡ length made.old }
    ensures made { (k : ℕ) → k < run.count → slice_index made.new k ≡ word_at at.now.vlen (words_after (reads i.now (view_of at.now) v.now.words)) i.now.rd (run.first + k) }
    ensures sat { result ≡ some_below run.count (λ k. word_saturates (reads i.now (view_of at.now) v.now.words) (run.first + k)) }
{
    match op {
        PermOp::VrgatherVv => make_of(Op::Perm(PermOp::VrgatherVv), i, at, v, run, done, made),
        PermOp::VslideupVi => make_of(Op::Perm(PermOp::VslideupVi), i, at, v, run, done, made),
        PermOp::VslidedownVi => make_of(Op::Perm(PermOp::VslidedownVi), i, at, v, run, done, made),
        PermOp::VslidedownVx => make_of(Op::Perm(PermOp::VslidedownVx), i, at, v, run, done, made),
        PermOp::Vslide1upVx => make_of(Op::Perm(PermOp::Vslide1upVx), i, at, v, run, done, made),
        PermOp::Vslide1downVx => make_of(
            Op::Perm(PermOp::Vslide1downVx),
            i,
            at,
            v,
            run,
            done,
            made,
        ),
        _ => make_of(Op::Perm(op), i, at, v, run, done, made),
    }
}

/// Makes the first words of a run whose elements are all active, where the row has a loop for such words. Answers how many.
fn make_full(i: &Instr, at: &Setting, v: &VState, run: Run, made: &mut [u64]) -> u32
    requires same { v.now.vlen ≡ at.now.vlen }
    requires executable { IsExecutable i.now (view_of at.now) }
    requires within { (k : ℕ) → k < run.count → run.first + k < length (destination_words (reads i.now (view_of at.now) v.now.words)) }
    requires room { run.count ≤ length made.old }
    ensures most { result ≤ run.count }
    ensures room { length made.new ≡ length made.old }
    ensures made { (k : ℕ) → k < result → slice_index made.new k ≡ word_at at.now.vlen (words_after (reads i.now (view_of at.now) v.now.words)) i.now.rd (run.first + k) }
    ensures unsaturated { (k : ℕ) → k < result → word_saturates (reads i.now (view_of at.now) v.now.words) (run.first + k) ≡ false }
{
    if run.first > 0 {
        return 0;
    }
    reads_soundly(i, at, v);
    let regs = places(i);
    match i.op {
        Op::Elem(_) => vx_elem::full_words(i.op, v.words(), at, &regs, run.count, made),
        Op::Mask(_) => vx_mask::full_words(i.op, v.words(), at, &regs, run.count, made),
        Op::Perm(_) => vx_perm::full_words(i.op, v, v.words(), at, &regs, run.count, made),
        _ => 0,
    }
}

/// Makes the words of a run of an instruction's destination, and answers whether an active element of them saturated.
fn make(i: &Instr, at: &Setting, v: &VState, run: Run, made: &mut [u64]) -> bool
    requires same { v.now.vlen ≡ at.now.vlen }
    requires executable { IsExecutable i.now (view_of at.now) }
    requires within { (k : ℕ) → k < run.count → run.first + k < length (destination_words (reads i.now (view_of at.now) v.now.words)) }
    requires small { (k : ℕ) → k < run.count → run.first + k < 1024 }
    requires room { run.count ≤ length made.old }
    ensures room { length made.new ≡ length made.old }
    ensures made { (k : ℕ) → k < run.count → slice_index made.new k ≡ word_at at.now.vlen (words_after (reads i.now (view_of at.now) v.now.words)) i.now.rd (run.first + k) }
    ensures sat { result ≡ some_below run.count (λ k. word_saturates (reads i.now (view_of at.now) v.now.words) (run.first + k)) }
{
    let done = make_full(i, at, v, run, made);
    if done == run.count {
        return false;
    }
    match i.op {
        Op::Elem(op) => make_elements(op, i, at, v, run, done, made),
        Op::Perm(op) => make_permuted(op, i, at, v, run, done, made),
        _ => make_of(i.op, i, at, v, run, done, made),
    }
}
