ghost use Rattle.vx_vstate.specs.Views.{view_of};
ghost use Rattle.std.specs.Prelude.{IsTrue, true, false, ◌≡◌, ℕ, ◌+◌, ◌*◌, ◌/◌, ◌<◌, ◌≤◌, length, slice_index};
ghost use Rattle.vx_bits.specs.Width.{is_width};
ghost use Rattle.vx_operands.specs.Forms.{form_of, reading};
ghost use Rattle.vx_perm.specs.Kinds.{is_perm, is_perm_form, is_slide};
ghost use Rattle.vx_rows.specs.Families.{operands_of};
ghost use Rattle.vx_rows.specs.declared.family.Operand.TheVariants.{Single};
ghost use Rattle.vx_vector.specs.Arithmetic.{words_after};
ghost use Rattle.vx_vector.specs.Laws.{IsSound, made_word, word_saturates};
ghost use Rattle.vx_vector.specs.Reading.{sew_of};
ghost use Rattle.vx_vector.specs.Words.{destination_words};
ghost use Rattle.vx_vstate.specs.Registers.{place_of, word_at};
ghost use Rattle.vx_vstate.specs.Vtype.{vlmax};

use crate::form::form_of;
use crate::gathers::gathered_first;
use crate::moves::{is_gather, is_slide, slid_by_lanes};
use crate::runs::{elements_in, run_of};
use vx_operands::{Form, full_count, group_place, has_a_word, has_few_elements};
use vx_packed::joined_by_elements;
use vx_rows::{Family, Op};
use vx_vector::{Places, elements_are_lanes, words_are_made};
use vx_vstate::{Setting, WordFile};

/// Word `w` of the destination of a slide, where all its elements are active: where they stand in a row in vs2, whose words
/// begin at a place, it is made of the two words there.
#[inline(always)]
fn slid_full<S: WordFile>(
    family: Family,
    form: Form,
    file: &S,
    words: &[u64],
    at: &Setting,
    regs: &Places,
    sew: u32,
    most: u32,
    place: usize,
    w: u32,
) -> u64
    requires family { form.family ≡ family }
    requires kind { IsTrue (is_slide family) }
    requires same { S.vlen file.now ≡ at.now.vlen }
    requires slice { words.now ≡ S.words file.now }
    requires sound { IsSound (reading form (view_of at.now) regs.now (S.words file.now)) }
    requires sew { sew ≡ sew_of (reading form (view_of at.now) regs.now (S.words file.now)) }
    requires width { IsTrue (is_width sew) }
    requires most { most ≡ vlmax at.now.vlen at.now.vtype }
    requires few_elements { at.now.vl ≤ most }
    requires few { most ≤ 65536 }
    requires place { place ≡ place_of at.now.vlen regs.now.vs2 0 }
    requires near { place < 65536 }
    requires below { w * (64 / sew) + 64 / sew ≤ at.now.vl }
    requires start { at.now.vstart ≡ 0 }
    requires unmasked { regs.now.vm ≡ true }
    requires within { w < length (destination_words (reading form (view_of at.now) regs.now (S.words file.now))) }
    ensures { result ≡ made_word (reading form (view_of at.now) regs.now (S.words file.now)) w }
{
    joined_by_elements();
    elements_are_lanes();
    let per_word = 64 / sew;
    match run_of(family, form, at, regs, most, w * per_word, per_word) {
        Some(from) => elements_in(words, at, regs.vs2, place, sew, from),
        None => slid_by_lanes(form, file, at, regs, sew, w).value,
    }
}

/// The first words of the destination of a slide, where all elements of them are active. The family is named, so that the loop
/// goes through no dispatch.
#[inline(always)]
fn slid_words<S: WordFile>(
    family: Family,
    form: Form,
    file: &S,
    words: &[u64],
    at: &Setting,
    regs: &Places,
    sew: u32,
    count: u32,
    made: &mut [u64],
)
    requires family { form.family ≡ family }
    requires kind { IsTrue (is_slide family) }
    requires same { S.vlen file.now ≡ at.now.vlen }
    requires slice { words.now ≡ S.words file.now }
    requires sound { IsSound (reading form (view_of at.now) regs.now (S.words file.now)) }
    requires sew { sew ≡ sew_of (reading form (view_of at.now) regs.now (S.words file.now)) }
    requires width { IsTrue (is_width sew) }
    requires below { count * (64 / sew) ≤ at.now.vl }
    requires start { 0 < count → at.now.vstart ≡ 0 }
    requires unmasked { 0 < count → regs.now.vm ≡ true }
    requires within { (k : ℕ) → k < count → k < length (destination_words (reading form (view_of at.now) regs.now (S.words file.now))) }
    requires room { count ≤ length made.old }
    ensures room { length made.new ≡ length made.old }
    ensures made { (k : ℕ) → k < count → slice_index made.new k ≡ word_at at.now.vlen (words_after (reading form (view_of at.now) regs.now (S.words file.now))) regs.now.vd k }
{
    words_are_made();
    has_few_elements(at);
    let most = at.vlmax();
    let place = group_place(at, regs.vs2);
    for w in 0..count {
        has_a_word(file, at, regs.vd, w);
        made[w as usize] = slid_full(family, form, file, words, at, regs, sew, most, place, w);
    }
}

/// The same, with a loop of its own for each family.
#[inline(always)]
fn slid_by_family<S: WordFile>(
    form: Form,
    file: &S,
    words: &[u64],
    at: &Setting,
    regs: &Places,
    sew: u32,
    count: u32,
    made: &mut [u64],
)
    requires kind { IsTrue (is_slide form.family) }
    requires same { S.vlen file.now ≡ at.now.vlen }
    requires slice { words.now ≡ S.words file.now }
    requires sound { IsSound (reading form (view_of at.now) regs.now (S.words file.now)) }
    requires sew { sew ≡ sew_of (reading form (view_of at.now) regs.now (S.words file.now)) }
    requires width { IsTrue (is_width sew) }
    requires below { count * (64 / sew) ≤ at.now.vl }
    requires start { 0 < count → at.now.vstart ≡ 0 }
    requires unmasked { 0 < count → regs.now.vm ≡ true }
    requires within { (k : ℕ) → k < count → k < length (destination_words (reading form (view_of at.now) regs.now (S.words file.now))) }
    requires room { count ≤ length made.old }
    ensures room { length made.new ≡ length made.old }
    ensures made { (k : ℕ) → k < count → slice_index made.new k ≡ word_at at.now.vlen (words_after (reading form (view_of at.now) regs.now (S.words file.now))) regs.now.vd k }
{
    match form.family {
        Family::Vslideup => slid_words(
            Family::Vslideup,
            form,
            file,
            words,
            at,
            regs,
            sew,
            count,
            made,
        ),
        Family::Vslidedown => slid_words(
            Family::Vslidedown,
            form,
            file,
            words,
            at,
            regs,
            sew,
            count,
            made,
        ),
        Family::Vslide1up => slid_words(
            Family::Vslide1up,
            form,
            file,
            words,
            at,
            regs,
            sew,
            count,
            made,
        ),
        Family::Vslide1down => slid_words(
            Family::Vslide1down,
            form,
            file,
            words,
            at,
            regs,
            sew,
            count,
            made,
        ),
        _ => unreachable!(),
    }
}

/// The first words of the destination of a slide, as many as have only active elements. Answers how many.
#[inline(always)]
fn slid_first<S: WordFile>(
    form: Form,
    file: &S,
    words: &[u64],
    at: &Setting,
    regs: &Places,
    most: u32,
    made: &mut [u64],
) -> u32
    requires kind { IsTrue (is_slide form.family) }
    requires same { S.vlen file.now ≡ at.now.vlen }
    requires slice { words.now ≡ S.words file.now }
    requires sound { IsSound (reading form (view_of at.now) regs.now (S.words file.now)) }
    requires within { (k : ℕ) → k < most → k < length (destination_words (reading form (view_of at.now) regs.now (S.words file.now))) }
    requires room { most ≤ length made.old }
    ensures most { result ≤ most }
    ensures room { length made.new ≡ length made.old }
    ensures made { (k : ℕ) → k < result → slice_index made.new k ≡ word_at at.now.vlen (words_after (reading form (view_of at.now) regs.now (S.words file.now))) regs.now.vd k }
{
    let sew = at.sew();
    let count = full_count(at, regs, 64 / sew, most);
    match sew {
        8 => slid_by_family(form, file, words, at, regs, 8, count, made),
        16 => slid_by_family(form, file, words, at, regs, 16, count, made),
        32 => slid_by_family(form, file, words, at, regs, 32, count, made),
        _ => slid_by_family(form, file, words, at, regs, 64, count, made),
    }
    count
}

/// The first words of the destination of a row of this form, as many as have only active elements, where it is a slide or a
/// gather. Answers how many.
#[inline(always)]
fn words_of_form<S: WordFile>(
    form: Form,
    file: &S,
    words: &[u64],
    at: &Setting,
    regs: &Places,
    most: u32,
    made: &mut [u64],
) -> u32
    requires kind { IsTrue (is_perm_form form) }
    requires same { S.vlen file.now ≡ at.now.vlen }
    requires slice { words.now ≡ S.words file.now }
    requires sound { IsSound (reading form (view_of at.now) regs.now (S.words file.now)) }
    requires within { (k : ℕ) → k < most → k < length (destination_words (reading form (view_of at.now) regs.now (S.words file.now))) }
    requires room { most ≤ length made.old }
    ensures most { result ≤ most }
    ensures room { length made.new ≡ length made.old }
    ensures made { (k : ℕ) → k < result → slice_index made.new k ≡ word_at at.now.vlen (words_after (reading form (view_of at.now) regs.now (S.words file.now))) regs.now.vd k }
    ensures sat { (k : ℕ) → k < result → word_saturates (reading form (view_of at.now) regs.now (S.words file.now)) k ≡ false }
{
    if is_slide(form.family) {
        slid_first(form, file, words, at, regs, most, made)
    } else if is_gather(form.family) {
        gathered_first(form, words, at, regs, most, made)
    } else {
        0
    }
}

/// Makes the first words of the destination that hold only active elements, where the row is a slide or a gather: as the
/// instruction leaves them. `words` are those of all registers. Answers how many it made, at most so many. No element of them saturated. The
/// operation is one of this crate, and the instruction is legal under the setting.
pub fn full_words<S: WordFile>(
    op: Op,
    file: &S,
    words: &[u64],
    at: &Setting,
    regs: &Places,
    most: u32,
    made: &mut [u64],
) -> u32
    requires row { IsTrue (is_perm op) }
    requires same { S.vlen file.now ≡ at.now.vlen }
    requires slice { words.now ≡ S.words file.now }
    requires sound { IsSound (reading (form_of op) (view_of at.now) regs.now (S.words file.now)) }
    requires within { (k : ℕ) → k < most → k < length (destination_words (reading (form_of op) (view_of at.now) regs.now (S.words file.now))) }
    requires room { most ≤ length made.old }
    ensures most { result ≤ most }
    ensures room { length made.new ≡ length made.old }
    ensures made { (k : ℕ) → k < result → slice_index made.new k ≡ word_at at.now.vlen (words_after (reading (form_of op) (view_of at.now) regs.now (S.words file.now))) regs.now.vd k }
    ensures sat { (k : ℕ) → k < result → word_saturates (reading (form_of op) (view_of at.now) regs.now (S.words file.now)) k ≡ false }
{
    match op {
        Op::Perm(op) => words_of_form(form_of(op), file, words, at, regs, most, made),
        _ => unreachable!(),
    }
}
