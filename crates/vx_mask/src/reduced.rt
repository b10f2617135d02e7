ghost use Rattle.vx_vstate.specs.Views.{view_of};
ghost use Rattle.std.specs.Prelude.{IsTrue, true, List, ◌≡◌, ℕ, pos, ◌+ℤ◌, if◌then◌else◌, ◌+◌, ◌*◌, ◌/◌, ◌<◌, ◌≤◌, ◌==◌, length};
ghost use Rattle.vx_base.specs.Numbers.{reduced};
ghost use Rattle.vx_bits.specs.Width.{is_width, signed_at};
ghost use Rattle.vx_mask.specs.Kinds.{AreReduced, is_even_reduction, is_wide_reduction};
ghost use Rattle.vx_mask.specs.declared.reduced.Terms.{Terms};
ghost use Rattle.vx_operands.specs.Forms.{reading};
ghost use Rattle.vx_operands.specs.Rising.{is_reduce, joined_below, reduced_by};
ghost use Rattle.vx_packed.specs.Joined.{lane};
ghost use Rattle.vx_rows.specs.Families.{operands_of};
ghost use Rattle.vx_rows.specs.declared.family.Family.TheVariants.{Vredmax, Vredmin};
ghost use Rattle.vx_rows.specs.declared.family.Operand.TheVariants.{Single};
ghost use Rattle.vx_rows.specs.declared.row.First.TheVariants.{Vector};
ghost use Rattle.vx_vector.specs.Laws.{IsSound, made_word, word_saturates};
ghost use Rattle.vx_vector.specs.Reading.{destination_width, element_of, is_active, sew_of, whole_registers};
ghost use Rattle.vx_vector.specs.Rules.{rule_of};
ghost use Rattle.vx_vector.specs.Words.{destination_words};

use vx_bits::{add_at, low, reduce, signed_reading};
use vx_operands::{
    Form, active_word, first_set, greater, group_word, is_bit_set, is_unmasked, lane_at, lesser,
    unchanged, writes_first,
};
use vx_rows::Family;
use vx_vector::{Places, Word, elements_are_lanes};
use vx_vstate::{Setting, WordFile};

/// What a reduction joins next: what it has come to, and an element.
#[derive(Clone, Copy, PartialEq, Eq, Debug)]
pub(crate) struct Terms {
    pub sum: u64,
    pub x: u64,
}

/// What a sum comes to by an element of a word: where it is active, what `f` answers.
#[inline(always)]
fn joined<F: Fn(Terms) -> u64>(width: u32, active: u64, word: u64, k: u32, sum: u64, f: &F) -> u64
    requires positive { 0 < width }
    requires fits { k * width + width ≤ 64 }
    requires few { k < 64 }
    requires callable { (t : Terms) → F.pre f.now t }
    ensures { (g : ℕ → ℕ → ℕ) → ((t : Terms) (v : ℕ) → F.post f.now t v → v ≡ g t.sum t.x) → result ≡ (if lane 1 active k == 1 then g sum (lane width word k) else sum) }
{
    if is_bit_set(active, k) {
        f(Terms {
            sum,
            x: lane_at(width, word, k),
        })
    } else {
        sum
    }
}

/// What a sum comes to by the active elements of a word, in rising order.
#[inline(always)]
fn joined_word<F: Fn(Terms) -> u64>(width: u32, active: u64, word: u64, start: u64, f: &F) -> u64
    requires width { IsTrue (is_width width) }
    requires callable { (t : Terms) → F.pre f.now t }
    ensures { (g : ℕ → ℕ → ℕ) → ((t : Terms) (v : ℕ) → F.post f.now t v → v ≡ g t.sum t.x) → result ≡ joined_below g start (λ k. lane 1 active k == 1) (λ k. lane width word k) (64 / width) }
{
    let mut sum = start;
    for k in 0..64 / width {
        sum = joined(width, active, word, k, sum, f);
    }
    sum
}

/// What a sum comes to by all elements of a word, in rising order.
#[inline(always)]
fn folded_word<F: Fn(Terms) -> u64>(width: u32, word: u64, start: u64, f: &F) -> u64
    requires width { IsTrue (is_width width) }
    requires callable { (t : Terms) → F.pre f.now t }
    ensures { (g : ℕ → ℕ → ℕ) → ((t : Terms) (v : ℕ) → F.post f.now t v → v ≡ g t.sum t.x) → result ≡ joined_below g start (λ k. true) (λ k. lane width word k) (64 / width) }
{
    let mut sum = start;
    for k in 0..64 / width {
        let x = lane_at(width, word, k);
        sum = f(Terms { sum, x });
    }
    sum
}

/// How many words, from the first on, have only active elements; none where elements are masked or the first isn't active.
#[inline(always)]
fn whole_words(form: Form, at: &Setting, regs: &Places, per_word: u32) -> u32
    requires elements { whole_registers (operands_of form.family).destination ≡ 0 }
    requires some { 0 < per_word }
    ensures most { result * per_word ≤ at.now.vl }
    ensures active { (words : List ℕ) (i : ℕ) → i < result * per_word → is_active (reading form (view_of at.now) regs.now words) i ≡ true }
{
    if is_unmasked(form, regs) && at.vstart == 0 {
        at.vl / per_word
    } else {
        0
    }
}

/// What a number comes to by the elements of the first words of vs2, all of which are active, in rising order.
#[inline(always)]
fn joined_whole<S: WordFile, F: Fn(Terms) -> u64>(
    form: Form,
    file: &S,
    at: &Setting,
    regs: &Places,
    sew: u32,
    words: u32,
    start: u64,
    f: &F,
) -> u64
    requires same { S.vlen file.now ≡ at.now.vlen }
    requires sound { IsSound (reading form (view_of at.now) regs.now (S.words file.now)) }
    requires elements { whole_registers (operands_of form.family).destination ≡ 0 }
    requires vs2 { (operands_of form.family).vs2 ≡ Single }
    requires sew { sew ≡ sew_of (reading form (view_of at.now) regs.now (S.words file.now)) }
    requires width { IsTrue (is_width sew) }
    requires small { at.now.vl ≤ 65536 }
    requires most { words * (64 / sew) ≤ at.now.vl }
    requires active { (i : ℕ) → i < words * (64 / sew) → is_active (reading form (view_of at.now) regs.now (S.words file.now)) i ≡ true }
    requires callable { (t : Terms) → F.pre f.now t }
    ensures { (g : ℕ → ℕ → ℕ) → ((t : Terms) (v : ℕ) → F.post f.now t v → v ≡ g t.sum t.x) → result ≡ joined_below g start (is_active (reading form (view_of at.now) regs.now (S.words file.now))) (element_of (reading form (view_of at.now) regs.now (S.words file.now)) regs.now.vs2 sew) (words * (64 / sew)) }
{
    elements_are_lanes();
    let mut sum = start;
    for w in 0..words {
        let word = group_word(file, at, regs.vs2, w);
        sum = folded_word(sew, word, sum, f);
    }
    sum
}

/// What the sum of the first words of vs2, so many, comes to by the active elements behind them, in rising order.
#[inline(always)]
fn joined_rest<S: WordFile, F: Fn(Terms) -> u64>(
    form: Form,
    file: &S,
    at: &Setting,
    regs: &Places,
    sew: u32,
    words: u32,
    start: u64,
    f: &F,
) -> u64
    requires same { S.vlen file.now ≡ at.now.vlen }
    requires sound { IsSound (reading form (view_of at.now) regs.now (S.words file.now)) }
    requires elements { whole_registers (operands_of form.family).destination ≡ 0 }
    requires vs2 { (operands_of form.family).vs2 ≡ Single }
    requires sew { sew ≡ sew_of (reading form (view_of at.now) regs.now (S.words file.now)) }
    requires width { IsTrue (is_width sew) }
    requires small { at.now.vl ≤ 65536 }
    requires callable { (t : Terms) → F.pre f.now t }
    ensures { (g : ℕ → ℕ → ℕ) → ((t : Terms) (v : ℕ) → F.post f.now t v → v ≡ g t.sum t.x) → (x : ℕ) → start ≡ joined_below g x (is_active (reading form (view_of at.now) regs.now (S.words file.now))) (element_of (reading form (view_of at.now) regs.now (S.words file.now)) regs.now.vs2 sew) (words * (64 / sew)) → result ≡ joined_below g x (is_active (reading form (view_of at.now) regs.now (S.words file.now))) (element_of (reading form (view_of at.now) regs.now (S.words file.now)) regs.now.vs2 sew) at.now.vl }
{
    elements_are_lanes();
    let per_word = 64 / sew;
    let mut sum = start;
    for w in words..at.vl.div_ceil(per_word) {
        let active = active_word(form, file, at, regs, per_word, w);
        let word = group_word(file, at, regs.vs2, w);
        sum = joined_word(sew, active, word, sum, f);
    }
    sum
}

/// What a number comes to by the active elements of vs2, in rising order.
#[inline(always)]
fn joined_all<S: WordFile, F: Fn(Terms) -> u64>(
    form: Form,
    file: &S,
    at: &Setting,
    regs: &Places,
    sew: u32,
    start: u64,
    f: &F,
) -> u64
    requires same { S.vlen file.now ≡ at.now.vlen }
    requires sound { IsSound (reading form (view_of at.now) regs.now (S.words file.now)) }
    requires elements { whole_registers (operands_of form.family).destination ≡ 0 }
    requires vs2 { (operands_of form.family).vs2 ≡ Single }
    requires sew { sew ≡ sew_of (reading form (view_of at.now) regs.now (S.words file.now)) }
    requires width { IsTrue (is_width sew) }
    requires small { at.now.vl ≤ 65536 }
    requires callable { (t : Terms) → F.pre f.now t }
    ensures { (g : ℕ → ℕ → ℕ) → ((t : Terms) (v : ℕ) → F.post f.now t v → v ≡ g t.sum t.x) → result ≡ joined_below g start (is_active (reading form (view_of at.now) regs.now (S.words file.now))) (element_of (reading form (view_of at.now) regs.now (S.words file.now)) regs.now.vs2 sew) at.now.vl }
{
    let words = whole_words(form, at, regs, 64 / sew);
    let sum = joined_whole(form, file, at, regs, sew, words, start, f);
    joined_rest(form, file, at, regs, sew, words, sum, f)
}

/// Word `w` of the destination of a reduction: element 0 is what that of vs1 comes to.
#[inline(always)]
fn reduced_word<S: WordFile, F: Fn(Terms) -> u64>(
    form: Form,
    file: &S,
    at: &Setting,
    regs: &Places,
    sew: u32,
    width: u32,
    w: u32,
    f: F,
) -> Word
    requires same { S.vlen file.now ≡ at.now.vlen }
    requires sound { IsSound (reading form (view_of at.now) regs.now (S.words file.now)) }
    requires reduces { IsTrue (is_reduce (rule_of form.family)) }
    requires registers { form.first ≡ Vector }
    requires elements { AreReduced (operands_of form.family) }
    requires sew { sew ≡ sew_of (reading form (view_of at.now) regs.now (S.words file.now)) }
    requires is_sew { IsTrue (is_width sew) }
    requires width { width ≡ destination_width (reading form (view_of at.now) regs.now (S.words file.now)) }
    requires is_width { IsTrue (is_width width) }
    requires small { at.now.vl ≤ 65536 }
    requires within { w < length (destination_words (reading form (view_of at.now) regs.now (S.words file.now))) }
    requires callable { (t : Terms) → F.pre f t }
    requires makes { (t : Terms) (v : ℕ) → F.post f t v → v ≡ reduced_by (rule_of form.family) sew t.sum t.x }
    ensures value { result.value ≡ made_word (reading form (view_of at.now) regs.now (S.words file.now)) w }
    ensures sat { result.sat ≡ word_saturates (reading form (view_of at.now) regs.now (S.words file.now)) w }
{
    elements_are_lanes();
    let old = group_word(file, at, regs.vd, w);
    if writes_first(at, w) {
        let start = lane_at(width, group_word(file, at, regs.vs1, 0), 0);
        let sum = joined_all(form, file, at, regs, sew, start, &f);
        first_set(width, old, sum)
    } else {
        unchanged(old)
    }
}

/// `reduced_word` at SEW.
#[inline(always)]
fn at_sew<S: WordFile, F: Fn(Terms) -> u64>(
    form: Form,
    file: &S,
    at: &Setting,
    regs: &Places,
    sew: u32,
    w: u32,
    f: F,
) -> Word
    requires same { S.vlen file.now ≡ at.now.vlen }
    requires sound { IsSound (reading form (view_of at.now) regs.now (S.words file.now)) }
    requires kind { IsTrue (is_even_reduction form.family) }
    requires registers { form.first ≡ Vector }
    requires sew { sew ≡ sew_of (reading form (view_of at.now) regs.now (S.words file.now)) }
    requires width { IsTrue (is_width sew) }
    requires small { at.now.vl ≤ 65536 }
    requires within { w < length (destination_words (reading form (view_of at.now) regs.now (S.words file.now))) }
    requires callable { (t : Terms) → F.pre f t }
    requires makes { (t : Terms) (v : ℕ) → F.post f t v → v ≡ reduced_by (rule_of form.family) sew t.sum t.x }
    ensures value { result.value ≡ made_word (reading form (view_of at.now) regs.now (S.words file.now)) w }
    ensures sat { result.sat ≡ word_saturates (reading form (view_of at.now) regs.now (S.words file.now)) w }
{
    reduced_word(form, file, at, regs, sew, sew, w, f)
}

/// Word `w` of the destination of a reduction to the least signed number. There is a closure for each width, in which it stands
/// as a literal.
#[inline(always)]
fn least<S: WordFile>(form: Form, file: &S, at: &Setting, regs: &Places, sew: u32, w: u32) -> Word
    requires family { form.family ≡ Vredmin }
    requires same { S.vlen file.now ≡ at.now.vlen }
    requires sound { IsSound (reading form (view_of at.now) regs.now (S.words file.now)) }
    requires kind { IsTrue (is_even_reduction form.family) }
    requires registers { form.first ≡ Vector }
    requires sew { sew ≡ sew_of (reading form (view_of at.now) regs.now (S.words file.now)) }
    requires width { IsTrue (is_width sew) }
    requires small { at.now.vl ≤ 65536 }
    requires within { w < length (destination_words (reading form (view_of at.now) regs.now (S.words file.now))) }
    ensures value { result.value ≡ made_word (reading form (view_of at.now) regs.now (S.words file.now)) w }
    ensures sat { result.sat ≡ word_saturates (reading form (view_of at.now) regs.now (S.words file.now)) w }
{
    match sew {
        8 => at_sew(form, file, at, regs, 8, w, |t| lesser(8, t.sum, t.x)),
        16 => at_sew(form, file, at, regs, 16, w, |t| lesser(16, t.sum, t.x)),
        32 => at_sew(form, file, at, regs, 32, w, |t| lesser(32, t.sum, t.x)),
        _ => at_sew(form, file, at, regs, 64, w, |t| lesser(64, t.sum, t.x)),
    }
}

/// Word `w` of the destination of a reduction to the greatest signed number, likewise.
#[inline(always)]
fn greatest<S: WordFile>(
    form: Form,
    file: &S,
    at: &Setting,
    regs: &Places,
    sew: u32,
    w: u32,
) -> Word
    requires family { form.family ≡ Vredmax }
    requires same { S.vlen file.now ≡ at.now.vlen }
    requires sound { IsSound (reading form (view_of at.now) regs.now (S.words file.now)) }
    requires kind { IsTrue (is_even_reduction form.family) }
    requires registers { form.first ≡ Vector }
    requires sew { sew ≡ sew_of (reading form (view_of at.now) regs.now (S.words file.now)) }
    requires width { IsTrue (is_width sew) }
    requires small { at.now.vl ≤ 65536 }
    requires within { w < length (destination_words (reading form (view_of at.now) regs.now (S.words file.now))) }
    ensures value { result.value ≡ made_word (reading form (view_of at.now) regs.now (S.words file.now)) w }
    ensures sat { result.sat ≡ word_saturates (reading form (view_of at.now) regs.now (S.words file.now)) w }
{
    match sew {
        8 => at_sew(form, file, at, regs, 8, w, |t| greater(8, t.sum, t.x)),
        16 => at_sew(form, file, at, regs, 16, w, |t| greater(16, t.sum, t.x)),
        32 => at_sew(form, file, at, regs, 32, w, |t| greater(32, t.sum, t.x)),
        _ => at_sew(form, file, at, regs, 64, w, |t| greater(64, t.sum, t.x)),
    }
}

/// Word `w` of the destination of a reduction at SEW.
#[inline(always)]
fn even_by_family<S: WordFile>(
    form: Form,
    file: &S,
    at: &Setting,
    regs: &Places,
    sew: u32,
    w: u32,
) -> Word
    requires same { S.vlen file.now ≡ at.now.vlen }
    requires sound { IsSound (reading form (view_of at.now) regs.now (S.words file.now)) }
    requires kind { IsTrue (is_even_reduction form.family) }
    requires registers { form.first ≡ Vector }
    requires sew { sew ≡ sew_of (reading form (view_of at.now) regs.now (S.words file.now)) }
    requires width { IsTrue (is_width sew) }
    requires small { at.now.vl ≤ 65536 }
    requires within { w < length (destination_words (reading form (view_of at.now) regs.now (S.words file.now))) }
    ensures value { result.value ≡ made_word (reading form (view_of at.now) regs.now (S.words file.now)) w }
    ensures sat { result.sat ≡ word_saturates (reading form (view_of at.now) regs.now (S.words file.now)) w }
{
    match form.family {
        Family::Vredsum => at_sew(form, file, at, regs, sew, w, |t| add_at(sew, t.sum, t.x)),
        Family::Vredand => at_sew(form, file, at, regs, sew, w, |t| t.sum & t.x),
        Family::Vredor => at_sew(form, file, at, regs, sew, w, |t| t.sum | t.x),
        Family::Vredxor => at_sew(form, file, at, regs, sew, w, |t| t.sum ^ t.x),
        Family::Vredminu => at_sew(form, file, at, regs, sew, w, |t| t.sum.min(t.x)),
        Family::Vredmin => least(form, file, at, regs, sew, w),
        Family::Vredmaxu => at_sew(form, file, at, regs, sew, w, |t| t.sum.max(t.x)),
        Family::Vredmax => greatest(form, file, at, regs, sew, w),
        _ => unreachable!(),
    }
}

/// The same. Each width stands as a literal, so that the loop over a word's lanes is one at a known width.
#[inline(never)]
pub(crate) fn even_reduction<S: WordFile>(
    form: Form,
    file: &S,
    at: &Setting,
    regs: &Places,
    sew: u32,
    w: u32,
) -> Word
    requires same { S.vlen file.now ≡ at.now.vlen }
    requires sound { IsSound (reading form (view_of at.now) regs.now (S.words file.now)) }
    requires kind { IsTrue (is_even_reduction form.family) }
    requires registers { form.first ≡ Vector }
    requires sew { sew ≡ sew_of (reading form (view_of at.now) regs.now (S.words file.now)) }
    requires width { IsTrue (is_width sew) }
    requires small { at.now.vl ≤ 65536 }
    requires within { w < length (destination_words (reading form (view_of at.now) regs.now (S.words file.now))) }
    ensures value { result.value ≡ made_word (reading form (view_of at.now) regs.now (S.words file.now)) w }
    ensures sat { result.sat ≡ word_saturates (reading form (view_of at.now) regs.now (S.words file.now)) w }
{
    match sew {
        8 => even_by_family(form, file, at, regs, 8, w),
        16 => even_by_family(form, file, at, regs, 16, w),
        32 => even_by_family(form, file, at, regs, 32, w),
        _ => even_by_family(form, file, at, regs, sew, w),
    }
}

/// An unsigned number added to a sum of a width.
#[inline(always)]
fn with_unsigned(width: u32, sum: u64, x: u64) -> u64
    requires { IsTrue (is_width width) }
    ensures { result ≡ reduced width (pos (sum + x)) }
{
    low(width, sum.wrapping_add(x))
}

/// A signed number of a width added to a sum of another.
#[inline(always)]
fn with_signed(sew: u32, width: u32, sum: u64, x: u64) -> u64
    requires sew { IsTrue (is_width sew) }
    requires width { IsTrue (is_width width) }
    ensures { result ≡ reduced width (pos sum +ℤ signed_at sew x) }
{
    reduce(width, i128::from(sum) + i128::from(signed_reading(sew, x)))
}

/// Word `w` of the destination of a reduction at twice SEW.
#[inline(never)]
pub(crate) fn wide_reduction<S: WordFile>(
    form: Form,
    file: &S,
    at: &Setting,
    regs: &Places,
    sew: u32,
    w: u32,
) -> Word
    requires same { S.vlen file.now ≡ at.now.vlen }
    requires sound { IsSound (reading form (view_of at.now) regs.now (S.words file.now)) }
    requires kind { IsTrue (is_wide_reduction form.family) }
    requires registers { form.first ≡ Vector }
    requires sew { sew ≡ sew_of (reading form (view_of at.now) regs.now (S.words file.now)) }
    requires width { IsTrue (is_width sew) }
    requires wide { IsTrue (is_width (2 * sew)) }
    requires small { at.now.vl ≤ 65536 }
    requires within { w < length (destination_words (reading form (view_of at.now) regs.now (S.words file.now))) }
    ensures value { result.value ≡ made_word (reading form (view_of at.now) regs.now (S.words file.now)) w }
    ensures sat { result.sat ≡ word_saturates (reading form (view_of at.now) regs.now (S.words file.now)) w }
{
    let width = 2 * sew;
    match form.family {
        Family::Vwredsumu => reduced_word(
            form,
            file,
            at,
            regs,
            sew,
            width,
            w,
            |t| with_unsigned(width, t.sum, t.x),
        ),
        Family::Vwredsum => reduced_word(
            form,
            file,
            at,
            regs,
            sew,
            width,
            w,
            |t| with_signed(sew, width, t.sum, t.x),
        ),
        _ => unreachable!(),
    }
}
