ghost use Rattle.std.specs.List.{Contains, list_any};
ghost use Rattle.std.specs.Prelude.{◌≡◌, ℕ, ◌+◌, ◌*◌, ◌/◌, ◌<◌, ◌^◌, ◌&&◌, if◌then◌else◌, IsTrue, length, List, slice_index, None, Some};
ghost use Rattle.vx_vector.specs.Arithmetic.{saturates, told, words_after};
ghost use Rattle.vx_vector.specs.Laws.{
  AreSameAt,
  IsByElement,
  IsSound,
  made_by_handling,
  made_word,
  made_words,
  per_word,
  reading_others,
  word_before,
  word_saturates,
};
ghost use Rattle.vx_bits.specs.declared.saturation.Sat.{Sat};
ghost use Rattle.vx_packed.specs.Joined.{joined, lane, some_below};
ghost use Rattle.vx_vector.specs.Reading.{Reading, destination_width, is_active};
ghost use Rattle.vx_vector.specs.Words.{destination_words, source_words};
ghost use Rattle.vx_rows.specs.declared.op.Op.{Op};
ghost use Rattle.vx_vector.specs.Instructions.{IsLegal, reading_of};
ghost use Rattle.vx_vector.specs.declared.places.Places.{Places};
ghost use Rattle.vx_vstate.specs.Registers.{element, is_element_width, word_at, words_of_all};
ghost use Rattle.vx_vstate.specs.State.{SettingView};

use vx_packed::joined_by_elements;
use vx_vstate::{
    elements_lie_in_their_group, groups_have_sizes, other_elements_stay, other_indices_are_apart,
    set_element_is_read, set_element_leaves_words,
};

/// Law of words: after the instruction, word `w` of the destination is the one that is made of its elements. The words that
/// an instruction makes are words of its destination, and it saturates where one of them does. So words can be made one by
/// one, in any order. A word is a number of 64 bits (`word_before r w < 2 ^ 64`).
pub fn words_are_made()
    ensures value { (r : Reading) (w : ℕ) → IsSound r → word_before r w < 2 ^ 64 → w < length (destination_words r) → word_at r.at.vlen (words_after r) r.places.vd w ≡ made_word r w }
    ensures inside { (r : Reading) (w : ℕ) → IsSound r → told r ≡ None → Contains (made_words r) w → w < length (destination_words r) }
    ensures sat { (r : Reading) → IsSound r → saturates r ≡ list_any (word_saturates r) (made_words r) }
{
    joined_by_elements();
    elements_lie_in_their_group();
    set_element_is_read();
    set_element_leaves_words();
    other_elements_stay();
    other_indices_are_apart();
}

/// Law of legality: what a legal instruction of vector arithmetic reads, of the words of all registers, is sound, which the
/// other laws ask for.
pub fn legal_readings_are_sound()
    ensures { (op : Op) (at : SettingView) (places : Places) (words : List ℕ) (r : Reading) → IsLegal op at places → length words ≡ words_of_all at.vlen → reading_of op at places words ≡ Some r → IsSound r }
{
    elements_lie_in_their_group();
    groups_have_sizes();
}

/// Law of lanes: an element is a lane of its word; and where each active element becomes what `g` gives, and no other becomes
/// anything, a word that is made has what `g` gives at its active lanes, and its old elements at the others.
pub fn elements_are_lanes()
    ensures lane { (vlen : ℕ) (words : List ℕ) (register width w k : ℕ) → IsTrue (is_element_width width) → k < 64 / width → element vlen words register width (w * (64 / width) + k) ≡ lane width (word_at vlen words register w) k }
    ensures value { (r : Reading) (g : ℕ → Sat) (w : ℕ) → IsSound r → IsByElement r g → made_word r w ≡ joined (destination_width r) (per_word r) (λ k. if is_active r (w * per_word r + k) then (g (w * per_word r + k)).value else lane (destination_width r) (word_before r w) k) }
    ensures sat { (r : Reading) (g : ℕ → Sat) (w : ℕ) → IsByElement r g → word_saturates r w ≡ some_below (per_word r) (λ k. is_active r (w * per_word r + k) && (g (w * per_word r + k)).sat) }
{
    joined_by_elements();
}

/// Law of sources: the word that is made as word `w` is handled, whether it saturates, and what is put into an integer
/// register depend on the words that word `w` needs alone.
pub fn words_need_their_sources()
    ensures value { (r : Reading) (others : List ℕ) (w : ℕ) → IsSound r → AreSameAt (source_words r w) r.words others → made_word r (made_by_handling r w) ≡ made_word (reading_others r others) (made_by_handling r w) }
    ensures sat { (r : Reading) (others : List ℕ) (w : ℕ) → IsSound r → AreSameAt (source_words r w) r.words others → word_saturates r (made_by_handling r w) ≡ word_saturates (reading_others r others) (made_by_handling r w) }
    ensures told { (r : Reading) (others : List ℕ) (w : ℕ) → IsSound r → AreSameAt (source_words r w) r.words others → told r ≡ told (reading_others r others) }
{
    joined_by_elements();
    elements_lie_in_their_group();
    set_element_is_read();
    set_element_leaves_words();
    other_elements_stay();
    other_indices_are_apart();
}

/// Law of the rest: as many words stay as there were; words outside the destination and words that aren't made stay as they
/// were; and a row that puts something into an integer register changes none.
pub fn other_words_stay()
    ensures count { (r : Reading) → length (words_after r) ≡ length r.words }
    ensures outside { (r : Reading) (place : ℕ) → IsSound r → ¬ Contains (destination_words r) place → slice_index (words_after r) place ≡ slice_index r.words place }
    ensures unmade { (r : Reading) (w : ℕ) → IsSound r → ¬ Contains (made_words r) w → word_at r.at.vlen (words_after r) r.places.vd w ≡ word_at r.at.vlen r.words r.places.vd w }
    ensures telling { (r : Reading) (x : ℕ) → told r ≡ Some x → words_after r ≡ r.words }
{
    joined_by_elements();
    elements_lie_in_their_group();
    set_element_is_read();
    set_element_leaves_words();
    other_elements_stay();
    other_indices_are_apart();
}
