ghost use Rattle.std.specs.List.{Contains};
ghost use Rattle.std.specs.Prelude.{◌≡◌, ◌≢◌, ◌⊎◌, ℕ, Bool, ◌+◌, ◌*◌, ◌<◌, ◌≤◌, ◌^◌, true, IsTrue, length, flat_map, List, slice_index};
ghost use Rattle.vx_vector.specs.Accesses.{
  Access,
  Movement,
  access_list,
  accesses_between,
  movement_count,
  value_stored,
};
ghost use Rattle.vx_vector.specs.Batches.{
  Batch,
  accesses_of_batch,
  batch_at,
  batch_words,
  batches,
  next_batches,
  place_of_access,
};
ghost use Rattle.vx_vector.specs.Laws.{AreSameAt};
ghost use Rattle.vx_vector.specs.Movements.{
  IsLegalMovement,
  IsPlacedAccess,
  IsSoundMovement,
  after_loads,
  loaded_word,
  movement_others,
};
ghost use Rattle.vx_vstate.specs.Registers.{is_byte_width, words_of_all};

use vx_vstate::{elements_lie_in_their_group, groups_have_sizes, set_element_leaves_words};

/// Law of batches: their accesses, those of one batch behind those of another, are all accesses; and from an element on, those
/// from that element on.
pub fn batches_are_all_accesses()
    ensures all { (m : Movement) (lanes most : ℕ) → flat_map (accesses_of_batch m) (batches m lanes most) ≡ access_list m }
    ensures rest { (m : Movement) (lanes most n from : ℕ) → movement_count m ≤ from + n → flat_map (accesses_of_batch m) (next_batches m lanes most n from) ≡ accesses_between m from (movement_count m) }
{}

/// Law of the longest run: a batch has an element at least, ends among the elements, has no more of them than it may and,
/// unless it has one alone, no more accesses than there are lanes; and with the element behind it, it would have more.
pub fn batches_are_longest_runs()
    ensures some { (m : Movement) (lanes most from : ℕ) → from < (batch_at m lanes most from).after }
    ensures within { (m : Movement) (lanes most from : ℕ) → from < movement_count m → (batch_at m lanes most from).after ≤ movement_count m }
    ensures elements { (m : Movement) (lanes most from : ℕ) → 1 ≤ most → (batch_at m lanes most from).after ≤ from + most }
    ensures accesses { (m : Movement) (lanes most from : ℕ) → ((batch_at m lanes most from).after ≡ from + 1) ⊎ (length (accesses_of_batch m (batch_at m lanes most from)) ≤ lanes) }
    ensures longest { (m : Movement) (lanes most from : ℕ) → (batch_at m lanes most from).after < from + most → (batch_at m lanes most from).after < movement_count m → lanes < length (accesses_between m from ((batch_at m lanes most from).after + 1)) }
{}

/// Law of a load's words: after accesses that loaded values, a word is the old one with what those of them loaded that lie in
/// it; a word in which none lies is the old one; there are as many words, and each has 64 bits.
pub fn loads_make_words()
    ensures word { (vlen : ℕ) (value : Access → ℕ) (accesses : List Access) (words : List ℕ) (place : ℕ) → place < length words → slice_index (after_loads vlen value words accesses) place ≡ loaded_word vlen value place (slice_index words place) accesses }
    ensures outside { (vlen : ℕ) (value : Access → ℕ) (accesses : List Access) (words : List ℕ) (place : ℕ) → ((a : Access) → Contains accesses a → place_of_access vlen a ≢ place) → slice_index (after_loads vlen value words accesses) place ≡ slice_index words place }
    ensures count { (vlen : ℕ) (value : Access → ℕ) (accesses : List Access) (words : List ℕ) → length (after_loads vlen value words accesses) ≡ length words }
    ensures bits { (vlen : ℕ) (value : Access → ℕ) (accesses : List Access) (words : List ℕ) (place : ℕ) → ((a : Access) → Contains accesses a → IsTrue (is_byte_width (8 * a.width))) → slice_index words place < 2 ^ 64 → slice_index (after_loads vlen value words accesses) place < 2 ^ 64 }
{
    set_element_leaves_words();
}

/// Law of a batch's words: its accesses, the values that they store, and where it ends depend on the words that the batch
/// needs alone.
pub fn batches_need_their_words()
    ensures accesses { (m : Movement) (others : List ℕ) (stores : Bool) (b : Batch) → AreSameAt (batch_words m stores b) m.words others → accesses_of_batch m b ≡ accesses_of_batch (movement_others m others) b }
    ensures values { (m : Movement) (others : List ℕ) (b : Batch) → AreSameAt (batch_words m true b) m.words others → (a : Access) → Contains (accesses_of_batch m b) a → value_stored m.at.vlen m.words a ≡ value_stored m.at.vlen others a }
    ensures ends { (m : Movement) (others : List ℕ) (stores : Bool) (lanes most from : ℕ) → AreSameAt (batch_words m stores (batch_at m lanes most from)) m.words others → batch_at m lanes most from ≡ batch_at (movement_others m others) lanes most from }
{}

/// Law of legality: what a legal load or store reads and moves is sound, and its accesses are placed in registers that there
/// are.
pub fn legal_movements_are_sound()
    ensures sound { (m : Movement) → IsLegalMovement m → length m.words ≡ words_of_all m.at.vlen → IsSoundMovement m }
    ensures placed { (m : Movement) (a : Access) → IsSoundMovement m → Contains (access_list m) a → IsPlacedAccess m.at.vlen a }
{
    elements_lie_in_their_group();
    groups_have_sizes();
}
