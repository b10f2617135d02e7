ghost use Rattle.std.specs.Prelude.{◌≤◌, ◌<◌, ◌≡◌, ℕ, false, Some};
ghost use Rattle.vx_decode.specs.Encoded.{IsValid};
ghost use Rattle.vx_decode.specs.Legal.{is_illegal};
ghost use Rattle.vx_decode.specs.declared.instr.Instr.{Instr};
ghost use Rattle.vx_image.specs.Pages.{Image};
ghost use Rattle.vx_rows.specs.declared.op.Op.{Op};
ghost use Rattle.vx_rows.specs.Table.{class_of};
ghost use Rattle.vx_rows.specs.declared.row.Addressing.{Addressing};
ghost use Rattle.vx_rows.specs.declared.row.Class.TheVariants.{VectorLoad, VectorStore};
ghost use Rattle.vx_rows.specs.declared.row.Eew.{Eew};
ghost use Rattle.vx_vstate.specs.State.{IsVectorState};
ghost use Rattle.vx_flat.specs.Boot.{booted};
ghost use Rattle.vx_flat.specs.Classes.{Does};
ghost use Rattle.vx_flat.specs.Continued.{continued, continued_by};
ghost use Rattle.vx_flat.specs.Examples.{ExamplesHold};
ghost use Rattle.vx_flat.specs.Outcome.Outcome.{Next};
ghost use Rattle.vx_flat.specs.Prefix.{flat_within, prefix_at, prefix_of};
ghost use Rattle.vx_flat.specs.Scalar.{work};
ghost use Rattle.vx_flat.specs.Splits.{IsRunnable, IsWellFormed};
ghost use Rattle.vx_flat.specs.State.{Flat};
ghost use Rattle.vx_flat.specs.Step.{step};
ghost use Rattle.vx_flat.specs.Transfers.{transfer, transferred};
ghost use Rattle.vx_flat.specs.Transfers.Direction.{Loading, Storing};
ghost use Rattle.vx_flat.specs.Vectors.{setting_at};
ghost use Rattle.vx_flat.specs.Run.{flat, IsPrefixOf};
ghost use Rattle.vx_flat.specs.declared.hart.Hart.{Hart};

use vx_decode::decoded_is_valid;
use vx_vector::{legal_movements_are_sound, other_words_stay};
use vx_vstate::{groups_have_sizes, other_elements_stay, set_element_leaves_words};

/// What a run has written is a prefix of what it has written later.
pub fn output_only_grows()
    ensures { (hart : Hart) (image : Image) (n m : ℕ) (early late : Flat) → n ≤ m → flat hart image n ≡ Some early → flat hart image m ≡ Some late → IsPrefixOf early.output late.output }
{}

/// The run that goes on past faults is the run, as long as that goes on.
pub fn continued_run_is_the_run()
    ensures { (hart : Hart) (image : Image) (n : ℕ) (s : Flat) → flat hart image n ≡ Some s → continued_by n (booted hart image) ≡ s }
{}

/// The run that goes on past faults takes the step, where that doesn't fault.
pub fn continued_is_the_step()
    ensures { (s t : Flat) → step s ≡ Next t → continued s ≡ t }
{}

/// Law of well-formed states: a run begins with one where its hart and image may run, and a step and a step of the run that
/// goes on past faults keep it so. So the states of a run are.
pub fn runs_are_well_formed()
    ensures boot { (hart : Hart) (image : Image) → IsRunnable hart image → IsWellFormed (booted hart image) }
    ensures step { (s t : Flat) → IsWellFormed s → step s ≡ Next t → IsWellFormed t }
    ensures continued { (s : Flat) → IsWellFormed s → IsWellFormed (continued s) }
    ensures run { (hart : Hart) (image : Image) (n : ℕ) (s : Flat) → IsRunnable hart image → flat hart image n ≡ Some s → IsWellFormed s }
{
    groups_have_sizes();
    other_words_stay();
    set_element_leaves_words();
}

/// Split law: from a state with the elements below `k` of the next instruction done, the step is the one from the state
/// before: it completes in the same state, or faults with the same cause, address and element, and leaves the same. A legal
/// vector load or store, begun again at element `k`, comes to what it would have come to.
pub fn steps_may_be_split()
    ensures step { (s t : Flat) (k : ℕ) → IsWellFormed s → prefix_at k s ≡ Some t → step t ≡ step s }
    ensures continued { (s t : Flat) (k : ℕ) → IsWellFormed s → prefix_at k s ≡ Some t → continued t ≡ continued s }
    ensures run { (hart : Hart) (image : Image) (n k : ℕ) (s t : Flat) → IsRunnable hart image → flat hart image n ≡ Some s → flat_within hart image n k ≡ Some t → step t ≡ step s }
    ensures load { (addressing : Addressing) (encoded : Eew) (i : Instr) (s t : Flat) (k : ℕ) → IsVectorState s.v → IsValid i → class_of i.op ≡ VectorLoad addressing encoded → is_illegal i (setting_at s i) ≡ false → prefix_of (transfer Loading addressing encoded s i) k s ≡ Some t → transferred (transfer Loading addressing encoded t i) t ≡ transferred (transfer Loading addressing encoded s i) s }
    ensures store { (addressing : Addressing) (encoded : Eew) (i : Instr) (s t : Flat) (k : ℕ) → prefix_of (transfer Storing addressing encoded s i) k s ≡ Some t → transferred (transfer Storing addressing encoded t i) t ≡ transferred (transfer Storing addressing encoded s i) s }
{
    decoded_is_valid();
    groups_have_sizes();
    legal_movements_are_sound();
    other_elements_stay();
    runs_are_well_formed();
}

/// A state within an instruction that is reached in two goes is reached in one; it stands at its element, and is well-formed.
pub fn prefixes_join()
    ensures joined { (s t u : Flat) (j k : ℕ) → IsWellFormed s → prefix_at j s ≡ Some t → prefix_at k t ≡ Some u → prefix_at k s ≡ Some u }
    ensures run { (hart : Hart) (image : Image) (n j k : ℕ) (t u : Flat) → IsRunnable hart image → flat_within hart image n j ≡ Some t → prefix_at k t ≡ Some u → flat_within hart image n k ≡ Some u }
    ensures element { (s t : Flat) (k : ℕ) → prefix_at k s ≡ Some t → t.v.vstart ≡ k }
    ensures pc { (s t : Flat) (k : ℕ) → prefix_at k s ≡ Some t → t.pc ≡ s.pc }
    ensures output { (s t : Flat) (k : ℕ) → prefix_at k s ≡ Some t → t.output ≡ s.output }
    ensures formed { (s t : Flat) (k : ℕ) → IsWellFormed s → k < s.v.vlen → prefix_at k s ≡ Some t → IsWellFormed t }
{
    decoded_is_valid();
    groups_have_sizes();
    legal_movements_are_sound();
    other_elements_stay();
    other_words_stay();
    set_element_leaves_words();
    runs_are_well_formed();
}

/// The definitions give what is worked out for some small states.
pub fn examples_hold()
    ensures { ExamplesHold }
{}

/// Each operation does what its class says.
pub fn operations_do_as_their_class()
    ensures { (op : Op) (pc a b n : ℕ) → Does (class_of op) pc (work op pc a b n) }
{}
