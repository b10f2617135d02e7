ghost use Rattle.std.specs.Prelude.{◌≡◌, ℕ, ℤ, Bool, true, false, Some};
ghost use Rattle.vx_base.specs.declared.machine.Fault.{Fault};
ghost use Rattle.vx_base.specs.declared.machine.Want.{Want};
ghost use Rattle.vx_base.specs.declared.machine.Want.TheVariants.{Fetch};
ghost use Rattle.vx_episode.specs.Footprint.{footprint};
ghost use Rattle.vx_episode.specs.Organisation.{Organisation};
ghost use Rattle.vx_episode.specs.Show.{is_pending};
ghost use Rattle.vx_flat.specs.Memory.{byte_at};
ghost use Rattle.vx_flat.specs.Outcome.Outcome.{Next, Exited, Faulted};
ghost use Rattle.vx_flat.specs.Prefix.{prefix_at};
ghost use Rattle.vx_flat.specs.Splits.{IsWellFormed};
ghost use Rattle.vx_flat.specs.State.{Flat};
ghost use Rattle.vx_flat.specs.Step.{step, upcoming, word_at_pc};
ghost use Rattle.vx_image.specs.Pages.{Memory, permits};
ghost use Rattle.vx_pending.specs.Alike.{
  AreAlike,
  OutcomesAlike,
  PrefixesAlike,
  StandsExactlyFor,
  StandsFor,
  is_at_store,
  with_memory,
};
ghost use Rattle.vx_tables.specs.Residency.{Residency};

use vx_decode::decoded_is_valid;
use vx_vector::legal_movements_are_sound;

/// Law of the rest: a state's own memory is alike; bytes are pending only where a store comes next, so that elsewhere no byte
/// of an alike memory differs; and what stands for a state exactly stands for it.
pub fn nothing_else_differs()
    ensures itself { (s : Flat) → AreAlike s s.memory }
    ensures none { (s : Flat) (address : ℕ) → is_at_store s ≡ false → is_pending s address ≡ false }
    ensures bytes { (s : Flat) (m : Memory) → AreAlike s m → is_at_store s ≡ false → (address : ℕ) → byte_at m address ≡ byte_at s.memory address }
    ensures exact { (u t : Flat) → StandsExactlyFor u t → StandsFor u t }
{}

/// Law of what is read: an alike memory lets the same accesses through, and the same instruction comes next, which writes the
/// same bytes. So it is well-formed.
pub fn pending_bytes_are_not_read()
    ensures granted { (s : Flat) (m : Memory) → AreAlike s m → (address : ℕ) (want : Want) → permits m address want ≡ permits s.memory address want }
    ensures word { (s : Flat) (m : Memory) → IsWellFormed s → AreAlike s m → permits s.memory s.pc Fetch ≡ true → word_at_pc (with_memory m s) ≡ word_at_pc s }
    ensures next { (s : Flat) (m : Memory) → IsWellFormed s → AreAlike s m → upcoming (with_memory m s) ≡ upcoming s }
    ensures pending { (s : Flat) (m : Memory) → IsWellFormed s → AreAlike s m → (address : ℕ) → is_pending (with_memory m s) address ≡ is_pending s address }
    ensures well_formed { (s : Flat) (m : Memory) → IsWellFormed s → AreAlike s m → IsWellFormed (with_memory m s) }
{
    decoded_is_valid();
    legal_movements_are_sound();
}

/// Law of steps: from an alike memory the step comes to the same. Where it completes, all pending bytes are written, and no
/// byte differs; where it faults, those may differ that are pending then. What the step from the one memory is tells what
/// the step from the other is.
pub fn steps_are_alike()
    ensures step { (s : Flat) (m : Memory) → IsWellFormed s → AreAlike s m → OutcomesAlike (step (with_memory m s)) (step s) }
    ensures next { (s : Flat) (m : Memory) (u : Flat) → IsWellFormed s → AreAlike s m → step (with_memory m s) ≡ Next u → (t : Flat) × (step s ≡ Next t) × StandsExactlyFor u t }
    ensures exited { (s : Flat) (m : Memory) (code : ℤ) → IsWellFormed s → AreAlike s m → step (with_memory m s) ≡ Exited code → step s ≡ Exited code }
    ensures faulted { (s : Flat) (m : Memory) (fault : Fault) (u : Flat) → IsWellFormed s → AreAlike s m → step (with_memory m s) ≡ Faulted fault u → (t : Flat) × (step s ≡ Faulted fault t) × StandsFor u t }
    ensures next_there { (s : Flat) (m : Memory) (t : Flat) → IsWellFormed s → AreAlike s m → step s ≡ Next t → (u : Flat) × (step (with_memory m s) ≡ Next u) × StandsExactlyFor u t }
    ensures exited_there { (s : Flat) (m : Memory) (code : ℤ) → IsWellFormed s → AreAlike s m → step s ≡ Exited code → step (with_memory m s) ≡ Exited code }
    ensures faulted_there { (s : Flat) (m : Memory) (fault : Fault) (t : Flat) → IsWellFormed s → AreAlike s m → step s ≡ Faulted fault t → (u : Flat) × (step (with_memory m s) ≡ Faulted fault u) × StandsFor u t }
{
    decoded_is_valid();
    legal_movements_are_sound();
}

/// Law of prefixes: from an alike memory, the state with the elements below `k` of the next instruction done stands for the
/// one from the state's own, and where there is the one there is the other.
pub fn prefixes_are_alike()
    ensures prefix { (s : Flat) (m : Memory) (k : ℕ) → IsWellFormed s → AreAlike s m → PrefixesAlike (prefix_at k (with_memory m s)) (prefix_at k s) }
    ensures shown { (s : Flat) (m : Memory) (k : ℕ) (u : Flat) → IsWellFormed s → AreAlike s m → prefix_at k (with_memory m s) ≡ Some u → (t : Flat) × (prefix_at k s ≡ Some t) × StandsFor u t }
    ensures there { (s : Flat) (m : Memory) (k : ℕ) (t : Flat) → IsWellFormed s → AreAlike s m → prefix_at k s ≡ Some t → (u : Flat) × (prefix_at k (with_memory m s) ≡ Some u) × StandsFor u t }
{
    decoded_is_valid();
    legal_movements_are_sound();
}

/// Law of footprints: timing sees the same of an alike memory.
pub fn footprints_are_the_same()
    ensures { (machine : Organisation) (has_vectors : Bool) (residency : Residency) (s : Flat) (m : Memory) → IsWellFormed s → AreAlike s m → footprint machine has_vectors residency (with_memory m s) ≡ footprint machine has_vectors residency s }
{
    decoded_is_valid();
    legal_movements_are_sound();
}
