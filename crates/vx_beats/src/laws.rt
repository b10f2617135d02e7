ghost use Rattle.std.specs.Prelude.{◌≡◌, ℕ, false, length, List, [], None};
ghost use Rattle.vx_decode.specs.declared.instr.Instr.{Instr};
ghost use Rattle.vx_episode.specs.Footprint.{calculating, groups_made};
ghost use Rattle.vx_episode.specs.Organisation.{Organisation};
ghost use Rattle.vx_rows.specs.Families.{unit_of};
ghost use Rattle.vx_vector.specs.Reading.{Reading};

/// Law of vector arithmetic: it has as many beats as groups of words, all on the unit of its family, and no batch; it waits for
/// no retire, it completes a cycle after its issue if its beats don't take longer, and it never stops its episode.
pub fn calculations_have_beats_alone()
    ensures count { (r : Reading) (groups : List (List ℕ)) → length (groups_made r groups) ≡ length groups }
    ensures unit { (machine : Organisation) (i : Instr) (r : Reading) → (calculating machine i r).unit ≡ unit_of r.family }
    ensures jumps { (machine : Organisation) (i : Instr) (r : Reading) → (calculating machine i r).jumps ≡ false }
    ensures serial { (machine : Organisation) (i : Instr) (r : Reading) → (calculating machine i r).is_serial ≡ false }
    ensures latency { (machine : Organisation) (i : Instr) (r : Reading) → (calculating machine i r).latency ≡ 1 }
    ensures batches { (machine : Organisation) (i : Instr) (r : Reading) → (calculating machine i r).batches ≡ [] }
    ensures trims { (machine : Organisation) (i : Instr) (r : Reading) → (calculating machine i r).is_fault_only_first ≡ false }
    ensures stop { (machine : Organisation) (i : Instr) (r : Reading) → (calculating machine i r).stop ≡ None }
{}
