//! Vector loads and stores: whether one is legal, and what it does, as a whole or up to an element.

ghost use Rattle.std.specs.Prelude.{◌≡◌, ◌⊎◌, ℕ, Bool, List, ◌<◌, ◌≤◌, ◌&&◌, not, is_some, true, Some, None, IfSome};
ghost use Rattle.vx_base.specs.declared.machine.Fault.{Fault};
ghost use Rattle.vx_decode.specs.Encoded.{IsValid};
ghost use Rattle.vx_decode.specs.Legal.{is_illegal};
ghost use Rattle.vx_flat.specs.Outcome.Outcome.{Next};
ghost use Rattle.vx_flat.specs.Prefix.{prefix_at, transfer_next};
ghost use Rattle.vx_flat.specs.State.{at_element, completed};
ghost use Rattle.vx_flat.specs.Step.{upcoming};
ghost use Rattle.vx_flat.specs.Transfers.{below_done, first_failure, is_fault_only_first, transfer, transferred};
ghost use Rattle.vx_flat.specs.Transfers.{Direction as FlatDirection};
ghost use Rattle.vx_flat.specs.Transfers.Direction.{Loading, Storing};
ghost use Rattle.vx_flat.specs.Vectors.{setting_at};
ghost use Rattle.vx_hart.specs.Directions.{direction_of};
ghost use Rattle.vx_hart.specs.Outcomes.{flat_of, outcome_of};
ghost use Rattle.vx_hart.specs.Transfers.{HasMoved, Moves, stopped, transfer_with};
ghost use Rattle.vx_image.specs.Pages.{Memory as FlatMemory};
ghost use Rattle.vx_rows.specs.Table.{class_of};
ghost use Rattle.vx_rows.specs.declared.row.Class.TheVariants.{VectorLoad, VectorStore};
ghost use Rattle.vx_scalar.specs.Operands.{NamesRegisters};
ghost use Rattle.vx_vaddr.specs.Views.{movement_with};
ghost use Rattle.vx_vector.specs.Accesses.{accesses_between, movement_count};

use crate::arch::Arch;
use crate::direction::Direction;
use crate::failures::Failed;
use crate::kept::Kept;
use crate::memory::Memory;
use crate::progress::Progress;
use crate::scalars::{complete, fault};
use crate::transfers::{is_fault_only_first, load_elements, store_elements};
use vx_base::Fault;
use vx_decode::{Instr, legal};
use vx_rows::{Addressing, Eew};
use vx_vaddr::AccessPattern;
use vx_vector::legal_movements_are_sound;
use vx_vstate::Setting;

/// The accesses of a vector load or store and its setting, where it is legal.
pub fn movement(
    arch: &Arch,
    addressing: Addressing,
    encoded: Eew,
    i: &Instr,
) -> Option<(AccessPattern, Setting)>
    requires valid { IsValid i.now }
    requires registers { NamesRegisters i.now }
    requires row { (class_of i.now.op ≡ VectorLoad addressing encoded) ⊎ (class_of i.now.op ≡ VectorStore addressing encoded) }
    ensures legal { (memory : FlatMemory) (output : List ℕ) → is_some result ≡ (not (is_illegal i.now (setting_at (flat_of arch.now memory output) i.now))) }
    ensures moves { IfSome result (λ r. Moves arch.now.v r.0 r.1) }
    ensures addressing { IfSome result (λ r. (movement_with r.0 arch.now.v.words).addressing ≡ addressing) }
    ensures same { IfSome result (λ r. (direction : FlatDirection) (memory : FlatMemory) (output : List ℕ) → transfer_with direction r.0 arch.now.v ≡ transfer direction addressing encoded (flat_of arch.now memory output) i.now) }
{
    let base = arch.regs.read(i.rs1);
    let stride = arch.regs.read(i.rs2);
    let at = arch.v.setting(base);
    if !legal(i, &at) {
        return None;
    }
    legal_movements_are_sound();
    let _length = arch.v.vlen();
    let pattern = AccessPattern::new(addressing, encoded, i, &at, base, stride);
    Some((pattern, at))
}

/// Loads elements below an end, up to one of which an access fails.
fn load_by<P, M: Memory<P>>(
    kept: &mut Kept,
    arch: &mut Arch,
    memory: &mut M,
    physical: &mut P,
    pattern: &AccessPattern,
    at: &Setting,
    end: u32,
) -> Option<Failed>
    requires moves { Moves arch.old.v pattern.now at.now }
    requires end { end ≤ movement_count (movement_with pattern.now arch.old.v.words) }
    requires fits { M.fits memory.old physical.old }
    ensures fits { M.fits memory.new physical.new }
    ensures rest { M.rest memory.new physical.new ≡ M.rest memory.old physical.old }
    ensures moved { (output : List ℕ) → HasMoved Loading (movement_with pattern.now arch.old.v.words) end (flat_of arch.old (M.state memory.old physical.old) output) (flat_of arch.new (M.state memory.new physical.new) output) result }
{
    kept.keep_for(pattern, &arch.v);
    load_elements(pattern, at, end, kept, &mut arch.v, memory, physical)
}

/// Stores elements below an end, up to one of which an access fails.
fn store_by<P, M: Memory<P>>(
    arch: &mut Arch,
    memory: &mut M,
    physical: &mut P,
    pattern: &AccessPattern,
    at: &Setting,
    end: u32,
) -> Option<Failed>
    requires moves { Moves arch.old.v pattern.now at.now }
    requires end { end ≤ movement_count (movement_with pattern.now arch.old.v.words) }
    requires fits { M.fits memory.old physical.old }
    ensures fits { M.fits memory.new physical.new }
    ensures rest { M.rest memory.new physical.new ≡ M.rest memory.old physical.old }
    ensures moved { (output : List ℕ) → HasMoved Storing (movement_with pattern.now arch.old.v.words) end (flat_of arch.old (M.state memory.old physical.old) output) (flat_of arch.new (M.state memory.new physical.new) output) result }
{
    store_elements(pattern, at, end, &arch.v, memory, physical)
}

/// Does the elements below an end, up to one of which an access fails.
#[inline(always)]
fn go_through<P, M: Memory<P>>(
    kept: &mut Kept,
    arch: &mut Arch,
    memory: &mut M,
    physical: &mut P,
    direction: Direction,
    pattern: &AccessPattern,
    at: &Setting,
    end: u32,
) -> Option<Failed>
    requires moves { Moves arch.old.v pattern.now at.now }
    requires end { end ≤ movement_count (movement_with pattern.now arch.old.v.words) }
    requires fits { M.fits memory.old physical.old }
    ensures fits { M.fits memory.new physical.new }
    ensures rest { M.rest memory.new physical.new ≡ M.rest memory.old physical.old }
    ensures moved { (output : List ℕ) → HasMoved (direction_of direction) (movement_with pattern.now arch.old.v.words) end (flat_of arch.old (M.state memory.old physical.old) output) (flat_of arch.new (M.state memory.new physical.new) output) result }
{
    match direction {
        Direction::Loading => load_by(kept, arch, memory, physical, pattern, at, end),
        Direction::Storing => store_by(arch, memory, physical, pattern, at, end),
    }
}

/// Ends a vector load or store whose elements below its stop are done.
fn stop(
    arch: &mut Arch,
    last: &mut Fault,
    addressing: Addressing,
    failed: Option<Failed>,
) -> Progress
    requires within { IfSome failed (λ f. f.item.element < arch.old.v.vlen) }
    requires trims { IfSome failed (λ f. is_fault_only_first addressing ≡ true → f.item.element ≤ arch.old.v.vl) }
    ensures { (memory : FlatMemory) (output : List ℕ) → outcome_of result last.new (flat_of arch.new memory output) ≡ Some (stopped addressing (flat_of arch.old memory output) failed) }
{
    match failed {
        None => end(arch),
        Some(f) => {
            if is_fault_only_first(addressing) && f.item.element > 0 {
                arch.v.trim(f.item.element);
                end(arch)
            } else {
                arch.v.finish(f.item.element, false);
                fault(arch, last, f.cause, f.item.address)
            }
        }
    }
}

/// A vector instruction has completed.
fn end(arch: &mut Arch) -> Progress
    ensures { (fault : Fault) (memory : FlatMemory) (output : List ℕ) → outcome_of result fault (flat_of arch.new memory output) ≡ Some (Next (completed (flat_of arch.old memory output))) }
{
    let _vlen = arch.v.vlen();
    arch.v.finish(0, false);
    complete(arch)
}

/// Sets vstart.
fn set_vstart(arch: &mut Arch, k: u32)
    requires { k < arch.old.v.vlen }
    ensures { (memory : FlatMemory) (output : List ℕ) → flat_of arch.new memory output ≡ at_element k (flat_of arch.old memory output) }
{
    arch.v.finish(k, false);
}

/// Does a vector load or store, which is legal.
pub fn transfer<P, M: Memory<P>>(
    kept: &mut Kept,
    arch: &mut Arch,
    last: &mut Fault,
    memory: &mut M,
    physical: &mut P,
    direction: Direction,
    addressing: Addressing,
    pattern: &AccessPattern,
    at: &Setting,
) -> Progress
    requires moves { Moves arch.old.v pattern.now at.now }
    requires addressing { (movement_with pattern.now arch.old.v.words).addressing ≡ addressing }
    requires fits { M.fits memory.old physical.old }
    ensures fits { M.fits memory.new physical.new }
    ensures rest { M.rest memory.new physical.new ≡ M.rest memory.old physical.old }
    ensures done { (output : List ℕ) → outcome_of result last.new (flat_of arch.new (M.state memory.new physical.new) output) ≡ Some (transferred (transfer_with (direction_of direction) pattern.now arch.old.v) (flat_of arch.old (M.state memory.old physical.old) output)) }
{
    let count = pattern.count();
    let failed = go_through(kept, arch, memory, physical, direction, pattern, at, count);
    stop(arch, last, addressing, failed)
}

/// Does the elements of a vector load or store that are below k, of which no access fails, and sets vstart to k. It is legal.
pub fn reach<P, M: Memory<P>>(
    kept: &mut Kept,
    arch: &mut Arch,
    memory: &mut M,
    physical: &mut P,
    direction: Direction,
    pattern: &AccessPattern,
    at: &Setting,
    k: u32,
)
    requires moves { Moves arch.old.v pattern.now at.now }
    requires from { arch.old.v.vstart ≤ k }
    requires below { k < movement_count (movement_with pattern.now arch.old.v.words) }
    requires free { first_failure (direction_of direction) (M.state memory.old physical.old) (accesses_between (movement_with pattern.now arch.old.v.words) 0 k) ≡ None }
    requires fits { M.fits memory.old physical.old }
    ensures fits { M.fits memory.new physical.new }
    ensures rest { M.rest memory.new physical.new ≡ M.rest memory.old physical.old }
    ensures done { (output : List ℕ) → flat_of arch.new (M.state memory.new physical.new) output ≡ below_done (transfer_with (direction_of direction) pattern.now arch.old.v) k (flat_of arch.old (M.state memory.old physical.old) output) }
    ensures prefix { (output : List ℕ) → let s = flat_of arch.old (M.state memory.old physical.old) output in
        transfer_next s (upcoming s) ≡ Some (transfer_with (direction_of direction) pattern.now arch.old.v) → prefix_at k s ≡ Some (flat_of arch.new (M.state memory.new physical.new) output) }
{
    let _failed = go_through(kept, arch, memory, physical, direction, pattern, at, k);
    set_vstart(arch, k);
}

/// Does a vector load or store where it is legal; where it isn't, nothing changes.
#[inline(always)]
fn transfer_legal<P, M: Memory<P>>(
    kept: &mut Kept,
    arch: &mut Arch,
    last: &mut Fault,
    memory: &mut M,
    physical: &mut P,
    direction: Direction,
    addressing: Addressing,
    encoded: Eew,
    i: &Instr,
) -> Option<Progress>
    requires valid { IsValid i.now }
    requires registers { NamesRegisters i.now }
    requires row { (class_of i.now.op ≡ VectorLoad addressing encoded) ⊎ (class_of i.now.op ≡ VectorStore addressing encoded) }
    requires fits { M.fits memory.old physical.old }
    ensures fits { M.fits memory.new physical.new }
    ensures rest { M.rest memory.new physical.new ≡ M.rest memory.old physical.old }
    ensures legal { (output : List ℕ) → is_some result ≡ (not (is_illegal i.now (setting_at (flat_of arch.old (M.state memory.old physical.old) output) i.now))) }
    ensures illegal { result ≡ None → (output : List ℕ) → flat_of arch.new (M.state memory.new physical.new) output ≡ flat_of arch.old (M.state memory.old physical.old) output }
    ensures performed { IfSome result (λ p. (output : List ℕ) → outcome_of p last.new (flat_of arch.new (M.state memory.new physical.new) output) ≡ Some (transferred (transfer (direction_of direction) addressing encoded (flat_of arch.old (M.state memory.old physical.old) output) i.now) (flat_of arch.old (M.state memory.old physical.old) output))) }
{
    let Some((pattern, at)) = movement(arch, addressing, encoded, i) else {
        return None;
    };
    Some(transfer(
        kept, arch, last, memory, physical, direction, addressing, &pattern, &at,
    ))
}

/// Does a vector load where it is legal; where it isn't, nothing changes.
#[inline(never)]
pub fn load_vectors<P, M: Memory<P>>(
    kept: &mut Kept,
    arch: &mut Arch,
    last: &mut Fault,
    memory: &mut M,
    physical: &mut P,
    addressing: Addressing,
    encoded: Eew,
    i: &Instr,
) -> Option<Progress>
    requires valid { IsValid i.now }
    requires registers { NamesRegisters i.now }
    requires row { class_of i.now.op ≡ VectorLoad addressing encoded }
    requires fits { M.fits memory.old physical.old }
    ensures fits { M.fits memory.new physical.new }
    ensures rest { M.rest memory.new physical.new ≡ M.rest memory.old physical.old }
    ensures legal { (output : List ℕ) → is_some result ≡ (not (is_illegal i.now (setting_at (flat_of arch.old (M.state memory.old physical.old) output) i.now))) }
    ensures illegal { result ≡ None → (output : List ℕ) → flat_of arch.new (M.state memory.new physical.new) output ≡ flat_of arch.old (M.state memory.old physical.old) output }
    ensures performed { IfSome result (λ p. (output : List ℕ) → outcome_of p last.new (flat_of arch.new (M.state memory.new physical.new) output) ≡ Some (transferred (transfer Loading addressing encoded (flat_of arch.old (M.state memory.old physical.old) output) i.now) (flat_of arch.old (M.state memory.old physical.old) output))) }
{
    transfer_legal(
        kept,
        arch,
        last,
        memory,
        physical,
        Direction::Loading,
        addressing,
        encoded,
        i,
    )
}

/// Does a vector store where it is legal; where it isn't, nothing changes.
#[inline(never)]
pub fn store_vectors<P, M: Memory<P>>(
    kept: &mut Kept,
    arch: &mut Arch,
    last: &mut Fault,
    memory: &mut M,
    physical: &mut P,
    addressing: Addressing,
    encoded: Eew,
    i: &Instr,
) -> Option<Progress>
    requires valid { IsValid i.now }
    requires registers { NamesRegisters i.now }
    requires row { class_of i.now.op ≡ VectorStore addressing encoded }
    requires fits { M.fits memory.old physical.old }
    ensures fits { M.fits memory.new physical.new }
    ensures rest { M.rest memory.new physical.new ≡ M.rest memory.old physical.old }
    ensures legal { (output : List ℕ) → is_some result ≡ (not (is_illegal i.now (setting_at (flat_of arch.old (M.state memory.old physical.old) output) i.now))) }
    ensures illegal { result ≡ None → (output : List ℕ) → flat_of arch.new (M.state memory.new physical.new) output ≡ flat_of arch.old (M.state memory.old physical.old) output }
    ensures performed { IfSome result (λ p. (output : List ℕ) → outcome_of p last.new (flat_of arch.new (M.state memory.new physical.new) output) ≡ Some (transferred (transfer Storing addressing encoded (flat_of arch.old (M.state memory.old physical.old) output) i.now) (flat_of arch.old (M.state memory.old physical.old) output))) }
{
    transfer_legal(
        kept,
        arch,
        last,
        memory,
        physical,
        Direction::Storing,
        addressing,
        encoded,
        i,
    )
}
