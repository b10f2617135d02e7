ghost use Rattle.std.specs.Prelude.{◌≡◌, ◌≢◌, ◌⊎◌, ℕ, Bool, List, ◌<◌, ◌≤◌, ◌&&◌, not, is_some, slice_index, true, false, Some, None, IfOk, IfSome};
ghost use Rattle.vx_decode.specs.Encoded.{IsValid};
ghost use Rattle.vx_decode.specs.Legal.{is_illegal};
ghost use Rattle.vx_flat.specs.Prefix.{prefix_at, transfer_next};
ghost use Rattle.vx_flat.specs.Step.{calculate_by, is_legal_as, meaning, upcoming};
ghost use Rattle.vx_flat.specs.Transfers.{below_done, first_failure, transfer, transferred};
ghost use Rattle.vx_flat.specs.Transfers.{Direction as FlatDirection};
ghost use Rattle.vx_flat.specs.Vectors.{reading_at, setting_at};
ghost use Rattle.vx_hart.specs.Asking.{asks, class_next, is_service, is_service_class};
ghost use Rattle.vx_hart.specs.Effects.{is_effect_class};
ghost use Rattle.vx_hart.specs.Directions.{direction_of};
ghost use Rattle.vx_hart.specs.Outcomes.{flat_of, outcome_as, outcome_next, outcome_of};
ghost use Rattle.vx_hart.specs.Transfers.{Moves, transfer_with};
ghost use Rattle.vx_hart.specs.declared.progress.Progress.TheVariants as progress;
ghost use Rattle.vx_image.specs.Pages.{Memory as FlatMemory};
ghost use Rattle.vx_rows.specs.Table.{class_of};
ghost use Rattle.vx_rows.specs.declared.row.Class.TheVariants as class;
ghost use Rattle.vx_scalar.specs.Operands.{NamesRegisters};
ghost use Rattle.vx_vaddr.specs.Views.{movement_with};
ghost use Rattle.vx_vector.specs.Accesses.{accesses_between, movement_count};
ghost use Rattle.vx_vstate.specs.State.{setting_of};
ghost use Rattle.vx_vstate.specs.Views.{view_of};

use crate::arch::Arch;
use crate::arithmetic::{calculate, calculate_legal, calculation};
use crate::controls::{configure, control};
use crate::direction::Direction;
use crate::finding::{Found, find};
use crate::kept::Kept;
use crate::memory::Memory;
use crate::movements::{load_vectors, movement, reach, store_vectors, transfer};
use crate::progress::{Advance, Progress};
use crate::scalars::{affect, fault, load, store};
use std::alloc::{AllocError, Global};
use std::marker::Model;
use vx_base::Fault;
use vx_decode::{Instr, Known, KnownWords};
use vx_exec::Calculator;
use vx_rows::{Addressing, Class, Eew, Family};
use vx_vaddr::AccessPattern;
use vx_vstate::Setting;

/// Does instructions of one hart, on registers and a memory that are handed to each call. It takes all its memory when it is
/// made.
#[derive(Debug, Drop)]
pub struct Executor {
    /// Room for the words of a vector instruction.
    calculator: Calculator,
    /// The vector registers as they were at the start of the last vector load.
    kept: Kept,
    /// The last fault.
    fault: Fault,
}

impl Model for Executor {
    ghost use Rattle.vx_base.specs.declared.machine.Fault.{Fault};

    ghost Value = { Fault };

    ghost view = { λ e. e.fault };
}

impl Executor {
    /// The executor of a hart. It takes all the memory that it ever needs.
    pub fn new(alloc: Global) -> Result<Executor, AllocError> {
        Ok(Executor {
            calculator: Calculator::new(alloc)?,
            kept: Kept::new(alloc)?,
            fault: Fault {
                cause: 0,
                tval: 0,
                vstart: 0,
            },
        })
    }

    /// The last fault: that of an instruction of which `Progress::Faulted` was just said.
    #[inline(always)]
    pub fn fault(&self) -> Fault
        ensures { result ≡ self.now }
    {
        self.fault
    }

    /// Does what stands at the pc, unless it asks for a service.
    pub fn advance<P, M: Memory<P>>(
        &mut self,
        words: &mut KnownWords,
        arch: &mut Arch,
        memory: &mut M,
        physical: &mut P,
    ) -> Advance
        requires fits { M.fits memory.old physical.old }
        ensures fits { M.fits memory.new physical.new }
        ensures rest { M.rest memory.new physical.new ≡ M.rest memory.old physical.old }
        ensures class { (output : List ℕ) → result.class ≡ class_next (upcoming (flat_of arch.old (M.state memory.old physical.old) output)) }
        ensures waits { asks result.class ≡ true → (output : List ℕ) → flat_of arch.new (M.state memory.new physical.new) output ≡ flat_of arch.old (M.state memory.old physical.old) output }
        ensures performed { (output : List ℕ) → let s = flat_of arch.old (M.state memory.old physical.old) output in
            outcome_of result.progress self.new (flat_of arch.new (M.state memory.new physical.new) output) ≡ outcome_next s (upcoming s) }
    {
        match find(words, arch, memory, physical) {
            Found::Denied => Advance {
                class: None,
                progress: fault(arch, &mut self.fault, 12, arch.pc),
            },
            Found::Unknown(word) => Advance {
                class: None,
                progress: fault(arch, &mut self.fault, 2, u64::from(word)),
            },
            Found::Known(word, known) => self.advance_by(arch, memory, physical, word, known),
        }
    }

    /// Does an instruction, whose word this is, unless it asks for a service. An illegal one faults and tells its word.
    pub fn execute<P, M: Memory<P>>(
        &mut self,
        arch: &mut Arch,
        memory: &mut M,
        physical: &mut P,
        word: u32,
        known: &Known,
    ) -> Progress
        requires valid { IsValid known.now.instr }
        requires fits { M.fits memory.old physical.old }
        ensures fits { M.fits memory.new physical.new }
        ensures rest { M.rest memory.new physical.new ≡ M.rest memory.old physical.old }
        ensures waits { (output : List ℕ) → let s = flat_of arch.old (M.state memory.old physical.old) output in
            is_service (meaning s word (Some known.now.instr)) ≡ true → flat_of arch.new (M.state memory.new physical.new) output ≡ s }
        ensures performed { (output : List ℕ) → let s = flat_of arch.old (M.state memory.old physical.old) output in
            outcome_of result self.new (flat_of arch.new (M.state memory.new physical.new) output) ≡ outcome_next s (meaning s word (Some known.now.instr)) }
    {
        self.advance_by(arch, memory, physical, word, known)
            .progress
    }

    /// Does an instruction that only has an effect on the registers and the pc.
    #[tactic(auto, using(crate::proofs::Performable::names_registers))]
    #[inline(always)]
    pub fn affect(&mut self, arch: &mut Arch, i: &Instr) -> Progress
        requires valid { IsValid i.now }
        requires class { is_effect_class (class_of i.now.op) ≡ true }
        ensures never_asks { result ≢ progress.Asks }
        ensures performed { (word : ℕ) (memory : FlatMemory) (output : List ℕ) → let s = flat_of arch.old memory output in
            outcome_of result self.new (flat_of arch.new memory output) ≡ outcome_next s (meaning s word (Some i.now)) }
    {
        affect(arch, &mut self.fault, i)
    }

    /// Does a scalar load.
    #[tactic(auto, using(crate::proofs::Performable::names_registers))]
    #[inline(always)]
    pub fn load<P, M: Memory<P>>(
        &mut self,
        arch: &mut Arch,
        memory: &mut M,
        physical: &mut P,
        i: &Instr,
    ) -> Progress
        requires valid { IsValid i.now }
        requires class { class_of i.now.op ≡ class.Load }
        requires fits { M.fits memory.old physical.old }
        ensures fits { M.fits memory.new physical.new }
        ensures rest { M.rest memory.new physical.new ≡ M.rest memory.old physical.old }
        ensures performed { (word : ℕ) (output : List ℕ) → let s = flat_of arch.old (M.state memory.old physical.old) output in
            outcome_of result self.new (flat_of arch.new (M.state memory.new physical.new) output) ≡ outcome_next s (meaning s word (Some i.now)) }
    {
        load(arch, &mut self.fault, memory, physical, i)
    }

    /// Does a scalar store.
    #[tactic(auto, using(crate::proofs::Performable::names_registers))]
    #[inline(always)]
    pub fn store<P, M: Memory<P>>(
        &mut self,
        arch: &mut Arch,
        memory: &mut M,
        physical: &mut P,
        i: &Instr,
    ) -> Progress
        requires valid { IsValid i.now }
        requires class { class_of i.now.op ≡ class.Store }
        requires fits { M.fits memory.old physical.old }
        ensures fits { M.fits memory.new physical.new }
        ensures rest { M.rest memory.new physical.new ≡ M.rest memory.old physical.old }
        ensures performed { (word : ℕ) (output : List ℕ) → let s = flat_of arch.old (M.state memory.old physical.old) output in
            outcome_of result self.new (flat_of arch.new (M.state memory.new physical.new) output) ≡ outcome_next s (meaning s word (Some i.now)) }
    {
        store(arch, &mut self.fault, memory, physical, i)
    }

    /// The setting of vector arithmetic, where it is legal.
    pub fn calculation(&self, arch: &Arch, i: &Instr) -> Option<Setting>
        requires registers { NamesRegisters i.now }
        ensures legal { (memory : FlatMemory) (output : List ℕ) → is_some result ≡ (not (is_illegal i.now (setting_at (flat_of arch.now memory output) i.now))) }
        ensures setting { IfSome result (λ at. view_of at ≡ setting_of arch.now.v (slice_index arch.now.regs.x i.now.rs1)) }
        ensures accepted { IfSome result (λ at. is_illegal i.now (view_of at) ≡ false) }
    {
        calculation(arch, i)
    }

    /// Does vector arithmetic, which is legal with this setting.
    pub fn calculate(
        &mut self,
        arch: &mut Arch,
        i: &Instr,
        family: Family,
        at: &Setting,
    ) -> Progress
        requires valid { IsValid i.now }
        requires registers { NamesRegisters i.now }
        requires class { class_of i.now.op ≡ class.VectorArithmetic family }
        requires setting { view_of at.now ≡ setting_of arch.old.v (slice_index arch.old.regs.x i.now.rs1) }
        requires accepted { is_illegal i.now (view_of at.now) ≡ false }
        ensures same { self.new ≡ self.old }
        ensures performed { (memory : FlatMemory) (output : List ℕ) → outcome_of result self.new (flat_of arch.new memory output) ≡ Some (calculate_by (reading_at (flat_of arch.old memory output) i.now) (flat_of arch.old memory output) i.now) }
    {
        calculate(&mut self.calculator, arch, i, family, at)
    }

    /// The accesses of a vector load or store and its setting, where it is legal.
    pub fn movement(
        &self,
        arch: &Arch,
        addressing: Addressing,
        encoded: Eew,
        i: &Instr,
    ) -> Option<(AccessPattern, Setting)>
        requires valid { IsValid i.now }
        requires registers { NamesRegisters i.now }
        requires row { (class_of i.now.op ≡ class.VectorLoad addressing encoded) ⊎ (class_of i.now.op ≡ class.VectorStore addressing encoded) }
        ensures legal { (memory : FlatMemory) (output : List ℕ) → is_some result ≡ (not (is_illegal i.now (setting_at (flat_of arch.now memory output) i.now))) }
        ensures moves { IfSome result (λ r. Moves arch.now.v r.0 r.1) }
        ensures addressing { IfSome result (λ r. (movement_with r.0 arch.now.v.words).addressing ≡ addressing) }
        ensures same { IfSome result (λ r. (direction : FlatDirection) (memory : FlatMemory) (output : List ℕ) → transfer_with direction r.0 arch.now.v ≡ transfer direction addressing encoded (flat_of arch.now memory output) i.now) }
    {
        movement(arch, addressing, encoded, i)
    }

    /// Does a vector load or store, which is legal.
    pub fn transfer<P, M: Memory<P>>(
        &mut self,
        arch: &mut Arch,
        memory: &mut M,
        physical: &mut P,
        direction: Direction,
        addressing: Addressing,
        pattern: &AccessPattern,
        at: &Setting,
    ) -> Progress
        requires moves { Moves arch.old.v pattern.now at.now }
        requires addressing { (movement_with pattern.now arch.old.v.words).addressing ≡ addressing }
        requires fits { M.fits memory.old physical.old }
        ensures fits { M.fits memory.new physical.new }
        ensures rest { M.rest memory.new physical.new ≡ M.rest memory.old physical.old }
        ensures done { (output : List ℕ) → outcome_of result self.new (flat_of arch.new (M.state memory.new physical.new) output) ≡ Some (transferred (transfer_with (direction_of direction) pattern.now arch.old.v) (flat_of arch.old (M.state memory.old physical.old) output)) }
    {
        transfer(
            &mut self.kept,
            arch,
            &mut self.fault,
            memory,
            physical,
            direction,
            addressing,
            pattern,
            at,
        )
    }

    /// Does the elements of a vector load or store that are below k, of which no access fails, and sets vstart to k. It is
    /// legal.
    pub fn reach<P, M: Memory<P>>(
        &mut self,
        arch: &mut Arch,
        memory: &mut M,
        physical: &mut P,
        direction: Direction,
        pattern: &AccessPattern,
        at: &Setting,
        k: u32,
    )
        requires moves { Moves arch.old.v pattern.now at.now }
        requires from { arch.old.v.vstart ≤ k }
        requires below { k < movement_count (movement_with pattern.now arch.old.v.words) }
        requires free { first_failure (direction_of direction) (M.state memory.old physical.old) (accesses_between (movement_with pattern.now arch.old.v.words) 0 k) ≡ None }
        requires fits { M.fits memory.old physical.old }
        ensures fits { M.fits memory.new physical.new }
        ensures rest { M.rest memory.new physical.new ≡ M.rest memory.old physical.old }
        ensures same { self.new ≡ self.old }
        ensures done { (output : List ℕ) → flat_of arch.new (M.state memory.new physical.new) output ≡ below_done (transfer_with (direction_of direction) pattern.now arch.old.v) k (flat_of arch.old (M.state memory.old physical.old) output) }
        ensures prefix { (output : List ℕ) → let s = flat_of arch.old (M.state memory.old physical.old) output in
            transfer_next s (upcoming s) ≡ Some (transfer_with (direction_of direction) pattern.now arch.old.v) → prefix_at k s ≡ Some (flat_of arch.new (M.state memory.new physical.new) output) }
    {
        reach(
            &mut self.kept,
            arch,
            memory,
            physical,
            direction,
            pattern,
            at,
            k,
        )
    }

    /// Does an instruction, whose word this is, unless it asks for a service, and says its class where it is executed.
    #[inline(always)]
    fn advance_by<P, M: Memory<P>>(
        &mut self,
        arch: &mut Arch,
        memory: &mut M,
        physical: &mut P,
        word: u32,
        known: &Known,
    ) -> Advance
        requires valid { IsValid known.now.instr }
        requires fits { M.fits memory.old physical.old }
        ensures fits { M.fits memory.new physical.new }
        ensures rest { M.rest memory.new physical.new ≡ M.rest memory.old physical.old }
        ensures class { (output : List ℕ) → result.class ≡ class_next (meaning (flat_of arch.old (M.state memory.old physical.old) output) word (Some known.now.instr)) }
        ensures waits { asks result.class ≡ true → (output : List ℕ) → flat_of arch.new (M.state memory.new physical.new) output ≡ flat_of arch.old (M.state memory.old physical.old) output }
        ensures performed { (output : List ℕ) → let s = flat_of arch.old (M.state memory.old physical.old) output in
            outcome_of result.progress self.new (flat_of arch.new (M.state memory.new physical.new) output) ≡ outcome_next s (meaning s word (Some known.now.instr)) }
    {
        let Some(progress) = self.perform(arch, memory, physical, known) else {
            return Advance {
                class: None,
                progress: fault(arch, &mut self.fault, 2, u64::from(word)),
            };
        };
        Advance {
            class: Some(known.class),
            progress,
        }
    }

    /// Does an instruction by its class, unless it asks for a service. `None` where it isn't executed or isn't legal; then
    /// nothing changes.
    #[tactic(auto, using(crate::proofs::Performable::names_registers))]
    #[inline(always)]
    fn perform<P, M: Memory<P>>(
        &mut self,
        arch: &mut Arch,
        memory: &mut M,
        physical: &mut P,
        known: &Known,
    ) -> Option<Progress>
        requires valid { IsValid known.now.instr }
        requires fits { M.fits memory.old physical.old }
        ensures fits { M.fits memory.new physical.new }
        ensures rest { M.rest memory.new physical.new ≡ M.rest memory.old physical.old }
        ensures legal { (output : List ℕ) → is_some result ≡ (is_legal_as known.now.class (flat_of arch.old (M.state memory.old physical.old) output) known.now.instr) }
        ensures illegal { result ≡ None → (output : List ℕ) → flat_of arch.new (M.state memory.new physical.new) output ≡ flat_of arch.old (M.state memory.old physical.old) output }
        ensures waits { is_service_class known.now.class ≡ true → (output : List ℕ) → flat_of arch.new (M.state memory.new physical.new) output ≡ flat_of arch.old (M.state memory.old physical.old) output }
        ensures performed { IfSome result (λ p. (output : List ℕ) → outcome_of p self.new (flat_of arch.new (M.state memory.new physical.new) output) ≡ outcome_as known.now.class (flat_of arch.old (M.state memory.old physical.old) output) known.now.instr) }
    {
        let i = &known.instr;
        match known.class {
            Class::Arithmetic | Class::Multiply | Class::Divide => Some(affect(
                arch,
                &mut self.fault,
                i,
            )),
            Class::Jump | Class::Branch | Class::Fence => Some(affect(arch, &mut self.fault, i)),
            Class::Load => Some(load(arch, &mut self.fault, memory, physical, i)),
            Class::Store => Some(store(arch, &mut self.fault, memory, physical, i)),
            Class::Ecall => Some(Progress::Asks),
            Class::Ebreak => Some(fault(arch, &mut self.fault, 3, 0)),
            Class::Csr => control(arch, i),
            Class::Set => configure(arch, i),
            Class::VectorArithmetic(family) => {
                calculate_legal(&mut self.calculator, arch, i, family)
            }
            Class::VectorLoad(addressing, encoded) => load_vectors(
                &mut self.kept,
                arch,
                &mut self.fault,
                memory,
                physical,
                addressing,
                encoded,
                i,
            ),
            Class::VectorStore(addressing, encoded) => store_vectors(
                &mut self.kept,
                arch,
                &mut self.fault,
                memory,
                physical,
                addressing,
                encoded,
                i,
            ),
        }
    }
}
