//! Instructions that touch no vector: each goes by its definition over any memory.

ghost use Rattle.std.specs.Prelude.{◌≡◌, ℕ, List, ◌<◌, ◌%◌, Some, IsTrue};
ghost use Rattle.vx_base.specs.declared.machine.Fault.{Fault};
ghost use Rattle.vx_flat.specs.Access.{access_width};
ghost use Rattle.vx_flat.specs.Outcome.{faulted};
ghost use Rattle.vx_flat.specs.Outcome.Outcome.{Next};
ghost use Rattle.vx_flat.specs.State.{following};
ghost use Rattle.vx_flat.specs.Step.{affect, affected, load, load_from, store, store_at};
ghost use Rattle.vx_hart.specs.Operands.{IsAligned};
ghost use Rattle.vx_hart.specs.Outcomes.{flat_of, outcome_of};
ghost use Rattle.vx_image.specs.Pages.{Memory as FlatMemory};
ghost use Rattle.vx_scalar.specs.Operands.{NamesRegisters, is_access_width};

use crate::arch::Arch;
use crate::memory::Memory;
use crate::progress::Progress;
use vx_base::Fault;
use vx_decode::Instr;
use vx_flat::Effect;
use vx_image::is_aligned;
use vx_rows::{Op, ScalarOp};
use vx_scalar::{access_width, loaded, scalar, scalar_address};

/// An instruction faults, and that is the last fault from now on.
pub fn fault(arch: &Arch, last: &mut Fault, cause: u8, tval: u64) -> Progress
    ensures { (memory : FlatMemory) (output : List ℕ) → outcome_of result last.new (flat_of arch.now memory output) ≡ Some (faulted (flat_of arch.now memory output) cause tval) }
{
    *last = Fault {
        cause,
        tval,
        vstart: arch.v.vstart(),
    };
    Progress::Faulted
}

/// An instruction has completed, and the pc moves on.
pub fn complete(arch: &mut Arch) -> Progress
    ensures { (fault : Fault) (memory : FlatMemory) (output : List ℕ) → outcome_of result fault (flat_of arch.new memory output) ≡ Some (Next (record (flat_of arch.old memory output) { pc = following (flat_of arch.old memory output) })) }
{
    let pc = arch.pc.wrapping_add(4);
    go_on(arch, pc)
}

/// An instruction has completed, and the process goes on at a pc.
fn go_on(arch: &mut Arch, pc: u64) -> Progress
    requires aligned { pc % 4 ≡ 0 }
    ensures { (fault : Fault) (memory : FlatMemory) (output : List ℕ) → outcome_of result fault (flat_of arch.new memory output) ≡ Some (Next (record (flat_of arch.old memory output) { pc = pc })) }
{
    arch.pc = pc;
    Progress::Completed
}

/// Does an instruction that touches no memory.
pub fn affect(arch: &mut Arch, last: &mut Fault, i: &Instr) -> Progress
    requires registers { NamesRegisters i.now }
    ensures { (memory : FlatMemory) (output : List ℕ) → outcome_of result last.new (flat_of arch.new memory output) ≡ Some (affect (flat_of arch.old memory output) i.now) }
{
    let effect = scalar(i, &arch.regs, arch.pc);
    take(arch, last, i.rd, effect)
}

/// Takes the effect of an instruction with this destination.
fn take(arch: &mut Arch, last: &mut Fault, rd: u8, effect: Effect) -> Progress
    requires register { rd < 32 }
    requires aligned { IsAligned effect }
    ensures { (memory : FlatMemory) (output : List ℕ) → outcome_of result last.new (flat_of arch.new memory output) ≡ Some (affected (flat_of arch.old memory output) rd effect) }
{
    match effect {
        Effect::Value(value, pc) => {
            arch.regs.write(rd, value);
            go_on(arch, pc)
        }
        Effect::Next(pc) => go_on(arch, pc),
        Effect::Misaligned(target) => fault(arch, last, 0, target),
    }
}

/// Does a load. Each operation stands as a literal, so that its width and its value are known where it is done.
#[inline(always)]
pub fn load<P, M: Memory<P>>(
    arch: &mut Arch,
    last: &mut Fault,
    memory: &mut M,
    physical: &mut P,
    i: &Instr,
) -> Progress
    requires registers { NamesRegisters i.now }
    requires fits { M.fits memory.old physical.old }
    ensures fits { M.fits memory.new physical.new }
    ensures rest { M.rest memory.new physical.new ≡ M.rest memory.old physical.old }
    ensures loaded { (output : List ℕ) → outcome_of result last.new (flat_of arch.new (M.state memory.new physical.new) output) ≡ Some (load (flat_of arch.old (M.state memory.old physical.old) output) i.now) }
{
    let address = scalar_address(i, &arch.regs);
    match i.op {
        Op::Scalar(ScalarOp::Lb) => {
            load_by_op(
                arch,
                last,
                memory,
                physical,
                i,
                Op::Scalar(ScalarOp::Lb),
                address,
            )
        }
        Op::Scalar(ScalarOp::Lh) => {
            load_by_op(
                arch,
                last,
                memory,
                physical,
                i,
                Op::Scalar(ScalarOp::Lh),
                address,
            )
        }
        Op::Scalar(ScalarOp::Lw) => {
            load_by_op(
                arch,
                last,
                memory,
                physical,
                i,
                Op::Scalar(ScalarOp::Lw),
                address,
            )
        }
        Op::Scalar(ScalarOp::Ld) => {
            load_by_op(
                arch,
                last,
                memory,
                physical,
                i,
                Op::Scalar(ScalarOp::Ld),
                address,
            )
        }
        Op::Scalar(ScalarOp::Lbu) => {
            load_by_op(
                arch,
                last,
                memory,
                physical,
                i,
                Op::Scalar(ScalarOp::Lbu),
                address,
            )
        }
        Op::Scalar(ScalarOp::Lhu) => {
            load_by_op(
                arch,
                last,
                memory,
                physical,
                i,
                Op::Scalar(ScalarOp::Lhu),
                address,
            )
        }
        Op::Scalar(ScalarOp::Lwu) => {
            load_by_op(
                arch,
                last,
                memory,
                physical,
                i,
                Op::Scalar(ScalarOp::Lwu),
                address,
            )
        }
        _ => load_by_op(arch, last, memory, physical, i, i.op, address),
    }
}

/// Does a load of an operation, which is the instruction's, from an address.
#[inline(always)]
fn load_by_op<P, M: Memory<P>>(
    arch: &mut Arch,
    last: &mut Fault,
    memory: &mut M,
    physical: &mut P,
    i: &Instr,
    op: Op,
    address: u64,
) -> Progress
    requires register { i.now.rd < 32 }
    requires operation { op ≡ i.now.op }
    requires fits { M.fits memory.old physical.old }
    ensures fits { M.fits memory.new physical.new }
    ensures rest { M.rest memory.new physical.new ≡ M.rest memory.old physical.old }
    ensures loaded { (output : List ℕ) → outcome_of result last.new (flat_of arch.new (M.state memory.new physical.new) output) ≡ Some (load_from (flat_of arch.old (M.state memory.old physical.old) output) i.now address (access_width i.now.op)) }
{
    let width = access_width(op);
    if is_aligned(address, width) {
        load_aligned(arch, last, memory, physical, i, op, address, width)
    } else {
        fault(arch, last, 4, address)
    }
}

/// Does a load from an address that is a multiple of its width.
#[inline(always)]
fn load_aligned<P, M: Memory<P>>(
    arch: &mut Arch,
    last: &mut Fault,
    memory: &mut M,
    physical: &mut P,
    i: &Instr,
    op: Op,
    address: u64,
    width: u64,
) -> Progress
    requires register { i.now.rd < 32 }
    requires operation { op ≡ i.now.op }
    requires width { IsTrue (is_access_width width) }
    requires aligned { address % width ≡ 0 }
    requires fits { M.fits memory.old physical.old }
    ensures fits { M.fits memory.new physical.new }
    ensures rest { M.rest memory.new physical.new ≡ M.rest memory.old physical.old }
    ensures loaded { (output : List ℕ) → outcome_of result last.new (flat_of arch.new (M.state memory.new physical.new) output) ≡ Some (load_from (flat_of arch.old (M.state memory.old physical.old) output) i.now address width) }
{
    match memory.load(physical, address, width) {
        Some(n) => {
            arch.regs.write(i.rd, loaded(op, n));
            complete(arch)
        }
        None => fault(arch, last, 13, address),
    }
}

/// Does a store. Each operation stands as a literal, likewise.
#[inline(always)]
pub fn store<P, M: Memory<P>>(
    arch: &mut Arch,
    last: &mut Fault,
    memory: &mut M,
    physical: &mut P,
    i: &Instr,
) -> Progress
    requires registers { NamesRegisters i.now }
    requires fits { M.fits memory.old physical.old }
    ensures fits { M.fits memory.new physical.new }
    ensures rest { M.rest memory.new physical.new ≡ M.rest memory.old physical.old }
    ensures stored { (output : List ℕ) → outcome_of result last.new (flat_of arch.new (M.state memory.new physical.new) output) ≡ Some (store (flat_of arch.old (M.state memory.old physical.old) output) i.now) }
{
    let address = scalar_address(i, &arch.regs);
    let value = arch.regs.read(i.rs2);
    match i.op {
        Op::Scalar(ScalarOp::Sb) => {
            store_by_op(
                arch,
                last,
                memory,
                physical,
                Op::Scalar(ScalarOp::Sb),
                address,
                value,
            )
        }
        Op::Scalar(ScalarOp::Sh) => {
            store_by_op(
                arch,
                last,
                memory,
                physical,
                Op::Scalar(ScalarOp::Sh),
                address,
                value,
            )
        }
        Op::Scalar(ScalarOp::Sw) => {
            store_by_op(
                arch,
                last,
                memory,
                physical,
                Op::Scalar(ScalarOp::Sw),
                address,
                value,
            )
        }
        Op::Scalar(ScalarOp::Sd) => {
            store_by_op(
                arch,
                last,
                memory,
                physical,
                Op::Scalar(ScalarOp::Sd),
                address,
                value,
            )
        }
        _ => store_by_op(arch, last, memory, physical, i.op, address, value),
    }
}

/// Does a store of an operation at an address.
#[inline(always)]
fn store_by_op<P, M: Memory<P>>(
    arch: &mut Arch,
    last: &mut Fault,
    memory: &mut M,
    physical: &mut P,
    op: Op,
    address: u64,
    value: u64,
) -> Progress
    requires fits { M.fits memory.old physical.old }
    ensures fits { M.fits memory.new physical.new }
    ensures rest { M.rest memory.new physical.new ≡ M.rest memory.old physical.old }
    ensures stored { (output : List ℕ) → outcome_of result last.new (flat_of arch.new (M.state memory.new physical.new) output) ≡ Some (store_at (flat_of arch.old (M.state memory.old physical.old) output) address (access_width op) value) }
{
    let width = access_width(op);
    if is_aligned(address, width) {
        store_aligned(arch, last, memory, physical, address, width, value)
    } else {
        fault(arch, last, 6, address)
    }
}

/// Does a store at an address that is a multiple of its width.
#[inline(always)]
fn store_aligned<P, M: Memory<P>>(
    arch: &mut Arch,
    last: &mut Fault,
    memory: &mut M,
    physical: &mut P,
    address: u64,
    width: u64,
    value: u64,
) -> Progress
    requires width { IsTrue (is_access_width width) }
    requires aligned { address % width ≡ 0 }
    requires fits { M.fits memory.old physical.old }
    ensures fits { M.fits memory.new physical.new }
    ensures rest { M.rest memory.new physical.new ≡ M.rest memory.old physical.old }
    ensures stored { (output : List ℕ) → outcome_of result last.new (flat_of arch.new (M.state memory.new physical.new) output) ≡ Some (store_at (flat_of arch.old (M.state memory.old physical.old) output) address width value) }
{
    if memory.store(physical, address, width, value) {
        complete(arch)
    } else {
        fault(arch, last, 15, address)
    }
}
