//! The services that an ecall asks for, over any memory.

ghost use Rattle.std.specs.Prelude.{◌≡◌, ℕ, Bool, List, ◌≤◌, ◌^◌, ◌++◌, vec_len, vec_capacity, IfSome};
ghost use Rattle.vx_base.specs.Numbers.{signed};
ghost use Rattle.vx_flat.specs.Outcome.Outcome.{Next};
ghost use Rattle.vx_flat.specs.Service.{answered, service, write};
ghost use Rattle.vx_flat.specs.State.{register};
ghost use Rattle.vx_flat.specs.Step.{ecall};
ghost use Rattle.vx_hart.specs.Outcomes.{flat_of, outcome_of};
ghost use Rattle.vx_hart.specs.Writing.{served, state_with};

use crate::arch::Arch;
use crate::memory::Memory;
use crate::progress::Progress;
use crate::scalars::complete;

/// How many bytes a process may write.
pub const OUTPUT_LIMIT: u64 = 1 << 20;

/// Writes so many bytes from an address on to a descriptor: appends them to the output and answers their number, or
/// answers why not: -9 where the descriptor isn't 1 or 2, -14 where a byte can't be read or the range passes the last
/// address, -28 where the output would pass its limit. It takes no memory.
fn write<P, M: Memory<P>>(
    memory: &mut M,
    physical: &mut P,
    output: &mut Vec<u8>,
    descriptor: u64,
    address: u64,
    count: u64,
) -> i64
    requires reserved { 2 ^ 20 ≤ vec_capacity output.old }
    requires within { vec_len output.old ≤ 2 ^ 20 }
    requires fits { M.fits memory.old physical.old }
    ensures fits { M.fits memory.new physical.new }
    ensures rest { M.rest memory.new physical.new ≡ M.rest memory.old physical.old }
    ensures memory { M.state memory.new physical.new ≡ M.state memory.old physical.old }
    ensures value { result ≡ (write (state_with (M.state memory.old physical.old) output.old.items) descriptor address count).value }
    ensures written { output.new.items ≡ output.old.items ++ (write (state_with (M.state memory.old physical.old) output.old.items) descriptor address count).written }
    ensures still_reserved { 2 ^ 20 ≤ vec_capacity output.new }
    ensures still_within { vec_len output.new ≤ 2 ^ 20 }
{
    if descriptor != 1 && descriptor != 2 {
        return -9;
    }
    if count == 0 {
        return 0;
    }
    if !memory.is_readable(physical, address, count) {
        return -14;
    }
    if count > OUTPUT_LIMIT - output.len() as u64 {
        return -28;
    }
    memory.append_to(physical, address, count, output);
    count as i64
}

/// What the service of a number answers; what it writes is written.
fn answer<P, M: Memory<P>>(
    arch: &Arch,
    memory: &mut M,
    physical: &mut P,
    output: &mut Vec<u8>,
    number: u64,
) -> i64
    requires reserved { 2 ^ 20 ≤ vec_capacity output.old }
    requires within { vec_len output.old ≤ 2 ^ 20 }
    requires fits { M.fits memory.old physical.old }
    ensures fits { M.fits memory.new physical.new }
    ensures rest { M.rest memory.new physical.new ≡ M.rest memory.old physical.old }
    ensures memory { M.state memory.new physical.new ≡ M.state memory.old physical.old }
    ensures value { result ≡ (service (flat_of arch.now (M.state memory.old physical.old) output.old.items) number).value }
    ensures written { output.new.items ≡ output.old.items ++ (service (flat_of arch.now (M.state memory.old physical.old) output.old.items) number).written }
    ensures still_reserved { 2 ^ 20 ≤ vec_capacity output.new }
    ensures still_within { vec_len output.new ≤ 2 ^ 20 }
{
    if number == 64 {
        let descriptor = arch.regs.read(10);
        let address = arch.regs.read(11);
        let count = arch.regs.read(12);
        write(memory, physical, output, descriptor, address, count)
    } else {
        -38
    }
}

/// Does a service other than exit.
fn serve_other<P, M: Memory<P>>(
    arch: &mut Arch,
    memory: &mut M,
    physical: &mut P,
    output: &mut Vec<u8>,
    number: u64,
)
    requires reserved { 2 ^ 20 ≤ vec_capacity output.old }
    requires within { vec_len output.old ≤ 2 ^ 20 }
    requires fits { M.fits memory.old physical.old }
    ensures fits { M.fits memory.new physical.new }
    ensures rest { M.rest memory.new physical.new ≡ M.rest memory.old physical.old }
    ensures answered { let s = flat_of arch.old (M.state memory.old physical.old) output.old.items in
        flat_of arch.new (M.state memory.new physical.new) output.new.items ≡ answered s (service s number) }
    ensures still_reserved { 2 ^ 20 ≤ vec_capacity output.new }
    ensures still_within { vec_len output.new ≤ 2 ^ 20 }
{
    let value = answer(arch, memory, physical, output, number);
    arch.regs.write(10, value.cast_unsigned());
    arch.pc = arch.pc.wrapping_add(4);
}

/// Does the service that a7 names, for an ecall at the pc. Gives the code where it exits, and then nothing changes; or else
/// the process goes on.
pub fn serve<P, M: Memory<P>>(
    arch: &mut Arch,
    memory: &mut M,
    physical: &mut P,
    output: &mut Vec<u8>,
) -> Option<i64>
    requires reserved { 2 ^ 20 ≤ vec_capacity output.old }
    requires within { vec_len output.old ≤ 2 ^ 20 }
    requires fits { M.fits memory.old physical.old }
    ensures fits { M.fits memory.new physical.new }
    ensures rest { M.rest memory.new physical.new ≡ M.rest memory.old physical.old }
    ensures served { served result (flat_of arch.new (M.state memory.new physical.new) output.new.items) ≡ ecall (flat_of arch.old (M.state memory.old physical.old) output.old.items) }
    ensures exits { IfSome result (λ code. flat_of arch.new (M.state memory.new physical.new) output.new.items ≡ flat_of arch.old (M.state memory.old physical.old) output.old.items) }
    ensures still_reserved { 2 ^ 20 ≤ vec_capacity output.new }
    ensures still_within { vec_len output.new ≤ 2 ^ 20 }
{
    let number = arch.regs.read(17);
    if number == 93 {
        return Some(arch.regs.read(10).cast_signed());
    }
    serve_other(arch, memory, physical, output, number);
    None
}
