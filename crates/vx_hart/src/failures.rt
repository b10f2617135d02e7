//! Accesses that fail, and why.

ghost use Rattle.std.specs.List.{Contains};
ghost use Rattle.std.specs.Prelude.{◌≡◌, IsTrue, option_map};
ghost use Rattle.vx_hart.specs.Transfers.{failure_from};
ghost use Rattle.vx_flat.specs.Checks.{cause_of, misaligned, page_fault};
ghost use Rattle.vx_flat.specs.Transfers.{Direction, first_failure, want_of};
ghost use Rattle.vx_scalar.specs.Operands.{is_access_width};
ghost use Rattle.vx_vaddr.specs.Items.{accesses_of_items};
ghost use Rattle.vx_vector.specs.Accesses.{Access};

use crate::memory::Memory;
use vx_base::Want;
use vx_image::is_aligned;
use vx_vaddr::Item;

/// An access that fails, and the cause for which it does.
#[derive(Clone, Copy, Debug)]
pub struct Failed {
    pub item: Item,
    pub cause: u8,
}

/// An access that fails for a cause.
#[inline(always)]
pub fn failed_by(item: &Item, cause: u8) -> Failed
    ensures { result ≡ record { item = item.now; cause = cause } }
{
    Failed { item: *item, cause }
}

/// The cause of an access whose address is no multiple of its width.
pub fn misaligned(want: Want) -> u8
    ensures { result ≡ misaligned want }
{
    match want {
        Want::Fetch => 0,
        Want::Load => 4,
        Want::Store => 6,
    }
}

/// The cause of an access that its page doesn't let through.
pub fn page_fault(want: Want) -> u8
    ensures { result ≡ page_fault want }
{
    match want {
        Want::Fetch => 12,
        Want::Load => 13,
        Want::Store => 15,
    }
}

/// The cause for which an access of so many bytes fails, where it does.
#[inline(always)]
fn cause_of<P, M: Memory<P>>(
    memory: &mut M,
    physical: &mut P,
    want: Want,
    address: u64,
    width: u64,
) -> Option<u8>
    requires width { IsTrue (is_access_width width) }
    requires fits { M.fits memory.old physical.old }
    ensures fits { M.fits memory.new physical.new }
    ensures rest { M.rest memory.new physical.new ≡ M.rest memory.old physical.old }
    ensures memory { M.state memory.new physical.new ≡ M.state memory.old physical.old }
    ensures cause { result ≡ cause_of (M.state memory.old physical.old) want address width }
{
    if !is_aligned(address, width) {
        return Some(misaligned(want));
    }
    if !memory.permits(physical, address, want) {
        return Some(page_fault(want));
    }
    None
}

/// The first access that fails, where one does.
#[inline(always)]
pub fn first_failing<P, M: Memory<P>>(
    memory: &mut M,
    physical: &mut P,
    want: Want,
    items: &[Item],
) -> Option<Failed>
    requires widths { (a : Access) → Contains (accesses_of_items items.now) a → IsTrue (is_access_width a.width) }
    requires fits { M.fits memory.old physical.old }
    ensures fits { M.fits memory.new physical.new }
    ensures rest { M.rest memory.new physical.new ≡ M.rest memory.old physical.old }
    ensures memory { M.state memory.new physical.new ≡ M.state memory.old physical.old }
    ensures failure { (direction : Direction) → want_of direction ≡ want → option_map failure_from result ≡ first_failure direction (M.state memory.old physical.old) (accesses_of_items items.now) }
{
    let mut rest = items;
    while let Some((item, later)) = rest.split_first() {
        if let Some(cause) = cause_of(memory, physical, want, item.address, u64::from(item.width)) {
            return Some(Failed { item: *item, cause });
        }
        rest = later;
    }
    None
}
