//! Vector loads and stores, from element to element.

ghost use Rattle.std.specs.List.{Contains};
ghost use Rattle.std.specs.Prelude.{◌≡◌, ◌<◌, ◌≤◌, [], ◌∷◌, IfSome, IsTrue, None, MatchOption, option_map};
ghost use Rattle.vx_hart.specs.Transfers.{after_loading, after_stores, failure_from, stop_of};
ghost use Rattle.vx_flat.specs.Transfers.{failure_of, first_failure, is_fault_only_first};
ghost use Rattle.vx_flat.specs.Transfers.Direction.{Loading, Storing};
ghost use Rattle.vx_scalar.specs.Operands.{is_access_width};
ghost use Rattle.vx_vaddr.specs.Items.{access_of_item, accesses_of_items};
ghost use Rattle.vx_vaddr.specs.Views.{movement_with};
ghost use Rattle.vx_vector.specs.Accesses.{Access, accesses_between, accesses_of_element, fields_of, movement_count};
ghost use Rattle.vx_vector.specs.Movements.{IsPlacedAccess, IsSoundMovement};
ghost use Rattle.vx_vstate.specs.Views.{view_of};

use crate::failures::{Failed, failed_by, first_failing, misaligned, page_fault};
use crate::memory::Memory;
use vx_base::Want;
use vx_image::is_aligned;
use vx_rows::Addressing;
use vx_vaddr::{AccessList, AccessPattern, Item, put_loaded, stored_value};
use vx_vector::legal_movements_are_sound;
use vx_vstate::{Setting, VState, WordFile};

/// Whether a load that fails behind its first element is cut off there, and doesn't fault (RISC-V "V" 1.0, section 7.7).
#[inline(always)]
pub fn is_fault_only_first(addressing: Addressing) -> bool
    ensures { result ≡ is_fault_only_first addressing }
{
    match addressing {
        Addressing::Unit => false,
        Addressing::FaultOnlyFirst => true,
        Addressing::Whole => false,
        Addressing::MaskBits => false,
        Addressing::Strided => false,
        Addressing::Unordered => false,
        Addressing::Ordered => false,
    }
}

/// Does an access of a load, which doesn't fail.
#[inline(always)]
fn load_item<P, M: Memory<P>>(v: &mut VState, memory: &mut M, physical: &mut P, item: &Item)
    requires placed { IsPlacedAccess v.old.vlen (access_of_item item.now) }
    requires free { failure_of Loading (M.state memory.old physical.old) (access_of_item item.now) ≡ None }
    requires fits { M.fits memory.old physical.old }
    ensures fits { M.fits memory.new physical.new }
    ensures rest { M.rest memory.new physical.new ≡ M.rest memory.old physical.old }
    ensures memory { M.state memory.new physical.new ≡ M.state memory.old physical.old }
    ensures loaded { v.new ≡ after_loading (M.state memory.old physical.old) v.old (access_of_item item.now ∷ []) }
{
    let Some(number) = memory.load(physical, item.address, u64::from(item.width)) else {
        unreachable!()
    };
    put_loaded(v, item, number);
}

/// Does accesses of a load, which don't fail.
#[inline(always)]
fn load_items<P, M: Memory<P>>(v: &mut VState, memory: &mut M, physical: &mut P, items: &[Item])
    requires placed { (a : Access) → Contains (accesses_of_items items.now) a → IsPlacedAccess v.old.vlen a }
    requires free { first_failure Loading (M.state memory.old physical.old) (accesses_of_items items.now) ≡ None }
    requires fits { M.fits memory.old physical.old }
    ensures fits { M.fits memory.new physical.new }
    ensures rest { M.rest memory.new physical.new ≡ M.rest memory.old physical.old }
    ensures memory { M.state memory.new physical.new ≡ M.state memory.old physical.old }
    ensures loaded { v.new ≡ after_loading (M.state memory.old physical.old) v.old (accesses_of_items items.now) }
{
    let mut rest = items;
    while let Some((item, later)) = rest.split_first() {
        load_item(v, memory, physical, item);
        rest = later;
    }
}

/// Does the accesses of an element of a load, unless one fails: the first that does is told, and none is done.
#[inline(always)]
fn load_element<P, M: Memory<P>>(
    v: &mut VState,
    memory: &mut M,
    physical: &mut P,
    items: &[Item],
) -> Option<Failed>
    requires placed { (a : Access) → Contains (accesses_of_items items.now) a → IsPlacedAccess v.old.vlen a }
    requires fits { M.fits memory.old physical.old }
    ensures fits { M.fits memory.new physical.new }
    ensures rest { M.rest memory.new physical.new ≡ M.rest memory.old physical.old }
    ensures memory { M.state memory.new physical.new ≡ M.state memory.old physical.old }
    ensures failure { option_map failure_from result ≡ first_failure Loading (M.state memory.old physical.old) (accesses_of_items items.now) }
    ensures loaded { MatchOption result (v.new ≡ after_loading (M.state memory.old physical.old) v.old (accesses_of_items items.now)) (λ failed. v.new ≡ v.old) }
{
    if let Some(failed) = first_failing(memory, physical, Want::Load, items) {
        return Some(failed);
    }
    load_items(v, memory, physical, items);
    None
}

/// Does an access of a load, unless it fails: then that is told, and nothing is done. Its page is looked at once.
#[inline(always)]
fn load_at<P, M: Memory<P>>(
    v: &mut VState,
    memory: &mut M,
    physical: &mut P,
    item: &Item,
    width: u64,
) -> Option<Failed>
    requires width { width ≡ item.now.width }
    requires is_width { IsTrue (is_access_width width) }
    requires placed { IsPlacedAccess v.old.vlen (access_of_item item.now) }
    requires fits { M.fits memory.old physical.old }
    ensures fits { M.fits memory.new physical.new }
    ensures rest { M.rest memory.new physical.new ≡ M.rest memory.old physical.old }
    ensures memory { M.state memory.new physical.new ≡ M.state memory.old physical.old }
    ensures failure { option_map failure_from result ≡ first_failure Loading (M.state memory.old physical.old) (access_of_item item.now ∷ []) }
    ensures loaded { MatchOption result (v.new ≡ after_loading (M.state memory.old physical.old) v.old (access_of_item item.now ∷ [])) (λ failed. v.new ≡ v.old) }
{
    if !is_aligned(item.address, width) {
        return Some(failed_by(item, misaligned(Want::Load)));
    }
    let Some(number) = memory.load(physical, item.address, width) else {
        return Some(failed_by(item, page_fault(Want::Load)));
    };
    put_loaded(v, item, number);
    None
}

/// The same by the width of the access. Each that it may have stands as a literal.
#[inline(always)]
fn load_one<P, M: Memory<P>>(
    v: &mut VState,
    memory: &mut M,
    physical: &mut P,
    item: &Item,
) -> Option<Failed>
    requires placed { IsPlacedAccess v.old.vlen (access_of_item item.now) }
    requires fits { M.fits memory.old physical.old }
    ensures fits { M.fits memory.new physical.new }
    ensures rest { M.rest memory.new physical.new ≡ M.rest memory.old physical.old }
    ensures memory { M.state memory.new physical.new ≡ M.state memory.old physical.old }
    ensures failure { option_map failure_from result ≡ first_failure Loading (M.state memory.old physical.old) (access_of_item item.now ∷ []) }
    ensures loaded { MatchOption result (v.new ≡ after_loading (M.state memory.old physical.old) v.old (access_of_item item.now ∷ [])) (λ failed. v.new ≡ v.old) }
{
    match item.width {
        1 => load_at(v, memory, physical, item, 1),
        2 => load_at(v, memory, physical, item, 2),
        4 => load_at(v, memory, physical, item, 4),
        _ => load_at(v, memory, physical, item, u64::from(item.width)),
    }
}

/// Does the access of an element of a load that has one field, unless it fails: then that is told, and nothing is done.
#[inline(always)]
fn load_only<P, M: Memory<P>, S: WordFile>(
    pattern: &AccessPattern,
    file: &S,
    i: u32,
    v: &mut VState,
    memory: &mut M,
    physical: &mut P,
) -> Option<Failed>
    requires same { S.vlen file.now ≡ (movement_with pattern.now (S.words file.now)).at.vlen }
    requires sound { IsSoundMovement (movement_with pattern.now (S.words file.now)) }
    requires started { (movement_with pattern.now (S.words file.now)).at.vstart ≤ i }
    requires among { i < movement_count (movement_with pattern.now (S.words file.now)) }
    requires one { fields_of (movement_with pattern.now (S.words file.now)) ≡ 1 }
    requires placed { (a : Access) → Contains (accesses_of_element (movement_with pattern.now (S.words file.now)) i) a → IsPlacedAccess v.old.vlen a }
    requires fits { M.fits memory.old physical.old }
    ensures fits { M.fits memory.new physical.new }
    ensures rest { M.rest memory.new physical.new ≡ M.rest memory.old physical.old }
    ensures memory { M.state memory.new physical.new ≡ M.state memory.old physical.old }
    ensures failure { option_map failure_from result ≡ first_failure Loading (M.state memory.old physical.old) (accesses_of_element (movement_with pattern.now (S.words file.now)) i) }
    ensures loaded { MatchOption result (v.new ≡ after_loading (M.state memory.old physical.old) v.old (accesses_of_element (movement_with pattern.now (S.words file.now)) i)) (λ failed. v.new ≡ v.old) }
{
    let Some(item) = pattern.only(file, i) else {
        return None;
    };
    load_one(v, memory, physical, &item)
}

/// Does the accesses of an element of a load, unless one fails: the first that does is told, and none is done.
#[inline(always)]
fn load_next<P, M: Memory<P>, S: WordFile>(
    pattern: &AccessPattern,
    file: &S,
    i: u32,
    list: &mut AccessList,
    v: &mut VState,
    memory: &mut M,
    physical: &mut P,
) -> Option<Failed>
    requires same { S.vlen file.now ≡ (movement_with pattern.now (S.words file.now)).at.vlen }
    requires sound { IsSoundMovement (movement_with pattern.now (S.words file.now)) }
    requires started { (movement_with pattern.now (S.words file.now)).at.vstart ≤ i }
    requires among { i < movement_count (movement_with pattern.now (S.words file.now)) }
    requires placed { (a : Access) → Contains (accesses_of_element (movement_with pattern.now (S.words file.now)) i) a → IsPlacedAccess v.old.vlen a }
    requires fits { M.fits memory.old physical.old }
    ensures fits { M.fits memory.new physical.new }
    ensures rest { M.rest memory.new physical.new ≡ M.rest memory.old physical.old }
    ensures memory { M.state memory.new physical.new ≡ M.state memory.old physical.old }
    ensures failure { option_map failure_from result ≡ first_failure Loading (M.state memory.old physical.old) (accesses_of_element (movement_with pattern.now (S.words file.now)) i) }
    ensures loaded { MatchOption result (v.new ≡ after_loading (M.state memory.old physical.old) v.old (accesses_of_element (movement_with pattern.now (S.words file.now)) i)) (λ failed. v.new ≡ v.old) }
{
    if pattern.has_one_field() {
        return load_only(pattern, file, i, v, memory, physical);
    }
    pattern.fill(file, i, list);
    load_element(v, memory, physical, list.slice())
}

/// Loads the elements from vstart on that are below an end, up to one of which an access fails: that is told, and nothing of its element is done.
/// The indices and the mask are read from a file that stays as it is.
pub fn load_elements<P, M: Memory<P>, S: WordFile>(
    pattern: &AccessPattern,
    at: &Setting,
    end: u32,
    file: &S,
    v: &mut VState,
    memory: &mut M,
    physical: &mut P,
) -> Option<Failed>
    requires same { S.vlen file.now ≡ at.now.vlen }
    requires length { v.old.vlen ≡ at.now.vlen }
    requires setting { (movement_with pattern.now (S.words file.now)).at ≡ view_of at.now }
    requires sound { IsSoundMovement (movement_with pattern.now (S.words file.now)) }
    requires end { end ≤ movement_count (movement_with pattern.now (S.words file.now)) }
    requires fits { M.fits memory.old physical.old }
    ensures fits { M.fits memory.new physical.new }
    ensures rest { M.rest memory.new physical.new ≡ M.rest memory.old physical.old }
    ensures memory { M.state memory.new physical.new ≡ M.state memory.old physical.old }
    ensures failure { option_map failure_from result ≡ first_failure Loading (M.state memory.old physical.old) (accesses_between (movement_with pattern.now (S.words file.now)) 0 end) }
    ensures among { IfSome result (λ failed. failed.item.element < end) }
    ensures loaded { v.new ≡ after_loading (M.state memory.old physical.old) v.old (accesses_between (movement_with pattern.now (S.words file.now)) 0 (stop_of end result)) }
{
    legal_movements_are_sound();
    let mut list = AccessList::new();
    let mut i = at.vstart.min(end);
    while i < end {
        if let Some(failed) = load_next(pattern, file, i, &mut list, v, memory, physical) {
            return Some(failed);
        }
        i += 1;
    }
    None
}

/// Does an access of a store, which doesn't fail.
#[inline(always)]
fn store_item<P, M: Memory<P>>(
    v: &VState,
    at: &Setting,
    memory: &mut M,
    physical: &mut P,
    item: &Item,
)
    requires same { v.now.vlen ≡ at.now.vlen }
    requires placed { IsPlacedAccess v.now.vlen (access_of_item item.now) }
    requires free { failure_of Storing (M.state memory.old physical.old) (access_of_item item.now) ≡ None }
    requires fits { M.fits memory.old physical.old }
    ensures fits { M.fits memory.new physical.new }
    ensures rest { M.rest memory.new physical.new ≡ M.rest memory.old physical.old }
    ensures done { M.state memory.new physical.new ≡ after_stores v.now.vlen v.now.words (M.state memory.old physical.old) (access_of_item item.now ∷ []) }
{
    let value = stored_value(v, at, item);
    let _ = memory.store(physical, item.address, u64::from(item.width), value);
}

/// Does accesses of a store, which don't fail.
#[inline(always)]
fn store_items<P, M: Memory<P>>(
    v: &VState,
    at: &Setting,
    memory: &mut M,
    physical: &mut P,
    items: &[Item],
)
    requires same { v.now.vlen ≡ at.now.vlen }
    requires placed { (a : Access) → Contains (accesses_of_items items.now) a → IsPlacedAccess v.now.vlen a }
    requires free { first_failure Storing (M.state memory.old physical.old) (accesses_of_items items.now) ≡ None }
    requires fits { M.fits memory.old physical.old }
    ensures fits { M.fits memory.new physical.new }
    ensures rest { M.rest memory.new physical.new ≡ M.rest memory.old physical.old }
    ensures done { M.state memory.new physical.new ≡ after_stores v.now.vlen v.now.words (M.state memory.old physical.old) (accesses_of_items items.now) }
{
    let mut rest = items;
    while let Some((item, later)) = rest.split_first() {
        store_item(v, at, memory, physical, item);
        rest = later;
    }
}

/// Does the accesses of an element of a store, unless one fails: the first that does is told, and none is done.
#[inline(always)]
fn store_element<P, M: Memory<P>>(
    v: &VState,
    at: &Setting,
    memory: &mut M,
    physical: &mut P,
    items: &[Item],
) -> Option<Failed>
    requires same { v.now.vlen ≡ at.now.vlen }
    requires placed { (a : Access) → Contains (accesses_of_items items.now) a → IsPlacedAccess v.now.vlen a }
    requires fits { M.fits memory.old physical.old }
    ensures fits { M.fits memory.new physical.new }
    ensures rest { M.rest memory.new physical.new ≡ M.rest memory.old physical.old }
    ensures failure { option_map failure_from result ≡ first_failure Storing (M.state memory.old physical.old) (accesses_of_items items.now) }
    ensures stored { MatchOption result (M.state memory.new physical.new ≡ after_stores v.now.vlen v.now.words (M.state memory.old physical.old) (accesses_of_items items.now)) (λ failed. M.state memory.new physical.new ≡ M.state memory.old physical.old) }
{
    if let Some(failed) = first_failing(memory, physical, Want::Store, items) {
        return Some(failed);
    }
    store_items(v, at, memory, physical, items);
    None
}

/// Does an access of a store, unless it fails: then that is told, and nothing is done. Its page is looked at once.
#[inline(always)]
fn store_at<P, M: Memory<P>>(
    v: &VState,
    at: &Setting,
    memory: &mut M,
    physical: &mut P,
    item: &Item,
    width: u64,
) -> Option<Failed>
    requires same { v.now.vlen ≡ at.now.vlen }
    requires width { width ≡ item.now.width }
    requires is_width { IsTrue (is_access_width width) }
    requires placed { IsPlacedAccess v.now.vlen (access_of_item item.now) }
    requires fits { M.fits memory.old physical.old }
    ensures fits { M.fits memory.new physical.new }
    ensures rest { M.rest memory.new physical.new ≡ M.rest memory.old physical.old }
    ensures failure { option_map failure_from result ≡ first_failure Storing (M.state memory.old physical.old) (access_of_item item.now ∷ []) }
    ensures stored { MatchOption result (M.state memory.new physical.new ≡ after_stores v.now.vlen v.now.words (M.state memory.old physical.old) (access_of_item item.now ∷ [])) (λ failed. M.state memory.new physical.new ≡ M.state memory.old physical.old) }
{
    if !is_aligned(item.address, width) {
        return Some(failed_by(item, misaligned(Want::Store)));
    }
    let value = stored_value(v, at, item);
    if memory.store(physical, item.address, width, value) {
        None
    } else {
        Some(failed_by(item, page_fault(Want::Store)))
    }
}

/// The same by the width of the access. Each that it may have stands as a literal.
#[inline(always)]
fn store_one<P, M: Memory<P>>(
    v: &VState,
    at: &Setting,
    memory: &mut M,
    physical: &mut P,
    item: &Item,
) -> Option<Failed>
    requires same { v.now.vlen ≡ at.now.vlen }
    requires placed { IsPlacedAccess v.now.vlen (access_of_item item.now) }
    requires fits { M.fits memory.old physical.old }
    ensures fits { M.fits memory.new physical.new }
    ensures rest { M.rest memory.new physical.new ≡ M.rest memory.old physical.old }
    ensures failure { option_map failure_from result ≡ first_failure Storing (M.state memory.old physical.old) (access_of_item item.now ∷ []) }
    ensures stored { MatchOption result (M.state memory.new physical.new ≡ after_stores v.now.vlen v.now.words (M.state memory.old physical.old) (access_of_item item.now ∷ [])) (λ failed. M.state memory.new physical.new ≡ M.state memory.old physical.old) }
{
    match item.width {
        1 => store_at(v, at, memory, physical, item, 1),
        2 => store_at(v, at, memory, physical, item, 2),
        4 => store_at(v, at, memory, physical, item, 4),
        _ => store_at(v, at, memory, physical, item, u64::from(item.width)),
    }
}

/// Does the access of an element of a store that has one field, unless it fails: then that is told, and nothing is done.
#[inline(always)]
fn store_only<P, M: Memory<P>>(
    pattern: &AccessPattern,
    i: u32,
    v: &VState,
    at: &Setting,
    memory: &mut M,
    physical: &mut P,
) -> Option<Failed>
    requires same { v.now.vlen ≡ at.now.vlen }
    requires setting { (movement_with pattern.now v.now.words).at ≡ view_of at.now }
    requires sound { IsSoundMovement (movement_with pattern.now v.now.words) }
    requires started { (movement_with pattern.now v.now.words).at.vstart ≤ i }
    requires among { i < movement_count (movement_with pattern.now v.now.words) }
    requires one { fields_of (movement_with pattern.now v.now.words) ≡ 1 }
    requires placed { (a : Access) → Contains (accesses_of_element (movement_with pattern.now v.now.words) i) a → IsPlacedAccess v.now.vlen a }
    requires fits { M.fits memory.old physical.old }
    ensures fits { M.fits memory.new physical.new }
    ensures rest { M.rest memory.new physical.new ≡ M.rest memory.old physical.old }
    ensures failure { option_map failure_from result ≡ first_failure Storing (M.state memory.old physical.old) (accesses_of_element (movement_with pattern.now v.now.words) i) }
    ensures stored { MatchOption result (M.state memory.new physical.new ≡ after_stores v.now.vlen v.now.words (M.state memory.old physical.old) (accesses_of_element (movement_with pattern.now v.now.words) i)) (λ failed. M.state memory.new physical.new ≡ M.state memory.old physical.old) }
{
    let Some(item) = pattern.only(v, i) else {
        return None;
    };
    store_one(v, at, memory, physical, &item)
}

/// Does the accesses of an element of a store, unless one fails: the first that does is told, and none is done.
#[inline(always)]
fn store_next<P, M: Memory<P>>(
    pattern: &AccessPattern,
    i: u32,
    list: &mut AccessList,
    v: &VState,
    at: &Setting,
    memory: &mut M,
    physical: &mut P,
) -> Option<Failed>
    requires same { v.now.vlen ≡ at.now.vlen }
    requires setting { (movement_with pattern.now v.now.words).at ≡ view_of at.now }
    requires sound { IsSoundMovement (movement_with pattern.now v.now.words) }
    requires started { (movement_with pattern.now v.now.words).at.vstart ≤ i }
    requires among { i < movement_count (movement_with pattern.now v.now.words) }
    requires placed { (a : Access) → Contains (accesses_of_element (movement_with pattern.now v.now.words) i) a → IsPlacedAccess v.now.vlen a }
    requires fits { M.fits memory.old physical.old }
    ensures fits { M.fits memory.new physical.new }
    ensures rest { M.rest memory.new physical.new ≡ M.rest memory.old physical.old }
    ensures failure { option_map failure_from result ≡ first_failure Storing (M.state memory.old physical.old) (accesses_of_element (movement_with pattern.now v.now.words) i) }
    ensures stored { MatchOption result (M.state memory.new physical.new ≡ after_stores v.now.vlen v.now.words (M.state memory.old physical.old) (accesses_of_element (movement_with pattern.now v.now.words) i)) (λ failed. M.state memory.new physical.new ≡ M.state memory.old physical.old) }
{
    if pattern.has_one_field() {
        return store_only(pattern, i, v, at, memory, physical);
    }
    pattern.fill(v, i, list);
    store_element(v, at, memory, physical, list.slice())
}

/// Stores the elements from vstart on that are below an end, up to one of which an access fails: that is told, and nothing of its element is done.
pub fn store_elements<P, M: Memory<P>>(
    pattern: &AccessPattern,
    at: &Setting,
    end: u32,
    v: &VState,
    memory: &mut M,
    physical: &mut P,
) -> Option<Failed>
    requires same { v.now.vlen ≡ at.now.vlen }
    requires setting { (movement_with pattern.now v.now.words).at ≡ view_of at.now }
    requires sound { IsSoundMovement (movement_with pattern.now v.now.words) }
    requires end { end ≤ movement_count (movement_with pattern.now v.now.words) }
    requires fits { M.fits memory.old physical.old }
    ensures fits { M.fits memory.new physical.new }
    ensures rest { M.rest memory.new physical.new ≡ M.rest memory.old physical.old }
    ensures failure { option_map failure_from result ≡ first_failure Storing (M.state memory.old physical.old) (accesses_between (movement_with pattern.now v.now.words) 0 end) }
    ensures among { IfSome result (λ failed. failed.item.element < end) }
    ensures stored { M.state memory.new physical.new ≡ after_stores v.now.vlen v.now.words (M.state memory.old physical.old) (accesses_between (movement_with pattern.now v.now.words) 0 (stop_of end result)) }
{
    legal_movements_are_sound();
    let mut list = AccessList::new();
    let mut i = at.vstart.min(end);
    while i < end {
        if let Some(failed) = store_next(pattern, i, &mut list, v, at, memory, physical) {
            return Some(failed);
        }
        i += 1;
    }
    None
}
