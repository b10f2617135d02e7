ghost use Rattle.std.specs.Prelude.{◌≡◌, ℕ, ◌+◌, ◌-◌, ◌*◌, ◌<◌, ◌≤◌, ◌%◌, ◌^◌, ◌++◌, List, take, drop, length, true, false, None, IfOk, IsTrue, MatchOption, vec_len, vec_capacity, if◌then◌else◌};
ghost use Rattle.vx_base.specs.Numbers.{from_little_endian, little_endian};
ghost use Rattle.vx_base.specs.declared.machine.Want.TheVariants as want;
ghost use Rattle.vx_flat.specs.Memory.{bytes_at, all_permit, put_bytes};
ghost use Rattle.vx_flat.specs.Service.{is_readable};
ghost use Rattle.vx_image.specs.Pages.{permits, page_of};
ghost use Rattle.vx_image.specs.Kept.{pages_of, IsRising, IsKept};
ghost use Rattle.vx_alone.specs.Granted.{IsGrantedAt, IsGrantedTo, Serves};
ghost use Rattle.vx_scalar.specs.Operands.{is_access_width};

use std::alloc::{AllocError, Global};
use std::marker::Model;
use vx_base::{PageEntry, Want};
use vx_image::{Image, count_on_page, is_canonical, place_of};

/// How many bytes a page has.
const PAGE_LEN: usize = 4096;

/// The same, as a step of addresses.
const PAGE_BYTES: u64 = PAGE_LEN as u64;

/// A page that the last access of a kind was let through to: its number, and how far its addresses lie above the indices of
/// their bytes.
#[derive(Clone, Copy, Debug)]
struct LastPage {
    number: u64,
    above: u64,
}

impl LastPage {
    /// That of no address.
    fn none() -> LastPage
        ensures { result.number ≡ 2 ^ 64 - 1 }
    {
        LastPage {
            number: u64::MAX,
            above: 0,
        }
    }

    /// Turns to the page of an address, where an access of this kind is let through, and says whether it is. It takes the entries as they are
    /// kept, so that a caller that needs no look-up doesn't read where they stand.
    #[inline(never)]
    fn look_up(&mut self, entries: &Vec<PageEntry>, address: u64, want: Want) -> bool
        requires rising { IsRising entries.now.items }
        requires serves { Serves entries.now.items want self.old.number self.old.above }
        ensures serves { Serves entries.now.items want self.new.number self.new.above }
        ensures turned { result ≡ true → self.new.number ≡ page_of address }
        ensures denied { result ≡ false → (bytes : List ℕ) → permits (pages_of entries.now.items bytes) address want ≡ false }
    {
        let Some(place) = granting(entries, address, want) else {
            return false;
        };
        let number = address / PAGE_BYTES;
        *self = LastPage {
            number,
            above: PAGE_BYTES * (number - place as u64),
        };
        true
    }

    /// The same, without a look-up where it is that page already.
    #[inline(always)]
    fn turn_to(&mut self, entries: &Vec<PageEntry>, address: u64, want: Want) -> bool
        requires rising { IsRising entries.now.items }
        requires serves { Serves entries.now.items want self.old.number self.old.above }
        ensures serves { Serves entries.now.items want self.new.number self.new.above }
        ensures turned { result ≡ true → self.new.number ≡ page_of address }
        ensures denied { result ≡ false → (bytes : List ℕ) → permits (pages_of entries.now.items bytes) address want ≡ false }
    {
        if address / PAGE_BYTES == self.number {
            return true;
        }
        self.look_up(entries, address, want)
    }

    /// The index of the byte at an address, where an access of this kind is let through. Its page then is the last of its kind.
    #[inline(always)]
    fn granted_index(&mut self, entries: &Vec<PageEntry>, address: u64, want: Want) -> Option<usize>
        requires rising { IsRising entries.now.items }
        requires serves { Serves entries.now.items want self.old.number self.old.above }
        ensures serves { Serves entries.now.items want self.new.number self.new.above }
        ensures index { MatchOption result ((bytes : List ℕ) → permits (pages_of entries.now.items bytes) address want ≡ false) (IsGrantedTo entries.now.items address want) }
    {
        if self.turn_to(entries, address, want) {
            Some((address - self.above) as usize)
        } else {
            None
        }
    }
}

/// The memory of a process, by page: the entries of the mapped pages in rising order, and the bytes of all of them. It
/// keeps for each kind of access the last page that let it through, at which nothing is looked up again.
#[derive(Debug, Drop)]
pub struct Memory {
    entries: Vec<PageEntry>,
    bytes: Vec<u8>,
    fetched: LastPage,
    loaded: LastPage,
    stored: LastPage,
}

impl Model for Memory {
    ghost use Rattle.vx_image.specs.Pages.{Memory as FlatMemory};
    ghost use Rattle.vx_base.specs.declared.machine.Want.TheVariants as want;
    ghost use Rattle.vx_image.specs.Kept.{pages_of, IsKept};
    ghost use Rattle.vx_alone.specs.Granted.{Serves};

    ghost Value = { FlatMemory };

    ghost view = { λ m. pages_of m.entries.items m.bytes.items };

    ghost invariant = { λ m. record {
      kept : IsKept m.entries.items m.bytes.items;
      fetched : Serves m.entries.items want.Fetch m.fetched.number m.fetched.above;
      loaded : Serves m.entries.items want.Load m.loaded.number m.loaded.above;
      stored : Serves m.entries.items want.Store m.stored.number m.stored.above;
    } };
}

impl Memory {
    /// The memory of an image. Takes all the memory that it ever needs.
    pub fn of(alloc: Global, image: &Image) -> Result<Memory, AllocError>
        ensures { IfOk result (λ memory. memory ≡ image.now.pages) }
    {
        let contents = image.contents();
        Ok(Memory {
            entries: Vec::from_slice(alloc, contents.entries)?,
            bytes: Vec::from_slice(alloc, contents.bytes)?,
            fetched: LastPage::none(),
            loaded: LastPage::none(),
            stored: LastPage::none(),
        })
    }

    /// The instruction word at an address that is a multiple of 4; `None` exactly where it can't be fetched.
    #[inline(always)]
    pub fn fetched(&mut self, address: u64) -> Option<u32>
        requires { address % 4 ≡ 0 }
        ensures memory { self.new ≡ self.old }
        ensures word { MatchOption result (permits self.old address want.Fetch ≡ false) (λ word.
            (permits self.old address want.Fetch ≡ true) × (word ≡ from_little_endian (bytes_at self.old address 4))) }
    {
        let at = self
            .fetched
            .granted_index(&self.entries, address, Want::Fetch)?;
        Some(word_at(&self.bytes, at))
    }

    /// The number that so many bytes from an address on are, least first; `None` exactly where they can't be read. The
    /// address is a multiple of their count.
    #[inline(always)]
    pub fn number(&mut self, address: u64, width: u64) -> Option<u64>
        requires width { IsTrue (is_access_width width) }
        requires aligned { address % width ≡ 0 }
        ensures memory { self.new ≡ self.old }
        ensures number { MatchOption result (permits self.old address want.Load ≡ false) (λ n.
            (permits self.old address want.Load ≡ true) × (n ≡ from_little_endian (bytes_at self.old address width))) }
    {
        let at = self
            .loaded
            .granted_index(&self.entries, address, Want::Load)?;
        Some(number_of_width(&self.bytes, at, width))
    }

    /// Whether an access is let through at an address.
    #[inline(always)]
    pub fn lets_through(&mut self, address: u64, want: Want) -> bool
        ensures memory { self.new ≡ self.old }
        ensures permitted { result ≡ permits self.old address want }
    {
        let entries = &self.entries;
        match want {
            Want::Fetch => self.fetched.granted_index(entries, address, want).is_some(),
            Want::Load => self.loaded.granted_index(entries, address, want).is_some(),
            Want::Store => self.stored.granted_index(entries, address, want).is_some(),
        }
    }

    /// Stores the low bytes of a number from an address on, least first, where that is let through, and says whether it was.
    /// The address is a multiple of their count.
    #[inline(always)]
    pub fn put(&mut self, address: u64, width: u64, value: u64) -> bool
        requires width { IsTrue (is_access_width width) }
        requires aligned { address % width ≡ 0 }
        ensures stored { result ≡ permits self.old address want.Store }
        ensures memory { self.new ≡ (if result then put_bytes self.old address (little_endian width value) else self.old) }
    {
        let Some(at) = self
            .stored
            .granted_index(&self.entries, address, Want::Store)
        else {
            return false;
        };
        put_of_width(&mut self.bytes, at, width, value);
        true
    }

    /// Whether each of so many bytes from an address on can be read, and none lies past the last address.
    pub fn has_readable(&self, address: u64, count: u64) -> bool
        ensures { result ≡ is_readable self.now address count }
    {
        (count == 0 || count - 1 <= u64::MAX - address)
            && all_readable(&self.entries, address, count)
    }

    /// Appends so many bytes from an address on, all of which can be read.
    pub fn append_bytes(&self, address: u64, count: u64, out: &mut Vec<u8>)
        requires readable { is_readable self.now address count ≡ true }
        requires room { vec_len out.old + count ≤ vec_capacity out.old }
        ensures bytes { out.new.items ≡ out.old.items ++ bytes_at self.now address count }
        ensures capacity { vec_capacity out.old ≤ vec_capacity out.new }
    {
        append_readable(&self.entries, &self.bytes, address, count, out);
    }
}

/// Whether each of so many bytes from an address on can be read. Looks once at each page.
fn all_readable(entries: &[PageEntry], address: u64, count: u64) -> bool
    requires rising { IsRising entries.now }
    requires within { address + count ≤ 2 ^ 64 }
    ensures { (bytes : List ℕ) → result ≡ all_permit (pages_of entries.now bytes) address count want.Load }
{
    let mut done = 0;
    while done < count {
        let at = address + done;
        let Some(_) = granting(entries, at, Want::Load) else {
            return false;
        };
        done += count_on_page(at, count - done);
    }
    true
}

/// Appends so many bytes from an address on, all of which can be read. Looks once at each page.
fn append_readable(entries: &[PageEntry], bytes: &[u8], address: u64, count: u64, out: &mut Vec<u8>)
    requires kept { IsKept entries.now bytes.now }
    requires readable { is_readable (pages_of entries.now bytes.now) address count ≡ true }
    requires room { vec_len out.old + count ≤ vec_capacity out.old }
    ensures bytes { out.new.items ≡ out.old.items ++ bytes_at (pages_of entries.now bytes.now) address count }
    ensures capacity { vec_capacity out.old ≤ vec_capacity out.new }
{
    let mut done = 0;
    while done < count {
        let at = address + done;
        let Some(place) = granting(entries, at, Want::Load) else {
            unreachable!()
        };
        let step = count_on_page(at, count - done);
        let start = index_of(place, at);
        let _ = out.extend_from_slice(&bytes[start..start + step as usize]);
        done += step;
    }
}

/// The index of the byte at an address of the page at a place.
#[inline(always)]
fn index_of(place: usize, address: u64) -> usize
    requires { place < 2 ^ 51 }
    ensures { result ≡ 4096 * place + address % 4096 }
{
    PAGE_LEN * place + (address % PAGE_BYTES) as usize
}

/// The N bytes from an index on. LLVM reads them at once.
#[inline(always)]
fn array_at<const N: usize>(bytes: &[u8], at: usize) -> [u8; N]
    requires within { at + N ≤ length bytes.now }
    ensures { result ≡ take N (drop at bytes.now) }
{
    let mut array = [0; N];
    for k in 0..N {
        array[k] = bytes[at + k];
    }
    array
}

/// The word that four bytes from an index on are, least first.
#[inline(always)]
fn word_at(bytes: &[u8], at: usize) -> u32
    requires within { at + 4 ≤ length bytes.now }
    ensures { result ≡ from_little_endian (take 4 (drop at bytes.now)) }
{
    u32::from_le_bytes(array_at(bytes, at))
}

/// The number that eight bytes from an index on are, least first.
#[inline(always)]
fn double_at(bytes: &[u8], at: usize) -> u64
    requires within { at + 8 ≤ length bytes.now }
    ensures { result ≡ from_little_endian (take 8 (drop at bytes.now)) }
{
    u64::from_le_bytes(array_at(bytes, at))
}

/// The number that two bytes from an index on are, least first.
#[inline(always)]
fn half_at(bytes: &[u8], at: usize) -> u16
    requires within { at + 2 ≤ length bytes.now }
    ensures { result ≡ from_little_endian (take 2 (drop at bytes.now)) }
{
    u16::from_le_bytes(array_at(bytes, at))
}

/// The number that so many bytes from an index on are, least first.
#[inline(always)]
fn number_of_width(bytes: &[u8], at: usize, width: u64) -> u64
    requires width { IsTrue (is_access_width width) }
    requires within { at + width ≤ length bytes.now }
    ensures { result ≡ from_little_endian (take width (drop at bytes.now)) }
{
    match width {
        1 => u64::from(bytes[at]),
        2 => u64::from(half_at(bytes, at)),
        4 => u64::from(word_at(bytes, at)),
        _ => double_at(bytes, at),
    }
}

/// Puts the low bytes of a number from an index on, least first. Each width that an access may have stands as a literal, so that
/// LLVM writes its bytes at once.
#[inline(always)]
fn put_of_width(bytes: &mut [u8], at: usize, width: u64, value: u64)
    requires width { IsTrue (is_access_width width) }
    requires within { at + width ≤ length bytes.old }
    ensures { bytes.new ≡ take at bytes.old ++ (little_endian width value ++ drop (at + width) bytes.old) }
{
    match width {
        1 => put_low::<1>(bytes, at, value),
        2 => put_low::<2>(bytes, at, value),
        4 => put_low::<4>(bytes, at, value),
        _ => put_low::<8>(bytes, at, value),
    }
}

/// Puts the N low bytes of a number from an index on, least first.
#[inline(always)]
fn put_low<const N: usize>(bytes: &mut [u8], at: usize, value: u64)
    requires count { N ≤ 8 }
    requires within { at + N ≤ length bytes.old }
    ensures { bytes.new ≡ take at bytes.old ++ (little_endian N value ++ drop (at + N) bytes.old) }
{
    let low = value.to_le_bytes();
    for k in 0..N {
        bytes[at + k] = low[k];
    }
}

/// The place of an address's page, where an access of this kind is let through.
fn granting(entries: &[PageEntry], address: u64, want: Want) -> Option<usize>
    requires { IsRising entries.now }
    ensures { MatchOption result ((bytes : List ℕ) → permits (pages_of entries.now bytes) address want ≡ false) (IsGrantedAt entries.now address want) }
{
    if !is_canonical(address) {
        return None;
    }
    let Some(place) = place_of(entries, address / PAGE_BYTES) else {
        return None;
    };
    if entries[place].perm.grants(want) {
        Some(place)
    } else {
        None
    }
}
