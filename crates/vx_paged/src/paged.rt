ghost use Rattle.std.specs.Prelude.{◌≡◌, ℕ, ◌+◌, ◌-◌, ◌*◌, ◌/◌, ◌<◌, ◌≤◌, ◌%◌, ◌^◌, ◌++◌, ◌&&◌, List, slice_index, take, drop, min, true, false, None, Some, MatchOption, vec_len, vec_capacity, if◌then◌else◌};
ghost use Rattle.vx_base.specs.Numbers.{little_endian};
ghost use Rattle.vx_base.specs.declared.machine.Want.TheVariants as want;
ghost use Rattle.vx_cells.specs.Cells.{IsMemory};
ghost use Rattle.vx_flat.specs.Memory.{bytes_at, all_permit};
ghost use Rattle.vx_flat.specs.Service.{is_readable};
ghost use Rattle.vx_image.specs.Pages.{permits};
ghost use Rattle.vx_paged.specs.Framed.{IsPlacement, framed, shown};
ghost use Rattle.vx_paged.specs.Granted.{IsGrantedIn, Serves};
ghost use Rattle.vx_paged.specs.Left.{Fits, rest_of};

use crate::bytes::{bytes_named, half_of, moved_up, part_of, word_index};
use crate::placement::{FramedPage, Placement};
use std::marker::Model;
use vx_base::Want;
use vx_cells::{Cells, Port, words_are_merged_by_bytes};
use vx_hart::Memory;
use vx_image::{count_on_page, is_canonical};

/// How many bytes a page has, and a word.
const PAGE_BYTES: u64 = 4096;

const WORD_BYTES: u64 = 8;

/// A page that the last access of a kind was let through to, by its number, and its frame.
#[derive(Clone, Copy, Debug)]
struct LastPage {
    number: u64,
    frame: u32,
}

impl LastPage {
    /// That of no address.
    fn none() -> LastPage
        ensures { result.number ≡ 2 ^ 64 - 1 }
    {
        LastPage {
            number: u64::MAX,
            frame: 0,
        }
    }
}

/// The memory of a process in frames of physical memory. It keeps for each kind of access the last page that let it through,
/// at which nothing is looked up again.
#[derive(Debug, Drop)]
pub struct Paged {
    pages: Vec<FramedPage>,
    fetched: LastPage,
    loaded: LastPage,
    stored: LastPage,
}

impl Model for Paged {
    ghost use Rattle.std.specs.Prelude.{List};
    ghost use Rattle.vx_base.specs.declared.machine.Want.TheVariants as want;
    ghost use Rattle.vx_paged.specs.declared.placement.FramedPage.{FramedPage};
    ghost use Rattle.vx_paged.specs.Framed.{IsPlacement};
    ghost use Rattle.vx_paged.specs.Granted.{Serves};

    ghost Value = { List FramedPage };

    ghost view = { λ p. p.pages.items };

    ghost invariant = { λ p. record {
      kept : IsPlacement p.pages.items;
      fetched : Serves p.pages.items want.Fetch p.fetched.number p.fetched.frame;
      loaded : Serves p.pages.items want.Load p.loaded.number p.loaded.frame;
      stored : Serves p.pages.items want.Store p.stored.number p.stored.frame;
    } };
}

impl Paged {
    /// The memory whose pages are where a placement says. Takes no memory.
    pub fn of(placement: Placement) -> Paged
        ensures { result ≡ placement }
    {
        Paged {
            pages: placement.into_pages(),
            fetched: LastPage::none(),
            loaded: LastPage::none(),
            stored: LastPage::none(),
        }
    }

    /// The pages with their frames.
    pub fn pages(&self) -> &[FramedPage]
        ensures pages { result.now ≡ self.now }
        ensures kept { IsPlacement self.now }
    {
        &self.pages
    }
}

impl<C: Cells> Memory<C> for Paged {
    ghost state = { λ paged cells. shown paged (C.state cells).contents };

    ghost fits = { λ paged cells. Fits paged (C.state cells) };

    ghost rest = { λ paged cells. rest_of paged (C.state cells) };

    #[inline(always)]
    fn word(&mut self, physical: &mut C, address: u64) -> Option<u32> {
        let frame = frame_in(&self.pages, &mut self.fetched, address, Want::Fetch)?;
        let word = read_word(physical, Port::Fetch, frame, address);
        Some(half_of(word, address))
    }

    #[inline(always)]
    fn load(&mut self, physical: &mut C, address: u64, width: u64) -> Option<u64> {
        let frame = frame_in(&self.pages, &mut self.loaded, address, Want::Load)?;
        let word = read_word(physical, Port::Data, frame, address);
        Some(part_of(word, address, width))
    }

    #[inline(always)]
    fn permits(&mut self, physical: &mut C, address: u64, want: Want) -> bool {
        let _ = physical;
        let pages = &self.pages;
        match want {
            Want::Fetch => frame_in(pages, &mut self.fetched, address, want).is_some(),
            Want::Load => frame_in(pages, &mut self.loaded, address, want).is_some(),
            Want::Store => frame_in(pages, &mut self.stored, address, want).is_some(),
        }
    }

    #[inline(always)]
    fn store(&mut self, physical: &mut C, address: u64, width: u64, value: u64) -> bool {
        words_are_merged_by_bytes();
        let Some(frame) = frame_in(&self.pages, &mut self.stored, address, Want::Store) else {
            return false;
        };
        physical.write(
            Port::Data,
            word_index(frame, address),
            moved_up(value, address),
            bytes_named(address, width),
        );
        true
    }

    fn is_readable(&mut self, physical: &mut C, address: u64, count: u64) -> bool {
        let _ = physical;
        (count == 0 || count - 1 <= u64::MAX - address) && all_readable(&self.pages, address, count)
    }

    fn append_to(&mut self, physical: &mut C, address: u64, count: u64, out: &mut Vec<u8>) {
        append_readable(&self.pages, &mut self.loaded, physical, address, count, out);
    }
}

/// Reads the word of physical memory in which a byte lies, where the page of its address is in a frame.
#[inline(always)]
fn read_word<C: Cells>(cells: &mut C, port: Port, frame: u32, address: u64) -> u64
    requires { frame < (C.state cells.old).frames }
    ensures value { result ≡ slice_index (C.state cells.old).contents (512 * frame + address % 4096 / 8) }
    ensures memory { IsMemory (C.state cells.new) }
    ensures frames { (C.state cells.new).frames ≡ (C.state cells.old).frames }
    ensures cycle { (C.state cells.new).cycle ≡ (C.state cells.old).cycle }
    ensures contents { (C.state cells.new).contents ≡ (C.state cells.old).contents }
{
    let _frames = cells.frames();
    cells.read(port, word_index(frame, address))
}

/// Whether each of so many bytes from an address on can be read. Looks once at each page.
fn all_readable(pages: &[FramedPage], address: u64, count: u64) -> bool
    requires kept { IsPlacement pages.now }
    requires within { address + count ≤ 2 ^ 64 }
    ensures { (contents : List ℕ) → result ≡ all_permit (shown pages.now contents) address count want.Load }
{
    let mut done = 0;
    while done < count {
        let at = address + done;
        let Some(_) = granting(pages, at, Want::Load) else {
            return false;
        };
        done += count_on_page(at, count - done);
    }
    true
}

/// Appends so many bytes from an address on, all of which can be read, word by word.
fn append_readable<C: Cells>(
    pages: &[FramedPage],
    last: &mut LastPage,
    cells: &mut C,
    address: u64,
    count: u64,
    out: &mut Vec<u8>,
)
    requires kept { IsPlacement pages.now }
    requires serves { Serves pages.now want.Load last.old.number last.old.frame }
    requires fits { Fits pages.now (C.state cells.old) }
    requires readable { is_readable (shown pages.now (C.state cells.old).contents) address count ≡ true }
    requires room { vec_len out.old + count ≤ vec_capacity out.old }
    ensures serves { Serves pages.now want.Load last.new.number last.new.frame }
    ensures fits { Fits pages.now (C.state cells.new) }
    ensures rest { rest_of pages.now (C.state cells.new) ≡ rest_of pages.now (C.state cells.old) }
    ensures contents { (C.state cells.new).contents ≡ (C.state cells.old).contents }
    ensures bytes { out.new.items ≡ out.old.items ++ bytes_at (shown pages.now (C.state cells.old).contents) address count }
    ensures capacity { vec_capacity out.old ≤ vec_capacity out.new }
{
    let mut done = 0;
    while done < count {
        let at = address + done;
        let Some(frame) = frame_in(pages, last, at, Want::Load) else {
            unreachable!()
        };
        let word = read_word(cells, Port::Kernel, frame, at);
        let step = count_in_word(at, count - done);
        push_part(word, at % WORD_BYTES, step, out);
        done += step;
    }
}

/// Appends so many bytes of a word from one on.
fn push_part(word: u64, from: u64, count: u64, out: &mut Vec<u8>)
    requires within { from + count ≤ 8 }
    requires room { vec_len out.old + count ≤ vec_capacity out.old }
    ensures bytes { out.new.items ≡ out.old.items ++ take count (drop from (little_endian 8 word)) }
    ensures len { vec_len out.new ≡ vec_len out.old + count }
    ensures capacity { vec_capacity out.old ≤ vec_capacity out.new }
{
    let bytes = word.to_le_bytes();
    let start = from as usize;
    let _ = out.extend_from_slice(&bytes[start..start + count as usize]);
}

/// How many of so many bytes from an address on lie in its word.
fn count_in_word(address: u64, count: u64) -> u64
    ensures { result ≡ min count (8 - address % 8) }
{
    count.min(WORD_BYTES - address % WORD_BYTES)
}

/// The frame of an address's page, where an access of this kind is let through, which then is the last of its kind.
#[inline(always)]
fn frame_in(pages: &[FramedPage], last: &mut LastPage, address: u64, want: Want) -> Option<u32>
    requires kept { IsPlacement pages.now }
    requires serves { Serves pages.now want last.old.number last.old.frame }
    ensures serves { Serves pages.now want last.new.number last.new.frame }
    ensures frame { MatchOption result ((contents : List ℕ) → permits (shown pages.now contents) address want ≡ false) (IsGrantedIn pages.now address want) }
{
    let number = address / PAGE_BYTES;
    if number == last.number {
        return Some(last.frame);
    }
    let frame = granting(pages, address, want)?;
    *last = LastPage { number, frame };
    Some(frame)
}

/// The frame of an address's page, where an access of this kind is let through.
#[inline(never)]
fn granting(pages: &[FramedPage], address: u64, want: Want) -> Option<u32>
    requires { IsPlacement pages.now }
    ensures { MatchOption result ((contents : List ℕ) → permits (shown pages.now contents) address want ≡ false) (IsGrantedIn pages.now address want) }
{
    if !is_canonical(address) {
        return None;
    }
    let Some(page) = page_numbered(pages, address / PAGE_BYTES) else {
        return None;
    };
    if page.entry.perm.grants(want) {
        Some(page.frame)
    } else {
        None
    }
}

/// The page of this number.
fn page_numbered(pages: &[FramedPage], number: u64) -> Option<FramedPage>
    requires { IsPlacement pages.now }
    ensures { result ≡ framed number pages.now }
{
    match pages.binary_search_by_key(&number, |page| page.entry.page) {
        Ok(place) => Some(pages[place]),
        Err(_) => None,
    }
}
