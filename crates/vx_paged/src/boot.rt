ghost use Rattle.std.specs.Prelude.{◌≡◌, ℕ, ◌+◌, ◌*◌, ◌<◌, ◌≤◌, length, map, slice_index, IfErr, IfOk};
ghost use Rattle.vx_cells.specs.Cells.{IsMemory, Makes};
ghost use Rattle.vx_image.specs.Images.{entry_of_page};
ghost use Rattle.vx_image.specs.Tables.{table_frames};
ghost use Rattle.vx_paged.specs.Booting.{Boots, page_writes, word_in};
ghost use Rattle.vx_paged.specs.Framed.{IsWithin, entries_of, shown};
ghost use Rattle.vx_paged.specs.Left.{rest_of};
ghost use Rattle.vx_tables.specs.Building.{kernel_writes};

use crate::laws::{pages_are_placed_in_turn, shown_memory_is_alike};
use crate::placement::Placement;
use std::alloc::{AllocError, Global};
use vx_cells::{Cells, accesses_are_made_in_turn, words_are_merged_by_bytes};
use vx_image::Image;
use vx_pending::nothing_else_differs;
use vx_tables::pages_are_granted;
use vx_walk::{build_present, write_word};

/// How many bytes a page has.
const PAGE_LEN: usize = 4096;

/// How many words a frame has.
const FRAME_WORDS: u32 = 512;

/// Writes each page of an image into the frame that it is placed in: page after page, each page's words in rising order, at
/// the current cycle on port Kernel. The memory that is shown is the image's then.
pub fn place_pages<C: Cells>(cells: &mut C, image: &Image, placement: &Placement)
    requires pages { entries_of placement.now ≡ map entry_of_page image.now.pages }
    requires within { IsWithin (C.state cells.old).frames placement.now }
    ensures makes { Makes (C.state cells.old) (C.state cells.new) (page_writes (C.state cells.old).cycle placement.now image.now.pages (length placement.now)) }
    ensures memory { IsMemory (C.state cells.new) }
    ensures rest { rest_of placement.now (C.state cells.new) ≡ rest_of placement.now (C.state cells.old) }
    ensures shown { shown placement.now (C.state cells.new).contents ≡ image.now.pages }
{
    words_are_merged_by_bytes();
    accesses_are_made_in_turn();
    let _frames = cells.frames();
    let contents = image.contents();
    let _length = contents.bytes.len();
    let pages = placement.pages();
    for i in 0..pages.len() {
        let start = PAGE_LEN * i;
        write_page(
            cells,
            pages[i].frame,
            &contents.bytes[start..start + PAGE_LEN],
        );
    }
}

/// Writes a page's bytes into a frame, word after word.
fn write_page<C: Cells>(cells: &mut C, frame: u32, bytes: &[u8])
    requires length { length bytes.now ≡ 4096 }
    requires frame { frame < (C.state cells.old).frames }
    ensures small { (i : ℕ) → slice_index bytes.now i < 256 }
    ensures makes { Makes (C.state cells.old) (C.state cells.new) (kernel_writes (C.state cells.old).cycle (512 * frame) (word_in bytes.now) 512) }
{
    accesses_are_made_in_turn();
    let _frames = cells.frames();
    for w in 0..FRAME_WORDS {
        write_word(cells, FRAME_WORDS * frame + w, word_at(bytes, w as usize));
    }
}

/// Word `w` of these bytes.
fn word_at(bytes: &[u8], w: usize) -> u64
    requires { 8 * w + 8 ≤ length bytes.now }
    ensures { result ≡ word_in bytes.now w }
{
    let start = 8 * w;
    let mut word = [0; 8];
    word.copy_from_slice(&bytes[start..start + 8]);
    u64::from_le_bytes(word)
}

/// Boots an image on physical memory: builds its page tables in successive frames from `first` on, and places its pages in
/// the frames behind them. Nothing is written where memory for the placement lacks. The cells have these frames.
pub fn boot_pages<C: Cells>(
    alloc: Global,
    cells: &mut C,
    image: &Image,
    first: u32,
) -> Result<Placement, AllocError>
    requires { first + table_frames image.now.pages + length image.now.pages ≤ (C.state cells.old).frames }
    ensures boots { IfOk result (λ placement. Boots (C.state cells.old) (C.state cells.new) first image.now.pages placement) }
    ensures unchanged { IfErr result (λ error. C.state cells.new ≡ C.state cells.old) }
{
    pages_are_granted();
    pages_are_placed_in_turn();
    shown_memory_is_alike();
    nothing_else_differs();
    accesses_are_made_in_turn();
    let _frames = cells.frames();
    let pages = image.pages(alloc)?;
    let _count = pages.len();
    let page = first + image.table_frames();
    let placement = Placement::of(alloc, &pages, page)?;
    build_present(cells, first, &pages, page);
    place_pages(cells, image, &placement);
    Ok(placement)
}
