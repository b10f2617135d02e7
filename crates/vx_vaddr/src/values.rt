//! Elements in the registers: what an access stores, and the registers with what one loaded.

ghost use Rattle.std.specs.Prelude.{IsTrue, ◌≡◌, ◌<◌, ◌≤◌, ◌+◌};
ghost use Rattle.vx_vaddr.specs.Items.{access_of_item};
ghost use Rattle.vx_vector.specs.Accesses.{value_stored, with_loaded};
ghost use Rattle.vx_vector.specs.Movements.{IsPlacedAccess};
ghost use Rattle.vx_vstate.specs.Registers.{
  element,
  element_word,
  is_element_width,
  place_of,
  with_field,
  words_of_all,
};

use crate::item::Item;
use vx_bits::low;
use vx_operands::{group_word, part};
use vx_vstate::{Setting, VState, WordFile};

/// Element `index` of a width, counted from the first of a register on.
#[inline(always)]
pub(crate) fn read_element<S: WordFile>(
    file: &S,
    at: &Setting,
    register: u8,
    width: u32,
    index: u32,
) -> u64
    requires same { S.vlen file.now ≡ at.now.vlen }
    requires width { IsTrue (is_element_width width) }
    requires within { place_of at.now.vlen register (element_word width index) < words_of_all at.now.vlen }
    ensures { result ≡ element at.now.vlen (S.words file.now) register width index }
{
    low(width, part(file, at, register, width, 1, index))
}

/// What an access stores: its element of the registers.
#[inline(always)]
pub fn stored_value<S: WordFile>(file: &S, at: &Setting, item: &Item) -> u64
    requires same { S.vlen file.now ≡ at.now.vlen }
    requires placed { IsPlacedAccess at.now.vlen (access_of_item item.now) }
    ensures { result ≡ value_stored at.now.vlen (S.words file.now) (access_of_item item.now) }
{
    let word = group_word(file, at, item.register, item.byte / 8);
    low(8 * u32::from(item.width), word >> (item.byte % 8 * 8))
}

/// A word with the bits from `first` on, `count` of them, those of a value.
#[inline(always)]
fn with_field(word: u64, first: u32, count: u32, value: u64) -> u64
    requires some { 0 < count }
    requires fits { first + count ≤ 64 }
    ensures { result ≡ with_field word first count value }
{
    let old = low(count, word >> first);
    let new = low(count, value);
    word - (old << first) + (new << first)
}

/// Sets what an access loaded at its place in the registers.
#[inline(always)]
pub fn put_loaded(v: &mut VState, item: &Item, value: u64)
    requires placed { IsPlacedAccess v.old.vlen (access_of_item item.now) }
    ensures { v.new ≡ record v.old { words = with_loaded v.old.vlen v.old.words (access_of_item item.now) value } }
{
    let w = item.byte / 8;
    let old = v.word(item.register, w);
    let new = with_field(old, item.byte % 8 * 8, 8 * u32::from(item.width), value);
    v.put_word(item.register, w, new);
}
