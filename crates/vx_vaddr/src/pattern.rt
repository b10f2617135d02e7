ghost use Rattle.std.specs.Prelude.{◌≡◌, ◌<◌, ◌≤◌, ℕ, ◌+◌, ◌*◌, ◌%◌, ◌^◌, ◌==◌, false, [], List, option_to_list};
ghost use Rattle.vx_vaddr.specs.Patterns.{IsPattern};
ghost use Rattle.vx_vector.specs.Accesses.{movement};
ghost use Rattle.vx_vstate.specs.Views.{view_of};

use crate::item::{AccessList, Item};
use crate::shape::{count, fields, index_width, registers, step, width};
use crate::values::read_element;
use vx_decode::Instr;
use vx_rows::{Addressing, Eew};
use vx_vector::batches_are_longest_runs;
use vx_vstate::{Setting, WordFile};

/// A vector load or store, with what doesn't depend on the element: made once an instruction.
#[derive(Clone, Copy, Debug)]
pub struct AccessPattern {
    addressing: Addressing,
    encoded: Eew,
    i: Instr,
    at: Setting,
    base: u64,
    stride: u64,
    step: u64,
    index_width: u32,
    bytes: u32,
    fields: u32,
    registers: u32,
    count: u32,
    ghost is: { IsPattern (movement addressing encoded i (view_of at) base stride []) step index_width bytes fields registers count },
}

impl AccessPattern {
    ghost use Rattle.vx_vaddr.specs.Items.{access_of_item, accesses_of_items};
    ghost use Rattle.vx_vaddr.specs.Patterns.{IsSized};
    ghost use Rattle.vx_vaddr.specs.Views.{movement_with};
    ghost use Rattle.vx_vector.specs.Accesses.{access_bytes, access_of, accesses_of_element, address_of, fields_of, index_of, movement_count, offset_by, takes_part};
    ghost use Rattle.vx_vector.specs.Batches.{accesses_of_batch, batch_at, most_of_batch};
    ghost use Rattle.vx_vector.specs.Movements.{IsSoundMovement};

    /// The pattern of an instruction whose row has this addressing and encodes this width, under a setting, with the
    /// numbers in `rs1` and, where it is strided, in `rs2`.
    #[inline(always)]
    pub fn new(
        addressing: Addressing,
        encoded: Eew,
        i: &Instr,
        at: &Setting,
        base: u64,
        stride: u64,
    ) -> AccessPattern
        ensures { (words : List ℕ) → movement_with result words ≡ movement addressing encoded i.now (view_of at.now) base stride words }
    {
        let bits = width(addressing, encoded, at);
        let bytes = bits / 8;
        let fields = fields(addressing, encoded, i, at);
        let registers = registers(addressing, encoded, i, at);
        AccessPattern {
            addressing,
            encoded,
            i: *i,
            at: *at,
            base,
            stride,
            step: step(addressing, u64::from(fields * bytes), stride),
            index_width: index_width(addressing, encoded),
            bytes,
            fields,
            registers,
            count: count(addressing, at, registers, bits),
        }
    }

    /// The element behind the last: vl, the bytes of vl bits, or as many as whole registers hold.
    #[inline(always)]
    pub fn count(&self) -> u32
        ensures { (words : List ℕ) → result ≡ movement_count (movement_with self.now words) }
    {
        self.count
    }

    /// Whether an element has one field.
    #[inline(always)]
    pub fn has_one_field(&self) -> bool
        ensures { (words : List ℕ) → result ≡ (fields_of (movement_with self.now words) == 1) }
    {
        self.fields == 1
    }

    /// Whether accesses depend on words of the registers: on a mask, or on indices.
    #[inline(always)]
    pub fn needs_words(&self) -> bool
        ensures { result ≡ false → (words others : List ℕ) (i : ℕ) → accesses_of_element (movement_with self.now words) i ≡ accesses_of_element (movement_with self.now others) i }
    {
        !self.i.vm || self.index_width != 0
    }

    /// Whether an element takes part.
    #[inline(always)]
    fn takes_part<S: WordFile>(&self, file: &S, i: u32) -> bool
        requires same { S.vlen file.now ≡ self.now.at.vlen }
        requires sound { IsSoundMovement (movement_with self.now (S.words file.now)) }
        requires started { self.now.at.vstart ≤ i }
        requires among { i < movement_count (movement_with self.now (S.words file.now)) }
        ensures { result ≡ takes_part (movement_with self.now (S.words file.now)) i }
    {
        self.i.vm || read_element(file, &self.at, 0, 1, i) == 1
    }

    /// How far an element's first field lies behind the base.
    #[inline(always)]
    fn offset<S: WordFile>(&self, file: &S, i: u32) -> u64
        requires same { S.vlen file.now ≡ self.now.at.vlen }
        requires sound { IsSoundMovement (movement_with self.now (S.words file.now)) }
        requires among { i < movement_count (movement_with self.now (S.words file.now)) }
        ensures { result ≡ offset_by self.now.addressing i (fields_of (movement_with self.now (S.words file.now)) * access_bytes (movement_with self.now (S.words file.now))) self.now.stride (index_of (movement_with self.now (S.words file.now)) i) % 2 ^ 64 }
    {
        if self.index_width == 0 {
            u64::from(i).wrapping_mul(self.step)
        } else {
            read_element(file, &self.at, self.i.rs2, self.index_width, i)
        }
    }

    /// The access of a field of an element, where that of its first field is at `first`.
    #[inline(always)]
    fn item(&self, first: u64, i: u32, field: u32) -> Item
        requires { IsSized self.now.bytes self.now.registers self.now.i.rd i field }
        ensures { (words : List ℕ) → first ≡ address_of (movement_with self.now words) i 0 → access_of_item result ≡ access_of (movement_with self.now words) i field }
    {
        let offset = field * self.bytes;
        let span = field * self.registers;
        let byte = i * self.bytes;
        Item {
            element: i,
            field: field as u8,
            address: first.wrapping_add(offset as u64),
            width: self.bytes as u8,
            register: self.i.rd + span as u8,
            byte,
        }
    }

    /// Fills a list with the accesses of an element, in the order of its fields: none where a mask leaves it out.
    #[inline(always)]
    pub fn fill<S: WordFile>(&self, file: &S, i: u32, list: &mut AccessList)
        requires same { S.vlen file.now ≡ self.now.at.vlen }
        requires sound { IsSoundMovement (movement_with self.now (S.words file.now)) }
        requires started { self.now.at.vstart ≤ i }
        requires among { i < movement_count (movement_with self.now (S.words file.now)) }
        ensures { accesses_of_items list.new ≡ accesses_of_element (movement_with self.now (S.words file.now)) i }
    {
        list.clear();
        if !self.takes_part(file, i) {
            return;
        }
        let first = self.base.wrapping_add(self.offset(file, i));
        for field in 0..self.fields {
            list.push(self.item(first, i, field));
        }
    }

    /// The access of an element that has one field; none where a mask leaves it out.
    #[inline(always)]
    pub fn only<S: WordFile>(&self, file: &S, i: u32) -> Option<Item>
        requires same { S.vlen file.now ≡ self.now.at.vlen }
        requires sound { IsSoundMovement (movement_with self.now (S.words file.now)) }
        requires started { self.now.at.vstart ≤ i }
        requires among { i < movement_count (movement_with self.now (S.words file.now)) }
        requires one { fields_of (movement_with self.now (S.words file.now)) ≡ 1 }
        ensures { accesses_of_items (option_to_list result) ≡ accesses_of_element (movement_with self.now (S.words file.now)) i }
    {
        if !self.takes_part(file, i) {
            return None;
        }
        let first = self.base.wrapping_add(self.offset(file, i));
        Some(self.item(first, i, 0))
    }

    /// Fills a list with the next batch from an element on, and answers the element after it.
    #[inline(always)]
    pub fn next_batch<S: WordFile>(
        &self,
        file: &S,
        from: u32,
        lanes: u32,
        list: &mut AccessList,
    ) -> u32
        requires same { S.vlen file.now ≡ self.now.at.vlen }
        requires sound { IsSoundMovement (movement_with self.now (S.words file.now)) }
        requires started { self.now.at.vstart ≤ from }
        requires among { from < movement_count (movement_with self.now (S.words file.now)) }
        ensures accesses { accesses_of_items list.new ≡ accesses_of_batch (movement_with self.now (S.words file.now)) (batch_at (movement_with self.now (S.words file.now)) lanes most_of_batch from) }
        ensures after { result ≡ (batch_at (movement_with self.now (S.words file.now)) lanes most_of_batch from).after }
    {
        batches_are_longest_runs();
        self.fill(file, from, list);
        from + 1
    }
}
