ghost use Rattle.std.specs.Prelude.{◌≡◌, ◌<◌, ◌≤◌, Some};
ghost use Rattle.vx_vaddr.specs.Items.{accesses_of_items};
ghost use Rattle.vx_vector.specs.Accesses.{Movement, movement_count, movement, movement_of};
ghost use Rattle.vx_vector.specs.Batches.{accesses_of_batch, batch_at, most_of_batch};
ghost use Rattle.vx_vector.specs.Movements.{IsLegalMovement};
ghost use Rattle.vx_vstate.specs.Views.{view_of};

use crate::item::AccessList;
use crate::pattern::AccessPattern;
use vx_decode::Instr;
use vx_rows::{Addressing, Class, Eew};
use vx_vector::legal_movements_are_sound;
use vx_vstate::{Setting, WordFile};

/// Fills a list with the next batch of the accesses of a vector load or store, from an element on, and answers the element
/// after the batch. The instruction is valid and legal under the setting; `base` is the number in `rs1`, `stride` that in
/// `rs2`, where the row has one; `from` is one of its elements, none below vstart. Of any other instruction nothing is said.
#[inline(always)]
pub fn accesses<S: WordFile>(
    i: &Instr,
    at: &Setting,
    base: u64,
    stride: u64,
    file: &S,
    from: u32,
    lanes: u32,
    list: &mut AccessList,
) -> u32
    requires same { S.vlen file.now ≡ at.now.vlen }
    requires legal { (m : Movement) → movement_of i.now (view_of at.now) base stride (S.words file.now) ≡ Some m → IsLegalMovement m }
    requires started { at.now.vstart ≤ from }
    requires among { (m : Movement) → movement_of i.now (view_of at.now) base stride (S.words file.now) ≡ Some m → from < movement_count m }
    ensures accesses { (m : Movement) → movement_of i.now (view_of at.now) base stride (S.words file.now) ≡ Some m → accesses_of_items list.new ≡ accesses_of_batch m (batch_at m lanes most_of_batch from) }
    ensures after { (m : Movement) → movement_of i.now (view_of at.now) base stride (S.words file.now) ≡ Some m → result ≡ (batch_at m lanes most_of_batch from).after }
{
    match i.op.class() {
        Class::VectorLoad(addressing, encoded) => known_accesses(
            addressing, encoded, i, at, base, stride, file, from, lanes, list,
        ),
        Class::VectorStore(addressing, encoded) => known_accesses(
            addressing, encoded, i, at, base, stride, file, from, lanes, list,
        ),
        _ => from,
    }
}

/// The same of a row whose addressing and encoded width are known.
#[inline(always)]
fn known_accesses<S: WordFile>(
    addressing: Addressing,
    encoded: Eew,
    i: &Instr,
    at: &Setting,
    base: u64,
    stride: u64,
    file: &S,
    from: u32,
    lanes: u32,
    list: &mut AccessList,
) -> u32
    requires same { S.vlen file.now ≡ at.now.vlen }
    requires legal { IsLegalMovement (movement addressing encoded i.now (view_of at.now) base stride (S.words file.now)) }
    requires started { at.now.vstart ≤ from }
    requires among { from < movement_count (movement addressing encoded i.now (view_of at.now) base stride (S.words file.now)) }
    ensures accesses { accesses_of_items list.new ≡ accesses_of_batch (movement addressing encoded i.now (view_of at.now) base stride (S.words file.now)) (batch_at (movement addressing encoded i.now (view_of at.now) base stride (S.words file.now)) lanes most_of_batch from) }
    ensures after { result ≡ (batch_at (movement addressing encoded i.now (view_of at.now) base stride (S.words file.now)) lanes most_of_batch from).after }
{
    legal_movements_are_sound();
    let _first = file.word(0, 0);
    let pattern = AccessPattern::new(addressing, encoded, i, at, base, stride);
    pattern.next_batch(file, from, lanes, list)
}
