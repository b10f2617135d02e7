//! Groups of words, as many as the machine has lanes, counted.

ghost use Rattle.std.specs.List.{range_with_len};
ghost use Rattle.std.specs.Prelude.{◌≡◌, ◌≤◌, ◌-◌, ◌/◌, ◌^◌, IsTrue, length, Some};
ghost use Rattle.vx_base.specs.Options.{is_lane_count};
ghost use Rattle.vx_decode.specs.declared.instr.Instr.{Instr};
ghost use Rattle.vx_episode.specs.Footprint.{groups_made, groups_of};
ghost use Rattle.vx_flat.specs.State.{Flat};
ghost use Rattle.vx_flat.specs.Vectors.{reading_at, setting_at};
ghost use Rattle.vx_rows.specs.Table.{class_of};
ghost use Rattle.vx_rows.specs.declared.row.Class.TheVariants.{VectorArithmetic};
ghost use Rattle.vx_vector.specs.Reading.{Reading};
ghost use Rattle.vx_vector.specs.Words.{handled_words};
ghost use Rattle.vx_vstate.specs.Views.{view_of};

use crate::words::{Span, handled_operand, words_of};
use vx_rows::Family;
use vx_vstate::Setting;

/// Of which power of two there are lanes.
#[inline(always)]
fn power_of(lanes: u32) -> u32
    requires { IsTrue (is_lane_count lanes) }
    ensures is { 2 ^ result ≡ lanes }
    ensures few { result ≤ 3 }
{
    lanes.trailing_zeros()
}

/// The number of a word's group.
#[inline(always)]
fn group_of(w: u32, power: u32) -> u32
    requires { power ≤ 3 }
    ensures { result ≡ w / 2 ^ power }
{
    w >> power
}

/// How many groups the words of a span make.
#[inline(always)]
fn groups_in(span: Span, lanes: u32) -> u32
    requires { IsTrue (is_lane_count lanes) }
    ensures few { result ≤ span.after }
    ensures groups { length (groups_of lanes (range_with_len span.first (span.after - span.first))) ≡ result }
{
    if span.first >= span.after {
        return 0;
    }
    let power = power_of(lanes);
    group_of(span.after - 1, power) + 1 - group_of(span.first, power)
}

/// How many beats an instruction of a family has under a setting, on a machine of so many lanes.
#[inline(always)]
pub fn beat_count(family: Family, at: &Setting, lanes: u32) -> u32
    requires lanes { IsTrue (is_lane_count lanes) }
    ensures few { result ≤ 4096 }
    ensures reading { (r : Reading) → r.family ≡ family → r.at ≡ view_of at.now → length (groups_made r (groups_of lanes (handled_words r))) ≡ result }
    ensures state { (s : Flat) (i : Instr) (r : Reading) → class_of i.op ≡ VectorArithmetic family → setting_at s i ≡ view_of at.now → reading_at s i ≡ Some r → length (groups_made r (groups_of lanes (handled_words r))) ≡ result }
{
    groups_in(words_of(handled_operand(family.operands()), at), lanes)
}
