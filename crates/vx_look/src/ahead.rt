ghost use Rattle.std.specs.Prelude.{◌≡◌, ◌+◌, ◌*◌, ◌^◌, ◌<◌, ◌≤◌, ◌||◌, not, nat_le, [], List, map, length};
ghost use Rattle.vx_episode.specs.Batches.{fate_of, is_unknown};
ghost use Rattle.vx_episode.specs.Footprint.{Access};
ghost use Rattle.vx_episode.specs.History.{History, BatchTimes};
ghost use Rattle.vx_episode.specs.Organisation.{Start};
ghost use Rattle.vx_look.specs.Aheads.{AreLookedAhead};
ghost use Rattle.vx_serve.specs.Fates.{told, AreKnownBy};
ghost use Rattle.vx_look.specs.LookUps.{AreOf, AreReady};
ghost use Rattle.vx_tables.specs.Walking.{HaveTables};

use crate::batches::{is_failing, walk_missing};
use crate::data_tlb::DataTlb;
use crate::looking::is_unknown;
use vx_base::Want;
use vx_cells::Cells;
use vx_serve::Fate;
use vx_vaddr::Item;

/// Whether something is known of an access, or a walk behind `ended` that takes so long ends by a cycle.
fn ends_by(fate: Fate, ended: u64, time: u64, last: u64) -> bool
    requires { ended + time < 2 ^ 64 }
    ensures { result ≡ (not (is_unknown (told fate)) || nat_le (ended + time) last) }
{
    !is_unknown(fate) || ended + time <= last
}

/// The walks of a batch, as far as they end by a cycle. Answers when the last of them has ended.
pub fn walk_ahead<C: Cells>(
    tlb: &mut DataTlb,
    cells: &mut C,
    root: u32,
    bank_time: u64,
    want: Want,
    started: u64,
    items: &[Item],
    fates: &mut [Fate],
    last: u64,
) -> u64
    requires tables { HaveTables (C.state cells.old) root }
    requires few { length items.now ≤ 8 }
    requires count { length fates.old ≡ length items.now }
    requires cycles { started + 32 * bank_time < 2 ^ 64 }
    requires known { AreKnownBy started fates.old }
    ensures tables { HaveTables (C.state cells.new) root }
    ensures frames { (C.state cells.new).frames ≡ (C.state cells.old).frames }
    ensures cycle { (C.state cells.new).cycle ≡ (C.state cells.old).cycle }
    ensures started { started ≤ result }
    ensures ended { result ≤ started + 32 * bank_time }
    ensures known { AreKnownBy result fates.new }
    ensures count { length fates.new ≡ length fates.old }
    ensures walked { (start : Start) (history : History) (earlier : List BatchTimes) (accesses : List Access) → start.machine.bank_time ≡ bank_time → AreOf items.now accesses
        → AreReady start history earlier root tlb.old (C.state cells.old) → map told fates.old ≡ map (fate_of start history earlier want started []) accesses
        → AreLookedAhead start history earlier want started accesses last root tlb.new (C.state cells.old) (C.state cells.new) fates.new result }
{
    let time = 4 * bank_time;
    let mut ended = started;
    for i in 0..items.len() {
        if !ends_by(fates[i], ended, time, last) {
            return ended;
        }
        ended = walk_missing(tlb, cells, root, want, items, fates, i, ended, time);
        if is_failing(fates[i]) {
            return ended;
        }
    }
    ended
}
