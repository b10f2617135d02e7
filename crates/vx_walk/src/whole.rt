ghost use Rattle.vx_tables.specs.Residency.{Residency};
ghost use Rattle.vx_tables.specs.Tables.{AreHeld};
ghost use Rattle.vx_tables.specs.Walking.{HaveTables, Walks};
ghost use Rattle.vx_tables.specs.Walks.{walk_port};
ghost use Rattle.std.specs.Prelude.{◌≡◌};

use crate::walker::Walker;
use vx_base::Want;
use vx_cells::{Cells, Port, accesses_are_made_in_turn};
use vx_tables::{Walked, steps_follow_the_tables, walks_go_side_by_side};

/// The port of a walk: `FetchWalk` where a fetch is wanted, else `Walk`.
fn port_of(want: Want) -> Port
    ensures { result ≡ walk_port want }
{
    match want {
        Want::Fetch => Port::FetchWalk,
        Want::Load | Want::Store => Port::Walk,
    }
}

/// Walks the page tables of a process, whose root is in frame `root`, for an address, with all its accesses at the current
/// cycle, on port `FetchWalk` where a fetch is wanted and else on port `Walk` (RISC-V Privileged 1.12, sections 4.3.2 and 4.4).
/// The cells hold the tables. A is set, and D for a store, where the page is present and grants the access. An address that
/// isn't canonical is Denied without an access.
pub fn walk<C: Cells>(cells: &mut C, root: u32, address: u64, want: Want) -> Walked
    requires { HaveTables (C.state cells.old) root }
    ensures { (residency : Residency) → AreHeld (C.state cells.old) root residency
        → Walks (C.state cells.old) (C.state cells.new) residency root address want result }
{
    accesses_are_made_in_turn();
    steps_follow_the_tables();
    walks_go_side_by_side();
    let mut walker = Walker::begin(root, address, want, port_of(want));
    loop {
        if let Some(answer) = walker.tick(cells) {
            return answer;
        }
    }
}
