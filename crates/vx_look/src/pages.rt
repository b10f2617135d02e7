ghost use Rattle.std.specs.Prelude.{◌≡◌, ◌<◌, ℕ, List};
ghost use Rattle.vx_image.specs.Pages.{page_of};
ghost use Rattle.vx_look.specs.Fetches.{is_away};
ghost use Rattle.vx_look.specs.Filled.{IsFilled, IsFoundBelow};
ghost use Rattle.vx_tables.specs.Caches.{Fill, filled_by};
ghost use Rattle.vx_tables.specs.Residency.{Residency};
ghost use Rattle.vx_tables.specs.Tables.{AreHeld};
ghost use Rattle.vx_tables.specs.Walking.{HaveTables, Walks};
ghost use Rattle.vx_tlb.specs.Kept.{StandsFor};

use vx_base::Want;
use vx_cells::Cells;
use vx_tables::Walked;
use vx_tlb::Tlb;
use vx_walk::walk;

/// How many bytes a page has.
pub const PAGE_BYTES: u64 = 4096;

/// Whether a walk's page is away.
pub fn is_away(walked: Walked) -> bool
    ensures { result ≡ is_away walked }
{
    match walked {
        Walked::Away => true,
        Walked::Leaf(_, _, _) | Walked::Denied => false,
    }
}

/// Walks an address, and keeps its page where it is found.
#[inline(never)]
pub fn walk_and_keep<C: Cells>(
    tlb: &mut Tlb,
    cells: &mut C,
    root: u32,
    address: u64,
    want: Want,
) -> Walked
    requires { HaveTables (C.state cells.old) root }
    ensures walks { (residency : Residency) → AreHeld (C.state cells.old) root residency
        → Walks (C.state cells.old) (C.state cells.new) residency root address want result }
    ensures kept { (fills : List Fill) → StandsFor tlb.old fills → StandsFor tlb.new (filled_by (page_of address) result fills) }
    ensures below { IsFoundBelow 16384 result }
    ensures tables { HaveTables (C.state cells.new) root }
    ensures frames { (C.state cells.new).frames ≡ (C.state cells.old).frames }
    ensures cycle { (C.state cells.new).cycle ≡ (C.state cells.old).cycle }
    ensures filled { (entries : ℕ) → IsFilled entries tlb.old → IsFilled entries tlb.new }
{
    let answer = walk(cells, root, address, want);
    tlb.learn(address / PAGE_BYTES, answer);
    answer
}
