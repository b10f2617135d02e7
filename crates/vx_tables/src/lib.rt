//! What translation means: where the pages of a process are, the page tables that stand for it, the walk through them, and
//! the caches of translations.
//!
//! The crate is its definitions (`specs/`); its functions have no code, and each states a law of them. It stands on the
//! physical memory of `vx_cells` and on the mapped pages of `vx_image`. The crates above cite it: `vx_walk` builds and walks
//! the tables, `vx_tlb` keeps translations. That a walk through tables is the page map is proved here, so that no definition
//! above looks at an entry of a table.
#![tactic(auto)]

mod laws;
mod look;
mod stage;
mod walked;

pub use laws::{
    a_walk_is_the_page_map, a_written_leaf_moves_its_page, examples_hold, pages_are_granted,
    steps_follow_the_tables, tables_are_built_in_turn, tables_elsewhere_stay,
    walks_go_side_by_side,
};
pub use look::Look;
pub use stage::{Stage, TableEntry};
pub use walked::Walked;
