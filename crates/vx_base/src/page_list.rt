ghost use Rattle.std.specs.Prelude.{◌≡◌, ◌↔◌, [], length, slice_get, option_copied, IsTrue};
ghost use Rattle.vx_base.specs.Pages.{IsPageList};

use crate::perm::PageEntry;
use std::marker::Model;

/// Mapped pages in rising order, each once: below page 2^26, with permissions among R, W and X, where W stands beside R
/// and without X.
#[derive(Debug, Drop)]
pub struct PageList {
    items: Vec<PageEntry>,
}

impl Model for PageList {
    ghost use Rattle.std.specs.Prelude.{List};
    ghost use Rattle.vx_base.specs.declared.perm.PageEntry.{PageEntry};
    ghost use Rattle.vx_base.specs.Pages.{IsPageList};

    ghost Value = { List PageEntry };

    ghost view = { λ p. p.items.items };

    ghost invariant = { λ p. IsPageList p.items.items };
}

impl PageList {
    /// The list of a vector of pages. Takes no memory.
    pub fn of(items: Vec<PageEntry>) -> Self
        requires { IsPageList items.items }
        ensures { result ≡ items.items }
    {
        PageList { items }
    }

    /// How many pages there are.
    pub fn len(&self) -> usize
        ensures count { result ≡ length self.now }
        ensures kept { IsPageList self.now }
    {
        self.items.len()
    }

    /// Whether there are none.
    pub fn is_empty(&self) -> bool
        ensures { IsTrue result ↔ (self.now ≡ []) }
    {
        self.items.is_empty()
    }

    /// Page `n`, from 0; `None` exactly where `n` isn't below the length.
    pub fn get(&self, n: usize) -> Option<&PageEntry>
        ensures item { option_copied result ≡ slice_get self.now n }
        ensures kept { IsPageList self.now }
    {
        self.items.get(n)
    }

    /// The vector of the pages. Takes no memory.
    pub fn into_vec(self) -> Vec<PageEntry>
        ensures pages { result.items ≡ self }
        ensures kept { IsPageList result.items }
    {
        let PageList { items } = self;
        items
    }
}
