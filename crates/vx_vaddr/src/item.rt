ghost use Rattle.std.specs.Prelude.{◌≡◌, ◌<◌, ◌≤◌, [], ◌∷◌, ◌++◌, length, slice_get, option_copied};

use std::marker::Model;

/// An access of a vector load or store.
#[derive(Clone, Copy, PartialEq, Eq, Debug)]
pub struct Item {
    /// The element.
    pub element: u32,
    /// Its field, from 0, below 8.
    pub field: u8,
    /// Where it begins in memory.
    pub address: u64,
    /// Bytes: 1, 2, 4 or 8.
    pub width: u8,
    /// The vector register from whose first byte on `byte` is counted.
    pub register: u8,
    /// Where it begins there; it may lie in a later register.
    pub byte: u32,
}

/// No access.
const NONE: Item = Item {
    element: 0,
    field: 0,
    address: 0,
    width: 0,
    register: 0,
    byte: 0,
};

/// At most 8 accesses, in their order.
#[derive(Debug, Drop)]
pub struct AccessList {
    items: [Item; 8],
    count: usize,
}

impl Model for AccessList {
    ghost use Rattle.std.specs.Prelude.{List, take, ◌≤◌};
    ghost use Rattle.vx_vaddr.specs.declared.item.Item.{Item};

    ghost Value = { List Item };

    ghost view = { λ l. take l.count l.items };

    ghost invariant = { λ l. l.count ≤ 8 };
}

impl AccessList {
    /// No accesses.
    pub fn new() -> AccessList
        ensures { result ≡ [] }
    {
        AccessList {
            items: [NONE; 8],
            count: 0,
        }
    }

    /// How many accesses there are, 8 at most.
    pub fn len(&self) -> usize
        ensures is { result ≡ length self.now }
        ensures in_range { result ≤ 8 }
    {
        self.items[..self.count].len()
    }

    /// Access `n`, from 0; `None` exactly where `n` isn't below the length.
    pub fn get(&self, n: usize) -> Option<&Item>
        ensures { option_copied result ≡ slice_get self.now n }
    {
        self.slice().get(n)
    }

    /// All the accesses.
    #[inline(always)]
    pub fn slice(&self) -> &[Item]
        ensures { result.now ≡ self.now }
    {
        &self.items[..self.count]
    }

    /// Takes all accesses out.
    #[inline(always)]
    pub(crate) fn clear(&mut self)
        ensures { self.new ≡ [] }
    {
        self.count = 0;
    }

    /// Adds an access behind the others.
    #[inline(always)]
    pub(crate) fn push(&mut self, item: Item)
        requires { length self.old < 8 }
        ensures { self.new ≡ self.old ++ item ∷ [] }
    {
        self.items[self.count] = item;
        self.count += 1;
    }
}
