ghost use Rattle.std.specs.Prelude.{◌≡◌, ℕ, List, length, slice_get, option_copied, vec_items, IsTrue, ◌↔◌, []};

use std::marker::Model;

/// A list of bytes.
#[derive(Debug, Drop)]
pub struct Bytes {
    items: Vec<u8>,
}

impl Model for Bytes {
    ghost Value = { List ℕ };

    ghost view = { λ b. b.items.items };
}

impl Bytes {
    /// The bytes of a vector. Takes no memory.
    pub fn of(items: Vec<u8>) -> Self
        ensures { result ≡ items.items }
    {
        Bytes { items }
    }

    /// How many bytes there are.
    pub fn len(&self) -> usize
        ensures { result ≡ length self.now }
    {
        self.items.len()
    }

    /// Whether there are none.
    pub fn is_empty(&self) -> bool
        ensures { IsTrue result ↔ (self.now ≡ []) }
    {
        self.items.is_empty()
    }

    /// Byte `n`, from 0; `None` exactly where `n` isn't below the length.
    pub fn get(&self, n: usize) -> Option<&u8>
        ensures { option_copied result ≡ slice_get self.now n }
    {
        self.items.get(n)
    }

    /// All the bytes.
    pub fn slice(&self) -> &[u8]
        ensures { result.now ≡ self.now }
    {
        self.items.as_slice()
    }

    /// The vector of the bytes. Takes no memory.
    pub fn into_vec(self) -> Vec<u8>
        ensures { result.items ≡ self }
    {
        let Bytes { items } = self;
        items
    }
}
