ghost use Rattle.std.specs.Prelude.{◌≡◌, ℕ, List, length, slice_get, option_copied, IsUtf8, string_bytes, IsTrue, ◌↔◌, []};

use std::marker::Model;

/// A text: a list of bytes that is UTF-8 (RFC 3629).
#[derive(Debug, Drop)]
pub struct Text {
    items: Vec<u8>,
}

impl Model for Text {
    ghost Value = { List ℕ };

    ghost view = { λ t. t.items.items };

    ghost invariant = { λ t. IsUtf8 t.items.items };
}

impl Text {
    /// The text of a vector of bytes. Takes no memory.
    pub fn of(items: Vec<u8>) -> Self
        requires { IsUtf8 items.items }
        ensures { result ≡ items.items }
    {
        Text { items }
    }

    /// How many bytes there are.
    pub fn len(&self) -> usize
        ensures { result ≡ length self.now }
    {
        self.items.len()
    }

    /// Whether there are none.
    pub fn is_empty(&self) -> bool
        ensures { IsTrue result ↔ (self.now ≡ []) }
    {
        self.items.is_empty()
    }

    /// Byte `n`, from 0; `None` exactly where `n` isn't below the length.
    pub fn get(&self, n: usize) -> Option<&u8>
        ensures { option_copied result ≡ slice_get self.now n }
    {
        self.items.get(n)
    }

    /// All the bytes, which are UTF-8.
    pub fn slice(&self) -> &[u8]
        ensures bytes { result.now ≡ self.now }
        ensures utf8 { IsUtf8 self.now }
    {
        self.items.as_slice()
    }

    /// The vector of the bytes. Takes no memory.
    pub fn into_vec(self) -> Vec<u8>
        ensures bytes { result.items ≡ self }
        ensures utf8 { IsUtf8 result.items }
    {
        let Text { items } = self;
        items
    }
}
