ghost use Rattle.std.specs.Prelude.{◌≡◌, ℕ, ◌+◌, ◌*◌, ◌<◌, ◌^◌, ◌%◌};
ghost use Rattle.vx_packed.specs.Joined.{lane, joined};

/// Law: the elements of a word that was joined are those of which it was, and no bit lies above them; a word is that of its
/// elements; words of elements that agree in the bits of their width are one; and elements in two lots lie one lot above
/// the other.
pub fn joined_by_elements()
    ensures element { (width n : ℕ) (f : ℕ → ℕ) (k : ℕ) → k < n → lane width (joined width n f) k ≡ f k % 2 ^ width }
    ensures below { (width n : ℕ) (f : ℕ → ℕ) → joined width n f < 2 ^ (n * width) }
    ensures whole { (width n word : ℕ) → joined width n (lane width word) ≡ word % 2 ^ (n * width) }
    ensures same { (width n : ℕ) (f g : ℕ → ℕ) → ((k : ℕ) → k < n → f k % 2 ^ width ≡ g k % 2 ^ width) → joined width n f ≡ joined width n g }
    ensures beside { (width n m : ℕ) (f : ℕ → ℕ) → joined width (n + m) f ≡ joined width n f + joined width m (λ k. f (n + k)) * 2 ^ (n * width) }
{}
