ghost use Rattle.std.specs.Prelude.{◌≡◌, map};
ghost use Rattle.vx_base.specs.Numbers.{field};
ghost use Rattle.vx_source.specs.Vtypes.{vtype_words, vtype_word, has_words};

/// A field of vtype (RISC-V "V" 1.0, section 3.4).
#[derive(Clone, Copy, PartialEq, Eq, Debug)]
pub enum VtypeField {
    /// vsew: the width of elements.
    Sew,
    /// vlmul: the registers of a group.
    Lmul,
    /// vta: what becomes of elements past vl.
    Tail,
    /// vma: what becomes of elements that are masked off.
    Mask,
}

impl VtypeField {
    /// The words of its numbers, from 0 on; an empty one where a number is reserved.
    #[tactic(auto, unfolding(crate::specs::Vtypes::vtype_words))]
    pub fn words(self) -> &'static [&'static str]
        ensures { map (λ word. word.now) result.now ≡ (vtype_words self).words }
    {
        match self {
            VtypeField::Sew => &["e8", "e16", "e32", "e64"],
            VtypeField::Lmul => &["m1", "m2", "m4", "m8", "", "mf8", "mf4", "mf2"],
            VtypeField::Tail => &["tu", "ta"],
            VtypeField::Mask => &["mu", "ma"],
        }
    }

    /// The bit from which on it stands in vtype.
    #[tactic(auto, unfolding(crate::specs::Vtypes::vtype_words))]
    pub fn low(self) -> u32
        ensures { result ≡ (vtype_words self).low }
    {
        match self {
            VtypeField::Sew => 3,
            VtypeField::Lmul => 0,
            VtypeField::Tail => 6,
            VtypeField::Mask => 7,
        }
    }

    /// Its number in a vtype.
    #[tactic(auto, unfolding(crate::specs::Vtypes::vtype_words))]
    fn number(self, vtype: u64) -> u64
        ensures { result ≡ field vtype (vtype_words self).low (vtype_words self).count }
    {
        match self {
            VtypeField::Sew => (vtype >> 3) % 8,
            VtypeField::Lmul => vtype % 8,
            VtypeField::Tail => (vtype >> 6) % 2,
            VtypeField::Mask => (vtype >> 7) % 2,
        }
    }
}

/// Whether each field of a vtype has a word, and it has no other bits.
pub fn has_words(vtype: u64) -> bool
    ensures { result ≡ has_words vtype }
{
    vtype < 256 && vtype % 8 != 4 && (vtype >> 3) % 8 <= 3
}

/// The word of a field in a vtype; an empty one where it has none.
pub fn vtype_word(field: VtypeField, vtype: u64) -> &'static str
    ensures { result.now ≡ vtype_word field vtype }
{
    match field.words().get(field.number(vtype) as usize) {
        Some(word) => word,
        None => "",
    }
}
