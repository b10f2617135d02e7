/// A field of a header, in the types of ELF64: 2, 4 or 8 bytes, least first.
#[derive(Clone, Copy, Debug)]
pub enum Field {
    Half(u16),
    Word(u32),
    Xword(u64),
}
