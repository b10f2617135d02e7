/// Some bytes of a source, one behind another: from the offset `start` to before the offset `end`, each counted from 0.
/// Where both are the same it has no byte.
#[derive(Clone, Copy, PartialEq, Eq, Debug)]
pub struct Span {
    /// The offset of the first byte.
    pub start: u64,
    /// The offset behind the last byte.
    pub end: u64,
}

/// What a token of the assembler's language is.
#[derive(Clone, Copy, PartialEq, Eq, Debug)]
pub enum TokenKind {
    /// A letter, `_` or `.`, and letters, digits, `_` and `.` behind it.
    Name,
    /// A decimal or hexadecimal number, with `-` before it where it is negative.
    Number,
    /// A text between double quotes.
    Quoted,
    /// A comma, a parenthesis or a colon.
    Mark,
    /// The end of a line.
    Newline,
}

/// A token of a source.
#[derive(Clone, Copy, PartialEq, Eq, Debug)]
pub struct Token {
    /// What it is.
    pub kind: TokenKind,
    /// Where it stands.
    pub span: Span,
}

/// What a piece of a source is. Every source is its pieces, one behind another.
#[derive(Clone, Copy, PartialEq, Eq, Debug)]
pub enum PieceKind {
    /// A token.
    Good(TokenKind),
    /// A token with a fault: a number out of range, or a text with another escape or without an end.
    Bad(TokenKind),
    /// A byte with which no token begins.
    Stray,
    /// A space, a tab or a comment.
    Blank,
}

/// What a piece of a source can be, by its first byte.
#[derive(Clone, Copy, PartialEq, Eq, Debug)]
pub enum Beginning {
    /// A newline.
    Line,
    /// A space or a tab.
    Gap,
    /// A comment, which `#` begins.
    Comment,
    /// A mark.
    Sign,
    /// A text, which `"` begins.
    Text,
    /// A name.
    Word,
    /// A number without sign.
    Digits,
    /// A number, or nothing: `-`.
    Negative,
    /// Nothing: no piece but the byte itself begins with it.
    Nothing,
}
