//! The marks of a text.

/// A mark: a byte, the two bytes of an arrow, or the end of the text, which counts as a token and has no bytes.
#[derive(Clone, Copy, Debug, PartialEq, Eq)]
pub enum Sign {
    Space,
    LeftBracket,
    RightBracket,
    LeftParen,
    RightParen,
    Semicolon,
    Equals,
    Plus,
    Minus,
    Star,
    Ampersand,
    Bar,
    Caret,
    Question,
    Less,
    Greater,
    Arrow,
    End,
}
