//! The rules of assembly texts.

/// A rule that a line of a text breaks.
#[derive(Clone, Copy, Debug, PartialEq, Eq)]
pub enum Rule {
    /// Bytes that aren't tokens, or a line above 640 bytes.
    BadTokens,
    /// An instruction that no row makes.
    NoRow,
    /// A label that stands already.
    StandsAlready,
    /// A named label that isn't in its part.
    NotInPart,
    /// A directive or label that is misspelt, out of range or out of place, or no `.text`.
    Misplaced,
    /// A limit is passed.
    PassesLimit,
}
