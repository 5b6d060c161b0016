//! Where the lines of a text stand.

/// A part of an assembly text.
#[derive(Clone, Copy, Debug, PartialEq, Eq)]
pub enum Part {
    /// Before the line `.text`.
    Outside,
    InText,
    InData,
}

/// A line, counted from 0, and the part that it is in.
#[derive(Clone, Copy, Debug, PartialEq, Eq)]
pub struct Place {
    pub line: usize,
    pub part: Part,
}
