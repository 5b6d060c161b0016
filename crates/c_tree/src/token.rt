//! Tokens and their places.

use sqlite_items::Items;

/// A place in a text. Lines and columns count from 1, columns in bytes.
#[derive(Clone, Copy, PartialEq, Eq, Debug)]
pub struct At {
    pub line: u32,
    pub column: u32,
}

/// What a token is (C11 6.4), with its spelling where that isn't fixed by the variant.
#[derive(Debug, Drop)]
pub enum TokenKind {
    Name(Items<u8>),
    Keyword(Items<u8>),
    /// An integer constant. The value is 2^32 for every greater number. `decimal` tells the
    /// notation (C11 6.4.4.1), and `unsigned` whether it has the suffix `u` or `U`.
    Number {
        value: u64,
        decimal: bool,
        unsigned: bool,
    },
    /// A character constant, read as a signed char.
    Character(i32),
    /// An operator or a punctuator.
    Mark(Items<u8>),
    /// The line `#include <stdio.h>`.
    Include,
    /// The end of the text, which stands after the last byte.
    End,
}

/// A token and the place of its first byte.
#[derive(Debug, Drop)]
pub struct Token {
    pub kind: TokenKind,
    pub at: At,
}
