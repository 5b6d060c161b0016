//! A name with what it stands for.

use c_typing::Meaning;

/// What a name stands for, and the number of its declaration.
#[derive(Clone, Copy, PartialEq, Eq, Debug)]
pub struct Known {
    pub means: Meaning,
    pub number: usize,
}

/// A name that is declared, with what it stood for before.
#[derive(Clone, Copy)]
pub struct Kept<'a> {
    pub name: &'a [u8],
    pub known: Known,
    pub hidden: Option<Known>,
}
