//! What a transfer is printed by.

use rtl_tree::Names;

/// The bits of a word, and the names.
#[derive(Clone, Copy)]
pub(crate) struct Context<'a> {
    pub bits: u32,
    pub names: &'a Names,
}
