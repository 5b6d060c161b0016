//! What a text is read by.

use rtl_spelling::OpenHole;
use rtl_tree::Names;

/// The bits of a word, the names, and the holes that may be filled.
#[derive(Clone, Copy)]
pub struct Context<'a> {
    pub bits: u32,
    pub names: &'a Names,
    pub holes: &'a [OpenHole],
}
