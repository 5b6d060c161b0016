//! Trees that are too deep.

ghost use Rattle.std.specs.Prelude.{◌≡◌, nat_lt, length};
ghost use Rattle.std.specs.List.{list_any};
ghost use Rattle.md_text.specs.Rules.{is_deep};

use crate::moves::Filled;
use rtl_tree::{Place, is_within};

/// The greatest depth of a tree of a row; a leaf has depth 1.
const GREATEST_DEPTH: u32 = 8;

fn is_deep(filled: &Filled) -> bool
    ensures { result ≡ is_deep filled.now.assign }
{
    let place = match &filled.assign.to {
        Place::Cell(_) => true,
        Place::Mem(_, address) => is_within(address, GREATEST_DEPTH - 1),
    };
    !(place && is_within(&filled.assign.value, GREATEST_DEPTH))
}

/// Whether a tree of a transfer is too deep.
pub fn has_deep(transfer: &[Filled]) -> bool
    ensures { result ≡ list_any (λ f. is_deep f.assign) transfer.now }
{
    transfer.iter().any(|filled| is_deep(filled))
}
