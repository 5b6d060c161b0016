//! Rows that are too large.

ghost use Rattle.std.specs.Prelude.{◌≡◌, ◌||◌, nat_lt, length};
ghost use Rattle.md_text.specs.Expansion.{Expanded as Row, holes_in};
ghost use Rattle.md_text.specs.Rules.{is_too_large};
ghost use Rattle.md_expand.specs.Seen.{all_shown};
ghost use Rattle.md_expand.specs.Expanded.{IsExpanded, deep_within};

use crate::depths::has_deep;
use crate::expanded::Expanded;
use crate::moves::Filled;
use crate::shown::Shown;

/// The most holes of a row.
const MOST_HOLES: usize = 8;

fn hole_count(text: &[Shown]) -> usize
    ensures { result ≡ length (holes_in (all_shown text.now)) }
{
    let mut count = 0;
    for shown in text {
        if let Shown::Vacant(_) = shown {
            count += 1;
        }
    }
    count
}

fn has_deep_tree(transfer: &Option<Vec<Filled>>) -> bool
    ensures { result ≡ deep_within transfer.now }
{
    match transfer {
        Some(moves) => has_deep(moves),
        None => false,
    }
}

fn is_large(row: &Expanded) -> bool
    ensures { result ≡ (nat_lt 8 (length (holes_in (all_shown row.now.text.items)))
        || deep_within row.now.transfer) }
{
    hole_count(&row.text) > MOST_HOLES || has_deep_tree(&row.transfer)
}

/// Whether a row has more than eight holes, or trees of more than eight levels.
pub fn is_too_large(row: &Expanded) -> bool
    ensures { (r : Row) → IsExpanded r row.now → result ≡ is_too_large r }
{
    is_large(row)
}
