//! The most rows of a description.

ghost use Rattle.std.specs.Prelude.{◌≡◌, take};
ghost use Rattle.std.specs.Option.{option_copied};
ghost use Rattle.md_text.specs.Expansion.{expansions};
ghost use Rattle.md_text.specs.Accepted.{HasTooMany};
ghost use Rattle.md_forms.specs.Seen.{declarations_of, declared_of};
ghost use Rattle.md_rules.specs.Least.{IsLeast};
ghost use Rattle.md_expand.specs.Expanded.{AllExpanded, line_of};

use crate::expanded::Expanded;
use md_forms::Declared;
use sqlite_items::at;

/// The most rows that a description may have without modes.
pub const MOST_ROWS: usize = 4096;

fn line_of(row: Option<&Expanded>) -> Option<u32>
    ensures { result ≡ line_of (option_copied row.entry) }
{
    match row {
        Some(row) => Some(row.line),
        None => None,
    }
}

/// The line of the first row past the most, by the first `MOST_ROWS + 1` rows.
pub fn passing_line(declared: &Declared, rows: &[Expanded]) -> Option<u32>
    requires { AllExpanded (take 4097 (expansions declared.now.width (declarations_of declared.now.all))) rows.now }
    ensures { IsLeast (HasTooMany (declared_of declared.now)) result }
{
    line_of(at(rows, MOST_ROWS))
}
