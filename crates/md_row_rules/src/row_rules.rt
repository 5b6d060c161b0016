//! The least line whose rows break a rule of rows.

ghost use Rattle.std.specs.Prelude.{◌≡◌, ◌↔◌, IsTrue, List};
ghost use Rattle.md_text.specs.Expansion.{Expanded as Row};
ghost use Rattle.md_expand.specs.Expanded.{IsExpanded, AllExpanded};
ghost use Rattle.md_rules.specs.Least.{IsLeast};
ghost use Rattle.md_row_rules.specs.RowRules.{IsBroken, HasBrokenAmong, sooner};

use crate::transfers::has_good_transfer;
use md_expand::{Expanded, is_too_large};

/// A rule of rows without modes.
#[derive(Clone, Copy, Debug, PartialEq, Eq)]
pub enum RowRule {
    BadTransfer,
    TooLarge,
}

fn is_broken(rule: RowRule, row: &Expanded) -> bool
    ensures { (r : Row) → IsExpanded r row.now → IsTrue result ↔ IsBroken rule r }
{
    match rule {
        RowRule::BadTransfer => !has_good_transfer(row),
        RowRule::TooLarge => is_too_large(row),
    }
}

/// The lesser of a line and the least so far.
fn sooner(least: Option<u32>, line: u32) -> u32
    ensures { result ≡ sooner least line }
{
    match least {
        Some(least) => least.min(line),
        None => line,
    }
}

/// The least line from which a row came that breaks the rule.
pub fn least_row_line(rule: RowRule, rows: &[Expanded]) -> Option<u32>
    ensures { (rs : List Row) → AllExpanded rs rows.now → IsLeast (HasBrokenAmong rule rs) result }
{
    let mut least = None;
    for row in rows {
        if is_broken(rule, row) {
            least = Some(sooner(least, row.line));
        }
    }
    least
}
