//! Which rule is told of what a text declares.

ghost use Rattle.std.specs.Prelude.{◌≡◌, ◌≤◌, ◌+◌, ℕ, take, IfOk};
ghost use Rattle.md_text.specs.Accepted.{number_of};
ghost use Rattle.md_text.specs.Declarations.{Declared as AllSaid};
ghost use Rattle.md_text.specs.Numbered.{IsNumbered};
ghost use Rattle.md_text.specs.Expansion.{expansions};
ghost use Rattle.md_forms.specs.Seen.{declarations_of, declared_of};
ghost use Rattle.md_forms.specs.SeenRules.{rule_of};
ghost use Rattle.md_rules.specs.Least.{IsLeast};
ghost use Rattle.md_rules.specs.Broken.{BreaksBy, IsFirst};
ghost use Rattle.md_expand.specs.Expanded.{AllExpanded};
ghost use Rattle.md_row_rules.specs.RowRules.{rule_named};

use md_expand::{Expanded, MOST_ROWS, passing_line};
use md_forms::{Declared, Rule, Told};
use md_row_rules::{RowRule, least_row_line};
use md_rules::told_of_holes;
use rtl_tree::NoMemory;
use std::alloc::Global;

fn told_at(rule: Rule, line: Option<u32>) -> Option<Told>
    ensures { (d : AllSaid) → IsLeast (BreaksBy (rule_of rule) d) line → IsFirst (number_of (rule_of rule)) (number_of (rule_of rule) + 1) d result }
{
    match line {
        Some(line) => Some(Told { rule, line }),
        None => None,
    }
}

/// The first broken rule of some rules and those that follow them.
fn first_of(first: Option<Told>, second: Option<Told>) -> Option<Told>
    ensures { (low next high : ℕ) (d : AllSaid) → low ≤ next → next ≤ high → IsFirst low next d first → IsFirst next high d second → IsFirst low high d result }
{
    match first {
        Some(told) => Some(told),
        None => second,
    }
}

/// The rows that count.
fn counted(rows: &[Expanded]) -> &[Expanded]
    ensures { result.now ≡ take 4096 rows.now }
{
    &rows[..MOST_ROWS.min(rows.len())]
}

fn told_of_row(declared: &Declared, rows: &[Expanded], rule: RowRule) -> Option<u32>
    requires { AllExpanded (take 4097 (expansions declared.now.width (declarations_of declared.now.all))) rows.now }
    ensures { IsLeast (BreaksBy (rule_named rule) (declared_of declared.now)) result }
{
    least_row_line(rule, counted(rows))
}

/// The first broken rule from the transfers of rows on, by the first rows without modes, one more than there may be.
pub fn told_from_transfers(
    alloc: Global,
    declared: &Declared,
    rows: &[Expanded],
) -> Result<Option<Told>, NoMemory>
    requires numbered { IsNumbered (declared_of declared.now) }
    requires rows { AllExpanded (take 4097 (expansions declared.now.width (declarations_of declared.now.all))) rows.now }
    ensures { IfOk result (IsFirst 10 15 (declared_of declared.now)) }
{
    let transfer = told_at(
        Rule::BadTransfer,
        told_of_row(declared, rows, RowRule::BadTransfer),
    );
    let holes = told_of_holes(alloc, declared)?;
    let large = told_at(
        Rule::TooLarge,
        told_of_row(declared, rows, RowRule::TooLarge),
    );
    let many = told_at(Rule::TooMany, passing_line(declared, rows));
    Ok(first_of(transfer, first_of(holes, first_of(large, many))))
}
