//! Which rule is told, and at which line.

ghost use Rattle.std.specs.Prelude.{◌≡◌, ◌≢◌, ◌<◌, ◌≤◌, ◌⊎◌, IfOk};
ghost use Rattle.md_text.specs.Accepted.{number_of, HasBroken, HasBadHeading, HasWrongRoles};
ghost use Rattle.md_text.specs.Heading.{breaks_heading};
ghost use Rattle.md_text.specs.Numbered.{IsNumbered};
ghost use Rattle.md_forms.specs.Seen.{declarations_of, declared_of};
ghost use Rattle.md_forms.specs.SeenRules.{rule_of};
ghost use Rattle.md_rules.specs.Least.{IsLeast};
ghost use Rattle.md_rules.specs.Broken.{BreaksBy, IsFirst};

use crate::lines::{LineRule, least_line};
use crate::roles::has_roles;
use md_forms::{Declared, Rule, Told};
use rtl_tree::NoMemory;
use std::alloc::Global;

/// How many lines the heading has.
const HEADING: usize = 6;

/// The least line at which the heading isn't six lines in their order.
fn heading_line(alloc: Global, declared: &Declared) -> Result<Option<u32>, NoMemory>
    requires { IsNumbered (declared_of declared.now) }
    ensures { IfOk result (IsLeast (HasBadHeading (declared_of declared.now))) }
{
    let elsewhere = least_line(alloc, LineRule::HeadingOrder, declared)?;
    Ok(heading_or_last(declared, elsewhere))
}

fn heading_or_last(declared: &Declared, elsewhere: Option<u32>) -> Option<u32>
    requires numbered { IsNumbered (declared_of declared.now) }
    requires least { IsLeast (HasBroken breaks_heading (declarations_of declared.now.all)) elsewhere }
    ensures { IsLeast (HasBadHeading (declared_of declared.now)) result }
{
    match elsewhere {
        Some(line) => Some(line),
        None => {
            if declared.all.len() < HEADING {
                Some(declared.last)
            } else {
                None
            }
        }
    }
}

/// The last line, where the registers haven't the roles that they should have.
fn roles_line(declared: &Declared) -> Option<u32>
    ensures { IsLeast (HasWrongRoles (declared_of declared.now)) result }
{
    if has_roles(declared.all.as_slice()) {
        None
    } else {
        Some(declared.last)
    }
}

/// The least line at which a rule of the declarations alone is broken.
fn rule_line(alloc: Global, rule: Rule, declared: &Declared) -> Result<Option<u32>, NoMemory>
    requires numbered { IsNumbered (declared_of declared.now) }
    requires transfer { number_of (rule_of rule) ≢ 10 }
    requires rows { number_of (rule_of rule) < 13 }
    ensures { IfOk result (IsLeast (BreaksBy (rule_of rule) (declared_of declared.now))) }
{
    match rule {
        Rule::BadHeading => heading_line(alloc, declared),
        Rule::OutOfRange => least_line(alloc, LineRule::OutOfRange, declared),
        Rule::DeclaredTwice => least_line(alloc, LineRule::DeclaredTwice, declared),
        Rule::NotDeclared => least_line(alloc, LineRule::NotDeclared, declared),
        Rule::ReservedName => least_line(alloc, LineRule::ReservedName, declared),
        Rule::WrongRoles => Ok(roles_line(declared)),
        Rule::MisusedHole => least_line(alloc, LineRule::MisusedHole, declared),
        Rule::ModeInMode => least_line(alloc, LineRule::ModeInMode, declared),
        Rule::BadByte | Rule::OtherVersion | Rule::NoForm => Ok(None),
        Rule::BadTransfer | Rule::TooLarge | Rule::TooMany => Ok(None),
    }
}

/// The rule of a number.
fn rule_of_number(number: u32) -> Rule
    requires low { 1 ≤ number }
    requires high { number ≤ 14 }
    ensures { number_of (rule_of result) ≡ number }
{
    match number {
        1 => Rule::BadByte,
        2 => Rule::OtherVersion,
        3 => Rule::NoForm,
        4 => Rule::BadHeading,
        5 => Rule::OutOfRange,
        6 => Rule::DeclaredTwice,
        7 => Rule::NotDeclared,
        8 => Rule::ReservedName,
        9 => Rule::WrongRoles,
        10 => Rule::BadTransfer,
        11 => Rule::MisusedHole,
        12 => Rule::ModeInMode,
        13 => Rule::TooLarge,
        _ => Rule::TooMany,
    }
}

/// The first of the rules from `low` to below `high` that is broken.
fn first_told(
    alloc: Global,
    declared: &Declared,
    low: u32,
    high: u32,
) -> Result<Option<Told>, NoMemory>
    requires numbered { IsNumbered (declared_of declared.now) }
    requires low { 1 ≤ low }
    requires high { high ≤ 13 }
    requires transfer { (high ≤ 10) ⊎ (10 < low) }
    ensures { IfOk result (IsFirst low high (declared_of declared.now)) }
{
    for number in low..high {
        let rule = rule_of_number(number);
        if let Some(line) = rule_line(alloc, rule, declared)? {
            return Ok(Some(Told { rule, line }));
        }
    }
    Ok(None)
}

/// The first broken rule of those up to the roles of registers.
pub fn told_before_transfers(alloc: Global, declared: &Declared) -> Result<Option<Told>, NoMemory>
    requires { IsNumbered (declared_of declared.now) }
    ensures { IfOk result (IsFirst 1 10 (declared_of declared.now)) }
{
    first_told(alloc, declared, 1, 10)
}

/// The first broken rule of those on the use of holes.
pub fn told_of_holes(alloc: Global, declared: &Declared) -> Result<Option<Told>, NoMemory>
    requires { IsNumbered (declared_of declared.now) }
    ensures { IfOk result (IsFirst 11 13 (declared_of declared.now)) }
{
    first_told(alloc, declared, 11, 13)
}
