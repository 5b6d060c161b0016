//! The first line that breaks a rule.

ghost use Rattle.std.specs.Prelude.{◌≡◌, ◌<◌, ◌≤◌, [], length, IfOk};
ghost use Rattle.rtl_word.specs.Words.{IsWordSize};
ghost use Rattle.md_text.specs.Rules.{has_misused_hole, has_mode_in_mode};
ghost use Rattle.md_text.specs.Accepted.{HasBroken};
ghost use Rattle.md_text.specs.Numbered.{IsNumbered};
ghost use Rattle.md_forms.specs.Seen.{form_of, declarations_of, declared_of};
ghost use Rattle.md_rules.specs.Least.{IsLeast, first_broken};
ghost use Rattle.md_rules.specs.Tests.{test_of};

use crate::heading::{breaks_heading, is_out_of_range};
use crate::known::Known;
use crate::reserved::has_reserved_name;
use crate::slots::{has_mode_slot, misuses_hole};
use crate::uses::{is_declared_twice, is_undeclared};
use md_forms::{Declared, Form};
use rtl_tree::NoMemory;
use std::alloc::Global;

/// A rule that is a test of a line and those before it.
#[derive(Clone, Copy, Debug, PartialEq, Eq)]
pub enum LineRule {
    HeadingOrder,
    OutOfRange,
    DeclaredTwice,
    NotDeclared,
    ReservedName,
    MisusedHole,
    ModeInMode,
}

fn has_misused_hole(known: &Known<'_>, form: &Form) -> bool
    ensures { result ≡ has_misused_hole (declarations_of known.now.before.now) (form_of form.now) }
{
    match form {
        Form::ModeLine { text, tree, .. } => {
            misuses_hole(text.as_slice(), tree.names.as_slice())
        }
        Form::RowLine { text, transfer } => {
            misuses_hole(text.as_slice(), transfer.names.as_slice())
        }
        _ => false,
    }
}

fn has_mode_in_mode(known: &Known<'_>, form: &Form) -> bool
    ensures { result ≡ has_mode_in_mode (declarations_of known.now.before.now) (form_of form.now) }
{
    match form {
        Form::ModeLine { text, .. } => has_mode_slot(known, text.as_slice()),
        _ => false,
    }
}

fn is_broken(rule: LineRule, width: u32, known: &Known<'_>, form: &Form) -> bool
    requires { IsWordSize width }
    ensures { result ≡ test_of rule width (declarations_of known.now.before.now) (form_of form.now) }
{
    match rule {
        LineRule::HeadingOrder => breaks_heading(known.before, form),
        LineRule::OutOfRange => is_out_of_range(width, known.before, form),
        LineRule::DeclaredTwice => is_declared_twice(known, form),
        LineRule::NotDeclared => is_undeclared(known, form),
        LineRule::ReservedName => has_reserved_name(known.before, form),
        LineRule::MisusedHole => has_misused_hole(known, form),
        LineRule::ModeInMode => has_mode_in_mode(known, form),
    }
}

fn first_broken(alloc: Global, rule: LineRule, declared: &Declared) -> Result<Option<u32>, NoMemory>
    requires { IsWordSize declared.now.width }
    ensures { IfOk result (λ line. line ≡ first_broken (test_of rule declared.now.width) [] (declarations_of declared.now.all)) }
{
    let all = declared.all.as_slice();
    let mut known = Known::new(alloc);
    for declaration in all {
        if is_broken(rule, declared.width, &known, &declaration.form) {
            return Ok(Some(declaration.line));
        }
        known = known.with_next(all)?;
    }
    Ok(None)
}

/// The least line at which a rule is broken.
pub fn least_line(
    alloc: Global,
    rule: LineRule,
    declared: &Declared,
) -> Result<Option<u32>, NoMemory>
    requires { IsNumbered (declared_of declared.now) }
    ensures { IfOk result (IsLeast (HasBroken (test_of rule declared.now.width) (declarations_of declared.now.all))) }
{
    first_broken(alloc, rule, declared)
}
