//! The lines that have no transfer.

ghost use Rattle.std.specs.Prelude.{ℕ, List, ℤ, map, IfOk, IfSome, IfNone, IsErrOf};
ghost use Rattle.md_rows.specs.declared.description.Role.{Role as Named};
ghost use Rattle.md_text.specs.Forms.{HasForm, IsNameLine, IsNumberLine, IsRegisterLine, IsFlagLine, IsClassLine};
ghost use Rattle.md_forms.specs.Seen.{form_of};
ghost use Rattle.md_parser.specs.ClassNames.{SpacesClass};

use crate::fault::FormFault;
use crate::owned::owned_names;
use md_forms::Form;
use md_lines::{NameFault, after_word, is_name, number, read_names, role, split_at_byte};
use md_rows::Role;
use sqlite_items::Items;
use std::alloc::Global;

/// The name that stands behind a word.
pub fn name_line(alloc: Global, line: &[u8], word: &[u8]) -> Result<Items<u8>, FormFault>
    ensures found { IfOk result (λ name. IsNameLine word.now line.now name) }
    ensures refused { IsErrOf result FormFault.NoForm → (name : List ℕ) → IsNameLine word.now line.now name → ⊥ }
{
    let Some(rest) = after_word(line, word) else {
        return Err(FormFault::NoForm);
    };
    if !is_name(rest) {
        return Err(FormFault::NoForm);
    }
    let name = Items::from_slice(alloc, rest)?;
    Ok(name)
}

/// The number that stands behind a word.
pub fn number_line(line: &[u8], word: &[u8]) -> Result<i64, FormFault>
    ensures found { IfOk result (λ z. IsNumberLine word.now line.now z) }
    ensures refused { IsErrOf result FormFault.NoForm → (z : ℤ) → IsNumberLine word.now line.now z → ⊥ }
{
    let Some(rest) = after_word(line, word) else {
        return Err(FormFault::NoForm);
    };
    let Some(number) = number(rest) else {
        return Err(FormFault::NoForm);
    };
    Ok(number)
}

/// The parts of a register's line: its number, its name and its role.
fn register_parts(line: &[u8]) -> Option<(i64, &[u8], Role)>
    ensures found { IfSome result (λ parts. IsRegisterLine line.now parts.0 parts.1.now parts.2) }
    ensures none { IfNone result ((k : ℤ) (name : List ℕ) (role : Named) → IsRegisterLine line.now k name role → ⊥) }
{
    let rest = after_word(line, b"reg ")?;
    let (digits, rest) = split_at_byte(rest, b' ')?;
    let (name, role_text) = split_at_byte(rest, b' ')?;
    let number = number(digits)?;
    let role = role(role_text)?;
    if is_name(name) {
        Some((number, name, role))
    } else {
        None
    }
}

/// The line of a register.
pub fn register_line(alloc: Global, line: &[u8]) -> Result<Form, FormFault>
    ensures found { IfOk result (λ form. (w : ℕ) → HasForm w line.now (form_of form)) }
    ensures refused { IsErrOf result FormFault.NoForm → (k : ℤ) (name : List ℕ) (role : Named) → IsRegisterLine line.now k name role → ⊥ }
{
    let Some((number, name, role)) = register_parts(line) else {
        return Err(FormFault::NoForm);
    };
    let name = Items::from_slice(alloc, name)?;
    Ok(Form::RegisterLine { number, name, role })
}

/// The parts of a flag's line: its number and its name.
fn flag_parts(line: &[u8]) -> Option<(i64, &[u8])>
    ensures found { IfSome result (λ parts. IsFlagLine line.now parts.0 parts.1.now) }
    ensures none { IfNone result ((k : ℤ) (name : List ℕ) → IsFlagLine line.now k name → ⊥) }
{
    let rest = after_word(line, b"flag ")?;
    let (digits, name) = split_at_byte(rest, b' ')?;
    let number = number(digits)?;
    if is_name(name) {
        Some((number, name))
    } else {
        None
    }
}

/// The line of a flag.
pub fn flag_line(alloc: Global, line: &[u8]) -> Result<Form, FormFault>
    ensures found { IfOk result (λ form. (w : ℕ) → HasForm w line.now (form_of form)) }
    ensures refused { IsErrOf result FormFault.NoForm → (k : ℤ) (name : List ℕ) → IsFlagLine line.now k name → ⊥ }
{
    let Some((number, name)) = flag_parts(line) else {
        return Err(FormFault::NoForm);
    };
    let name = Items::from_slice(alloc, name)?;
    Ok(Form::FlagLine { number, name })
}

/// The names of a class's line: its own, and those of its registers.
fn class_names<'a>(alloc: Global, line: &'a [u8]) -> Result<Vec<&'a [u8]>, FormFault>
    ensures found { IfOk result (λ names. SpacesClass line.now (map (λ name. name.now) names.items)) }
    ensures refused { IsErrOf result FormFault.NoForm → (name : List ℕ) (registers : List (List ℕ)) → IsClassLine line.now name registers → ⊥ }
{
    let Some(rest) = after_word(line, b"class") else {
        return Err(FormFault::NoForm);
    };
    let names = match read_names(alloc, rest) {
        Ok(names) => names,
        Err(NameFault::NoMemory) => return Err(FormFault::NoMemory),
        Err(NameFault::NoNames) => return Err(FormFault::NoForm),
    };
    if names.len() < 2 {
        return Err(FormFault::NoForm);
    }
    Ok(names)
}

/// The line of a class.
pub fn class_line(alloc: Global, line: &[u8]) -> Result<Form, FormFault>
    ensures found { IfOk result (λ form. (w : ℕ) → HasForm w line.now (form_of form)) }
    ensures refused { IsErrOf result FormFault.NoForm → (name : List ℕ) (registers : List (List ℕ)) → IsClassLine line.now name registers → ⊥ }
{
    let names = match class_names(alloc, line) {
        Ok(names) => names,
        Err(fault) => return Err(fault),
    };
    let names = names.as_slice();
    let name = Items::from_slice(alloc, names[0])?;
    let registers = owned_names(alloc, &names[1..])?;
    Ok(Form::ClassLine { name, registers })
}
