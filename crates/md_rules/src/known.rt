//! What is declared before a line.

ghost use Rattle.std.specs.Prelude.{◌≡◌, ◌+◌, ◌∷◌, ◌++◌, ◌||◌, ◌==◌, ◌<◌, ℕ, List, [], map, take, length, IfOk};
ghost use Rattle.std.specs.List.{list_any};
ghost use Rattle.std.specs.Str.{bytes_eq};
ghost use Rattle.md_text.specs.Pieces.{has_name};
ghost use Rattle.md_text.specs.Declarations.{registers_in, flags_in, class_names, mode_names};
ghost use Rattle.md_forms.specs.Seen.{form_of, declarations_of};
ghost use Rattle.md_rules.specs.Names.{has_bytes, numbered_of, register_keys, flag_keys, register_key, flag_key, names_class, names_mode};

use crate::names::{Numbered, has_either, has_number, has_numbered_name, is_among, with_name};
use md_forms::{Declaration, Form};
use rtl_tree::NoMemory;
use std::alloc::Global;
use std::collections::HashSet;

/// Declarations, with what they declare ready to be found.
#[derive(Drop)]
pub struct Known<'a> {
    pub before: &'a [Declaration],
    registers: Vec<Numbered<'a>>,
    flags: Vec<Numbered<'a>>,
    classes: HashSet<&'a [u8]>,
    modes: HashSet<&'a [u8]>,
    ghost has_registers: { map numbered_of registers.items ≡ register_keys (declarations_of before.now) },
    ghost has_flags: { map numbered_of flags.items ≡ flag_keys (declarations_of before.now) },
    ghost has_classes: { (name : List ℕ) → has_bytes classes name ≡ has_name (class_names (declarations_of before.now)) name },
    ghost has_modes: { (name : List ℕ) → has_bytes modes name ≡ has_name (mode_names (declarations_of before.now)) name },
}

fn with_register<'a>(
    mut registers: Vec<Numbered<'a>>,
    form: &'a Form,
) -> Result<Vec<Numbered<'a>>, NoMemory>
    ensures { IfOk result (λ more. map numbered_of more.items ≡ map numbered_of registers.entry.items ++ register_key (form_of form.now)) }
{
    match form {
        Form::RegisterLine { number, name, .. } => registers.push(Numbered {
            number: number.unsigned_abs(),
            name: name.as_slice(),
        })?,
        _ => {}
    }
    Ok(registers)
}

fn with_flag<'a>(
    mut flags: Vec<Numbered<'a>>,
    form: &'a Form,
) -> Result<Vec<Numbered<'a>>, NoMemory>
    ensures { IfOk result (λ more. map numbered_of more.items ≡ map numbered_of flags.entry.items ++ flag_key (form_of form.now)) }
{
    match form {
        Form::FlagLine { number, name } => flags.push(Numbered {
            number: number.unsigned_abs(),
            name: name.as_slice(),
        })?,
        _ => {}
    }
    Ok(flags)
}

fn with_class<'a>(classes: HashSet<&'a [u8]>, form: &'a Form) -> Result<HashSet<&'a [u8]>, NoMemory>
    ensures { IfOk result (λ more. (name : List ℕ) → has_bytes more name ≡ (has_bytes classes.entry name || names_class (form_of form.now) name)) }
{
    match form {
        Form::ClassLine { name, .. } => with_name(classes, name.as_slice()),
        _ => Ok(classes),
    }
}

fn with_mode<'a>(modes: HashSet<&'a [u8]>, form: &'a Form) -> Result<HashSet<&'a [u8]>, NoMemory>
    ensures { IfOk result (λ more. (name : List ℕ) → has_bytes more name ≡ (has_bytes modes.entry name || names_mode (form_of form.now) name)) }
{
    match form {
        Form::ModeLine { name, .. } => with_name(modes, name.as_slice()),
        _ => Ok(modes),
    }
}

impl<'a> Known<'a> {
    /// Nothing is known.
    pub fn new(alloc: Global) -> Known<'a>
        ensures { result.before.now ≡ [] }
    {
        Known {
            before: &[],
            registers: Vec::new(alloc),
            flags: Vec::new(alloc),
            classes: HashSet::new(alloc),
            modes: HashSet::new(alloc),
        }
    }

    /// What is known with the next of all declarations.
    pub fn with_next(self, all: &'a [Declaration]) -> Result<Known<'a>, NoMemory>
        requires front { self.before.now ≡ take (length self.before.now) all.now }
        requires more { length self.before.now < length all.now }
        ensures { IfOk result (λ known. known.before.now ≡ take (length self.entry.before.now + 1) all.now) }
    {
        let Known {
            before,
            registers,
            flags,
            classes,
            modes,
        } = self;
        let form = &all[before.len()].form;
        let registers = with_register(registers, form)?;
        let flags = with_flag(flags, form)?;
        let classes = with_class(classes, form)?;
        let modes = with_mode(modes, form)?;
        Ok(Known {
            before: &all[..before.len() + 1],
            registers,
            flags,
            classes,
            modes,
        })
    }

    pub fn has_register(&self, number: u64) -> bool
        ensures { result ≡ list_any (λ r. r.number == number) (registers_in (declarations_of self.now.before.now)) }
    {
        has_number(&self.registers, number)
    }

    pub fn has_register_name(&self, name: &[u8]) -> bool
        ensures { result ≡ list_any (λ r. bytes_eq r.name name.now) (registers_in (declarations_of self.now.before.now)) }
    {
        has_numbered_name(&self.registers, name)
    }

    pub fn has_flag(&self, number: u64) -> bool
        ensures { result ≡ list_any (λ f. f.number == number) (flags_in (declarations_of self.now.before.now)) }
    {
        has_number(&self.flags, number)
    }

    /// Whether a register has this number or this name.
    pub fn is_register(&self, number: u64, name: &[u8]) -> bool
        ensures { result ≡ list_any (λ r. r.number == number || bytes_eq r.name name.now) (registers_in (declarations_of self.now.before.now)) }
    {
        has_either(&self.registers, number, name)
    }

    /// Whether a flag has this number or this name.
    pub fn is_flag(&self, number: u64, name: &[u8]) -> bool
        ensures { result ≡ list_any (λ f. f.number == number || bytes_eq f.name name.now) (flags_in (declarations_of self.now.before.now)) }
    {
        has_either(&self.flags, number, name)
    }

    pub fn has_class(&self, name: &[u8]) -> bool
        ensures { result ≡ has_name (class_names (declarations_of self.now.before.now)) name.now }
    {
        is_among(&self.classes, name)
    }

    pub fn has_mode(&self, name: &[u8]) -> bool
        ensures { result ≡ has_name (mode_names (declarations_of self.now.before.now)) name.now }
    {
        is_among(&self.modes, name)
    }
}
