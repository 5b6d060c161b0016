//! What is counted before a line.

ghost use Rattle.std.specs.Prelude.{◌≡◌, ◌+◌, ◌<◌, ◌≤◌, ◌^◌, ℕ, IfOk, List, filter_map, option_map};
ghost use Rattle.asm_token.specs.Tokens.{Token as SpecToken};
ghost use Rattle.asm_token.specs.Seen.{token_of};
ghost use Rattle.asm_row.specs.Walk.{IsLine};
ghost use Rattle.asm_program.specs.declared.places.Part.TheVariants.{InData};
ghost use Rattle.asm_program.specs.Places.{Position, after, aligned, count_after, reach_after, reach_in, symbol_in, symbols_on, with_name, with_names};
ghost use Rattle.asm_program.specs.TextLines.{Labelled};
ghost use Rattle.asm_labels.specs.Seen.{OnOthers, label_of, seen};
ghost use Rattle.asm_faults.specs.Counts.{HoldsNames, IsSmall, Shows, space_in, with_some};

use asm_labels::{Label, Said, part_after};
use asm_program::{Part, Place};
use asm_row::{Next, next_token};
use asm_token::token::Token;
use rtl_tree::NoMemory;
use std::collections::HashSet;

/// The place of a line, the number of instructions before it, how far the data reach, and the different names with `_` so far.
#[derive(Drop)]
pub(crate) struct Standing<'t> {
    pub place: Place,
    pub count: usize,
    pub reach: usize,
    pub names: HashSet<&'t [u8]>,
}

fn symbol_in(token: Token<'_>) -> Option<&[u8]>
    ensures { option_map (λ name. name.now) result ≡ symbol_in (token_of token.entry) }
{
    let Token::Name(name) = token else {
        return None;
    };
    match name {
        [b'_', symbol @ ..] => Some(symbol),
        _ => None,
    }
}

fn with_name<'t>(
    mut names: HashSet<&'t [u8]>,
    name: &'t [u8],
) -> Result<HashSet<&'t [u8]>, NoMemory>
    ensures { IfOk result (λ more. (ns : List (List ℕ)) → HoldsNames ns names.entry → HoldsNames (with_name ns name.now) more) }
{
    names.insert(name)?;
    Ok(names)
}

fn with_some<'t>(
    names: HashSet<&'t [u8]>,
    name: Option<&'t [u8]>,
) -> Result<HashSet<&'t [u8]>, NoMemory>
    ensures { IfOk result (λ more. (ns : List (List ℕ)) → HoldsNames ns names.entry → HoldsNames (with_some ns (option_map (λ x. x.now) name.entry)) more) }
{
    match name {
        Some(name) => with_name(names, name),
        None => Ok(names),
    }
}

// The names with `_` of a line of tokens, without it.
fn with_symbols<'t>(
    mut names: HashSet<&'t [u8]>,
    line: &'t [u8],
) -> Result<HashSet<&'t [u8]>, NoMemory>
    ensures { IfOk result (λ more. (ns : List (List ℕ)) (ts : List SpecToken) → HoldsNames ns names.entry → IsLine line.now ts → HoldsNames (with_names ns (filter_map symbol_in ts)) more) }
{
    let (_, mut rest) = line.split_at(0);
    loop {
        match next_token(rest) {
            Next::End => return Ok(names),
            Next::Bad => return Ok(names),
            Next::Token(token, behind) => {
                names = with_some(names, symbol_in(token))?;
                rest = behind;
            }
        }
    }
}

fn with_names<'t>(
    names: HashSet<&'t [u8]>,
    said: Said<'t>,
    line: &'t [u8],
) -> Result<HashSet<&'t [u8]>, NoMemory>
    ensures { IfOk result (λ more. (ns : List (List ℕ)) (ts : List SpecToken) → HoldsNames ns names.entry → OnOthers said.entry (IsLine line.now ts) → HoldsNames (with_names ns (symbols_on (seen said.entry ts))) more) }
{
    match said {
        Said::Labelled(label) => with_label(names, label),
        Said::Others => with_symbols(names, line),
        _ => Ok(names),
    }
}

fn with_label<'t>(names: HashSet<&'t [u8]>, label: Label<'t>) -> Result<HashSet<&'t [u8]>, NoMemory>
    ensures { IfOk result (λ more. (ns : List (List ℕ)) → HoldsNames ns names.entry → HoldsNames (with_names ns (symbols_on (Labelled (label_of label.entry)))) more) }
{
    match label {
        Label::Symbol(name) => with_name(names, name),
        Label::Block(_) => Ok(names),
    }
}

fn aligned(bytes: usize, reach: usize) -> usize
    requires bytes { (0 < bytes) × (bytes ≤ 4) }
    requires reach { reach < 4294967296 }
    ensures value { result ≡ aligned bytes reach }
    ensures near { result < reach + bytes }
{
    bytes * ((reach + (bytes - 1)) / bytes)
}

fn reach_after(bytes: usize, reach: usize, said: Said<'_>) -> usize
    requires bytes { (0 < bytes) × (bytes ≤ 4) }
    requires reach { reach < 4294967296 }
    requires size { space_in said < 4294967296 }
    ensures { (ts : List SpecToken) → result ≡ reach_after bytes reach (seen said.entry ts) }
{
    match said {
        Said::Labelled(_) => aligned(bytes, reach),
        Said::Word(_) => aligned(bytes, reach) + bytes,
        Said::Byte(_) => reach + 1,
        Said::Space(number) => reach + number.unsigned_abs() as usize,
        _ => reach,
    }
}

fn reach_in(part: Part, bytes: usize, reach: usize, said: Said<'_>) -> usize
    requires bytes { (0 < bytes) × (bytes ≤ 4) }
    requires reach { reach < 4294967296 }
    requires size { part ≡ InData → space_in said < 4294967296 }
    ensures { (ts : List SpecToken) → result ≡ reach_in part bytes reach (seen said.entry ts) }
{
    match part {
        Part::InData => reach_after(bytes, reach, said),
        _ => reach,
    }
}

fn count_after(part: Part, count: usize, said: Said<'_>) -> usize
    requires few { count ≤ 1000000 }
    ensures { (ts : List SpecToken) → result ≡ count_after part count (seen said.entry ts) }
{
    match (part, said) {
        (Part::InText, Said::Others) => count + 1,
        _ => count,
    }
}

impl<'t> Standing<'t> {
    /// What stands before the next line.
    pub(crate) fn after(
        self,
        bytes: usize,
        said: Said<'t>,
        line: &'t [u8],
    ) -> Result<Standing<'t>, NoMemory>
        requires bytes { (0 < bytes) × (bytes ≤ 4) }
        requires small { IsSmall self }
        requires line { self.place.line + 1 < 2 ^ 64 }
        requires size { self.place.part ≡ InData → space_in said < 4294967296 }
        ensures line { IfOk result (λ h. h.place.line ≡ self.entry.place.line + 1) }
        ensures shows { IfOk result (λ h. (p : Position) (ts : List SpecToken) → Shows self.entry p → OnOthers said.entry (IsLine line.now ts) → Shows h (after bytes p (seen said.entry ts))) }
    {
        let Standing {
            place,
            count,
            reach,
            names,
        } = self;
        let names = with_names(names, said, line)?;
        Ok(Standing {
            place: Place {
                line: place.line + 1,
                part: part_after(place.part, said),
            },
            count: count_after(place.part, count, said),
            reach: reach_in(place.part, bytes, reach, said),
            names,
        })
    }
}
