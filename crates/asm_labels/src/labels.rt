//! The labels of a text, and where each stands first.

ghost use Rattle.std.specs.Prelude.{◌≡◌, IfOk, List, None};
ghost use Rattle.asm_token.specs.Tokens.{Token};
ghost use Rattle.asm_program.specs.TextLines.{Block as BlockLabel, Label as SpecLabel, Symbol as SymbolLabel};
ghost use Rattle.asm_program.specs.Places.{is_label_line, part_after, same_label};
ghost use Rattle.asm_labels.specs.Seen.{label_of, seen};
ghost use Rattle.asm_labels.specs.Tables.{AreLabelsOf, kept, place_in};

use crate::saying::{Label, Said, said_on};
use crate::splitting::split_line;
use asm_program::{Part, Place};
use rtl_tree::NoMemory;
use std::alloc::Global;
use std::collections::HashMap;

/// Where labels stand first.
#[derive(Drop)]
pub struct Labels<'t> {
    blocks: HashMap<u32, Place>,
    symbols: HashMap<&'t [u8], Place>,
}

impl<'t> Labels<'t> {
    fn new(alloc: Global) -> Labels<'t>
        ensures { (l : SpecLabel) → place_in result l ≡ None }
    {
        Labels {
            blocks: HashMap::new(alloc),
            symbols: HashMap::new(alloc),
        }
    }

    /// Where a label stands first.
    pub fn find(&self, label: Label<'_>) -> Option<Place>
        ensures { result ≡ place_in self.now (label_of label.entry) }
    {
        match label {
            Label::Block(block) => self.blocks.get(&block).copied(),
            Label::Symbol(symbol) => self.symbols.get(symbol).copied(),
        }
    }
}

// A label that doesn't stand yet, at its place.
fn with_block<'t>(mut labels: Labels<'t>, block: u32, place: Place) -> Result<Labels<'t>, NoMemory>
    requires new { place_in labels (BlockLabel block) ≡ None }
    ensures { IfOk result (λ more. (l : SpecLabel) → place_in more l ≡ kept (place_in labels.entry l) (same_label (BlockLabel block) l) place) }
{
    labels.blocks.insert(block, place)?;
    Ok(labels)
}

fn with_symbol<'t>(
    mut labels: Labels<'t>,
    symbol: &'t [u8],
    place: Place,
) -> Result<Labels<'t>, NoMemory>
    requires new { place_in labels (SymbolLabel symbol.now) ≡ None }
    ensures { IfOk result (λ more. (l : SpecLabel) → place_in more l ≡ kept (place_in labels.entry l) (same_label (SymbolLabel symbol.now) l) place) }
{
    labels.symbols.insert(symbol, place)?;
    Ok(labels)
}

fn with_new<'t>(labels: Labels<'t>, label: Label<'t>, place: Place) -> Result<Labels<'t>, NoMemory>
    requires new { place_in labels (label_of label) ≡ None }
    ensures { IfOk result (λ more. (l : SpecLabel) → place_in more l ≡ kept (place_in labels.entry l) (same_label (label_of label.entry) l) place) }
{
    match label {
        Label::Block(block) => with_block(labels, block, place),
        Label::Symbol(symbol) => with_symbol(labels, symbol, place),
    }
}

// Labels, with one that is met at a place, where it wasn't met before.
fn with_label<'t>(
    labels: Labels<'t>,
    label: Label<'t>,
    place: Place,
) -> Result<Labels<'t>, NoMemory>
    ensures { IfOk result (λ more. (l : SpecLabel) → place_in more l ≡ kept (place_in labels.entry l) (same_label (label_of label.entry) l) place) }
{
    match labels.find(label) {
        Some(_) => Ok(labels),
        None => with_new(labels, label, place),
    }
}

fn with_said<'t>(labels: Labels<'t>, said: Said<'t>, place: Place) -> Result<Labels<'t>, NoMemory>
    ensures { IfOk result (λ more. (ts : List Token) (l : SpecLabel) → place_in more l ≡ kept (place_in labels.entry l) (is_label_line l (seen said.entry ts)) place) }
{
    match said {
        Said::Labelled(label) => with_label(labels, label, place),
        _ => Ok(labels),
    }
}

pub fn part_after(part: Part, said: Said<'_>) -> Part
    ensures { (ts : List Token) → result ≡ part_after part (seen said.entry ts) }
{
    match (part, said) {
        (Part::Outside, Said::TextBegins) => Part::InText,
        (Part::InText, Said::DataBegins) => Part::InData,
        _ => part,
    }
}

/// Where each label of a text stands first.
pub fn labels_of(alloc: Global, text: &[u8]) -> Result<Labels<'_>, NoMemory>
    ensures { IfOk result (λ labels. AreLabelsOf text.now labels) }
{
    let mut labels = Labels::new(alloc);
    let mut place = Place {
        line: 0,
        part: Part::Outside,
    };
    let (_, mut rest) = text.split_at(0);
    while !rest.is_empty() {
        let (line, behind) = split_line(rest);
        let said = said_on(line);
        labels = with_said(labels, said, place)?;
        place = Place {
            line: place.line + 1,
            part: part_after(place.part, said),
        };
        rest = behind;
    }
    Ok(labels)
}
