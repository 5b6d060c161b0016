//! Labels, and the instructions at which they stand.

ghost use Rattle.std.specs.Prelude.{◌≡◌, ◌≤◌, IfOk, List};
ghost use Rattle.std.specs.List.{AllZip};
ghost use Rattle.asm_token.specs.Tokens.{Token};
ghost use Rattle.asm_program.specs.TextLines.{Said as SpecSaid};
ghost use Rattle.asm_program.specs.Programs.{IsLab, text_labels};
ghost use Rattle.asm_labels.specs.Seen.{label_of, seen};
ghost use Rattle.asm_jumps.specs.LabelPlaces.{AddsLabel, HasNumber, HasNumberIn, IsAt, IsTextOf, counted};

use asm_labels::{Label, Said, said_on, split_line};
use asm_program::law::says_one_thing;
use md_rows::RawDescription;
use rtl_tree::{Lab, Names, NoMemory};
use rtl_value::LabelAt;
use std::alloc::Global;

fn lab_of(names: &Names, label: Label<'_>) -> Lab
    requires number { HasNumber names.now (label_of label) }
    ensures { IsLab names.now (label_of label.entry) result }
{
    match label {
        Label::Block(block) => Lab::Block(block),
        Label::Symbol(name) => match names.functions.find(name) {
            Some(place) => Lab::Function(place),
            None => unreachable!(),
        },
    }
}

// With the label that a line is.
fn with_label(
    names: &Names,
    mut labels: Vec<LabelAt>,
    said: Said<'_>,
    at: u32,
) -> Result<Vec<LabelAt>, NoMemory>
    requires number { HasNumberIn names.now said }
    ensures { IfOk result (λ more. AddsLabel names.now said.entry at labels.items more.items) }
{
    match said {
        Said::Labelled(label) => {
            let label = lab_of(names, label);
            labels.push(LabelAt { label, at })?;
            Ok(labels)
        }
        _ => Ok(labels),
    }
}

fn count_after(count: u32, said: Said<'_>) -> u32
    requires few { count ≤ 1000000 }
    ensures { (ts : List Token) → result ≡ counted count (seen said.entry ts) }
{
    match said {
        Said::Others => count + 1,
        _ => count,
    }
}

/// The labels of the text part of a text that keeps the rules, in order.
pub fn labels_of(
    alloc: Global,
    d: &RawDescription,
    names: &Names,
    text: &[u8],
) -> Result<Vec<LabelAt>, NoMemory>
    requires text { (all : List SpecSaid) × IsTextOf d.now names.now text.now all }
    ensures { IfOk result (λ labels. (all : List SpecSaid) → IsTextOf d.now names.now text.now all → AllZip (IsAt names.now) (text_labels 0 all) labels.items) }
{
    says_one_thing();
    let mut labels = Vec::new(alloc);
    let mut count: u32 = 0;
    let (_, mut rest) = text.split_at(0);
    while !rest.is_empty() {
        let (line, behind) = split_line(rest);
        let said = said_on(line);
        if let Said::DataBegins = said {
            return Ok(labels);
        }
        labels = with_label(names, labels, said, count)?;
        count = count_after(count, said);
        rest = behind;
    }
    Ok(labels)
}
