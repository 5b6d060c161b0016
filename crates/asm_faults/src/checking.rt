//! The rule that a line breaks.

ghost use Rattle.std.specs.Prelude.{◌≡◌, ◌+◌, ◌-◌, ◌<◌, ◌≤◌, ◌^◌, ◌↔◌, IfNone, IsTrue, List};
ghost use Rattle.rtl_word.specs.Words.{IsWordSize};
ghost use Rattle.asm_token.specs.Tokens.{Token as SpecToken};
ghost use Rattle.asm_row.specs.Readable.{IsReadable};
ghost use Rattle.asm_row.specs.Walk.{IsLine};
ghost use Rattle.asm_program.specs.declared.places.Part.TheVariants.{InData, InText};
ghost use Rattle.asm_program.specs.TextLines.{Said as SpecSaid, Unreadable};
ghost use Rattle.asm_program.specs.Places.{Position, magnitude};
ghost use Rattle.asm_program.specs.Rules.{IsWithin, StandsAt, instruction_limit, is_between, is_dotted, is_in_place};
ghost use Rattle.asm_labels.specs.Seen.{OnOthers, label_of, seen};
ghost use Rattle.asm_labels.specs.Tables.{AreLabels};
ghost use Rattle.asm_faults.specs.Counts.{IsSmall, Shows, space_in};
ghost use Rattle.asm_faults.specs.Checks.{IsChecked, IsFirstHere};

use crate::instructions::row_fault;
use crate::positions::Standing;
use asm_labels::{Label, Labels, Said};
use asm_program::{Part, Rule};
use asm_row::{Next, RowIndex, next_token};
use asm_token::token::Token;
use md_rows::RawDescription;

// From -low on, and below high.
fn is_between(low: u64, high: u64, number: i64) -> bool
    ensures { result ≡ is_between low high number }
{
    let size = number.unsigned_abs();
    if number < 0 { size <= low } else { size < high }
}

fn is_dotted(line: &[u8]) -> bool
    ensures { (ts : List SpecToken) → IsLine line.now ts → result ≡ is_dotted ts }
{
    match next_token(line) {
        Next::Token(Token::Name(name), _) => matches!(name, [b'.', ..]),
        _ => false,
    }
}

fn is_word_in_range(word: u32, number: i64) -> bool
    requires size { IsWordSize word }
    ensures { result ≡ is_between (2 ^ (word - 1)) (2 ^ word) number }
{
    if word == 16 {
        is_between(0x8000, 0x1_0000, number)
    } else {
        is_between(0x8000_0000, 0x1_0000_0000, number)
    }
}

fn is_space(number: i64) -> bool
    ensures value { result ≡ is_between 0 16777217 number }
    ensures near { IsTrue result → magnitude number < 4294967296 }
{
    is_between(0, 16_777_217, number)
}

fn is_in_data(word: u32, said: Said<'_>) -> bool
    requires size { IsWordSize word }
    ensures near { IsTrue result → space_in said.entry < 4294967296 }
    ensures place { (ts : List SpecToken) → result ≡ is_in_place word InData (seen said.entry ts) }
{
    match said {
        Said::Nothing | Said::Unreadable | Said::Labelled(_) => true,
        Said::Word(number) => is_word_in_range(word, number),
        Said::Byte(number) => is_between(128, 256, number),
        Said::Space(number) => is_space(number),
        _ => false,
    }
}

fn is_in_text(word: u32, said: Said<'_>, line: &[u8]) -> bool
    ensures { (ts : List SpecToken) → OnOthers said.entry (IsLine line.now ts) → result ≡ is_in_place word InText (seen said.entry ts) }
{
    match said {
        Said::Nothing | Said::Unreadable | Said::DataBegins | Said::Labelled(_) => true,
        Said::Others => !is_dotted(line),
        _ => false,
    }
}

fn is_in_place(word: u32, part: Part, said: Said<'_>, line: &[u8]) -> bool
    requires size { IsWordSize word }
    ensures near { IsTrue result → part ≡ InData → space_in said.entry < 4294967296 }
    ensures place { (ts : List SpecToken) → OnOthers said.entry (IsLine line.now ts) → result ≡ is_in_place word part (seen said.entry ts) }
{
    match part {
        Part::Outside => matches!(said, Said::Nothing | Said::Unreadable | Said::TextBegins),
        Part::InText => is_in_text(word, said, line),
        Part::InData => is_in_data(word, said),
    }
}

fn stands_at(labels: &Labels<'_>, label: Label<'_>, line: usize) -> bool
    ensures { (all : List SpecSaid) → AreLabels all labels.now → (IsTrue result ↔ StandsAt all (label_of label.entry) line) }
{
    match labels.find(label) {
        Some(place) => place.line == line,
        None => false,
    }
}

// Whether each label of a line stands first at this place.
fn is_first_here(labels: &Labels<'_>, said: Said<'_>, line: usize) -> bool
    ensures { (all : List SpecSaid) (ts : List SpecToken) → AreLabels all labels.now → (IsTrue result ↔ IsFirstHere all line (seen said.entry ts)) }
{
    match said {
        Said::Labelled(label) => stands_at(labels, label, line),
        _ => true,
    }
}

fn is_unreadable(said: Said<'_>) -> bool
    ensures { (ts : List SpecToken) → (IsTrue result ↔ (seen said.entry ts ≡ Unreadable)) }
{
    matches!(said, Said::Unreadable)
}

// The rule of those before the limits that a line breaks.
pub(crate) fn line_fault(
    d: &RawDescription,
    rows: &RowIndex<'_>,
    labels: &Labels<'_>,
    at: &Standing<'_>,
    said: Said<'_>,
    line: &[u8],
) -> Option<Rule>
    requires readable { IsReadable d.now }
    requires rows { rows.now ≡ d.now }
    ensures near { IfNone result (at.now.place.part ≡ InData → space_in said.entry < 4294967296) }
    ensures checked { (all : List SpecSaid) (p : Position) (ts : List SpecToken) → AreLabels all labels.now → Shows at.now p → OnOthers said.entry (IsLine line.now ts) → IsChecked d.now all p (seen said.entry ts) result }
{
    if is_unreadable(said) {
        return Some(Rule::BadTokens);
    }
    if !is_first_here(labels, said, at.place.line) {
        return Some(Rule::StandsAlready);
    }
    if !is_in_place(d.word, at.place.part, said, line) {
        return Some(Rule::Misplaced);
    }
    match said {
        Said::Others => row_fault(rows, labels, line),
        _ => None,
    }
}

fn statics_fit(d: &RawDescription, reach: usize) -> bool
    ensures fit { IsTrue result ↔ (d.now.base + reach ≤ d.now.memory - d.now.stack) }
    ensures near { IsTrue result → reach < 4294967296 }
{
    let end = u64::from(d.memory.saturating_sub(d.stack));
    match end.checked_sub(u64::from(d.base)) {
        Some(room) => reach as u64 <= room,
        None => false,
    }
}

fn instruction_limit(word: u32) -> usize
    ensures limit { result ≡ instruction_limit word }
    ensures most { result ≤ 1000000 }
{
    if word == 16 { 65_535 } else { 1_000_000 }
}

pub(crate) fn is_within(d: &RawDescription, at: &Standing<'_>) -> bool
    ensures within { (p : Position) → Shows at.now p → (IsTrue result ↔ IsWithin d.now p) }
    ensures small { IsTrue result → IsSmall at.now }
{
    at.count <= instruction_limit(d.word) && statics_fit(d, at.reach) && at.names.len() <= 65_000
}
