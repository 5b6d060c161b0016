//! The rule that a text breaks at its least line.

ghost use Rattle.std.specs.Prelude.{◌≡◌, IfOk, List, true};
ghost use Rattle.md_rows.specs.declared.description.RawDescription.{RawDescription as SpecDescription};
ghost use Rattle.asm_row.specs.Readable.{IsReadable};
ghost use Rattle.asm_program.specs.TextLines.{Said as SpecSaid, lines_of};
ghost use Rattle.asm_program.specs.Places.{start as first_position};
ghost use Rattle.asm_program.specs.Rules.{AreSaid, IsTold, first_is_long, is_blank};
ghost use Rattle.asm_labels.specs.Tables.{AreLabels};
ghost use Rattle.asm_faults.specs.Counts.{IsSmall, Shows};
ghost use Rattle.asm_faults.specs.Checks.{IsJudged, IsWalked};

use crate::checking::{is_within, line_fault};
use crate::positions::Standing;
use asm_labels::{Labels, is_skipped, labels_of, said_on, split_line};
use asm_program::law::says_one_thing;
use asm_program::{Part, Place, Rule};
use asm_row::RowIndex;
use md_rows::RawDescription;
use rtl_tree::NoMemory;
use std::alloc::Global;
use std::collections::HashSet;

/// A line, counted from 1, and the rule that is told of it.
pub type Told = (usize, Rule);

fn is_blank(text: &[u8]) -> bool
    ensures { result ≡ is_blank text.now }
{
    let (_, mut rest) = text.split_at(0);
    while !rest.is_empty() {
        let (line, behind) = split_line(rest);
        if !is_skipped(line) {
            return false;
        }
        rest = behind;
    }
    true
}

fn first_is_long(text: &[u8]) -> bool
    ensures { result ≡ first_is_long (lines_of text.now) }
{
    if text.is_empty() {
        return false;
    }
    let (line, _) = split_line(text);
    line.len() > 640
}

fn blank_fault(text: &[u8]) -> Told
    requires blank { is_blank text.now ≡ true }
    ensures { (d : SpecDescription) → IsTold d text.now result.0 result.1 }
{
    if first_is_long(text) {
        (1, Rule::BadTokens)
    } else {
        (1, Rule::Misplaced)
    }
}

fn start<'t>(alloc: Global) -> Standing<'t>
    ensures shows { Shows result first_position }
    ensures small { IsSmall result }
    ensures line { result.place.line ≡ 0 }
{
    Standing {
        place: Place {
            line: 0,
            part: Part::Outside,
        },
        count: 0,
        reach: 0,
        names: HashSet::new(alloc),
    }
}

// The first line from which a rule is told, of a text with a line that isn't skipped.
fn first_fault(
    alloc: Global,
    d: &RawDescription,
    rows: &RowIndex<'_>,
    labels: &Labels<'_>,
    text: &[u8],
) -> Result<Option<Told>, NoMemory>
    requires readable { IsReadable d.now }
    requires rows { rows.now ≡ d.now }
    ensures { IfOk result (λ told. (all : List SpecSaid) → AreSaid text.now all → AreLabels all labels.now → IsWalked d.now all told) }
{
    says_one_thing();
    let bytes = (d.word / 8) as usize;
    let mut at = start(alloc);
    let (_, mut rest) = text.split_at(0);
    while !rest.is_empty() {
        let (line, behind) = split_line(rest);
        let said = said_on(line);
        let number = at.place.line + 1;
        if let Some(rule) = line_fault(d, rows, labels, &at, said, line) {
            return Ok(Some((number, rule)));
        }
        at = at.after(bytes, said, line)?;
        if !is_within(d, &at) {
            return Ok(Some((number, Rule::PassesLimit)));
        }
        rest = behind;
    }
    Ok(None)
}

/// The line and the rule that are told of a text, or none where it keeps the rules. An index has the rows of the description.
pub fn fault_of(
    alloc: Global,
    d: &RawDescription,
    rows: &RowIndex<'_>,
    text: &[u8],
) -> Result<Option<Told>, NoMemory>
    requires readable { IsReadable d.now }
    requires rows { rows.now ≡ d.now }
    ensures { IfOk result (λ told. IsJudged d.now text.now told) }
{
    says_one_thing();
    if is_blank(text) {
        return Ok(Some(blank_fault(text)));
    }
    let labels = labels_of(alloc, text)?;
    first_fault(alloc, d, rows, &labels, text)
}
