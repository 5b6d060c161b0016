//! The row of an instruction, and whether each label that it names is in its part.

ghost use Rattle.std.specs.Prelude.{◌↔◌, IsTrue, List};
ghost use Rattle.std.specs.List.{AllByRecursion};
ghost use Rattle.asm_token.specs.Tokens.{Token};
ghost use Rattle.asm_row.specs.Readable.{IsReadable};
ghost use Rattle.asm_row.specs.Walk.{IsLine};
ghost use Rattle.asm_row.specs.Found.{value_of, values_of};
ghost use Rattle.asm_program.specs.TextLines.{Said as SpecSaid};
ghost use Rattle.asm_program.specs.Rules.{IsPlaced, StandsIn};
ghost use Rattle.asm_labels.specs.Seen.{label_of};
ghost use Rattle.asm_labels.specs.Tables.{AreLabels};
ghost use Rattle.asm_faults.specs.Checks.{IsRowChecked};

use asm_labels::{Label, Labels};
use asm_program::{Part, Rule};
use asm_row::{RowIndex, Value};

fn stands_in(labels: &Labels<'_>, label: Label<'_>, part: Part) -> bool
    ensures { (all : List SpecSaid) → AreLabels all labels.now → (IsTrue result ↔ StandsIn all (label_of label.entry) part) }
{
    match labels.find(label) {
        Some(place) => place.part == part,
        None => false,
    }
}

fn is_placed(labels: &Labels<'_>, value: Value<'_>) -> bool
    ensures { (all : List SpecSaid) → AreLabels all labels.now → (IsTrue result ↔ IsPlaced all (value_of value.entry)) }
{
    match value {
        Value::Object(name) => stands_in(labels, Label::Symbol(name), Part::InData),
        Value::Function(name) => stands_in(labels, Label::Symbol(name), Part::InText),
        Value::Block(block) => stands_in(labels, Label::Block(block), Part::InText),
        Value::Register(_) | Value::Number(_) => true,
    }
}

fn are_placed(labels: &Labels<'_>, values: &[Value<'_>]) -> bool
    ensures { (all : List SpecSaid) → AreLabels all labels.now → (IsTrue result ↔ AllByRecursion (IsPlaced all) (values_of values.now)) }
{
    match values {
        [] => true,
        [value, rest @ ..] => is_placed(labels, *value) && are_placed(labels, rest),
    }
}

/// The rule that an instruction breaks by its row or its labels.
pub(crate) fn row_fault(rows: &RowIndex<'_>, labels: &Labels<'_>, line: &[u8]) -> Option<Rule>
    requires readable { IsReadable rows.now }
    ensures { (all : List SpecSaid) (ts : List Token) → AreLabels all labels.now → IsLine line.now ts → IsRowChecked rows.now all ts result }
{
    match rows.find(line) {
        None => Some(Rule::NoRow),
        Some((_, values)) => {
            if are_placed(labels, values.as_slice()) {
                None
            } else {
                Some(Rule::NotInPart)
            }
        }
    }
}
