//! What the program of a unit is tested for.

ghost use Rattle.std.specs.Prelude.{◌≡◌, ◌↔◌, ◌+◌, ◌≤◌, All, Contains, IsTrue, List, Some, ℕ, length, slice_get};
ghost use Rattle.rtl_word.specs.Words.{IsWordSize};
ghost use Rattle.md_rows.specs.declared.instance.Bound.TheVariants.{Label as LabelBound};
ghost use Rattle.asm_row.specs.Line.{HasNumber, IsNamed};
ghost use Rattle.asm_program.specs.Rules.{instruction_limit, name_limit};
ghost use Rattle.asm_print.specs.Printable.{labelled};
ghost use Rattle.frame_link.specs.Tested.{AreApart, IsAddressIn, IsHeld, IsLabel, IsPlaced, IsTested, assembled};

use crate::standing::Standing;
use link_lines::Written;
use md_rows::{Bound, Instance, RawDescription};
use rtl_tree::{Cell, Lab, NameList, Names};
use rtl_value::LabelAt;
use temp_code::Unit;

fn is_named(names: &Names, value: Bound) -> bool
    ensures { IsTrue result ↔ IsNamed names.now value }
{
    match value {
        Bound::Reg(Cell::Temp(_)) => false,
        Bound::Sym(object) => usize::from(object) < names.objects.len(),
        Bound::Label(Lab::Function(function)) => usize::from(function) < names.functions.len(),
        _ => true,
    }
}

fn is_held(standing: &Standing, value: Bound) -> bool
    ensures held { IsTrue result ↔ IsHeld standing.now value }
    ensures number { HasNumber value }
{
    match value {
        Bound::Label(label) => standing.has(label),
        _ => true,
    }
}

fn is_placed(names: &Names, standing: &Standing, value: Bound) -> bool
    ensures { IsTrue result → IsPlaced names.now standing.now value }
{
    is_named(names, value) && is_held(standing, value)
}

fn are_placed(names: &Names, standing: &Standing, values: &[Bound]) -> bool
    ensures { IsTrue result → All (IsPlaced names.now standing.now) values.now }
{
    values
        .iter()
        .all(|value| is_placed(names, standing, *value))
}

fn is_line(names: &Names, standing: &Standing, line: &Instance) -> bool
    ensures { IsTrue result → All (IsPlaced names.now standing.now) line.now.binding }
{
    are_placed(names, standing, line.binding.list.as_slice())
}

fn are_lines(names: &Names, standing: &Standing, lines: &[Instance]) -> bool
    ensures { IsTrue result → All (λ i. All (IsPlaced names.now standing.now) i.binding) lines.now }
{
    lines.iter().all(|line| is_line(names, standing, line))
}

fn has_function(names: &Names, label: Lab) -> bool
    ensures named { IsTrue result ↔ IsNamed names.now (LabelBound label) }
    ensures number { HasNumber (LabelBound label) }
{
    match label {
        Lab::Block(_) => true,
        Lab::Function(function) => usize::from(function) < names.functions.len(),
    }
}

fn is_label(names: &Names, count: usize, label: LabelAt) -> bool
    ensures { IsTrue result → IsLabel names.now count label }
{
    label.at as usize <= count && has_function(names, label.label)
}

fn are_labels(names: &Names, count: usize, labels: &[LabelAt]) -> bool
    ensures { IsTrue result → All (IsLabel names.now count) labels.now }
{
    labels.iter().all(|label| is_label(names, count, *label))
}

fn is_address(d: &RawDescription, bytes: &[u8], address: u32) -> bool
    requires { IsWordSize d.now.word }
    ensures { IsTrue result → IsAddressIn d.now bytes.now address }
{
    match address.checked_sub(d.base) {
        Some(offset) => offset % (d.word / 8) == 0 && offset as usize <= bytes.len(),
        None => false,
    }
}

fn are_addresses(d: &RawDescription, bytes: &[u8], symbols: &[u32]) -> bool
    requires { IsWordSize d.now.word }
    ensures { IsTrue result → All (IsAddressIn d.now bytes.now) symbols.now }
{
    symbols.iter().all(|address| is_address(d, bytes, *address))
}

// Whether no object has the name of this function.
fn is_apart(objects: &NameList, functions: &NameList, function: usize) -> bool
    ensures { IsTrue result → (name : List ℕ) → slice_get functions.now function ≡ Some name → Contains objects.now name → ⊥ }
{
    match functions.get(function) {
        Some(name) => objects.find(name).is_none(),
        None => false,
    }
}

fn are_apart(objects: &NameList, functions: &NameList) -> bool
    ensures { IsTrue result → AreApart objects.now functions.now }
{
    for function in 0..functions.len() {
        if !is_apart(objects, functions, function) {
            return false;
        }
    }
    true
}

fn function_count(labels: &[LabelAt]) -> usize
    ensures { result ≡ length (labelled labels.now) }
{
    let mut count = 0;
    for label in labels {
        if let Lab::Function(_) = label.label {
            count += 1;
        }
    }
    count
}

fn instruction_limit(word: u32) -> usize
    ensures { result ≡ instruction_limit word }
{
    if word == 16 { 65_535 } else { 1_000_000 }
}

// Whether a program has so few lines and names that its text passes no limit.
fn is_within(d: &RawDescription, names: &Names, lines: usize, labels: &[LabelAt]) -> bool
    ensures lines { IsTrue result → lines ≤ instruction_limit d.now.word }
    ensures names { IsTrue result → length names.now.objects + length (labelled labels.now) ≤ name_limit }
{
    let objects = names.objects.len();
    lines <= instruction_limit(d.word)
        && objects <= 65_000
        && function_count(labels) <= 65_000 - objects
}

/// Whether these lines and labels, with a unit's data and names, are a program that can be printed, as far as the values in its
/// instructions, its labels, its addresses and its limits go.
pub(crate) fn is_tested(
    d: &RawDescription,
    unit: &Unit,
    standing: &Standing,
    made: &Written,
) -> bool
    requires { IsWordSize d.now.word }
    ensures { IsTrue result → IsTested d.now standing.now (assembled made.now.lines.items made.now.labels.items unit.now) }
{
    let lines = made.lines.as_slice();
    let labels = made.labels.as_slice();
    are_lines(&unit.names, standing, lines)
        && are_labels(&unit.names, lines.len(), labels)
        && are_addresses(d, unit.bytes.as_slice(), unit.symbols.as_slice())
        && are_apart(&unit.names.objects, &unit.names.functions)
        && is_within(d, &unit.names, lines.len(), labels)
}
