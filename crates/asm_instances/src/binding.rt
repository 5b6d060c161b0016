//! What is bound to the values of a line.

ghost use Rattle.std.specs.Prelude.{◌≡◌, ◌≤◌, All, IfOk, List, Some, length};
ghost use Rattle.asm_token.specs.Tokens.{Token};
ghost use Rattle.asm_row.specs.Line.{HasNumber};
ghost use Rattle.asm_row.specs.Reading.{AreValues, value_in};
ghost use Rattle.asm_row.specs.Readable.{IsReadable};
ghost use Rattle.asm_row.specs.Found.{value_of, values_of};
ghost use Rattle.asm_row.specs.Walk.{IsLine};
ghost use Rattle.asm_instances.specs.Known.{IsBoundLine, IsKnown, IsKnownLine};

use asm_row::{RowIndex, Value};
use md_rows::{Binding, Bound, Instance};
use rtl_tree::{Cell, Lab, Names, NoMemory};
use smallvec::SmallVec;
use std::alloc::Global;

fn bound_of(names: &Names, value: Value<'_>) -> Bound
    requires known { IsKnown names.now (value_of value) }
    ensures value { value_in names.now result ≡ Some (value_of value.entry) }
    ensures number { HasNumber result }
{
    match value {
        Value::Register(number) => Bound::Reg(Cell::Hard(number)),
        Value::Number(word) => Bound::Num(word),
        Value::Object(name) => match names.objects.find(name) {
            Some(place) => Bound::Sym(place),
            None => unreachable!(),
        },
        Value::Block(number) => Bound::Label(Lab::Block(number)),
        Value::Function(name) => match names.functions.find(name) {
            Some(place) => Bound::Label(Lab::Function(place)),
            None => unreachable!(),
        },
    }
}

fn bind(alloc: Global, names: &Names, values: &[Value<'_>]) -> Result<Binding, NoMemory>
    requires known { All (IsKnown names.now) (values_of values.now) }
    requires few { length values.now ≤ 8 }
    ensures values { IfOk result (λ b. AreValues names.now b (values_of values.now)) }
    ensures numbers { IfOk result (λ b. All HasNumber b) }
{
    let mut list = SmallVec::new(alloc);
    for value in values {
        let bound = bound_of(names, *value);
        list.push(bound)?;
    }
    Ok(Binding { list })
}

/// The instance of a line of an instruction whose names all have numbers.
pub fn instance_of(
    alloc: Global,
    rows: &RowIndex<'_>,
    names: &Names,
    line: &[u8],
) -> Result<Instance, NoMemory>
    requires readable { IsReadable rows.now }
    requires known { (ts : List Token) × (k : IsKnownLine rows.now names.now ts) × IsLine line.now ts }
    ensures { IfOk result (λ i. (ts : List Token) → IsLine line.now ts → IsBoundLine rows.now names.now ts i) }
{
    let _ = (names.objects.len(), names.functions.len());
    match rows.find(line) {
        Some((row, values)) => {
            let binding = bind(alloc, names, values.as_slice())?;
            Ok(Instance { row, binding })
        }
        None => unreachable!(),
    }
}
