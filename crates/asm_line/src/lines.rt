//! The reading of a line.

ghost use Rattle.std.specs.Prelude.{◌≡◌, ◌≤◌, ◌<◌, ◌+◌, All, IfOk, OnErr, OnOk, Some, length, slice_get};
ghost use Rattle.rtl_tree.specs.Names.{AreNames, IsName};
ghost use Rattle.asm_row.specs.Reading.{AreValues, value_in};
ghost use Rattle.asm_row.specs.Readable.{IsReadable};
ghost use Rattle.asm_row.specs.Found.{value_of, values_of};
ghost use Rattle.asm_line.specs.Answers.{Adds, AddsAll, Grows, HasNameValue, HasRoom, IsLineRead};

use crate::law::checked_is_readable;
use asm_row::{Value, are_tokens, find_row};
use md_check::Checked;
use md_rows::{Binding, Bound, Instance, RawDescription};
use rtl_tree::{Cell, Lab, Name, NameList, Names, NoMemory};
use rtl_word::Word;
use smallvec::SmallVec;
use std::alloc::Global;

/// Why a text is no line of a description.
#[derive(Clone, Copy, Debug, PartialEq, Eq)]
pub enum LineFault {
    NoMemory,
    /// Some bytes are no tokens.
    BadToken,
    /// No instance has these tokens.
    NoRow,
}

// The place of a name, which is added where it isn't known.
fn place_of(alloc: Global, names: &mut NameList, name: &[u8]) -> Result<u16, NoMemory>
    requires name { IsName name.now }
    requires room { length names.old < 65536 }
    ensures grows { Grows (λ m. m ≡ name.now) names.old names.new }
    ensures more { length names.new ≤ length names.old + 1 }
    ensures place { IfOk result (λ p. slice_get names.new p ≡ Some name.now) }
{
    if let Some(place) = names.find(name) {
        return Ok(place);
    }
    let place = names.len() as u16;
    names.push(Name::new(Vec::from_slice(alloc, name)?))?;
    Ok(place)
}

fn bound_of(alloc: Global, value: Value<'_>, n: &mut Names) -> Result<Bound, NoMemory>
    requires named { HasNameValue (value_of value) }
    requires room { HasRoom 1 n.old }
    ensures adds { Adds (value_of value.entry) n.old n.new }
    ensures objects { length n.new.objects ≤ length n.old.objects + 1 }
    ensures functions { length n.new.functions ≤ length n.old.functions + 1 }
    ensures bound { IfOk result (λ b. value_in n.new b ≡ Some (value_of value.entry)) }
{
    Ok(match value {
        Value::Register(number) => Bound::Reg(Cell::Hard(number)),
        Value::Number(word) => Bound::Num(word),
        Value::Object(name) => Bound::Sym(place_of(alloc, &mut n.objects, name)?),
        Value::Block(number) => Bound::Label(Lab::Block(number)),
        Value::Function(name) => {
            Bound::Label(Lab::Function(place_of(alloc, &mut n.functions, name)?))
        }
    })
}

// What is bound to the values. Names are added as they are met.
fn bind(alloc: Global, values: &[Value<'_>], n: &mut Names) -> Result<Binding, NoMemory>
    requires named { All HasNameValue (values_of values.now) }
    requires few { length values.now ≤ 8 }
    requires room { HasRoom 8 n.old }
    ensures adds { AddsAll (values_of values.now) n.old n.new }
    ensures bound { IfOk result (λ b. AreValues n.new b (values_of values.now)) }
{
    let mut list = SmallVec::new(alloc);
    for value in values {
        let bound = bound_of(alloc, *value, n)?;
        list.push(bound)?;
    }
    Ok(Binding { list })
}

// The same, where want of memory leaves the names as they were.
fn bind_all(alloc: Global, values: &[Value<'_>], n: &mut Names) -> Result<Binding, NoMemory>
    requires named { All HasNameValue (values_of values.now) }
    requires few { length values.now ≤ 8 }
    requires room { HasRoom 8 n.old }
    ensures adds { OnOk result (AddsAll (values_of values.now) n.old n.new) }
    ensures bound { IfOk result (λ b. AreValues n.new b (values_of values.now)) }
    ensures names { OnOk result (AreNames n.new.objects × AreNames n.new.functions) }
    ensures unchanged { OnErr result (n.new ≡ n.old) }
{
    let (objects, functions) = (n.objects.len(), n.functions.len());
    match bind(alloc, values, n) {
        Ok(binding) => {
            let _ = (n.objects.len(), n.functions.len());
            Ok(binding)
        }
        Err(NoMemory) => {
            n.objects.truncate(objects);
            n.functions.truncate(functions);
            Err(NoMemory)
        }
    }
}

fn read_raw(
    alloc: Global,
    d: &RawDescription,
    text: &[u8],
    n: &mut Names,
) -> Result<Instance, LineFault>
    requires readable { IsReadable d.now }
    requires objects { length n.old.objects ≤ 65000 }
    requires functions { length n.old.functions ≤ 65000 }
    ensures read { IsLineRead d.now n.old n.new text.now result }
    ensures unchanged { OnErr result (n.new ≡ n.old) }
{
    if !are_tokens(text) {
        return Err(LineFault::BadToken);
    }
    let Some((row, values)) = find_row(d, text) else {
        return Err(LineFault::NoRow);
    };
    match bind_all(alloc, values.as_slice(), n) {
        Ok(binding) => Ok(Instance { row, binding }),
        Err(NoMemory) => Err(LineFault::NoMemory),
    }
}

/// The instance of which a text is a line. Names that the line brings are added; a refusal adds none.
pub fn read_line<W: Word>(
    alloc: Global,
    m: &Checked<W>,
    text: &[u8],
    n: &mut Names,
) -> Result<Instance, LineFault>
    requires objects { length n.old.objects ≤ 65000 }
    requires functions { length n.old.functions ≤ 65000 }
    ensures read { IsLineRead m.now n.old n.new text.now result }
    ensures unchanged { OnErr result (n.new ≡ n.old) }
{
    checked_is_readable();
    let d = m.raw();
    read_raw(alloc, d, text, n)
}
