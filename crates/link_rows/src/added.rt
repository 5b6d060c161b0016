//! The instruction of a shape that linking adds.

ghost use Rattle.std.specs.Prelude.{◌≡◌, ◌≤◌, ◌<◌, ◌++◌, [], ◌∷◌, get_or, IfOk, None, Some, length, take, true};
ghost use Rattle.rtl_word.specs.Words.{IsWordSize};
ghost use Rattle.md_match.specs.Does.{known};
ghost use Rattle.md_shapes.specs.Drawings.{frame_of};
ghost use Rattle.md_shapes.specs.Patterns.{pattern_of};
ghost use Rattle.md_shapes.specs.Shapes.{shape_by};
ghost use Rattle.md_covers.specs.Numbers.{IsNumberOf, runs_of};
ghost use Rattle.temp_shapes.specs.Instances.{IsDoer, IsDoing, IsInstanceOf};
ghost use Rattle.temp_shapes.specs.Rows.{AreShapeRows, IsPatternCovered};
ghost use Rattle.temp_laws.specs.Conditions.{on_temporaries};
ghost use Rattle.link_rows.specs.Added.{found, is_added, made_by, place_in};

use crate::figures::added_effects;
use md_check::Checked;
use md_covers::general_bits;
use md_covers::laws::general_bits_are_a_sum;
use md_match::{Slots, Task, first_match};
use md_rows::{Binding, Bound, Hole, Instance, Row};
use md_said::{said_is_limited, said_is_sound};
use md_shapes::Pattern;
use rtl_tree::{Assign, Effects, Lab, NoMemory};
use rtl_word::Word;
use smallvec::SmallVec;
use std::alloc::Global;
use temp_shapes::ShapeRows;

fn with_slot(
    mut list: SmallVec<Bound, 8>,
    slot: &Option<Bound>,
) -> Result<SmallVec<Bound, 8>, NoMemory>
    ensures { IfOk result (λ more. more.items ≡ list.items ++ known (slot.now ∷ [])) }
{
    if let Some(value) = slot {
        list.push(*value)?;
    }
    Ok(list)
}

fn values(alloc: Global, slots: &[Option<Bound>]) -> Result<SmallVec<Bound, 8>, NoMemory>
    ensures { IfOk result (λ list. list.items ≡ known slots.now) }
{
    let mut list = SmallVec::new(alloc);
    for slot in slots {
        list = with_slot(list, slot)?;
    }
    Ok(list)
}

// The values of the first holes, as far as they are known.
fn binding_of(alloc: Global, slots: &Slots, count: usize) -> Result<Binding, NoMemory>
    requires { count ≤ 8 }
    ensures { IfOk result (λ b. b ≡ known (take count slots.now)) }
{
    let list = values(alloc, &slots[..count])?;
    Ok(Binding { list })
}

fn holes_of(row: &Row) -> &[Hole]
    ensures { result.now ≡ row.now.holes }
{
    row.holes.as_slice()
}

fn moves_of(effects: &Effects) -> &[Assign]
    ensures moves { result.now ≡ effects.now }
    ensures few { length result.now ≤ 6 }
{
    effects.list.as_slice()
}

fn normal_of(row: &Row) -> &[Assign]
    ensures moves { result.now ≡ row.now.normal }
    ensures few { length result.now ≤ 6 }
{
    moves_of(&row.normal)
}

fn row_instance(
    alloc: Global,
    bits: u32,
    general: u64,
    row: &Row,
    place: u16,
    transfer: &Effects,
) -> Result<Instance, NoMemory>
    requires size { IsWordSize bits }
    requires doer { IsDoer bits general row.now transfer.now }
    ensures first { IfOk result (λ i. made_by bits general transfer.now place row.now ≡ Some i) }
    ensures doing { IfOk result (IsDoing bits general row.now place transfer.now) }
{
    let holes = holes_of(row);
    let task = Task {
        bits,
        general,
        holes,
        flags: 255,
        barred: general,
        row: normal_of(row),
        goal: moves_of(transfer),
    };
    match first_match(&task) {
        Some(slots) => {
            let binding = binding_of(alloc, &slots, holes.len())?;
            Ok(Instance {
                row: place,
                binding,
            })
        }
        None => unreachable!(),
    }
}

fn place_of(pattern: Pattern) -> usize
    requires { is_added pattern ≡ true }
    ensures is { result ≡ place_in pattern }
    ensures shape { pattern_of (shape_by result) ≡ Some pattern }
    ensures place { result < 137 }
{
    match pattern {
        Pattern::MoveStack => 11,
        Pattern::SetStack => 12,
        Pattern::Call => 118,
        Pattern::Return => 119,
        Pattern::SaveLink => 120,
        Pattern::RestoreLink => 121,
        Pattern::Halt => 124,
        _ => unreachable!(),
    }
}

fn row_at(rows: &ShapeRows, place: usize) -> Option<u16>
    requires { place < 137 }
    ensures { result ≡ get_or rows.now.rows place None }
{
    rows.rows[place]
}

/// The instruction of the row that covers a shape, at this number and this label.
pub fn added_instance<W: Word>(
    alloc: Global,
    m: &Checked<W>,
    rows: &ShapeRows,
    pattern: Pattern,
    number: u32,
    label: Lab,
) -> Result<Instance, NoMemory>
    requires rows { AreShapeRows m.now rows.now }
    requires added { is_added pattern ≡ true }
    requires covered { IsPatternCovered m.now pattern }
    requires number { IsNumberOf (runs_of m.now.word pattern) number }
    ensures found { IfOk result (λ i. found m.now rows.now pattern number label ≡ Some i) }
    ensures instance { IfOk result (IsInstanceOf m.now (frame_of m.now.word rows.now.frame) pattern (on_temporaries 0 1 number 0 label)) }
{
    said_is_sound();
    said_is_limited();
    general_bits_are_a_sum();
    let d = m.raw();
    let Some(place) = row_at(rows, place_of(pattern)) else {
        unreachable!();
    };
    let transfer = added_effects(alloc, d.word, rows.frame, pattern, number, label)?;
    let general = general_bits(d.registers.as_slice());
    let row = &d.rows.as_slice()[usize::from(place)];
    row_instance(alloc, d.word, general, row, place, &transfer)
}
