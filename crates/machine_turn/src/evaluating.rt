//! The sides and addresses of a transfer.

ghost use Rattle.std.specs.Prelude.{IfOk, length, ◌≡◌};
ghost use Rattle.rtl_tree.specs.Trees.{tree_of};
ghost use Rattle.rtl_tree.specs.Moves.{ToCell, ToMemory, goal_of};
ghost use Rattle.rtl_tree.specs.declared.cells.Cell.TheVariants.{Flag, Hard, Pc};
ghost use Rattle.rtl_effect.specs.Effects.{is_input};
ghost use Rattle.machine_turn.specs.Held.{IsHeld, IsPlain, IsSide, state_of};
ghost use Rattle.machine_turn.specs.Turn.{IsFit, assigned_to, low_byte_of};

use crate::assigned::{Assigned, Stored};
use crate::held::Held;
use crate::memory::{byte_count, checked};
use crate::values::value;
use rtl_tree::{BinOp, Cell, Expr, Place, Width};
use rtl_value::Trap;
use rtl_word::Word;

/// Whether a side takes a byte of the input.
pub fn takes(side: &Expr) -> bool
    ensures { result ≡ is_input (tree_of side.now) }
{
    matches!(side, Expr::Cell(Cell::Input))
}

fn evaluate_register<W: Word>(register: u8, side: &Expr, s: &Held) -> Result<Assigned, Trap>
    requires held { IsHeld W.BITS s.now }
    requires side { IsSide W.BITS (ToCell (Hard register)) (tree_of side.now) }
    ensures value { result ≡ assigned_to W.BITS (ToCell (Hard register)) (tree_of side.now) (state_of s.now) }
    ensures fits { IfOk result (λ a. IsFit W.BITS (length s.now.memory.items) a) }
{
    if takes(side) {
        return Ok(Assigned::Taken { register });
    }
    let value = value::<W>(side, s)?;
    Ok(Assigned::Word { register, value })
}

fn evaluate_flag<W: Word>(flag: u8, side: &Expr, s: &Held) -> Result<Assigned, Trap>
    requires held { IsHeld W.BITS s.now }
    requires side { IsSide W.BITS (ToCell (Flag flag)) (tree_of side.now) }
    ensures value { result ≡ assigned_to W.BITS (ToCell (Flag flag)) (tree_of side.now) (state_of s.now) }
    ensures fits { IfOk result (λ a. IsFit W.BITS (length s.now.memory.items) a) }
{
    match side {
        Expr::Bin(BinOp::Pair, a, b) => {
            let left = value::<W>(a, s)?;
            let right = value::<W>(b, s)?;
            Ok(Assigned::Compared { flag, left, right })
        }
        _ => Ok(Assigned::Lost { flag }),
    }
}

fn evaluate_jump<W: Word>(side: &Expr, s: &Held) -> Result<Assigned, Trap>
    requires held { IsHeld W.BITS s.now }
    requires side { IsSide W.BITS (ToCell Pc) (tree_of side.now) }
    ensures value { result ≡ assigned_to W.BITS (ToCell Pc) (tree_of side.now) (state_of s.now) }
    ensures fits { IfOk result (λ a. IsFit W.BITS (length s.now.memory.items) a) }
{
    match side {
        Expr::Bin(BinOp::When, c, l) => {
            let condition = value::<W>(c, s)?;
            let target = value::<W>(l, s)?;
            let place = if condition == 0 { s.next } else { target };
            Ok(Assigned::Next { place })
        }
        _ => {
            let place = value::<W>(side, s)?;
            Ok(Assigned::Next { place })
        }
    }
}

fn low_byte<W: Word>(side: &Expr, s: &Held) -> Result<u8, Trap>
    requires held { IsHeld W.BITS s.now }
    requires plain { IsPlain W.BITS (tree_of side.now) }
    ensures { result ≡ low_byte_of W.BITS (tree_of side.now) (state_of s.now) }
{
    let word = value::<W>(side, s)?;
    Ok((word % 256) as u8)
}

fn evaluate_store<W: Word>(
    width: Width,
    address: &Expr,
    side: &Expr,
    s: &Held,
) -> Result<Assigned, Trap>
    requires held { IsHeld W.BITS s.now }
    requires address_plain { IsPlain W.BITS (tree_of address.now) }
    requires side_plain { IsPlain W.BITS (tree_of side.now) }
    ensures value { result ≡ assigned_to W.BITS (ToMemory width (tree_of address.now)) (tree_of side.now) (state_of s.now) }
    ensures fits { IfOk result (λ a. IsFit W.BITS (length s.now.memory.items) a) }
{
    let stored = value::<W>(side, s)?;
    let address = value::<W>(address, s)?;
    let count = byte_count::<W>(width);
    let at = checked(count, s.memory.len(), address)?;
    Ok(Assigned::Bytes(Stored {
        at,
        count,
        value: stored,
    }))
}

/// An assignment with its side and address evaluated in the old state, or the first trap.
pub fn evaluate<W: Word>(to: &Place, side: &Expr, s: &Held) -> Result<Assigned, Trap>
    requires held { IsHeld W.BITS s.now }
    requires side { IsSide W.BITS (goal_of to.now) (tree_of side.now) }
    ensures value { result ≡ assigned_to W.BITS (goal_of to.now) (tree_of side.now) (state_of s.now) }
    ensures fits { IfOk result (λ a. IsFit W.BITS (length s.now.memory.items) a) }
{
    match to {
        Place::Cell(Cell::Hard(register)) => evaluate_register::<W>(*register, side, s),
        Place::Cell(Cell::Flag(flag)) => evaluate_flag::<W>(*flag, side, s),
        Place::Cell(Cell::Pc) => evaluate_jump::<W>(side, s),
        Place::Cell(Cell::Output) => {
            let byte = low_byte::<W>(side, s)?;
            Ok(Assigned::Printed { byte })
        }
        Place::Cell(Cell::Halt) => {
            let status = low_byte::<W>(side, s)?;
            Ok(Assigned::Ended { status })
        }
        Place::Cell(_) => unreachable!(),
        Place::Mem(width, address) => evaluate_store::<W>(*width, address, side, s),
    }
}
