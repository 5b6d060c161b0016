//! The value of a tree.

ghost use Rattle.std.specs.Prelude.{Err, Ok, Result, Some, slice_get, ◌<◌, ◌^◌, ◌≡◌};
ghost use Rattle.rtl_tree.specs.Trees.{tree_of};
ghost use Rattle.rtl_value.specs.Values.{IsPairOfWords, IsWord, cell_of, flag_test, test_of, unary_of, value_of};
ghost use Rattle.machine_turn.specs.Held.{IsCellRead, IsHeld, IsPlain, state_of};

use crate::held::Held;
use crate::memory::load;
use rtl_tree::{BinOp, Cell, Expr, UnOp};
use rtl_value::{FlagPair, Trap, apply_binary};
use rtl_word::{Rel, Word};

#[inline(always)]
fn cell<W: Word>(c: Cell, s: &Held) -> u32
    requires held { IsHeld W.BITS s.now }
    requires read { IsCellRead c }
    ensures value { result ≡ cell_of W.BITS (state_of s.now) c }
    ensures fits { result < 2 ^ W.BITS }
{
    match c {
        Cell::Hard(n) => s.registers[usize::from(n)],
        Cell::Pc => s.next,
        _ => 0,
    }
}

#[inline(always)]
fn test_pair<W: Word>(r: Rel, pair: Option<FlagPair>) -> Result<u32, Trap>
    requires pair { IsPairOfWords W.BITS pair }
    ensures value { result ≡ flag_test W.BITS r (Some pair) }
    ensures fits { IsWord W.BITS result }
{
    match pair {
        None => Err(Trap::LostFlag),
        Some(pair) => Ok(W::rel(r, pair.left, pair.right)),
    }
}

fn test_flag<W: Word>(r: Rel, flag: u8, s: &Held) -> Result<u32, Trap>
    requires held { IsHeld W.BITS s.now }
    ensures value { result ≡ flag_test W.BITS r (slice_get s.now.flags flag) }
    ensures fits { IsWord W.BITS result }
{
    if 8 <= flag {
        return Err(Trap::LostFlag);
    }
    test_pair::<W>(r, s.flags[usize::from(flag)])
}

/// The test of a flag, or of a pair of trees.
#[cycle(trees)]
fn test<W: Word>(r: Rel, e: &Expr, s: &Held) -> Result<u32, Trap>
    requires held { IsHeld W.BITS s.now }
    requires plain { IsPlain W.BITS (tree_of e.now) }
    ensures value { result ≡ test_of W.BITS r (tree_of e.now) (state_of s.now) }
    ensures fits { IsWord W.BITS result }
{
    match e {
        Expr::Cell(Cell::Flag(n)) => test_flag::<W>(r, *n, s),
        Expr::Bin(BinOp::Pair, a, b) => {
            let x = value::<W>(a, s)?;
            let y = value::<W>(b, s)?;
            Ok(W::rel(r, x, y))
        }
        _ => Err(Trap::LostFlag),
    }
}

#[inline(always)]
fn apply_unary<W: Word>(operator: UnOp, x: u32) -> u32
    requires { x < 2 ^ W.BITS }
    ensures value { result ≡ unary_of W.BITS operator x }
    ensures fits { result < 2 ^ W.BITS }
{
    match operator {
        UnOp::Neg => W::neg(x),
        UnOp::Not => W::not(x),
        UnOp::Sxb => W::sxb(x),
        UnOp::Test(_) => 0,
    }
}

/// The value of a tree, or the first trap.
#[cycle(trees)]
pub fn value<W: Word>(e: &Expr, s: &Held) -> Result<u32, Trap>
    requires held { IsHeld W.BITS s.now }
    requires plain { IsPlain W.BITS (tree_of e.now) }
    ensures value { result ≡ value_of W.BITS (tree_of e.now) (state_of s.now) }
    ensures fits { IsWord W.BITS result }
{
    match e {
        Expr::Num(n) => Ok(*n),
        Expr::Cell(c) => Ok(cell::<W>(*c, s)),
        Expr::Mem(width, a) => {
            let at = value::<W>(a, s)?;
            load::<W>(&s.memory, *width, at)
        }
        Expr::Un(UnOp::Test(r), a) => test::<W>(*r, a, s),
        Expr::Un(operator, a) => {
            let x = value::<W>(a, s)?;
            Ok(apply_unary::<W>(*operator, x))
        }
        Expr::Bin(operator, a, b) => {
            let x = value::<W>(a, s)?;
            let y = value::<W>(b, s)?;
            apply_binary::<W>(*operator, x, y)
        }
        Expr::Sym(_) | Expr::Label(_) => unreachable!(),
        Expr::Lost | Expr::NumHole(_) | Expr::NameHole(_) => Err(Trap::LostFlag),
    }
}
