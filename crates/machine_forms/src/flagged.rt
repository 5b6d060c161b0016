//! Values with flags, made ready.

ghost use Rattle.std.specs.Prelude.{IfSome, [], ◌∷◌, ◌≡◌};
ghost use Rattle.rtl_tree.specs.Trees.{Binary, Number, tree_of};
ghost use Rattle.rtl_tree.specs.Moves.{ToCell};
ghost use Rattle.rtl_tree.specs.declared.cells.Cell.TheVariants.{Flag};
ghost use Rattle.rtl_tree.specs.declared.expressions.BinOp.TheVariants.{Pair};
ghost use Rattle.machine_forms.specs.Forms.{flag_move, flag_moves, form_moves};
ghost use Rattle.machine_forms.specs.declared.forms.FlagTo.TheVariants.{Compared};

use crate::forms::{FlagTo, FlagsTo, Form};
use crate::operands::{address, number, value};
use rtl_tree::{Assign, BinOp, Cell, Expr, Place, Width, same};

/// The number with which a tree is compared.
fn number_beside(of: &Expr, e: &Expr) -> Option<u32>
    ensures { IfSome result (λ k. Binary Pair (tree_of of.now) (Number k) ≡ tree_of e.now) }
{
    match e {
        Expr::Bin(BinOp::Pair, a, b) => { if same(of, a) { number(b) } else { None } }
        _ => None,
    }
}

/// The flag that an assignment sets.
fn flag(m: &Assign) -> Option<u8>
    ensures { IfSome result (λ n. ToCell (Flag n) ≡ m.now.to) }
{
    match &m.to {
        Place::Cell(Cell::Flag(n)) => Some(*n),
        _ => None,
    }
}

fn first_flag(of: &Expr, m: &Assign) -> Option<(u8, u32)>
    ensures { IfSome result (λ f. flag_move (Compared f.0) (tree_of of.now) f.1 ≡ m.now) }
{
    let n = flag(m)?;
    Some((n, number_beside(of, &m.value)?))
}

fn flag_to(n: u8, of: &Expr, k: u32, e: &Expr) -> Option<FlagTo>
    ensures { IfSome result (λ f. flag_move f (tree_of of.now) k ≡ record { to = ToCell (Flag n); value = tree_of e.now }) }
{
    match e {
        Expr::Lost => Some(FlagTo::Lost(n)),
        _ => {
            if number_beside(of, e)? == k {
                Some(FlagTo::Compared(n))
            } else {
                None
            }
        }
    }
}

fn next_flag(of: &Expr, k: u32, m: &Assign) -> Option<FlagTo>
    ensures { IfSome result (λ f. flag_move f (tree_of of.now) k ≡ m.now) }
{
    flag_to(flag(m)?, of, k, &m.value)
}

fn flags(of: &Expr, a: &Assign, b: &Assign, c: &Assign) -> Option<FlagsTo>
    ensures { IfSome result (λ f. flag_moves (tree_of of.now) f ≡ a.now ∷ (b.now ∷ (c.now ∷ []))) }
{
    let (first, number) = first_flag(of, a)?;
    let second = next_flag(of, number, b)?;
    let third = next_flag(of, number, c)?;
    Some(FlagsTo {
        number,
        first,
        second,
        third,
    })
}

/// A value with three flags.
pub fn flagged(m: &Assign, a: &Assign, b: &Assign, c: &Assign) -> Option<Form>
    ensures { IfSome result (λ f. form_moves f ≡ m.now ∷ (a.now ∷ (b.now ∷ (c.now ∷ [])))) }
{
    let v = value(&m.value)?;
    let f = flags(&m.value, a, b, c)?;
    match &m.to {
        Place::Cell(Cell::Hard(n)) => Some(Form::SetFlags(*n, v, f)),
        Place::Mem(width, at) => Some(Form::StoreFlags(*width, address(at)?, v, f)),
        _ => None,
    }
}
