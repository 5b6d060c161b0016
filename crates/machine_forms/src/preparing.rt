//! Transfers made ready.

ghost use Rattle.std.specs.Prelude.{IfOk, IfSome, [], ◌∷◌, ◌≡◌};
ghost use Rattle.rtl_tree.specs.Trees.{Binary, Number, Read, Unary, tree_of};
ghost use Rattle.rtl_tree.specs.declared.cells.Cell.TheVariants.{Pc};
ghost use Rattle.rtl_tree.specs.declared.expressions.BinOp.TheVariants.{Cmp, When};
ghost use Rattle.rtl_tree.specs.declared.expressions.UnOp.TheVariants.{Test};
ghost use Rattle.rtl_tree.specs.Moves.{ToMemory};
ghost use Rattle.machine_forms.specs.Forms.{form_moves, goes, moves_of, sets};

use crate::flagged::flagged;
use crate::forms::{Form, Prepared};
use crate::operands::{address, number, source, value};
use rtl_tree::{Assign, BinOp, Cell, Effects, Expr, NoMemory, Place, UnOp, Width};
use rtl_word::Rel;
use sqlite_items::Boxed;
use std::alloc::Global;

fn test(r: Rel, flag: &Expr, l: u32) -> Option<Form>
    ensures { IfSome result (λ f. form_moves f ≡ goes (Binary When (Unary (Test r) (tree_of flag.now)) (Number l)) ∷ []) }
{
    match flag {
        Expr::Cell(Cell::Flag(f)) => Some(Form::Test(r, *f, l)),
        _ => None,
    }
}

fn branch(r: Rel, a: &Expr, b: &Expr, l: u32) -> Option<Form>
    ensures { IfSome result (λ f. form_moves f ≡ goes (Binary When (Binary (Cmp r) (tree_of a.now) (tree_of b.now)) (Number l)) ∷ []) }
{
    let a = source(a)?;
    Some(Form::Branch(r, a, source(b)?, l))
}

fn jump_if(condition: &Expr, l: u32) -> Option<Form>
    ensures { IfSome result (λ f. form_moves f ≡ goes (Binary When (tree_of condition.now) (Number l)) ∷ []) }
{
    match condition {
        Expr::Bin(BinOp::Cmp(r), a, b) => branch(*r, a, b, l),
        Expr::Un(UnOp::Test(r), flag) => test(*r, flag, l),
        _ => None,
    }
}

fn jump(e: &Expr) -> Option<Form>
    ensures { IfSome result (λ f. form_moves f ≡ goes (tree_of e.now) ∷ []) }
{
    match e {
        Expr::Bin(BinOp::When, condition, l) => jump_if(condition, number(l)?),
        _ => Some(Form::Jump(source(e)?)),
    }
}

fn store(width: Width, a: &Expr, e: &Expr) -> Option<Form>
    ensures { IfSome result (λ f. form_moves f ≡ record { to = ToMemory width (tree_of a.now); value = tree_of e.now } ∷ []) }
{
    let a = address(a)?;
    Some(Form::Store(width, a, value(e)?))
}

fn single(m: &Assign) -> Option<Form>
    ensures { IfSome result (λ f. form_moves f ≡ m.now ∷ []) }
{
    match &m.to {
        Place::Cell(Cell::Hard(n)) => Some(Form::Set(*n, value(&m.value)?)),
        Place::Cell(Cell::Pc) => jump(&m.value),
        Place::Mem(width, a) => store(*width, a, &m.value),
        _ => None,
    }
}

/// The register that takes the number of the next instruction.
fn linked(m: &Assign) -> Option<u8>
    ensures { IfSome result (λ n. sets n (Read Pc) ≡ m.now) }
{
    match (&m.to, &m.value) {
        (Place::Cell(Cell::Hard(n)), Expr::Cell(Cell::Pc)) => Some(*n),
        _ => None,
    }
}

/// The place to which an assignment goes.
fn target(m: &Assign) -> Option<u32>
    ensures { IfSome result (λ l. goes (Number l) ≡ m.now) }
{
    match &m.to {
        Place::Cell(Cell::Pc) => number(&m.value),
        _ => None,
    }
}

fn link(first: &Assign, second: &Assign) -> Option<Form>
    ensures { IfSome result (λ f. form_moves f ≡ first.now ∷ (second.now ∷ [])) }
{
    let n = linked(first)?;
    Some(Form::Link(n, target(second)?))
}

/// The form that a transfer has.
fn form_of(moves: &[Assign]) -> Option<Form>
    ensures { IfSome result (λ f. form_moves f ≡ moves.now) }
{
    match moves {
        [only] => single(only),
        [first, second] => link(first, second),
        [first, a, b, c] => flagged(first, a, b, c),
        _ => None,
    }
}

/// Makes a transfer ready. It means what it meant.
pub fn prepare(alloc: Global, effects: Effects) -> Result<Prepared, NoMemory>
    ensures { IfOk result (λ made. moves_of made ≡ effects) }
{
    match form_of(effects.list.as_slice()) {
        Some(form) => Ok(Prepared::Common(form)),
        None => Ok(Prepared::General(Boxed::new(alloc, effects)?)),
    }
}
