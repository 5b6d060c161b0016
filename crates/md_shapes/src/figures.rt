//! The shapes as trees on the stack.

ghost use Rattle.std.specs.Prelude.{◌&&◌, ◌-◌, ◌/◌, ◌^◌, ◌≡◌, is_some};
ghost use Rattle.rtl_word.specs.Words.{IsWordSize};
ghost use Rattle.md_match.specs.Slots.{no_slots};
ghost use Rattle.md_match.specs.Searches.{match_all, no_marks};
ghost use Rattle.md_shapes.specs.Drawings.{drawn_tree, frame_of, IsSubject, search_of};
ghost use Rattle.rtl_tree.specs.Trees.{Binary, CodeLabel, Number, Read, Unary};
ghost use Rattle.rtl_tree.specs.declared.cells.Cell.TheVariants.{Flag, Pc};
ghost use Rattle.rtl_tree.specs.declared.cells.Lab.TheVariants.{Block};
ghost use Rattle.rtl_tree.specs.declared.expressions.UnOp.TheVariants.{Test};
ghost use Rattle.rtl_tree.specs.declared.expressions.BinOp.TheVariants.{Add, When};
ghost use Rattle.md_shapes.specs.Shapes.{call_moves, does_example, has_link, link_call, restored, return_moves, saved, set_cell, stack_call, stack_return, store_at};

use crate::drawing::{Drawn, DrawnMove, DrawnPlace};
use crate::patterns::Pattern;
use crate::search::{Subject, does};
use rtl_tree::{BinOp, Cell, Lab, UnOp, Width};
use rtl_word::Rel;

/// What a description fixes of the shapes: its registers by number, and the size of memory.
#[derive(Clone, Copy, Debug)]
pub struct Frame {
    pub stack: u8,
    pub result: u8,
    pub link: Option<u8>,
    pub memory: u32,
}

const A: Cell = Cell::Temp(0);

const B: Cell = Cell::Temp(1);

const LABEL: Lab = Lab::Block(0);

fn sets(t: &Subject, cell: Cell, value: Drawn) -> bool
    requires { IsSubject t.now }
    ensures { result ≡ is_some (match_all (search_of t.now) (set_cell cell (drawn_tree value.entry)) no_marks no_slots) }
{
    let to = DrawnPlace::Cell(cell);
    does(t, &[DrawnMove { to, value }])
}

fn stores(t: &Subject, width: Width, at: &Drawn, value: Drawn) -> bool
    requires { IsSubject t.now }
    ensures { result ≡ is_some (match_all (search_of t.now) (store_at width (drawn_tree at.now) (drawn_tree value.entry)) no_marks no_slots) }
{
    let to = DrawnPlace::Mem(width, at);
    does(t, &[DrawnMove { to, value }])
}

fn minus_word_bytes(bits: u32) -> u32
    requires { IsWordSize bits }
    ensures { result ≡ 2 ^ bits - bits / 8 }
{
    if bits == 16 { 0xfffe } else { 0xffff_fffc }
}

fn branches(t: &Subject, condition: &Drawn) -> bool
    requires { IsSubject t.now }
    ensures { result ≡ is_some (match_all (search_of t.now) (set_cell Pc (Binary When (drawn_tree condition.now) (CodeLabel (Block 0)))) no_marks no_slots) }
{
    let label = Drawn::Label(LABEL);
    sets(t, Cell::Pc, Drawn::Bin(BinOp::When, condition, &label))
}

fn branches_by_flag(t: &Subject, relation: Rel, flag: u8) -> bool
    requires { IsSubject t.now }
    ensures { result ≡ is_some (match_all (search_of t.now) (set_cell Pc (Binary When (Unary (Test relation) (Read (Flag flag))) (CodeLabel (Block 0)))) no_marks no_slots) }
{
    let flag = Drawn::Cell(Cell::Flag(flag));
    branches(t, &Drawn::Un(UnOp::Test(relation), &flag))
}

fn calls_by_link(t: &Subject, link: u8) -> bool
    requires { IsSubject t.now }
    ensures { result ≡ is_some (match_all (search_of t.now) (link_call link (Block 0)) no_marks no_slots) }
{
    let to = DrawnPlace::Cell(Cell::Hard(link));
    let save = DrawnMove {
        to,
        value: Drawn::Cell(Cell::Pc),
    };
    let to = DrawnPlace::Cell(Cell::Pc);
    let jump = DrawnMove {
        to,
        value: Drawn::Label(LABEL),
    };
    let goal = [save, jump];
    does(t, &goal)
}

fn calls_below<'a>(t: &Subject, stack: Cell, below: &'a Drawn<'a>) -> bool
    requires { IsSubject t.now }
    ensures { result ≡ is_some (match_all (search_of t.now) (stack_call (drawn_tree below.now) stack (Block 0)) no_marks no_slots) }
{
    let to = DrawnPlace::Mem(Width::Full, below);
    let push = DrawnMove {
        to,
        value: Drawn::Cell(Cell::Pc),
    };
    let to = DrawnPlace::Cell(stack);
    let lower = DrawnMove { to, value: *below };
    let to = DrawnPlace::Cell(Cell::Pc);
    let jump = DrawnMove {
        to,
        value: Drawn::Label(LABEL),
    };
    let goal = [push, lower, jump];
    does(t, &goal)
}

fn calls_by_stack(t: &Subject, stack: Cell) -> bool
    requires { IsSubject t.now }
    ensures { result ≡ is_some (match_all (search_of t.now) (stack_call (Binary Add (Read stack) (Number (2 ^ t.now.bits - t.now.bits / 8))) stack (Block 0)) no_marks no_slots) }
{
    let top = Drawn::Cell(stack);
    let step = Drawn::Number(minus_word_bytes(t.bits));
    calls_below(t, stack, &Drawn::Bin(BinOp::Add, &top, &step))
}

fn calls(t: &Subject, frame: Frame) -> bool
    requires { IsSubject t.now }
    ensures { result ≡ is_some (match_all (search_of t.now) (call_moves (frame_of t.now.bits frame) frame.link (Block 0)) no_marks no_slots) }
{
    match frame.link {
        Some(link) => calls_by_link(t, link),
        None => calls_by_stack(t, Cell::Hard(frame.stack)),
    }
}

fn returns_by_stack(t: &Subject, stack: Cell) -> bool
    requires { IsSubject t.now }
    ensures { result ≡ is_some (match_all (search_of t.now) (stack_return (Read stack) stack (t.now.bits / 8)) no_marks no_slots) }
{
    let top = Drawn::Cell(stack);
    let to = DrawnPlace::Cell(Cell::Pc);
    let back = DrawnMove {
        to,
        value: Drawn::Mem(Width::Full, &top),
    };
    let step = Drawn::Number(t.bits / 8);
    let to = DrawnPlace::Cell(stack);
    let raise = DrawnMove {
        to,
        value: Drawn::Bin(BinOp::Add, &top, &step),
    };
    let goal = [back, raise];
    does(t, &goal)
}

fn returns(t: &Subject, frame: Frame) -> bool
    requires { IsSubject t.now }
    ensures { result ≡ is_some (match_all (search_of t.now) (return_moves (frame_of t.now.bits frame) frame.link) no_marks no_slots) }
{
    match frame.link {
        Some(link) => sets(t, Cell::Pc, Drawn::Cell(Cell::Hard(link))),
        None => returns_by_stack(t, Cell::Hard(frame.stack)),
    }
}

fn saves_link(t: &Subject, link: Option<u8>, place: &Drawn) -> bool
    requires { IsSubject t.now }
    ensures { result ≡ (has_link link && is_some (match_all (search_of t.now) (saved link (drawn_tree place.now)) no_marks no_slots)) }
{
    match link {
        Some(link) => stores(t, Width::Full, place, Drawn::Cell(Cell::Hard(link))),
        None => false,
    }
}

fn restores_link(t: &Subject, link: Option<u8>, place: &Drawn) -> bool
    requires { IsSubject t.now }
    ensures { result ≡ (has_link link && is_some (match_all (search_of t.now) (restored link (drawn_tree place.now)) no_marks no_slots)) }
{
    match link {
        Some(link) => sets(t, Cell::Hard(link), Drawn::Mem(Width::Full, place)),
        None => false,
    }
}

/// Whether a row does a shape with different temporaries in its registers, `number` in its number, and a symbol and a label.
pub fn does_shape(t: &Subject, frame: Frame, pattern: Pattern, number: u32) -> bool
    requires { IsSubject t.now }
    ensures { result ≡ does_example (search_of t.now) (frame_of t.now.bits frame) pattern number }
{
    let (a, b) = (Drawn::Cell(A), Drawn::Cell(B));
    let (stack, q) = (Cell::Hard(frame.stack), Cell::Hard(frame.result));
    let top = Drawn::Cell(stack);
    let number = Drawn::Number(number);
    let place = Drawn::Bin(BinOp::Add, &top, &number);
    match pattern {
        Pattern::Copy => sets(t, A, b),
        Pattern::SetNumber => sets(t, A, number),
        Pattern::SetSymbol => sets(t, A, Drawn::Symbol(0)),
        Pattern::Load => sets(t, A, Drawn::Mem(Width::Full, &b)),
        Pattern::Store => stores(t, Width::Full, &a, b),
        Pattern::LoadByte => sets(t, A, Drawn::Un(UnOp::Sxb, &Drawn::Mem(Width::Byte, &b))),
        Pattern::StoreByte => stores(t, Width::Byte, &a, b),
        Pattern::LoadHome => sets(t, A, Drawn::Mem(Width::Full, &place)),
        Pattern::StoreHome => stores(t, Width::Full, &place, a),
        Pattern::StoreTop => stores(t, Width::Full, &top, a),
        Pattern::ReadStack => sets(t, A, top),
        Pattern::MoveStack => sets(t, stack, place),
        Pattern::SetStack => sets(t, stack, Drawn::Number(frame.memory)),
        Pattern::Operate(operator) => sets(t, A, Drawn::Bin(operator, &a, &b)),
        Pattern::Complement => sets(t, A, Drawn::Un(UnOp::Not, &a)),
        Pattern::Clear => sets(t, A, Drawn::Bin(BinOp::And, &a, &Drawn::Un(UnOp::Not, &b))),
        Pattern::Jump => sets(t, Cell::Pc, Drawn::Label(LABEL)),
        Pattern::Branch(relation) => branches(t, &Drawn::Bin(BinOp::Cmp(relation), &a, &b)),
        Pattern::Compare(flag) => sets(t, Cell::Flag(flag), Drawn::Bin(BinOp::Pair, &a, &b)),
        Pattern::BranchByFlag(relation, flag) => branches_by_flag(t, relation, flag),
        Pattern::Call => calls(t, frame),
        Pattern::Return => returns(t, frame),
        Pattern::SaveLink => saves_link(t, frame.link, &place),
        Pattern::RestoreLink => restores_link(t, frame.link, &place),
        Pattern::TakeInput => sets(t, q, Drawn::Cell(Cell::Input)),
        Pattern::PutOutput => sets(t, Cell::Output, Drawn::Cell(q)),
        Pattern::Halt => sets(t, Cell::Halt, Drawn::Cell(q)),
        Pattern::ReadResult => sets(t, A, Drawn::Cell(q)),
        Pattern::SetResult => sets(t, q, a),
        Pattern::ExtendByte => sets(t, A, Drawn::Un(UnOp::Sxb, &a)),
    }
}
