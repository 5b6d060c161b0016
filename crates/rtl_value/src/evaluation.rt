//! The value of a tree.

ghost use Rattle.std.specs.Prelude.{Err, IsSome, Ok, Option, Result, Some, length, slice_get, ◌*◌, ◌+◌, ◌/◌, ◌<◌, ◌^◌, ◌≡◌, ◌≤◌, ℕ};
ghost use Rattle.rtl_tree.specs.Trees.{tree_of};
ghost use Rattle.rtl_value.specs.Values.{IsBinaryRead, IsCellRead, IsFlagRead, IsReadable, IsSound, IsWord, IsPairOfWords, binary_of, bytes_at, cell_of, flag_test, label_of, load_of, place_of_label, test_of, unary_of, value_of};

use crate::state::{FlagPair, LabelAt, State, Trap};
use rtl_tree::{BinOp, Cell, Expr, Lab, UnOp, Width, is_same_label};
use rtl_word::{Rel, Word};

fn cell<W: Word>(s: &State, c: Cell) -> u32
    requires sound { IsSound W.BITS s.now }
    requires read { IsCellRead s.now c }
    ensures value { result ≡ cell_of W.BITS s.now c }
    ensures fits { result < 2 ^ W.BITS }
{
    match c {
        Cell::Hard(n) => s.registers.list[usize::from(n)],
        Cell::Temp(n) => s.temps.list[usize::from(n)],
        Cell::Pc => s.next_place,
        Cell::Input => match s.input {
            Some(byte) => u32::from(byte),
            None => W::not(0),
        },
        _ => unreachable!(),
    }
}

fn label<W: Word>(s: &State, l: Lab) -> u32
    requires sound { IsSound W.BITS s.now }
    requires placed { IsSome (place_of_label s.now.labels l) }
    ensures value { result ≡ label_of s.now l }
    ensures fits { result < 2 ^ W.BITS }
{
    match place(&s.labels.list, l) {
        Some(at) => at,
        None => unreachable!(),
    }
}

pub fn place(labels: &[LabelAt], l: Lab) -> Option<u32>
    ensures { result ≡ place_of_label labels.now l }
{
    for entry in labels {
        if is_same_label(entry.label, l) {
            return Some(entry.at);
        }
    }
    None
}

fn test_pair<W: Word>(r: Rel, pair: Option<FlagPair>) -> Result<u32, Trap>
    requires { IsPairOfWords W.BITS pair }
    ensures value { result ≡ flag_test W.BITS r (Some pair) }
    ensures fits { IsWord W.BITS result }
{
    match pair {
        None => Err(Trap::LostFlag),
        Some(pair) => Ok(W::rel(r, pair.left, pair.right)),
    }
}

// The test of the flag that a tree is.
fn test<W: Word>(r: Rel, e: &Expr, s: &State) -> Result<u32, Trap>
    requires sound { IsSound W.BITS s.now }
    requires read { IsFlagRead (tree_of e.now) }
    ensures value { result ≡ test_of W.BITS r (tree_of e.now) s.now }
    ensures fits { IsWord W.BITS result }
{
    match e {
        Expr::Cell(Cell::Flag(n)) => test_pair::<W>(r, s.flags.list[usize::from(*n)]),
        _ => unreachable!(),
    }
}

/// What an operator on two words gives. A pair and a jump have no value.
pub fn apply_binary<W: Word>(operator: BinOp, a: u32, b: u32) -> Result<u32, Trap>
    requires a_fits { a < 2 ^ W.BITS }
    requires b_fits { b < 2 ^ W.BITS }
    ensures value { result ≡ binary_of W.BITS operator a b }
    ensures fits { IsWord W.BITS result }
{
    match operator {
        BinOp::Add => Ok(W::add(a, b)),
        BinOp::Sub => Ok(W::sub(a, b)),
        BinOp::Mul => Ok(W::mul(a, b)),
        BinOp::Div => W::div(a, b).ok_or(Trap::Divide),
        BinOp::Divu => W::divu(a, b).ok_or(Trap::Divide),
        BinOp::Rem => W::rem(a, b).ok_or(Trap::Divide),
        BinOp::Remu => W::remu(a, b).ok_or(Trap::Divide),
        BinOp::And => Ok(W::and(a, b)),
        BinOp::Or => Ok(W::or(a, b)),
        BinOp::Xor => Ok(W::xor(a, b)),
        BinOp::Shl => W::shl(a, b).ok_or(Trap::Shift),
        BinOp::Shr => W::shr(a, b).ok_or(Trap::Shift),
        BinOp::Shru => W::shru(a, b).ok_or(Trap::Shift),
        BinOp::Cmp(r) => Ok(W::rel(r, a, b)),
        BinOp::Pair | BinOp::When => Err(Trap::LostFlag),
    }
}

fn word_at<W: Word>(memory: &[u8], at: usize) -> u32
    requires { at + W.BITS / 8 ≤ length memory.now }
    ensures value { result ≡ bytes_at memory.now at (W.BITS / 8) }
    ensures fits { result < 2 ^ W.BITS }
{
    let low = u32::from(memory[at]) + 256 * u32::from(memory[at + 1]);
    if W::BITS == 16 {
        return low;
    }
    low + 65536 * (u32::from(memory[at + 2]) + 256 * u32::from(memory[at + 3]))
}

fn load<W: Word>(memory: &[u8], width: Width, at: u32) -> Result<u32, Trap>
    ensures value { result ≡ load_of W.BITS width memory.now at }
    ensures fits { IsWord W.BITS result }
{
    let at = at as usize;
    match width {
        Width::Byte => {
            if at < memory.len() {
                Ok(u32::from(memory[at]))
            } else {
                Err(Trap::Address)
            }
        }
        Width::Full => {
            let size = (W::BITS / 8) as usize;
            if memory.len() < at + size {
                return Err(Trap::Address);
            }
            if at % size != 0 {
                return Err(Trap::Align);
            }
            Ok(word_at::<W>(memory, at))
        }
    }
}

/// The value of a tree, or the first trap.
pub fn value<W: Word>(e: &Expr, s: &State) -> Result<u32, Trap>
    requires sound { IsSound W.BITS s.now }
    requires read { IsReadable W.BITS (tree_of e.now) s.now }
    ensures value { result ≡ value_of W.BITS (tree_of e.now) s.now }
    ensures fits { IsWord W.BITS result }
{
    match e {
        Expr::Num(n) => Ok(*n),
        Expr::Sym(n) => Ok(s.symbols.list[usize::from(*n)]),
        Expr::Label(l) => Ok(label::<W>(s, *l)),
        Expr::Cell(c) => Ok(cell::<W>(s, *c)),
        Expr::Mem(width, a) => {
            let at = value::<W>(a, s)?;
            load::<W>(&s.memory.list, *width, at)
        }
        Expr::Un(UnOp::Test(r), a) => test::<W>(*r, a, s),
        Expr::Un(UnOp::Neg, a) => {
            let x = value::<W>(a, s)?;
            Ok(W::neg(x))
        }
        Expr::Un(UnOp::Not, a) => {
            let x = value::<W>(a, s)?;
            Ok(W::not(x))
        }
        Expr::Un(UnOp::Sxb, a) => {
            let x = value::<W>(a, s)?;
            Ok(W::sxb(x))
        }
        Expr::Bin(operator, a, b) => {
            let x = value::<W>(a, s)?;
            let y = value::<W>(b, s)?;
            apply_binary::<W>(*operator, x, y)
        }
        Expr::Lost | Expr::NumHole(_) | Expr::NameHole(_) => unreachable!(),
    }
}
