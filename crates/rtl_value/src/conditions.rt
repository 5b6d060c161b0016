//! Tests of what `value` asks of its arguments.

ghost use Rattle.std.specs.Prelude.{All, IsTrue, ◌<◌, ◌^◌, ◌↔◌};
ghost use Rattle.rtl_tree.specs.Trees.{tree_of};
ghost use Rattle.rtl_value.specs.Values.{AreWords, IsCellRead, IsFlagRead, IsPairOfWords, IsReadable, IsSound};

use crate::evaluation::place;
use crate::state::{FlagPair, LabelAt, State};
use rtl_tree::{BinOp, Cell, Expr, UnOp};
use rtl_word::Word;

fn is_word<W: Word>(n: u32) -> bool
    ensures { IsTrue result ↔ (n < 2 ^ W.BITS) }
{
    W::BITS == 32 || n < 65536
}

fn are_words<W: Word>(list: &[u32]) -> bool
    ensures { IsTrue result ↔ AreWords W.BITS list.now }
{
    list.iter().all(|n| is_word::<W>(*n))
}

fn is_pair<W: Word>(pair: Option<FlagPair>) -> bool
    ensures { IsTrue result ↔ IsPairOfWords W.BITS pair }
{
    match pair {
        None => true,
        Some(pair) => is_word::<W>(pair.left) && is_word::<W>(pair.right),
    }
}

fn are_pairs<W: Word>(list: &[Option<FlagPair>]) -> bool
    ensures { IsTrue result ↔ All (λ p. IsPairOfWords W.BITS p) list.now }
{
    list.iter().all(|pair| is_pair::<W>(*pair))
}

fn are_places<W: Word>(list: &[LabelAt]) -> bool
    ensures { IsTrue result ↔ All (λ e. e.at < 2 ^ W.BITS) list.now }
{
    list.iter().all(|entry| is_word::<W>(entry.at))
}

/// Whether a state has 64 registers and 8 flags, and what it holds for a cell, a symbol or a label is a word.
pub fn is_sound<W: Word>(s: &State) -> bool
    ensures { IsTrue result ↔ IsSound W.BITS s.now }
{
    s.registers.list.len() == 64
        && s.flags.list.len() == 8
        && are_words::<W>(&s.registers.list)
        && are_words::<W>(&s.temps.list)
        && are_words::<W>(&s.symbols.list)
        && are_places::<W>(&s.labels.list)
        && is_word::<W>(s.next_place)
        && are_pairs::<W>(&s.flags.list)
}

fn is_cell_read(c: Cell, s: &State) -> bool
    ensures { IsTrue result ↔ IsCellRead s.now c }
{
    match c {
        Cell::Hard(n) => n < 64,
        Cell::Temp(n) => usize::from(n) < s.temps.list.len(),
        Cell::Pc | Cell::Input => true,
        _ => false,
    }
}

fn is_flag_read(e: &Expr) -> bool
    ensures { IsTrue result ↔ IsFlagRead (tree_of e.now) }
{
    match e {
        Expr::Cell(Cell::Flag(n)) => *n < 8,
        _ => false,
    }
}

/// Whether a tree has a value or a trap in a state: it may be given to `value`.
pub fn is_readable<W: Word>(e: &Expr, s: &State) -> bool
    ensures { IsTrue result ↔ IsReadable W.BITS (tree_of e.now) s.now }
{
    match e {
        Expr::Num(n) => is_word::<W>(*n),
        Expr::Sym(n) => usize::from(*n) < s.symbols.list.len(),
        Expr::Label(l) => place(&s.labels.list, *l).is_some(),
        Expr::Cell(c) => is_cell_read(*c, s),
        Expr::Mem(_, a) => is_readable::<W>(a, s),
        Expr::Un(UnOp::Test(_), a) => is_flag_read(a),
        Expr::Un(_, a) => is_readable::<W>(a, s),
        Expr::Bin(BinOp::Pair | BinOp::When, _, _) => false,
        Expr::Bin(_, a, b) => is_readable::<W>(a, s) && is_readable::<W>(b, s),
        Expr::Lost | Expr::NumHole(_) | Expr::NameHole(_) => false,
    }
}
