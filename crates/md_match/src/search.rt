//! The search for the first way in which a row does a transfer.

ghost use Rattle.std.specs.Prelude.{◌≡◌, drop};
ghost use Rattle.rtl_tree.specs.Trees.{tree_of};
ghost use Rattle.md_match.specs.Slots.{no_slots};
ghost use Rattle.md_match.specs.Find.{find};
ghost use Rattle.md_match.specs.Searches.{accept as accept_by, match_all, no_marks, one};
ghost use Rattle.md_match.specs.Tasks.{rest, IsTask, search_of};
ghost use Rattle.std.specs.Prelude.{List, MatchOption};
ghost use Rattle.md_rows.specs.declared.instance.Bound.{Bound};
ghost use Rattle.md_match.specs.Searches.{Marks};
ghost use Rattle.md_match.specs.Does.{Does, IsDone};
ghost use Rattle.md_match.specs.Tasks.{idle_of};

use crate::acceptance::{Demands, is_accepted};
use crate::slots::{
    Marks, NO_MARKS, NO_SLOTS, Slots, compare, is_same_binary, is_same_unary, is_same_width,
};
use md_rows::Hole;
use rtl_tree::{Assign, Expr, Place, is_commutative};

/// A row and the transfer that it is to do, on words of `bits` bits. The assignments of the row that take none of the transfer's are
/// to go to `flags` and to name none of the hard registers `barred`; `general` has the general registers. Each set has a bit for each
/// of its members.
#[derive(Clone, Copy)]
pub struct Task<'a> {
    pub bits: u32,
    pub general: u64,
    pub holes: &'a [Hole],
    pub flags: u8,
    pub barred: u64,
    pub row: &'a [Assign],
    pub goal: &'a [Assign],
}

// What is still to be compared: a pair of trees and what comes after it, or the transfer's assignments from a place on.
#[derive(Clone, Copy)]
enum Todo<'a> {
    Done(usize, Marks),
    Pair(&'a Expr, &'a Expr, &'a Todo<'a>),
}

fn accept(t: &Task, used: Marks, slots: Slots) -> Option<Slots>
    requires { IsTask t.now }
    ensures { result ≡ accept_by (search_of t.now) used slots }
{
    let demands = Demands {
        flags: t.flags,
        barred: t.barred,
    };
    if is_accepted(demands, t.holes.len(), t.row, &used, &slots) {
        Some(slots)
    } else {
        None
    }
}

#[cycle(search)]
fn go(t: &Task, row: &Expr, e: &Expr, then: &Todo, slots: Slots) -> Option<Slots>
    requires { IsTask t.now }
    ensures { result ≡ find (search_of t.now).fit (tree_of row.now) (tree_of e.now) (rest (search_of t.now) t.now.goal.now then.now) slots }
{
    match (row, e) {
        (Expr::Mem(w, a), Expr::Mem(v, c)) => {
            if is_same_width(*w, *v) {
                go(t, a, c, then, slots)
            } else {
                None
            }
        }
        (Expr::Un(o, a), Expr::Un(p, c)) => {
            if is_same_unary(*o, *p) {
                go(t, a, c, then, slots)
            } else {
                None
            }
        }
        (Expr::Bin(o, a, b), Expr::Bin(p, c, d)) => {
            if !is_same_binary(*o, *p) {
                return None;
            }
            let straight = Todo::Pair(b, d, &*then);
            let found = go(t, a, c, &straight, slots);
            if found.is_some() {
                return found;
            }
            if !is_commutative(*o) {
                return None;
            }
            let crossed = Todo::Pair(a, d, &*then);
            go(t, b, c, &crossed, slots)
        }
        _ => match compare(t.bits, t.general, t.holes, row, e, slots) {
            Some(slots) => next(t, then, slots),
            None => None,
        },
    }
}

#[cycle(search)]
fn next(t: &Task, then: &Todo, slots: Slots) -> Option<Slots>
    requires { IsTask t.now }
    ensures { result ≡ rest (search_of t.now) t.now.goal.now then.now slots }
{
    match then {
        Todo::Done(i, used) => assign(t, *i, *used, slots),
        Todo::Pair(r, e, then) => go(t, r, e, then, slots),
    }
}

// The transfer's assignments from place i on, each against one of the row's without a mark.
#[cycle(search)]
fn assign(t: &Task, i: usize, used: Marks, slots: Slots) -> Option<Slots>
    requires { IsTask t.now }
    ensures { result ≡ match_all (search_of t.now) (drop i t.now.goal.now) used slots }
{
    if i >= t.goal.len() {
        return accept(t, used, slots);
    }
    let e = &t.goal[i];
    for j in 0..t.row.len() {
        if used[j] {
            continue;
        }
        let r = &t.row[j];
        let mut mark = used;
        mark[j] = true;
        let then = Todo::Done(i + 1, mark);
        let found = pair(t, r, e, &then, slots);
        if found.is_some() {
            return found;
        }
    }
    None
}

#[cycle(search)]
fn pair(t: &Task, r: &Assign, e: &Assign, then: &Todo, slots: Slots) -> Option<Slots>
    requires { IsTask t.now }
    ensures { result ≡ one (search_of t.now).fit r.now e.now (rest (search_of t.now) t.now.goal.now then.now) slots }
{
    let then = Todo::Pair(&r.value, &e.value, &*then);
    match (&r.to, &e.to) {
        (Place::Mem(w, a), Place::Mem(v, c)) => {
            if is_same_width(*w, *v) {
                go(t, a, c, &then, slots)
            } else {
                None
            }
        }
        (Place::Cell(c), Place::Cell(d)) => {
            match compare(
                t.bits,
                t.general,
                t.holes,
                &Expr::Cell(*c),
                &Expr::Cell(*d),
                slots,
            ) {
                Some(slots) => next(t, &then, slots),
                None => None,
            }
        }
        _ => None,
    }
}

/// What stands in the holes of the row where it does the transfer, by the first list of choices. None comes exactly where no binding
/// makes the row do it. The time can be exponential in the depth of the trees.
pub fn first_match(t: &Task) -> Option<Slots>
    requires { IsTask t.now }
    ensures value { result ≡ match_all (search_of t.now) t.now.goal.now no_marks no_slots }
    ensures does { MatchOption result
        ((b : List Bound) (marks : Marks) → ¬ Does t.now.bits t.now.general t.now.holes.now (idle_of t.now) t.now.row.now t.now.goal.now b marks)
        (λ slots. IsDone t.now.bits t.now.general t.now.holes.now (idle_of t.now) t.now.row.now t.now.goal.now slots) }
{
    assign(t, 0, NO_MARKS, NO_SLOTS)
}
