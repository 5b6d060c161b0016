//! The search for a way in which a row does a shape.

ghost use Rattle.std.specs.Prelude.{◌≡◌, drop, map, is_some};
ghost use Rattle.rtl_tree.specs.Trees.{tree_of};
ghost use Rattle.md_match.specs.Slots.{no_slots};
ghost use Rattle.md_match.specs.Find.{find};
ghost use Rattle.md_match.specs.Searches.{accept as accept_by, match_all, no_marks, one};
ghost use Rattle.md_shapes.specs.Drawings.{drawn_move, drawn_tree, rest, IsSubject, search_of};

use crate::drawing::{Drawn, DrawnMove, DrawnPlace, compare};
use md_match::{
    Demands, Marks, NO_MARKS, NO_SLOTS, Slots, is_accepted, is_same_binary, is_same_unary,
    is_same_width,
};
use md_rows::Hole;
use rtl_tree::{Assign, Expr, Place, is_commutative};

/// A row on words of `bits` bits; `general` has a bit for each general register.
#[derive(Clone, Copy)]
pub struct Subject<'a> {
    pub bits: u32,
    pub general: u64,
    pub holes: &'a [Hole],
    pub row: &'a [Assign],
}

// What is still to be compared: a pair of trees and what comes after it, or the shape's assignments from a place on.
#[derive(Clone, Copy)]
enum Todo<'a> {
    Done(usize, Marks),
    Pair(&'a Expr, &'a Drawn<'a>, &'a Todo<'a>),
}

fn accept(t: &Subject, used: Marks, slots: Slots) -> Option<Slots>
    requires { IsSubject t.now }
    ensures { result ≡ accept_by (search_of t.now) used slots }
{
    let demands = Demands {
        flags: 0xff,
        barred: t.general,
    };
    if is_accepted(demands, t.holes.len(), t.row, &used, &slots) {
        Some(slots)
    } else {
        None
    }
}

#[cycle(search)]
fn go(
    t: &Subject,
    goal: &[DrawnMove],
    row: &Expr,
    e: &Drawn,
    then: &Todo,
    slots: Slots,
) -> Option<Slots>
    requires { IsSubject t.now }
    ensures { result ≡ find (search_of t.now).fit (tree_of row.now) (drawn_tree e.now) (rest (search_of t.now) goal.now then.now) slots }
{
    match (row, e) {
        (Expr::Mem(w, a), Drawn::Mem(v, c)) => {
            if is_same_width(*w, *v) {
                go(t, goal, a, c, then, slots)
            } else {
                None
            }
        }
        (Expr::Un(o, a), Drawn::Un(p, c)) => {
            if is_same_unary(*o, *p) {
                go(t, goal, a, c, then, slots)
            } else {
                None
            }
        }
        (Expr::Bin(o, a, b), Drawn::Bin(p, c, d)) => {
            if !is_same_binary(*o, *p) {
                return None;
            }
            let straight = Todo::Pair(b, d, &*then);
            let found = go(t, goal, a, c, &straight, slots);
            if found.is_some() {
                return found;
            }
            if !is_commutative(*o) {
                return None;
            }
            let crossed = Todo::Pair(a, d, &*then);
            go(t, goal, b, c, &crossed, slots)
        }
        _ => match compare(t.bits, t.general, t.holes, row, e, slots) {
            Some(slots) => next(t, goal, then, slots),
            None => None,
        },
    }
}

#[cycle(search)]
fn next(t: &Subject, goal: &[DrawnMove], then: &Todo, slots: Slots) -> Option<Slots>
    requires { IsSubject t.now }
    ensures { result ≡ rest (search_of t.now) goal.now then.now slots }
{
    match then {
        Todo::Done(i, used) => assign(t, goal, *i, *used, slots),
        Todo::Pair(r, e, then) => go(t, goal, r, e, then, slots),
    }
}

// The shape's assignments from place i on, each against one of the row's without a mark.
#[cycle(search)]
fn assign(t: &Subject, goal: &[DrawnMove], i: usize, used: Marks, slots: Slots) -> Option<Slots>
    requires { IsSubject t.now }
    ensures { result ≡ match_all (search_of t.now) (map drawn_move (drop i goal.now)) used slots }
{
    if i >= goal.len() {
        return accept(t, used, slots);
    }
    let e = &goal[i];
    for j in 0..t.row.len() {
        if used[j] {
            continue;
        }
        let r = &t.row[j];
        let mut mark = used;
        mark[j] = true;
        let then = Todo::Done(i + 1, mark);
        let found = pair(t, goal, r, e, &then, slots);
        if found.is_some() {
            return found;
        }
    }
    None
}

#[cycle(search)]
fn pair(
    t: &Subject,
    goal: &[DrawnMove],
    r: &Assign,
    e: &DrawnMove,
    then: &Todo,
    slots: Slots,
) -> Option<Slots>
    requires { IsSubject t.now }
    ensures { result ≡ one (search_of t.now).fit r.now (drawn_move e.now) (rest (search_of t.now) goal.now then.now) slots }
{
    let then = Todo::Pair(&r.value, &e.value, &*then);
    match (&r.to, &e.to) {
        (Place::Mem(w, a), DrawnPlace::Mem(v, c)) => {
            if is_same_width(*w, *v) {
                go(t, goal, a, c, &then, slots)
            } else {
                None
            }
        }
        (Place::Cell(c), DrawnPlace::Cell(d)) => {
            match compare(
                t.bits,
                t.general,
                t.holes,
                &Expr::Cell(*c),
                &Drawn::Cell(*d),
                slots,
            ) {
                Some(slots) => next(t, goal, &then, slots),
                None => None,
            }
        }
        _ => None,
    }
}

pub(crate) fn does(t: &Subject, goal: &[DrawnMove]) -> bool
    requires { IsSubject t.now }
    ensures { result ≡ is_some (match_all (search_of t.now) (map drawn_move goal.now) no_marks no_slots) }
{
    assign(t, goal, 0, NO_MARKS, NO_SLOTS).is_some()
}
