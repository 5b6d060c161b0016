//! The transfer of a row whose holes are filled.

use md_instances::{fill_row, filled};
use md_rows::{Binding, Bound, Hole, Row};
use rtl_tree::{Assign, BinOp, Cell, Effects, Expr, Lab, NoMemory, Place, UnOp, Width, same};
use smallvec::SmallVec;
use sqlite_items::Items;
use std::alloc::Global;

// A register, a number, a symbol and a label, and then more numbers.
fn binding(alloc: Global) -> Binding {
    let values = [
        Bound::Reg(Cell::Hard(3)),
        Bound::Num(8),
        Bound::Sym(2),
        Bound::Label(Lab::Block(5)),
        Bound::Num(4),
        Bound::Num(5),
        Bound::Num(6),
        Bound::Num(7),
    ];
    Binding {
        list: SmallVec::from_buf(alloc, values),
    }
}

fn becomes(alloc: Global, tree: &Expr, expected: &Expr) -> bool {
    let Ok(made) = filled(alloc, tree, &binding(alloc)) else {
        return false;
    };
    same(&made, expected)
}

#[test]
fn each_hole_has_its_value(rt: HostRuntime) {
    let alloc = rt.alloc();
    assert!(rt;
        becomes(
            alloc,
            &Expr::Cell(Cell::Hole(0)),
            &Expr::Cell(Cell::Hard(3))
        )
    );
    assert!(rt; becomes(alloc, &Expr::NumHole(1), &Expr::Num(8)));
    assert!(rt; becomes(alloc, &Expr::NameHole(2), &Expr::Sym(2)));
    assert!(rt; becomes(alloc, &Expr::NameHole(3), &Expr::Label(Lab::Block(5))));
    assert!(rt; becomes(alloc, &Expr::NumHole(8), &Expr::NumHole(8)));
    assert!(rt;
        becomes(
            alloc,
            &Expr::Cell(Cell::Flag(0)),
            &Expr::Cell(Cell::Flag(0))
        )
    );
}

// `(<0> + <1>)`
fn address(alloc: Global) -> Result<Expr, NoMemory> {
    let register = Box::new(alloc, Expr::Cell(Cell::Hole(0)))?;
    Ok(Expr::Bin(BinOp::Add, register, Box::new(alloc, Expr::NumHole(1))?))
}

// `M[(<0> + <1>)] = (not <0>)`
fn store(alloc: Global) -> Result<Assign, NoMemory> {
    let address = address(alloc)?;
    let complement = Expr::Un(UnOp::Not, Box::new(alloc, Expr::Cell(Cell::Hole(0)))?);
    Ok(Assign {
        to: Place::Mem(Width::Full, address),
        value: complement,
    })
}

// `<0> = <2>`, where the third hole is for a symbol.
fn set() -> Assign {
    Assign {
        to: Place::Cell(Cell::Hole(0)),
        value: Expr::NameHole(2),
    }
}

fn effects(alloc: Global, first: Assign) -> Effects {
    let moves = [first, set(), Assign::default()];
    Effects {
        list: SmallVec::from_buf_and_len(alloc, moves, 2),
    }
}

const HOLES: [Hole; 3] = [
    Hole::Reg(8),
    Hole::Num {
        low: 0,
        high: 15,
        inverted: false,
    },
    Hole::Sym,
];

// The row whose transfer is `M[(<0> + <1>)] = (not <0>); <0> = <2>`. Nothing reads its normal form.
fn row(alloc: Global) -> Result<Row, NoMemory> {
    let first = store(alloc)?;
    Ok(Row {
        line: 1,
        text: Items::new(alloc),
        holes: Items::from_slice(alloc, &HOLES)?,
        effects: effects(alloc, first),
        normal: effects(alloc, set()),
    })
}

fn is_cell(tree: &Expr, cell: Cell) -> bool {
    match tree {
        Expr::Cell(other) => *other == cell,
        _ => false,
    }
}

fn is_number(tree: &Expr, number: u32) -> bool {
    match tree {
        Expr::Num(other) => *other == number,
        _ => false,
    }
}

// Whether a tree is `(r[3] + 8)`.
fn is_address(tree: &Expr) -> bool {
    match tree {
        Expr::Bin(BinOp::Add, left, right) => {
            is_cell(left, Cell::Hard(3)) && is_number(right, 8)
        }
        _ => false,
    }
}

// Whether an assignment is `M[(r[3] + 8)] = (not r[3])`.
fn is_store(store: &Assign) -> bool {
    match (&store.to, &store.value) {
        (Place::Mem(Width::Full, at), Expr::Un(UnOp::Not, value)) => {
            is_address(at) && is_cell(value, Cell::Hard(3))
        }
        _ => false,
    }
}

// Whether an assignment is `r[3] = _2`, the object at that place.
fn is_set(set: &Assign) -> bool {
    match (&set.to, &set.value) {
        (Place::Cell(Cell::Hard(3)), Expr::Sym(2)) => true,
        _ => false,
    }
}

fn is_filled(made: &Effects) -> bool {
    match made.list.as_slice() {
        [store, set] => is_store(store) && is_set(set),
        _ => false,
    }
}

fn fills(alloc: Global, row: &Row) -> bool {
    let Ok(made) = fill_row(alloc, row, &binding(alloc)) else {
        return false;
    };
    is_filled(&made)
}

fn fills_a_row(alloc: Global) -> bool {
    let Ok(row) = row(alloc) else {
        return false;
    };
    fills(alloc, &row)
}

#[test]
fn a_row_is_filled(rt: HostRuntime) {
    assert!(rt; fills_a_row(rt.alloc()));
}
