//! Whether cells of a kind stand in a code.

ghost use Rattle.std.specs.Prelude.{◌≡◌, ◌||◌};
ghost use Rattle.std.specs.List.{list_any};
ghost use Rattle.rtl_tree.specs.Trees.{tree_of};
ghost use Rattle.temp_machine.specs.Routines.{block_transfers, exit_transfers};
ghost use Rattle.temp_machine.specs.Cells.{is_temporary, mentions, sets_by, some_cell, some_goal_cell, some_read, some_set, uses};
ghost use Rattle.temp_code.specs.Routines.{block_of, exit_of, routine_of};
ghost use Rattle.flow_live.specs.Walks.{is_high_flag, of_kind};

use rtl_tree::{Assign, Cell, Expr, Place};
use temp_code::{Block, Code, End, Transfer};

/// Temporaries, and flags that have no bit in a set of cells.
#[derive(Clone, Copy, Debug)]
pub enum Kind {
    Temporary,
    HighFlag,
}

fn is_temporary(cell: Cell) -> bool
    ensures { result ≡ is_temporary cell }
{
    matches!(cell, Cell::Temp(_))
}

fn is_high_flag(cell: Cell) -> bool
    ensures { result ≡ is_high_flag cell }
{
    match cell {
        Cell::Flag(n) => n >= 8,
        _ => false,
    }
}

fn is_of(kind: Kind, cell: Cell) -> bool
    ensures { result ≡ of_kind kind cell }
{
    match kind {
        Kind::Temporary => is_temporary(cell),
        Kind::HighFlag => is_high_flag(cell),
    }
}

fn is_in_tree(kind: Kind, e: &Expr) -> bool
    ensures { result ≡ some_cell (of_kind kind) (tree_of e.now) }
{
    match e {
        Expr::Cell(cell) => is_of(kind, *cell),
        Expr::Mem(_, a) | Expr::Un(_, a) => is_in_tree(kind, a),
        Expr::Bin(_, a, b) => is_in_tree(kind, a) || is_in_tree(kind, b),
        _ => false,
    }
}

fn is_read_for_place(kind: Kind, assign: &Assign) -> bool
    ensures { result ≡ some_goal_cell (of_kind kind) assign.now.to }
{
    match &assign.to {
        Place::Cell(_) => false,
        Place::Mem(_, address) => is_in_tree(kind, address),
    }
}

fn is_read_by(kind: Kind, assign: &Assign) -> bool
    ensures { result ≡ (some_goal_cell (of_kind kind) assign.now.to || some_cell (of_kind kind) assign.now.value) }
{
    is_read_for_place(kind, assign) || is_in_tree(kind, &assign.value)
}

fn is_set_by(kind: Kind, assign: &Assign) -> bool
    ensures { result ≡ sets_by (of_kind kind) assign.now.to }
{
    match &assign.to {
        Place::Cell(cell) => is_of(kind, *cell),
        Place::Mem(_, _) => false,
    }
}

fn are_read(kind: Kind, moves: &[Assign]) -> bool
    ensures { result ≡ some_read (of_kind kind) moves.now }
{
    for i in 0..moves.len() {
        if is_read_by(kind, &moves[i]) {
            return true;
        }
    }
    false
}

fn are_set(kind: Kind, moves: &[Assign]) -> bool
    ensures { result ≡ some_set (of_kind kind) moves.now }
{
    for i in 0..moves.len() {
        if is_set_by(kind, &moves[i]) {
            return true;
        }
    }
    false
}

fn is_in_transfer(kind: Kind, transfer: &Transfer) -> bool
    ensures { result ≡ mentions (of_kind kind) transfer.now.what }
{
    are_read(kind, transfer.what.list.as_slice()) || are_set(kind, transfer.what.list.as_slice())
}

fn is_in_body(kind: Kind, body: &[Transfer]) -> bool
    ensures { result ≡ list_any (λ t. mentions (of_kind kind) t.what) body.now }
{
    for i in 0..body.len() {
        if is_in_transfer(kind, &body[i]) {
            return true;
        }
    }
    false
}

fn is_in_end(kind: Kind, end: &End) -> bool
    ensures { result ≡ list_any (mentions (of_kind kind)) (exit_transfers (exit_of end.now)) }
{
    match end {
        End::Jump(transfer) | End::Branch(transfer) | End::Call(transfer) => {
            is_in_transfer(kind, transfer)
        }
        End::Fall | End::Return => false,
    }
}

fn is_in_block(kind: Kind, block: &Block) -> bool
    ensures { result ≡ list_any (mentions (of_kind kind)) (block_transfers (block_of block.now)) }
{
    is_in_body(kind, block.body.as_slice()) || is_in_end(kind, &block.end)
}

/// Whether a cell of the kind stands in a code.
pub(crate) fn is_in_code(kind: Kind, c: &Code) -> bool
    ensures { result ≡ uses (of_kind kind) (routine_of c.now) }
{
    let blocks = c.blocks.as_slice();
    for i in 0..blocks.len() {
        if is_in_block(kind, &blocks[i]) {
            return true;
        }
    }
    false
}
