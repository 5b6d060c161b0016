//! What is dead before a transfer.

ghost use Rattle.std.specs.Prelude.{◌≡◌, ◌&&◌, ◌||◌, not, ℕ, length};
ghost use Rattle.rtl_tree.specs.declared.cells.Cell.TheVariants.{Hard};
ghost use Rattle.rtl_tree.specs.Trees.{tree_of};
ghost use Rattle.rtl_tree.specs.Same.{same_cell};
ghost use Rattle.rtl_tree.specs.Sets.{has_cell};
ghost use Rattle.temp_machine.specs.Routines.{Routine, Target};
ghost use Rattle.temp_machine.specs.Cells.{move_reads, sets_by, some_cell, some_goal_cell, some_set};
ghost use Rattle.temp_machine.specs.Live.{End as EndItem, Transfer as TransferItem};
ghost use Rattle.temp_code.specs.Routines.{exit_of};
ghost use Rattle.flow_live.specs.Rows.{Becomes, bits_in, has_bit, is_masked};
ghost use Rattle.flow_live.specs.Walks.{Stands, exit_puts, exit_takes, is_wanted, item_dead, moves_read};

use crate::rows::{Row, has_flag};
use crate::standing::Standing;
use rtl_tree::{Assign, Cell, Expr, Place};
use temp_code::{End, Transfer};

/// Takes out what a tree reads.
fn read_tree(row: &mut Row, e: &Expr)
    ensures { Becomes (λ c. has_cell (bits_in row.old) c && not (some_cell (same_cell c) (tree_of e.now))) (bits_in row.old) (bits_in row.new) }
{
    match e {
        Expr::Cell(cell) => row.remove(*cell),
        Expr::Mem(_, a) | Expr::Un(_, a) => read_tree(row, a),
        Expr::Bin(_, a, b) => {
            read_tree(row, a);
            read_tree(row, b);
        }
        _ => {}
    }
}

fn read_for_place(row: &mut Row, assign: &Assign)
    ensures { Becomes (λ c. has_cell (bits_in row.old) c && not (some_goal_cell (same_cell c) assign.now.to)) (bits_in row.old) (bits_in row.new) }
{
    match &assign.to {
        Place::Cell(_) => {}
        Place::Mem(_, address) => read_tree(row, address),
    }
}

fn read_value(row: &mut Row, assign: &Assign)
    ensures { Becomes (λ c. has_cell (bits_in row.old) c && not (some_cell (same_cell c) assign.now.value)) (bits_in row.old) (bits_in row.new) }
{
    read_tree(row, &assign.value);
}

fn read_assign(row: &mut Row, assign: &Assign)
    ensures { Becomes (λ c. has_cell (bits_in row.old) c && not (move_reads c assign.now)) (bits_in row.old) (bits_in row.new) }
{
    read_for_place(row, assign);
    read_value(row, assign);
}

/// Whether the reads of an assignment count where these flags are dead behind it.
fn counts(dead_flags: u8, assign: &Assign) -> bool
    ensures { result ≡ is_wanted (λ n. has_bit dead_flags n) assign.now.to }
{
    match &assign.to {
        Place::Cell(Cell::Flag(n)) => *n >= 8 || !has_flag(dead_flags, *n),
        _ => true,
    }
}

/// Takes out what an assignment reads, if that counts.
fn read_counted(row: &mut Row, dead_flags: u8, assign: &Assign)
    ensures { Becomes (λ c. has_cell (bits_in row.old) c && not (is_wanted (λ n. has_bit dead_flags n) assign.now.to && move_reads c assign.now))
        (bits_in row.old) (bits_in row.new) }
{
    if !counts(dead_flags, assign) {
        return;
    }
    read_assign(row, assign);
}

/// Takes out what assignments read. What they read for a flag that is dead behind them doesn't count.
fn read_moves(row: &mut Row, dead_flags: u8, moves: &[Assign])
    ensures { Becomes (λ c. has_cell (bits_in row.old) c && not (moves_read (λ n. has_bit dead_flags n) c moves.now)) (bits_in row.old) (bits_in row.new) }
{
    for i in 0..moves.len() {
        read_counted(row, dead_flags, &moves[i]);
    }
}

fn put_assigned(row: &mut Row, assign: &Assign)
    ensures { Becomes (λ c. has_cell (bits_in row.old) c || sets_by (same_cell c) assign.now.to) (bits_in row.old) (bits_in row.new) }
{
    match &assign.to {
        Place::Cell(cell) => row.put(*cell),
        Place::Mem(_, _) => {}
    }
}

/// Puts in what assignments set.
fn set_moves(row: &mut Row, moves: &[Assign])
    ensures { Becomes (λ c. has_cell (bits_in row.old) c || some_set (same_cell c) moves.now) (bits_in row.old) (bits_in row.new) }
{
    for i in 0..moves.len() {
        put_assigned(row, &moves[i]);
    }
}

fn read_by(row: &mut Row, dead_flags: u8, transfer: &Transfer)
    ensures { Becomes (λ c. has_cell (bits_in row.old) c && not (moves_read (λ n. has_bit dead_flags n) c transfer.now.what)) (bits_in row.old) (bits_in row.new) }
{
    read_moves(row, dead_flags, transfer.what.list.as_slice());
}

fn set_by(row: &mut Row, transfer: &Transfer)
    ensures { Becomes (λ c. has_cell (bits_in row.old) c || some_set (same_cell c) transfer.now.what) (bits_in row.old) (bits_in row.new) }
{
    set_moves(row, transfer.what.list.as_slice());
}

/// From what is dead behind the assignments of a transfer to what is dead before them, registers that are always live left out of account.
fn go_before_moves(row: &mut Row, dead_flags: u8, transfer: &Transfer)
    ensures { Becomes (λ c. (has_cell (bits_in row.old) c || some_set (same_cell c) transfer.now.what) && not (moves_read (λ n. has_bit dead_flags n) c transfer.now.what))
        (bits_in row.old) (bits_in row.new) }
{
    set_by(row, transfer);
    read_by(row, dead_flags, transfer);
}

/// From what is dead behind a transfer to what is dead before it.
pub(crate) fn go_before_transfer(row: &mut Row, standing: &Standing, transfer: &Transfer)
    ensures words { length row.new.temporaries.items ≡ length row.old.temporaries.items }
    ensures before { (t : Target) (r : Routine) → Stands t r standing.now
        → Becomes (item_dead t r (TransferItem transfer.now.what) (has_cell (bits_in row.old))) (bits_in row.old) (bits_in row.new) }
{
    let dead_flags = row.flags;
    go_before_moves(row, dead_flags, transfer);
    row.remove_registers(standing.always);
}

/// The same of the end of a block, registers that are always live left out of account.
fn go_before_exit(row: &mut Row, standing: &Standing, end: &End)
    ensures words { length row.new.temporaries.items ≡ length row.old.temporaries.items }
    ensures before { (t : Target) (r : Routine) → Stands t r standing.now
        → Becomes (λ c. (has_cell (bits_in row.old) c || exit_puts t (exit_of end.now) c) && not (exit_takes t (λ n. has_bit (bits_in row.old).flags n) (exit_of end.now) c))
        (bits_in row.old) (bits_in row.new) }
{
    match end {
        End::Fall => {}
        End::Jump(transfer) | End::Branch(transfer) => {
            let dead_flags = row.flags;
            go_before_moves(row, dead_flags, transfer);
        }
        End::Call(transfer) => {
            row.lose(standing.spared);
            go_before_moves(row, u8::MAX, transfer);
        }
        End::Return => row.remove(Cell::Hard(standing.result)),
    }
}

/// From what is dead behind the end of a block to what is dead before it.
pub(crate) fn go_before_end(row: &mut Row, standing: &Standing, end: &End)
    ensures words { length row.new.temporaries.items ≡ length row.old.temporaries.items }
    ensures before { (t : Target) (r : Routine) → Stands t r standing.now
        → Becomes (item_dead t r (EndItem (exit_of end.now)) (has_cell (bits_in row.old))) (bits_in row.old) (bits_in row.new) }
{
    go_before_exit(row, standing, end);
    row.remove_registers(standing.always);
}
