//! What is declared twice, or used and not declared.

ghost use Rattle.std.specs.Prelude.{◌≡◌, ◌||◌, ◌==◌, not, map, flat_map, option_map};
ghost use Rattle.std.specs.List.{list_any};
ghost use Rattle.std.specs.Str.{bytes_eq};
ghost use Rattle.rtl_tree.specs.Trees.{tree_of};
ghost use Rattle.rtl_tree.specs.Moves.{goal_of};
ghost use Rattle.md_text.specs.Pieces.{has_name, is_kind_word};
ghost use Rattle.md_text.specs.Declarations.{registers_in, flags_in};
ghost use Rattle.md_text.specs.Rules.{is_declared_twice, is_unknown_cell, cells_in, cells_of_goal, cells_of_place, cells_of_said, uses_unknown, is_undeclared};
ghost use Rattle.md_forms.specs.Seen.{pieces_of, form_of, declarations_of};

use crate::known::Known;
use crate::slots::{has_unknown_kind, lacks_slot};
use md_forms::{Form, OpenTransfer, OpenTree, Piece, Said};
use rtl_tree::{Cell, Expr, Place};
use sqlite_items::Items;

fn is_kind_word(name: &[u8]) -> bool
    ensures { result ≡ is_kind_word name.now }
{
    name == b"word".as_slice() || name == b"sym".as_slice() || name == b"label".as_slice()
}

/// Whether a form declares what is declared already.
pub fn is_declared_twice(known: &Known<'_>, form: &Form) -> bool
    ensures { result ≡ is_declared_twice (declarations_of known.now.before.now) (form_of form.now) }
{
    match form {
        Form::RegisterLine { number, name, .. } => {
            known.is_register(number.unsigned_abs(), name.as_slice())
        }
        Form::FlagLine { number, name } => known.is_flag(number.unsigned_abs(), name.as_slice()),
        Form::ClassLine { name, .. } => {
            let name = name.as_slice();
            is_kind_word(name) || known.has_class(name) || known.has_mode(name)
        }
        Form::ModeLine { name, .. } => {
            let name = name.as_slice();
            is_kind_word(name) || known.has_class(name)
        }
        _ => false,
    }
}

fn is_unknown_cell(known: &Known<'_>, cell: Cell) -> bool
    ensures { result ≡ is_unknown_cell (declarations_of known.now.before.now) cell }
{
    match cell {
        Cell::Hard(number) => !known.has_register(u64::from(number)),
        Cell::Flag(number) => !known.has_flag(u64::from(number)),
        _ => false,
    }
}

fn reads_unknown(known: &Known<'_>, tree: &Expr) -> bool
    ensures { result ≡ list_any (is_unknown_cell (declarations_of known.now.before.now)) (cells_in (tree_of tree.now)) }
{
    match tree {
        Expr::Cell(cell) => is_unknown_cell(known, *cell),
        Expr::Mem(_, a) | Expr::Un(_, a) => reads_unknown(known, a),
        Expr::Bin(_, a, b) => reads_unknown(known, a) || reads_unknown(known, b),
        _ => false,
    }
}

fn sets_unknown(known: &Known<'_>, place: &Option<Place>) -> bool
    ensures { result ≡ list_any (is_unknown_cell (declarations_of known.now.before.now)) (cells_of_place (option_map goal_of place.now)) }
{
    match place {
        Some(Place::Cell(cell)) => is_unknown_cell(known, *cell),
        Some(Place::Mem(_, address)) => reads_unknown(known, address),
        None => false,
    }
}

fn has_unknown_cell(known: &Known<'_>, said: &Said) -> bool
    ensures { result ≡ list_any (is_unknown_cell (declarations_of known.now.before.now)) (cells_of_said said.now) }
{
    sets_unknown(known, &said.to) || reads_unknown(known, &said.value)
}

fn any_unknown_cell(known: &Known<'_>, moves: &[Said]) -> bool
    ensures { result ≡ list_any (λ m. list_any (is_unknown_cell (declarations_of known.now.before.now)) (cells_of_said m)) moves.now }
{
    moves.iter().any(|said| has_unknown_cell(known, said))
}

fn has_unknown_cells(known: &Known<'_>, moves: &[Said]) -> bool
    ensures { result ≡ list_any (is_unknown_cell (declarations_of known.now.before.now)) (flat_map cells_of_said moves.now) }
{
    any_unknown_cell(known, moves)
}

fn tree_uses_unknown(known: &Known<'_>, text: &[Piece], tree: &OpenTree) -> bool
    ensures { result ≡ uses_unknown (declarations_of known.now.before.now) (pieces_of text.now) tree.now.names (cells_in tree.now.tree) }
{
    has_unknown_kind(known, text)
        || lacks_slot(text, tree.names.as_slice())
        || reads_unknown(known, &tree.tree)
}

fn transfer_uses_unknown(known: &Known<'_>, text: &[Piece], transfer: &OpenTransfer) -> bool
    ensures { result ≡ uses_unknown (declarations_of known.now.before.now) (pieces_of text.now) transfer.now.names (flat_map cells_of_said transfer.now.moves) }
{
    has_unknown_kind(known, text)
        || lacks_slot(text, transfer.names.as_slice())
        || has_unknown_cells(known, transfer.moves.as_slice())
}

fn has_unknown_register(known: &Known<'_>, names: &[Items<u8>]) -> bool
    ensures { result ≡ list_any (λ r. not (list_any (λ s. bytes_eq s.name r) (registers_in (declarations_of known.now.before.now)))) names.now }
{
    names
        .iter()
        .any(|name| !known.has_register_name(name.as_slice()))
}

fn class_has_unknown(known: &Known<'_>, names: &[Items<u8>]) -> bool
    ensures { result ≡ list_any (λ r. not (has_name (map (λ s. s.name) (registers_in (declarations_of known.now.before.now))) r)) names.now }
{
    has_unknown_register(known, names)
}

/// Whether a form uses a register, flag, class, mode or hole that isn't declared.
pub fn is_undeclared(known: &Known<'_>, form: &Form) -> bool
    ensures { result ≡ is_undeclared (declarations_of known.now.before.now) (form_of form.now) }
{
    match form {
        Form::ClassLine { registers, .. } => class_has_unknown(known, registers.as_slice()),
        Form::ModeLine { text, tree, .. } => tree_uses_unknown(known, text.as_slice(), tree),
        Form::RowLine { text, transfer } => transfer_uses_unknown(known, text.as_slice(), transfer),
        _ => false,
    }
}
