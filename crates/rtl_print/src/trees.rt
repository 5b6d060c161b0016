//! The printing of trees.

ghost use Rattle.std.specs.Prelude.{◌≡◌, ◌∷◌, ◌++◌, [], OnOk, get_or};
ghost use Rattle.std.specs.Fmt.{signed_decimal};
ghost use Rattle.rtl_word.specs.Words.{IsWordSize};
ghost use Rattle.rtl_tree.specs.Trees.{Binary, Load, Unary, tree_of};
ghost use Rattle.rtl_spelling.specs.Tokens.{Mark, Number, Word};
ghost use Rattle.rtl_spelling.specs.Spelling.{cell_tokens, indexed, name_token, operator_token};
ghost use Rattle.rtl_spelling.specs.Printing.{IsPrintableTree, label_tokens, tree_tokens};
ghost use Rattle.rtl_print.specs.Appending.{Appends};
ghost use Rattle.rtl_print.specs.Seen.{context_of};

use crate::bytes::{memory_word, operator_bytes, relation_word, sign_bytes, unary_word};
use crate::context::Context;
use crate::numbers::signed;
use itoa::Buffer;
use rtl_spelling::Sign;
use rtl_tree::{BinOp, Cell, Expr, Lab, NameList, UnOp, Width};
use rtl_word::Rel;
use std::alloc::AllocError;

fn push_word(out: &mut Vec<u8>, word: &[u8]) -> Result<(), AllocError>
    ensures { OnOk result (Appends out.old.items out.new.items (Word word.now ∷ [])) }
{
    out.extend_from_slice(word)
}

/// Appends a mark.
pub(crate) fn push_sign(out: &mut Vec<u8>, sign: Sign) -> Result<(), AllocError>
    ensures { OnOk result (Appends out.old.items out.new.items (Mark sign ∷ [])) }
{
    out.extend_from_slice(sign_bytes(sign))
}

fn push_number(out: &mut Vec<u8>, number: i64) -> Result<(), AllocError>
    ensures { OnOk result (Appends out.old.items out.new.items (Number (signed_decimal number) ∷ [])) }
{
    let mut buffer = Buffer::new();
    out.extend_from_slice(buffer.format(number).as_bytes())
}

fn push_index(out: &mut Vec<u8>, word: &[u8], index: u64) -> Result<(), AllocError>
    ensures { OnOk result (Appends out.old.items out.new.items (indexed word.now index)) }
{
    let mut buffer = Buffer::new();
    push_word(out, word)?;
    push_sign(out, Sign::LeftBracket)?;
    out.extend_from_slice(buffer.format(index).as_bytes())?;
    push_sign(out, Sign::RightBracket)
}

/// Appends a cell; nothing for a hole.
pub(crate) fn push_cell(out: &mut Vec<u8>, cell: Cell) -> Result<(), AllocError>
    ensures { OnOk result (Appends out.old.items out.new.items (cell_tokens cell)) }
{
    match cell {
        Cell::Hard(n) => push_index(out, b"r", u64::from(n)),
        Cell::Temp(n) => push_index(out, b"t", u64::from(n)),
        Cell::Flag(n) => push_index(out, b"f", u64::from(n)),
        Cell::Pc => push_word(out, b"PC"),
        Cell::Input => push_word(out, b"IN"),
        Cell::Output => push_word(out, b"OUT"),
        Cell::Halt => push_word(out, b"HALT"),
        Cell::Hole(_) => Ok(()),
    }
}

fn name_at(list: &NameList, place: u16) -> &[u8]
    ensures { result.now ≡ get_or list.now place [] }
{
    match list.get(usize::from(place)) {
        Some(name) => name,
        None => b"",
    }
}

fn push_name(out: &mut Vec<u8>, list: &NameList, place: u16) -> Result<(), AllocError>
    ensures { OnOk result (Appends out.old.items out.new.items (name_token (get_or list.now place []) ∷ [])) }
{
    push_word(out, b"_")?;
    out.extend_from_slice(name_at(list, place))
}

fn push_label(out: &mut Vec<u8>, c: &Context<'_>, label: Lab) -> Result<(), AllocError>
    ensures { OnOk result (Appends out.old.items out.new.items (label_tokens (context_of c.now) label)) }
{
    match label {
        Lab::Block(n) => {
            let mut buffer = Buffer::new();
            push_word(out, b"L")?;
            out.extend_from_slice(buffer.format(n).as_bytes())
        }
        Lab::Function(place) => push_name(out, &c.names.functions, place),
    }
}

/// Appends the memory at an address.
#[cycle(trees)]
pub(crate) fn push_memory(
    out: &mut Vec<u8>,
    c: &Context<'_>,
    width: Width,
    address: &Expr,
) -> Result<(), AllocError>
    requires size { IsWordSize c.now.bits }
    requires printable { IsPrintableTree (context_of c.now) (tree_of address.now) }
    ensures { OnOk result (Appends out.old.items out.new.items (tree_tokens (context_of c.now) (Load width (tree_of address.now)))) }
{
    push_word(out, memory_word(width))?;
    push_sign(out, Sign::LeftBracket)?;
    push_tree(out, c, address)?;
    push_sign(out, Sign::RightBracket)
}

// The test of a flag's pair.
#[cycle(trees)]
fn push_test(out: &mut Vec<u8>, c: &Context<'_>, relation: Rel, a: &Expr) -> Result<(), AllocError>
    requires size { IsWordSize c.now.bits }
    requires printable { IsPrintableTree (context_of c.now) (tree_of a.now) }
    ensures { OnOk result (Appends out.old.items out.new.items (tree_tokens (context_of c.now) (Unary (UnOp.Test relation) (tree_of a.now)))) }
{
    push_sign(out, Sign::LeftParen)?;
    push_tree(out, c, a)?;
    push_sign(out, Sign::Space)?;
    push_word(out, relation_word(relation))?;
    push_sign(out, Sign::RightParen)
}

// An operator before its tree.
#[cycle(trees)]
fn push_prefixed(
    out: &mut Vec<u8>,
    c: &Context<'_>,
    word: &[u8],
    a: &Expr,
) -> Result<(), AllocError>
    requires size { IsWordSize c.now.bits }
    requires printable { IsPrintableTree (context_of c.now) (tree_of a.now) }
    ensures { OnOk result (Appends out.old.items out.new.items
        (Mark Sign.LeftParen ∷ Word word.now ∷ Mark Sign.Space ∷ (tree_tokens (context_of c.now) (tree_of a.now) ++ Mark Sign.RightParen ∷ []))) }
{
    push_sign(out, Sign::LeftParen)?;
    push_word(out, word)?;
    push_sign(out, Sign::Space)?;
    push_tree(out, c, a)?;
    push_sign(out, Sign::RightParen)
}

#[cycle(trees)]
fn push_unary(
    out: &mut Vec<u8>,
    c: &Context<'_>,
    operator: UnOp,
    a: &Expr,
) -> Result<(), AllocError>
    requires size { IsWordSize c.now.bits }
    requires printable { IsPrintableTree (context_of c.now) (tree_of a.now) }
    ensures { OnOk result (Appends out.old.items out.new.items (tree_tokens (context_of c.now) (Unary operator (tree_of a.now)))) }
{
    match operator {
        UnOp::Test(relation) => push_test(out, c, relation, a),
        _ => push_prefixed(out, c, unary_word(operator), a),
    }
}

fn push_operator(out: &mut Vec<u8>, operator: BinOp) -> Result<(), AllocError>
    ensures { OnOk result (Appends out.old.items out.new.items (Mark Sign.Space ∷ operator_token operator ∷ Mark Sign.Space ∷ [])) }
{
    push_sign(out, Sign::Space)?;
    out.extend_from_slice(operator_bytes(operator))?;
    push_sign(out, Sign::Space)
}

#[cycle(trees)]
fn push_binary(
    out: &mut Vec<u8>,
    c: &Context<'_>,
    operator: BinOp,
    a: &Expr,
    b: &Expr,
) -> Result<(), AllocError>
    requires size { IsWordSize c.now.bits }
    requires left { IsPrintableTree (context_of c.now) (tree_of a.now) }
    requires right { IsPrintableTree (context_of c.now) (tree_of b.now) }
    ensures { OnOk result (Appends out.old.items out.new.items
        (tree_tokens (context_of c.now) (Binary operator (tree_of a.now) (tree_of b.now)))) }
{
    push_sign(out, Sign::LeftParen)?;
    push_tree(out, c, a)?;
    push_operator(out, operator)?;
    push_tree(out, c, b)?;
    push_sign(out, Sign::RightParen)
}

/// Appends the spelling of a tree. A hole prints nothing.
#[cycle(trees)]
pub(crate) fn push_tree(out: &mut Vec<u8>, c: &Context<'_>, e: &Expr) -> Result<(), AllocError>
    requires size { IsWordSize c.now.bits }
    requires printable { IsPrintableTree (context_of c.now) (tree_of e.now) }
    ensures { OnOk result (Appends out.old.items out.new.items (tree_tokens (context_of c.now) (tree_of e.now))) }
{
    match e {
        Expr::Num(word) => push_number(out, signed(c.bits, *word)),
        Expr::Sym(place) => push_name(out, &c.names.objects, *place),
        Expr::Label(label) => push_label(out, c, *label),
        Expr::Cell(cell) => push_cell(out, *cell),
        Expr::Mem(width, a) => push_memory(out, c, *width, a),
        Expr::Un(operator, a) => push_unary(out, c, *operator, a),
        Expr::Bin(operator, a, b) => push_binary(out, c, *operator, a, b),
        Expr::Lost => push_word(out, b"lost"),
        Expr::NumHole(_) | Expr::NameHole(_) => Ok(()),
    }
}
