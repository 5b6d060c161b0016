//! The places of rows, by what their texts begin with.

ghost use Rattle.std.specs.Prelude.{◌≡◌, ◌≤◌, ◌++◌, ◌∷◌, [], ℕ, IfOk, List, cond, length, option_map};
ghost use Rattle.std.specs.Str.{bytes_eq};
ghost use Rattle.asm_token.specs.Tokens.{Token as SpecToken};
ghost use Rattle.asm_row.specs.Walk.{IsLine};
ghost use Rattle.asm_row.specs.Index.{AreListed, IsAdded, first_name, first_word, listed, places_under};

use crate::reading::row_at;
use crate::tokens::{Next, next_token};
use asm_token::token::Token;
use md_rows::{Piece, RawDescription, Row};
use rtl_tree::NoMemory;
use std::alloc::Global;
use std::collections::HashMap;

type Named<'d> = HashMap<&'d [u8], Vec<u16>>;

/// The places of rows, in order: those whose texts begin with a name under this name, and the others.
#[derive(Drop)]
pub(crate) struct Index<'d> {
    named: Named<'d>,
    others: Vec<u16>,
}

fn name_of(piece: &Piece) -> Option<&[u8]>
    ensures { option_map (λ name. name.now) result ≡ first_name (piece.now ∷ []) }
{
    match piece {
        Piece::Name(name) => Some(name.as_slice()),
        _ => None,
    }
}

fn first_name(row: &Row) -> Option<&[u8]>
    ensures { option_map (λ name. name.now) result ≡ first_name row.now.text }
{
    match row.text.as_slice() {
        [piece, ..] => name_of(piece),
        [] => None,
    }
}

fn with_named<'d>(
    alloc: Global,
    mut named: Named<'d>,
    name: &'d [u8],
    place: u16,
) -> Result<Named<'d>, NoMemory>
    ensures { IfOk result (λ more. (other : List ℕ) → listed more other ≡ listed named.entry other ++ cond (bytes_eq name.now other) (place ∷ []) []) }
{
    let mut found = named.remove(name).unwrap_or(Vec::new(alloc));
    found.push(place)?;
    named.insert(name, found)?;
    Ok(named)
}

fn with_place<'d>(
    alloc: Global,
    index: Index<'d>,
    name: Option<&'d [u8]>,
    place: u16,
) -> Result<Index<'d>, NoMemory>
    ensures { IfOk result (λ more. IsAdded index.entry more (option_map (λ x. x.now) name.entry) place) }
{
    let Index { named, mut others } = index;
    match name {
        Some(name) => {
            let named = with_named(alloc, named, name, place)?;
            Ok(Index { named, others })
        }
        None => {
            others.push(place)?;
            Ok(Index { named, others })
        }
    }
}

/// Where each row of a description stands.
pub(crate) fn index_of<'d>(alloc: Global, d: &'d RawDescription) -> Result<Index<'d>, NoMemory>
    requires few { length d.now.rows ≤ 4096 }
    ensures { IfOk result (λ index. AreListed d.now (length d.now.rows) index) }
{
    let mut index = Index {
        named: HashMap::new(alloc),
        others: Vec::new(alloc),
    };
    let count = d.rows.len() as u16;
    for place in 0..count {
        index = with_place(alloc, index, first_name(row_at(d, place)), place)?;
    }
    Ok(index)
}

/// The name that the text of a line begins with.
pub(crate) fn first_word(text: &[u8]) -> Option<&[u8]>
    ensures { (ts : List SpecToken) → IsLine text.now ts → option_map (λ name. name.now) result ≡ first_word ts }
{
    match next_token(text) {
        Next::Token(Token::Name(name), _) => Some(name),
        _ => None,
    }
}

/// The places of the rows that begin with a name, or of those that begin with none.
pub(crate) fn places_under<'x>(index: &'x Index<'_>, name: Option<&[u8]>) -> &'x [u16]
    ensures { result.now ≡ places_under index.now (option_map (λ x. x.now) name.entry) }
{
    match name {
        Some(name) => match index.named.get(name) {
            Some(places) => places.as_slice(),
            None => &[],
        },
        None => index.others.as_slice(),
    }
}
