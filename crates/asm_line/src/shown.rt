//! The token that a piece of a row's text is on a line.

ghost use Rattle.std.specs.Prelude.{◌≡◌, ◌≤◌, ◌<◌, ◌^◌, ◌&&◌, nat_lt, IfNone, IfSome, IsTrue, None, Option, Some, is_some, length, option_map, slice_get};
ghost use Rattle.rtl_word.specs.Words.{IsWordSize};
ghost use Rattle.asm_token.specs.Tokens.{Name as NameToken, Number as NumberToken, spelling};
ghost use Rattle.asm_token.specs.Line.{is_word};
ghost use Rattle.md_rows.specs.Fits.{fits, is_in, printed};
ghost use Rattle.md_rows.specs.Lines.{hole_bytes, is_word as is_word_piece, longest_name, piece_bytes};
ghost use Rattle.md_rows.specs.Instances.{AllFit, block_token, general_set, hole_token, register_name, symbol_token};
ghost use Rattle.asm_row.specs.Line.{naming_of};
ghost use Rattle.asm_line.specs.Shown.{SomeFits, label_token, token_in, token_of};

use asm_row::register_name;
use md_rows::{Bound, Hole, Piece, RawDescription, Register, Row, number_of_word};
use rtl_tree::{Cell, Lab, NameList, Names};

/// A token as it is written.
#[derive(Clone, Copy, Debug, PartialEq, Eq)]
pub(crate) enum Shown<'a> {
    Name(&'a [u8]),
    /// The name of an object or a function, which stands behind an underscore.
    Symbol(&'a [u8]),
    /// The label of a block.
    Block(u32),
    Number(i64),
    Mark(u8),
}

fn name_at(names: &NameList, place: u16) -> Option<&[u8]>
    ensures found { IfSome result (λ name. slice_get names.now place ≡ Some name.now) }
    ensures long { IfSome result (λ name. length name.now ≤ 63) }
    ensures none { IfNone result (slice_get names.now place ≡ None) }
{
    names.get(usize::from(place))
}

fn of_register(registers: &[Register], class: u64, number: u8) -> Shown<'_>
    requires named { IsTrue (is_some (register_name registers.now number)) }
    requires class { IsTrue (is_in class number) }
    ensures token { option_map NameToken (register_name registers.now number) ≡ Some (token_of result) }
    ensures short { length (spelling (token_of result)) ≤ longest_name class registers.now }
    ensures word { IsTrue (is_word (token_of result)) }
{
    match register_name(registers, number) {
        Some(name) => Shown::Name(name),
        None => unreachable!(),
    }
}

fn of_number(bits: u32, low: i64, high: i64, inverted: bool, word: u32) -> Shown<'static>
    requires size { IsWordSize bits }
    requires word { word < 2 ^ bits }
    requires printed { IsTrue (is_some (printed bits low high inverted word)) }
    ensures token { option_map NumberToken (printed bits low high inverted word) ≡ Some (token_of result) }
    ensures short { length (spelling (token_of result)) ≤ 11 }
    ensures word { IsTrue (is_word (token_of result)) }
{
    match number_of_word(bits, low, high, inverted, word) {
        Some(number) => Shown::Number(number),
        None => unreachable!(),
    }
}

fn of_name(names: &NameList, place: u16) -> Shown<'_>
    requires named { IsTrue (is_some (slice_get names.now place)) }
    ensures token { option_map symbol_token (slice_get names.now place) ≡ Some (token_of result) }
    ensures short { length (spelling (token_of result)) ≤ 64 }
    ensures word { IsTrue (is_word (token_of result)) }
{
    match name_at(names, place) {
        Some(name) => Shown::Symbol(name),
        None => unreachable!(),
    }
}

fn of_block(number: u32) -> Shown<'static>
    ensures token { block_token number ≡ token_of result }
    ensures short { length (spelling (token_of result)) ≤ 64 }
    ensures word { IsTrue (is_word (token_of result)) }
{
    Shown::Block(number)
}

fn of_label(names: &Names, label: Lab) -> Shown<'_>
    requires some { IsTrue (is_some (label_token names.now label)) }
    ensures token { label_token names.now label ≡ Some (token_of result) }
    ensures short { length (spelling (token_of result)) ≤ 64 }
    ensures word { IsTrue (is_word (token_of result)) }
{
    match label {
        Lab::Block(number) => of_block(number),
        Lab::Function(place) => of_name(&names.functions, place),
    }
}

// The token of what stands in a hole.
fn of_hole<'a>(d: &'a RawDescription, names: &'a Names, hole: Hole, bound: Bound) -> Shown<'a>
    requires size { IsWordSize d.now.word }
    requires fits { IsTrue (fits d.now.word (general_set d.now.registers) hole bound) }
    requires some { IsTrue (is_some (hole_token d.now.word (naming_of d.now names.now) (Some hole) (Some bound))) }
    ensures token { hole_token d.now.word (naming_of d.now names.now) (Some hole) (Some bound) ≡ Some (token_of result) }
    ensures short { length (spelling (token_of result)) ≤ hole_bytes d.now.registers (Some hole) }
    ensures word { IsTrue (is_word (token_of result)) }
{
    match (hole, bound) {
        (Hole::Reg(class), Bound::Reg(Cell::Hard(number))) => {
            of_register(d.registers.as_slice(), class, number)
        }
        (
            Hole::Num {
                low,
                high,
                inverted,
            },
            Bound::Num(word),
        ) => of_number(d.word, low, high, inverted, word),
        (Hole::Sym, Bound::Sym(place)) => of_name(&names.objects, place),
        (Hole::Label, Bound::Label(label)) => of_label(names, label),
        _ => unreachable!(),
    }
}

fn of_some<'a>(
    d: &'a RawDescription,
    names: &'a Names,
    hole: Option<Hole>,
    bound: Option<Bound>,
) -> Shown<'a>
    requires size { IsWordSize d.now.word }
    requires fits { SomeFits d.now.word (general_set d.now.registers) hole bound }
    requires some { IsTrue (is_some (hole_token d.now.word (naming_of d.now names.now) hole bound)) }
    ensures token { hole_token d.now.word (naming_of d.now names.now) hole bound ≡ Some (token_of result) }
    ensures short { length (spelling (token_of result)) ≤ hole_bytes d.now.registers hole }
    ensures word { IsTrue (is_word (token_of result)) }
{
    match hole {
        Some(hole) => match bound {
            Some(bound) => of_hole(d, names, hole, bound),
            None => unreachable!(),
        },
        None => unreachable!(),
    }
}

fn hole_at(holes: &[Hole], place: u8) -> Option<Hole>
    ensures { result ≡ slice_get holes.now place }
{
    holes.get(usize::from(place)).copied()
}

fn bound_at(binding: &[Bound], place: u8) -> Option<Bound>
    ensures { result ≡ slice_get binding.now place }
{
    binding.get(usize::from(place)).copied()
}

/// The token of a piece of a row's text, with these values in the row's holes.
#[tactic(auto, using(crate::proofs::Printed::fits_at))]
pub(crate) fn of_piece<'a>(
    d: &'a RawDescription,
    names: &'a Names,
    row: &'a Row,
    binding: &[Bound],
    piece: &'a Piece,
) -> Shown<'a>
    requires size { IsWordSize d.now.word }
    requires fit { AllFit d.now.word (general_set d.now.registers) row.now.holes binding.now }
    requires some { IsTrue (is_some (token_in d.now names.now row.now binding.now piece.now)) }
    ensures token { token_in d.now names.now row.now binding.now piece.now ≡ Some (token_of result) }
    ensures short { length (spelling (token_of result)) ≤ piece_bytes d.now.registers row.now.holes piece.now }
    ensures word { is_word (token_of result) ≡ is_word_piece piece.now }
{
    match piece {
        Piece::Name(name) => Shown::Name(name.as_slice()),
        Piece::Num(number) => Shown::Number(*number),
        Piece::Byte(mark) => Shown::Mark(*mark),
        Piece::Hole(place) => {
            let hole = hole_at(row.holes.as_slice(), *place);
            of_some(d, names, hole, bound_at(binding, *place))
        }
    }
}
