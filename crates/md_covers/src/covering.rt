//! Whether a row covers a shape.

ghost use Rattle.std.specs.Prelude.{◌≡◌, ◌≤◌, ◌↔◌, IsTrue, length};
ghost use Rattle.rtl_word.specs.Words.{IsWordSize};
ghost use Rattle.md_shapes.specs.Drawings.{frame_of};
ghost use Rattle.md_covers.specs.Covers.{Covers, IsReadRow};
ghost use Rattle.md_covers.specs.Subjects.{CoversWith, IsSeen};

use crate::lines::fits_line;
use crate::numbers::{are_taken, first_number, has_numbers};
use crate::openness::are_open;
use crate::registers::{frame_in, general_bits};
use md_rows::{Hole, Piece, RawDescription, Row};
use md_shapes::{Frame, Pattern, Shape, Subject, does_shape, pattern_of};
use rtl_tree::{Assign, Effects};
use rtl_word::Word;

// The example decides for a shape without numbers. Where there are some, each number of the row that one of the shape's could meet
// must stand in a hole, and the holes must have them all.
fn covers_pattern(t: &Subject, frame: Frame, pattern: Pattern) -> bool
    requires { IsSeen t.now }
    ensures { IsTrue result ↔ CoversWith t.now.bits t.now.general t.now.holes.now t.now.row.now (frame_of t.now.bits frame) pattern }
{
    if !does_shape(t, frame, pattern, first_number(t.bits, pattern)) {
        return false;
    }
    if !has_numbers(pattern) {
        return true;
    }
    are_open(t.row) && are_taken(t.bits, pattern, t.holes)
}

fn holes_of(r: &Row) -> &[Hole]
    ensures { result.now ≡ r.now.holes }
{
    r.holes.as_slice()
}

fn text_of(r: &Row) -> &[Piece]
    ensures { result.now ≡ r.now.text }
{
    r.text.as_slice()
}

fn moves_of(e: &Effects) -> &[Assign]
    ensures moves { result.now ≡ e.now }
    ensures few { length result.now ≤ 6 }
{
    e.list.as_slice()
}

fn normal_of(r: &Row) -> &[Assign]
    ensures moves { result.now ≡ r.now.normal }
    ensures few { length result.now ≤ 6 }
{
    moves_of(&r.normal)
}

fn covers_row(bits: u32, general: u64, r: &Row, frame: Frame, pattern: Pattern) -> bool
    requires size { IsWordSize bits }
    requires few { length r.now.holes ≤ 8 }
    requires row { IsReadRow bits r.now }
    ensures { IsTrue result ↔ CoversWith bits general r.now.holes r.now.normal (frame_of bits frame) pattern }
{
    let holes = holes_of(r);
    let row = normal_of(r);
    let subject = Subject {
        bits,
        general,
        holes,
        row,
    };
    covers_pattern(&subject, frame, pattern)
}

fn covers_by(bits: u32, d: &RawDescription, r: &Row, s: Shape) -> bool
    requires size { IsWordSize bits }
    requires word { d.now.word ≡ bits }
    requires row { IsReadRow bits r.now }
    ensures { IsTrue result ↔ Covers d.now r.now s }
{
    let (Some(frame), Some(pattern)) = (frame_in(d), pattern_of(s)) else {
        return false;
    };
    let registers = d.registers.as_slice();
    let holes = holes_of(r);
    if holes.len() > 8 {
        return false;
    }
    if !fits_line(registers, holes, text_of(r)) {
        return false;
    }
    covers_row(bits, general_bits(registers), r, frame, pattern)
}

/// Whether a row covers a shape: for all registers and numbers of the shape some binding makes the row do it. The row's effects name
/// no temporary, symbol or label of their own, as in every row that a text gives. Takes no memory.
pub fn covers<W: Word>(d: &RawDescription, r: &Row, s: Shape) -> bool
    requires word { d.now.word ≡ W.BITS }
    requires row { IsReadRow W.BITS r.now }
    ensures { IsTrue result ↔ Covers d.now r.now s }
{
    covers_by(W::BITS, d, r, s)
}
