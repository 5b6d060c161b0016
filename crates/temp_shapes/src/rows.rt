//! The row of a description for each shape.

ghost use Rattle.std.specs.Prelude.{◌≡◌, ◌≤◌, length, true};
ghost use Rattle.md_rows.specs.declared.description.RawDescription.{RawDescription as Description};
ghost use Rattle.md_check.specs.Checking.{AreReadRows};
ghost use Rattle.temp_shapes.specs.Patterns.{is_listed};
ghost use Rattle.temp_shapes.specs.Rows.{AreShapeRows, HasRows, IsRowFor, IsRowOf};

use crate::description::frame_of;
use crate::places::place_of;
use md_check::Checked;
use md_covers::covers;
use md_rows::RawDescription;
use md_said::{said_is_limited, said_is_sound};
use md_shapes::{Frame, Pattern, Shape, shapes};
use rtl_word::Word;

/// For each shape, by its place in the list of the shapes, the row of a description that covers it; and what the description fixes of
/// the shapes.
#[derive(Clone, Copy, Debug)]
pub struct ShapeRows {
    pub frame: Frame,
    pub rows: [Option<u16>; 137],
}

fn first_covering<W: Word>(d: &RawDescription, shape: Shape) -> Option<u16>
    requires word { d.now.word ≡ W.BITS }
    requires few { length d.now.rows ≤ 4096 }
    requires rows { AreReadRows W.BITS d.now.rows }
    ensures { IsRowOf d.now shape result }
{
    let rows = d.rows.as_slice();
    for i in 0..rows.len() {
        if covers::<W>(d, &rows[i], shape) {
            return Some(i as u16);
        }
    }
    None
}

fn all_covering<W: Word>(d: &RawDescription) -> [Option<u16>; 137]
    requires word { d.now.word ≡ W.BITS }
    requires few { length d.now.rows ≤ 4096 }
    requires rows { AreReadRows W.BITS d.now.rows }
    ensures { HasRows d.now result 137 }
{
    let list = shapes().list;
    let mut rows = [None; 137];
    for place in 0..137 {
        rows[place] = first_covering::<W>(d, list[place]);
    }
    rows
}

impl ShapeRows {
    /// The table of a description. Takes no memory.
    pub fn new<W: Word>(m: &Checked<W>) -> ShapeRows
        ensures { AreShapeRows m.now result }
    {
        said_is_sound();
        said_is_limited();
        let d = m.raw();
        ShapeRows {
            frame: frame_of(d),
            rows: all_covering::<W>(d),
        }
    }

    /// The row that covers the shape of a pattern, if one does.
    pub fn row_for(&self, pattern: Pattern) -> Option<u16>
        requires { is_listed pattern ≡ true }
        ensures { (d : Description) → AreShapeRows d self.now → IsRowFor d pattern result }
    {
        self.rows[place_of(pattern)]
    }
}
