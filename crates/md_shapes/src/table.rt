//! The list of the shapes.

ghost use Rattle.std.specs.Prelude.{◌≡◌, ◌<◌};
ghost use Rattle.md_shapes.specs.Shapes.{all_shapes, shape_by};

use rtl_word::Rel;

/// One transfer of a shape, by the shape's number.
#[derive(Clone, Copy, Debug, PartialEq, Eq)]
pub struct Shape {
    pub number: u8,
    /// 0 for the first or only transfer, 1 for the second alternative of shape 18 and for the flag's transfer of shape 20, and 2 for
    /// the flag's jump of shape 20.
    pub form: u8,
    /// `Eq` where it is of no use.
    pub relation: Rel,
    /// 0 where it is of no use.
    pub flag: u8,
}

/// How many there are.
pub const SHAPES: usize = 137;

/// The list of the shapes, by number and then in the order of the fields.
#[derive(Clone, Copy, Debug)]
pub struct ShapeTable {
    pub list: [Shape; 137],
}

const RELATIONS: [Rel; 10] = [
    Rel::Eq,
    Rel::Ne,
    Rel::Lt,
    Rel::Le,
    Rel::Gt,
    Rel::Ge,
    Rel::Ltu,
    Rel::Leu,
    Rel::Gtu,
    Rel::Geu,
];

fn shape_at(place: usize) -> Shape
    requires { place < 137 }
    ensures { result ≡ shape_by place }
{
    let (number, form, relation, flag) = match place {
        0..=17 => (place + 1, 0, Rel::Eq, 0),
        18 => (18, 1, Rel::Eq, 0),
        19 => (19, 0, Rel::Eq, 0),
        20..=29 => (20, 0, RELATIONS[place - 20], 0),
        30..=37 => (20, 1, Rel::Eq, place - 30),
        38..=117 => (20, 2, RELATIONS[(place - 38) / 8], (place - 38) % 8),
        _ => (place - 97, 0, Rel::Eq, 0),
    };
    Shape {
        number: number as u8,
        form,
        relation,
        flag: flag as u8,
    }
}

/// All shapes.
pub fn shapes() -> ShapeTable
    ensures { result.list ≡ all_shapes }
{
    let mut list = [shape_at(0); 137];
    for place in 0..137 {
        list[place] = shape_at(place);
    }
    ShapeTable { list }
}
