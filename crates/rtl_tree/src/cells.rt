//! Cells and labels.

ghost use Rattle.std.specs.Prelude.{◌≡◌};
ghost use Rattle.rtl_tree.specs.Same.{same_cell, same_label};

/// What a tree reads and a transfer assigns, memory aside.
#[derive(Clone, Copy, Debug, PartialEq, Eq)]
pub enum Cell {
    /// A hard register.
    Hard(u8),
    /// A temporary, which has no place in the machine yet.
    Temp(u16),
    /// A flag, which holds a pair of compared words or is lost.
    Flag(u8),
    /// The program counter.
    Pc,
    /// The next byte of the input, or -1 at its end.
    Input,
    /// Where a byte of the output goes.
    Output,
    /// Where the status goes with which the run ends.
    Halt,
    /// The register hole of a description's row, by its place among the row's holes.
    Hole(u8),
}

/// A place in the code.
#[derive(Clone, Copy, Debug, PartialEq, Eq)]
pub enum Lab {
    /// The label of a block, by its number.
    Block(u32),
    /// The first instruction of a function, by the function's place among the names.
    Function(u16),
}

/// Whether two cells are one.
pub fn is_same(c: Cell, d: Cell) -> bool
    ensures { result ≡ same_cell c d }
{
    c == d
}

/// Whether two labels are one.
pub fn is_same_label(l: Lab, m: Lab) -> bool
    ensures { result ≡ same_label l m }
{
    l == m
}
