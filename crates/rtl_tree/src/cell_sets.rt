//! Sets of cells.

ghost use Rattle.std.specs.Prelude.{◌==◌, ◌≡◌};
ghost use Rattle.std.specs.Int.{bit_at};
ghost use Rattle.rtl_tree.specs.Sets.{bits_of, has_cell};

use crate::cells::Cell;

/// A set of hard registers, flags and temporaries, with a bit for each.
#[derive(Clone, Copy, Debug)]
pub struct CellSet<'a> {
    hard: u64,
    flags: u8,
    temps: &'a [u64],
}

fn has_bit(bits: u64, n: u64) -> bool
    ensures { result ≡ (bit_at bits n == 1) }
{
    n < 64 && bits >> n & 1 == 1
}

impl<'a> CellSet<'a> {
    /// The set with the hard registers of `hard`, the flags of `flags` and the temporaries of `temps`, whose bit n % 64 of the number
    /// at n / 64 is for temporary n.
    pub fn of(hard: u64, flags: u8, temps: &'a [u64]) -> CellSet<'a>
        ensures { bits_of result ≡ record { hard = hard; flags = flags; temps = temps.now } }
    {
        CellSet { hard, flags, temps }
    }

    /// Whether a cell is in the set. A cell of another kind is not.
    pub fn has(&self, c: Cell) -> bool
        ensures { result ≡ has_cell (bits_of self.now) c }
    {
        match c {
            Cell::Hard(n) => has_bit(self.hard, u64::from(n)),
            Cell::Flag(n) => has_bit(u64::from(self.flags), u64::from(n)),
            Cell::Temp(n) => match self.temps.get(usize::from(n) / 64) {
                Some(bits) => has_bit(*bits, u64::from(n) % 64),
                None => false,
            },
            _ => false,
        }
    }
}
