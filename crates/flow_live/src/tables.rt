//! The table of what is dead at each place of a code.

ghost use Rattle.std.specs.Prelude.{◌≡◌, ◌<◌, ◌^◌, ℕ, Some, length};
ghost use Rattle.rtl_tree.specs.Sets.{bits_of};
ghost use Rattle.temp_machine.specs.Routines.{Routine, Target};
ghost use Rattle.temp_machine.specs.Live.{IsLive, IsLiveAfter, Item, item_at};
ghost use Rattle.flow_live.specs.Dead.{HoldsDead, is_told};
ghost use Rattle.flow_live.specs.Tables.{IsLiveness, row_back, rows_at, set_after, set_at, set_by};

use crate::rows::Row;
use rtl_tree::CellSet;

/// Which cells are dead at each place of a code. For each block it has a row for the place behind its end, and one for each place before, up to
/// its begin.
#[derive(Drop)]
pub struct Live {
    pub blocks: Vec<Vec<Row>>,
}

/// The row that stands so many rows before the last.
fn row_back(rows: &[Row], back: usize) -> CellSet<'_>
    requires { back < 2 ^ 60 }
    ensures { bits_of result ≡ set_by (row_back rows.now back) }
{
    if back < rows.len() {
        rows[rows.len() - 1 - back].set()
    } else {
        CellSet::of(0, 0, &[])
    }
}

/// The words of temporaries in the row that stands so many rows before the last.
fn words_back(rows: &[Row], back: usize) -> &[u64]
    requires { back < 2 ^ 60 }
    ensures { result.now ≡ (set_by (row_back rows.now back)).temps }
{
    if back < rows.len() {
        rows[rows.len() - 1 - back].temporaries.as_slice()
    } else {
        &[]
    }
}

impl Live {
    fn rows_at(&self, block: u32) -> &[Row]
        ensures { result.now ≡ rows_at self.now block }
    {
        match self.blocks.get(block as usize) {
            Some(rows) => rows.as_slice(),
            None => &[],
        }
    }

    /// The cells that are dead at the begin of a block, of those that code may have: registers 0 to 63, flags 0 to 7, and temporaries with a home.
    pub fn dead_at(&self, block: u32) -> CellSet<'_>
        ensures set { bits_of result ≡ set_at self.now block }
        ensures dead { (t : Target) (r : Routine) → IsLiveness t r self.now → block < length r.blocks
            → HoldsDead (is_told (length r.homes)) (bits_of result) (λ c. IsLive t r c (record { block = block; at = 0 })) }
    {
        row_back(self.rows_at(block), 0)
    }

    /// The cells that are dead behind the transfer at a place of a block, or behind its end, which stands behind its transfers.
    pub fn dead_after(&self, block: u32, place: u32) -> CellSet<'_>
        ensures set { bits_of result ≡ set_after self.now block place }
        ensures dead { (t : Target) (r : Routine) (x : Item) → IsLiveness t r self.now → item_at r (record { block = block; at = place }) ≡ Some x
            → HoldsDead (is_told (length r.homes)) (bits_of result) (λ c. IsLiveAfter t r c (record { block = block; at = place })) }
    {
        row_back(self.rows_at(block), place as usize + 1)
    }

    /// The words of `dead_at`: bit n % 64 of word n / 64 says whether temporary n is dead.
    pub fn dead_words_at(&self, block: u32) -> &[u64]
        ensures { result.now ≡ (set_at self.now block).temps }
    {
        words_back(self.rows_at(block), 0)
    }

    /// The words of `dead_after`.
    pub fn dead_words_after(&self, block: u32, place: u32) -> &[u64]
        ensures { result.now ≡ (set_after self.now block place).temps }
    {
        words_back(self.rows_at(block), place as usize + 1)
    }
}
