//! An index of the rows of a description.

ghost use Rattle.std.specs.Prelude.{◌≡◌, IfOk, List, MatchOption};
ghost use Rattle.asm_token.specs.Tokens.{Token};
ghost use Rattle.asm_row.specs.Walk.{IsLine};
ghost use Rattle.asm_row.specs.Readable.{IsReadable};
ghost use Rattle.asm_row.specs.Found.{IsFound, NoRow, values_of};

use crate::finding::find_by;
use crate::listing::{Index, index_of};
use crate::reading::Values;
use md_rows::RawDescription;
use rtl_tree::NoMemory;
use std::alloc::Global;
use std::marker::Model;

/// A description with an index of its rows by the first tokens of their texts. Contracts see the description.
#[derive(Drop)]
pub struct RowIndex<'d> {
    description: &'d RawDescription,
    index: Index<'d>,
}

impl<'d> Model for RowIndex<'d> {
    ghost use Rattle.std.specs.Prelude.{length};
    ghost use Rattle.md_rows.specs.declared.description.RawDescription.{RawDescription};
    ghost use Rattle.md_rows.specs.contracts.description.RawDescription as d;
    ghost use Rattle.asm_row.specs.Index.{AreListed};

    ghost Value = { RawDescription };

    ghost coded = { d.the_row.coded };

    ghost view = { λ x. x.description.now };

    ghost invariant = { λ x. AreListed x.description.now (length x.description.now.rows) x.index };
}

impl<'d> RowIndex<'d> {
    /// The index of a description's rows.
    pub fn new(alloc: Global, d: &'d RawDescription) -> Result<RowIndex<'d>, NoMemory>
        requires readable { IsReadable d.now }
        ensures { IfOk result (λ rows. rows ≡ d.now) }
    {
        let index = index_of(alloc, d)?;
        Ok(RowIndex {
            description: d,
            index,
        })
    }

    /// The row of which a text is a line, and what stands in the row's holes.
    pub fn find<'a>(&self, text: &'a [u8]) -> Option<(u16, Values<'a>)>
        requires readable { IsReadable self.now }
        ensures { (ts : List Token) → IsLine text.now ts → MatchOption result (NoRow self.now ts) (λ r. IsFound self.now ts r.0 (values_of r.1.items)) }
    {
        find_by(self.description, &self.index, text)
    }
}
