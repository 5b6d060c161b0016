//! Tables of examples.

use std::alloc::Global;
#[cfg(test)]
use std::process::Abort;

/// A row of a table.
pub trait Row {
    /// Whether it is as the row says.
    fn holds(&self, alloc: Global) -> bool;
}

/// Ends the test at the first row that doesn't hold.
#[cfg(test)]
pub fn check<R: Row>(rt: &impl Abort, alloc: Global, table: &str, rows: &[R]) {
    for (place, row) in rows.iter().enumerate() {
        assert!(rt; row.holds(alloc), "row {place} of {table}");
    }
}
