//! How a table is tested.

use c_examples::rows::Row;
use std::alloc::Global;
use std::process::Abort;

/// Ends the test at the first row that doesn't hold.
pub fn check<R: Row>(rt: &impl Abort, alloc: Global, table: &str, rows: &[R]) {
    for (place, row) in rows.iter().enumerate() {
        assert!(rt; row.holds(alloc), "row {place} of {table}");
    }
}
