//! The overlap of a description that is told.

ghost use Rattle.std.specs.Prelude.{◌≡◌, ◌⊎◌, ◌↔◌, ◌<◌, ◌≤◌, ℕ, IsTrue, Some, length, slice_get};
ghost use Rattle.md_overlap.specs.Overlap.{HasOverlap, Overlap, OverlapsBefore};
ghost use Rattle.md_overlap.specs.Premises.{AreInOrder, AreNames, HaveRanges};
ghost use Rattle.md_overlap.specs.Least.{IsLeast, IsLeastPair};

use crate::rows::overlaps;
use md_rows::{RawDescription, Row};

/// The lines of two rows that overlap.
#[derive(Clone, Copy, Debug, PartialEq, Eq)]
pub struct Overlapping {
    /// The line of the later row.
    pub line: u32,
    /// The line of the earlier one.
    pub earlier: u32,
}

fn is_less(line: u32, best: Option<u32>) -> bool
    ensures { IsTrue result ↔ ((n : ℕ) → best ≡ Some n → line < n) }
{
    match best {
        Some(least) => line < least,
        None => true,
    }
}

// The lesser of a line and that of another row, where this overlaps a row.
fn with_other(d: &RawDescription, row: &Row, other: &Row, best: Option<u32>) -> Option<u32>
    requires names { AreNames d.now.registers }
    requires ranges { AreInOrder row.now.holes }
    requires other_ranges { AreInOrder other.now.holes }
    ensures { IsLeast (λ l. (best ≡ Some l) ⊎ (Overlap d.now row.now other.now × (other.now.line ≡ l))) result }
{
    if is_less(other.line, best) && overlaps(d, row, other) {
        Some(other.line)
    } else {
        best
    }
}

// The least line of a row before a place that overlaps the row at the place.
fn least_earlier(d: &RawDescription, place: usize) -> Option<u32>
    requires names { AreNames d.now.registers }
    requires ranges { HaveRanges d.now.rows }
    requires within { place < length d.now.rows }
    ensures { (row : Row) → slice_get d.now.rows place ≡ Some row → IsLeast (OverlapsBefore d.now row place) result }
{
    let rows = d.rows.as_slice();
    let row = &rows[place];
    let mut best = None;
    for i in 0..place {
        best = with_other(d, row, &rows[i], best);
    }
    best
}

fn with_later(best: Option<Overlapping>, line: u32, earlier: Option<u32>) -> Option<Overlapping>
    ensures { IsLeastPair (λ l e. (best ≡ Some (record { line = l; earlier = e })) ⊎ ((line ≡ l) × (earlier ≡ Some e))) result }
{
    match (best, earlier) {
        (_, None) => best,
        (None, Some(earlier)) => Some(Overlapping { line, earlier }),
        (Some(least), Some(earlier)) => {
            if line < least.line || line == least.line && earlier < least.earlier {
                Some(Overlapping { line, earlier })
            } else {
                best
            }
        }
    }
}

/// The least line of a row that overlaps an earlier one, with the least line of such an earlier row.
pub fn first_overlap(d: &RawDescription) -> Option<Overlapping>
    requires names { AreNames d.now.registers }
    requires ranges { HaveRanges d.now.rows }
    ensures { IsLeastPair (HasOverlap d.now) result }
{
    let rows = d.rows.as_slice();
    let mut best = None;
    for i in 0..rows.len() {
        let row = &rows[i];
        best = with_later(best, row.line, least_earlier(d, i));
    }
    best
}
