//! Entries by name, and pieces of a file.

ghost use Rattle.std.specs.Prelude.{◌≡◌, ℕ, List, ◌<◌, ◌≤◌, length, position, Some};
ghost use Rattle.vp_io.specs.Files.{Gives};
ghost use Rattle.vp_io.specs.MemoryFiles.{has_name, CountsFault};

use crate::memory_files::MemFile;
use crate::piece::copy_piece;

/// Where the first entry of a name stands.
pub fn place_of(entries: &[MemFile], name: &[u8]) -> Option<usize>
    ensures { result ≡ position (has_name name.now) entries.now }
{
    entries.iter().position(|file| file.name.as_slice() == name)
}

/// Counts a fault of the file at `place`.
pub fn count_fault(entries: &mut [MemFile], place: usize)
    requires { place < length entries.old }
    ensures { (name : List ℕ) → position (has_name name) entries.old ≡ Some place →
        CountsFault name entries.old entries.new }
{
    let file = &mut entries[place];
    file.faults = file.faults.saturating_add(1);
}

/// Gives bytes of a file from the place `at` on, at most `most` of them.
pub fn file_piece(bytes: &[u8], at: u64, most: usize, into: &mut [u8]) -> usize
    requires some { 0 < most }
    requires room { 0 < length into.old }
    ensures bound { result ≤ length into.new }
    ensures gives { Gives bytes.now at result into.new }
{
    let at = bytes.len().min(at as usize);
    copy_piece(bytes, at, most, into)
}
