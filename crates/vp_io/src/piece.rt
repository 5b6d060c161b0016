//! Copies of pieces.

ghost use Rattle.std.specs.Prelude.{◌≡◌, ◌≤◌, ◌-◌, min, length, take, drop};

/// Copies the bytes from the place `at` on, at most `most` of them, to the front of `into`.
pub fn copy_piece(bytes: &[u8], at: usize, most: usize, into: &mut [u8]) -> usize
    requires { at ≤ length bytes.now }
    ensures count { result ≡ min (min (length into.old) most) (length bytes.now - at) }
    ensures bytes { take result into.new ≡ take result (drop at bytes.now) }
{
    let rest = &bytes[at..];
    let count = into.len().min(most).min(rest.len());
    into[..count].copy_from_slice(&rest[..count]);
    count
}
