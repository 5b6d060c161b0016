//! The bytes of a number.

ghost use Rattle.std.specs.Prelude.{◌≡◌, ◌++◌, ◌≤◌, IfOk};
ghost use Rattle.asm_program.specs.Places.{magnitude};
ghost use Rattle.asm_program.specs.Programs.{low_bytes, residue};

use rtl_tree::NoMemory;

/// A number modulo `modulus`, which is at least its size.
pub(crate) fn residue(modulus: u64, number: i64) -> u64
    requires size { magnitude number ≤ modulus }
    ensures { result ≡ residue modulus number }
{
    let size = number.unsigned_abs();
    if number < 0 { modulus - size } else { size }
}

/// Bytes, with so many low ones of a number, the lowest first.
pub(crate) fn with_low(bytes: Vec<u8>, count: usize, number: u64) -> Result<Vec<u8>, NoMemory>
    ensures { IfOk result (λ more. more.items ≡ bytes.items ++ low_bytes count number) }
{
    if count == 0 {
        return Ok(bytes);
    }
    let mut bytes = bytes;
    bytes.push((number % 256) as u8)?;
    with_low(bytes, count - 1, number / 256)
}
