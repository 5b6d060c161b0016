//! What a line of the data part adds to the bytes before it.

ghost use Rattle.std.specs.Prelude.{◌≡◌, ◌++◌, ◌<◌, ◌≤◌, ◌^◌, ◌⊎◌, ◌∷◌, [], IfOk, List, length, replicate};
ghost use Rattle.asm_token.specs.Tokens.{Token};
ghost use Rattle.asm_program.specs.Places.{aligned, magnitude};
ghost use Rattle.asm_program.specs.Programs.{bytes_after, low_bytes, padded, residue};
ghost use Rattle.asm_labels.specs.Seen.{seen};
ghost use Rattle.asm_data.specs.Data.{HasByte, HasNumber};

use crate::numbers::{residue, with_low};
use asm_labels::Said;
use rtl_tree::NoMemory;

fn aligned(size: usize, reach: usize) -> usize
    requires size { (0 < size) × (size ≤ 4) }
    requires reach { reach < 4294967296 }
    ensures value { result ≡ aligned size reach }
{
    size * ((reach + (size - 1)) / size)
}

fn padded(size: usize, mut bytes: Vec<u8>) -> Result<Vec<u8>, NoMemory>
    requires size { (0 < size) × (size ≤ 4) }
    requires reach { length bytes.items < 4294967296 }
    ensures { IfOk result (λ more. more.items ≡ padded size bytes.items) }
{
    let end = aligned(size, bytes.len());
    bytes.resize(end, 0)?;
    Ok(bytes)
}

// 256 to the number of bytes of a word.
fn modulus(size: usize) -> u64
    requires size { (size ≡ 2) ⊎ (size ≡ 4) }
    ensures { result ≡ 256 ^ size }
{
    if size == 2 { 0x1_0000 } else { 0x1_0000_0000 }
}

fn with_word(size: usize, bytes: Vec<u8>, number: i64) -> Result<Vec<u8>, NoMemory>
    requires size { (size ≡ 2) ⊎ (size ≡ 4) }
    requires reach { length bytes.items < 4294967296 }
    requires number { magnitude number ≤ 256 ^ size }
    ensures { IfOk result (λ more. more.items ≡ padded size bytes.items ++ low_bytes size (residue (256 ^ size) number)) }
{
    let bytes = padded(size, bytes)?;
    with_low(bytes, size, residue(modulus(size), number))
}

fn with_byte(mut bytes: Vec<u8>, number: i64) -> Result<Vec<u8>, NoMemory>
    requires number { HasByte number }
    ensures { IfOk result (λ more. more.items ≡ bytes.items ++ residue 256 number ∷ []) }
{
    bytes.push(residue(256, number) as u8)?;
    Ok(bytes)
}

fn with_space(mut bytes: Vec<u8>, number: i64) -> Result<Vec<u8>, NoMemory>
    requires reach { length bytes.items < 4294967296 }
    requires number { magnitude number < 4294967296 }
    ensures { IfOk result (λ more. more.items ≡ bytes.items ++ replicate (magnitude number) 0) }
{
    let end = bytes.len() + number.unsigned_abs() as usize;
    bytes.resize(end, 0)?;
    Ok(bytes)
}

/// The bytes behind a line of the data part.
pub(crate) fn bytes_after(size: usize, bytes: Vec<u8>, said: Said<'_>) -> Result<Vec<u8>, NoMemory>
    requires size { (size ≡ 2) ⊎ (size ≡ 4) }
    requires reach { length bytes.items < 4294967296 }
    requires number { HasNumber size said }
    ensures { IfOk result (λ more. (ts : List Token) → more.items ≡ bytes_after size bytes.items (seen said.entry ts)) }
{
    match said {
        Said::Labelled(_) => padded(size, bytes),
        Said::Word(number) => with_word(size, bytes, number),
        Said::Byte(number) => with_byte(bytes, number),
        Said::Space(number) => with_space(bytes, number),
        _ => Ok(bytes),
    }
}
