//! A machine with some lines replaced, and what is told of it.

use rtl_tree::NoMemory;
use std::alloc::Global;

/// The first line, how many are replaced, what stands there then, the line at which a rule is told, and the detail.
pub type Edit = (usize, usize, &'static str, u32, u32);

/// The first line, how many are replaced, what stands there then, and how many rows the accepted text has.
pub type Mend = (usize, usize, &'static str, usize);

/// The text with lines replaced; lines are counted from 1, and `first` may be the one behind the last.
pub fn edited(
    alloc: Global,
    text: &[u8],
    first: usize,
    count: usize,
    new: &[u8],
) -> Result<Vec<u8>, NoMemory> {
    let mut made = Vec::new(alloc);
    let mut number = 1usize;
    for line in text.split_inclusive(|byte| *byte == b'\n') {
        if number == first {
            made.extend_from_slice(new)?;
        }
        if number < first || number.saturating_sub(first) >= count {
            made.extend_from_slice(line)?;
        }
        number = number.saturating_add(1);
    }
    if number == first {
        made.extend_from_slice(new)?;
    }
    Ok(made)
}
