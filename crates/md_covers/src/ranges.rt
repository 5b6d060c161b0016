//! Whether a number hole has all numbers of a run.

ghost use Rattle.std.specs.Prelude.{◌≡◌, ◌<◌, ◌^◌, pos};
ghost use Rattle.rtl_word.specs.Words.{IsWordSize};
ghost use Rattle.md_covers.specs.Ranges.{next_above, run_test};

fn word_count(bits: u32) -> i64
    requires size { IsWordSize bits }
    ensures { result ≡ pos (2 ^ bits) }
{
    if bits == 16 { 0x1_0000 } else { 0x1_0000_0000 }
}

fn after(a: u32, step: u32, high: u64) -> u64
    requires step { 0 < step }
    requires step_size { step < 256 }
    requires high { high < 2 ^ 63 }
    ensures { result ≡ next_above a step high }
{
    let a = u64::from(a);
    let step = u64::from(step);
    if high < a {
        a
    } else {
        a + ((high - a) / step + 1) * step
    }
}

/// Whether a hole for the numbers from `low` to `high` has each of the words a, a + step, .., z.
pub(crate) fn has_run(bits: u32, low: i64, high: i64, a: u32, z: u32, step: u32) -> bool
    requires size { IsWordSize bits }
    requires step { 0 < step }
    requires step_size { step < 256 }
    ensures { result ≡ run_test bits low high a z step }
{
    let size = word_count(bits);
    let first = i64::from(a);
    let last = i64::from(z);
    if low >= 0 {
        return low <= first && last <= high;
    }
    if high < 0 {
        return low + size <= first && last <= high + size;
    }
    let next = after(a, step, high as u64);
    if u64::from(z) < next {
        return true;
    }
    low + size <= next as i64
}
