//! Words with a bit for each temporary: bit n % 64 of word n / 64 is for temporary n.

ghost use Rattle.std.specs.Prelude.{◌≡◌, ◌<◌, ◌/◌, ◌==◌, ◌&&◌, not, ℕ, true, IfOk, slice_index};
ghost use Rattle.flow_live.specs.Rows.{has_bit as has_bit_in, has_temporary};

use rtl_tree::NoMemory;
use std::alloc::Global;

fn has_bit(word: u64, n: u64) -> bool
    requires { n < 64 }
    ensures { result ≡ has_bit_in word n }
{
    word >> n & 1 == 1
}

fn without_bit(word: u64, n: u64) -> u64
    requires { n < 64 }
    ensures { (k : ℕ) → k < 64 → has_bit_in result k ≡ (has_bit_in word k && not (k == n)) }
{
    word & !(1 << n)
}

fn word_at(words: &[u64], i: usize) -> u64
    ensures { result ≡ slice_index words.now i }
{
    match words.get(i) {
        Some(word) => *word,
        None => 0,
    }
}

pub(crate) fn has(words: &[u64], n: usize) -> bool
    ensures { result ≡ has_temporary words.now n }
{
    has_bit(word_at(words, n / 64), (n % 64) as u64)
}

/// Words with all bits.
pub(crate) fn full(alloc: Global, count: usize) -> Result<Vec<u64>, NoMemory>
    ensures { IfOk result (λ words. (k : ℕ) → k / 64 < count → has_temporary words.items k ≡ true) }
{
    Ok(vec![in alloc; u64::MAX; count]?)
}

pub(crate) fn remove(words: &mut [u64], n: usize)
    ensures { (k : ℕ) → has_temporary words.new k ≡ (has_temporary words.old k && not (k == n)) }
{
    let at = n / 64;
    if at < words.len() {
        words[at] = without_bit(words[at], (n % 64) as u64);
    }
}

/// Keeps the bits that the other words have too.
pub(crate) fn keep(words: &mut [u64], other: &[u64])
    ensures { (k : ℕ) → has_temporary words.new k ≡ (has_temporary words.old k && has_temporary other.now k) }
{
    for i in 0..words.len() {
        words[i] &= word_at(other, i);
    }
}
