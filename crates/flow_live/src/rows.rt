//! Rows: sets of cells, with a bit for each.

ghost use Rattle.std.specs.Prelude.{◌≡◌, ◌≤◌, ◌<◌, ◌==◌, ◌&&◌, ◌||◌, ◌/◌, not, nat_lt, ℕ, true, false, IfOk, length, bit_and, slice_index};
ghost use Rattle.rtl_tree.specs.declared.cells.Cell.{Cell as AnyCell};
ghost use Rattle.rtl_tree.specs.declared.cells.Cell.TheVariants.{Hard};
ghost use Rattle.rtl_tree.specs.Same.{same_cell};
ghost use Rattle.rtl_tree.specs.Sets.{bits_of, has_cell};
ghost use Rattle.flow_live.specs.Rows.{Becomes, added, bits_in, has_bit, has_temporary, is_lost, is_masked, weight};

use rtl_tree::{Cell, CellSet, NoMemory};
use std::alloc::Global;

/// A set of hard registers, flags and temporaries, with a bit for each: temporary n has bit n % 64 of word n / 64. Cells that have no bit are
/// left out.
#[derive(Debug, Drop)]
pub struct Row {
    pub registers: u64,
    pub flags: u8,
    pub temporaries: Vec<u64>,
}

pub(crate) fn with_bit(word: u64, n: u64) -> u64
    requires { n < 64 }
    ensures { (k : ℕ) → k < 64 → has_bit result k ≡ (has_bit word k || (k == n)) }
{
    word | 1 << n
}

fn without_bit(word: u64, n: u64) -> u64
    requires { n < 64 }
    ensures { (k : ℕ) → k < 64 → has_bit result k ≡ (has_bit word k && not (k == n)) }
{
    word & !(1 << n)
}

fn with_flag(flags: u8, n: u8) -> u8
    requires { n < 8 }
    ensures { (k : ℕ) → k < 8 → has_bit result k ≡ (has_bit flags k || (k == n)) }
{
    flags | 1 << n
}

fn without_flag(flags: u8, n: u8) -> u8
    requires { n < 8 }
    ensures { (k : ℕ) → k < 8 → has_bit result k ≡ (has_bit flags k && not (k == n)) }
{
    flags & !(1 << n)
}

/// Whether a flag is in a byte of flags.
pub(crate) fn has_flag(flags: u8, n: u8) -> bool
    requires { n < 8 }
    ensures { result ≡ has_bit flags n }
{
    flags >> n & 1 == 1
}

fn put_temporary(words: &mut [u64], n: u16)
    ensures words { length words.new ≡ length words.old }
    ensures cells { (k : ℕ) → k / 64 < length words.old → has_temporary words.new k ≡ (has_temporary words.old k || (k == n)) }
{
    let at = usize::from(n) / 64;
    if at < words.len() {
        words[at] = with_bit(words[at], u64::from(n) % 64);
    }
}

fn remove_temporary(words: &mut [u64], n: u16)
    ensures words { length words.new ≡ length words.old }
    ensures cells { (k : ℕ) → k / 64 < length words.old → has_temporary words.new k ≡ (has_temporary words.old k && not (k == n)) }
{
    let at = usize::from(n) / 64;
    if at < words.len() {
        words[at] = without_bit(words[at], u64::from(n) % 64);
    }
}

/// Keeps the bits that the other words have too, and tells whether some fell out.
fn keep_words(words: &mut [u64], other: &[u64]) -> bool
    ensures words { length words.new ≡ length words.old }
    ensures cells { (k : ℕ) → has_temporary words.new k ≡ (has_temporary words.old k && has_temporary other.now k) }
    ensures fell { result ≡ true → added words.new < added words.old }
    ensures same { result ≡ false → words.new ≡ words.old }
{
    let mut fell = false;
    for i in 0..words.len() {
        let old = words[i];
        let kept = old & word_at(other, i);
        words[i] = kept;
        fell |= kept != old;
    }
    fell
}

fn word_at(words: &[u64], i: usize) -> u64
    ensures { result ≡ slice_index words.now i }
{
    match words.get(i) {
        Some(word) => *word,
        None => 0,
    }
}

impl Row {
    /// The row of all cells.
    pub fn full(alloc: Global, words: usize) -> Result<Row, NoMemory>
        ensures words { IfOk result (λ row. length row.temporaries.items ≡ words) }
        ensures cells { IfOk result (λ row. Becomes (λ c. true) (bits_in row) (bits_in row)) }
    {
        Ok(Row {
            registers: u64::MAX,
            flags: u8::MAX,
            temporaries: vec![in alloc; u64::MAX; words]?,
        })
    }

    /// A row with the same cells.
    pub fn copied(&self, alloc: Global) -> Result<Row, NoMemory>
        ensures { IfOk result (λ row. bits_in row ≡ bits_in self.now) }
    {
        Ok(Row {
            registers: self.registers,
            flags: self.flags,
            temporaries: Vec::from_slice(alloc, self.temporaries.as_slice())?,
        })
    }

    pub fn set(&self) -> CellSet<'_>
        ensures { bits_of result ≡ bits_in self.now }
    {
        CellSet::of(self.registers, self.flags, self.temporaries.as_slice())
    }

    /// Puts all cells in.
    pub fn fill(&mut self)
        ensures { Becomes (λ c. true) (bits_in self.old) (bits_in self.new) }
    {
        self.registers = u64::MAX;
        self.flags = u8::MAX;
        self.temporaries.as_mut_slice().fill(u64::MAX);
    }

    pub fn put(&mut self, cell: Cell)
        ensures { Becomes (λ c. has_cell (bits_in self.old) c || same_cell c cell) (bits_in self.old) (bits_in self.new) }
    {
        match cell {
            Cell::Hard(n) if n < 64 => self.registers = with_bit(self.registers, u64::from(n)),
            Cell::Flag(n) if n < 8 => self.flags = with_flag(self.flags, n),
            Cell::Temp(n) => put_temporary(&mut self.temporaries, n),
            _ => {}
        }
    }

    pub fn remove(&mut self, cell: Cell)
        ensures { Becomes (λ c. has_cell (bits_in self.old) c && not (same_cell c cell)) (bits_in self.old) (bits_in self.new) }
    {
        match cell {
            Cell::Hard(n) if n < 64 => self.registers = without_bit(self.registers, u64::from(n)),
            Cell::Flag(n) if n < 8 => self.flags = without_flag(self.flags, n),
            Cell::Temp(n) => remove_temporary(&mut self.temporaries, n),
            _ => {}
        }
    }

    /// Takes out the registers of a mask.
    pub fn remove_registers(&mut self, mask: u64)
        ensures { Becomes (λ c. has_cell (bits_in self.old) c && not (is_masked mask c)) (bits_in self.old) (bits_in self.new) }
    {
        self.registers &= !mask;
    }

    /// Puts in all flags, and all registers but those of a mask.
    pub fn lose(&mut self, spared: u64)
        ensures { Becomes (λ c. has_cell (bits_in self.old) c || is_lost spared c) (bits_in self.old) (bits_in self.new) }
    {
        self.registers |= !spared;
        self.flags = u8::MAX;
    }

    /// Keeps the cells that the other row has too, and tells whether some fell out.
    pub fn keep(&mut self, other: &Row) -> bool
        ensures cells { Becomes (λ c. has_cell (bits_in self.old) c && has_cell (bits_in other.now) c) (bits_in self.old) (bits_in self.new) }
        ensures fell { result ≡ true → weight (bits_in self.new) < weight (bits_in self.old) }
        ensures same { result ≡ false → bits_in self.new ≡ bits_in self.old }
    {
        let registers = self.registers & other.registers;
        let flags = self.flags & other.flags;
        let fell = registers != self.registers || flags != self.flags;
        self.registers = registers;
        self.flags = flags;
        let temporaries = keep_words(&mut self.temporaries, other.temporaries.as_slice());
        fell || temporaries
    }
}
