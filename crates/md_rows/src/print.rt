//! The numbers that a number hole prints.

ghost use Rattle.std.specs.Prelude.{◌≡◌, ◌<◌, ◌^◌};
ghost use Rattle.rtl_word.specs.Words.{IsWordSize};
ghost use Rattle.md_rows.specs.Fits.{printed, turned, below_zero, within};

/// The number that a hole prints for a word, if the word is one of the hole's. A range is at most as long as there are words, so a
/// word has at most one number in it: the word itself, or the word less 2 to its bits.
pub fn number_of_word(bits: u32, low: i64, high: i64, inverted: bool, word: u32) -> Option<i64>
    requires size { IsWordSize bits }
    requires word { word < 2 ^ bits }
    ensures { result ≡ printed bits low high inverted word }
{
    let turned = turn(bits, inverted, word);
    let unsigned = i64::from(turned);
    if lies_within(low, high, unsigned) {
        return Some(unsigned);
    }
    let negative = less_one_turn(bits, turned);
    if lies_within(low, high, negative) {
        Some(negative)
    } else {
        None
    }
}

fn lies_within(low: i64, high: i64, number: i64) -> bool
    ensures { result ≡ within low high number }
{
    low <= number && number <= high
}

fn turn(bits: u32, inverted: bool, word: u32) -> u32
    requires size { IsWordSize bits }
    requires word { word < 2 ^ bits }
    ensures value { result ≡ turned bits inverted word }
    ensures word { result < 2 ^ bits }
{
    if !inverted {
        word
    } else if bits == 16 {
        0xffff - word
    } else {
        0xffff_ffff - word
    }
}

fn less_one_turn(bits: u32, word: u32) -> i64
    requires size { IsWordSize bits }
    requires word { word < 2 ^ bits }
    ensures { result ≡ below_zero bits word }
{
    if bits == 16 {
        i64::from(word) - 0x1_0000
    } else {
        i64::from(word) - 0x1_0000_0000
    }
}
