//! Words as signed numbers.

ghost use Rattle.std.specs.Prelude.{◌≡◌, ◌<◌, ◌^◌};
ghost use Rattle.rtl_word.specs.Words.{IsWordSize, word_signed};

/// The signed reading of a word.
pub(crate) fn signed(bits: u32, word: u32) -> i64
    requires size { IsWordSize bits }
    requires word { word < 2 ^ bits }
    ensures { result ≡ word_signed bits word }
{
    let half: u32 = if bits == 16 { 0x8000 } else { 0x8000_0000 };
    if word < half {
        i64::from(word)
    } else if bits == 16 {
        i64::from(word) - 0x1_0000
    } else {
        i64::from(word) - 0x1_0000_0000
    }
}
