//! Words of a target machine, 16 or 32 bits wide, and the operators of transfers on them.
//!
//! A word is a number below `2 ^ BITS`, held in a `u32`; its signed reading is two's complement. The trait [`Word`] has one
//! function for each operator, and each is proved equal to its formula on numbers in `specs/Words.antt`, which takes the
//! number of bits, and proved to give a word. [`W16`] and [`W32`] are the two sizes. Laws of the formulas, as that a
//! difference is the sum with the negated word, are the contracts of the empty functions of `laws`; what the crates above
//! need besides stands in `proofs/`.
#![tactic(auto)]

ghost use Rattle.std.specs.Prelude.{IfSome, bit_and, bit_or, bit_xor, ◌≡◌, ℕ, ◌<◌, ◌^◌};
ghost use Rattle.rtl_word.specs.Words.{mirrored, negated, IsWordSize, word_add, word_sub, word_neg, word_mul, word_not, word_div, word_rem, word_divu, word_remu, word_shl, word_shr, word_shru, word_sxb, word_rel};

mod bits16;
mod bits32;
mod laws;

pub use bits16::W16;
pub use bits32::W32;
pub use laws::{
    difference_is_sum, product_by_doubling, relations, shift_is_product, signed_division,
    signed_reading,
};

/// The ten relations between two words: equal, not equal, the four orders of the signed readings, and the four
/// orders of the unsigned ones.
#[derive(Clone, Copy, Debug, PartialEq, Eq)]
pub enum Rel {
    Eq,
    Ne,
    Lt,
    Le,
    Gt,
    Ge,
    Ltu,
    Leu,
    Gtu,
    Geu,
}

impl Rel {
    /// The relation of `b` to `a` that holds where this one holds of `a` to `b`.
    pub fn mirrored(self) -> Rel
        ensures { result ≡ mirrored self }
    {
        match self {
            Rel::Eq => Rel::Eq,
            Rel::Ne => Rel::Ne,
            Rel::Lt => Rel::Gt,
            Rel::Le => Rel::Ge,
            Rel::Gt => Rel::Lt,
            Rel::Ge => Rel::Le,
            Rel::Ltu => Rel::Gtu,
            Rel::Leu => Rel::Geu,
            Rel::Gtu => Rel::Ltu,
            Rel::Geu => Rel::Leu,
        }
    }

    /// The relation that holds of two words where this one does not.
    pub fn negated(self) -> Rel
        ensures { result ≡ negated self }
    {
        match self {
            Rel::Eq => Rel::Ne,
            Rel::Ne => Rel::Eq,
            Rel::Lt => Rel::Ge,
            Rel::Le => Rel::Gt,
            Rel::Gt => Rel::Le,
            Rel::Ge => Rel::Lt,
            Rel::Ltu => Rel::Geu,
            Rel::Leu => Rel::Gtu,
            Rel::Gtu => Rel::Leu,
            Rel::Geu => Rel::Ltu,
        }
    }
}

/// The operators on words of `BITS` bits. Those that answer an `Option` answer `None` exactly where they trap: a division
/// whose divisor is zero or whose quotient is no word, and a shift by `BITS` or more.
pub trait Word {
    ghost BITS: { ℕ };

    const BITS: u32;

    /// The sum modulo `2 ^ BITS`.
    fn add(a: u32, b: u32) -> u32
        requires a_fits { a < 2 ^ BITS }
        requires b_fits { b < 2 ^ BITS }
        ensures value { result ≡ word_add BITS a b }
        ensures fits { result < 2 ^ BITS };

    /// The difference modulo `2 ^ BITS`.
    fn sub(a: u32, b: u32) -> u32
        requires a_fits { a < 2 ^ BITS }
        requires b_fits { b < 2 ^ BITS }
        ensures value { result ≡ word_sub BITS a b }
        ensures fits { result < 2 ^ BITS };

    /// The product modulo `2 ^ BITS`, the same for signed and for unsigned readings.
    fn mul(a: u32, b: u32) -> u32
        requires a_fits { a < 2 ^ BITS }
        requires b_fits { b < 2 ^ BITS }
        ensures value { result ≡ word_mul BITS a b }
        ensures fits { result < 2 ^ BITS };

    fn and(a: u32, b: u32) -> u32
        requires a_fits { a < 2 ^ BITS }
        requires b_fits { b < 2 ^ BITS }
        ensures value { result ≡ bit_and a b }
        ensures fits { result < 2 ^ BITS };

    fn or(a: u32, b: u32) -> u32
        requires a_fits { a < 2 ^ BITS }
        requires b_fits { b < 2 ^ BITS }
        ensures value { result ≡ bit_or a b }
        ensures fits { result < 2 ^ BITS };

    fn xor(a: u32, b: u32) -> u32
        requires a_fits { a < 2 ^ BITS }
        requires b_fits { b < 2 ^ BITS }
        ensures value { result ≡ bit_xor a b }
        ensures fits { result < 2 ^ BITS };

    /// The negated word modulo `2 ^ BITS`.
    fn neg(a: u32) -> u32
        requires a_fits { a < 2 ^ BITS }
        ensures value { result ≡ word_neg BITS a }
        ensures fits { result < 2 ^ BITS };

    /// The complement of each bit.
    fn not(a: u32) -> u32
        requires a_fits { a < 2 ^ BITS }
        ensures value { result ≡ word_not BITS a }
        ensures fits { result < 2 ^ BITS };

    /// The low byte with its sign extended.
    fn sxb(a: u32) -> u32
        requires a_fits { a < 2 ^ BITS }
        ensures value { result ≡ word_sxb BITS a }
        ensures fits { result < 2 ^ BITS };

    /// 1 where the relation holds, else 0.
    fn rel(r: Rel, a: u32, b: u32) -> u32
        requires a_fits { a < 2 ^ BITS }
        requires b_fits { b < 2 ^ BITS }
        ensures value { result ≡ word_rel BITS r a b }
        ensures fits { result < 2 ^ BITS };

    /// The signed quotient, truncated towards zero.
    fn div(a: u32, b: u32) -> Option<u32>
        requires a_fits { a < 2 ^ BITS }
        requires b_fits { b < 2 ^ BITS }
        ensures value { result ≡ word_div BITS a b }
        ensures fits { IfSome result (λ v. v < 2 ^ BITS) };

    /// The unsigned quotient.
    fn divu(a: u32, b: u32) -> Option<u32>
        requires a_fits { a < 2 ^ BITS }
        requires b_fits { b < 2 ^ BITS }
        ensures value { result ≡ word_divu a b }
        ensures fits { IfSome result (λ v. v < 2 ^ BITS) };

    /// The signed remainder, which has the sign of the dividend. It traps where `div` traps.
    fn rem(a: u32, b: u32) -> Option<u32>
        requires a_fits { a < 2 ^ BITS }
        requires b_fits { b < 2 ^ BITS }
        ensures value { result ≡ word_rem BITS a b }
        ensures fits { IfSome result (λ v. v < 2 ^ BITS) };

    /// The unsigned remainder.
    fn remu(a: u32, b: u32) -> Option<u32>
        requires a_fits { a < 2 ^ BITS }
        requires b_fits { b < 2 ^ BITS }
        ensures value { result ≡ word_remu a b }
        ensures fits { IfSome result (λ v. v < 2 ^ BITS) };

    /// The shift to the left; the bits above the word are dropped.
    fn shl(a: u32, b: u32) -> Option<u32>
        requires a_fits { a < 2 ^ BITS }
        requires b_fits { b < 2 ^ BITS }
        ensures value { result ≡ word_shl BITS a b }
        ensures fits { IfSome result (λ v. v < 2 ^ BITS) };

    /// The arithmetic shift to the right, which fills with the sign.
    fn shr(a: u32, b: u32) -> Option<u32>
        requires a_fits { a < 2 ^ BITS }
        requires b_fits { b < 2 ^ BITS }
        ensures value { result ≡ word_shr BITS a b }
        ensures fits { IfSome result (λ v. v < 2 ^ BITS) };

    /// The logical shift to the right, which fills with zeros.
    fn shru(a: u32, b: u32) -> Option<u32>
        requires a_fits { a < 2 ^ BITS }
        requires b_fits { b < 2 ^ BITS }
        ensures value { result ≡ word_shru BITS a b }
        ensures fits { IfSome result (λ v. v < 2 ^ BITS) };

    /// A word has 16 or 32 bits.
    ghost sizes: { IsWordSize BITS };
}
