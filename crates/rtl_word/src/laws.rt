//! Laws of words, each the contract of an empty function.

ghost use Rattle.std.specs.Prelude.{◌≡◌, ℕ, ◌+◌, ◌^◌, ◌<◌, Some, not};
ghost use Rattle.rtl_word.specs.declared.Rel.{Rel as Relation};
ghost use Rattle.rtl_word.specs.Words.{mirrored, negated, word_test, IsWordSize, word_add, word_sub, word_neg, word_mul, word_shl, word_signed, word_of_signed};
ghost use Rattle.rtl_word.specs.Laws.{DividesByMagnitudes, RemainsByMagnitudes};

/// A difference is the sum with the negated word.
#[tactic(auto, using(crate::proofs::Sums::add_neg))]
pub fn difference_is_sum()
    ensures { (w a b : ℕ) → word_add w a (word_neg w b) ≡ word_sub w a b }
{}

/// A product is made by doubling one factor and halving the other, with one more sum where the other is odd.
#[tactic(auto, using(crate::proofs::Products::mul_even, crate::proofs::Products::mul_odd))]
pub fn product_by_doubling()
    ensures even { (w a b : ℕ) → word_mul w a (b + b) ≡ word_mul w (word_add w a a) b }
    ensures odd { (w a b : ℕ) → word_mul w a (b + b + 1) ≡ word_add w (word_mul w (word_add w a a) b) a }
{}

/// A shift to the left is the product with a power of two.
#[tactic(auto, using(crate::proofs::Shifts::shl_mul))]
pub fn shift_is_product()
    ensures { (w a b : ℕ) → b < w → word_shl w a b ≡ Some (word_mul w a (2 ^ b)) }
{}

/// A word's signed reading determines the word.
#[tactic(auto, using(crate::proofs::Quotients::of_signed))]
pub fn signed_reading()
    ensures { (w a : ℕ) → IsWordSize w → a < 2 ^ w → word_of_signed w (word_signed w a) ≡ a }
{}

/// Signed division, by that of the magnitudes: the quotient is negated where the signs differ, the remainder where the
/// dividend is below zero.
#[tactic(auto, using(crate::proofs::Quotients::div_signs, crate::proofs::Quotients::rem_signs))]
pub fn signed_division()
    ensures quotient { (w : ℕ) → IsWordSize w → DividesByMagnitudes w }
    ensures remainder { (w : ℕ) → IsWordSize w → RemainsByMagnitudes w }
{}

/// A relation with its operands exchanged, and the relation that holds where another does not.
#[tactic(auto, using(crate::proofs::Comparisons::test_mirrored, crate::proofs::Comparisons::test_negated))]
pub fn relations()
    ensures exchanged { (w : ℕ) (r : Relation) (a b : ℕ) → word_test w (mirrored r) b a ≡ word_test w r a b }
    ensures opposite { (w : ℕ) (r : Relation) (a b : ℕ) → word_test w (negated r) a b ≡ not (word_test w r a b) }
{}
