//! What the helpers compute. The functions do nothing: each promises a law.

ghost use Rattle.c_helpers.specs.Law.{HelpersCompute, HelpersFit};

/// Each helper returns what its operator gives, and none of its loops makes more turns than a word
/// has bits.
pub fn helpers_compute()
    ensures { HelpersCompute }
{}

/// The numbers in each helper are words, and it names no variable but its own.
pub fn helpers_fit()
    ensures { HelpersFit }
{}
