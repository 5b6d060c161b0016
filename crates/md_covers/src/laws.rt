//! Laws of the registers of a description.

ghost use Rattle.std.specs.Prelude.{◌≡◌, ◌≢◌, ◌<◌, All, AllPairs, List};
ghost use Rattle.md_rows.specs.declared.description.Register.{Register};
ghost use Rattle.md_rows.specs.Instances.{general_set};
ghost use Rattle.md_covers.specs.Covers.{general_bits};

/// The bits of the general registers are their sum where the numbers of all registers differ and are below 64, as in every
/// description that a text gives.
#[tactic(auto, using(crate::proofs::GeneralSet::bits_are_set))]
pub fn general_bits_are_a_sum()
    ensures { (rs : List Register) → All (λ r. r.number < 64) rs → AllPairs (λ r s. r.number ≢ s.number) rs → general_bits rs ≡ general_set rs }
{}
