//! The machine descriptions that come with the program.
//!
//! `Shipped::text` gives the text of one, whose lines are those of specs/Pdp11.antt and specs/Mips.antt.
#![tactic(auto)]

mod mips;
mod pdp11;

ghost use Rattle.std.specs.Prelude.{◌≡◌, ◌≢◌, MatchOption};
ghost use Rattle.shipped.specs.Shipped.{name_of, text_of};

pub use mips::MIPS;
pub use pdp11::PDP11;

/// A description that comes with the program.
#[derive(Clone, Copy, Debug, PartialEq, Eq)]
pub enum Shipped {
    Pdp11,
    Mips,
}

impl Shipped {
    /// The description of this name.
    pub fn named(word: &str) -> Option<Shipped>
        ensures { MatchOption result ((s : Shipped) → word.now ≢ name_of s) (λ s. word.now ≡ name_of s) }
    {
        match word {
            "pdp11" => Some(Shipped::Pdp11),
            "mips" => Some(Shipped::Mips),
            _ => None,
        }
    }

    /// The text of the description.
    pub fn text(self) -> &'static [u8]
        ensures { result.now ≡ text_of self }
    {
        match self {
            Shipped::Pdp11 => pdp11::pdp11(),
            Shipped::Mips => mips::mips(),
        }
    }
}
