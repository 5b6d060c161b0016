//! Descriptions that are accepted, of both word sizes.

ghost use Rattle.std.specs.Prelude.{◌≡◌, ◌≤◌, ◌-◌, ◌^◌, length, IfOk, IfErr};
ghost use Rattle.md_check.specs.Accepted.{IsWhole, normalised};
ghost use Rattle.md_check.specs.Checking.{IsFault, IsSaid};
ghost use Rattle.md_verdict.specs.Verdict.{IsAcceptedAs, IsFaultOf, description_in};

use md_check::{Checked, check};
use md_fault::MdFault;
use md_reader::read_description;
use md_rows::RawDescription;
use md_said::said_is_sound;
use rtl_word::{W16, W32};
use std::alloc::Global;

/// A description that is accepted.
#[derive(Drop)]
pub enum Accepted {
    Word16(Checked<W16>),
    Word32(Checked<W32>),
}

impl Accepted {
    /// The description that was accepted, in which each row has its normal form.
    pub fn raw(&self) -> &RawDescription
        ensures { result.now ≡ description_in self.now }
    {
        match self {
            Accepted::Word16(checked) => checked.raw(),
            Accepted::Word32(checked) => checked.raw(),
        }
    }
}

fn judged(alloc: Global, said: RawDescription) -> Result<Accepted, MdFault>
    requires { IsSaid said }
    ensures whole { IfOk result (λ accepted. IsWhole said) }
    ensures normal { IfOk result (λ accepted. description_in accepted ≡ normalised said) }
    ensures fault { IfErr result (IsFault said) }
{
    said_is_sound();
    if said.word == 16 {
        Ok(Accepted::Word16(check::<W16>(alloc, said)?))
    } else {
        Ok(Accepted::Word32(check::<W32>(alloc, said)?))
    }
}

/// Whether the text of a description is accepted. A refused one is told by its least broken rule, at the least line, with the least
/// detail.
pub fn accept(alloc: Global, text: &[u8]) -> Result<Accepted, MdFault>
    requires { length text.now ≤ 2 ^ 32 - 2 }
    ensures accepted { IfOk result (IsAcceptedAs text.now) }
    ensures refused { IfErr result (IsFaultOf text.now) }
{
    let said = read_description(alloc, text)?;
    judged(alloc, said)
}
