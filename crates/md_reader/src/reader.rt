//! Whole texts.

ghost use Rattle.std.specs.Prelude.{◌≡◌, ◌≤◌, ◌-◌, ◌^◌, length, take, IfOk, IsErrOf, None, Some};
ghost use Rattle.vp_io.specs.declared.answers.Reason.{Reason as Telling};
ghost use Rattle.md_text.specs.Numbered.{IsNumbered};
ghost use Rattle.md_text.specs.Expansion.{expansions};
ghost use Rattle.md_text.specs.Accepted.{Says, description_of};
ghost use Rattle.md_forms.specs.declared.rules.Told.{Told as Broken};
ghost use Rattle.md_forms.specs.Seen.{declarations_of, declared_of};
ghost use Rattle.md_rules.specs.Broken.{IsFirst};
ghost use Rattle.md_expand.specs.Expanded.{AllExpanded};
ghost use Rattle.md_reader.specs.Refused.{IsRefused};

use crate::described::described;
use crate::refused::reason_of;
use crate::told::told_from_transfers;
use md_expand::{Expanded, MOST_ROWS, Scope, expand};
use md_fault::MdFault;
use md_forms::{Declared, Told};
use md_parser::{ReadFault, read_declared};
use md_rows::RawDescription;
use md_rules::told_before_transfers;
use rtl_tree::NoMemory;
use std::alloc::Global;

/// Why what is declared isn't described.
enum Trouble {
    NoMemory,
    Broken(Told),
}

impl From<NoMemory> for Trouble {
    ghost use Rattle.std.specs.Prelude.{◌≡◌};
    ghost use Rattle.md_reader.specs.declared.reader.Trouble.TheVariants.{NoMemory};

    ghost from_gives = { λ _ trouble. trouble ≡ NoMemory };

    fn from(_: NoMemory) -> Trouble {
        Trouble::NoMemory
    }
}

/// The first rows without modes, one more than there may be.
fn first_rows(alloc: Global, declared: &Declared) -> Result<Vec<Expanded>, NoMemory>
    requires numbered { IsNumbered (declared_of declared.now) }
    requires kept { IsFirst 1 10 (declared_of declared.now) None }
    ensures { IfOk result (λ rows. AllExpanded (take 4097 (expansions declared.now.width (declarations_of declared.now.all))) rows.items) }
{
    let scope = Scope::new(alloc, declared.width, declared.all.as_slice())?;
    expand(alloc, &scope, MOST_ROWS + 1)
}

/// The description of what breaks none of the rules up to the roles of registers, or the first rule that it breaks.
fn described_by_rows(alloc: Global, declared: &Declared) -> Result<RawDescription, Trouble>
    requires numbered { IsNumbered (declared_of declared.now) }
    requires kept { IsFirst 1 10 (declared_of declared.now) None }
    ensures same { IfOk result (λ d. d ≡ description_of (declared_of declared.now)) }
    ensures whole { IfOk result (λ d. IsFirst 10 15 (declared_of declared.now) None) }
    ensures broken { (t : Broken) → IsErrOf result (Trouble.Broken t) → IsFirst 10 15 (declared_of declared.now) (Some t) }
{
    let rows = first_rows(alloc, declared)?;
    match told_from_transfers(alloc, declared, &rows)? {
        Some(told) => Err(Trouble::Broken(told)),
        None => Ok(described(alloc, declared, &rows)?),
    }
}

/// The description of what is declared, or the first rule that it breaks.
fn described_or_told(alloc: Global, declared: &Declared) -> Result<RawDescription, Trouble>
    requires { IsNumbered (declared_of declared.now) }
    ensures same { IfOk result (λ d. d ≡ description_of (declared_of declared.now)) }
    ensures whole { IfOk result (λ d. IsFirst 1 15 (declared_of declared.now) None) }
    ensures broken { (t : Broken) → IsErrOf result (Trouble.Broken t) → IsFirst 1 15 (declared_of declared.now) (Some t) }
{
    match told_before_transfers(alloc, declared)? {
        Some(told) => Err(Trouble::Broken(told)),
        None => described_by_rows(alloc, declared),
    }
}

/// The description that a text says; each mode is replaced by its alternatives. A refused text is told by its least broken rule, at
/// the least line.
pub fn read_description(alloc: Global, text: &[u8]) -> Result<RawDescription, MdFault>
    requires { length text.now ≤ 2 ^ 32 - 2 }
    ensures says { IfOk result (Says text.now) }
    ensures told { (reason : Telling) → IsErrOf result (MdFault.Bad reason) → IsRefused text.now reason }
{
    let declared = match read_declared(alloc, text) {
        Ok(declared) => declared,
        Err(ReadFault::NoMemory) => return Err(MdFault::NoMemory),
        Err(ReadFault::Told(told)) => return Err(MdFault::Bad(reason_of(told))),
    };
    match described_or_told(alloc, &declared) {
        Ok(description) => Ok(description),
        Err(Trouble::NoMemory) => Err(MdFault::NoMemory),
        Err(Trouble::Broken(told)) => Err(MdFault::Bad(reason_of(told))),
    }
}
