//! What the lines of a text declare.

ghost use Rattle.std.specs.Prelude.{◌≡◌, ◌≤◌, ℕ, length, map, IfOk, IsErrOf};
ghost use Rattle.rtl_word.specs.Words.{IsWordSize};
ghost use Rattle.md_text.specs.Lines.{width_of};
ghost use Rattle.md_text.specs.Forms.{Form as Said, HasForm};
ghost use Rattle.md_text.specs.Declarations.{HaveForms};
ghost use Rattle.md_lines.specs.Kept.{line_of};
ghost use Rattle.md_forms.specs.Seen.{form_of, declarations_of};
ghost use Rattle.md_parser.specs.Formless.{AreShort, IsFirstFormless};

use crate::fault::FormFault;
use crate::form::read_form;
use md_forms::Declaration;
use md_lines::Line;
use sqlite_items::Items;
use std::alloc::{AllocError, Global};

/// Why the lines declare nothing.
#[derive(Clone, Copy, Debug, PartialEq, Eq)]
pub enum LinesFault {
    NoMemory,
    /// The line of this number is the first that has none of the forms.
    NoForm(u32),
}

impl From<AllocError> for LinesFault {
    ghost use Rattle.md_parser.specs.declared.declared.LinesFault.TheVariants.{NoMemory};

    ghost from_gives = { λ _ fault. fault ≡ NoMemory };

    fn from(_: AllocError) -> LinesFault {
        LinesFault::NoMemory
    }
}

/// The bits of a word by which transfers are read.
pub fn width_of(lines: &[Line<'_>]) -> u32
    ensures width { result ≡ width_of (map line_of lines.now) }
    ensures size { IsWordSize result }
{
    match lines {
        [_, _, word, ..] => {
            if word.bytes == b"word 16".as_slice() {
                16
            } else {
                32
            }
        }
        _ => 32,
    }
}

/// The declaration of a line.
fn declaration(alloc: Global, bits: u32, line: Line<'_>) -> Result<Declaration, LinesFault>
    requires size { IsWordSize bits }
    requires short { length line.bytes.now ≤ 255 }
    ensures found { IfOk result (λ d. (d.line ≡ line.entry.number) × HasForm bits line.entry.bytes.now (form_of d.form)) }
    ensures refused { (n : ℕ) → IsErrOf result (LinesFault.NoForm n) → (n ≡ line.entry.number) × ((form : Said) → HasForm bits line.entry.bytes.now form → ⊥) }
{
    match read_form(alloc, bits, line.bytes) {
        Ok(form) => Ok(Declaration {
            line: line.number,
            form,
        }),
        Err(FormFault::NoMemory) => Err(LinesFault::NoMemory),
        Err(FormFault::NoForm) => Err(LinesFault::NoForm(line.number)),
    }
}

/// What the lines declare, one by one.
pub fn declarations(
    alloc: Global,
    bits: u32,
    lines: &[Line<'_>],
) -> Result<Items<Declaration>, LinesFault>
    requires size { IsWordSize bits }
    requires short { AreShort (map line_of lines.now) }
    ensures found { IfOk result (λ ds. HaveForms bits (map line_of lines.now) (declarations_of ds)) }
    ensures refused { (n : ℕ) → IsErrOf result (LinesFault.NoForm n) → IsFirstFormless bits (map line_of lines.now) n }
{
    let mut all = Items::new(alloc);
    for line in lines {
        let declaration = match declaration(alloc, bits, *line) {
            Ok(declaration) => declaration,
            Err(fault) => return Err(fault),
        };
        all.push(declaration)?;
    }
    Ok(all)
}
