//! What a whole text declares.

ghost use Rattle.std.specs.Prelude.{◌≡◌, ◌≤◌, ◌-◌, ◌^◌, length, map, IfOk, IfSome, IfNone, IsErrOf};
ghost use Rattle.md_text.specs.Lines.{BeginsOtherwise};
ghost use Rattle.md_text.specs.Declarations.{Declares};
ghost use Rattle.md_text.specs.Numbered.{IsNumbered};
ghost use Rattle.md_text.specs.Accepted.{Told as IsTold};
ghost use Rattle.md_lines.specs.Kept.{line_of};
ghost use Rattle.md_forms.specs.declared.rules.Told.{Told as Telling};
ghost use Rattle.md_forms.specs.Seen.{declared_of};
ghost use Rattle.md_forms.specs.SeenRules.{rule_of};
ghost use Rattle.md_parser.specs.FirstRules.{BeginsWithVersion, KeepsFirstRules};

use crate::declared::{LinesFault, declarations, width_of};
use md_forms::{Declared, Rule, Told};
use md_lines::{Line, LineFault, read_lines};
use std::alloc::Global;

/// Why a text declares nothing.
#[derive(Clone, Copy, Debug, PartialEq, Eq)]
pub enum ReadFault {
    NoMemory,
    /// The least of rules 1 to 3 that the text breaks, at its least line.
    Told(Told),
}

/// The line at which it is told that the text isn't of this version.
fn other_version(lines: &[Line<'_>]) -> Option<u32>
    ensures found { IfSome result (λ n. BeginsOtherwise (map line_of lines.now) n) }
    ensures none { IfNone result (BeginsWithVersion (map line_of lines.now)) }
{
    match lines {
        [] => Some(1),
        [first, ..] => {
            if first.bytes == b"vpo 1".as_slice() {
                None
            } else {
                Some(first.number)
            }
        }
    }
}

fn told(rule: Rule, line: u32) -> ReadFault
    ensures { result ≡ ReadFault.Told (record { rule = rule; line = line }) }
{
    ReadFault::Told(Told { rule, line })
}

/// What the text declares, where it breaks none of rules 1 to 3.
pub fn read_declared(alloc: Global, text: &[u8]) -> Result<Declared, ReadFault>
    requires { length text.now ≤ 2 ^ 32 - 2 }
    ensures found { IfOk result (λ d. Declares text.now (declared_of d)) }
    ensures numbered { IfOk result (λ d. IsNumbered (declared_of d)) }
    ensures kept { IfOk result (λ d. KeepsFirstRules text.now) }
    ensures told { (t : Telling) → IsErrOf result (ReadFault.Told t) → IsTold text.now (rule_of t.rule) t.line }
{
    let lines = match read_lines(alloc, text) {
        Ok(lines) => lines,
        Err(LineFault::NoMemory) => return Err(ReadFault::NoMemory),
        Err(LineFault::BadLine(line)) => return Err(told(Rule::BadByte, line)),
    };
    let kept = lines.kept.as_slice();
    if let Some(line) = other_version(kept) {
        return Err(told(Rule::OtherVersion, line));
    }
    let width = width_of(kept);
    let all = match declarations(alloc, width, kept) {
        Ok(all) => all,
        Err(LinesFault::NoMemory) => return Err(ReadFault::NoMemory),
        Err(LinesFault::NoForm(line)) => return Err(told(Rule::NoForm, line)),
    };
    let last = lines.last;
    Ok(Declared { width, all, last })
}
