//! The reading of whole texts.

ghost use Rattle.std.specs.Prelude.{◌≡◌, IfErr, IfOk};
ghost use Rattle.asm_row.specs.Readable.{IsReadable};
ghost use Rattle.asm_program.specs.Programs.{IsText};
ghost use Rattle.asm_program.specs.Rules.{number_of};
ghost use Rattle.asm_text.specs.Read.{IsFaultAt, IsFaultOf, reason_at};

use crate::program::program_of;
use asm_faults::fault_of;
use asm_line::law::checked_is_readable;
use asm_program::{Program, Rule};
use asm_row::RowIndex;
use md_check::Checked;
use md_rows::RawDescription;
use rtl_tree::NoMemory;
use rtl_word::Word;
use std::alloc::Global;
use vp_io::Reason;

/// Why a text has no program.
#[derive(Clone, Copy, Debug, PartialEq, Eq)]
pub enum AsmFault {
    /// There was no memory, or the line that breaks a rule has no number of 32 bits.
    NoMemory,
    /// The least line that breaks a rule, and the number of the least rule that it breaks.
    Bad(Reason),
}

fn number_of(rule: Rule) -> u8
    ensures { result ≡ number_of rule }
{
    match rule {
        Rule::BadTokens => 1,
        Rule::NoRow => 2,
        Rule::StandsAlready => 3,
        Rule::NotInPart => 4,
        Rule::Misplaced => 5,
        Rule::PassesLimit => 6,
    }
}

fn reason_of(line: u32, rule: Rule) -> Reason
    ensures { result ≡ reason_at line rule }
{
    Reason {
        line,
        column: 1,
        rule: number_of(rule),
        detail: 0,
    }
}

fn fault_at(line: usize, rule: Rule) -> AsmFault
    ensures { IsFaultAt line rule result }
{
    match u32::try_from(line) {
        Ok(line) => AsmFault::Bad(reason_of(line, rule)),
        Err(_) => AsmFault::NoMemory,
    }
}

// The same by an index of the rows.
fn read_by(
    alloc: Global,
    d: &RawDescription,
    rows: &RowIndex<'_>,
    text: &[u8],
) -> Result<Program, AsmFault>
    requires readable { IsReadable d.now }
    requires rows { rows.now ≡ d.now }
    ensures text { IfOk result (λ p. IsText d.now text.now p) }
    ensures bad { IfErr result (λ f. IsFaultOf d.now text.now f) }
{
    match fault_of(alloc, d, rows, text) {
        Err(NoMemory) => Err(AsmFault::NoMemory),
        Ok(Some((line, rule))) => Err(fault_at(line, rule)),
        Ok(None) => match program_of(alloc, d, rows, text) {
            Ok(program) => Ok(program),
            Err(NoMemory) => Err(AsmFault::NoMemory),
        },
    }
}

// The same for a description of which only what reading rests on is known.
fn read_raw(alloc: Global, d: &RawDescription, text: &[u8]) -> Result<Program, AsmFault>
    requires readable { IsReadable d.now }
    ensures text { IfOk result (λ p. IsText d.now text.now p) }
    ensures bad { IfErr result (λ f. IsFaultOf d.now text.now f) }
{
    match RowIndex::new(alloc, d) {
        Ok(rows) => read_by(alloc, d, &rows, text),
        Err(NoMemory) => Err(AsmFault::NoMemory),
    }
}

/// The program of a text, or the least line that breaks a rule and there the least rule.
pub fn read_text<W: Word>(alloc: Global, m: &Checked<W>, text: &[u8]) -> Result<Program, AsmFault>
    ensures text { IfOk result (λ p. IsText m.now text.now p) }
    ensures bad { IfErr result (λ f. IsFaultOf m.now text.now f) }
{
    checked_is_readable();
    let d = m.raw();
    read_raw(alloc, d, text)
}
