//! Scratch registers and colours.
//!
//! Code without temporaries keeps them in general registers. The first general registers, as many as any row of the description has register
//! holes, are scratch: there a temporary in its home stands while a transfer reads or sets it. The others are the colours.
#![tactic(auto)]

ghost use Rattle.std.specs.Prelude.{◌≡◌, ◌≤◌, IfOk, count_by, drop, length, take};
ghost use Rattle.md_text.specs.Rules.{is_general as is_general_in};
ghost use Rattle.md_check.specs.Accepted.{is_register_hole as is_register_hole_in, most_registers as most_registers_in};
ghost use Rattle.color_registers.specs.Registers.{AreRegisters, colors_in, general_numbers as general_numbers_in, scratch_in};

use md_check::Checked;
use md_rows::{Hole, Register, Role, Row};
use rtl_tree::NoMemory;
use rtl_word::Word;
use std::alloc::Global;

/// The general registers of a description, in the order of its lines, of which the first are scratch.
#[derive(Debug, Drop)]
pub struct Registers {
    pub general: Vec<u8>,
    /// How many of them are scratch.
    pub scratch: usize,
}

fn is_general(role: Role) -> bool
    ensures { result ≡ is_general_in role }
{
    matches!(role, Role::General)
}

fn is_register_hole(hole: Hole) -> bool
    ensures { result ≡ is_register_hole_in hole }
{
    matches!(hole, Hole::Reg(_))
}

fn register_holes(holes: &[Hole]) -> usize
    ensures { result ≡ count_by is_register_hole_in holes.now }
{
    holes.iter().filter(|hole| is_register_hole(**hole)).count()
}

/// The greatest number of register holes of a row.
fn most_registers(rows: &[Row]) -> usize
    ensures { result ≡ most_registers_in rows.now }
{
    let mut most = 0;
    for i in 0..rows.len() {
        let count = register_holes(rows[i].holes.as_slice());
        if count > most {
            most = count;
        }
    }
    most
}

fn general_numbers(alloc: Global, registers: &[Register]) -> Result<Vec<u8>, NoMemory>
    ensures { IfOk result (λ list. list.items ≡ general_numbers_in registers.now) }
{
    let mut list = Vec::new(alloc);
    for i in 0..registers.len() {
        let register = &registers[i];
        if is_general(register.role) {
            list.push(register.number)?;
        }
    }
    Ok(list)
}

/// Where the scratch registers end.
#[tactic(auto, using(crate::proofs::Cutting::take_past, crate::proofs::Cutting::drop_past))]
fn cut(most: usize, general: &[u8]) -> usize
    ensures within { result ≤ length general.now }
    ensures before { take result general.now ≡ take most general.now }
    ensures behind { drop result general.now ≡ drop most general.now }
{
    if most <= general.len() {
        most
    } else {
        general.len()
    }
}

impl Registers {
    /// The registers of a description.
    pub fn new<W: Word>(alloc: Global, m: &Checked<W>) -> Result<Registers, NoMemory>
        ensures { IfOk result (AreRegisters m.now) }
    {
        let d = m.raw();
        let general = general_numbers(alloc, d.registers.as_slice())?;
        let scratch = cut(most_registers(d.rows.as_slice()), general.as_slice());
        Ok(Registers { general, scratch })
    }

    /// The scratch registers.
    pub fn scratch(&self) -> &[u8]
        requires { self.now.scratch ≤ length self.now.general.items }
        ensures { result.now ≡ scratch_in self.now }
    {
        self.general.as_slice().split_at(self.scratch).0
    }

    /// The colours.
    pub fn colours(&self) -> &[u8]
        requires { self.now.scratch ≤ length self.now.general.items }
        ensures { result.now ≡ colors_in self.now }
    {
        self.general.as_slice().split_at(self.scratch).1
    }
}
