//! What is recognised and printed, as worked out by hand.

ghost use Rattle.std.specs.Prelude.{IfOk};
ghost use Rattle.rtl_spelling.specs.Spelling.{AreApart};

use crate::accepted::{accepted_16, accepted_32, mips, pdp11};
use crate::cases::{
    Case, FOUR, FOUR_CASES, HOLDS, HOLDS_CASES, LONG_CASES, MIPS_CASES, PDP11_CASES, READS,
    READS_AGAIN, READS_AGAIN_CASES, READS_CASES, TRI_CASES,
};
use crate::{Told, told_by, told_in, told_of};
use asm_line::LineBuf;
use md_check::Checked;
use md_examples::edited;
use md_examples::machines::tri;
use md_rows::Bound;
use rtl_tree::{Assign, Cell, Effects, Expr, Name, NameList, Names, NoMemory, Place, is_name};
use rtl_word::Word;
use shipped::Shipped::Pdp11;
use smallvec::SmallVec;
use std::alloc::Global;

// An object `x`, and no function.
fn names(alloc: Global) -> Result<Names, NoMemory>
    ensures { IfOk result (λ n. AreApart n.objects n.functions) }
{
    let mut objects = NameList::new(alloc);
    if is_name(b"x") {
        let x = Vec::from_slice(alloc, b"x")?;
        objects.push(Name::new(x))?;
    }
    let functions = NameList::new(alloc);
    Ok(Names { objects, functions })
}

fn is_told(told: &Option<Told>, line: u32, bounds: &[Bound], printed: &[u8]) -> bool {
    match told {
        Some(told) => {
            told.line == line
                && told.binding.list.as_slice() == bounds
                && told.printed.as_slice() == printed
        }
        None => line == 0,
    }
}

fn tells<W: Word>(alloc: Global, names: &Names, m: &Checked<W>, case: &Case) -> bool
    requires { AreApart names.now.objects names.now.functions }
{
    let (transfer, dead, line, bounds, printed) = *case;
    let Ok(told) = told_in::<W>(alloc, m, transfer.as_bytes(), names, dead) else {
        return false;
    };
    is_told(&told, line, bounds, printed.as_bytes())
}

// The first of these transfers for which something else is told.
fn first_untold_by<W: Word>(
    alloc: Global,
    names: &Names,
    m: &Checked<W>,
    cases: &[Case],
) -> Option<&'static str>
    requires { AreApart names.now.objects names.now.functions }
{
    for case in cases {
        if !tells::<W>(alloc, names, m, case) {
            return Some(case.0);
        }
    }
    None
}

fn first_untold<W: Word>(alloc: Global, m: &Checked<W>, cases: &[Case]) -> Option<&'static str> {
    let Ok(names) = names(alloc) else {
        return Some("names");
    };
    first_untold_by::<W>(alloc, &names, m, cases)
}

fn untold_of_pdp11(alloc: Global) -> Option<&'static str> {
    let Some(m) = pdp11(alloc) else {
        return Some("pdp11");
    };
    first_untold(alloc, &*m, &PDP11_CASES)
}

fn untold_of_mips(alloc: Global) -> Option<&'static str> {
    let Some(m) = mips(alloc) else {
        return Some("mips");
    };
    first_untold(alloc, &*m, &MIPS_CASES)
}

fn untold_of_tri(alloc: Global) -> Option<&'static str> {
    let Some(m) = accepted_32(alloc, tri()) else {
        return Some("tri");
    };
    first_untold(alloc, &*m, &TRI_CASES)
}

#[test]
fn machines(rt: HostRuntime) {
    assert_eq!(rt; untold_of_pdp11(rt.alloc()), None);
    assert_eq!(rt; untold_of_mips(rt.alloc()), None);
    assert_eq!(rt; untold_of_tri(rt.alloc()), None);
}

fn untold_of(alloc: Global, machine: &[u8], cases: &[Case]) -> Option<&'static str> {
    let Some(m) = accepted_16(alloc, machine) else {
        return Some("the machine");
    };
    first_untold(alloc, &*m, cases)
}

// The pdp11 with one more row.
fn with_row(alloc: Global, row: &str) -> Result<Vec<u8>, NoMemory> {
    edited(alloc, Pdp11.text(), 71, 0, row.as_bytes())
}

fn untold_with(alloc: Global, row: &'static str, cases: &[Case]) -> Option<&'static str> {
    let Ok(machine) = with_row(alloc, row) else {
        return Some(row);
    };
    untold_of(alloc, &machine, cases)
}

#[test]
fn another_row(rt: HostRuntime) {
    let table = [
        (READS, READS_CASES.as_slice()),
        (READS_AGAIN, READS_AGAIN_CASES.as_slice()),
        (HOLDS, HOLDS_CASES.as_slice()),
        (FOUR, FOUR_CASES.as_slice()),
    ];
    for (row, cases) in table {
        assert_eq!(rt; untold_with(rt.alloc(), row, cases), None);
    }
}

// A line of a machine with the name of a register in it, which has 160 bytes.
fn named_line(alloc: Global, front: &[u8], back: &[u8]) -> Result<Vec<u8>, NoMemory> {
    let mut line = Vec::from_slice(alloc, front)?;
    for _ in 0..160 {
        line.push(b'n')?;
    }
    line.extend_from_slice(back)?;
    Ok(line)
}

// A machine with another line, in which that name stands.
fn renamed(
    alloc: Global,
    machine: &[u8],
    line: usize,
    front: &[u8],
    back: &[u8],
) -> Result<Vec<u8>, NoMemory> {
    let new = named_line(alloc, front, back)?;
    edited(alloc, machine, line, 1, &new)
}

// The pdp11 with the row of four registers, where that is the name of a register.
fn long_machine(alloc: Global) -> Result<Vec<u8>, NoMemory> {
    let four = with_row(alloc, FOUR)?;
    let named = renamed(alloc, &four, 8, b"reg 1 ", b" general\n")?;
    renamed(alloc, &named, 17, b"class r r0 ", b" r2 r3 r4 r5 sp\n")
}

fn untold_of_long_lines(alloc: Global) -> Option<&'static str> {
    let Ok(machine) = long_machine(alloc) else {
        return Some("long lines");
    };
    untold_of(alloc, &machine, &LONG_CASES)
}

#[test]
fn a_long_line(rt: HostRuntime) {
    assert_eq!(rt; untold_of_long_lines(rt.alloc()), None);
}

fn has_moves(told: &Option<Told>, count: usize) -> bool {
    match told {
        Some(told) => told.effects.list.len() == count,
        None => false,
    }
}

// Of `add r2,r1`, over the text of the machine.
fn makes_its_transfer(alloc: Global) -> bool {
    let Ok(names) = names(alloc) else {
        return false;
    };
    let text = b"r[1] = (r[1] + r[2]); f[0] = ((r[1] + r[2]) ? 0)";
    let Ok(told) = told_of(alloc, Pdp11.text(), text, &names, 0b110) else {
        return false;
    };
    has_moves(&told, 4)
}

#[test]
fn the_instance_makes_its_own_transfer(rt: HostRuntime) {
    assert!(rt; makes_its_transfer(rt.alloc()));
}

// The first register to itself.
fn kept() -> Assign {
    Assign {
        to: Place::Cell(Cell::Hard(1)),
        value: Expr::Cell(Cell::Hard(1)),
    }
}

// The same twice, which is no transfer that a text can spell.
fn twice(alloc: Global) -> Effects {
    let moves = [kept(), kept(), Assign::default()];
    Effects {
        list: SmallVec::from_buf_and_len(alloc, moves, 2),
    }
}

fn is_none_told<W: Word>(alloc: Global, m: &Checked<W>, transfer: &Effects) -> bool {
    let Ok(names) = names(alloc) else {
        return false;
    };
    let Ok(told) = told_by::<W>(alloc, m, transfer, &names, 0) else {
        return false;
    };
    told.is_none()
}

fn tri_tells_none(alloc: Global, transfer: &Effects) -> bool {
    let Some(m) = accepted_32(alloc, tri()) else {
        return false;
    };
    is_none_told(alloc, &*m, transfer)
}

#[test]
fn no_two_registers_become_one(rt: HostRuntime) {
    assert!(rt; LineBuf::new().bytes().is_empty());
    assert!(rt; tri_tells_none(rt.alloc(), &twice(rt.alloc())));
}
