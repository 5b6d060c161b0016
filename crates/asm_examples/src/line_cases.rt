//! Lines of assembly, as worked out by hand.

use md_rows::Bound;
use rtl_tree::{Cell, Lab};

/// A line, the line of the row that it is of, and what stands in the row's holes, where no name is known.
pub(crate) type LineCase = (&'static str, u32, &'static [Bound]);

const R1: Bound = Bound::Reg(Cell::Hard(1));

const R2: Bound = Bound::Reg(Cell::Hard(2));

const R5: Bound = Bound::Reg(Cell::Hard(5));

const SP: Bound = Bound::Reg(Cell::Hard(6));

const R8: Bound = Bound::Reg(Cell::Hard(8));

const R9: Bound = Bound::Reg(Cell::Hard(9));

const FUNCTION: Bound = Bound::Label(Lab::Function(0));

const LAST: Bound = Bound::Label(Lab::Block(4_294_967_295));

pub(crate) const PDP11_LINES: [LineCase; 17] = [
    ("add r2,r1", 47, &[R2, R1]),
    (" add\tr2 , r1 ", 47, &[R2, R1]),
    ("inc r1", 40, &[R1]),
    ("sys getc", 68, &[]),
    ("movb r1,r2", 51, &[R1, R2]),
    ("mov (sp),-1(r5)", 45, &[SP, Bound::Num(65535), R5]),
    // numbers of a word with its sign, and a complement
    ("add #1,r1", 47, &[Bound::Num(1), R1]),
    ("mov #32767,r1", 45, &[Bound::Num(32767), R1]),
    ("mov #-32768,r1", 45, &[Bound::Num(32768), R1]),
    ("bic #255,r1", 50, &[Bound::Num(65280), R1]),
    // names are numbered as they come, objects and functions apart
    ("mov #_x,r1", 45, &[Bound::Sym(0), R1]),
    ("mov _x,_y", 45, &[Bound::Sym(0), Bound::Sym(1)]),
    ("mov _x,_x", 45, &[Bound::Sym(0), Bound::Sym(0)]),
    ("jsr pc,_f", 66, &[FUNCTION]),
    ("br _f", 65, &[FUNCTION]),
    ("br L5", 65, &[Bound::Label(Lab::Block(5))]),
    ("br L4294967295", 65, &[LAST]),
];

/// Lines whose tokens are no row's.
pub(crate) const PDP11_STRANGE: [&str; 14] = [
    // numbers that are none of the row's
    "mov #32768,r1",
    "mov #70000,r1",
    "mov #-32769,r1",
    // what is no label's name
    "br L4294967296",
    "br L05",
    "br _",
    "br _1",
    "br r1",
    // other texts
    "",
    "sys",
    "L0:",
    "add r2,r9",
    "add r2,r1,r1",
    "mov #1,r",
];

/// Lines with bytes that begin no token.
pub(crate) const PDP11_BROKEN: [&str; 3] = ["mov #-0,r1", "add r2;r1", "nothing - here"];

pub(crate) const MIPS_LINES: [LineCase; 6] = [
    ("ori $8,$9,65535", 39, &[R8, R9, Bound::Num(65535)]),
    ("addiu $8,$9,-1", 33, &[R8, R9, Bound::Num(4_294_967_295)]),
    ("li $8,-2147483648", 25, &[R8, Bound::Num(2_147_483_648)]),
    ("subu $8,$0,$9", 35, &[R8, R9]),
    ("beq $8,$0,L0", 54, &[R8, Bound::Label(Lab::Block(0))]),
    ("lw $8,0($9)", 27, &[R8, R9]),
];

/// Lines whose tokens are no row's.
pub(crate) const MIPS_STRANGE: [&str; 3] = [
    "ori $8,$9,65536",
    "addiu $8,$9,-32769",
    "add $8,$9,$9",
];
