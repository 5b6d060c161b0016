//! Transfers, and what is recognised of them, as worked out by hand.

use md_rows::Bound;
use rtl_tree::{Cell, Lab};

/// A transfer, the flags that are dead, with a bit for each, the line of the row that is recognised, or 0 where none is, what stands in
/// its holes, and how it is printed, where no temporary stands in it.
pub(crate) type Case = (&'static str, u8, u32, &'static [Bound], &'static str);

const R1: Bound = Bound::Reg(Cell::Hard(1));

const R2: Bound = Bound::Reg(Cell::Hard(2));

const R3: Bound = Bound::Reg(Cell::Hard(3));

const R4: Bound = Bound::Reg(Cell::Hard(4));

const R8: Bound = Bound::Reg(Cell::Hard(8));

const R9: Bound = Bound::Reg(Cell::Hard(9));

const R10: Bound = Bound::Reg(Cell::Hard(10));

const T1: Bound = Bound::Reg(Cell::Temp(1));

const T2: Bound = Bound::Reg(Cell::Temp(2));

pub(crate) const PDP11_CASES: [Case; 21] = [
    // `add r2,r1`, and the flag that it loses in place of one that it sets
    (
        "r[1] = (r[1] + r[2]); f[0] = ((r[1] + r[2]) ? 0)",
        0b110,
        47,
        &[R2, R1],
        "add r2,r1",
    ),
    (
        "r[1] = (r[1] + r[2]); f[2] = ((r[1] + r[2]) ? 0)",
        0b011,
        0,
        &[],
        "",
    ),
    // operands swapped, a flag that lives, and one hole for two registers
    ("r[1] = (r[2] + r[1])", 0b111, 47, &[R2, R1], "add r2,r1"),
    ("r[1] = (r[1] + r[2])", 0b011, 0, &[], ""),
    ("r[1] = (r[1] + r[2])", 0b000, 0, &[], ""),
    ("r[1] = (r[2] + r[3])", 0b111, 0, &[], ""),
    ("t[1] = (t[1] + t[2])", 0b111, 47, &[T2, T1], ""),
    // `inc r1` stands before `add #1,r1`
    ("r[1] = (r[1] + 1)", 0b111, 40, &[R1], "inc r1"),
    (
        "r[1] = (r[1] + 2)",
        0b111,
        47,
        &[Bound::Num(2), R1],
        "add #2,r1",
    ),
    // memory
    (
        "M[r[1]] = (M[r[1]] + r[2])",
        0b111,
        47,
        &[R2, R1],
        "add r2,(r1)",
    ),
    (
        "r[1] = M[(r[2] + 4)]",
        0b111,
        45,
        &[Bound::Num(4), R2, R1],
        "mov 4(r2),r1",
    ),
    ("r[1] = M[M[r[2]]]", 0b111, 0, &[], ""),
    ("r[1] = _x", 0b111, 45, &[Bound::Sym(0), R1], "mov #_x,r1"),
    // `add #5,_x` with all that it sets
    (
        "M[_x] = (M[_x] + 5); f[0] = ((M[_x] + 5) ? 0); f[1] = ((M[_x] + 5) ? 0); f[2] = lost",
        0b000,
        47,
        &[Bound::Num(5), Bound::Sym(0)],
        "add #5,_x",
    ),
    // flags alone
    ("f[0] = (M[r[1]] ? 0)", 0b110, 44, &[R1], "tst (r1)"),
    (
        "f[0] = (r[1] ? 5)",
        0b110,
        46,
        &[R1, Bound::Num(5)],
        "cmp r1,#5",
    ),
    // a complement is bound as its value
    (
        "r[1] = (r[1] & -256)",
        0b111,
        50,
        &[Bound::Num(65280), R1],
        "bic #255,r1",
    ),
    (
        "r[1] = (r[1] & (not r[2]))",
        0b111,
        50,
        &[R2, R1],
        "bic r2,r1",
    ),
    // a jump, and a row without holes
    (
        "PC = L5",
        0b000,
        65,
        &[Bound::Label(Lab::Block(5))],
        "br L5",
    ),
    ("r[0] = IN", 0b000, 68, &[], "sys getc"),
    ("r[1] = IN", 0b111, 0, &[], ""),
];

pub(crate) const MIPS_CASES: [Case; 8] = [
    // the first and the last numbers of ranges, and those next to them
    (
        "r[8] = (r[9] | 65535)",
        0,
        39,
        &[R8, R9, Bound::Num(65535)],
        "ori $8,$9,65535",
    ),
    ("r[8] = (r[9] | 65536)", 0, 0, &[], ""),
    (
        "r[8] = (r[9] + 32767)",
        0,
        33,
        &[R8, R9, Bound::Num(32767)],
        "addiu $8,$9,32767",
    ),
    ("r[8] = (r[9] + 32768)", 0, 0, &[], ""),
    (
        "r[8] = (r[9] + -32768)",
        0,
        33,
        &[R8, R9, Bound::Num(4_294_934_528)],
        "addiu $8,$9,-32768",
    ),
    ("r[8] = (r[9] + -32769)", 0, 0, &[], ""),
    // a number of the row's own, and the first of two orders
    ("M[r[8]] = 0", 0, 30, &[R8], "sw $0,0($8)"),
    (
        "r[8] = (r[9] ^ r[10])",
        0,
        40,
        &[R8, R9, R10],
        "xor $8,$9,$10",
    ),
];

pub(crate) const TRI_CASES: [Case; 3] = [
    ("r[1] = r[2]; r[2] = r[1]", 0, 21, &[R1, R2], "swap v0 t0"),
    ("r[2] = r[1]; r[1] = r[2]", 0, 21, &[R2, R1], "swap t0 v0"),
    ("r[1] = r[2]; r[2] = r[3]", 0, 0, &[], ""),
];

/// A row with a flag that reads memory which no other assignment reads.
pub(crate) const READS: &str = "row odd <a:r>,<b:r> | <a> = (<b> ^ <a>); f[0] = (M[<b>] ? 0)\n";

pub(crate) const READS_CASES: [Case; 2] = [
    ("r[1] = (r[2] ^ r[1])", 0b111, 0, &[], ""),
    (
        "r[1] = (r[2] ^ r[1]); f[0] = (M[r[2]] ? 0)",
        0b110,
        71,
        &[R1, R2],
        "odd r1,r2",
    ),
];

/// A row with a flag that reads the memory that its other assignment reads.
pub(crate) const READS_AGAIN: &str =
    "row odd <a:r>,<b:r> | <a> = (M[<b>] ^ <a>); f[0] = (M[<b>] ? 0)\n";

pub(crate) const READS_AGAIN_CASES: [Case; 2] = [
    ("r[1] = (M[r[2]] ^ r[1])", 0b001, 71, &[R1, R2], "odd r1,r2"),
    ("r[1] = (M[r[2]] ^ r[1])", 0b110, 0, &[], ""),
];

/// A row with a hole that stands only in what a flag becomes.
pub(crate) const HOLDS: &str = "row odd <a:r>,<b:r>,<c:r> | <a> = (<b> ^ <a>); f[0] = (<c> ? 0)\n";

pub(crate) const HOLDS_CASES: [Case; 2] = [
    ("r[1] = (r[2] ^ r[1])", 0b111, 0, &[], ""),
    (
        "r[1] = (r[2] ^ r[1]); f[0] = (r[3] ? 0)",
        0b000,
        71,
        &[R1, R2, R3],
        "odd r1,r2,r3",
    ),
];

/// A row with four registers.
pub(crate) const FOUR: &str = "row mix <a:r>,<b:r>,<c:r>,<d:r> | <a> = ((<b> - <c>) & <d>)\n";

pub(crate) const FOUR_CASES: [Case; 1] = [(
    "r[1] = ((r[2] - r[3]) & r[4])",
    0,
    71,
    &[R1, R2, R3, R4],
    "mix r1,r2,r3,r4",
)];

/// The same row where the name of a register has 160 bytes: its longest line has more than 640.
pub(crate) const LONG_CASES: [Case; 2] = [
    ("r[1] = ((r[2] - r[3]) & r[4])", 0, 0, &[], ""),
    (
        "r[1] = (r[1] + r[2])",
        0b111,
        47,
        &[R2, R1],
        "add r2,nnnnnnnnnnnnnnnnnnnnnnnnnnnnnnnnnnnnnnnnnnnnnnnnnnnnnnnnnnnnnnnnnnnnnnnnnnnnnnnnnnnnnnnnnnnnnnnnnnnnnnnnnnnnnnnnnnnnnnnnnnnnnnnnnnnnnnnnnnnnnnnnnnnnnnnnnnnnnnnn",
    ),
];
