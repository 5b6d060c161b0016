//! Texts of the pdp11, worked out by hand from its rows.

use crate::run_cases::RunCase;

pub const PDP11_RUNS: [RunCase; 18] = [
    (
        "7",
        b"\
.text
mov #97,r0
L0:
sys putc
br L0
",
        b"",
        b"aaa",
        b"vpo: 7 steps spent\n",
        74,
    ),
    (
        "100",
        b"\
.text
mov #3,r1
mov (r1),r2
",
        b"",
        b"",
        b"vpo: trap 4 at 1\n",
        73,
    ),
    (
        "100",
        b"\
.text
bne L0
L0:
",
        b"",
        b"",
        b"vpo: trap 5 at 0\n",
        73,
    ),
    (
        "100",
        b"\
.text
",
        b"",
        b"",
        b"vpo: trap 6 at 0\n",
        73,
    ),
    (
        "100",
        b"\
.text
mov #5,r1
L0:
mov #42,r0
sys putc
dec r1
bne L0
mov r1,r0
sys exit
",
        b"",
        b"*****",
        b"",
        0,
    ),
    (
        "100",
        b"\
.text
mov #1,r1
blt L0
L0:
",
        b"",
        b"",
        b"vpo: trap 5 at 1\n",
        73,
    ),
    (
        "100",
        b"\
.text
mov #-8192,sp
jsr pc,_f
sys exit
_f:
mov #3,r0
rts pc
",
        b"",
        b"",
        b"",
        3,
    ),
    (
        "100",
        b"\
.text
mov #321,r1
movb r1,_b
movb _b,r0
sys exit
.data
_b:
.byte 0
",
        b"",
        b"",
        b"",
        65,
    ),
    (
        "100",
        b"\
.text
add _x,_y
mov _y,r0
sys exit
.data
_x:
.word 3
_y:
.word 4
",
        b"",
        b"",
        b"",
        7,
    ),
    (
        "100",
        b"\
.text
mov #-1,r1
mov (r1),r0
",
        b"",
        b"",
        b"vpo: trap 3 at 1\n",
        73,
    ),
    (
        "100",
        b"\
.text
mov #3,r1
mov #-2,r2
add (r1),(r2)
",
        b"",
        b"",
        b"vpo: trap 3 at 2\n",
        73,
    ),
    (
        "100",
        b"\
.text
sys getc
sys exit
",
        b"",
        b"",
        b"",
        255,
    ),
    (
        "100",
        b"\
.text
sys getc
sys putc
sys getc
sys exit
",
        b"hi",
        b"h",
        b"",
        105,
    ),
    (
        "100",
        b"\
.text
mov #-1,r0
inc r0
beq L1
sys exit
L1:
mov #8,r0
sys exit
",
        b"",
        b"",
        b"",
        8,
    ),
    (
        "100",
        b"\
.text
mov #263,r0
sys exit
",
        b"",
        b"",
        b"",
        7,
    ),
    (
        "100",
        b"\
.text
L0:
br L0
",
        b"",
        b"",
        b"vpo: 100 steps spent\n",
        74,
    ),
    (
        "1",
        b"\
.text
sys exit
",
        b"",
        b"",
        b"",
        0,
    ),
    (
        "1",
        b"\
.text
mov #1,r0
sys exit
",
        b"",
        b"",
        b"vpo: 1 steps spent\n",
        74,
    ),
];

/// Texts that are no assembly texts of pdp11, and what is told of each.
pub const PDP11_REFUSED: [(&str, &str); 6] = [
    (
        "\
.text
mov #1,r",
        "vpo: assembly line 2: rule 2\n",
    ),
    (
        "\
.text
L0:
L0:
",
        "vpo: assembly line 3: rule 3\n",
    ),
    (
        "\
.text
mov #70000,r1
",
        "vpo: assembly line 2: rule 2\n",
    ),
    (
        "\
.text
mov #-0,r1
",
        "vpo: assembly line 2: rule 1\n",
    ),
    (
        "\
.text
br L9
",
        "vpo: assembly line 2: rule 4\n",
    ),
    (
        "\
mov #1,r1
",
        "vpo: assembly line 1: rule 5\n",
    ),
];

/// A program of pdp11 that prints what it reads, and ends with 5.
pub const ECHO: &[u8] = b"\
.text
L0:
sys getc
tst r0
bmi L1
sys putc
br L0
L1:
mov #5,r0
sys exit
";
