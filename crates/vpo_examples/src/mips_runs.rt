//! Texts of the mips, worked out by hand from its rows.

use crate::run_cases::RunCase;

pub const MIPS_RUNS: [RunCase; 21] = [
    (
        "100",
        b"\
.text
li $8,1
div $8,$8,$9
",
        b"",
        b"",
        b"vpo: trap 1 at 1\n",
        73,
    ),
    (
        "100",
        b"\
.text
divu $8,$8,$9
",
        b"",
        b"",
        b"vpo: trap 1 at 0\n",
        73,
    ),
    (
        "100",
        b"\
.text
rem $8,$8,$9
",
        b"",
        b"",
        b"vpo: trap 1 at 0\n",
        73,
    ),
    (
        "100",
        b"\
.text
remu $8,$8,$9
",
        b"",
        b"",
        b"vpo: trap 1 at 0\n",
        73,
    ),
    (
        "100",
        b"\
.text
li $8,-2147483648
li $9,-1
rem $8,$8,$9
",
        b"",
        b"",
        b"vpo: trap 1 at 2\n",
        73,
    ),
    (
        "100",
        b"\
.text
li $8,32
sllv $9,$8,$8
",
        b"",
        b"",
        b"vpo: trap 2 at 1\n",
        73,
    ),
    (
        "100",
        b"\
.text
li $8,-1
srav $9,$8,$8
",
        b"",
        b"",
        b"vpo: trap 2 at 1\n",
        73,
    ),
    (
        "100",
        b"\
.text
li $8,33
srlv $9,$8,$8
",
        b"",
        b"",
        b"vpo: trap 2 at 1\n",
        73,
    ),
    (
        "100",
        b"\
.text
li $8,4194304
lw $9,0($8)
",
        b"",
        b"",
        b"vpo: trap 3 at 1\n",
        73,
    ),
    (
        "100",
        b"\
.text
li $8,4194304
lbu $9,0($8)
",
        b"",
        b"",
        b"vpo: trap 3 at 1\n",
        73,
    ),
    (
        "100",
        b"\
.text
li $8,4194301
sw $0,4($8)
",
        b"",
        b"",
        b"vpo: trap 3 at 1\n",
        73,
    ),
    (
        "100",
        b"\
.text
li $8,4194304
sb $0,0($8)
",
        b"",
        b"",
        b"vpo: trap 3 at 1\n",
        73,
    ),
    (
        "100",
        b"\
.text
li $8,4098
lw $9,0($8)
",
        b"",
        b"",
        b"vpo: trap 4 at 1\n",
        73,
    ),
    (
        "100",
        b"\
.text
li $8,4097
sw $9,-2($8)
",
        b"",
        b"",
        b"vpo: trap 4 at 1\n",
        73,
    ),
    (
        "100",
        b"\
.text
li $31,7
jr $31
",
        b"",
        b"",
        b"vpo: trap 6 at 7\n",
        73,
    ),
    (
        "100",
        b"\
.text
jal _f
sys exit
_f:
li $2,77
jr $31
",
        b"",
        b"",
        b"",
        77,
    ),
    (
        "100",
        b"\
.text
li $8,-1
bltu $8,$0,L9
bgtu $8,$0,L1
L9:
li $2,1
sys exit
L1:
blt $8,$0,L2
li $2,2
sys exit
L2:
li $2,3
sys exit
",
        b"",
        b"",
        b"",
        3,
    ),
    (
        "100",
        b"\
.text
la $8,_b
lb $9,0($8)
lbu $10,0($8)
addu $2,$9,$10
sys exit
.data
_b:
.byte -1
",
        b"",
        b"",
        b"",
        254,
    ),
    (
        "100",
        b"\
.text
li $8,6
li $9,7
mul $2,$8,$9
sys exit
",
        b"",
        b"",
        b"",
        42,
    ),
    (
        "100",
        b"\
.text
li $8,-8
sra $2,$8,1
sys exit
",
        b"",
        b"",
        b"",
        252,
    ),
    (
        "100",
        b"\
.text
la $8,_w
lw $2,0($8)
sys putc
lw $2,8($8)
sys exit
.data
.byte 1
_w:
.word 72
.byte 2
.word 9
",
        b"",
        b"H",
        b"",
        9,
    ),
];
