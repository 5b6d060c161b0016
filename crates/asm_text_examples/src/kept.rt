//! Texts with a program, and what the program has.

use rtl_tree::Lab;
use rtl_value::LabelAt;

/// A text, how many instructions it has, and the labels of its text part.
pub(crate) type Text = (&'static str, usize, &'static [LabelAt]);

/// A text, the addresses of its objects, and the bytes of its data.
pub(crate) type Data = (&'static str, &'static [u32], &'static [u8]);

const F0: LabelAt = LabelAt {
    label: Lab::Function(0),
    at: 0,
};

const F0_AT_1: LabelAt = LabelAt {
    label: Lab::Function(0),
    at: 1,
};

const F0_AT_2: LabelAt = LabelAt {
    label: Lab::Function(0),
    at: 2,
};

const F1: LabelAt = LabelAt {
    label: Lab::Function(1),
    at: 0,
};

const L0: LabelAt = LabelAt {
    label: Lab::Block(0),
    at: 0,
};

const L1: LabelAt = LabelAt {
    label: Lab::Block(1),
    at: 0,
};

const L1_AT_1: LabelAt = LabelAt {
    label: Lab::Block(1),
    at: 1,
};

const L2_AT_1: LabelAt = LabelAt {
    label: Lab::Block(2),
    at: 1,
};

const L5_AT_1: LabelAt = LabelAt {
    label: Lab::Block(5),
    at: 1,
};

const LAST: LabelAt = LabelAt {
    label: Lab::Block(4_294_967_295),
    at: 0,
};

pub(crate) const PDP11_TEXTS: [Text; 22] = [
    (".text", 0, &[]),
    ("* c\n.text\n", 0, &[]),
    ("\n \t\n.text\n", 0, &[]),
    (" \t.text\t \n", 0, &[]),
    (".text\nmov r1,r2\n.data\n", 1, &[]),
    (".text\n\tmov\t#1\t,\tr1\t\n", 1, &[]),
    (".text\n mov # 1 , r1 \n", 1, &[]),
    (".text\nmov#1,r1\n", 1, &[]),
    (".text\nmov 4 ( r1 ) , r2\n", 1, &[]),
    (".text\n  * comment; - [\nmov r1,r2\n", 1, &[]),
    (
        ".text\nmov #-32768,r1\nmov #32767,r1\nbic #255,r1\n",
        3,
        &[],
    ),
    (".text\n_main:\nsys getc\nsys putc\nsys exit\n", 3, &[F0]),
    (".text\n_main:\nmov #1,r1\nL1:\nbr L1", 2, &[F0, L1_AT_1]),
    (".text\n_f :\nrts pc\n", 1, &[F0]),
    (".text\n_if:\n", 0, &[F0]),
    (".text\njsr pc,_f\n_f:\nrts pc\n", 2, &[F0_AT_1]),
    (".text\n_a:\n_b:\nbr _b\nbr _a\n", 2, &[F0, F1]),
    (".text\nL0:\nL1:\nbr L0\nbr L1\n", 2, &[L0, L1]),
    (".text\nbr L5\nL5:\n", 1, &[L5_AT_1]),
    (".text\nL4294967295:\nbr L4294967295\n", 1, &[LAST]),
    (".text\nmov #_x,r1\nmov _x,_x\n.data\n_x:\n", 2, &[]),
    (
        ".text\n_aaaaaaaaaabbbbbbbbbbccccccccccddddddddddeeeeeeeeeeffffffffffggg:\n",
        0,
        &[F0],
    ),
];

pub(crate) const PDP11_DATA: [Data; 17] = [
    (".text\n.data\n", &[], &[]),
    (".text\n.data\n.word 1\n", &[], &[1, 0]),
    (".text\n.data\n.word -2\n", &[], &[254, 255]),
    (".text\n.data\n.word 65535\n", &[], &[255, 255]),
    (".text\n.data\n.word -32768\n", &[], &[0, 128]),
    (".text\n.data\n\t.word\t 3 \n", &[], &[3, 0]),
    (".text\n.data\n.byte 255\n.byte -128\n", &[], &[255, 128]),
    (".text\n.data\n.byte 1\n.word 2\n", &[], &[1, 0, 2, 0]),
    (".text\n.data\n.byte 7\n_x:\n", &[1026], &[7, 0]),
    // a block's label in the data moves the place
    (".text\n.data\n.byte 7\nL3:\n.byte 8\n", &[], &[7, 0, 8]),
    (".text\n.data\n.space 3\n", &[], &[0, 0, 0]),
    (".text\n.data\n.space 0\n_x:\n", &[1024], &[]),
    (".text\n.data\n_x:\n_y:\n.word 5\n", &[1024, 1024], &[5, 0]),
    (".text\n.data\n* c\n.byte 9\n\n", &[], &[9]),
    (
        ".text\n.data\n.byte 0\n.space 2\n.word 258\n",
        &[],
        &[0, 0, 0, 0, 2, 1],
    ),
    (
        ".text\n.data\n.space 2\n_a:\n.byte 1\n_b:\n.byte 2\n_c:",
        &[1026, 1028, 1030],
        &[0, 0, 1, 0, 2, 0],
    ),
    (
        ".text\n_main:\nmov #_y,r1\n.data\n_x:\n.word -2\n.byte 255\n_y:\n.space 1\n",
        &[1024, 1028],
        &[254, 255, 255, 0, 0],
    ),
];

pub(crate) const MIPS_TEXTS: [Text; 3] = [
    (
        ".text\n_main:\n\tli $8,-2147483648\n\tsw $8,-4($29)\n\tlw $2,0($29)\n\tjr $31\n",
        4,
        &[F0],
    ),
    (".text\nbeq $8,$0,L2\nL2:\n", 1, &[L2_AT_1]),
    (".text\njal _f\nori $8 , $9 , 65535\n_f:\n", 2, &[F0_AT_2]),
];

pub(crate) const MIPS_DATA: [Data; 7] = [
    (".text\n.data\n.word 1\n", &[], &[1, 0, 0, 0]),
    (".text\n.data\n.word -1\n", &[], &[255, 255, 255, 255]),
    (
        ".text\n.data\n.word 4294967295\n",
        &[],
        &[255, 255, 255, 255],
    ),
    (".text\n.data\n.word -2147483648\n", &[], &[0, 0, 0, 128]),
    (
        ".text\n.data\n.byte 1\n.word 2\n",
        &[],
        &[1, 0, 0, 0, 2, 0, 0, 0],
    ),
    (".text\n.data\n.byte 1\n_x:\n", &[4100], &[1, 0, 0, 0]),
    (
        ".text\nla $8,_b\n.data\n_a:\n.byte 5\n_b:\n.word 66051\n",
        &[4096, 4100],
        &[5, 0, 0, 0, 3, 2, 1, 0],
    ),
];
