//! Texts that are no assembly text of the mips.

use crate::refused_pdp11::Refused;

const TOKENS: [Refused; 5] = [
    (".text\nli $8,-0\n", 2),
    (".text\naddu $8,$9,%10\n", 2),
    (".text\nlw $8,4[$29]\n", 2),
    (".text\n_main:\nli $8,-x\n", 3),
    ("\t;\n", 1),
];

const ROWS: [Refused; 19] = [
    (".text\nori $8,$9,65536\n", 2),
    (".text\nori $8,$9,-1\n", 2),
    (".text\naddiu $8,$9,-32769\n", 2),
    (".text\naddiu $8,$9,32768\n", 2),
    (".text\nli $8,2147483648\n", 2),
    (".text\nli $8,-2147483649\n", 2),
    (".text\nlw $8,32768($9)\n", 2),
    (".text\nlw $8,-32769($9)\n", 2),
    (".text\nsll $8,$9,32\n", 2),
    (".text\nsll $8,$9,-1\n", 2),
    (".text\nmove $0,$8\n", 2),
    (".text\nmove $8,$16\n", 2),
    (".text\njr $8\n", 2),
    (".text\nbeq $0,$8,L0\nL0:\n", 2),
    (".text\nli $8,0x10\n", 2),
    (".text\nlw $8,00($9)\n", 2),
    (".text\nadd $8,$9,$9\n", 2),
    (".text\nla $8,L0\n", 2),
    (".text\nli $8,1\nnop\n", 3),
];

const LABELS: [Refused; 3] = [
    (".text\n_f:\n_f:\n", 3),
    (".text\nL7:\n.data\nL7:\n", 4),
    (".text\n.data\n_x:\n.word 1\n_x:\n", 5),
];

const PARTS: [Refused; 6] = [
    (".text\nj L1\n", 2),
    (".text\nla $8,_x\n", 2),
    (".text\nla $8,_f\n_f:\n", 2),
    (".text\njal _x\n.data\n_x:\n", 2),
    (".text\nbeq $8,$0,L3\nL2:\n", 2),
    (".text\n_f:\njal _f\njal _g\n", 4),
];

const DIRECTIVES: [Refused; 7] = [
    ("nop\n", 1),
    (".data\n.text\n", 1),
    (".text\n$8:\n", 2),
    (".text\n.word 1\n", 2),
    (".text\n.data\n.word 4294967296\n", 3),
    (".text\n.data\n.word -2147483649\n", 3),
    (".text\n.data\n.byte 256\n", 3),
];

/// Statics that pass `memory - stack`, which is 3,145,728: from 4,096 on 3,141,632 bytes.
const LIMITS: [Refused; 4] = [
    (".text\n.data\n.space 3141633\n", 3),
    (".text\n.data\n.space 3141632\n.byte 1\n", 4),
    (".text\n.data\n.space 3141629\n.word 1\n", 4),
    (".text\n.data\n.space 16777216\n", 3),
];

/// By the rule that is told.
pub(crate) const MIPS: [(u8, &[Refused]); 6] = [
    (1, &TOKENS),
    (2, &ROWS),
    (3, &LABELS),
    (4, &PARTS),
    (5, &DIRECTIVES),
    (6, &LIMITS),
];
