//! Texts that are no assembly text of the pdp11.

/// A text, and the line that is told of it.
pub(crate) type Refused = (&'static str, u32);

/// Bytes that are no tokens.
const TOKENS: [Refused; 17] = [
    (".text\nmov #-0,r1\n", 2),
    (".text\nmov #- 1,r1\n", 2),
    (".text\nadd r2;r1\n", 2),
    (".text\nnothing - here\n", 2),
    (".text\n\"\n", 2),
    (".text\nmov [r1],r2\n", 2),
    (".text\nx = 1\n", 2),
    (
        ".text\nmov r1,r2 * only a line's first byte begins a comment\n",
        2,
    ),
    (".text\nL0:\r\n", 2),
    (".text\n.word -\n", 2),
    (".text\nmov #1,r1\n\\\n", 3),
    (".text\nmov #1,r1\nmov #'a,r1\n", 3),
    (".text\n.data\n.word 1;\n", 3),
    (".text\n\n* c\n_main:\n/\n", 5),
    // also where the line is no `.text`, or a label that it names stands nowhere
    (".text\r\n", 1),
    ("!", 1),
    (".text\nbr L9;\n", 2),
];

/// Instructions that no row makes.
const ROWS: [Refused; 38] = [
    (".text\nmov #1,r", 2),
    (".text\nmov #70000,r1\n", 2),
    (".text\nmov #32768,r1\n", 2),
    (".text\nmov #-32769,r1\n", 2),
    (".text\nbic #65536,r1\n", 2),
    (".text\nadd r2,r9\n", 2),
    (".text\nsys\n", 2),
    (".text\nsys putchar\n", 2),
    (".text\nx : y\n", 2),
    (".text\n:\n", 2),
    (".text\n1\n", 2),
    (".text\nL0: L1:\n", 2),
    (".text\n_f: mov #1,r1\n", 2),
    (".text\nL-1:\n", 2),
    (".text\nmov r1\n", 2),
    (".text\nmov r1,r2,r3\n", 2),
    (".text\nmovb r1,r2,\n", 2),
    (".text\nMOV r1,r2\n", 2),
    (".text\nmov r1 r2\n", 2),
    (".text\nmov #1,#2\n", 2),
    (".text\ninc #1\n", 2),
    (".text\nmov #+1,r1\n", 2),
    (".text\nmov @r1,r2\n", 2),
    (".text\nmov 1(r1)(r2),r3\n", 2),
    (".text\njsr r1,_f\n", 2),
    // `00` and `12345678901` are two numbers each
    (".text\nmov 00(r1),r2\n", 2),
    (".text\nmov #12345678901,r1\n", 2),
    // what is no label's name
    (".text\nbr 5\n", 2),
    (".text\nbr r1\n", 2),
    (".text\nbr L\n", 2),
    (".text\nbr L05\n", 2),
    (".text\nbr L4294967296\n", 2),
    (".text\nbr _\n", 2),
    (".text\nbr _1\n", 2),
    (".text\nmov #_,r1\n", 2),
    // an object has a name with `_`
    (".text\nL0:\nmov #L0,r1\n", 3),
    (".text\nmov #1,r1\nmov #1 r1\n", 3),
    // a line below that breaks a lesser rule isn't told
    (".text\nsys\nadd r2;r1\n", 2),
];

/// Labels that stand already.
const LABELS: [Refused; 14] = [
    (".text\nL0:\nL0:\n", 3),
    (".text\n_f:\n_f:\n", 3),
    (".text\n_f:\n_f :\n", 3),
    (".text\nL4294967295:\nL4294967295:\n", 3),
    (".text\nL0:\nmov r1,r2\nL0:\n", 4),
    (".text\n_x:\n.data\n_x:\n", 4),
    (".text\nL0:\n.data\nL0:\n", 4),
    (".text\n.data\n_x:\n_x:\n", 4),
    (".text\n.data\nL1:\nL1:\n", 4),
    (".text\n.data\n_x:\n.byte 1\n_x:\n", 5),
    (".text\n_main:\n.data\n.word 1\n_main:\n", 5),
    (".text\nL0:\nL1:\nL2:\nL1:\n", 5),
    (".text\n_a:\n\n* x\n_a:\n", 5),
    (".text\n_f:\n_g:\n_f:\nbr L9\n", 4),
];

/// Labels that are named, and aren't in their part.
const PARTS: [Refused; 17] = [
    (".text\nbr L9\n", 2),
    (".text\nbr L1\nL2:\n", 2),
    (".text\njsr pc,_f\n", 2),
    (".text\nmov _x,r1\n", 2),
    (".text\nbr L1\n.data\nL1:\n", 2),
    (".text\njsr pc,_x\n.data\n_x:\n", 2),
    (".text\nbr _x\n.data\n_x:\n", 2),
    (".text\nmov #_f,r1\n_f:\n", 2),
    (".text\nmov _x,_y\n.data\n_x:\n", 2),
    (".text\nmov _y,_x\n.data\n_x:\n", 2),
    (".text\n_main:\nmov r1,_x\n.data\n_y:\n", 3),
    (".text\n_f:\nmov #_f,r1\n", 3),
    (".text\nmov #1,r1\nbeq L0\n", 3),
    (".text\nbr L1\nbr L2\nL1:\n", 3),
    // before what the lines below break
    (".text\nbr L1\nL01:\n", 2),
    (".text\nbr L1\nmov #-0,r1\n", 2),
    // for a label that stands twice its first place counts
    (".text\nbr L0\n.data\nL0:\nL0:\n", 2),
];

/// Directives and labels that are misspelt, out of range or out of place, and texts without `.text`.
const DIRECTIVES: [Refused; 46] = [
    ("", 1),
    ("\n", 1),
    ("* a\n  \n", 1),
    ("mov #1,r1\n", 1),
    (".data\n", 1),
    (".txt\n", 1),
    (".text 1\n", 1),
    (".text .text\n", 1),
    ("L0:\n.text\n", 1),
    ("L0:\nL0:\n.text\n", 1),
    ("_x:\n.text\n_x:\n", 1),
    ("nonsense\n.text\n", 1),
    ("* c\n\n.word 1\n", 3),
    (".text\n.text\n", 2),
    (".text\n.word 1\n", 2),
    (".text\n.byte 1\n", 2),
    (".text\n.space 1\n", 2),
    (".text\n.bss\n", 2),
    (".text\n.globl _x\n", 2),
    (".text\n .data 1\n", 2),
    // names that are no label's
    (".text\nx :\n", 2),
    (".text\nr1:\n", 2),
    (".text\n_:\n", 2),
    (".text\n_1:\n", 2),
    (".text\nL:\n", 2),
    (".text\nL01:\n", 2),
    (".text\nL00:\n", 2),
    (".text\nL4294967296:\n", 2),
    (".text\n.data\nx:\n", 3),
    // numbers out of range
    (".text\n.data\n.word 65536\n", 3),
    (".text\n.data\n.word -32769\n", 3),
    (".text\n.data\n.byte 256\n", 3),
    (".text\n.data\n.byte -129\n", 3),
    (".text\n.data\n.space -1\n", 3),
    (".text\n.data\n.space 16777217\n", 3),
    // the data part has labels and directives alone
    (".text\n.data\n.data\n", 3),
    (".text\n.data\n.text\n", 3),
    (".text\n.data\nmov #1,r1\n", 3),
    (".text\n.data\n1\n", 3),
    (".text\n.data\n.words 1\n", 3),
    (".text\n.data\n.word\n", 3),
    (".text\n.data\n.word 1 2\n", 3),
    (".text\n.data\n.word r1\n", 3),
    (".text\n.data\n.byte\n", 3),
    (".text\n.data\n.byte 1,2\n", 3),
    // not as an instruction whose label stands nowhere
    (".text\n.data\n.word 1\nbr L0\n", 4),
];

/// Statics that pass `memory - stack`, which is 40,960: from 1,024 on 39,936 bytes.
const LIMITS: [Refused; 10] = [
    (".text\n.data\n.space 60000\n", 3),
    (".text\n.data\n.space 39937\n", 3),
    (".text\n.data\n.space 16777216\n", 3),
    (".text\n.data\n.space 39936\n.byte 0\n", 4),
    (".text\n.data\n.space 39936\n.word 1\n", 4),
    (".text\n.data\n.space 39935\n.word 1\n", 4),
    (".text\n.data\n.space 20000\n.space 19937\n", 4),
    (".text\n.data\n.space 39935\n.byte 1\n.byte 1\n", 5),
    (".text\n.data\n.space 39935\nL0:\n.byte 1\n", 5),
    (".text\n.data\n.space 39936\n_x:\n_y:\n.byte 1\n", 6),
];

/// By the rule that is told.
pub(crate) const PDP11: [(u8, &[Refused]); 6] = [
    (1, &TOKENS),
    (2, &ROWS),
    (3, &LABELS),
    (4, &PARTS),
    (5, &DIRECTIVES),
    (6, &LIMITS),
];
