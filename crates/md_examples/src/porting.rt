//! What a porter of another machine falls over: lines that are refused, each with its mend (`docs/PORTING.md`).

use crate::edits::{Edit, Mend};

/// A rule, lines by which it is broken, and lines in their place that are accepted.
pub(crate) type Advice = (u8, &'static Edit, &'static Mend);

pub(crate) const DUO_ADVICE: [Advice; 15] = [
    // Which tokens a row is made of.
    (
        3,
        &(8, 1, "reg 1 %b general\n", 8, 0),
        &(
            8,
            7,
            "reg 1 $b general\nreg 2 c general\nreg 3 d general\nreg 4 e general\nreg 7 s stack\nflag 0 cmp\nclass r a $b c d e s\n",
            36,
        ),
    ),
    (
        3,
        &(20, 1, "row ld <d:r>,[<x:r>] | <d> = M[<x>]\n", 20, 0),
        &(20, 1, "row ld <d:r>,@<x:at> | <d> = M[<x>]\n", 36),
    ),
    // Spaces are no tokens.
    (
        15,
        &(49, 0, "row mov <d:r> , <x:r> | <d> = (<x> + 0)\n", 49, 17),
        &(49, 0, "row mova <d:r> , <x:r> | <d> = (<x> + 0)\n", 37),
    ),
    // Numbers of a transfer are signed words.
    (
        3,
        &(49, 0, "row high <d:r> | <d> = (<d> & 65280)\n", 49, 0),
        &(49, 0, "row high <d:r> | <d> = (<d> & -256)\n", 37),
    ),
    // A machine whose addresses all have a displacement.
    (
        17,
        &(15, 1, "", 47, 4),
        &(
            15,
            2,
            "mode at | 0(<r:r>) | <r>\nmode at | <k:1..32767>(<r:r>) | (<r> + <k>)\nmode at | <k:-32768..-1>(<r:r>) | (<r> + <k>)\n",
            40,
        ),
    ),
    (
        15,
        &(15, 1, "mode at | 0(<r:r>) | <r>\n", 20, 20),
        &(
            15,
            2,
            "mode at | 0(<r:r>) | <r>\nmode at | <k:1..32767>(<r:r>) | (<r> + <k>)\nmode at | <k:-32768..-1>(<r:r>) | (<r> + <k>)\n",
            40,
        ),
    ),
    // Coverage: one row for the whole shape, and for any two registers.
    (
        17,
        &(
            18,
            1,
            "row mov <d:r>,#<n:0..32767> | <d> = <n>\nrow mov <d:r>,#<n:-32768..-1> | <d> = <n>\n",
            49,
            2,
        ),
        &(18, 1, "row mov <d:r>,#<n:word> | <d> = <n>\n", 36),
    ),
    (
        17,
        &(24, 1, "row add <d:r> | <d> = (<d> + r[1])\n", 48, 14),
        &(24, 1, "row add <d:r>,<x:r> | <d> = (<d> + <x>)\n", 36),
    ),
    // Coverage: what else a row does.
    (
        17,
        &(17, 1, "row mov <d:r>,<x:r> | <d> = <x>; r[1] = 0\n", 48, 1),
        &(
            17,
            1,
            "row mov <d:r>,<x:r> | <d> = <x>; f[0] = (<x> ? 0)\n",
            36,
        ),
    ),
    (
        17,
        &(
            17,
            1,
            "row mov <d:r>,<x:r> | <d> = <x>; f[0] = (M[<x>] ? 0)\n",
            48,
            1,
        ),
        &(
            17,
            1,
            "row mov <d:r>,<x:r> | <d> = <x>; f[0] = (<x> ? 0)\n",
            36,
        ),
    ),
    (
        17,
        &(
            17,
            1,
            "row mov <d:r>,<x:r>,<y:r> | <d> = <x>; f[0] = (<y> ? 0)\n",
            48,
            1,
        ),
        &(
            17,
            1,
            "row mov <d:r>,<x:r> | <d> = <x>; f[0] = (<x> ? 0)\n",
            36,
        ),
    ),
    // Three general registers.
    (
        16,
        &(10, 2, "reg 3 d other\nreg 4 e other\n", 48, 0),
        &(11, 1, "reg 4 e other\n", 36),
    ),
    // The range of a hole.
    (
        5,
        &(18, 1, "row mov <d:r>,#<n:-1..65535> | <d> = <n>\n", 18, 0),
        &(18, 1, "row mov <d:r>,#<n:0..65535> | <d> = <n>\n", 36),
    ),
    // How names are printed.
    (
        8,
        &(13, 0, "reg 8 _t other\n", 13, 0),
        &(13, 0, "reg 8 t other\n", 36),
    ),
    (
        15,
        &(49, 0, "row jmp <y:sym> | PC = <y>\n", 49, 43),
        &(49, 0, "row jmpa <y:sym> | PC = <y>\n", 37),
    ),
];

pub(crate) const TRI_ADVICE: [Advice; 1] = [
    // Coverage: a line of at most 640 bytes.
    (
        17,
        &(
            9,
            8,
            "reg 2 nnnnnnnnnnnnnnnnnnnnnnnnnnnnnnnnnnnnnnnnnnnnnnnnnnnnnnnnnnnnnnnnnnnnnnnnnnnnnnnnnnnnnnnnnnnnnnnnnnnnnnnnnnnnnnnnnnnnnnnnnnnnnnnnnnnnnnnnnnnnnnnnnnnnnnnnnnnnnnnnnnnnnnnnnnnnnnnnnnnnnnnnnnnnnnnnnnnnnnnnnnnnnnnnnnnnnn general\nreg 3 t1 general\nreg 4 t2 general\nreg 5 t3 general\nreg 30 sp stack\nreg 31 ra link\n\nclass g v0 nnnnnnnnnnnnnnnnnnnnnnnnnnnnnnnnnnnnnnnnnnnnnnnnnnnnnnnnnnnnnnnnnnnnnnnnnnnnnnnnnnnnnnnnnnnnnnnnnnnnnnnnnnnnnnnnnnnnnnnnnnnnnnnnnnnnnnnnnnnnnnnnnnnnnnnnnnnnnnnnnnnnnnnnnnnnnnnnnnnnnnnnnnnnnnnnnnnnnnnnnnnnnnnnnnnnnn t1 t2 t3 sp ra\n",
            52,
            14,
        ),
        &(
            9,
            8,
            "reg 2 nnnnnnnnnnnnnnnnnnnnnnnnnnnnnnnnnnnnnnnnnnnnnnnnnnnnnnnnnnnnnnnnnnnnnnnnnnnnnnnnnnnnnnnnnnnnnnnnnnnnnnnnnnnnnnnnnnnnnnnnnnnnnnnnnnnnnnnnnnnnnnnnnnnnnnnnnnnnnnnnnnnnnnnnnnnnnnnnnnnnnnnnnnnnnnnnnnnnnnnnnnnnnnnn general\nreg 3 t1 general\nreg 4 t2 general\nreg 5 t3 general\nreg 30 sp stack\nreg 31 ra link\n\nclass g v0 nnnnnnnnnnnnnnnnnnnnnnnnnnnnnnnnnnnnnnnnnnnnnnnnnnnnnnnnnnnnnnnnnnnnnnnnnnnnnnnnnnnnnnnnnnnnnnnnnnnnnnnnnnnnnnnnnnnnnnnnnnnnnnnnnnnnnnnnnnnnnnnnnnnnnnnnnnnnnnnnnnnnnnnnnnnnnnnnnnnnnnnnnnnnnnnnnnnnnnnnnnnnnnnn t1 t2 t3 sp ra\n",
            37,
        ),
    ),
];
