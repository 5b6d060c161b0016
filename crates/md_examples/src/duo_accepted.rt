//! The 16-bit machine with some lines replaced, which is accepted.

use crate::edits::Mend;

pub(crate) const DUO_ACCEPTED: [Mend; 5] = [
    // rows that share no line
    (
        49,
        0,
        "class one a\nclass two b\nrow wipe <d:one> | <d> = 0\nrow wipe <d:two> | <d> = 0\nrow wipe <n:-4..4> | r[0] = <n>\nrow wipe <n:!5..9> | r[0] = <n>\nrow wipe <l:label> | PC = <l>\n",
        41,
    ),
    // good transfers
    (49, 0, "row take <d:r>,<x:r> | <d> = IN; <x> = r[7]\n", 37),
    (
        49,
        0,
        "row six <d:r> | r[0] = <d>; r[1] = <d>; r[2] = <d>; r[3] = <d>; r[4] = <d>; r[7] = <d>\n",
        37,
    ),
    // as many register holes as four general registers allow
    (
        49,
        0,
        "row three <a:r>,<b:r>,<c:r> | <a> = (<b> + <c>)\n",
        37,
    ),
    // a row of 355 tokens
    (
        49,
        0,
        "mode long | x x x x x x x x x x x x x x x x x x x x x x x x x x x x x x x x x x x x x x x x x x x x x x x x x x x x x x x x x x x x x x x x x x x x x x x x x x x x x x x x x x x x x x x x x x x x x x x x x x x x x x x x x x x x x x x x x x x x x x | 1\nrow long <a:long> <b:long> <c:long> | r[0] = ((<a> + <b>) + <c>)\n",
        37,
    ),
];
