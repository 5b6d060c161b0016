//! The 32-bit machine with some lines replaced.

use crate::edits::Edit;

// Rule 5: numbers out of range.
const RANGES: [Edit; 5] = [
    (5, 1, "memory 16777220\n", 5, 0),
    (5, 1, "memory 1048574\n", 5, 0),
    (6, 1, "data 4094\n", 6, 0),
    (7, 1, "stack 1048580\n", 7, 0),
    (7, 1, "stack 1044480\n", 7, 0),
];

// Rule 17: shapes that aren't covered.
const SHAPES: [Edit; 16] = [
    (48, 1, "", 51, 21),
    (49, 1, "", 51, 22),
    (33, 1, "", 51, 18),
    (37, 1, "", 51, 20),
    (38, 1, "", 51, 20),
    (39, 1, "", 51, 20),
    (40, 1, "", 51, 20),
    (41, 1, "", 51, 20),
    (42, 1, "", 51, 20),
    (43, 1, "", 51, 20),
    (44, 1, "", 51, 20),
    (45, 1, "", 51, 20),
    (46, 1, "", 51, 20),
    (
        16,
        10,
        "class g v0 t0 t1 t2 t3 sp ra\nclass o v0 t0 t1 t2 t3 sp\nmode at | @<x:g> | <x>\nmode at | @<x:g>+<k:0..65535> | (<x> + <k>)\n\nrow copy <d:g> <x:g> | <d> = <x>\nrow swap <d:g> <x:g> | <d> = <x>; <x> = <d>\nrow set <d:g> <n:word> | <d> = <n>\nrow set <d:g> <y:sym> | <d> = <y>\nrow get <d:g> <a:at> | <d> = M[<a>]\nrow put <x:o> <a:at> | M[<a>] = <x>\n",
        53,
        23,
    ),
    (
        16,
        9,
        "class g v0 t0 t1 t2 t3 sp ra\nclass o v0 t0 t1 t2 t3 sp\nmode at | @<x:g> | <x>\nmode at | @<x:g>+<k:0..65535> | (<x> + <k>)\n\nrow copy <d:g> <x:g> | <d> = <x>\nrow swap <d:g> <x:g> | <d> = <x>; <x> = <d>\nrow set <d:g> <n:word> | <d> = <n>\nrow set <d:g> <y:sym> | <d> = <y>\nrow get <d:o> <a:at> | <d> = M[<a>]\n",
        53,
        24,
    ),
    (
        22,
        1,
        "row set <d:g> <n:-2147483648..2147483646> | <d> = <n>\n",
        52,
        2,
    ),
];

/// The edits of each rule.
pub const TRI_EDITS: [(u8, &[Edit]); 2] = [(5, &RANGES), (17, &SHAPES)];
