//! What is printed of the programs of some texts, worked out by hand.

use crate::machines::{mips, pdp11};
use crate::printing::reprinted;
use md_check::Checked;
use rtl_word::{W16, W32, Word};
use std::alloc::Global;

/// A text, and what is printed of its program.
type Print = (&'static str, &'static str);

const PDP11_PRINTS: [Print; 3] = [
    (".text", ".text\n.data\n"),
    (
        ".text\n* c\n\n_main :\n mov # -1 , r1\nL1:\nbr L1\nmov #_y,_x\n.data\n_x:\n.byte 7\n_y:\n.word -2\n.space 2\n.byte -1",
        ".text\n_main:\n\tmov #-1,r1\nL1:\n\tbr L1\n\tmov #_y,_x\n.data\n_x:\n\t.byte 7\n\t.byte 0\n_y:\n\t.byte 254\n\t.byte 255\n\t.byte 0\n\t.byte 0\n\t.byte 255\n",
    ),
    (
        ".text\nL0:\n_f:\nL1:\n.data\nL2:\n_x:\n_z:\n",
        ".text\nL0:\n_f:\nL1:\n.data\n_x:\n_z:\n",
    ),
];

const MIPS_PRINTS: [Print; 2] = [
    (
        ".text\n.data\n.space 3\n",
        ".text\n.data\n\t.byte 0\n\t.byte 0\n\t.byte 0\n",
    ),
    (
        ".text\njal _f\n\tlw $2,0($29)\n_f:\njr $31\nla $8,_b\n.data\n_a:\n.byte 5\n_b:\n.word 66051",
        ".text\n\tjal _f\n\tlw $2,0($29)\n_f:\n\tjr $31\n\tla $8,_b\n.data\n_a:\n\t.byte 5\n\t.byte 0\n\t.byte 0\n\t.byte 0\n_b:\n\t.byte 3\n\t.byte 2\n\t.byte 1\n\t.byte 0\n",
    ),
];

fn prints<W: Word>(alloc: Global, m: &Checked<W>, text: &str, print: &str) -> bool {
    let Some(printed) = reprinted::<W>(alloc, m, text.as_bytes()) else {
        return false;
    };
    printed.as_slice() == print.as_bytes()
}

// The first of these texts of whose program something else is printed, or of whose print something else is.
fn first_other_print<W: Word>(
    alloc: Global,
    m: &Checked<W>,
    rows: &[Print],
) -> Option<&'static str> {
    for row in rows {
        if !prints::<W>(alloc, m, row.0, row.1) || !prints::<W>(alloc, m, row.1, row.1) {
            return Some(row.0);
        }
    }
    None
}

fn other_print_of_pdp11(alloc: Global, m: &Checked<W16>) -> Option<&'static str> {
    first_other_print::<W16>(alloc, m, &PDP11_PRINTS)
}

fn other_print_of_mips(alloc: Global, m: &Checked<W32>) -> Option<&'static str> {
    first_other_print::<W32>(alloc, m, &MIPS_PRINTS)
}

#[test]
fn programs_are_printed(rt: HostRuntime) {
    let alloc = rt.alloc();
    let m = pdp11(alloc).expect(&rt, "the pdp11");
    assert_eq!(rt; other_print_of_pdp11(alloc, &*m), None);
    let m = mips(alloc).expect(&rt, "the mips");
    assert_eq!(rt; other_print_of_mips(alloc, &*m), None);
}
