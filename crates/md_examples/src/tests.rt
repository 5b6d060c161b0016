//! What is accepted and what is refused, as worked out by hand.

use crate::duo_accepted::DUO_ACCEPTED;
use crate::duo_lines::DUO_LINES;
use crate::duo_rows::DUO_ROWS;
use crate::duo_shapes::DUO_SHAPES;
use crate::machines::{duo, tri};
use crate::porting::{Advice, DUO_ADVICE, TRI_ADVICE};
use crate::tri_edits::TRI_EDITS;
use crate::{Edit, Mend, Verdict, edited, verdict_of};
use md_check::{Layout, operators};
use md_verdict::{Accepted, accept};
use rtl_word::{W16, W32};
use shipped::Shipped::{Mips, Pdp11};
use std::alloc::Global;
use vp_io::Reason;

// What is told of a text: its line, or the line at which a rule is broken, the rule and the detail.
#[derive(Clone, Copy)]
enum Told {
    Line(&'static str),
    Broken(u32, u8, u32),
}

fn is_told(verdict: &Verdict, told: Told) -> bool {
    match (verdict, told) {
        (Verdict::Accepted(line), Told::Line(expected)) => line.as_slice() == expected.as_bytes(),
        (Verdict::Refused(reason), Told::Broken(line, rule, detail)) => {
            *reason
                == Reason {
                    line,
                    column: 1,
                    rule,
                    detail,
                }
        }
        _ => false,
    }
}

fn tells(alloc: Global, text: &[u8], told: Told) -> bool {
    let Ok(verdict) = verdict_of(alloc, text) else {
        return false;
    };
    is_told(&verdict, told)
}

#[test]
fn machines_are_accepted(rt: HostRuntime) {
    let table = [
        (duo(), "accepted duo word 16 rows 36\n"),
        (tri(), "accepted tri word 32 rows 37\n"),
        (Pdp11.text(), "accepted pdp11 word 16 rows 206\n"),
        (Mips.text(), "accepted mips word 32 rows 72\n"),
    ];
    for (text, line) in table {
        assert!(rt; tells(rt.alloc(), text, Told::Line(line)), "{line}");
    }
}

// Whether a machine has this layout, and of the operators that a machine may have these.
fn offers(machine: &Accepted, layout: Layout, covered: u16) -> bool {
    match machine {
        Accepted::Word16(m) => m.layout() == layout && operators::<W16>(m).covered == covered,
        Accepted::Word32(m) => m.layout() == layout && operators::<W32>(m).covered == covered,
    }
}

fn is_offered(alloc: Global, text: &[u8], layout: Layout, covered: u16) -> bool {
    if text.len() > 10_000 {
        return false;
    }
    let Ok(machine) = accept(alloc, text) else {
        return false;
    };
    offers(&machine, layout, covered)
}

// The pdp11 has only the extension of a byte, and the mips all but that.
#[test]
fn what_machines_offer(rt: HostRuntime) {
    let pdp11 = Layout {
        memory: 57344,
        base: 1024,
        stack: 16384,
    };
    let mips = Layout {
        memory: 4_194_304,
        base: 4096,
        stack: 1_048_576,
    };
    assert!(rt; is_offered(rt.alloc(), Pdp11.text(), pdp11, 0b10_0000_0000));
    assert!(rt; is_offered(rt.alloc(), Mips.text(), mips, 0b01_1111_1111));
}

fn tells_edited(alloc: Global, machine: &[u8], lines: (usize, usize, &str), told: Told) -> bool {
    let (first, count, new) = lines;
    let Ok(text) = edited(alloc, machine, first, count, new.as_bytes()) else {
        return false;
    };
    tells(alloc, &text, told)
}

// Lines of the pdp11 that are replaced, and what is told.
const PDP11_EDITS: [((usize, usize, &str), Told); 4] = [
    (
        (
            71,
            0,
            "row sob <d:r>,<l:label> | <d> = (<d> + -1); PC = (((<d> + -1) ne 0) -> <l>)\n",
        ),
        Told::Line("accepted pdp11 word 16 rows 207\n"),
    ),
    (
        (71, 0, "row mov #<n:0..3>,<d:r> | <d> = <n>\n"),
        Told::Broken(71, 15, 45),
    ),
    ((50, 1, ""), Told::Broken(69, 17, 18)),
    (
        (70, 1, "row sys exit | HALT = r[0]"),
        Told::Broken(70, 1, 0),
    ),
];

fn tells_without_both(alloc: Global, told: Told) -> bool {
    let Ok(without_bic) = edited(alloc, Pdp11.text(), 50, 1, b"") else {
        return false;
    };
    tells_edited(alloc, &without_bic, (43, 1, ""), told)
}

#[test]
fn the_pdp11_with_other_rows(rt: HostRuntime) {
    let alloc = rt.alloc();
    for (lines, told) in PDP11_EDITS {
        assert!(rt;
            tells_edited(alloc, Pdp11.text(), lines, told),
            "{}",
            lines.2
        );
    }
    assert!(rt; tells_without_both(alloc, Told::Broken(68, 17, 17)));
    assert!(rt; tells(alloc, b"", Told::Broken(1, 2, 0)));
}

// Whether an edit of a machine is told by this rule, at its line and with its detail.
fn tells_rule(alloc: Global, machine: &[u8], rule: u8, edit: &Edit) -> bool {
    let (first, count, new, line, detail) = *edit;
    let told = Told::Broken(line, rule, detail);
    tells_edited(alloc, machine, (first, count, new), told)
}

// What stands in the first of these edits of a machine that isn't told by its rule.
fn first_untold(alloc: Global, machine: &[u8], rule: u8, edits: &[Edit]) -> Option<&'static str> {
    for edit in edits {
        if !tells_rule(alloc, machine, rule, edit) {
            return Some(edit.2);
        }
    }
    None
}

fn first_untold_of(
    alloc: Global,
    machine: &[u8],
    rules: &[(u8, &'static [Edit])],
) -> Option<&'static str> {
    for (rule, edits) in rules {
        let untold = first_untold(alloc, machine, *rule, edits);
        if untold.is_some() {
            return untold;
        }
    }
    None
}

// Each table stands in a function of its own, with nothing else: a long constant makes each step of a proof longer.
fn untold_lines(alloc: Global) -> Option<&'static str> {
    first_untold_of(alloc, duo(), &DUO_LINES)
}

fn untold_rows(alloc: Global) -> Option<&'static str> {
    first_untold_of(alloc, duo(), &DUO_ROWS)
}

fn untold_shapes(alloc: Global) -> Option<&'static str> {
    first_untold_of(alloc, duo(), &DUO_SHAPES)
}

fn untold_of_tri(alloc: Global) -> Option<&'static str> {
    first_untold_of(alloc, tri(), &TRI_EDITS)
}

#[test]
fn each_rule_is_told(rt: HostRuntime) {
    assert_eq!(rt; untold_lines(rt.alloc()), None);
    assert_eq!(rt; untold_rows(rt.alloc()), None);
    assert_eq!(rt; untold_shapes(rt.alloc()), None);
    assert_eq!(rt; untold_of_tri(rt.alloc()), None);
}

// Whether a text is accepted and has so many rows.
fn has_rows(alloc: Global, text: &[u8], rows: usize) -> bool {
    if text.len() > 10_000 {
        return false;
    }
    let Ok(accepted) = accept(alloc, text) else {
        return false;
    };
    accepted.raw().rows.len() == rows
}

fn is_mended(alloc: Global, machine: &[u8], mend: &Mend) -> bool {
    let (first, count, new, rows) = *mend;
    let Ok(text) = edited(alloc, machine, first, count, new.as_bytes()) else {
        return false;
    };
    has_rows(alloc, &text, rows)
}

// What stands in the first of these texts that is not refused as told, or whose mend is not accepted.
fn first_unheeded(alloc: Global, machine: &[u8], advice: &[Advice]) -> Option<&'static str> {
    for (rule, refused, mend) in advice {
        if !tells_rule(alloc, machine, *rule, refused) {
            return Some(refused.2);
        }
        if !is_mended(alloc, machine, mend) {
            return Some(mend.2);
        }
    }
    None
}

// What stands in the first of these edits of a machine that isn't accepted.
fn first_unmended(alloc: Global, machine: &[u8], mends: &[Mend]) -> Option<&'static str> {
    for mend in mends {
        if !is_mended(alloc, machine, mend) {
            return Some(mend.2);
        }
    }
    None
}

fn unmended(alloc: Global) -> Option<&'static str> {
    first_unmended(alloc, duo(), &DUO_ACCEPTED)
}

fn unheeded_of_duo(alloc: Global) -> Option<&'static str> {
    first_unheeded(alloc, duo(), &DUO_ADVICE)
}

fn unheeded_of_tri(alloc: Global) -> Option<&'static str> {
    first_unheeded(alloc, tri(), &TRI_ADVICE)
}

#[test]
fn advice_to_porters(rt: HostRuntime) {
    assert_eq!(rt; unmended(rt.alloc()), None);
    assert_eq!(rt; unheeded_of_duo(rt.alloc()), None);
    assert_eq!(rt; unheeded_of_tri(rt.alloc()), None);
}
