//! Rows of a description, whose number holes count as numbers for the rules N2 and N3 alone.

ghost use Rattle.std.specs.Prelude.{IfOk, [], ◌∷◌, ◌≡◌};
ghost use Rattle.rtl_tree.specs.Trees.{AnyNumber};

use super::no_names;
use super::table::{Row, check};
use rtl_simplify::normalise_effects;
use rtl_text::{OpenHole, TextFault, read_holed};
use rtl_tree::{Effects, Expr, same};
use rtl_word::W16;
use std::alloc::{AllocError, Global};

/// The hole `<n>` for a number.
fn number_hole(alloc: Global) -> Result<Vec<OpenHole>, AllocError>
    ensures { IfOk result (λ holes. holes.items ≡ record { name = 110 ∷ []; leaf = AnyNumber 0 } ∷ []) }
{
    let name = b"n".to_vec(alloc)?;
    let mut holes = Vec::new(alloc);
    holes.push(OpenHole {
        name,
        leaf: Expr::NumHole(0),
    })?;
    Ok(holes)
}

/// The normal form of the transfer that a row's text spells.
fn row(alloc: Global, text: &str) -> Result<Effects, TextFault> {
    let names = no_names(alloc);
    let holes = number_hole(alloc)?;
    let mut normal = read_holed::<W16>(alloc, text.as_bytes(), &names, &holes)?;
    normalise_effects::<W16>(&mut normal);
    Ok(normal)
}

fn spelled(alloc: Global, holes: &Vec<OpenHole>, text: &str) -> Result<Effects, TextFault> {
    read_holed::<W16>(alloc, text.as_bytes(), &no_names(alloc), holes)
}

/// Whether the first assignments of two transfers have one value.
fn are_alike(one: &Effects, other: &Effects) -> bool {
    let (left, right) = (&one.list[0], &other.list[0]);
    same(&left.value, &right.value)
}

/// Whether a text spells the value of this transfer's first assignment.
fn has_value(alloc: Global, normal: &Effects, text: &str) -> bool {
    let Ok(holes) = number_hole(alloc) else {
        return false;
    };
    match spelled(alloc, &holes, text) {
        Ok(transfer) => are_alike(normal, &transfer),
        Err(_) => false,
    }
}

/// A transfer with a number hole, and another with its normal form as the value.
struct Normal(&'static str, &'static str);

impl Row for Normal {
    fn holds(&self, alloc: Global) -> bool {
        match row(alloc, self.0) {
            Ok(normal) => has_value(alloc, &normal, self.1),
            Err(_) => false,
        }
    }
}

const ROWS: [Normal; 9] = [
    Normal("r[3] = (<n> + r[1])", "r[3] = (r[1] + <n>)"),
    Normal("r[3] = (<n> & r[1])", "r[3] = (r[1] & <n>)"),
    Normal("r[3] = (<n> ne r[1])", "r[3] = (r[1] ne <n>)"),
    Normal("r[3] = (<n> ltu r[1])", "r[3] = (r[1] gtu <n>)"),
    Normal("r[3] = (<n> ge r[1])", "r[3] = (r[1] le <n>)"),
    Normal("r[3] = (<n> - r[1])", "r[3] = (<n> - r[1])"),
    Normal("r[3] = (r[1] - <n>)", "r[3] = (r[1] - <n>)"),
    Normal("r[3] = ((r[1] + 4) + <n>)", "r[3] = ((r[1] + 4) + <n>)"),
    Normal("r[3] = (<n> + 4)", "r[3] = (<n> + 4)"),
];

#[test]
fn number_holes(rt: HostRuntime) {
    check(&rt, rt.alloc(), "rows", &ROWS);
}
