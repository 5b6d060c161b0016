//! Which shapes a description's rows cover.

ghost use Rattle.std.specs.Prelude.{◌≡◌, ◌⊎◌, ◌↔◌, ◌<◌, ℕ, IsTrue};
ghost use Rattle.rtl_word.specs.declared.Rel.{Rel as Relation};
ghost use Rattle.rtl_word.specs.declared.Rel.TheVariants.{Eq};
ghost use Rattle.md_shapes.specs.Shapes.{plain};
ghost use Rattle.std.specs.Prelude.{is_some};
ghost use Rattle.std.specs.List.{list_any};
ghost use Rattle.md_rows.specs.declared.description.Role.TheVariants.{Link};
ghost use Rattle.md_covers.specs.Covers.{first_with, same_role};
ghost use Rattle.md_check.specs.Accepted.{HasShape, IsCovered, IsFlagBranch, MissesShape, has_link, is_required, shape};
ghost use Rattle.md_check.specs.Checking.{AreReadRows, EachBranch, IsLeast};

use md_covers::covers;
use md_rows::{RawDescription, Register, Role};
use md_shapes::Shape;
use rtl_word::{Rel, Word};

const RELATIONS: [Rel; 10] = [
    Rel::Eq,
    Rel::Ne,
    Rel::Lt,
    Rel::Le,
    Rel::Gt,
    Rel::Ge,
    Rel::Ltu,
    Rel::Leu,
    Rel::Gtu,
    Rel::Geu,
];

fn is_covered<W: Word>(d: &RawDescription, shape: Shape) -> bool
    requires word { d.now.word ≡ W.BITS }
    requires rows { AreReadRows W.BITS d.now.rows }
    ensures { IsTrue result ↔ IsCovered d.now shape }
{
    let rows = d.rows.as_slice();
    for i in 0..rows.len() {
        if covers::<W>(d, &rows[i], shape) {
            return true;
        }
    }
    false
}

/// Whether a row covers the first transfer of a shape.
pub(crate) fn is_plainly_covered<W: Word>(d: &RawDescription, number: u8) -> bool
    requires word { d.now.word ≡ W.BITS }
    requires rows { AreReadRows W.BITS d.now.rows }
    ensures { IsTrue result ↔ IsCovered d.now (plain number) }
{
    is_covered::<W>(
        d,
        Shape {
            number,
            form: 0,
            relation: Rel::Eq,
            flag: 0,
        },
    )
}

fn clears<W: Word>(d: &RawDescription) -> bool
    requires word { d.now.word ≡ W.BITS }
    requires rows { AreReadRows W.BITS d.now.rows }
    ensures { IsTrue result ↔ (IsCovered d.now (plain 18) ⊎ IsCovered d.now (shape 18 1 Eq 0)) }
{
    is_plainly_covered::<W>(d, 18)
        || is_covered::<W>(
            d,
            Shape {
                number: 18,
                form: 1,
                relation: Rel::Eq,
                flag: 0,
            },
        )
}

/// Whether a row makes the comparison of a branch by this flag.
fn compares_into<W: Word>(d: &RawDescription, flag: u8) -> bool
    requires word { d.now.word ≡ W.BITS }
    requires rows { AreReadRows W.BITS d.now.rows }
    ensures { IsTrue result ↔ IsCovered d.now (shape 20 1 Eq flag) }
{
    is_covered::<W>(
        d,
        Shape {
            number: 20,
            form: 1,
            relation: Rel::Eq,
            flag,
        },
    )
}

/// Whether a row makes the jump of a branch by this flag.
fn jumps_by<W: Word>(d: &RawDescription, relation: Rel, flag: u8) -> bool
    requires word { d.now.word ≡ W.BITS }
    requires rows { AreReadRows W.BITS d.now.rows }
    ensures { IsTrue result ↔ IsCovered d.now (shape 20 2 relation flag) }
{
    is_covered::<W>(
        d,
        Shape {
            number: 20,
            form: 2,
            relation,
            flag,
        },
    )
}

fn branches_by<W: Word>(d: &RawDescription, relation: Rel, flag: u8) -> bool
    requires word { d.now.word ≡ W.BITS }
    requires rows { AreReadRows W.BITS d.now.rows }
    ensures { IsTrue result ↔ (IsCovered d.now (shape 20 1 Eq flag) × IsCovered d.now (shape 20 2 relation flag)) }
{
    compares_into::<W>(d, flag) && jumps_by::<W>(d, relation, flag)
}

fn branches_by_flag<W: Word>(d: &RawDescription, relation: Rel) -> bool
    requires word { d.now.word ≡ W.BITS }
    requires rows { AreReadRows W.BITS d.now.rows }
    ensures { IsTrue result ↔ IsFlagBranch d.now relation }
{
    for flag in 0..8 {
        if branches_by::<W>(d, relation, flag) {
            return true;
        }
    }
    false
}

fn branches_on<W: Word>(d: &RawDescription, relation: Rel) -> bool
    requires word { d.now.word ≡ W.BITS }
    requires rows { AreReadRows W.BITS d.now.rows }
    ensures { IsTrue result ↔ (IsCovered d.now (shape 20 0 relation 0) ⊎ IsFlagBranch d.now relation) }
{
    is_covered::<W>(
        d,
        Shape {
            number: 20,
            form: 0,
            relation,
            flag: 0,
        },
    ) || branches_by_flag::<W>(d, relation)
}

fn branch_on_all<W: Word>(d: &RawDescription, relations: &[Rel]) -> bool
    requires word { d.now.word ≡ W.BITS }
    requires rows { AreReadRows W.BITS d.now.rows }
    ensures { IsTrue result ↔ EachBranch d.now relations.now }
{
    match relations {
        [] => true,
        [relation, rest @ ..] => branches_on::<W>(d, *relation) && branch_on_all::<W>(d, rest),
    }
}

fn branches<W: Word>(d: &RawDescription) -> bool
    requires word { d.now.word ≡ W.BITS }
    requires rows { AreReadRows W.BITS d.now.rows }
    ensures { IsTrue result ↔ ((relation : Relation) → IsCovered d.now (shape 20 0 relation 0) ⊎ IsFlagBranch d.now relation) }
{
    branch_on_all::<W>(d, &RELATIONS)
}

fn has_shape<W: Word>(d: &RawDescription, number: u8) -> bool
    requires word { d.now.word ≡ W.BITS }
    requires rows { AreReadRows W.BITS d.now.rows }
    ensures { IsTrue result ↔ HasShape d.now number }
{
    if number == 18 {
        clears::<W>(d)
    } else if number == 20 {
        branches::<W>(d)
    } else {
        is_plainly_covered::<W>(d, number)
    }
}

fn any_link(registers: &[Register]) -> bool
    ensures { result ≡ list_any (λ r. same_role r.role Link) registers.now }
{
    registers.iter().any(|register| is_link(register.role))
}

fn has_link(registers: &[Register]) -> bool
    ensures { result ≡ is_some (first_with Link registers.now) }
{
    any_link(registers)
}

fn is_link(role: Role) -> bool
    ensures { result ≡ same_role role Link }
{
    matches!(role, Role::Link)
}

fn is_required(d: &RawDescription, number: u8) -> bool
    ensures { result ≡ is_required d.now number }
{
    match number {
        23 | 24 => has_link(d.registers.as_slice()),
        1..=29 => true,
        _ => false,
    }
}

fn misses<W: Word>(d: &RawDescription, number: u8) -> bool
    requires word { d.now.word ≡ W.BITS }
    requires rows { AreReadRows W.BITS d.now.rows }
    ensures { IsTrue result ↔ MissesShape d.now number }
{
    is_required(d, number) && !has_shape::<W>(d, number)
}

/// The least shape that is required and not covered.
pub(crate) fn first_missing<W: Word>(d: &RawDescription) -> Option<u8>
    requires word { d.now.word ≡ W.BITS }
    requires rows { AreReadRows W.BITS d.now.rows }
    ensures { IsLeast (MissesShape d.now) result }
{
    for number in 1..30 {
        if misses::<W>(d, number) {
            return Some(number);
        }
    }
    None
}
