//! Expressions in a statement.

ghost use Rattle.std.specs.Prelude.{◌≡◌, IfOk, OnOk};
ghost use Rattle.c_typing.specs.Faults.{notes};
ghost use Rattle.c_typing.specs.Statements as spec;
ghost use Rattle.c_scopes.specs.Here.{at_names};
ghost use Rattle.c_objects.specs.Within.{within_of};

use c_conversions::Told;
use c_expressions::{Scene, as_value, expression};
use c_names::{Names, NoMemory};
use c_tree::syntax::Expr;
use c_typing::{Signature, Typing};
use rtl_word::Word;
use std::alloc::Global;

/// The functions of the file, and whether the include stands above.
#[derive(Clone, Copy)]
pub struct Functions<'a> {
    pub signatures: &'a [Signature],
    pub included: bool,
}

pub fn expression_at<W: Word>(
    alloc: Global,
    functions: &Functions<'_>,
    told: &mut Told,
    names: &Names<'_>,
    e: &Expr,
) -> Result<Typing, NoMemory>
    ensures seen { IfOk result (λ t. t ≡ (spec.expression_at (within_of W.BITS functions.now) (at_names names.now) e.now).seen) }
    ensures told { OnOk result (told.new.first ≡ notes told.old.first (spec.expression_at (within_of W.BITS functions.now) (at_names names.now) e.now).faults) }
{
    let scene = Scene {
        names,
        signatures: functions.signatures,
        included: functions.included,
    };
    expression::<W>(alloc, &scene, told, e)
}

/// An expression whose value is used.
pub fn value_at<W: Word>(
    alloc: Global,
    functions: &Functions<'_>,
    told: &mut Told,
    names: &Names<'_>,
    e: &Expr,
) -> Result<Typing, NoMemory>
    ensures seen { IfOk result (λ t. t ≡ (spec.value_at (within_of W.BITS functions.now) (at_names names.now) e.now).seen) }
    ensures told { OnOk result (told.new.first ≡ notes told.old.first (spec.value_at (within_of W.BITS functions.now) (at_names names.now) e.now).faults) }
{
    let a = expression_at::<W>(alloc, functions, told, names, e)?;
    Ok(as_value(told, a))
}
