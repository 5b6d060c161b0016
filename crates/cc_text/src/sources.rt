//! Sources for a described machine.

ghost use Rattle.std.specs.Prelude.{◌≡◌, ◌≤◌, [], IfOk, IfErr, OnOk, length};
ghost use Rattle.c_limits.specs.Limits.{IsFirst};
ghost use Rattle.pass_driver.specs.Compiling.{HasOperators, limits_broken};
ghost use Rattle.cc_text.specs.Sources.{IsSource, IsTypedSource, LacksOperator, Refuses};

use c_lacks::lacks;
use c_lacks::laws::sets_are_operators;
use c_limits::within;
use c_source::tree_of;
use c_tree::{CFault, Typed};
use c_types::type_program;
use md_check::{Checked, operators};
use md_layout::said_is_laid_out;
use rtl_word::Word;
use std::alloc::Global;
use vp_io::Reason;

/// The typed tree of a source that breaks none of the rules 1 to 34.
fn typed_tree<W: Word>(alloc: Global, m: &Checked<W>, source: &[u8]) -> Result<Typed, CFault>
    requires { length source.now ≤ 4294967294 }
    ensures typed { IfOk result (IsTypedSource m.now.word source.now) }
    ensures refused { IfErr result (Refuses m.now source.now) }
{
    let _ = m.raw();
    let tree = match tree_of(alloc, source) {
        Ok(tree) => tree,
        Err(fault) => return Err(fault),
    };
    match type_program::<W>(alloc, &tree) {
        Ok(typed) => Ok(typed),
        Err(fault) => Err(fault),
    }
}

/// Whether a tree keeps the rules 41 to 43.
fn keeps_limits<W: Word>(m: &Checked<W>, t: &Typed) -> Result<(), Reason>
    ensures within { OnOk result (limits_broken m.now t.now ≡ []) }
    ensures refused { IfErr result (λ r. IsFirst (limits_broken m.now t.now) r) }
{
    said_is_laid_out();
    let _ = m.raw();
    let layout = m.layout();
    within::<W>(t, layout.memory, layout.base, layout.stack)
}

/// Whether a machine has the operators of a tree (rule 51).
fn has_operators<W: Word>(m: &Checked<W>, t: &Typed) -> Result<(), Reason>
    ensures there { OnOk result (HasOperators m.now t.now) }
    ensures lacking { IfErr result (λ r. LacksOperator m.now t.now r) }
{
    sets_are_operators();
    let set = operators::<W>(m);
    match lacks(t, set) {
        Ok(()) => Ok(()),
        Err(reason) => Err(reason),
    }
}

/// The typed tree of a source that is accepted for a machine.
pub(crate) fn accepted_tree<W: Word>(
    alloc: Global,
    m: &Checked<W>,
    source: &[u8],
) -> Result<Typed, CFault>
    requires { length source.now ≤ 4294967294 }
    ensures accepted { IfOk result (IsSource m.now source.now) }
    ensures refused { IfErr result (Refuses m.now source.now) }
{
    let typed = match typed_tree::<W>(alloc, m, source) {
        Ok(typed) => typed,
        Err(fault) => return Err(fault),
    };
    match keeps_limits::<W>(m, &typed) {
        Err(reason) => Err(CFault::Bad(reason)),
        Ok(()) => match has_operators::<W>(m, &typed) {
            Err(reason) => Err(CFault::Bad(reason)),
            Ok(()) => Ok(typed),
        },
    }
}
