//! Transfers brought to normal form.

ghost use Rattle.std.specs.Prelude.{◌≡◌, ◌⊎◌};
ghost use Rattle.std.specs.List.{All};
ghost use Rattle.rtl_tree.specs.Trees.{tree_of};
ghost use Rattle.rtl_tree.specs.Moves.{Move};
ghost use Rattle.rtl_tree.specs.WellFormed.{IsWellFormed};
ghost use Rattle.rtl_effect.specs.Views.{View};
ghost use Rattle.rtl_effect.specs.Effects.{effect};
ghost use Rattle.rtl_norm_value.specs.Kept.{IsWordView};
ghost use Rattle.rtl_norm_value.specs.Effect.{AreLabelsPlaces, HasNormalJump, IsMoveFilled, IsSameEffect, with_normal_jump};
ghost use Rattle.rtl_norm.specs.Transfers.{stored_byte, norm_move, norm_moves, IsMoveFitting};

use crate::moves::{keep_left, keep_operand};
use crate::rules::is_masked;
use crate::steps::normalise;
use rtl_tree::{Assign, Effects, Expr, Place, UnOp, Width};
use rtl_word::Word;

/// What a byte store keeps of its value: the rest of the value's word doesn't count.
fn keep_stored_byte(e: &mut Expr)
    ensures { tree_of e.new ≡ stored_byte (tree_of e.old) }
{
    if is_masked(e) {
        keep_left(e);
        return;
    }
    if matches!(&*e, Expr::Un(UnOp::Sxb, _)) {
        keep_operand(e);
    }
}

fn normalise_assignment<W: Word>(assignment: &mut Assign)
    requires { IsMoveFitting W.BITS assignment.old }
    ensures { assignment.new ≡ norm_move W.BITS assignment.old }
{
    normalise::<W>(&mut assignment.value);
    match &mut assignment.to {
        Place::Mem(width, a) => {
            normalise::<W>(a);
            if *width == Width::Byte {
                keep_stored_byte(&mut assignment.value);
            }
        }
        Place::Cell(_) => {}
    }
}

/// Leaves the normal form of each tree in place.
fn reduce<W: Word>(e: &mut Effects)
    requires { All (IsMoveFitting W.BITS) e.old }
    ensures { e.new ≡ norm_moves W.BITS e.old }
{
    for i in 0..e.list.len() {
        normalise_assignment::<W>(&mut e.list[i]);
    }
}

/// Leaves the normal form of each tree, and stores of a byte without the operators that only change the rest of a word. A
/// well-formed transfer then does what it did, in every view whose labels are places or where the value of the program counter
/// was its own normal form; in code with temporaries, which takes that value in its normal form, everywhere. No memory is taken.
pub fn normalise_effects<W: Word>(e: &mut Effects)
    requires { All (IsMoveFitting W.BITS) e.old }
    ensures moves { e.new ≡ norm_moves W.BITS e.old }
    ensures fits { All (IsMoveFitting W.BITS) e.new }
    ensures effect { (v : View) → IsWordView W.BITS v → AreLabelsPlaces v ⊎ HasNormalJump W.BITS e.old → IsWellFormed e.old → All IsMoveFilled e.old
        → IsSameEffect (effect W.BITS e.new v) (effect W.BITS e.old v) }
    ensures code { (v : View) → IsWordView W.BITS v → IsWellFormed e.old → All IsMoveFilled e.old
        → IsSameEffect (effect W.BITS e.new v) (effect W.BITS (with_normal_jump W.BITS e.old) v) }
{
    reduce::<W>(e);
}
