//! The rules in their order, at each node until none applies.

ghost use Rattle.std.specs.Prelude.{◌≡◌, is_some, unwrap_or};
ghost use Rattle.rtl_tree.specs.Trees.{tree_of};
ghost use Rattle.rtl_tree.specs.Sorts.{IsFitting, IsWordTree};
ghost use Rattle.rtl_value.specs.declared.state.State.{State};
ghost use Rattle.rtl_value.specs.Values.{IsSound, value_of};
ghost use Rattle.rtl_effect.specs.Views.{View, seen};
ghost use Rattle.rtl_norm_value.specs.Kept.{IsWordView, AreBytes};
ghost use Rattle.rtl_norm.specs.Normal.{step, finish, norm};

use crate::rules;
use rtl_tree::Expr;
use rtl_word::Word;

/// The first rule that applies at the root, if one does.
#[tactic(auto, unfolding(rtl_norm::specs::Normal::step))]
fn apply<W: Word>(e: &mut Expr) -> bool
    requires { IsFitting W.BITS (tree_of e.old) }
    ensures done { result ≡ is_some (step W.BITS (tree_of e.old)) }
    ensures left { tree_of e.new ≡ unwrap_or (step W.BITS (tree_of e.old)) (tree_of e.old) }
{
    if rules::fold::<W>(e) {
        return true;
    }
    if rules::swap(e) {
        return true;
    }
    if rules::mirror(e) {
        return true;
    }
    if rules::minus::<W>(e) {
        return true;
    }
    if rules::negate(e) {
        return true;
    }
    if rules::join::<W>(e) {
        return true;
    }
    if rules::neutral::<W>(e) {
        return true;
    }
    if rules::twice(e) {
        return true;
    }
    if rules::extend(e) {
        return true;
    }
    if rules::cut(e) {
        return true;
    }
    if rules::byte(e) {
        return true;
    }
    if rules::pair(e) {
        return true;
    }
    rules::when(e)
}

/// Rules at the root, until none applies.
fn settle<W: Word>(e: &mut Expr)
    requires { IsFitting W.BITS (tree_of e.old) }
    ensures { tree_of e.new ≡ finish W.BITS (tree_of e.old) }
{
    'steps: while apply::<W>(e) {}
}

/// Leaves the normal form of the tree.
fn reduce<W: Word>(e: &mut Expr)
    requires { IsFitting W.BITS (tree_of e.old) }
    ensures { tree_of e.new ≡ norm W.BITS (tree_of e.old) }
{
    match e {
        Expr::Mem(_, a) => {
            reduce::<W>(a);
            settle::<W>(e);
        }
        Expr::Un(_, a) => {
            reduce::<W>(a);
            settle::<W>(e);
        }
        Expr::Bin(_, a, b) => {
            reduce::<W>(a);
            reduce::<W>(b);
            settle::<W>(e);
        }
        _ => {}
    }
}

/// Leaves the normal form of the tree. It has the tree's value in every state, and traps exactly where the tree does, if flags
/// and pairs stand only under tests in it; where cells or bytes are unset it is seen as the tree is. No memory is taken.
pub fn normalise<W: Word>(e: &mut Expr)
    requires { IsFitting W.BITS (tree_of e.old) }
    ensures tree { tree_of e.new ≡ norm W.BITS (tree_of e.old) }
    ensures fits { IsFitting W.BITS (tree_of e.new) }
    ensures seen { (v : View) → IsWordView W.BITS v → IsWordTree (tree_of e.old)
        → seen W.BITS (tree_of e.new) v ≡ seen W.BITS (tree_of e.old) v }
    ensures value { (s : State) → IsSound W.BITS s → AreBytes s → IsWordTree (tree_of e.old)
        → value_of W.BITS (tree_of e.new) s ≡ value_of W.BITS (tree_of e.old) s }
{
    reduce::<W>(e);
}
