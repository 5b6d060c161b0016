//! The rules, each for the root of a tree. A rule answers whether it applied.

ghost use Rattle.std.specs.Prelude.{IsTrue, ◌↔◌, ◌≡◌, is_some, unwrap_or};
ghost use Rattle.rtl_tree.specs.Trees.{tree_of};
ghost use Rattle.rtl_tree.specs.Sorts.{IsFitting};
ghost use Rattle.rtl_norm.specs.Numbers.{is_constant};
ghost use Rattle.rtl_norm.specs.Rules.{folded, fold_rule, swap_rule, is_order, mirror_rule, minus_rule, negate_rule, joined_number, join_rule, is_neutral, neutral_rule, twice_rule, extend_rule, cut_rule, byte_rule, pair_rule, when_rule};
ghost use Rattle.rtl_simplify.specs.Shapes.{IsByteRead, IsFromZero, is_low_byte};

use crate::folding;
use crate::moves::{keep_left, keep_operand, keep_relation, keep_right};
use rtl_tree::{BinOp, Expr, UnOp, Width, is_commutative, take};
use rtl_word::{Rel, Word};
use std::mem;

/// Whether the tree is a number or the hole for one.
fn is_known(e: &Expr) -> bool
    ensures { result ≡ is_constant (tree_of e.now) }
{
    matches!(e, Expr::Num(_) | Expr::NumHole(_))
}

/// The number that the tree makes, if it is an operator on numbers alone.
fn fold_of<W: Word>(e: &Expr) -> Option<u32>
    requires { IsFitting W.BITS (tree_of e.now) }
    ensures { result ≡ folded W.BITS (tree_of e.now) }
{
    match e {
        Expr::Un(operator, a) => match &**a {
            Expr::Num(n) => folding::unary::<W>(*operator, *n),
            _ => None,
        },
        Expr::Bin(operator, a, b) => match (&**a, &**b) {
            (Expr::Num(m), Expr::Num(n)) => folding::binary::<W>(*operator, *m, *n),
            _ => None,
        },
        _ => None,
    }
}

/// N1: an operator on numbers alone becomes its value, where it has one.
#[tactic(auto, unfolding(rtl_norm::specs::Rules::fold_rule))]
pub fn fold<W: Word>(e: &mut Expr) -> bool
    requires { IsFitting W.BITS (tree_of e.old) }
    ensures done { result ≡ is_some (fold_rule W.BITS (tree_of e.old)) }
    ensures left { tree_of e.new ≡ unwrap_or (fold_rule W.BITS (tree_of e.old)) (tree_of e.old) }
{
    match fold_of::<W>(e) {
        Some(n) => {
            *e = Expr::Num(n);
            true
        }
        None => false,
    }
}

/// N2: a number, or the hole for one, goes to the right of an operator whose operands may be swapped.
#[tactic(auto, unfolding(rtl_norm::specs::Rules::swap_rule))]
pub fn swap(e: &mut Expr) -> bool
    ensures done { result ≡ is_some (swap_rule (tree_of e.old)) }
    ensures left { tree_of e.new ≡ unwrap_or (swap_rule (tree_of e.old)) (tree_of e.old) }
{
    match e {
        Expr::Bin(operator, a, b) => {
            if is_commutative(*operator) && is_known(a) && !is_known(b) {
                mem::swap(a, b);
                true
            } else {
                false
            }
        }
        _ => false,
    }
}

fn is_ordering(relation: Rel) -> bool
    ensures { result ≡ is_order relation }
{
    !matches!(relation, Rel::Eq | Rel::Ne)
}

/// N3: a number, or the hole for one, goes to the right of an order, which is mirrored.
#[tactic(auto, unfolding(rtl_norm::specs::Rules::mirror_rule))]
pub fn mirror(e: &mut Expr) -> bool
    ensures done { result ≡ is_some (mirror_rule (tree_of e.old)) }
    ensures left { tree_of e.new ≡ unwrap_or (mirror_rule (tree_of e.old)) (tree_of e.old) }
{
    match e {
        Expr::Bin(operator, a, b) => match &mut *operator {
            BinOp::Cmp(relation) => {
                if is_ordering(*relation) && is_known(a) && !is_known(b) {
                    *relation = relation.mirrored();
                    mem::swap(a, b);
                    true
                } else {
                    false
                }
            }
            _ => false,
        },
        _ => false,
    }
}

/// N4: a number is added, not subtracted.
#[tactic(auto, unfolding(rtl_norm::specs::Rules::minus_rule))]
pub fn minus<W: Word>(e: &mut Expr) -> bool
    requires { IsFitting W.BITS (tree_of e.old) }
    ensures done { result ≡ is_some (minus_rule W.BITS (tree_of e.old)) }
    ensures left { tree_of e.new ≡ unwrap_or (minus_rule W.BITS (tree_of e.old)) (tree_of e.old) }
{
    match e {
        Expr::Bin(operator, _, b) => match (&*operator, &mut **b) {
            (BinOp::Sub, Expr::Num(c)) => {
                *c = W::neg(*c);
                *operator = BinOp::Add;
                true
            }
            _ => false,
        },
        _ => false,
    }
}

fn takes_from_zero(e: &Expr) -> bool
    ensures { IsTrue result ↔ IsFromZero (tree_of e.now) }
{
    match e {
        Expr::Bin(BinOp::Sub, a, _) => matches!(&**a, Expr::Num(0)),
        _ => false,
    }
}

/// N5: what is taken from 0 is negated.
#[tactic(auto, unfolding(rtl_norm::specs::Rules::negate_rule))]
pub fn negate(e: &mut Expr) -> bool
    ensures done { result ≡ is_some (negate_rule (tree_of e.old)) }
    ensures left { tree_of e.new ≡ unwrap_or (negate_rule (tree_of e.old)) (tree_of e.old) }
{
    if !takes_from_zero(e) {
        return false;
    }
    match take(e) {
        Expr::Bin(_, _, a) => *e = Expr::Un(UnOp::Neg, a),
        _ => unreachable!(),
    }
    true
}

/// The one number in place of that of `a` and of `b`, where N6 applies.
fn join_of<W: Word>(operator: BinOp, a: &Expr, b: &Expr) -> Option<u32>
    requires a_fits { IsFitting W.BITS (tree_of a.now) }
    requires b_fits { IsFitting W.BITS (tree_of b.now) }
    ensures { result ≡ joined_number W.BITS operator (tree_of a.now) (tree_of b.now) }
{
    match (a, b) {
        (Expr::Bin(inner, _, c), Expr::Num(d)) => match &**c {
            Expr::Num(c) => folding::join::<W>(operator, *inner, *c, *d),
            _ => None,
        },
        _ => None,
    }
}

/// N6: two numbers that follow one another under one of `+ & |` become one.
#[tactic(auto, unfolding(rtl_norm::specs::Rules::join_rule))]
pub fn join<W: Word>(e: &mut Expr) -> bool
    requires { IsFitting W.BITS (tree_of e.old) }
    ensures done { result ≡ is_some (join_rule W.BITS (tree_of e.old)) }
    ensures left { tree_of e.new ≡ unwrap_or (join_rule W.BITS (tree_of e.old)) (tree_of e.old) }
{
    match e {
        Expr::Bin(operator, a, b) => match join_of::<W>(*operator, a, b) {
            Some(n) => {
                keep_left(a);
                **b = Expr::Num(n);
                true
            }
            None => false,
        },
        _ => false,
    }
}

fn changes_nothing<W: Word>(operator: BinOp, c: u32) -> bool
    ensures { result ≡ is_neutral W.BITS operator c }
{
    match operator {
        BinOp::Add | BinOp::Or | BinOp::Xor | BinOp::Shl | BinOp::Shr | BinOp::Shru => c == 0,
        BinOp::Mul | BinOp::Div | BinOp::Divu => c == 1,
        BinOp::And => c == W::not(0),
        _ => false,
    }
}

#[tactic(auto, unfolding(rtl_norm::specs::Rules::neutral_rule))]
fn has_neutral<W: Word>(e: &Expr) -> bool
    ensures { result ≡ is_some (neutral_rule W.BITS (tree_of e.now)) }
{
    match e {
        Expr::Bin(operator, _, b) => match &**b {
            Expr::Num(c) => changes_nothing::<W>(*operator, *c),
            _ => false,
        },
        _ => false,
    }
}

/// N7: a number that changes nothing is dropped.
#[tactic(auto, unfolding(rtl_norm::specs::Rules::neutral_rule))]
pub fn neutral<W: Word>(e: &mut Expr) -> bool
    ensures done { result ≡ is_some (neutral_rule W.BITS (tree_of e.old)) }
    ensures left { tree_of e.new ≡ unwrap_or (neutral_rule W.BITS (tree_of e.old)) (tree_of e.old) }
{
    let drops = has_neutral::<W>(e);
    if drops {
        keep_left(e);
    }
    drops
}

/// N8: two negations, or two complements, are dropped.
#[tactic(auto, unfolding(rtl_norm::specs::Rules::twice_rule))]
pub fn twice(e: &mut Expr) -> bool
    ensures done { result ≡ is_some (twice_rule (tree_of e.old)) }
    ensures left { tree_of e.new ≡ unwrap_or (twice_rule (tree_of e.old)) (tree_of e.old) }
{
    let applies = match &*e {
        Expr::Un(UnOp::Neg, a) => matches!(&**a, Expr::Un(UnOp::Neg, _)),
        Expr::Un(UnOp::Not, a) => matches!(&**a, Expr::Un(UnOp::Not, _)),
        _ => false,
    };
    if !applies {
        return false;
    }
    keep_operand(e);
    keep_operand(e);
    true
}

/// Whether the tree is a tree's low byte, `a & 255`.
pub fn is_masked(e: &Expr) -> bool
    ensures { result ≡ is_low_byte (tree_of e.now) }
{
    match e {
        Expr::Bin(BinOp::And, _, b) => matches!(&**b, Expr::Num(255)),
        _ => false,
    }
}

/// N9: only the low byte of what is extended counts.
#[tactic(auto, unfolding(rtl_norm::specs::Rules::extend_rule))]
pub fn extend(e: &mut Expr) -> bool
    ensures done { result ≡ is_some (extend_rule (tree_of e.old)) }
    ensures left { tree_of e.new ≡ unwrap_or (extend_rule (tree_of e.old)) (tree_of e.old) }
{
    match e {
        Expr::Un(UnOp::Sxb, a) => {
            if matches!(&**a, Expr::Un(UnOp::Sxb, _)) {
                keep_operand(a);
                return true;
            }
            if is_masked(a) {
                keep_left(a);
                return true;
            }
            false
        }
        _ => false,
    }
}

/// N10: an extension that is cut off again is dropped.
#[tactic(auto, unfolding(rtl_norm::specs::Rules::cut_rule))]
pub fn cut(e: &mut Expr) -> bool
    ensures done { result ≡ is_some (cut_rule (tree_of e.old)) }
    ensures left { tree_of e.new ≡ unwrap_or (cut_rule (tree_of e.old)) (tree_of e.old) }
{
    match e {
        Expr::Bin(BinOp::And, a, b) => match (&**a, &**b) {
            (Expr::Un(UnOp::Sxb, _), Expr::Num(c)) => {
                if *c > 255 {
                    return false;
                }
                keep_operand(a);
                true
            }
            _ => false,
        },
        _ => false,
    }
}

fn is_byte(e: &Expr) -> bool
    ensures { IsTrue result ↔ IsByteRead (tree_of e.now) }
{
    matches!(e, Expr::Mem(Width::Byte, _))
}

/// N11: a byte is not masked.
#[tactic(auto, unfolding(rtl_norm::specs::Rules::byte_rule))]
pub fn byte(e: &mut Expr) -> bool
    ensures done { result ≡ is_some (byte_rule (tree_of e.old)) }
    ensures left { tree_of e.new ≡ unwrap_or (byte_rule (tree_of e.old)) (tree_of e.old) }
{
    if !is_masked(e) {
        return false;
    }
    match e {
        Expr::Bin(_, a, _) => {
            if !is_byte(a) {
                return false;
            }
        }
        _ => return false,
    }
    keep_left(e);
    true
}

/// N12: the test of a pair becomes a relation.
#[tactic(auto, unfolding(rtl_norm::specs::Rules::pair_rule))]
pub fn pair(e: &mut Expr) -> bool
    ensures done { result ≡ is_some (pair_rule (tree_of e.old)) }
    ensures left { tree_of e.new ≡ unwrap_or (pair_rule (tree_of e.old)) (tree_of e.old) }
{
    let relation = match &*e {
        Expr::Un(UnOp::Test(r), p) => match &**p {
            Expr::Bin(BinOp::Pair, _, _) => Some(*r),
            _ => None,
        },
        _ => None,
    };
    match relation {
        Some(r) => {
            keep_relation(e, r);
            true
        }
        None => false,
    }
}

#[tactic(auto, unfolding(rtl_norm::specs::Rules::when_rule))]
fn always_goes(e: &Expr) -> bool
    ensures { result ≡ is_some (when_rule (tree_of e.now)) }
{
    match e {
        Expr::Bin(BinOp::When, a, _) => match &**a {
            Expr::Num(c) => *c != 0,
            _ => false,
        },
        _ => false,
    }
}

/// N13: a jump on a number other than 0 always goes.
#[tactic(auto, unfolding(rtl_norm::specs::Rules::when_rule))]
pub fn when(e: &mut Expr) -> bool
    ensures done { result ≡ is_some (when_rule (tree_of e.old)) }
    ensures left { tree_of e.new ≡ unwrap_or (when_rule (tree_of e.old)) (tree_of e.old) }
{
    let goes = always_goes(e);
    if goes {
        keep_right(e);
    }
    goes
}
