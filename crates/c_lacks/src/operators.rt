//! Operators of C that a description needn't have.

ghost use Rattle.std.specs.Prelude.{◌≡◌, ◌==◌, ◌<◌, IfSome};
ghost use Rattle.std.specs.Int.{bit_at};
ghost use Rattle.c_meaning.specs.Operators.{computed_in, promoted, sort_of};
ghost use Rattle.naive_code.specs.Expressions.{by_type};
ghost use Rattle.naive_fits.specs.Expandable.{is_there, operation_there, optional, sort_there};
ghost use Rattle.c_lacks.specs.Operators.{has_in, place_of};

use c_tree::CType;
use c_tree::syntax::{Arithmetic, BinaryOperator};
use c_tree::typed::Operation;
use md_check::OpSet;
use rtl_tree::BinOp;

fn by_type(of: CType, signed: BinOp, unsigned: BinOp) -> BinOp
    ensures { result ≡ by_type of signed unsigned }
{
    match of {
        CType::Unsigned => unsigned,
        _ => signed,
    }
}

/// The operator of transfers that an operator of C is in a type, where a description needn't have it.
fn optional(o: Arithmetic, of: CType) -> Option<BinOp>
    ensures { result ≡ optional o of }
{
    match o {
        Arithmetic::Multiply => Some(BinOp::Mul),
        Arithmetic::Divide => Some(by_type(of, BinOp::Div, BinOp::Divu)),
        Arithmetic::Remainder => Some(by_type(of, BinOp::Rem, BinOp::Remu)),
        Arithmetic::Xor => Some(BinOp::Xor),
        Arithmetic::ShiftLeft => Some(BinOp::Shl),
        Arithmetic::ShiftRight => Some(by_type(of, BinOp::Shr, BinOp::Shru)),
        Arithmetic::Add => None,
        Arithmetic::Subtract => None,
        Arithmetic::And => None,
        Arithmetic::Or => None,
    }
}

fn place_of(o: BinOp) -> Option<u8>
    ensures place { result ≡ place_of o }
    ensures small { IfSome result (λ n. n < 10) }
{
    match o {
        BinOp::Mul => Some(0),
        BinOp::Div => Some(1),
        BinOp::Divu => Some(2),
        BinOp::Rem => Some(3),
        BinOp::Remu => Some(4),
        BinOp::Shl => Some(5),
        BinOp::Shr => Some(6),
        BinOp::Shru => Some(7),
        BinOp::Xor => Some(8),
        _ => None,
    }
}

fn has_bit(bits: u16, n: u8) -> bool
    requires { n < 10 }
    ensures { result ≡ (bit_at bits n == 1) }
{
    bits >> n & 1 == 1
}

fn has(set: OpSet, o: BinOp) -> bool
    ensures { result ≡ has_in set.covered o }
{
    match place_of(o) {
        None => false,
        Some(n) => has_bit(set.covered, n),
    }
}

fn is_there(set: OpSet, o: Option<BinOp>) -> bool
    ensures { result ≡ is_there (has_in set.covered) o }
{
    match o {
        None => true,
        Some(o) => has(set, o),
    }
}

/// Whether the operator of an expression is there, where its left operand has this type.
pub(crate) fn has_operator(set: OpSet, o: BinaryOperator, of: CType) -> bool
    ensures { result ≡ sort_there (has_in set.covered) (sort_of o) of }
{
    match o {
        BinaryOperator::Multiply => is_there(set, optional(Arithmetic::Multiply, of)),
        BinaryOperator::Divide => is_there(set, optional(Arithmetic::Divide, of)),
        BinaryOperator::Remainder => is_there(set, optional(Arithmetic::Remainder, of)),
        BinaryOperator::Xor => is_there(set, optional(Arithmetic::Xor, of)),
        BinaryOperator::ShiftLeft => is_there(set, optional(Arithmetic::ShiftLeft, of)),
        BinaryOperator::ShiftRight => is_there(set, optional(Arithmetic::ShiftRight, of)),
        _ => true,
    }
}

fn promoted(t: CType) -> CType
    ensures { result ≡ promoted t }
{
    match t {
        CType::Unsigned => CType::Unsigned,
        _ => CType::Int,
    }
}

fn computed_in(o: Arithmetic, left: CType, right: CType) -> CType
    ensures { result ≡ computed_in o left right }
{
    match o {
        Arithmetic::ShiftLeft => promoted(left),
        Arithmetic::ShiftRight => promoted(left),
        _ => right,
    }
}

/// Whether that of a compound assignment is there, where its sides have these types.
pub(crate) fn has_operation(set: OpSet, o: Operation, left: CType, right: CType) -> bool
    ensures { result ≡ operation_there (has_in set.covered) o left right }
{
    match o {
        Operation::Operator(o) => is_there(set, optional(o, computed_in(o, left, right))),
        Operation::Helper(_) => true,
    }
}
