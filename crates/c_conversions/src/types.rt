//! Types of expressions and conversions (C11 6.3.1).

ghost use Rattle.std.specs.Prelude.{◌≡◌, ◌&&◌, IfOk};
ghost use Rattle.c_typing.specs.Types as spec;
ghost use Rattle.c_typing.specs.Expressions.{is_void, is_value, is_mixed, is_no_place};

use c_names::NoMemory;
use c_tree::syntax::{Arithmetic, BinaryOperator, TypeWords, UnaryOperator};
use c_tree::typed::Head;
use c_tree::{CType, TypedExpr};
use sqlite_items::Boxed;
use std::alloc::Global;

pub fn same_type(a: CType, b: CType) -> bool
    ensures { result ≡ spec.same_type a b }
{
    a == b
}

pub fn is_void(e: &Option<Boxed<TypedExpr>>) -> bool
    ensures { result ≡ is_void e.now }
{
    match e {
        None => false,
        Some(e) => same_type(e.get().head().of, CType::Void),
    }
}

fn is_value(e: &Option<Boxed<TypedExpr>>) -> bool
    ensures { result ≡ is_value e.now }
{
    match e {
        None => false,
        Some(e) => !same_type(e.get().head().of, CType::Void),
    }
}

/// Of the last operands of `?:` one is void and the other a value.
pub fn is_mixed(a: &Option<Boxed<TypedExpr>>, b: &Option<Boxed<TypedExpr>>) -> bool
    ensures { result ≡ is_mixed a.now b.now }
{
    (is_void(a) && is_value(b)) || (is_value(a) && is_void(b))
}

/// The first is void, and the other a value.
pub fn is_void_beside(a: &Option<Boxed<TypedExpr>>, b: &Option<Boxed<TypedExpr>>) -> bool
    ensures { result ≡ (is_void a.now && is_value b.now) }
{
    is_void(a) && is_value(b)
}

pub fn is_no_place(e: &Option<Boxed<TypedExpr>>) -> bool
    ensures { result ≡ is_no_place e.now }
{
    match e {
        None => false,
        Some(e) => !e.get().is_place(),
    }
}

#[tactic(auto, unfolding(c_typing::specs::Types::type_of_words))]
pub fn type_of_words(words: TypeWords) -> CType
    ensures { result ≡ spec.type_of_words words }
{
    match words {
        TypeWords::Char | TypeWords::SignedChar | TypeWords::CharSigned => CType::Schar,
        TypeWords::UnsignedChar | TypeWords::CharUnsigned => CType::Uchar,
        TypeWords::Int | TypeWords::Signed | TypeWords::SignedInt | TypeWords::IntSigned => {
            CType::Int
        }
        TypeWords::Unsigned | TypeWords::UnsignedInt | TypeWords::IntUnsigned => CType::Unsigned,
    }
}

#[tactic(auto, unfolding(c_typing::specs::Types::promoted))]
pub fn promoted(t: CType) -> CType
    ensures { result ≡ spec.promoted t }
{
    match t {
        CType::Schar | CType::Uchar | CType::Int => CType::Int,
        CType::Unsigned => CType::Unsigned,
        CType::Void => CType::Void,
    }
}

fn usual_promoted(a: CType, b: CType) -> CType
    ensures { result ≡ spec.usual_promoted a b }
{
    if a == CType::Unsigned || b == CType::Unsigned {
        CType::Unsigned
    } else {
        CType::Int
    }
}

#[tactic(auto, unfolding(c_typing::specs::Types::usual))]
fn usual(a: CType, b: CType) -> CType
    ensures { result ≡ spec.usual a b }
{
    usual_promoted(promoted(a), promoted(b))
}

/// A conversion where the type isn't this one already.
#[tactic(auto, unfolding(c_typing::specs::Types::converted))]
pub fn converted(
    alloc: Global,
    of: CType,
    e: Boxed<TypedExpr>,
) -> Result<Boxed<TypedExpr>, NoMemory>
    ensures { IfOk result (λ x. x ≡ spec.converted of e) }
{
    let head = e.get().head();
    if same_type(head.of, of) {
        return Ok(e);
    }
    Ok(Boxed::new(alloc, TypedExpr::Convert(Head { of, at: head.at }, e))?)
}

fn is_relation(o: BinaryOperator) -> bool
    ensures { result ≡ spec.is_relation o }
{
    matches!(
        o,
        BinaryOperator::Equal
            | BinaryOperator::NotEqual
            | BinaryOperator::Less
            | BinaryOperator::Greater
            | BinaryOperator::LessEqual
            | BinaryOperator::GreaterEqual
    )
}

fn is_shift(o: BinaryOperator) -> bool
    ensures { result ≡ spec.is_shift o }
{
    matches!(o, BinaryOperator::ShiftLeft | BinaryOperator::ShiftRight)
}

fn is_logical(o: BinaryOperator) -> bool
    ensures { result ≡ spec.is_logical o }
{
    matches!(o, BinaryOperator::LogicalOr | BinaryOperator::LogicalAnd)
}

pub fn left_type(o: BinaryOperator, a: CType, b: CType) -> CType
    ensures { result ≡ spec.left_type o a b }
{
    if is_logical(o) {
        a
    } else if is_shift(o) {
        promoted(a)
    } else {
        usual(a, b)
    }
}

pub fn right_type(o: BinaryOperator, a: CType, b: CType) -> CType
    ensures { result ≡ spec.right_type o a b }
{
    if is_logical(o) {
        b
    } else if is_shift(o) {
        promoted(b)
    } else {
        usual(a, b)
    }
}

pub fn binary_type(o: BinaryOperator, a: CType, b: CType) -> CType
    ensures { result ≡ spec.binary_type o a b }
{
    if is_logical(o) || is_relation(o) {
        CType::Int
    } else {
        left_type(o, a, b)
    }
}

fn is_not(o: UnaryOperator) -> bool
    ensures { result ≡ spec.is_not o }
{
    matches!(o, UnaryOperator::Not)
}

pub fn operand_type(o: UnaryOperator, t: CType) -> CType
    ensures { result ≡ spec.operand_type o t }
{
    if is_not(o) { t } else { promoted(t) }
}

pub fn unary_type(o: UnaryOperator, t: CType) -> CType
    ensures { result ≡ spec.unary_type o t }
{
    if is_not(o) { CType::Int } else { promoted(t) }
}

fn shifts(o: Arithmetic) -> bool
    ensures { result ≡ spec.shifts o }
{
    matches!(o, Arithmetic::ShiftLeft | Arithmetic::ShiftRight)
}

/// The type of a compound assignment's right value.
pub fn compound_type(o: Arithmetic, a: CType, b: CType) -> CType
    ensures { result ≡ spec.compound_type o a b }
{
    if shifts(o) { promoted(b) } else { usual(a, b) }
}

pub fn conditional_type(a: CType, b: CType) -> CType
    ensures { result ≡ spec.conditional_type a b }
{
    match a {
        CType::Void => CType::Void,
        CType::Schar => usual(CType::Schar, b),
        CType::Uchar => usual(CType::Uchar, b),
        CType::Int => usual(CType::Int, b),
        CType::Unsigned => usual(CType::Unsigned, b),
    }
}
