//! Typed nodes over operands, where all of them are sound.

ghost use Rattle.std.specs.Prelude.{◌≡◌, ◌++◌, Some, IfOk, OnOk, slice_get, option_copied};
ghost use Rattle.c_typing.specs.Expressions as spec;

use c_conversions::{
    binary_type, compound_type, conditional_type, converted, left_type, minus_one, operand_type,
    right_type, unary_type,
};
use c_names::NoMemory;
use c_tree::syntax::{Arithmetic, BinaryOperator, StepOperator, UnaryOperator};
use c_tree::typed::{Callee, Head, Operation};
use c_tree::{At, CType, TypedExpr};
use c_typing::{Meaning, Signature, Usage};
use rtl_word::Word;
use sqlite_items::{Boxed, Items, at};
use std::alloc::Global;

fn boxed(alloc: Global, e: TypedExpr) -> Result<Option<Boxed<TypedExpr>>, NoMemory>
    ensures { IfOk result (λ r. r ≡ Some e) }
{
    Ok(Some(Boxed::new(alloc, e)?))
}

pub fn binary(
    alloc: Global,
    place: At,
    o: BinaryOperator,
    a: Option<Boxed<TypedExpr>>,
    b: Option<Boxed<TypedExpr>>,
) -> Result<Option<Boxed<TypedExpr>>, NoMemory>
    ensures { IfOk result (λ t. t ≡ spec.two (spec.binary_tree place o) a b) }
{
    let Some(a) = a else {
        return Ok(None);
    };
    let Some(b) = b else {
        return Ok(None);
    };
    let s = a.get().head().of;
    let t = b.get().head().of;
    let of = binary_type(o, s, t);
    let a = converted(alloc, left_type(o, s, t), a)?;
    let b = converted(alloc, right_type(o, s, t), b)?;
    boxed(alloc, TypedExpr::Binary(Head { of, at: place }, a, o, b))
}

pub fn comma(
    alloc: Global,
    place: At,
    a: Option<Boxed<TypedExpr>>,
    b: Option<Boxed<TypedExpr>>,
) -> Result<Option<Boxed<TypedExpr>>, NoMemory>
    ensures { IfOk result (λ t. t ≡ spec.two (spec.comma_tree place) a b) }
{
    let Some(a) = a else {
        return Ok(None);
    };
    let Some(b) = b else {
        return Ok(None);
    };
    let of = b.get().head().of;
    boxed(alloc, TypedExpr::Comma(Head { of, at: place }, a, b))
}

pub fn assign(
    alloc: Global,
    place: At,
    a: Option<Boxed<TypedExpr>>,
    b: Option<Boxed<TypedExpr>>,
) -> Result<Option<Boxed<TypedExpr>>, NoMemory>
    ensures { IfOk result (λ t. t ≡ spec.two (spec.assign_tree place) a b) }
{
    let Some(a) = a else {
        return Ok(None);
    };
    let Some(b) = b else {
        return Ok(None);
    };
    let of = a.get().head().of;
    let b = converted(alloc, of, b)?;
    boxed(alloc, TypedExpr::Assign(Head { of, at: place }, a, b))
}

pub fn compound(
    alloc: Global,
    place: At,
    o: Arithmetic,
    a: Option<Boxed<TypedExpr>>,
    b: Option<Boxed<TypedExpr>>,
) -> Result<Option<Boxed<TypedExpr>>, NoMemory>
    ensures { IfOk result (λ t. t ≡ spec.two (spec.compound_tree place o) a b) }
{
    let Some(a) = a else {
        return Ok(None);
    };
    let Some(b) = b else {
        return Ok(None);
    };
    let of = a.get().head().of;
    let right = compound_type(o, of, b.get().head().of);
    let b = converted(alloc, right, b)?;
    boxed(
        alloc,
        TypedExpr::Compound(Head { of, at: place }, a, Operation::Operator(o), b),
    )
}

pub fn unary(
    alloc: Global,
    place: At,
    o: UnaryOperator,
    a: Option<Boxed<TypedExpr>>,
) -> Result<Option<Boxed<TypedExpr>>, NoMemory>
    ensures { IfOk result (λ t. t ≡ spec.one (spec.unary_tree place o) a) }
{
    let Some(a) = a else {
        return Ok(None);
    };
    let t = a.get().head().of;
    let of = unary_type(o, t);
    let a = converted(alloc, operand_type(o, t), a)?;
    boxed(alloc, TypedExpr::Unary(Head { of, at: place }, o, a))
}

pub fn before(
    alloc: Global,
    place: At,
    o: StepOperator,
    a: Option<Boxed<TypedExpr>>,
) -> Result<Option<Boxed<TypedExpr>>, NoMemory>
    ensures { IfOk result (λ t. t ≡ spec.one (spec.before_tree place o) a) }
{
    let Some(a) = a else {
        return Ok(None);
    };
    let of = a.get().head().of;
    boxed(alloc, TypedExpr::Before(Head { of, at: place }, o, a))
}

pub fn after(
    alloc: Global,
    place: At,
    o: StepOperator,
    a: Option<Boxed<TypedExpr>>,
) -> Result<Option<Boxed<TypedExpr>>, NoMemory>
    ensures { IfOk result (λ t. t ≡ spec.one (spec.after_tree place o) a) }
{
    let Some(a) = a else {
        return Ok(None);
    };
    let of = a.get().head().of;
    boxed(alloc, TypedExpr::After(Head { of, at: place }, a, o))
}

pub fn cast(
    alloc: Global,
    place: At,
    of: CType,
    a: Option<Boxed<TypedExpr>>,
) -> Result<Option<Boxed<TypedExpr>>, NoMemory>
    ensures { IfOk result (λ t. t ≡ spec.one (spec.cast_tree place of) a) }
{
    let Some(a) = a else {
        return Ok(None);
    };
    boxed(alloc, TypedExpr::Convert(Head { of, at: place }, a))
}

fn chosen(
    alloc: Global,
    place: At,
    a: Boxed<TypedExpr>,
    b: Boxed<TypedExpr>,
    c: Boxed<TypedExpr>,
) -> Result<Option<Boxed<TypedExpr>>, NoMemory>
    ensures { IfOk result (λ t. t ≡ Some (spec.conditional_tree place a b c)) }
{
    let of = conditional_type(b.get().head().of, c.get().head().of);
    let b = converted(alloc, of, b)?;
    let c = converted(alloc, of, c)?;
    boxed(
        alloc,
        TypedExpr::Conditional(Head { of, at: place }, a, b, c),
    )
}

/// `mixed`: one of the last operands is void and the other a value.
pub fn conditional(
    alloc: Global,
    place: At,
    mixed: bool,
    a: Option<Boxed<TypedExpr>>,
    b: Option<Boxed<TypedExpr>>,
    c: Option<Boxed<TypedExpr>>,
) -> Result<Option<Boxed<TypedExpr>>, NoMemory>
    ensures { IfOk result (λ t. t ≡ spec.unless mixed (spec.three (spec.conditional_tree place) a b c)) }
{
    if mixed {
        return Ok(None);
    }
    let Some(a) = a else {
        return Ok(None);
    };
    let Some(b) = b else {
        return Ok(None);
    };
    let Some(c) = c else {
        return Ok(None);
    };
    chosen(alloc, place, a, b, c)
}

pub fn object<W: Word>(
    alloc: Global,
    place: At,
    meaning: Option<Meaning>,
) -> Result<Option<Boxed<TypedExpr>>, NoMemory>
    ensures { IfOk result (λ t. t ≡ spec.object_tree W.BITS place meaning) }
{
    match meaning {
        None => Ok(None),
        Some(Meaning::Scalar(variable, of)) => {
            boxed(alloc, TypedExpr::Object(Head { of, at: place }, variable))
        }
        Some(Meaning::EndOfFile) => {
            let of = CType::Int;
            boxed(
                alloc,
                TypedExpr::Constant(Head { of, at: place }, minus_one::<W>()),
            )
        }
        Some(Meaning::Array(..)) => Ok(None),
        Some(Meaning::Function(_)) => Ok(None),
    }
}

pub fn element(
    alloc: Global,
    place: At,
    meaning: Option<Meaning>,
    index: Option<Boxed<TypedExpr>>,
) -> Result<Option<Boxed<TypedExpr>>, NoMemory>
    ensures { IfOk result (λ t. t ≡ spec.element_tree place meaning index) }
{
    match meaning {
        Some(Meaning::Array(variable, of, _)) => {
            let Some(index) = index else {
                return Ok(None);
            };
            boxed(
                alloc,
                TypedExpr::Element(Head { of, at: place }, variable, index),
            )
        }
        _ => Ok(None),
    }
}

fn undefined(callee: Option<Callee>) -> Option<u8>
    ensures { result ≡ spec.undefined callee }
{
    match callee {
        None => Some(32),
        Some(_) => None,
    }
}

fn wants(signature: Option<&Signature>, count: usize) -> Option<u8>
    ensures { result ≡ spec.wants (option_copied signature.entry) count }
{
    match signature {
        None => Some(21),
        Some(s) => {
            if s.params.len() == count {
                undefined(s.callee)
            } else {
                Some(23)
            }
        }
    }
}

/// The rule that a use of a name breaks.
pub fn misuse(signatures: &[Signature], meaning: Option<Meaning>, how: Usage) -> Option<u8>
    ensures { result ≡ spec.misuse signatures.now meaning how }
{
    match meaning {
        None => Some(11),
        Some(Meaning::Scalar(..)) => match how {
            Usage::Object => None,
            Usage::Array | Usage::Function(_) => Some(22),
        },
        Some(Meaning::Array(..)) => match how {
            Usage::Array => None,
            Usage::Object | Usage::Function(_) => Some(20),
        },
        Some(Meaning::Function(f)) => match how {
            Usage::Object | Usage::Array => Some(21),
            Usage::Function(count) => wants(at(signatures, f as usize), count),
        },
        Some(Meaning::EndOfFile) => match how {
            Usage::Object => None,
            Usage::Array | Usage::Function(_) => Some(22),
        },
    }
}

pub fn signature_of(signatures: &[Signature], meaning: Option<Meaning>) -> Option<&Signature>
    ensures { option_copied result ≡ spec.signature_of signatures.now meaning }
{
    match meaning {
        Some(Meaning::Function(f)) => at(signatures, f as usize),
        _ => None,
    }
}

fn type_at(signature: Option<&Signature>, i: usize) -> Option<CType>
    ensures { result ≡ slice_get (spec.params_of (option_copied signature.entry)) i }
{
    match signature {
        None => None,
        Some(s) => s.params.get(i).copied(),
    }
}

fn argument(
    alloc: Global,
    of: Option<CType>,
    e: Boxed<TypedExpr>,
) -> Result<Boxed<TypedExpr>, NoMemory>
    ensures { IfOk result (λ x. x ≡ spec.argument of e) }
{
    match of {
        None => Ok(e),
        Some(of) => converted(alloc, of, e),
    }
}

/// Adds an argument, where it is sound.
pub fn push_argument(
    alloc: Global,
    trees: &mut Items<TypedExpr>,
    signature: Option<&Signature>,
    i: usize,
    e: Option<Boxed<TypedExpr>>,
) -> Result<bool, NoMemory>
    ensures trees { OnOk result (trees.new ≡ trees.old ++ spec.argument_of (slice_get (spec.params_of (option_copied signature.entry)) i) e) }
    ensures sound { IfOk result (λ b. b ≡ spec.is_sound e) }
{
    let Some(e) = e else {
        return Ok(false);
    };
    let e = argument(alloc, type_at(signature, i), e)?;
    trees.push(e.into_inner())?;
    Ok(true)
}

fn call_to(
    alloc: Global,
    place: At,
    of: CType,
    callee: Option<Callee>,
    trees: Items<TypedExpr>,
) -> Result<Option<Boxed<TypedExpr>>, NoMemory>
    ensures { IfOk result (λ t. t ≡ spec.call_to place of callee trees) }
{
    let Some(callee) = callee else {
        return Ok(None);
    };
    boxed(
        alloc,
        TypedExpr::Call(Head { of, at: place }, callee, trees),
    )
}

pub fn call(
    alloc: Global,
    place: At,
    meaning: Option<Meaning>,
    signature: Option<&Signature>,
    trees: Items<TypedExpr>,
) -> Result<Option<Boxed<TypedExpr>>, NoMemory>
    ensures { IfOk result (λ t. t ≡ spec.call_tree place meaning (option_copied signature.entry) trees) }
{
    match meaning {
        Some(Meaning::Function(_)) => match signature {
            None => Ok(None),
            Some(s) => call_to(alloc, place, s.result, s.callee, trees),
        },
        _ => Ok(None),
    }
}
