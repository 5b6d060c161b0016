//! Sizes of arrays, and constants.

ghost use Rattle.std.specs.Prelude.{◌≡◌, ◌<◌, ◌^◌, IfOk, OnOk, IfSome};
ghost use Rattle.c_typing.specs.Faults.{notes};
ghost use Rattle.c_typing.specs.Statements as spec;
ghost use Rattle.c_scopes.specs.Here.{at_names};
ghost use Rattle.c_objects.specs.Within.{within_of};

use crate::at::{Functions, expression_at};
use c_constants::constant_value;
use c_conversions::Told;
use c_names::{Names, NoMemory};
use c_tree::syntax::{Initialiser, Size};
use c_tree::{At, CType, TypedExpr};
use c_typing::{Extent, Typing};
use rtl_word::Word;
use sqlite_items::Boxed;
use std::alloc::Global;

pub fn constant_of<W: Word>(e: &Option<Boxed<TypedExpr>>) -> Option<u32>
    ensures is { result ≡ spec.constant_of W.BITS e.now }
    ensures fits { IfSome result (λ v. v < 2 ^ W.BITS) }
{
    match e {
        None => None,
        Some(e) => constant_value::<W>(e.get()),
    }
}

fn is_size<W: Word>(of: CType, n: u32) -> bool
    ensures { result ≡ spec.is_size W.BITS of n }
{
    match of {
        CType::Unsigned => 1 <= n && n <= 1_048_576,
        _ => 1 <= n && (n <= 1_048_576 && u64::from(n) < 1 << (W::BITS - 1)),
    }
}

fn size_in_range<W: Word>(of: CType, n: Option<u32>) -> Option<u32>
    ensures { result ≡ spec.size_in_range W.BITS of n }
{
    match n {
        None => None,
        Some(n) => if is_size::<W>(of, n) { Some(n) } else { None },
    }
}

/// The number of elements that a sound expression gives.
fn size_of<W: Word>(e: &Option<Boxed<TypedExpr>>) -> Option<u32>
    ensures { result ≡ spec.size_of W.BITS e.now }
{
    match e {
        None => None,
        Some(e) => size_in_range::<W>(e.get().head().of, constant_value::<W>(e.get())),
    }
}

/// A rule is broken at a sound expression without this value.
pub fn tell_unless(
    told: &mut Told,
    value: Option<u32>,
    e: &Option<Boxed<TypedExpr>>,
    rule: u8,
    at: At,
)
    ensures { told.new.first ≡ notes told.old.first (spec.faulty_unless value e.now rule at) }
{
    match e {
        None => {}
        Some(_) => match value {
            None => told.tell(rule, at),
            Some(_) => {}
        },
    }
}

/// The size of a declared object; nothing is seen where none is given.
pub fn sized<W: Word>(
    alloc: Global,
    functions: &Functions<'_>,
    told: &mut Told,
    names: &Names<'_>,
    size: &Size,
) -> Result<Typing, NoMemory>
    ensures seen { IfOk result (λ t. t ≡ (spec.sized (within_of W.BITS functions.now) (at_names names.now) size.now).seen) }
    ensures told { OnOk result (told.new.first ≡ notes told.old.first (spec.sized (within_of W.BITS functions.now) (at_names names.now) size.now).faults) }
{
    match size {
        Size::Given(e) => expression_at::<W>(alloc, functions, told, names, e),
        Size::Scalar | Size::Absent => Ok(Typing {
            at: At { line: 1, column: 1 },
            tree: None,
        }),
    }
}

pub fn is_absent(init: &Initialiser) -> bool
    ensures { result ≡ spec.is_absent init.now }
{
    match init {
        Initialiser::Absent => true,
        Initialiser::Value(_) => false,
        Initialiser::List(..) => false,
    }
}

fn listed(init: &Initialiser) -> Result<Option<u32>, NoMemory>
    ensures { IfOk result (λ n. n ≡ spec.listed init.now) }
{
    match init {
        Initialiser::Absent => Ok(None),
        Initialiser::Value(_) => Ok(None),
        Initialiser::List(_, list, _) => {
            let Ok(count) = u32::try_from(list.len()) else {
                return Err(NoMemory::NoMemory);
            };
            Ok(Some(count))
        }
    }
}

fn elements(count: Option<u32>) -> Extent
    ensures { result ≡ spec.elements count }
{
    match count {
        None => Extent::Unknown,
        Some(n) => Extent::Elements(n),
    }
}

/// How many elements an object has, after its size was seen. The place is that of its name.
pub fn extent_of<W: Word>(
    functions: &Functions<'_>,
    told: &mut Told,
    seen: &Typing,
    size: &Size,
    init: &Initialiser,
    at: At,
) -> Result<Extent, NoMemory>
    ensures is { IfOk result (λ x. x ≡ spec.extent_of (within_of W.BITS functions.now) seen.now size.now init.now) }
    ensures told { OnOk result (told.new.first ≡ notes told.old.first (spec.size_faults (within_of W.BITS functions.now) seen.now size.now init.now at)) }
{
    match size {
        Size::Scalar => Ok(Extent::Scalar),
        Size::Absent => {
            told.tell_if(is_absent(init), 17, at);
            Ok(elements(listed(init)?))
        }
        Size::Given(_) => {
            let value = size_of::<W>(&seen.tree);
            tell_unless(told, value, &seen.tree, 16, seen.at);
            Ok(elements(value))
        }
    }
}

pub fn length_of(extent: Extent) -> Option<u32>
    ensures { result ≡ spec.length_of extent }
{
    match extent {
        Extent::Scalar => None,
        Extent::Elements(n) => Some(n),
        Extent::Unknown => Some(0),
    }
}

/// Whether so many values are all that the object has elements for.
pub fn is_full(extent: Extent, count: usize) -> bool
    ensures { result ≡ spec.is_full extent count }
{
    match extent {
        Extent::Elements(n) => n as usize == count,
        Extent::Scalar => false,
        Extent::Unknown => false,
    }
}
