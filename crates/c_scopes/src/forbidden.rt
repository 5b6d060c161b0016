//! Names that may not be declared, and the types of functions as they are written.

ghost use Rattle.std.specs.Prelude.{◌≡◌, ◌&&◌, [], false, map, length, nat_le, slice_get};
ghost use Rattle.c_typing.specs.Functions as spec;
ghost use Rattle.c_scopes.specs.Types.{is_type};

use c_conversions::{is_macro, is_word, same_type, type_of_words};
use c_tree::CType;
use c_tree::syntax::{Parameter, Parameters, Return};

fn is_reserved(name: &[u8]) -> bool
    ensures { result ≡ spec.is_reserved name.now }
{
    match name {
        [] => false,
        [first, rest @ ..] => *first == b'_' && begins_with_mark(rest),
    }
}

fn begins_with_mark(name: &[u8]) -> bool
    ensures { result ≡ spec.begins_with_mark name.now }
{
    match name {
        [] => false,
        [first, ..] => *first == b'_',
    }
}

pub fn is_getchar(name: &[u8]) -> bool
    ensures { result ≡ spec.is_getchar name.now }
{
    is_word(name, b"getchar")
}

pub fn is_putchar(name: &[u8]) -> bool
    ensures { result ≡ spec.is_putchar name.now }
{
    is_word(name, b"putchar")
}

/// No object may have this name.
pub fn is_forbidden_object(included: bool, name: &[u8]) -> bool
    ensures { result ≡ spec.forbidden_object included name.now }
{
    is_reserved(name)
        || is_word(name, b"main")
        || is_getchar(name)
        || is_putchar(name)
        || is_macro(included, name)
}

pub fn return_type(gives: Return) -> CType
    ensures { result ≡ spec.return_type gives }
{
    match gives {
        Return::Void => CType::Void,
        Return::Value(words) => type_of_words(words),
    }
}

pub fn parameter_type(p: &Parameter) -> CType
    ensures { result ≡ spec.parameter_type p.now }
{
    type_of_words(p.words)
}

fn both(a: bool, b: bool) -> bool
    ensures { result ≡ (a && b) }
{
    a && b
}

fn is_type(of: CType, other: Option<CType>) -> bool
    ensures { result ≡ is_type of other }
{
    match other {
        None => false,
        Some(other) => same_type(of, other),
    }
}

fn is_type_at(p: &Parameter, types: &[CType], i: usize) -> bool
    ensures { result ≡ is_type (spec.parameter_type p.now) (slice_get types.now i) }
{
    is_type(parameter_type(p), types.get(i).copied())
}

fn ends(same: bool, types: &[CType], i: usize) -> bool
    ensures { result ≡ (same && nat_le (length types.now) i) }
{
    same && types.len() <= i
}

/// The parameters have these types.
fn have_types(list: &[Parameter], types: &[CType]) -> bool
    ensures { result ≡ spec.same_types (map spec.parameter_type list.now) types.now }
{
    let mut same = true;
    let mut i = 0;
    for p in list {
        let one = is_type_at(p, types, i);
        let more = both(same, one);
        same = more;
        i += 1;
    }
    ends(same, types, i)
}

/// The parameters have these types.
pub fn same_parameters(parameters: &Parameters, types: &[CType]) -> bool
    ensures { result ≡ spec.same_types (map spec.parameter_type (spec.parameter_list parameters.now)) types.now }
{
    match parameters {
        Parameters::Empty => types.is_empty(),
        Parameters::Void => types.is_empty(),
        Parameters::List(list) => have_types(list.as_slice(), types),
    }
}

fn is_as_getchar(gives: Return, parameters: &Parameters) -> bool
    ensures { result ≡ spec.same_heading (spec.heading [] gives parameters.now false) spec.of_getchar.result spec.of_getchar.params }
{
    same_type(return_type(gives), CType::Int) && same_parameters(parameters, &[])
}

fn is_as_putchar(gives: Return, parameters: &Parameters) -> bool
    ensures { result ≡ spec.same_heading (spec.heading [] gives parameters.now false) spec.of_putchar.result spec.of_putchar.params }
{
    same_type(return_type(gives), CType::Int) && same_parameters(parameters, &[CType::Int])
}

/// No function may be declared or defined so.
pub fn is_forbidden_function(
    included: bool,
    name: &[u8],
    gives: Return,
    parameters: &Parameters,
    defines: bool,
) -> bool
    ensures { result ≡ spec.forbidden_function included (spec.heading name.now gives parameters.now defines) }
{
    is_reserved(name)
        || is_macro(included, name)
        || (is_getchar(name) && (defines || !is_as_getchar(gives, parameters)))
        || (is_putchar(name) && (defines || !is_as_putchar(gives, parameters)))
}
