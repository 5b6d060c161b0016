//! The types of all functions, before any body is walked.

ghost use Rattle.std.specs.Prelude.{◌≡◌, ◌++◌, [], ◌∷◌, map, false, IfOk};
ghost use Rattle.c_tree.specs.declared.syntax.External.TheVariants as external;
ghost use Rattle.c_typing.specs.Functions as spec;
ghost use Rattle.c_functions.specs.Tables.{number_at};

use crate::definitions::{Definitions, found};
use c_names::NoMemory;
use c_scopes::{is_getchar, is_putchar, parameter_type, return_type};
use c_tree::CType;
use c_tree::syntax::{Declaration, External, Identifier, Parameter, Parameters, Return};
use c_tree::typed::Callee;
use c_typing::Signature;
use sqlite_items::Items;
use std::alloc::Global;

fn defined(number: Option<u32>) -> Option<Callee>
    ensures { result ≡ spec.defined number }
{
    match number {
        None => None,
        Some(number) => Some(Callee::Defined(number)),
    }
}

/// What a call of a name calls.
fn callee(definitions: &Definitions<'_>, name: &[u8]) -> Option<Callee>
    ensures { result ≡ spec.callee_of (number_at definitions.now.table) name.now }
{
    if is_getchar(name) {
        return Some(Callee::Getchar);
    }
    if is_putchar(name) {
        return Some(Callee::Putchar);
    }
    defined(found(&definitions.table, name))
}

fn with_type(mut types: Items<CType>, p: &Parameter) -> Result<Items<CType>, NoMemory>
    ensures { IfOk result (λ r. r ≡ types ++ spec.parameter_type p.now ∷ []) }
{
    types.push(parameter_type(p))?;
    Ok(types)
}

fn types_of(alloc: Global, list: &[Parameter]) -> Result<Items<CType>, NoMemory>
    ensures { IfOk result (λ types. types ≡ map spec.parameter_type list.now) }
{
    let mut types = Items::new(alloc);
    for p in list {
        let more = with_type(types, p)?;
        types = more;
    }
    Ok(types)
}

fn parameter_types(alloc: Global, parameters: &Parameters) -> Result<Items<CType>, NoMemory>
    ensures { IfOk result (λ types. types ≡ map spec.parameter_type (spec.parameter_list parameters.now)) }
{
    match parameters {
        Parameters::Empty => Ok(Items::new(alloc)),
        Parameters::Void => Ok(Items::new(alloc)),
        Parameters::List(list) => types_of(alloc, list.as_slice()),
    }
}

fn with_signature(
    alloc: Global,
    definitions: &Definitions<'_>,
    mut list: Items<Signature>,
    name: &Identifier,
    gives: Return,
    parameters: &Parameters,
) -> Result<Items<Signature>, NoMemory>
    ensures { IfOk result (λ r. r ≡ list ++ spec.signature (number_at definitions.now.table) (spec.heading name.now.bytes gives parameters.now false) ∷ []) }
{
    let params = parameter_types(alloc, parameters)?;
    list.push(Signature {
        result: return_type(gives),
        params,
        callee: callee(definitions, name.bytes.as_slice()),
    })?;
    Ok(list)
}

/// With those of the include.
fn with_library(
    alloc: Global,
    definitions: &Definitions<'_>,
    mut list: Items<Signature>,
) -> Result<Items<Signature>, NoMemory>
    ensures { IfOk result (λ r. r ≡ list ++ spec.signature (number_at definitions.now.table) spec.of_getchar ∷ spec.signature (number_at definitions.now.table) spec.of_putchar ∷ []) }
{
    list.push(Signature {
        result: CType::Int,
        params: Items::new(alloc),
        callee: Some(Callee::Getchar),
    })?;
    let mut params = Items::new(alloc);
    params.push(CType::Int)?;
    list.push(Signature {
        result: CType::Int,
        params,
        callee: Some(Callee::Putchar),
    })?;
    Ok(list)
}

fn with_declaration(
    alloc: Global,
    definitions: &Definitions<'_>,
    list: Items<Signature>,
    d: &Declaration,
) -> Result<Items<Signature>, NoMemory>
    ensures { IfOk result (λ r. r ≡ list ++ map (spec.signature (number_at definitions.now.table)) (spec.headings_in (external.Declared d.now))) }
{
    match d {
        Declaration::Objects(..) => Ok(list),
        Declaration::Function(_, gives, name, parameters) => {
            with_signature(alloc, definitions, list, name, *gives, parameters)
        }
    }
}

fn with_part(
    alloc: Global,
    definitions: &Definitions<'_>,
    list: Items<Signature>,
    part: &External,
) -> Result<Items<Signature>, NoMemory>
    ensures { IfOk result (λ r. r ≡ list ++ map (spec.signature (number_at definitions.now.table)) (spec.headings_in part.now)) }
{
    match part {
        External::Include(_) => with_library(alloc, definitions, list),
        External::Declared(d) => with_declaration(alloc, definitions, list, d),
        External::Defined {
            gives,
            name,
            parameters,
            ..
        } => with_signature(alloc, definitions, list, name, *gives, parameters),
    }
}

pub fn all_signatures(
    alloc: Global,
    definitions: &Definitions<'_>,
    parts: &[External],
) -> Result<Items<Signature>, NoMemory>
    ensures { IfOk result (λ r. r ≡ map (spec.signature (number_at definitions.now.table)) (spec.headings parts.now)) }
{
    let mut list = Items::new(alloc);
    for part in parts {
        let more = with_part(alloc, definitions, list, part)?;
        list = more;
    }
    Ok(list)
}
