//! Parameters of functions (C11 6.7.6.3, 6.9.1).

ghost use Rattle.std.specs.Prelude.{◌≡◌, Some, None, length, IfOk, OnOk};
ghost use Rattle.c_typing.specs.Faults.{notes};
ghost use Rattle.c_typing.specs.Functions.{parameter_list};
ghost use Rattle.c_typing.specs.Program as spec;
ghost use Rattle.c_functions.specs.Files.{params_of};

use c_conversions::Told;
use c_names::{Names, NoMemory};
use c_scopes::{is_forbidden_object, parameter_type};
use c_tree::syntax::{Identifier, Parameter, Parameters};
use c_tree::typed::Variable;
use c_tree::{CType, Object};
use c_typing::Meaning;
use sqlite_items::Items;
use std::alloc::Global;

/// The names that are declared, and the parameters so far.
#[derive(Drop)]
pub struct Params<'a> {
    pub names: Names<'a>,
    pub objects: Items<Object>,
}

/// Whether the names of a definition are wanted, how many names stand outside, and whether the include stands above.
#[derive(Clone, Copy)]
pub struct Place {
    pub included: bool,
    pub start: usize,
    pub defines: bool,
}

fn number(objects: &Items<Object>) -> Result<u32, NoMemory>
    ensures { IfOk result (λ n. n ≡ length objects.now) }
{
    let Ok(number) = u32::try_from(objects.len()) else {
        return Err(NoMemory::NoMemory);
    };
    Ok(number)
}

fn unnamed<'a>(alloc: Global, params: Params<'a>, x: &Parameter) -> Result<Params<'a>, NoMemory>
    ensures { IfOk result (λ p. params_of p ≡ spec.with_parameter (params_of params.entry) x.now None) }
{
    let Params { names, mut objects } = params;
    objects.push(Object {
        name: Items::new(alloc),
        element: parameter_type(x),
        length: None,
        at: x.at,
    })?;
    Ok(Params { names, objects })
}

fn named<'a>(
    alloc: Global,
    params: Params<'a>,
    x: &Parameter,
    name: &'a Identifier,
) -> Result<Params<'a>, NoMemory>
    ensures { IfOk result (λ p. params_of p ≡ spec.with_parameter (params_of params.entry) x.now (Some name.now)) }
{
    let Params { names, mut objects } = params;
    let of = parameter_type(x);
    let number = number(&objects)?;
    let means = Meaning::Scalar(Variable::Parameter(number), of);
    let names = names.declare(name.bytes.as_slice(), means)?;
    let copy = Items::from_slice(alloc, name.bytes.as_slice())?;
    objects.push(Object {
        name: copy,
        element: of,
        length: None,
        at: name.at,
    })?;
    Ok(Params { names, objects })
}

fn tell_parameter(
    told: &mut Told,
    place: Place,
    params: &Params<'_>,
    x: &Parameter,
    name: &Option<Identifier>,
)
    ensures { told.new.first ≡ notes told.old.first (spec.parameter_faults place.included place.start place.defines (params_of params.now) x.now name.now) }
{
    told.tell_if(params.objects.len() == 16, 33, x.at);
    match name {
        None => told.tell_if(place.defines, 17, x.at),
        Some(name) => {
            let forbidden = is_forbidden_object(place.included, name.bytes.as_slice());
            told.tell_if(forbidden, 14, name.at);
            let twice = params.names.is_here(place.start, name.bytes.as_slice());
            told.tell_if(twice, 12, name.at);
        }
    }
}

fn with_parameter<'a>(
    alloc: Global,
    told: &mut Told,
    place: Place,
    params: Params<'a>,
    x: &'a Parameter,
) -> Result<Params<'a>, NoMemory>
    ensures params { IfOk result (λ p. params_of p ≡ spec.with_parameter (params_of params.entry) x.now x.now.name) }
    ensures told { OnOk result (told.new.first ≡ notes told.old.first (spec.parameter_faults place.included place.start place.defines (params_of params.entry) x.now x.now.name)) }
{
    tell_parameter(told, place, &params, x, &x.name);
    match &x.name {
        None => unnamed(alloc, params, x),
        Some(name) => named(alloc, params, x, name),
    }
}

fn with_list<'a>(
    alloc: Global,
    told: &mut Told,
    place: Place,
    params: Params<'a>,
    list: &'a [Parameter],
) -> Result<Params<'a>, NoMemory>
    ensures params { IfOk result (λ p. params_of p ≡ spec.with_parameters (params_of params.entry) list.now) }
    ensures told { OnOk result (told.new.first ≡ notes told.old.first (spec.parameters_faults place.included place.start place.defines (params_of params.entry) list.now)) }
{
    let mut params = params;
    for x in list {
        let more = with_parameter(alloc, told, place, params, x)?;
        params = more;
    }
    Ok(params)
}

pub fn with_parameters<'a>(
    alloc: Global,
    told: &mut Told,
    place: Place,
    params: Params<'a>,
    list: &'a Parameters,
) -> Result<Params<'a>, NoMemory>
    ensures params { IfOk result (λ p. params_of p ≡ spec.with_parameters (params_of params.entry) (parameter_list list.now)) }
    ensures told { OnOk result (told.new.first ≡ notes told.old.first (spec.parameters_faults place.included place.start place.defines (params_of params.entry) (parameter_list list.now))) }
{
    match list {
        Parameters::Empty => Ok(params),
        Parameters::Void => Ok(params),
        Parameters::List(list) => with_list(alloc, told, place, params, list.as_slice()),
    }
}
