//! Declarations of functions as a whole.

ghost use Rattle.std.specs.Prelude.{◌≡◌, ◌&&◌, ◌||◌, [], false, true, option_copied};
ghost use Rattle.c_tree.specs.declared.syntax.External.TheVariants as external;
ghost use Rattle.c_typing.specs.Faults.{notes};
ghost use Rattle.c_typing.specs.Functions as heads;
ghost use Rattle.c_typing.specs.Program as spec;
ghost use Rattle.c_functions.specs.Files.{file_of};
ghost use Rattle.c_functions.specs.Tables.{number_at};

use crate::definitions::{Definitions, found};
use crate::file::File;
use c_conversions::{Told, is_word, same_type};
use c_scopes::{is_forbidden_function, return_type, same_parameters};
use c_tree::syntax::{Declaration, External, Identifier, Parameters, Return};
use c_tree::{At, CType};
use c_typing::{Meaning, Signature};
use sqlite_items::at;

fn is_same_heading(
    gives: Return,
    parameters: &Parameters,
    result_type: CType,
    types: &[CType],
) -> bool
    ensures { result ≡ heads.same_heading (heads.heading [] gives parameters.now false) result_type types.now }
{
    same_type(return_type(gives), result_type) && same_parameters(parameters, types)
}

fn is_other_signature(gives: Return, parameters: &Parameters, signature: Option<&Signature>) -> bool
    ensures { result ≡ spec.other_signature (heads.heading [] gives parameters.now false) (option_copied signature.entry) }
{
    match signature {
        None => true,
        Some(s) => !is_same_heading(gives, parameters, s.result, s.params.as_slice()),
    }
}

fn is_other_function(
    signatures: &[Signature],
    gives: Return,
    parameters: &Parameters,
    meaning: Option<Meaning>,
) -> bool
    ensures { result ≡ spec.other_function signatures.now (heads.heading [] gives parameters.now false) meaning }
{
    match meaning {
        None => false,
        Some(Meaning::Function(f)) => is_other_signature(
            gives,
            parameters,
            at(signatures, f as usize),
        ),
        Some(Meaning::Scalar(..)) => true,
        Some(Meaning::Array(..)) => true,
        Some(Meaning::EndOfFile) => true,
    }
}

fn is_above(count: u32, number: Option<u32>) -> bool
    ensures { result ≡ spec.is_above count number }
{
    match number {
        None => false,
        Some(k) => k < count,
    }
}

fn is_second(definitions: &Definitions<'_>, file: &File<'_>, name: &[u8], defines: bool) -> bool
    ensures { result ≡ (defines && spec.is_above file.now.definitions (number_at definitions.now.table name.now)) }
{
    defines && is_above(file.definitions, found(&definitions.table, name))
}

/// Tells of the rules that a declaration or definition of a function breaks.
pub fn tell_heading(
    definitions: &Definitions<'_>,
    signatures: &[Signature],
    told: &mut Told,
    file: &File<'_>,
    place: At,
    gives: Return,
    name: &Identifier,
    parameters: &Parameters,
    defines: bool,
)
    ensures { told.new.first ≡ notes told.old.first (spec.heading_faults (number_at definitions.now.table) signatures.now (file_of file.now) (heads.heading name.now.bytes gives parameters.now defines) place name.now.at) }
{
    let forbidden = is_forbidden_function(
        file.included,
        name.bytes.as_slice(),
        gives,
        parameters,
        defines,
    );
    told.tell_if(forbidden, 14, place);
    let meaning = file.names.find(name.bytes.as_slice());
    told.tell_if(
        is_other_function(signatures, gives, parameters, meaning),
        12,
        name.at,
    );
    told.tell_if(
        is_second(definitions, file, name.bytes.as_slice(), defines),
        13,
        place,
    );
}

fn is_main(gives: Return, name: &Identifier, parameters: &Parameters) -> bool
    ensures { result ≡ spec.is_main (heads.heading name.now.bytes gives parameters.now true) }
{
    is_word(name.bytes.as_slice(), b"main") && is_same_heading(gives, parameters, CType::Int, &[])
}

fn defines_main(part: &External) -> bool
    ensures { result ≡ spec.has_main (heads.headings_in part.now) }
{
    match part {
        External::Include(_) => false,
        External::Declared(d) => declares_main(d),
        External::Defined {
            gives,
            name,
            parameters,
            ..
        } => is_main(*gives, name, parameters),
    }
}

fn declares_main(d: &Declaration) -> bool
    ensures { result ≡ spec.has_main (heads.headings_in (external.Declared d.now)) }
{
    match d {
        Declaration::Objects(..) => false,
        Declaration::Function(..) => false,
    }
}

fn either(a: bool, b: bool) -> bool
    ensures { result ≡ (a || b) }
{
    a || b
}

pub fn has_main(parts: &[External]) -> bool
    ensures { result ≡ spec.has_main (heads.headings parts.now) }
{
    let mut found = false;
    for part in parts {
        let one = defines_main(part);
        let more = either(found, one);
        found = more;
    }
    found
}
