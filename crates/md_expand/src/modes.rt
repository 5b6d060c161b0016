//! The alternatives of modes.

ghost use Rattle.std.specs.Prelude.{◌≡◌, ◌++◌, ◌∷◌, [], ℕ, List, map, cond, IfOk};
ghost use Rattle.std.specs.Str.{bytes_eq};
ghost use Rattle.md_text.specs.Declarations.{Declaration as Said};
ghost use Rattle.md_text.specs.Expansion.{alternatives_of, filling_of};
ghost use Rattle.md_forms.specs.Seen.{form_of, declarations_of};
ghost use Rattle.md_expand.specs.Fillings.{all_seen, alternative_named, listed};

use md_forms::{Declaration, Form, OpenTree, Piece};
use md_rows::Hole;
use rtl_tree::NoMemory;
use std::alloc::Global;
use std::collections::HashMap;

/// What stands in place of a hole: a hole, or an alternative of a mode.
#[derive(Clone, Copy)]
pub enum Filling<'a> {
    Itself(Hole),
    Alternative {
        text: &'a [Piece],
        tree: &'a OpenTree,
    },
}

/// Under the name of each mode its alternatives, in order.
pub type Alternatives<'a> = HashMap<&'a [u8], Vec<Filling<'a>>>;

/// Alternatives, with one more of the mode of this name.
fn with_filling<'a>(
    alloc: Global,
    mut alternatives: Alternatives<'a>,
    name: &'a [u8],
    filling: Filling<'a>,
) -> Result<Alternatives<'a>, NoMemory>
    ensures { IfOk result (λ more. (other : List ℕ) → listed more other
        ≡ listed alternatives.entry other ++ cond (bytes_eq name.now other) (filling.entry ∷ []) []) }
{
    let mut found = alternatives.remove(name).unwrap_or(Vec::new(alloc));
    found.push(filling)?;
    alternatives.insert(name, found)?;
    Ok(alternatives)
}

/// Alternatives, with the one that a form gives.
fn with_alternative<'a>(
    alloc: Global,
    alternatives: Alternatives<'a>,
    form: &'a Form,
) -> Result<Alternatives<'a>, NoMemory>
    ensures { IfOk result (λ more. (width : ℕ) (ds : List Said) (name : List ℕ)
        → all_seen width ds (listed more name) ≡ all_seen width ds (listed alternatives.entry name)
        ++ alternative_named width ds name (form_of form.now)) }
{
    match form {
        Form::ModeLine { name, text, tree } => {
            let filling = Filling::Alternative {
                text: text.as_slice(),
                tree,
            };
            with_filling(alloc, alternatives, name.as_slice(), filling)
        }
        _ => Ok(alternatives),
    }
}

/// The alternatives of all modes.
pub fn alternatives_by_mode<'a>(
    alloc: Global,
    all: &'a [Declaration],
) -> Result<Alternatives<'a>, NoMemory>
    ensures { IfOk result (λ alternatives. (width : ℕ) (ds : List Said) (name : List ℕ)
        → all_seen width ds (listed alternatives name)
        ≡ map (filling_of width ds) (alternatives_of (declarations_of all.now) name)) }
{
    let mut alternatives = HashMap::new(alloc);
    for declaration in all {
        alternatives = with_alternative(alloc, alternatives, &declaration.form)?;
    }
    Ok(alternatives)
}
