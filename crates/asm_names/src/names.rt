//! The names of labels.

ghost use Rattle.std.specs.Prelude.{◌≡◌, ◌++◌, ◌∷◌, ◌<◌, [], Contains, IfOk, List, Some, length};
ghost use Rattle.rtl_tree.specs.Names.{IsName};
ghost use Rattle.asm_token.specs.Tokens.{Token};
ghost use Rattle.asm_program.specs.TextLines.{Labelled, Said as SpecSaid};
ghost use Rattle.asm_labels.specs.Seen.{label_of, seen};
ghost use Rattle.asm_names.specs.LabelNames.{Adds, AreNamesOf, CanAdd, IsNew, IsSoundText, label_name};

use asm_labels::{Label, Said, part_after, said_on, split_line};
use asm_program::Part;
use asm_program::law::says_one_thing;
use md_rows::RawDescription;
use rtl_tree::{Name, NameList, Names, NoMemory};
use std::alloc::Global;

fn with_name(alloc: Global, mut list: NameList, name: &[u8]) -> Result<NameList, NoMemory>
    requires name { IsName name.now }
    requires new { Contains list name.now → ⊥ }
    requires room { length list < 65536 }
    ensures { IfOk result (λ more. more ≡ list ++ name.now ∷ []) }
{
    list.push(Name::new(Vec::from_slice(alloc, name)?))?;
    Ok(list)
}

fn with_new(alloc: Global, names: Names, part: Part, name: &[u8]) -> Result<Names, NoMemory>
    requires new { IsNew names name.now }
    ensures { IfOk result (λ more. Adds part (Some name.now) names more) }
{
    let Names { objects, functions } = names;
    match part {
        Part::Outside => Ok(Names { objects, functions }),
        Part::InText => {
            let functions = with_name(alloc, functions, name)?;
            Ok(Names { objects, functions })
        }
        Part::InData => {
            let objects = with_name(alloc, objects, name)?;
            Ok(Names { objects, functions })
        }
    }
}

fn with_label(alloc: Global, names: Names, part: Part, label: Label<'_>) -> Result<Names, NoMemory>
    requires new { CanAdd names (label_name (Labelled (label_of label))) }
    ensures { IfOk result (λ more. Adds part (label_name (Labelled (label_of label.entry))) names more) }
{
    match label {
        Label::Symbol(name) => with_new(alloc, names, part, name),
        Label::Block(_) => Ok(names),
    }
}

fn with_said(alloc: Global, names: Names, part: Part, said: Said<'_>) -> Result<Names, NoMemory>
    requires new { (ts : List Token) → CanAdd names (label_name (seen said ts)) }
    ensures { IfOk result (λ more. (ts : List Token) → Adds part (label_name (seen said.entry ts)) names more) }
{
    match said {
        Said::Labelled(label) => with_label(alloc, names, part, label),
        _ => Ok(names),
    }
}

/// The names of the labels of a text that keeps the rules, in order.
pub fn names_of(alloc: Global, d: &RawDescription, text: &[u8]) -> Result<Names, NoMemory>
    requires text { (all : List SpecSaid) × IsSoundText d.now text.now all }
    ensures { IfOk result (λ names. (all : List SpecSaid) → IsSoundText d.now text.now all → AreNamesOf names all) }
{
    says_one_thing();
    let mut names = Names {
        objects: NameList::new(alloc),
        functions: NameList::new(alloc),
    };
    let mut part = Part::Outside;
    let (_, mut rest) = text.split_at(0);
    while !rest.is_empty() {
        let (line, behind) = split_line(rest);
        let said = said_on(line);
        let _ = (names.objects.len(), names.functions.len());
        names = with_said(alloc, names, part, said)?;
        part = part_after(part, said);
        rest = behind;
    }
    Ok(names)
}
