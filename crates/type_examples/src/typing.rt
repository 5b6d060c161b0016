//! Typing by example: which sources are refused, at which place and by which rule, and which trees the others have. Each row was
//! worked out by hand from the rules and the C standard.

use crate::rows::check;
use crate::typed_trees::{PLACES, TREES};
use crate::{refused_names, refused_statements, refused_twice, refused_uses, refused_values};
use c_examples::rows::Row;
use c_examples::sources::{Told, told};
use c_tree::{CFault, Typed};
use c_types::type_program;
use rtl_word::{W16, W32, Word};
use std::alloc::Global;
use std::test::Fail;
use typed_text::text_of;

/// Words of 16 bits and of 32 bits alike.
pub const BOTH: u8 = 0;

/// The longest source, in bytes.
const LONGEST: usize = 1_048_576;

/// A source, the word, and the rule that is told with its line and its column.
pub struct Refused(pub &'static str, pub u8, pub u8, pub u32, pub u32);

/// A source, the word, and its tree on a page.
pub struct Tree(pub &'static str, pub u8, pub &'static str);

/// The same, with the column of each expression.
pub struct Placed(pub &'static str, pub u8, pub &'static str);

pub fn typed_of<W: Word>(alloc: Global, source: &[u8]) -> Result<Typed, CFault> {
    if source.len() > LONGEST {
        return Err(CFault::NoMemory);
    }
    match c_source::tree_of(alloc, source) {
        Ok(syntax) => type_program::<W>(alloc, &syntax),
        Err(fault) => Err(fault),
    }
}

fn is_told<W: Word>(alloc: Global, source: &str, place: Told) -> bool {
    told(&typed_of::<W>(alloc, source.as_bytes())) == place
}

impl Row for Refused {
    fn holds(&self, alloc: Global) -> bool {
        let place = Some((self.3, self.4, self.2));
        let on_16 = self.1 == 32 || is_told::<W16>(alloc, self.0, place);
        let on_32 = self.1 == 16 || is_told::<W32>(alloc, self.0, place);
        on_16 && on_32
    }
}

fn has_text<W: Word>(alloc: Global, source: &str, text: &str, columns: bool) -> bool {
    match typed_of::<W>(alloc, source.as_bytes()) {
        Ok(tree) => text_of(alloc, &tree, columns).is(text.as_bytes()),
        Err(_) => false,
    }
}

fn has_tree(alloc: Global, source: &str, word: u8, text: &str, columns: bool) -> bool {
    let on_16 = word == 32 || has_text::<W16>(alloc, source, text, columns);
    let on_32 = word == 16 || has_text::<W32>(alloc, source, text, columns);
    on_16 && on_32
}

impl Row for Tree {
    fn holds(&self, alloc: Global) -> bool {
        has_tree(alloc, self.0, self.1, self.2, false)
    }
}

impl Row for Placed {
    fn holds(&self, alloc: Global) -> bool {
        has_tree(alloc, self.0, self.1, self.2, true)
    }
}

#[test]
fn names_are_refused(rt: HostRuntime) {
    check(&rt, rt.alloc(), "names", &refused_names::ROWS);
}

#[test]
fn values_are_refused(rt: HostRuntime) {
    check(&rt, rt.alloc(), "values", &refused_values::ROWS);
}

#[test]
fn uses_are_refused(rt: HostRuntime) {
    check(&rt, rt.alloc(), "uses", &refused_uses::ROWS);
}

#[test]
fn statements_are_refused(rt: HostRuntime) {
    check(&rt, rt.alloc(), "statements", &refused_statements::ROWS);
}

/// Of several faults the least place is told, and there the least rule.
#[test]
fn first_fault_is_told(rt: HostRuntime) {
    check(&rt, rt.alloc(), "faults", &refused_twice::ROWS);
}

#[test]
fn sources_have_trees(rt: HostRuntime) {
    check(&rt, rt.alloc(), "trees", &TREES);
}

#[test]
fn expressions_have_places(rt: HostRuntime) {
    check(&rt, rt.alloc(), "places", &PLACES);
}

/// A source of blanks has no `main`, which is told behind its last byte.
#[test]
fn longest_blank_source_has_no_main(rt: HostRuntime) -> Result<(), Fail> {
    let alloc = rt.alloc();
    let source = vec![in alloc; b' '; LONGEST]?;
    assert!(rt; told(&typed_of::<W16>(alloc, &source)) == Some((1, 1_048_577, 31)));
    Ok(())
}
