//! The places of tokens that a tree has.

use crate::page::Page;
use crate::rows::{Row, check};
use crate::sources::{told, tree_of};
use c_tree::syntax::{Declaration, External, Initialiser, Item, Parameter, Parameters, Syntax};
use std::alloc::Global;

/// The name, and the brace of the initialiser.
fn print_item(page: &mut Page, item: &Item) {
    page.place(item.name.at);
    match &item.initialiser {
        Initialiser::List(brace, ..) => page.place(*brace),
        _ => {}
    }
}

fn print_parameter(page: &mut Page, parameter: &Parameter) {
    match &parameter.name {
        Some(name) => page.place(name.at),
        None => {}
    }
}

fn print_parameters(page: &mut Page, parameters: &Parameters) {
    match parameters {
        Parameters::List(list) => {
            for parameter in list.as_slice() {
                print_parameter(page, parameter);
            }
        }
        _ => {}
    }
}

fn print_declaration(page: &mut Page, declaration: &Declaration) {
    match declaration {
        Declaration::Objects(_, _, items) => {
            for item in items.as_slice() {
                print_item(page, item);
            }
        }
        Declaration::Function(_, _, name, parameters) => {
            page.place(name.at);
            print_parameters(page, parameters);
        }
    }
}

fn print_external(page: &mut Page, external: &External) {
    match external {
        External::Declared(declaration) => print_declaration(page, declaration),
        External::Defined {
            name,
            parameters,
            brace,
            ..
        } => {
            page.place(name.at);
            print_parameters(page, parameters);
            page.place(*brace);
        }
        External::Include(_) => {}
    }
    page.put(b"; ");
}

fn print_places(page: &mut Page, tree: &Syntax) {
    for external in tree.parts.as_slice() {
        print_external(page, external);
    }
    page.place(tree.end);
}

/// A source, and the places of the names that it declares, of the braces behind them and of its end.
struct Placed(&'static [u8], &'static [u8]);

impl Row for Placed {
    fn holds(&self, alloc: Global) -> bool {
        match tree_of(alloc, self.0) {
            Ok(tree) => {
                let mut page = Page::new(alloc);
                print_places(&mut page, &tree);
                page.is(self.1)
            }
            Err(_) => false,
        }
    }
}

const PLACES: [Placed; 2] = [
    Placed(
        b"int f(char a){}\nint\n b[1]= {2};\nvoid g();\n",
        b"1:5 1:12 1:14 ; 3:2 3:8 ; 4:6 ; 5:1 ",
    ),
    Placed(b" \n\t /* */ \n", b"3:1 "),
];

#[test]
fn names_braces_and_the_end_have_their_places(rt: HostRuntime) {
    check(&rt, rt.alloc(), "places", &PLACES);
}

#[test]
fn include_line_in_a_function_is_told(rt: HostRuntime) {
    let answer = tree_of(rt.alloc(), b"int f(){\n #include <stdio.h>\n}");
    assert!(rt; told(&answer) == Some((2, 2, 5)));
}
