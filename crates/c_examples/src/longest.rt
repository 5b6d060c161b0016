//! Long sources.

ghost use Rattle.std.specs.Prelude.{◌≤◌, length};

use crate::rows::{Row, check};
use c_source::tree_of;
use std::alloc::Global;

/// The longest source, in bytes.
const LONGEST: usize = 1_048_576;

const FUNCTION: &[u8] = b"int f(int a,char c){
    int b[4]={1,2,a,},i;
    for(i=0;i<4;i++)if(a&&b[i])c=(char)(c+b[i]*a);else return f(i,'\\n');
    switch(c){case 1:a--;break;default:{;}}
    return a?b[a%4]:c; /* the end */
}
";

/// How many external declarations a source has.
fn parts(alloc: Global, text: &[u8]) -> Option<usize>
    requires { length text.now ≤ 4294967294 }
{
    match tree_of(alloc, text) {
        Ok(tree) => Some(tree.parts.len()),
        Err(_) => None,
    }
}

/// A source of so many functions, with blanks behind them up to a length.
struct Long {
    functions: usize,
    length: usize,
}

impl Long {
    /// Whether there was memory for the source.
    fn fill(&self, text: &mut Vec<u8>) -> bool {
        let mut is_whole = true;
        for _ in 0..self.functions {
            is_whole &= text.extend_from_slice(FUNCTION).is_ok();
        }
        is_whole & text.resize(self.length, b' ').is_ok()
    }
}

impl Row for Long {
    fn holds(&self, alloc: Global) -> bool {
        let mut text = Vec::new(alloc);
        let is_whole = self.fill(&mut text);
        is_whole && text.len() <= LONGEST && parts(alloc, &text) == Some(self.functions)
    }
}

const BLANKS: [Long; 1] = [Long {
    functions: 0,
    length: LONGEST,
}];

const FUNCTIONS: [Long; 1] = [Long {
    functions: 324,
    length: 65_536,
}];

#[test]
fn longest_blank_source_is_an_empty_program(rt: HostRuntime) {
    check(&rt, rt.alloc(), "blanks", &BLANKS);
}

#[test]
fn long_source_of_functions_has_a_tree(rt: HostRuntime) {
    check(&rt, rt.alloc(), "functions", &FUNCTIONS);
}
