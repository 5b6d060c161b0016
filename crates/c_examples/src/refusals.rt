//! Sources that are refused, each with the first token that continues no program.

use crate::page::Page;
use crate::rows::{Row, check};
use crate::sources::{told, tree_of};
use std::alloc::Global;

/// What stands before the token that is told, the source from there on, and the rule that it breaks.
struct Refused(&'static [u8], &'static [u8], u8);

impl Row for Refused {
    fn holds(&self, alloc: Global) -> bool {
        let mut page = Page::new(alloc);
        page.put(self.0);
        page.put(self.1);
        match (page.text(), u32::try_from(self.0.len() + 1)) {
            (Some(source), Ok(column)) => {
                told(&tree_of(alloc, source)) == Some((1, column, self.2))
            }
            _ => false,
        }
    }
}

const IN_DECLARATIONS: [Refused; 61] = [
    Refused(b"", b"x;", 5),
    Refused(b"", b";", 5),
    Refused(b"", b"1", 5),
    Refused(b"", b"{}", 5),
    Refused(b"", b"return;", 5),
    Refused(b"", b"(", 5),
    Refused(b"", b"long x;", 5),
    Refused(b"", b"const int x;", 5),
    Refused(b"", b"static int x;", 5),
    Refused(b"", b"struct s;", 5),
    Refused(b"int", b"", 5),
    Refused(b"int ", b"", 5),
    Refused(b"int ", b"int x;", 5),
    Refused(b"int ", b";", 5),
    Refused(b"int ", b"1;", 5),
    Refused(b"int ", b"*p;", 5),
    Refused(b"int x", b"", 5),
    Refused(b"int x ", b"y;", 5),
    Refused(b"int x", b"{}", 5),
    Refused(b"int x", b")", 5),
    Refused(b"int x,", b";", 5),
    Refused(b"int x,", b"int y;", 5),
    Refused(b"int x,f", b"();", 5),
    Refused(b"int x=", b";", 5),
    Refused(b"int x=1 ", b"2;", 5),
    Refused(b"int x=1,", b";", 5),
    Refused(b"int x={", b"};", 5),
    Refused(b"int x={", b"{1}};", 5),
    Refused(b"int x={1", b";", 5),
    Refused(b"int x={1,", b",};", 5),
    Refused(b"int x={1,}", b"", 5),
    Refused(b"int x[", b";", 5),
    Refused(b"int x[1", b";", 5),
    Refused(b"int x[1", b",2];", 5),
    Refused(b"int x[a", b"=1];", 5),
    Refused(b"int x[1]", b"[2];", 5),
    Refused(b"int x[]", b"", 5),
    Refused(b"char ", b"char c;", 5),
    Refused(b"unsigned ", b"signed x;", 5),
    Refused(b"signed char ", b"int x;", 5),
    Refused(b"int unsigned ", b"char x;", 5),
    Refused(b"unsigned ", b"long x;", 5),
    Refused(b"void ", b";", 5),
    Refused(b"void ", b"int f();", 5),
    Refused(b"void x", b";", 5),
    Refused(b"void x", b"=1;", 5),
    Refused(b"void f(", b";", 5),
    Refused(b"void f(void", b",int);", 5),
    Refused(b"void f(", b"a);", 5),
    Refused(b"void f(int a ", b"b);", 5),
    Refused(b"void f(int", b";", 5),
    Refused(b"void f(int,", b");", 5),
    Refused(b"void f(int a", b"[]);", 5),
    Refused(b"void f()", b"", 5),
    Refused(b"void f()", b"=1;", 5),
    Refused(b"void f()", b",g();", 5),
    Refused(b"int f()", b",g();", 5),
    Refused(b"int f(void)", b"int g(void);", 5),
    Refused(b"int f(int a)", b"int b;{}", 5),
    Refused(b"int x;", b"x=1;", 5),
    Refused(b"int f(){}", b"}", 5),
];

const IN_OPERATORS: [Refused; 39] = [
    Refused(b"int f(){}", b";", 5),
    Refused(b"int f(){", b"", 5),
    Refused(b"int main(void){", b"", 5),
    Refused(b"int main(void){return 1 +", b";}", 5),
    Refused(b"int f(){{}", b"", 5),
    Refused(b"int f(){{", b"", 5),
    Refused(b"int f(){", b")", 5),
    Refused(b"int f(){", b"]", 5),
    Refused(b"int f(){a", b"}", 5),
    Refused(b"int f(){a ", b"b;}", 5),
    Refused(b"int f(){1 ", b"2;}", 5),
    Refused(b"int f(){a+", b";}", 5),
    Refused(b"int f(){a+", b"*b;}", 5),
    Refused(b"int f(){a+", b"&b;}", 5),
    Refused(b"int f(){", b"*a;}", 5),
    Refused(b"int f(){", b"&a;}", 5),
    Refused(b"int f(){a=", b";}", 5),
    Refused(b"int f(){a+b", b"=c;}", 5),
    Refused(b"int f(){(int)a", b"=b;}", 5),
    Refused(b"int f(){a?b:c", b"=d;}", 5),
    Refused(b"int f(){a==b", b"=c;}", 5),
    Refused(b"int f(){-a+b", b"=c;}", 5),
    Refused(b"int f(){a+b", b"+=c;}", 5),
    Refused(b"int f(){a?", b":c;}", 5),
    Refused(b"int f(){a?b", b";}", 5),
    Refused(b"int f(){a?b:", b";}", 5),
    Refused(b"int f(){a,", b";}", 5),
    Refused(b"int f(){", b",a;}", 5),
    Refused(b"int f(){(", b")a;}", 5),
    Refused(b"int f(){(a", b";}", 5),
    Refused(b"int f(){(int ", b"a;}", 5),
    Refused(b"int f(){(int)", b";}", 5),
    Refused(b"int f(){(int", b"*)a;}", 5),
    Refused(b"int f(){(", b"void)a;}", 5),
    Refused(b"int f(){f(", b",a);}", 5),
    Refused(b"int f(){f(a", b";}", 5),
    Refused(b"int f(){f(a,", b");}", 5),
    Refused(b"int f(){f(a ", b"b);}", 5),
    Refused(b"int f(){a[", b"];}", 5),
];

const IN_EXPRESSIONS: [Refused; 25] = [
    Refused(b"int f(){a[1", b";}", 5),
    Refused(b"int f(){a[1]", b"[2];}", 5),
    Refused(b"int f(){f(1)", b"(2);}", 5),
    Refused(b"int f(){f(1)", b"[2];}", 5),
    Refused(b"int f(){(a)", b"(b);}", 5),
    Refused(b"int f(){(a)", b"[b];}", 5),
    Refused(b"int f(){1", b"(2);}", 5),
    Refused(b"int f(){a-", b">b;}", 5),
    Refused(b"int f(){a++ ", b"b;}", 5),
    Refused(b"int f(){++", b";}", 5),
    Refused(b"int f(){!", b";}", 5),
    Refused(b"int f(){++(", b"int)a;}", 5),
    Refused(b"int f(){", b"sizeof a;}", 5),
    Refused(b"int f(){", b"goto x;}", 5),
    Refused(b"int f(){a", b":b;}", 5),
    Refused(b"int f(){", b"else;}", 5),
    Refused(b"int f(){if ", b"a;}", 5),
    Refused(b"int f(){if(", b");}", 5),
    Refused(b"int f(){if(a", b";}", 5),
    Refused(b"int f(){if(a)", b"}", 5),
    Refused(b"int f(){if(a)b ", b"else c;}", 5),
    Refused(b"int f(){if(a);else", b"}", 5),
    Refused(b"int f(){if(a);else;", b"else;}", 5),
    Refused(b"int f(){if(a)", b"int b;}", 5),
    Refused(b"int f(){while", b";}", 5),
];

const IN_STATEMENTS: [Refused; 41] = [
    Refused(b"int f(){while(", b");}", 5),
    Refused(b"int f(){while(a)", b"int b;}", 5),
    Refused(b"int f(){do a;", b"}", 5),
    Refused(b"int f(){do a ", b"while(b);}", 5),
    Refused(b"int f(){do;while", b";}", 5),
    Refused(b"int f(){do;while(a)", b"}", 5),
    Refused(b"int f(){for", b";}", 5),
    Refused(b"int f(){for(", b");}", 5),
    Refused(b"int f(){for(a", b")b;}", 5),
    Refused(b"int f(){for(;", b");}", 5),
    Refused(b"int f(){for(;;", b"}", 5),
    Refused(b"int f(){for(;;", b";);}", 5),
    Refused(b"int f(){for(;;)", b"}", 5),
    Refused(b"int f(){for(int", b";;);}", 5),
    Refused(b"int f(){for(;", b"int i;);}", 5),
    Refused(b"int f(){switch", b"{}}", 5),
    Refused(b"int f(){switch(a)", b"b;}", 5),
    Refused(b"int f(){switch(a){", b"", 5),
    Refused(b"int f(){case ", b":;}", 5),
    Refused(b"int f(){case 1", b";}", 5),
    Refused(b"int f(){case 1:", b"}", 5),
    Refused(b"int f(){case a", b"=1:;}", 5),
    Refused(b"int f(){case a", b",b:;}", 5),
    Refused(b"int f(){default", b";}", 5),
    Refused(b"int f(){default:", b"}", 5),
    Refused(b"int f(){default:", b"int a;}", 5),
    Refused(b"int f(){break", b"}", 5),
    Refused(b"int f(){break ", b"1;}", 5),
    Refused(b"int f(){continue ", b"a;}", 5),
    Refused(b"int f(){return", b"}", 5),
    Refused(b"int f(){return a", b"}", 5),
    Refused(b"int f(){return ", b"int;}", 5),
    Refused(b"int f(){int", b"}", 5),
    Refused(b"int f(){int a", b"}", 5),
    Refused(b"int f(){int a;", b"", 5),
    Refused(b"int f(){int a=", b"}", 5),
    Refused(b"int f(){void", b"}", 5),
    Refused(b"int f(){void a", b";}", 5),
    Refused(b"int f(){int g()", b"{}}", 5),
    Refused(b"int f(){int g(int", b"{}}", 5),
    Refused(b"int f(){", b"extern int a;}", 5),
];

/// The rules of tokens come before those of the grammar.
const TOKENS: [Refused; 16] = [
    Refused(b"", b"@", 1),
    Refused(b"int x;", b"$", 1),
    Refused(b"int f(){a", b".b;}", 1),
    Refused(b"", b"\"s\"", 1),
    Refused(b"int x; ", b"#include <stdio.h>", 1),
    Refused(b"", b"#define", 1),
    Refused(b"int x=", b"09;", 2),
    Refused(b"int x=", b"1l;", 2),
    Refused(b"int x=", b"0x;", 2),
    Refused(b"int x=", b"1.5;", 2),
    Refused(b"int x=", b"1uu;", 2),
    Refused(b"int x=", b"'';", 2),
    Refused(b"int x=", b"'ab';", 2),
    Refused(b"int x;", b"/* a", 3),
    Refused(b"int ", b"/*/ x;", 3),
    Refused(
        b"int ",
        b"aaaaaaaaaaaaaaaaaaaaaaaaaaaaaaaaaaaaaaaaaaaaaaaaaaaaaaaaaaaaaaaa;",
        4,
    ),
];

#[test]
fn first_bad_token_is_told(rt: HostRuntime) {
    let alloc = rt.alloc();
    check(&rt, alloc, "in declarations", &IN_DECLARATIONS);
    check(&rt, alloc, "in operators", &IN_OPERATORS);
    check(&rt, alloc, "in expressions", &IN_EXPRESSIONS);
    check(&rt, alloc, "in statements", &IN_STATEMENTS);
    check(&rt, alloc, "tokens", &TOKENS);
}
