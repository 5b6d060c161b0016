//! Typed trees as text. Each node has its type behind it: `c` and `C` are the signed and the unsigned char, `i` int, `u` unsigned
//! and `v` void. A conversion stands before its operand, as in `u(1i)`. `S0`, `P0` and `L0` are the first static, parameter and
//! local, and `F0` is the first function. A statement within another stands in brackets: `if(1i)[;]`.
#![tactic(auto)]

use c_examples::operators::{binary, compound, step, unary};
use c_examples::page::Page;
use c_tree::typed::{Callee, Head, Local, LocalInit, Operation, Start, Variable};
use c_tree::{CType, Function, Object, Stat, Static, Typed, TypedExpr};
use std::alloc::Global;

/// A page, and whether the columns of expressions are wanted.
#[derive(Drop)]
struct Printer {
    page: Page,
    columns: bool,
}

fn operation(operation: Operation) -> &'static [u8] {
    match operation {
        Operation::Operator(o) => compound(o),
        Operation::Helper(_) => b" helper= ",
    }
}

fn letter(of: CType) -> &'static [u8] {
    match of {
        CType::Schar => b"c",
        CType::Uchar => b"C",
        CType::Int => b"i",
        CType::Unsigned => b"u",
        CType::Void => b"v",
    }
}

impl Printer {
    fn put(&mut self, bytes: &[u8]) {
        self.page.put(bytes);
    }

    fn number(&mut self, value: u32) {
        self.page.number(u64::from(value));
    }

    fn numbered(&mut self, kind: &[u8], number: u32) {
        self.put(kind);
        self.number(number);
    }

    /// The type of a node, and its column where columns are wanted.
    fn head(&mut self, head: Head) {
        self.put(letter(head.of));
        if self.columns {
            self.numbered(b"@", head.at.column);
        }
    }

    fn variable(&mut self, variable: Variable) {
        match variable {
            Variable::Static(number) => self.numbered(b"S", number),
            Variable::Parameter(number) => self.numbered(b"P", number),
            Variable::Local(number) => self.numbered(b"L", number),
        }
    }

    fn callee(&mut self, callee: Callee) {
        match callee {
            Callee::Defined(number) => self.numbered(b"F", number),
            Callee::Getchar => self.put(b"getchar"),
            Callee::Putchar => self.put(b"putchar"),
        }
    }

    /// What ends a node with operators.
    fn closed(&mut self, head: Head) {
        self.put(b")");
        self.head(head);
    }

    fn expr(&mut self, e: &TypedExpr) {
        match e {
            TypedExpr::Comma(h, a, b) => {
                self.put(b"(");
                self.expr(a.get());
                self.put(b" , ");
                self.expr(b.get());
                self.closed(*h);
            }
            TypedExpr::Assign(h, a, b) => {
                self.put(b"(");
                self.expr(a.get());
                self.put(b" = ");
                self.expr(b.get());
                self.closed(*h);
            }
            TypedExpr::Compound(h, a, o, b) => {
                self.put(b"(");
                self.expr(a.get());
                self.put(operation(*o));
                self.expr(b.get());
                self.closed(*h);
            }
            TypedExpr::Binary(h, a, o, b) => {
                self.put(b"(");
                self.expr(a.get());
                self.put(binary(*o));
                self.expr(b.get());
                self.closed(*h);
            }
            TypedExpr::Conditional(h, a, b, c) => {
                self.put(b"(");
                self.expr(a.get());
                self.put(b" ? ");
                self.expr(b.get());
                self.put(b" : ");
                self.expr(c.get());
                self.closed(*h);
            }
            TypedExpr::Unary(h, o, a) => {
                self.put(b"(");
                self.put(unary(*o));
                self.expr(a.get());
                self.closed(*h);
            }
            TypedExpr::Before(h, o, a) => {
                self.put(b"(");
                self.put(step(*o));
                self.expr(a.get());
                self.closed(*h);
            }
            TypedExpr::After(h, a, o) => {
                self.put(b"(");
                self.expr(a.get());
                self.put(step(*o));
                self.closed(*h);
            }
            TypedExpr::Constant(h, value) => {
                self.number(*value);
                self.head(*h);
            }
            TypedExpr::Object(h, x) => {
                self.variable(*x);
                self.head(*h);
            }
            TypedExpr::Element(h, x, index) => {
                self.variable(*x);
                self.put(b"[");
                self.expr(index.get());
                self.put(b"]");
                self.head(*h);
            }
            TypedExpr::Call(h, f, arguments) => {
                self.callee(*f);
                self.put(b"(");
                let mut first = true;
                for e in arguments.as_slice() {
                    self.put(if first { b"" } else { b", " });
                    first = false;
                    self.expr(e);
                }
                self.closed(*h);
            }
            TypedExpr::Convert(h, a) => {
                self.head(*h);
                self.put(b"(");
                self.expr(a.get());
                self.put(b")");
            }
        }
    }

    fn list(&mut self, es: &[TypedExpr]) {
        let mut first = true;
        for e in es {
            self.put(if first { b"" } else { b", " });
            first = false;
            self.expr(e);
        }
    }

    fn optional(&mut self, e: &Option<TypedExpr>) {
        match e {
            None => {}
            Some(e) => self.expr(e),
        }
    }

    fn init(&mut self, init: &LocalInit) {
        match init {
            LocalInit::Absent => {}
            LocalInit::Value(e) => {
                self.put(b"=");
                self.expr(e);
            }
            LocalInit::List(es) => {
                self.put(b"={");
                self.list(es.as_slice());
                self.put(b"}");
            }
        }
    }

    fn locals(&mut self, locals: &[Local]) {
        self.put(b"let");
        for local in locals {
            self.numbered(b" ", local.number);
            self.init(&local.init);
        }
    }

    fn start(&mut self, start: &Start) {
        match start {
            Start::Absent => {}
            Start::Value(e) => self.expr(e),
            Start::Declared(_, locals) => self.locals(locals.as_slice()),
        }
    }

    /// A word, and an expression in parentheses.
    fn controlled(&mut self, word: &[u8], e: &TypedExpr) {
        self.put(word);
        self.put(b"(");
        self.expr(e);
        self.put(b")");
    }

    fn statement(&mut self, s: &Stat) {
        match s {
            Stat::Block(_, statements) => {
                self.put(b"{");
                for inner in statements.as_slice() {
                    self.statement(inner.get());
                }
                self.put(b"}");
            }
            Stat::Declare(_, locals) => {
                self.locals(locals.as_slice());
                self.put(b";");
            }
            Stat::Evaluate(_, e) => {
                self.optional(e);
                self.put(b";");
            }
            Stat::If(_, e, then, other) => {
                self.controlled(b"if", e);
                self.put(b"[");
                self.statement(then.get());
                self.put(b"]");
                match other {
                    None => {}
                    Some(other) => {
                        self.put(b"else[");
                        self.statement(other.get());
                        self.put(b"]");
                    }
                }
            }
            Stat::While(_, e, body) => {
                self.controlled(b"while", e);
                self.put(b"[");
                self.statement(body.get());
                self.put(b"]");
            }
            Stat::DoWhile(_, body, e) => {
                self.put(b"do[");
                self.statement(body.get());
                self.put(b"]");
                self.controlled(b"while", e);
                self.put(b";");
            }
            Stat::For(_, start, test, step, body) => {
                self.put(b"for(");
                self.start(start);
                self.put(b";");
                self.optional(test);
                self.put(b";");
                self.optional(step);
                self.put(b")[");
                self.statement(body.get());
                self.put(b"]");
            }
            Stat::Switch(_, e, statements) => {
                self.controlled(b"switch", e);
                self.put(b"{");
                for inner in statements.as_slice() {
                    self.statement(inner.get());
                }
                self.put(b"}");
            }
            Stat::Case(_, value, body) => {
                self.numbered(b"case ", *value);
                self.put(b":");
                self.statement(body.get());
            }
            Stat::Default(_, body) => {
                self.put(b"default:");
                self.statement(body.get());
            }
            Stat::Break(_) => self.put(b"break;"),
            Stat::Continue(_) => self.put(b"continue;"),
            Stat::Return(_, e) => {
                self.put(b"return ");
                self.optional(e);
                self.put(b";");
            }
        }
    }

    fn object(&mut self, o: &Object) {
        self.put(letter(o.element));
        self.put(b" ");
        self.put(o.name.as_slice());
        match o.length {
            None => {}
            Some(length) => {
                self.numbered(b"[", length);
                self.put(b"]");
            }
        }
    }

    fn objects(&mut self, objects: &[Object]) {
        let mut first = true;
        for o in objects {
            self.put(if first { b"" } else { b", " });
            first = false;
            self.object(o);
        }
    }

    /// A static, with the listed values behind its name.
    fn static_object(&mut self, x: &Static) {
        self.object(&x.object);
        for value in x.init.as_slice() {
            self.numbered(b" ", *value);
        }
        self.put(b"; ");
    }

    /// A function: its parameters, its locals, and its body.
    fn function(&mut self, f: &Function) {
        self.put(letter(f.result));
        self.put(b" ");
        self.put(f.name.as_slice());
        self.put(b"(");
        self.objects(f.params.as_slice());
        self.put(b"|");
        self.objects(f.locals.as_slice());
        self.put(b")");
        self.statement(f.body.get());
    }
}

/// A tree on a page, with the column of each expression where `columns` holds.
pub fn text_of(alloc: Global, t: &Typed, columns: bool) -> Page {
    let mut printer = Printer {
        page: Page::new(alloc),
        columns,
    };
    for x in t.statics.as_slice() {
        printer.static_object(x);
    }
    let mut first = true;
    for f in t.functions.as_slice() {
        printer.put(if first { b"" } else { b" " });
        first = false;
        printer.function(f);
    }
    printer.page
}
