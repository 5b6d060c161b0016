//! Trees as text, with brackets round each operation: `(a + (b * c))`. A parenthesis of the source
//! is printed as `<a>`, a statement within another as `[a;]`, and a number that isn't decimal with `#`.

use crate::operators::{binary, compound, step, unary};
use crate::page::Page;
use c_tree::syntax::{
    AssignOperator, Declaration, Expr, External, Initialiser, Item, Parameter, Parameters, Return,
    Size, Start, Statement, Syntax, TypeWords,
};
use std::alloc::Global;

fn assign(operator: AssignOperator) -> &'static [u8] {
    match operator {
        AssignOperator::Plain => b" = ",
        AssignOperator::Compound(o) => compound(o),
    }
}

fn words(words: TypeWords) -> &'static [u8] {
    match words {
        TypeWords::Char => b"char",
        TypeWords::SignedChar => b"signed char",
        TypeWords::CharSigned => b"char signed",
        TypeWords::UnsignedChar => b"unsigned char",
        TypeWords::CharUnsigned => b"char unsigned",
        TypeWords::Int => b"int",
        TypeWords::Signed => b"signed",
        TypeWords::SignedInt => b"signed int",
        TypeWords::IntSigned => b"int signed",
        TypeWords::Unsigned => b"unsigned",
        TypeWords::UnsignedInt => b"unsigned int",
        TypeWords::IntUnsigned => b"int unsigned",
    }
}

impl Page {
    fn constant(&mut self, value: u64, decimal: bool, unsigned: bool) {
        self.number(value);
        if !decimal {
            self.put(b"#");
        }
        if unsigned {
            self.put(b"u");
        }
    }

    fn expr(&mut self, e: &Expr) {
        match e {
            Expr::Comma(_, a, b) => {
                self.put(b"(");
                self.expr(a.get());
                self.put(b" , ");
                self.expr(b.get());
                self.put(b")");
            }
            Expr::Assign(_, a, o, b) => {
                self.put(b"(");
                self.expr(a.get());
                self.put(assign(*o));
                self.expr(b.get());
                self.put(b")");
            }
            Expr::Binary(_, a, o, b) => {
                self.put(b"(");
                self.expr(a.get());
                self.put(binary(*o));
                self.expr(b.get());
                self.put(b")");
            }
            Expr::Conditional(_, a, b, c) => {
                self.put(b"(");
                self.expr(a.get());
                self.put(b" ? ");
                self.expr(b.get());
                self.put(b" : ");
                self.expr(c.get());
                self.put(b")");
            }
            Expr::Cast(_, w, e) => {
                self.put(b"((");
                self.put(words(*w));
                self.put(b")");
                self.expr(e.get());
                self.put(b")");
            }
            Expr::Unary(_, o, e) => {
                self.put(b"(");
                self.put(unary(*o));
                self.expr(e.get());
                self.put(b")");
            }
            Expr::Before(_, o, e) => {
                self.put(b"(");
                self.put(step(*o));
                self.expr(e.get());
                self.put(b")");
            }
            Expr::After(_, e, o) => {
                self.put(b"(");
                self.expr(e.get());
                self.put(step(*o));
                self.put(b")");
            }
            Expr::Name(_, n) => self.put(n.as_slice()),
            Expr::Element(_, n, e) => {
                self.put(n.as_slice());
                self.put(b"[");
                self.expr(e.get());
                self.put(b"]");
            }
            Expr::Call(_, n, es) => {
                self.put(n.as_slice());
                self.put(b"(");
                let mut first = true;
                for e in es.as_slice() {
                    self.put(if first { b"" } else { b", " });
                    first = false;
                    self.expr(e);
                }
                self.put(b")");
            }
            Expr::Number {
                value,
                decimal,
                unsigned,
                ..
            } => self.constant(*value, *decimal, *unsigned),
            Expr::Character(_, v) => self.character(*v),
            Expr::Paren(_, e) => {
                self.put(b"<");
                self.expr(e.get());
                self.put(b">");
            }
        }
    }

    fn list(&mut self, es: &[Expr]) {
        let mut first = true;
        for e in es {
            self.put(if first { b"" } else { b", " });
            first = false;
            self.expr(e);
        }
    }

    fn size(&mut self, size: &Size) {
        match size {
            Size::Scalar => {}
            Size::Absent => self.put(b"[]"),
            Size::Given(e) => {
                self.put(b"[");
                self.expr(e);
                self.put(b"]");
            }
        }
    }

    fn initialiser(&mut self, initialiser: &Initialiser) {
        match initialiser {
            Initialiser::Absent => {}
            Initialiser::Value(e) => {
                self.put(b" = ");
                self.expr(e);
            }
            Initialiser::List(_, es, comma) => {
                self.put(b" = {");
                self.list(es.as_slice());
                self.put(if *comma { b",}" } else { b"}" });
            }
        }
    }

    fn item(&mut self, item: &Item) {
        self.put(item.name.bytes.as_slice());
        self.size(&item.size);
        self.initialiser(&item.initialiser);
    }

    fn items(&mut self, items: &[Item]) {
        let mut first = true;
        for item in items {
            self.put(if first { b" " } else { b", " });
            first = false;
            self.item(item);
        }
        self.put(b";");
    }

    fn parameter(&mut self, parameter: &Parameter) {
        self.put(words(parameter.words));
        match &parameter.name {
            None => {}
            Some(name) => {
                self.put(b" ");
                self.put(name.bytes.as_slice());
            }
        }
    }

    fn parameters(&mut self, parameters: &Parameters) {
        match parameters {
            Parameters::Empty => self.put(b"()"),
            Parameters::Void => self.put(b"(void)"),
            Parameters::List(list) => {
                let mut first = true;
                for parameter in list.as_slice() {
                    self.put(if first { b"(" } else { b", " });
                    first = false;
                    self.parameter(parameter);
                }
                self.put(b")");
            }
        }
    }

    fn function(&mut self, gives: &Return, name: &[u8], parameters: &Parameters) {
        match gives {
            Return::Void => self.put(b"void"),
            Return::Value(w) => self.put(words(*w)),
        }
        self.put(b" ");
        self.put(name);
        self.parameters(parameters);
    }

    fn declaration(&mut self, declaration: &Declaration) {
        match declaration {
            Declaration::Objects(_, w, items) => {
                self.put(words(*w));
                self.items(items.as_slice());
            }
            Declaration::Function(_, gives, name, parameters) => {
                self.function(gives, name.bytes.as_slice(), parameters);
                self.put(b";");
            }
        }
    }

    fn optional(&mut self, e: &Option<Expr>) {
        match e {
            None => {}
            Some(e) => self.expr(e),
        }
    }

    fn start(&mut self, start: &Start) {
        match start {
            Start::Absent => self.put(b";"),
            Start::Value(e) => {
                self.expr(e);
                self.put(b";");
            }
            Start::Declared(declaration) => self.declaration(declaration),
        }
    }

    fn controlled(&mut self, word: &[u8], e: &Expr) {
        self.put(word);
        self.put(b"(");
        self.expr(e);
        self.put(b")");
    }

    fn statement(&mut self, statement: &Statement) {
        match statement {
            Statement::Block(_, statements) => {
                self.put(b"{");
                for inner in statements.as_slice() {
                    self.statement(inner);
                }
                self.put(b"}");
            }
            Statement::Declared(declaration) => self.declaration(declaration),
            Statement::Evaluate(_, e) => {
                self.optional(e);
                self.put(b";");
            }
            Statement::If(_, e, then, other) => {
                self.controlled(b"if", e);
                self.put(b"[");
                self.statement(then.get());
                self.put(b"]");
                match other {
                    None => {}
                    Some(other) => {
                        self.put(b"else[");
                        self.statement(other.get());
                        self.put(b"]");
                    }
                }
            }
            Statement::While(_, e, body) => {
                self.controlled(b"while", e);
                self.put(b"[");
                self.statement(body.get());
                self.put(b"]");
            }
            Statement::DoWhile(_, body, e) => {
                self.put(b"do[");
                self.statement(body.get());
                self.put(b"]");
                self.controlled(b"while", e);
                self.put(b";");
            }
            Statement::For(_, start, test, step, body) => {
                self.put(b"for(");
                self.start(start);
                self.optional(test);
                self.put(b";");
                self.optional(step);
                self.put(b")");
                self.put(b"[");
                self.statement(body.get());
                self.put(b"]");
            }
            Statement::Switch(_, e, statements) => {
                self.controlled(b"switch", e);
                self.put(b"{");
                for inner in statements.as_slice() {
                    self.statement(inner);
                }
                self.put(b"}");
            }
            Statement::Case(_, e, body) => {
                self.put(b"case ");
                self.expr(e);
                self.put(b":");
                self.put(b"[");
                self.statement(body.get());
                self.put(b"]");
            }
            Statement::Default(_, body) => {
                self.put(b"default:");
                self.put(b"[");
                self.statement(body.get());
                self.put(b"]");
            }
            Statement::Break(_) => self.put(b"break;"),
            Statement::Continue(_) => self.put(b"continue;"),
            Statement::Return(_, e) => {
                self.put(b"return ");
                self.optional(e);
                self.put(b";");
            }
        }
    }

    fn external(&mut self, external: &External) {
        match external {
            External::Include(_) => self.put(b"#"),
            External::Declared(declaration) => self.declaration(declaration),
            External::Defined {
                gives,
                name,
                parameters,
                body,
                ..
            } => {
                self.function(gives, name.bytes.as_slice(), parameters);
                self.put(b"{");
                for statement in body.as_slice() {
                    self.statement(statement);
                }
                self.put(b"}");
            }
        }
    }
}

/// Whether a tree is printed as this text.
pub fn is_printed(alloc: Global, tree: &Syntax, text: &[u8]) -> bool {
    let mut page = Page::new(alloc);
    for part in tree.parts.as_slice() {
        page.external(part);
    }
    page.is(text)
}
