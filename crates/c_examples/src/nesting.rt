//! How deep a source may nest.

use crate::page::Page;
use crate::rows::{Row, check};
use crate::sources::{told, tree_of};
use std::alloc::Global;

struct Nested {
    before: &'static [u8],
    open: &'static [u8],
    count: usize,
    middle: &'static [u8],
    close: &'static [u8],
    after: &'static [u8],
    column: Option<u32>,
}

impl Nested {
    fn print(&self, page: &mut Page) {
        page.put(self.before);
        for _ in 0..self.count {
            page.put(self.open);
        }
        page.put(self.middle);
        for _ in 0..self.count {
            page.put(self.close);
        }
        page.put(self.after);
    }
}

impl Row for Nested {
    /// The source has a tree, or is refused at the token that is too deep.
    fn holds(&self, alloc: Global) -> bool {
        let mut page = Page::new(alloc);
        self.print(&mut page);
        let expected = match self.column {
            Some(column) => Some((1, column, 6)),
            None => None,
        };
        match page.text() {
            Some(source) => told(&tree_of(alloc, source)) == expected,
            None => false,
        }
    }
}

/// The deepest token that may stand there, and one more; lists count nothing.
const NESTED: [Nested; 27] = [
    Nested {
        before: b"int main(void){return ",
        open: b"(",
        count: 197,
        middle: b"1",
        close: b")",
        after: b";}",
        column: None,
    },
    Nested {
        before: b"int main(void){return ",
        open: b"(",
        count: 198,
        middle: b"1",
        close: b")",
        after: b";}",
        column: Some(221),
    },
    Nested {
        before: b"int f(){",
        open: b"{",
        count: 99,
        middle: b"",
        close: b"}",
        after: b"}",
        column: None,
    },
    Nested {
        before: b"int f(){",
        open: b"{",
        count: 100,
        middle: b"",
        close: b"}",
        after: b"}",
        column: Some(108),
    },
    Nested {
        before: b"int x=",
        open: b"~",
        count: 199,
        middle: b"1",
        close: b"",
        after: b";",
        column: None,
    },
    Nested {
        before: b"int x=",
        open: b"~",
        count: 200,
        middle: b"1",
        close: b"",
        after: b";",
        column: Some(207),
    },
    Nested {
        before: b"int x=1",
        open: b"+1",
        count: 199,
        middle: b"",
        close: b"",
        after: b";",
        column: None,
    },
    Nested {
        before: b"int x=1",
        open: b"+1",
        count: 200,
        middle: b"",
        close: b"",
        after: b";",
        column: Some(407),
    },
    Nested {
        before: b"int f(){a",
        open: b",a",
        count: 197,
        middle: b"",
        close: b"",
        after: b";}",
        column: None,
    },
    Nested {
        before: b"int f(){a",
        open: b",a",
        count: 198,
        middle: b"",
        close: b"",
        after: b";}",
        column: Some(405),
    },
    Nested {
        before: b"int f(){",
        open: b"if(a)",
        count: 198,
        middle: b";",
        close: b"",
        after: b"}",
        column: None,
    },
    Nested {
        before: b"int f(){",
        open: b"if(a)",
        count: 199,
        middle: b";",
        close: b"",
        after: b"}",
        column: Some(1002),
    },
    Nested {
        before: b"int a[",
        open: b"(",
        count: 199,
        middle: b"1",
        close: b")",
        after: b"];",
        column: None,
    },
    Nested {
        before: b"int a[",
        open: b"(",
        count: 200,
        middle: b"1",
        close: b")",
        after: b"];",
        column: Some(207),
    },
    Nested {
        before: b"int x=",
        open: b"(int)",
        count: 199,
        middle: b"1",
        close: b"",
        after: b";",
        column: None,
    },
    Nested {
        before: b"int x=",
        open: b"(int)",
        count: 200,
        middle: b"1",
        close: b"",
        after: b";",
        column: Some(1007),
    },
    Nested {
        before: b"int f(){",
        open: b"a=",
        count: 98,
        middle: b"1",
        close: b"",
        after: b";}",
        column: None,
    },
    Nested {
        before: b"int f(){",
        open: b"a=",
        count: 99,
        middle: b"1",
        close: b"",
        after: b";}",
        column: Some(207),
    },
    Nested {
        before: b"int x=",
        open: b"1?1:",
        count: 198,
        middle: b"1",
        close: b"",
        after: b";",
        column: None,
    },
    Nested {
        before: b"int x=",
        open: b"1?1:",
        count: 199,
        middle: b"1",
        close: b"",
        after: b";",
        column: Some(801),
    },
    Nested {
        before: b"int x=a",
        open: b"++",
        count: 199,
        middle: b"",
        close: b"",
        after: b";",
        column: None,
    },
    Nested {
        before: b"int f(){f(0",
        open: b",a",
        count: 300,
        middle: b"",
        close: b"",
        after: b");}",
        column: None,
    },
    Nested {
        before: b"int x[]={0",
        open: b",1",
        count: 300,
        middle: b"",
        close: b"",
        after: b"};",
        column: None,
    },
    Nested {
        before: b"int x",
        open: b",y",
        count: 300,
        middle: b"",
        close: b"",
        after: b";",
        column: None,
    },
    Nested {
        before: b"int f(int",
        open: b",int",
        count: 300,
        middle: b"",
        close: b"",
        after: b");",
        column: None,
    },
    Nested {
        before: b"int f(){",
        open: b"a=b;",
        count: 300,
        middle: b"",
        close: b"",
        after: b"}",
        column: None,
    },
    Nested {
        before: b"",
        open: b"int x=1+1;",
        count: 300,
        middle: b"",
        close: b"",
        after: b"",
        column: None,
    },
];

#[test]
fn nesting_ends_at_200(rt: HostRuntime) {
    check(&rt, rt.alloc(), "nested", &NESTED);
}
