//! Which tree a source has.

use crate::page::Page;
use crate::printed::is_printed;
use crate::rows::{Row, check};
use crate::sources::tree_of;
use std::alloc::Global;

/// Whether a source has the tree that is printed so.
fn has_tree(alloc: Global, source: &[u8], text: &[u8]) -> bool {
    match tree_of(alloc, source) {
        Ok(tree) => is_printed(alloc, &tree, text),
        Err(_) => false,
    }
}

/// A function with these statements.
fn function(alloc: Global, statements: &[u8]) -> Page {
    let mut page = Page::new(alloc);
    page.put(b"int f(){");
    page.put(statements);
    page.put(b"}");
    page
}

/// Statements, and their trees as text.
struct Statements(&'static [u8], &'static [u8]);

impl Row for Statements {
    fn holds(&self, alloc: Global) -> bool {
        let source = function(alloc, self.0);
        let expected = function(alloc, self.1);
        match (source.text(), expected.text()) {
            (Some(source), Some(expected)) => has_tree(alloc, source, expected),
            _ => false,
        }
    }
}

const STATEMENTS: [Statements; 76] = [
    Statements(b"a+b*c;", b"(a + (b * c));"),
    Statements(b"a*b+c;", b"((a * b) + c);"),
    Statements(b"a-b-c;", b"((a - b) - c);"),
    Statements(b"a<<b+c;", b"(a << (b + c));"),
    Statements(b"a+b<<c;", b"((a + b) << c);"),
    Statements(b"a<b<<c;", b"(a < (b << c));"),
    Statements(b"a==b<c;", b"(a == (b < c));"),
    Statements(b"a<b==c;", b"((a < b) == c);"),
    Statements(b"a&b==c;", b"(a & (b == c));"),
    Statements(b"a^b&c;", b"(a ^ (b & c));"),
    Statements(b"a|b^c;", b"(a | (b ^ c));"),
    Statements(b"a&&b|c;", b"(a && (b | c));"),
    Statements(b"a||b&&c;", b"(a || (b && c));"),
    Statements(b"a&&b||c;", b"((a && b) || c);"),
    Statements(b"a?b:c||d;", b"(a ? b : (c || d));"),
    Statements(b"a||b?c:d;", b"((a || b) ? c : d);"),
    Statements(b"a=b?c:d;", b"(a = (b ? c : d));"),
    Statements(b"a=b=c;", b"(a = (b = c));"),
    Statements(b"a,b=c,d;", b"((a , (b = c)) , d);"),
    Statements(b"a?b:c?d:e;", b"(a ? b : (c ? d : e));"),
    Statements(b"a?b,c:d;", b"(a ? (b , c) : d);"),
    Statements(b"a?b=c:d;", b"(a ? (b = c) : d);"),
    Statements(b"(int)a*b;", b"(((int)a) * b);"),
    Statements(b"(int)(a)*b;", b"(((int)<a>) * b);"),
    Statements(b"(int)-a;", b"((int)(-a));"),
    Statements(b"(a)-b;", b"(<a> - b);"),
    Statements(b"(unsigned char)(char)a;", b"((unsigned char)((char)a));"),
    Statements(b"-a*b;", b"((-a) * b);"),
    Statements(b"!a==b;", b"((!a) == b);"),
    Statements(b"~-+!a;", b"(~(-(+(!a))));"),
    Statements(b"-(int)a;", b"(-((int)a));"),
    Statements(b"++a++;", b"(++(a++));"),
    Statements(b"++ ++a;", b"(++(++a));"),
    Statements(b"++(a);", b"(++<a>);"),
    Statements(b"a+++b;", b"((a++) + b);"),
    Statements(b"a---b;", b"((a--) - b);"),
    Statements(b"a- -b;", b"(a - (-b));"),
    Statements(b"a++ --;", b"((a++)--);"),
    Statements(b"f();", b"f();"),
    Statements(b"f(a,b=c,d);", b"f(a, (b = c), d);"),
    Statements(b"f((a,b));", b"f(<(a , b)>);"),
    Statements(b"a[b,c];", b"a[(b , c)];"),
    Statements(b"a[b]=c;", b"(a[b] = c);"),
    Statements(b"a[i]++;", b"(a[i]++);"),
    Statements(b"f(a)++;", b"(f(a)++);"),
    Statements(b"5=a;", b"(5 = a);"),
    Statements(b"-a=b;", b"((-a) = b);"),
    Statements(b"(a)=b;", b"(<a> = b);"),
    Statements(b"a+=b-=c;", b"(a += (b -= c));"),
    Statements(b"a*=b/=c%=d;", b"(a *= (b /= (c %= d)));"),
    Statements(b"a&=b^=c|=d;", b"(a &= (b ^= (c |= d)));"),
    Statements(b"a<<=b>>=c;", b"(a <<= (b >>= c));"),
    Statements(b"a%b/c*d;", b"(((a % b) / c) * d);"),
    Statements(b"a>b>=c<=d;", b"(((a > b) >= c) <= d);"),
    Statements(b"a!=b==c;", b"((a != b) == c);"),
    Statements(b"a>>b<<c;", b"((a >> b) << c);"),
    Statements(b"a^b^c;", b"((a ^ b) ^ c);"),
    Statements(b"017u+0x1F+10;", b"((15#u + 31#) + 10);"),
    Statements(b"'a'+'\\377';", b"('97' + '-1');"),
    Statements(b"if(a)if(b)c;else d;", b"if(a)[if(b)[c;]else[d;]]"),
    Statements(
        b"if(a)b;else if(c)d;else e;",
        b"if(a)[b;]else[if(c)[d;]else[e;]]",
    ),
    Statements(b"if(a){if(b)c;}else d;", b"if(a)[{if(b)[c;]}]else[d;]"),
    Statements(
        b"if(a)while(b)if(c)d;else e;",
        b"if(a)[while(b)[if(c)[d;]else[e;]]]",
    ),
    Statements(
        b"if(a)for(;;)if(b)c;else d;",
        b"if(a)[for(;;)[if(b)[c;]else[d;]]]",
    ),
    Statements(
        b"do if(a)b;else c;while(d);",
        b"do[if(a)[b;]else[c;]]while(d);",
    ),
    Statements(b"for(a;b;c)d;", b"for(a;b;c)[d;]"),
    Statements(b"for(a,b;;c,d);", b"for((a , b);;(c , d))[;]"),
    Statements(
        b"for(int i=1;i<n;i++){}",
        b"for(int i = 1;(i < n);(i++))[{}]",
    ),
    Statements(
        b"switch(a){case 1:b;break;default:c;}",
        b"switch(a){case 1:[b;]break;default:[c;]}",
    ),
    Statements(
        b"switch(a){case 1:case 2+3:b;}",
        b"switch(a){case 1:[case (2 + 3):[b;]]}",
    ),
    Statements(b"return;return a,b;", b"return ;return (a , b);"),
    Statements(b";{}{a;{b;}}", b";{}{a;{b;}}"),
    Statements(
        b"int a=1,b[2]={1,2},c[]={1,};",
        b"int a = 1, b[2] = {1, 2}, c[] = {1,};",
    ),
    Statements(b"int a[1]={b=c,};", b"int a[1] = {(b = c),};"),
    Statements(
        b"int f(void);void g(int,char c);",
        b"int f(void);void g(int, char c);",
    ),
    Statements(b"continue;break;a;", b"continue;break;a;"),
];

#[test]
fn statements_have_trees(rt: HostRuntime) {
    check(&rt, rt.alloc(), "statements", &STATEMENTS);
}

/// A program, and its tree as text.
struct Program(&'static [u8], &'static [u8]);

impl Row for Program {
    fn holds(&self, alloc: Global) -> bool {
        has_tree(alloc, self.0, self.1)
    }
}

/// Counts the letters of a line, and writes them backwards.
const LETTERS: &[u8] = b"#include <stdio.h>
int count[26];
char line[16];
int main(void)
{
    int c, n, i;
    n = 0;
    while ((c = getchar()) != EOF) {
        switch (c) {
        case ' ':
        case '\\n':
            break;
        default: /* a letter, perhaps */
            if (c >= 'a' && c <= 'z') {
                count[c - 'a']++;
                if (n < 16) line[n++] = c;
            }
        }
    }
    for (i = 0; i < 26; i++)
        if (count[i] > 1) { putchar('a' + i); putchar('0' + count[i] % 10); }
    putchar('\\n');
    for (i = n - 1; i >= 0; i--) putchar(line[i]);
    putchar('\\n');
    return n;
}
";

const LETTERS_TREE: &[u8] =
    b"#int count[26];char line[16];int main(void){int c, n, i;(n = 0#);while((<(c = getchar())> != EOF))[{switch(c){case '32':[case '10':[break;]]default:[if(((c >= '97') && (c <= '122')))[{(count[(c - '97')]++);if((n < 16))[(line[(n++)] = c);]}]]}}]for((i = 0#);(i < 26);(i++))[if((count[i] > 1))[{putchar(('97' + i));putchar(('48' + (count[i] % 10)));}]]putchar('10');for((i = (n - 1));(i >= 0#);(i--))[putchar(line[i]);]putchar('10');return n;}";

const PROGRAMS: [Program; 14] = [
    Program(b"int main(void){return 1;}", b"int main(void){return 1;}"),
    Program(
        b"char signed a;unsigned char b;char unsigned c;",
        b"char signed a;unsigned char b;char unsigned c;",
    ),
    Program(
        b"int signed d;signed int e;int unsigned f;unsigned int g;",
        b"int signed d;signed int e;int unsigned f;unsigned int g;",
    ),
    Program(
        b"signed h;unsigned i;char j;signed char k;",
        b"signed h;unsigned i;char j;signed char k;",
    ),
    Program(b"void f();void f(void){}", b"void f();void f(void){}"),
    Program(b"int f(int a,char){}int g;", b"int f(int a, char){}int g;"),
    Program(
        b"unsigned int f(signed char a,int unsigned);",
        b"unsigned int f(signed char a, int unsigned);",
    ),
    Program(b"int a[]={1,2,},b;", b"int a[] = {1, 2,}, b;"),
    Program(b"int a[1<2?3:4];", b"int a[((1 < 2) ? 3 : 4)];"),
    Program(
        b"int a[3]={1,2,3},b=a?b:c;",
        b"int a[3] = {1, 2, 3}, b = (a ? b : c);",
    ),
    Program(b"#include <stdio.h>\nint x;", b"#int x;"),
    Program(b"int x; // end", b"int x;"),
    Program(b"int/* a */x;", b"int x;"),
    Program(LETTERS, LETTERS_TREE),
];

#[test]
fn programs_have_trees(rt: HostRuntime) {
    check(&rt, rt.alloc(), "programs", &PROGRAMS);
}
