//! Frames and weights of sources, and sources against the limits on frames, weights and statics (rules 41 to 43) in the layouts of the
//! pdp11 and mips descriptions.

use crate::rows::check;
use crate::typing::{BOTH, typed_of};
use c_examples::page::Page;
use c_examples::rows::Row;
use c_limits::{frame_of, weight_of, within};
use rtl_word::{W16, W32, Word};
use std::alloc::Global;
use vp_io::Reason;

/// A source, as what stands before a text, how often that stands, and what stands behind; the word; and the rule that is told in
/// line 1 with its column, or rule 0 where the source is within the limits.
struct Measured(&'static str, &'static str, usize, &'static str, u8, u8, u32);

const ROWS: [Measured; 39] = [
    Measured(
        "int main(void){int a[8000];return 0;}",
        "",
        0,
        "",
        32,
        41,
        5,
    ),
    Measured("int main(void){int a[8000];return 0;}", "", 0, "", 16, 0, 0),
    Measured(
        "int main(void){int a[15975];return 0;}",
        "",
        0,
        "",
        16,
        0,
        0,
    ),
    Measured(
        "int main(void){int a[15976];return 0;}",
        "",
        0,
        "",
        16,
        41,
        5,
    ),
    Measured("int main(void){int a[7975];return 0;}", "", 0, "", 32, 0, 0),
    Measured(
        "int main(void){int a[7976];return 0;}",
        "",
        0,
        "",
        32,
        41,
        5,
    ),
    Measured(
        "int main(void){char a[31950];return 0;}",
        "",
        0,
        "",
        16,
        0,
        0,
    ),
    Measured(
        "int main(void){char a[31951];return 0;}",
        "",
        0,
        "",
        16,
        41,
        5,
    ),
    Measured(
        "int main(void){char a[31900];return 0;}",
        "",
        0,
        "",
        32,
        0,
        0,
    ),
    Measured(
        "int main(void){char a[31901];return 0;}",
        "",
        0,
        "",
        32,
        41,
        5,
    ),
    Measured(
        "int f(int a,int b){char c[31944];int d;return 0;}int main(void){return 0;}",
        "",
        0,
        "",
        16,
        0,
        0,
    ),
    Measured(
        "int f(int a,int b){char c[31945];int d;return 0;}int main(void){return 0;}",
        "",
        0,
        "",
        16,
        41,
        5,
    ),
    Measured(
        "int g(void){return 0;}int f(void){int a[16000];return 0;}int main(void){return 0;}",
        "",
        0,
        "",
        16,
        41,
        27,
    ),
    Measured(
        "int f(void){int a[16000];return 0;}int g(void){int a[16000];return 0;}int main(void){return 0;}",
        "",
        0,
        "",
        16,
        41,
        5,
    ),
    Measured(
        "int f(int a,int b,int c){return a;}int main(void){char a[31940];return f(1,2,3);}",
        "",
        0,
        "",
        16,
        0,
        0,
    ),
    Measured(
        "int f(int a,int b,int c){return a;}int main(void){char a[31941];return f(1,2,3);}",
        "",
        0,
        "",
        16,
        41,
        40,
    ),
    Measured(
        "int main(void){char c;char a[31934];c=1;return 0;}",
        "",
        0,
        "",
        16,
        0,
        0,
    ),
    Measured(
        "int main(void){char c;char a[31935];c=1;return 0;}",
        "",
        0,
        "",
        16,
        41,
        5,
    ),
    Measured("int main(void){", "if(1);", 1195, ";;}", BOTH, 0, 0),
    Measured("int main(void){", "if(1);", 1195, ";;;}", BOTH, 42, 5),
    Measured(
        "int main(void){int a[919]={",
        "1,",
        919,
        "};return 0;}",
        BOTH,
        0,
        0,
    ),
    Measured(
        "int main(void){int a[920]={",
        "1,",
        919,
        "};return 0;}",
        BOTH,
        42,
        5,
    ),
    Measured(
        "int main(void){int a[920]={",
        "1,",
        920,
        "};return 0;}",
        BOTH,
        42,
        5,
    ),
    Measured(
        "int f(void){",
        "if(1);",
        1190,
        "}int main(void){return 0;}",
        16,
        42,
        7158,
    ),
    Measured(
        "int f(void){",
        "if(1);",
        1190,
        "}int main(void){return 0;}",
        32,
        0,
        0,
    ),
    Measured(
        "int f(void){",
        "if(1);",
        1190,
        "}int main(void){}",
        16,
        0,
        0,
    ),
    Measured(
        "int f(void){",
        "if(1);",
        1196,
        "}int main(void){int a[16000];return 0;}",
        16,
        42,
        5,
    ),
    Measured(
        "int main(void){int a[16000];",
        "if(1);",
        1196,
        "}",
        16,
        41,
        5,
    ),
    Measured(
        "char a[39936u];int main(void){return 0;}",
        "",
        0,
        "",
        16,
        0,
        0,
    ),
    Measured(
        "char a[39937u];int main(void){return 0;}",
        "",
        0,
        "",
        16,
        43,
        6,
    ),
    Measured(
        "int a[19968];int main(void){return 0;}",
        "",
        0,
        "",
        16,
        0,
        0,
    ),
    Measured(
        "int a[19969];int main(void){return 0;}",
        "",
        0,
        "",
        16,
        43,
        5,
    ),
    Measured(
        "char a[39934u];int b;int main(void){return 0;}",
        "",
        0,
        "",
        16,
        0,
        0,
    ),
    Measured(
        "char a[39935u];int b;int main(void){return 0;}",
        "",
        0,
        "",
        16,
        43,
        20,
    ),
    Measured(
        "char b[39936u];int a;char c;int a=1;int main(void){return 0;}",
        "",
        0,
        "",
        16,
        43,
        20,
    ),
    Measured(
        "char a[1048576],b[1048576],c[1044480];int main(void){return 0;}",
        "",
        0,
        "",
        32,
        0,
        0,
    ),
    Measured(
        "char a[1048576],b[1048576],c[1044481];int main(void){return 0;}",
        "",
        0,
        "",
        32,
        43,
        28,
    ),
    Measured(
        "char b[39937u];int main(void){int a[16000];return 0;}",
        "",
        0,
        "",
        16,
        43,
        6,
    ),
    Measured(
        "int main(void){int a[16000];return 0;}char b[39937u];",
        "",
        0,
        "",
        16,
        41,
        5,
    ),
];

/// The rule that is told of a source and its column, which is in line 1; zeros where it is within the limits.
fn measured_on_pdp11(alloc: Global, source: &[u8]) -> (u8, u32) {
    match typed_of::<W16>(alloc, source) {
        Ok(tree) => answered(within::<W16>(&tree, 57_344, 1_024, 16_384)),
        Err(_) => (255, 0),
    }
}

fn measured_on_mips(alloc: Global, source: &[u8]) -> (u8, u32) {
    match typed_of::<W32>(alloc, source) {
        Ok(tree) => answered(within::<W32>(&tree, 4_194_304, 4_096, 1_048_576)),
        Err(_) => (255, 0),
    }
}

fn answered(answer: Result<(), Reason>) -> (u8, u32) {
    match answer {
        Ok(()) => (0, 0),
        Err(r) if r.line == 1 && r.detail == 0 => (r.rule, r.column),
        Err(_) => (254, 0),
    }
}

impl Row for Measured {
    fn holds(&self, alloc: Global) -> bool {
        let mut page = Page::new(alloc);
        page.put(self.0.as_bytes());
        for _ in 0..self.2 {
            page.put(self.1.as_bytes());
        }
        page.put(self.3.as_bytes());
        match page.text() {
            Some(source) => {
                let wanted = (self.5, self.6);
                let on_16 = self.4 == 32 || measured_on_pdp11(alloc, source) == wanted;
                let on_32 = self.4 == 16 || measured_on_mips(alloc, source) == wanted;
                on_16 && on_32
            }
            None => false,
        }
    }
}

#[test]
fn limits_are_told(rt: HostRuntime) {
    check(&rt, rt.alloc(), "limits", &ROWS);
}

/// A source, and of its first function the frame where a word has 16 bits and where it has 32, and the weight.
struct Framed(&'static str, u64, u64, u64);

const FRAMES: [Framed; 6] = [
    Framed("int main(void){}", 46, 92, 48),
    Framed("int main(void){return 0;}", 50, 100, 53),
    Framed("int main(void){int a[8000];return 0;}", 16_050, 32_100, 53),
    Framed(
        "int d(int n){if(n==0)return 0;return 1+d(n-1);}int main(void){return d(228);}",
        68,
        136,
        91,
    ),
    Framed(
        "int d(int n);int main(void){return d(228);}int d(int n){return n;}",
        54,
        108,
        60,
    ),
    Framed("int main(void){char c;c=1;}", 66, 132, 60),
];

fn is_framed<W: Word>(alloc: Global, source: &str, frame: u64, weight: u64) -> bool {
    match typed_of::<W>(alloc, source.as_bytes()) {
        Ok(tree) => match tree.functions.as_slice() {
            [f, ..] => frame_of::<W>(f) == frame && weight_of(f) == weight,
            [] => false,
        },
        Err(_) => false,
    }
}

impl Row for Framed {
    fn holds(&self, alloc: Global) -> bool {
        is_framed::<W16>(alloc, self.0, self.1, self.3)
            && is_framed::<W32>(alloc, self.0, self.2, self.3)
    }
}

#[test]
fn frames_and_weights(rt: HostRuntime) {
    check(&rt, rt.alloc(), "frames", &FRAMES);
}
