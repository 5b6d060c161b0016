//! Words over two files, and what they come to.

use vpo_top::PDP11;

/// Words over a description `d` and a source `s`: what is written, what is told on the error stream, and the status.
pub struct Case {
    pub words: &'static [&'static str],
    pub description: &'static [u8],
    pub source: &'static [u8],
    pub output: &'static [u8],
    pub told: &'static [u8],
    pub status: u8,
}

/// A description that names no stack register.
const TINY: &[u8] = b"\
vpo 1
name tiny
word 16
memory 4096
data 64
stack 1024
reg 0 a result
row set <n:word>,a | r[0] = <n>
row put | OUT = r[0]
row end | HALT = r[0]
";

/// A source that is refused for the description of the pdp11, and the line that tells why. In the order in which sources are judged: tokens,
/// grammar, types, limits, and what the machine lacks.
pub const REFUSED: [(&[u8], &[u8]); 9] = [
    (
        b"int main(void){return +;} /*",
        b"vpo: source line 1 column 27: rule 3\n",
    ),
    (
        b"int main(void){return +;}",
        b"vpo: source line 1 column 24: rule 5\n",
    ),
    (
        b"int main(void){return x;}",
        b"vpo: source line 1 column 23: rule 11\n",
    ),
    (b"int x;\n", b"vpo: source line 2 column 1: rule 31\n"),
    (
        b"int main(void){int a[16000];return 0;}",
        b"vpo: source line 1 column 5: rule 41\n",
    ),
    (
        b"int a[20000];int main(void){return 6*7;}",
        b"vpo: source line 1 column 5: rule 43\n",
    ),
    (
        b"int main(void){return 6*7;}",
        b"vpo: source line 1 column 23: rule 51\n",
    ),
    (
        b"int main(void){int x=1;\nx*=2;return x<<1;}",
        b"vpo: source line 2 column 1: rule 51\n",
    ),
    (
        b"int main(void){unsigned x=1;\nif(x+1)x>>=1;return x;}",
        b"vpo: source line 2 column 8: rule 51\n",
    ),
];

pub const COMMANDS: [Case; 4] = [
    Case {
        words: &["cc", "--plain", "d", "s"],
        description: PDP11,
        source: b"int main(void){return 6^7;}",
        output: b"",
        told: b"vpo: source line 1 column 23: rule 51\n",
        status: 67,
    },
    Case {
        words: &["cc", "d", "s"],
        description: TINY,
        source: b"int main(void){return x;}",
        output: b"",
        told: b"vpo: description line 10: rule 9 (0)\n",
        status: 66,
    },
    Case {
        words: &["cc", "d", "s"],
        description: b"vpo 1\n",
        source: b"",
        output: b"",
        told: b"vpo: description line 1: rule 4 (0)\n",
        status: 66,
    },
    Case {
        words: &["check", "d"],
        description: TINY,
        source: b"",
        output: b"",
        told: b"vpo: description line 10: rule 9 (0)\n",
        status: 66,
    },
];

/// Words that have no plain form.
pub const BAD_WORDS: [&[&str]; 24] = [
    &[],
    &["cc"],
    &["cc", "d"],
    &["cc", "d", "s", "x"],
    &["cc", "", "s"],
    &["cc", "d", "-"],
    &["cc", "--dump", "d", "s"],
    &["cc", "--plain", "d"],
    &["cc", "d", "--plain", "s"],
    &["check", ""],
    &["check", "-x"],
    &["check", "d", "s"],
    &["show", "vax"],
    &["help"],
    &["run", "d"],
    &["run", "--steps", "0", "a", "b"],
    &["run", "--steps", "07", "a", "b"],
    &["run", "--steps", "+7", "a", "b"],
    &["run", "--steps", "", "a", "b"],
    &["run", "--steps", "1000000000000000001", "a", "b"],
    &["run", "--steps", "18446744073709551617", "a", "b"],
    &["run", "--step", "7", "a", "b"],
    &["run", "a", "b", "--steps", "7"],
    &["cc", "--steps", "7", "a", "b"],
];
