//! Programs whose meaning goes by the width of a word, by the machine's operators or by its stack, and what the outside does to a compilation.

use crate::calls::{run, run_to, source};
use crate::program_tests::{compiled, first_other};
use crate::programs::Program;
use crate::seen::{file, owned, sink, wide_sink};
use std::alloc::{AllocError, Global};
use std::test::Fail;
use vp_io::{MemFiles, Outcome, SafeSource, Which};
use vpo_top::{MIPS, PDP11, vpo};

const ON_PDP11: [Program; 4] = [
    (b"int main(void){return -1<0x8000;}", b"", b"", 0),
    (
        b"int d(int n){if(n==0)return 0;return 1+d(n-1);}int main(void){return d(228);}",
        b"",
        b"",
        228,
    ),
    (b"int main(void){int a[8000];return 0;}", b"", b"", 0),
    (
        b"int main(void){int a=32767;return (a+1u==32768u)+(-a-1<0)+(~a<0);}",
        b"",
        b"",
        3,
    ),
];

const ON_MIPS: [Program; 10] = [
    (b"int main(void){return -32768;}", b"", b"", 0),
    (b"int main(void){return -1<0x8000;}", b"", b"", 1),
    (b"int main(void){return (-1<1u)*2+(-1<1);}", b"", b"", 1),
    (
        b"int main(void){int a,b,c,d,e,f,g,h;a=1;b=2;c=3;d=4;e=5;f=6;g=7;h=8;return (a+b)*(c+d)+(e+f)*(g+h);}",
        b"",
        b"",
        186,
    ),
    (
        b"int main(void){int n;int i;int s;n=0;s=0;for(i=0;i<n;i++)s=s+7/n;return s;}",
        b"",
        b"",
        0,
    ),
    (
        b"int main(void){int n;int i;int s;n=0;s=0;for(i=0;i<n;i++)s=s+n*4;return s;}",
        b"",
        b"",
        0,
    ),
    (b"int main(void){return 6*7;}", b"", b"", 42),
    (
        b"#include <stdio.h>\nint main(void){putchar('0'-7/-2);putchar('0'-(-7%2));putchar('0'+65535u/65535u);return 0;}",
        b"",
        b"311",
        0,
    ),
    (
        b"int main(void){int a=2147483647;return (a+1u==2147483648u)+(-a-1<0)+(~a<0)+(a>>30);}",
        b"",
        b"",
        4,
    ),
    (
        b"#include <stdio.h>
int count[26];
char line[16];
int main(void)
{
    int c, n, i;
    n = 0;
    while ((c = getchar()) != EOF) {
        switch (c) {
        case ' ':
        case '\\n':
            break;
        default: /* a letter, perhaps */
            if (c >= 'a' && c <= 'z') {
                count[c - 'a']++;
                if (n < 16) line[n++] = c;
            }
        }
    }
    for (i = 0; i < 26; i++)
        if (count[i] > 1) { putchar('a' + i); putchar('0' + count[i] % 10); }
    putchar('\\n');
    for (i = n - 1; i >= 0; i--) putchar(line[i]);
    putchar('\\n');
    return n;
}
",
        b"hello all\n",
        b"l4\nllaolleh\n",
        8,
    ),
];

#[test]
fn words_of_16_bits(rt: HostRuntime) -> Result<(), Fail> {
    assert_eq!(rt; first_other(rt.alloc(), PDP11, &ON_PDP11)?, None);
    Ok(())
}

#[test]
fn words_of_32_bits(rt: HostRuntime) -> Result<(), Fail> {
    assert_eq!(rt; first_other(rt.alloc(), MIPS, &ON_MIPS)?, None);
    Ok(())
}

fn is_refused(alloc: Global, machine: &[u8], text: &[u8], told: &[u8]) -> Result<bool, AllocError> {
    let seen = compiled(alloc, machine, text)?;
    Ok(seen.outcome.code() == 67 && seen.output.bytes().is_empty() && seen.errors.bytes() == told)
}

#[test]
fn sources_that_one_machine_refuses(rt: HostRuntime) -> Result<(), Fail> {
    let alloc = rt.alloc();
    let least = b"int main(void){return -32768;}";
    let told = b"vpo: source line 1 column 24: rule 34\n";
    assert!(rt; is_refused(alloc, PDP11, least, told)?);
    let long = b"int main(void){int a[8000];return 0;}";
    let told = b"vpo: source line 1 column 5: rule 41\n";
    assert!(rt; is_refused(alloc, MIPS, long, told)?);
    Ok(())
}

/// A program that goes on is stopped, and has printed nothing.
fn goes_on(alloc: Global, machine: &[u8]) -> Result<bool, AllocError> {
    let text = compiled(alloc, machine, b"int main(void){for(;;);}")?;
    let input = source(alloc, b"", 1, &[])?;
    let output = wide_sink(alloc)?;
    let seen = run(alloc, "100", machine, text.output.bytes(), input, output)?;
    Ok(seen.outcome == Outcome::Spent(100) && seen.output.bytes().is_empty())
}

#[test]
fn a_program_without_an_end(rt: HostRuntime) -> Result<(), Fail> {
    assert!(rt; goes_on(rt.alloc(), PDP11)?);
    assert!(rt; goes_on(rt.alloc(), MIPS)?);
    Ok(())
}

/// Ten bytes of the text stand where the second write fails.
fn ten_bytes_stand(alloc: Global, machine: &[u8]) -> Result<bool, AllocError> {
    let text = b"int main(void){return 0;}";
    let whole = compiled(alloc, machine, text)?;
    let output = sink(alloc, 10, &[1])?;
    let words = ["cc", "--plain", "d", "s"];
    let seen = run_to(alloc, &words, Some(machine), Some(text), output)?;
    let stands = seen.output.bytes();
    Ok(
        seen.outcome == Outcome::WriteFault
            && stands.len() == 10
            && whole.output.bytes().starts_with(stands),
    )
}

#[test]
fn an_output_that_fails_at_its_second_call(rt: HostRuntime) -> Result<(), Fail> {
    assert!(rt; ten_bytes_stand(rt.alloc(), PDP11)?);
    assert!(rt; ten_bytes_stand(rt.alloc(), MIPS)?);
    Ok(())
}

#[test]
fn a_description_that_can_not_be_fetched(rt: HostRuntime) -> Result<(), Fail> {
    let alloc = rt.alloc();
    let words = owned(alloc, &["cc", "--plain", "d", "s"])?;
    let mut entries = Vec::new(alloc);
    entries.push(file(alloc, "d", Some(PDP11))?)?;
    entries.push(file(alloc, "s", Some(b"int main(void){return 0;}"))?)?;
    let mut failing = Vec::new(alloc);
    failing.push(0)?;
    let mut files = MemFiles::new(entries, 4096, failing);
    let mut input = SafeSource::new(Vec::new(alloc));
    let mut output = wide_sink(alloc)?;
    let mut errors = sink(alloc, 4, &[])?;
    let outcome = vpo(
        alloc,
        &words,
        &mut files,
        &mut input,
        &mut output,
        &mut errors,
    );
    assert_eq!(rt; outcome, Outcome::ReadFault(Which::Description));
    assert!(rt; output.bytes().is_empty());
    Ok(())
}
