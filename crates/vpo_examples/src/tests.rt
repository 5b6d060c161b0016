use crate::calls::run_to;
use crate::cases::{BAD_WORDS, COMMANDS, Case, REFUSED};
use crate::seen::{Seen, owned, sink};
use std::alloc::{AllocError, Global};
use std::test::Fail;
use vp_io::{Outcome, Which};
use vpo_top::{MIPS, PDP11, Request, WordsFault, read_words};

fn run(
    alloc: Global,
    words: &[&str],
    description: Option<&[u8]>,
    source: Option<&[u8]>,
) -> Result<Seen, AllocError> {
    run_to(alloc, words, description, source, sink(alloc, 4096, &[])?)
}

fn is_as_said(alloc: Global, case: &Case) -> Result<bool, AllocError> {
    let seen = run(alloc, case.words, Some(case.description), Some(case.source))?;
    Ok(
        seen.outcome.code() == case.status
            && seen.output.bytes() == case.output
            && seen.errors.bytes() == case.told,
    )
}

#[test]
fn commands_do_as_said(rt: HostRuntime) -> Result<(), Fail> {
    for case in &COMMANDS {
        assert!(rt; is_as_said(rt.alloc(), case)?);
    }
    Ok(())
}

fn is_refused(alloc: Global, source: &[u8], told: &[u8]) -> Result<bool, AllocError> {
    let seen = run(alloc, &["cc", "d", "s"], Some(PDP11), Some(source))?;
    Ok(seen.outcome.code() == 67 && seen.output.bytes().is_empty() && seen.errors.bytes() == told)
}

#[test]
fn sources_are_refused(rt: HostRuntime) -> Result<(), Fail> {
    for (source, told) in &REFUSED {
        assert!(rt; is_refused(rt.alloc(), source, told)?);
    }
    Ok(())
}

#[test]
fn machines_that_come_with_the_program(rt: HostRuntime) -> Result<(), Fail> {
    for (name, text, verdict) in [
        ("pdp11", PDP11, "accepted pdp11 word 16 rows 206\n"),
        ("mips", MIPS, "accepted mips word 32 rows 72\n"),
    ] {
        let seen = run(rt.alloc(), &["show", name], None, None)?;
        assert!(rt; seen.outcome == Outcome::Done(0) && seen.output.bytes() == text);
        let seen = run(rt.alloc(), &["check", "d"], Some(text), None)?;
        assert!(rt; seen.outcome == Outcome::Done(0) && seen.output.bytes() == verdict.as_bytes());
        assert_eq!(rt; seen.errors.bytes(), b"".as_slice());
    }
    Ok(())
}

#[test]
fn words_are_refused(rt: HostRuntime) -> Result<(), Fail> {
    for words in BAD_WORDS {
        let seen = run(rt.alloc(), words, None, None)?;
        assert_eq!(rt; seen.outcome.code(), 64);
        assert_eq!(rt; seen.output.bytes(), b"".as_slice());
        assert_eq!(rt; seen.errors.bytes(), b"vpo: bad words\n".as_slice());
    }
    Ok(())
}

#[test]
fn words_are_read(rt: HostRuntime) -> Result<(), Fail> {
    let alloc = rt.alloc();
    let words = owned(alloc, &["cc", "d", "s"])?;
    assert!(rt;
        matches!(
            read_words(alloc, &words),
            Ok(Request::Cc {
                dump: false,
                plain: false,
                ..
            })
        )
    );
    let words = owned(alloc, &["cc", "--plain", "d", "s"])?;
    assert!(rt;
        matches!(
            read_words(alloc, &words),
            Ok(Request::Cc {
                dump: false,
                plain: true,
                ..
            })
        )
    );
    let words = owned(alloc, &["show", "mips"])?;
    assert!(rt; matches!(read_words(alloc, &words), Ok(Request::Show { which: 1 })));
    let words = owned(alloc, &["check", "d"])?;
    assert!(rt; matches!(read_words(alloc, &words), Ok(Request::Check { .. })));
    let words = owned(alloc, &["run", "d", "a"])?;
    assert!(rt;
        matches!(
            read_words(alloc, &words),
            Ok(Request::Run {
                steps: 1_000_000_000,
                ..
            })
        )
    );
    let words = owned(alloc, &["run", "--steps", "1000000000000000000", "d", "a"])?;
    assert!(rt;
        matches!(
            read_words(alloc, &words),
            Ok(Request::Run {
                steps: 1_000_000_000_000_000_000,
                ..
            })
        )
    );
    let words = owned(alloc, &["show"])?;
    assert!(rt; matches!(read_words(alloc, &words), Err(WordsFault::BadWords)));
    Ok(())
}

#[test]
fn files_that_are_long_or_missing(rt: HostRuntime) -> Result<(), Fail> {
    let alloc = rt.alloc();
    let blanks = vec![in alloc; b' '; 1_048_577]?;
    let long = blanks.as_slice();
    let cc = ["cc", "d", "s"];
    let seen = run(alloc, &cc, Some(long), None)?;
    assert_eq!(rt; seen.outcome, Outcome::FileTooLong(Which::Description));
    let seen = run(alloc, &cc, Some(PDP11), Some(long))?;
    assert_eq!(rt;
        seen.errors.bytes(),
        b"vpo: file too long: source\n".as_slice()
    );
    let seen = run(alloc, &cc, Some(PDP11), Some(&long[1..]))?;
    assert_eq!(rt; seen.outcome.code(), 67);
    let seen = run(alloc, &["check", "d"], None, None)?;
    assert_eq!(rt;
        seen.errors.bytes(),
        b"vpo: read fault: description\n".as_slice()
    );
    let seen = run(alloc, &cc, Some(PDP11), None)?;
    assert_eq!(rt; seen.outcome, Outcome::ReadFault(Which::Text));
    Ok(())
}

#[test]
fn an_output_that_fails(rt: HostRuntime) -> Result<(), Fail> {
    let alloc = rt.alloc();
    let output = sink(alloc, 10, &[1])?;
    let seen = run_to(alloc, &["check", "d"], Some(PDP11), None, output)?;
    assert_eq!(rt; seen.output.bytes(), b"accepted p".as_slice());
    assert_eq!(rt; seen.errors.bytes(), b"vpo: write fault\n".as_slice());
    Ok(())
}
