//! Objects in memory, and whole files.

use std::alloc::{AllocError, Global};
use std::test::Fail;
use vp_io::{
    Failed, FetchFault, Files, MemFile, MemFiles, MemSink, MemSource, Outcome, Reason, SafeFiles,
    SafeSink, SafeSource, Sink, Source, Which, fetch_whole, write_whole,
};

#[test]
fn codes_of_outcomes(rt: HostRuntime) {
    let reason = Reason {
        line: 1,
        column: 2,
        rule: 3,
        detail: 4,
    };
    for (outcome, code) in [
        (Outcome::Done(0), 0),
        (Outcome::Done(255), 255),
        (Outcome::BadWords, 64),
        (Outcome::FileTooLong(Which::Text), 65),
        (Outcome::BadDescription(reason), 66),
        (Outcome::BadSource(reason), 67),
        (Outcome::BadAssembly(reason), 68),
        (Outcome::NoMemory, 70),
        (Outcome::ReadFault(Which::Input), 71),
        (Outcome::WriteFault, 72),
        (Outcome::Trapped { kind: 6, place: 9 }, 73),
        (Outcome::Spent(5), 74),
    ] {
        assert_eq!(rt; outcome.code(), code, "of {outcome:?}");
    }
}

#[test]
fn sources_give_pieces(rt: HostRuntime) -> Result<(), Fail> {
    let bytes = b"abcde".to_vec(rt.alloc())?;
    let failing = [1].to_vec(rt.alloc())?;
    let mut source = MemSource::new(bytes, 3, failing);
    let mut into = [0; 4];
    assert_eq!(rt; source.read(&mut into), Ok(3));
    assert_eq!(rt; into.as_slice(), b"abc\0".as_slice());
    assert_eq!(rt; source.read(&mut into), Err(Failed));
    assert_eq!(rt; source.read(&mut into), Ok(2));
    assert_eq!(rt; into.as_slice(), b"dec\0".as_slice());
    assert_eq!(rt; source.read(&mut into), Ok(0));
    let mut source = SafeSource::new(b"abc".to_vec(rt.alloc())?);
    let mut into = [0; 2];
    assert_eq!(rt; source.read(&mut into), Ok(2));
    assert_eq!(rt; into.as_slice(), b"ab".as_slice());
    assert_eq!(rt; source.read(&mut into), Ok(1));
    assert_eq!(rt; into.as_slice(), b"cb".as_slice());
    assert_eq!(rt; source.read(&mut into), Ok(0));
    Ok(())
}

#[test]
fn sinks_take_pieces(rt: HostRuntime) -> Result<(), Fail> {
    let rows: [(usize, &[u64], &[u8], Result<(), Failed>, &[u8]); 5] = [
        (1, &[], b"abcde", Ok(()), b"abcde"),
        (3, &[], b"abcde", Ok(()), b"abcde"),
        (1, &[2], b"abcde", Err(Failed), b"ab"),
        (3, &[0], b"abcde", Err(Failed), b""),
        (4, &[], b"abcdefg", Err(Failed), b"abcdef"),
    ];
    for (piece, failing, text, result, written) in rows {
        let room = [0; 6].to_vec(rt.alloc())?;
        let mut sink = MemSink::new(room, piece, failing.to_vec(rt.alloc())?);
        assert_eq!(rt; write_whole(&mut sink, text), result);
        assert_eq!(rt; sink.bytes(), written);
    }
    assert_eq!(rt; write_whole(&mut SafeSink, b"abc"), Ok(()));
    assert_eq!(rt; SafeSink.write(b"abc"), Ok(3));
    Ok(())
}

fn entry(alloc: Global, name: &[u8], bytes: &[u8], absent: bool) -> Result<MemFile, AllocError> {
    Ok(MemFile {
        name: name.to_vec(alloc)?,
        bytes: bytes.to_vec(alloc)?,
        absent,
        faults: 0,
    })
}

fn entries(alloc: Global) -> Result<Vec<MemFile>, AllocError> {
    let mut files = Vec::new(alloc);
    files.push(entry(alloc, b"d.vpo", b"vpo 1\n", false)?)?;
    files.push(entry(alloc, b"gone.c", b"", true)?)?;
    files.push(entry(alloc, b"s.c", b"int x;\n", false)?)?;
    Ok(files)
}

/// Whether a file was fetched as wanted.
fn is_fetched(got: &Result<Vec<u8>, FetchFault>, want: Result<&[u8], FetchFault>) -> bool {
    match (got, want) {
        (Ok(text), Ok(bytes)) => text.as_slice() == bytes,
        (Err(fault), Err(wanted)) => *fault == wanted,
        _ => false,
    }
}

#[test]
fn fetches_whole_files(rt: HostRuntime) -> Result<(), Fail> {
    let rows: [(usize, &[u64], &str, u64, Result<&[u8], FetchFault>); 9] = [
        (1, &[], "s.c", 7, Ok(b"int x;\n")),
        (3, &[], "s.c", 8, Ok(b"int x;\n")),
        (3, &[], "s.c", 6, Err(FetchFault::TooLong)),
        (9, &[], "s.c", 0, Err(FetchFault::TooLong)),
        (3, &[2], "s.c", 9, Err(FetchFault::Failed)),
        (3, &[4], "s.c", 9, Ok(b"int x;\n")),
        (3, &[], "gone.c", 9, Err(FetchFault::Failed)),
        (3, &[0], "other.c", 0, Ok(b"")),
        (9, &[], "d.vpo", 18446744073709551615, Ok(b"vpo 1\n")),
    ];
    for (piece, failing, name, limit, want) in rows {
        let failing = failing.to_vec(rt.alloc())?;
        let mut files = MemFiles::new(entries(rt.alloc())?, piece, failing);
        let got = fetch_whole(rt.alloc(), &mut files, name, limit);
        assert!(rt; is_fetched(&got, want), "{name} to {limit}");
    }
    Ok(())
}

#[test]
fn files_give_pieces(rt: HostRuntime) -> Result<(), Fail> {
    let failing = [1].to_vec(rt.alloc())?;
    let mut files = MemFiles::new(entries(rt.alloc())?, 2, failing);
    let mut into = [0; 4];
    assert_eq!(rt; files.fetch("s.c", 4, &mut into), Ok(2));
    assert_eq!(rt; into.as_slice(), b"x;\0\0".as_slice());
    assert_eq!(rt; files.fetch("other.c", 0, &mut into), Ok(0));
    assert_eq!(rt; files.fetch("s.c", 6, &mut into), Err(Failed));
    assert_eq!(rt; files.fetch("s.c", 6, &mut into), Ok(1));
    assert_eq!(rt; files.fetch("s.c", 7, &mut into), Ok(0));
    let mut files = SafeFiles::new(entries(rt.alloc())?);
    let got = fetch_whole(rt.alloc(), &mut files, "s.c", 7);
    assert!(rt; is_fetched(&got, Ok(b"int x;\n")));
    let mut into = [0; 9];
    assert_eq!(rt; files.fetch("other.c", 3, &mut into), Ok(0));
    assert_eq!(rt; files.fetch("d.vpo", 1, &mut into), Ok(5));
    Ok(())
}
