use crate::file_system::FileSystem;
use crate::input::InputStream;
use crate::output::OutputStream;
use std::fs;
use std::test::Fail;
use vp_io::{Failed, FetchFault, Source, fetch_whole, write_whole};

const PATH: &str = "vpo-fetched.tmp";

/// The length of the numbers below 2,000, each with a line feed.
const LENGTH: u64 = 8890;

#[test]
fn fetches_a_written_file(rt: HostRuntime) -> Result<(), Fail> {
    let mut text = Vec::new(rt.alloc());
    for number in 0..2000 {
        text.extend_from_slice(format!(in rt.alloc(); "{number}\n")?.as_bytes())?;
    }
    fs::write(&rt, PATH, text.as_slice())?;
    let mut files = FileSystem::new(rt);
    let fetched = fetch_whole(rt.alloc(), &mut files, PATH, LENGTH);
    let cut = fetch_whole(rt.alloc(), &mut files, PATH, LENGTH - 1);
    fs::remove_file(&rt, PATH)?;
    let missing = fetch_whole(rt.alloc(), &mut files, PATH, LENGTH);
    assert!(rt; fetched.is_ok_and(|fetched| fetched == text));
    assert!(rt; matches!(cut, Err(FetchFault::TooLong)));
    assert!(rt; matches!(missing, Err(FetchFault::Failed)));
    Ok(())
}

#[test]
fn reads_to_the_end(rt: HostRuntime) {
    let mut input = InputStream::new(b"abc".as_slice());
    let mut into = [0; 2];
    assert_eq!(rt; input.read(&mut into), Ok(2));
    assert_eq!(rt; into, *b"ab");
    assert_eq!(rt; input.read(&mut into), Ok(1));
    assert_eq!(rt; input.read(&mut into), Ok(0));
}

#[test]
fn writes_until_nothing_is_taken(rt: HostRuntime) {
    let mut room = [0; 4];
    let mut output = OutputStream::new(room.as_mut_slice());
    assert_eq!(rt; write_whole(&mut output, b"ab"), Ok(()));
    assert_eq!(rt; write_whole(&mut output, b"cde"), Err(Failed));
    drop(output);
    assert_eq!(rt; room, *b"abcd");
}
