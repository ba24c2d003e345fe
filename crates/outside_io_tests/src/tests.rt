//! What no clause says: that the calls succeed, and answers at worked examples.

use outside_io::*;
use std::alloc::{AllocError, Global};
use std::fs;
use std::test::Fail;

/// Two files of one name, and a longer one that takes two reads.
fn folder(alloc: Global, fails: &[u64]) -> Result<MemFiles, AllocError> {
    let mut files = Vec::new(alloc);
    for (name, bytes) in &[
        ("a", b"hello".as_slice()),
        ("a", b"other"),
        ("long", &[7; 70_000]),
    ] {
        let name = String::from_str(alloc, name)?;
        files.push((name, Vec::from_slice(alloc, bytes)?))?;
    }
    Ok(MemFiles::new(files, Vec::from_slice(alloc, fails)?))
}

#[test]
fn reads_whole_files(rt: HostRuntime) -> Result<(), Fail> {
    let alloc = rt.alloc();
    for (name, limit, fails, want) in &[
        ("a", 100, 0, b"hello".as_slice()),
        ("a", 5, 3, b"hello"),
        ("a", usize::MAX, 0, b"hello"),
        ("long", 70_000, 0, &[7; 70_000]),
    ] {
        let mut files = folder(alloc, &[*fails])?;
        let got = read_all(alloc, &mut files, name, *limit)?;
        assert_eq!(rt; got.as_slice(), *want, "{name} at {limit}");
    }
    Ok(())
}

#[test]
fn tells_why_a_file_is_not_read(rt: HostRuntime) -> Result<(), Fail> {
    let alloc = rt.alloc();
    for (name, limit, fails, want) in &[
        ("b", 100, 0, ReadErr::Missing),
        ("b", 100, 1, ReadErr::Missing),
        ("a", 4, 0, ReadErr::TooLarge),
        ("a", 0, 0, ReadErr::TooLarge),
        ("long", 69_999, 0, ReadErr::TooLarge),
        ("a", 100, 1, ReadErr::ReadFault),
        ("a", 100, 2, ReadErr::ReadFault),
        ("long", 100_000, 2, ReadErr::ReadFault),
    ] {
        let mut files = folder(alloc, &[*fails])?;
        let got = read_all(alloc, &mut files, name, *limit);
        assert_eq!(rt; got.err(), Some(*want), "{name} at {limit}");
    }
    Ok(())
}

#[test]
fn writes_all_bytes(rt: HostRuntime) -> Result<(), Fail> {
    let alloc = rt.alloc();
    for (room, fails, bytes, want, kept) in &[
        (5, 0, b"hello".as_slice(), Ok(()), b"hello".as_slice()),
        (3, 0, b"hello", Err(WriteErr::WriteFault), b"hel"),
        (9, 1, b"hello", Err(WriteErr::WriteFault), b""),
        (9, 2, b"hello", Ok(()), b"hello"),
        (0, 1, b"", Ok(()), b""),
    ] {
        let mut sink = MemSink::new(alloc, *room, Vec::from_slice(alloc, &[*fails])?)?;
        let got = put_all(&mut sink, bytes);
        assert_eq!(rt; got, *want, "room {room}");
        assert_eq!(rt; sink.bytes(), *kept, "room {room}");
    }
    Ok(())
}

#[test]
fn counts_empty_pieces(rt: HostRuntime) -> Result<(), Fail> {
    let alloc = rt.alloc();
    let mut sink = MemSink::new(alloc, 0, Vec::from_slice(alloc, &[2])?)?;
    assert_eq!(rt; sink.put(b""), Ok(0));
    assert_eq!(rt; sink.put(b""), Err(Failed));
    assert_eq!(rt; sink.put(b""), Ok(0));
    assert_eq!(rt; sink.put(b"a"), Err(Failed));
    Ok(())
}

#[test]
fn reaches_the_system(rt: HostRuntime) -> Result<(), Fail> {
    let mut files = OsFiles::new(rt.clone()?);
    let got = read_all(rt.alloc(), &mut files, "no/such/file", 10);
    assert_eq!(rt; got.err(), Some(ReadErr::Missing));
    let mut sink = OsSink::new(rt.stdout());
    assert_eq!(rt; put_all(&mut sink, b"written\n"), Ok(()));
    Ok(())
}

// The bytes of a file that takes several reads.
const LONG: usize = 200_000;

#[test]
fn reads_a_long_file_of_the_system(rt: HostRuntime) -> Result<(), Fail> {
    let alloc = rt.alloc();
    let name = "a-long-file-of-the-tests.tmp";
    let mut long = Vec::new(alloc);
    for i in 0..LONG {
        long.push((i % 251) as u8)?;
    }
    fs::write(&rt, name, long.as_slice())?;
    let mut files = OsFiles::new(rt.clone()?);
    let got = read_all(alloc, &mut files, name, LONG);
    let short = read_all(alloc, &mut files, name, LONG - 1);
    fs::remove_file(&rt, name)?;
    assert_eq!(rt; got?.as_slice(), long.as_slice());
    assert_eq!(rt; short.err(), Some(ReadErr::TooLarge));
    Ok(())
}
