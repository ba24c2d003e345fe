use byte_text::{Bytes, Interner, StrId};
use std::test::Fail;

#[test]
fn copies(rt: HostRuntime) -> Result<(), Fail> {
    for text in &[b"".as_slice(), b"a\0\xff"] {
        let bytes = Bytes::from_slice(rt.alloc(), text)?;
        assert_eq!(rt; bytes.as_slice(), *text);
    }
    Ok(())
}

#[test]
fn fixed_texts(rt: HostRuntime) -> Result<(), Fail> {
    let mut names = Interner::new(rt.alloc());
    for (id, text) in &[
        (StrId::TYPEOF, b"typeof".as_slice()),
        (StrId::SELF, b"self"),
        (StrId::CONTINUE, b"continue"),
        (StrId::TYPE, b"type"),
        (StrId::EXPORT, b"export"),
        (StrId::GETFENV, b"getfenv"),
        (StrId::SETFENV, b"setfenv"),
        (StrId::REQUIRE, b"require"),
        (StrId::PRINT, b"print"),
    ] {
        assert_eq!(rt; names.intern(text)?, *id);
        assert!(rt; id.0 < names.count());
        assert_eq!(rt; names.bytes(*id), *text);
    }
    assert_eq!(rt; names.count(), 9);
    Ok(())
}

#[test]
fn numbers(rt: HostRuntime) -> Result<(), Fail> {
    let mut names = Interner::new(rt.alloc());
    for (text, number) in &[
        (b"a".as_slice(), 9),
        (b"", 10),
        (b"a\0", 11),
        (b"a", 9),
        (b"prin", 12),
        (b"print", 8),
        (b"", 10),
    ] {
        let id = names.intern(text)?;
        assert_eq!(rt; id, StrId(*number), "at {text:?}");
        assert!(rt; id.0 < names.count());
        assert_eq!(rt; names.bytes(id), *text);
    }
    Ok(())
}

#[test]
fn many(rt: HostRuntime) -> Result<(), Fail> {
    let mut names = Interner::new(rt.alloc());
    for _ in 0..2u8 {
        for i in 0..1000usize {
            let text = format!(in rt.alloc(); "text {i}")?;
            let id = names.intern(text.as_bytes())?;
            assert_eq!(rt; id, StrId(9 + i));
            assert!(rt; id.0 < names.count());
            assert_eq!(rt; names.bytes(id), text.as_bytes());
        }
    }
    assert_eq!(rt; names.count(), 1009);
    Ok(())
}
