use std::test::Fail;
use whole_num::{Read, Stop, Whole, print_into, read, read_literal};

const GREATEST: i64 = 9_007_199_254_740_992;

fn whole(n: i64) -> Result<Whole, Fail> {
    Ok(Whole::new(n).ok_or("out of range")?)
}

fn in_range(n: Option<i64>) -> Result<Whole, Stop> {
    n.and_then(Whole::new).ok_or(Stop::OutOfRange)
}

fn is_whole(n: Option<i64>) -> Result<Whole, Stop> {
    n.and_then(Whole::new).ok_or(Stop::NotWhole)
}

fn number(n: i64) -> Read {
    match Whole::new(n) {
        Some(whole) => Read::Whole(whole),
        None => Read::NotNumber,
    }
}

#[test]
fn bounds(rt: HostRuntime) {
    assert_eq!(rt; Whole::LEAST, -GREATEST);
    assert_eq!(rt; Whole::GREATEST, GREATEST);
    for (n, inside) in &[
        (0, true),
        (GREATEST, true),
        (GREATEST + 1, false),
        (-GREATEST, true),
        (-GREATEST - 1, false),
        (i64::MAX, false),
        (i64::MIN, false),
    ] {
        let found = Whole::new(*n).map(|w| w.get());
        assert_eq!(rt; found, inside.then_some(*n), "at {n}");
    }
}

#[test]
fn arithmetic(rt: HostRuntime) -> Result<(), Fail> {
    // Two numbers, and then their sum, difference and product, `None` where it is out of range.
    for (a, b, sum, difference, product) in &[
        (3, -4, Some(-1), Some(7), Some(-12)),
        (GREATEST, 0, Some(GREATEST), Some(GREATEST), Some(0)),
        (GREATEST, 1, None, Some(GREATEST - 1), Some(GREATEST)),
        (-GREATEST, -1, None, Some(1 - GREATEST), Some(GREATEST)),
        (-GREATEST, 1, Some(1 - GREATEST), None, Some(-GREATEST)),
        (GREATEST, -GREATEST, Some(0), None, None),
        (
            94_906_265,
            94_906_265,
            Some(189_812_530),
            Some(0),
            Some(9_007_199_136_250_225),
        ),
        (94_906_267, 94_906_267, Some(189_812_534), Some(0), None),
    ] {
        let (x, y) = (whole(*a)?, whole(*b)?);
        assert_eq!(rt; x.add(y), in_range(*sum), "{a} + {b}");
        assert_eq!(rt; x.sub(y), in_range(*difference), "{a} - {b}");
        assert_eq!(rt; x.mul(y), in_range(*product), "{a} * {b}");
    }
    for (a, opposite) in &[(0, 0), (5, -5), (-GREATEST, GREATEST)] {
        assert_eq!(rt; whole(*a)?.neg(), whole(*opposite)?, "-{a}");
    }
    Ok(())
}

#[test]
fn quotients(rt: HostRuntime) -> Result<(), Fail> {
    // Two numbers, and then their quotient, that rounded down and what it leaves, `None` where it is not whole.
    for (a, b, exact, down, left) in &[
        (7, 2, None, Some(3), Some(1)),
        (7, -2, None, Some(-4), Some(-1)),
        (-7, 2, None, Some(-4), Some(1)),
        (-7, -2, None, Some(3), Some(-1)),
        (6, 3, Some(2), Some(2), Some(0)),
        (6, -3, Some(-2), Some(-2), Some(0)),
        (0, -5, Some(0), Some(0), Some(0)),
        (1, GREATEST, None, Some(0), Some(1)),
        (-1, GREATEST, None, Some(-1), Some(GREATEST - 1)),
        (-GREATEST, -1, Some(GREATEST), Some(GREATEST), Some(0)),
        (1, 0, None, None, None),
        (0, 0, None, None, None),
    ] {
        let (x, y) = (whole(*a)?, whole(*b)?);
        assert_eq!(rt; x.div(y), is_whole(*exact), "{a} / {b}");
        assert_eq!(rt; x.idiv(y), is_whole(*down), "{a} // {b}");
        assert_eq!(rt; x.modulo(y), is_whole(*left), "{a} % {b}");
    }
    Ok(())
}

#[test]
fn powers(rt: HostRuntime) -> Result<(), Fail> {
    for (a, b, power) in &[
        (2, 53, Some(GREATEST)),
        (2, 54, None),
        (-2, 53, Some(-GREATEST)),
        (3, 33, Some(5_559_060_566_555_523)),
        (3, 34, None),
        (94_906_265, 2, Some(9_007_199_136_250_225)),
        (94_906_266, 2, None),
        (-10, GREATEST, None),
        (7, 0, Some(1)),
        (0, 0, Some(1)),
        (0, GREATEST, Some(0)),
        (1, -GREATEST, Some(1)),
        (-1, GREATEST, Some(1)),
        (-1, -3, Some(-1)),
    ] {
        assert_eq!(rt; whole(*a)?.pow(whole(*b)?), in_range(*power), "{a} ^ {b}");
    }
    for (a, b) in &[(0, -1), (2, -1), (-2, -GREATEST)] {
        assert_eq!(rt;
            whole(*a)?.pow(whole(*b)?),
            Err(Stop::NotWhole),
            "{a} ^ {b}"
        );
    }
    Ok(())
}

#[test]
fn texts(rt: HostRuntime) -> Result<(), Fail> {
    for (n, text) in &[
        (0, "0"),
        (-1, "-1"),
        (120, "120"),
        (GREATEST, "9007199254740992"),
        (-GREATEST, "-9007199254740992"),
    ] {
        let mut out = [b'='].to_vec(rt.alloc())?;
        print_into(whole(*n)?, &mut out)?;
        let want = format!(in rt.alloc(); "={text}")?;
        assert_eq!(rt; out.as_slice(), want.as_bytes(), "at {n}");
    }
    let stops = format!(in rt.alloc(); "{} {}", Stop::NotWhole, Stop::OutOfRange)?;
    assert_eq!(rt; stops.as_str(), "not whole out of range");
    Ok(())
}

#[test]
fn literals(rt: HostRuntime) {
    for (text, value) in &[
        ("0", 0),
        ("9007199254740992", GREATEST),
        ("000_000_000_000_000_000_000_000_1__", 1),
        ("1.", 1),
        (".5e1", 5),
        ("1.50E+1", 15),
        ("25e-0", 25),
        ("1_e_+_3", 1_000),
        ("2500e-2", 25),
        ("0.000e-99999999999999999999", 0),
        ("0e99999999999999999999", 0),
        ("0.00000000000000000009007199254740992e35", GREATEST),
        ("0x_ff", 255),
        ("0X20000000000000", GREATEST),
        ("0b101", 5),
        ("_0_B_0", 0),
    ] {
        assert_eq!(rt; read_literal(text.as_bytes()), number(*value), "at {text}");
    }
    for (text, want) in &[
        ("1.5", Read::NotWhole),
        ("25e-3", Read::NotWhole),
        ("1e-99999999999999999999", Read::NotWhole),
        ("123456789012345678901234567890.5", Read::NotWhole),
        ("9007199254740993", Read::OutOfRange),
        ("1e16", Read::OutOfRange),
        ("1e18446744073709551616", Read::OutOfRange),
        ("0x20000000000001", Read::OutOfRange),
        ("0x10000000000000000", Read::OutOfRange),
        ("", Read::NotNumber),
        ("_", Read::NotNumber),
        (".", Read::NotNumber),
        (".e1", Read::NotNumber),
        ("1..2", Read::NotNumber),
        ("1e", Read::NotNumber),
        ("1e+", Read::NotNumber),
        ("1e1.0", Read::NotNumber),
        ("-1", Read::NotNumber),
        ("1a", Read::NotNumber),
        ("0x", Read::NotNumber),
        ("0xg", Read::NotNumber),
        ("0x1.0", Read::NotNumber),
        ("0b2", Read::NotNumber),
        ("0b", Read::NotNumber),
    ] {
        assert_eq!(rt; read_literal(text.as_bytes()), *want, "at {text}");
    }
}

#[test]
fn texts_read(rt: HostRuntime) {
    for (text, value) in &[
        ("10", 10),
        (" \t\n\u{b}\u{c}\r-12 \r\u{c}\u{b}\n\t ", -12),
        ("+7", 7),
        ("007", 7),
        ("-0", 0),
        ("1e2", 100),
        ("-1.50E+1", -15),
        ("5.", 5),
        (".5e1", 5),
        ("0e99999999999999999999", 0),
        ("0xfF", 255),
        ("-0x10", -16),
        ("0x20000000000000", GREATEST),
        ("-9007199254740992", -GREATEST),
    ] {
        assert_eq!(rt; read(text.as_bytes()), number(*value), "at {text}");
    }
    for (text, want) in &[
        ("1.5", Read::NotWhole),
        ("-1e-1", Read::NotWhole),
        ("9007199254740993", Read::OutOfRange),
        ("-0x20000000000001", Read::OutOfRange),
        ("-1e400", Read::OutOfRange),
        ("", Read::NotNumber),
        (" ", Read::NotNumber),
        ("-", Read::NotNumber),
        ("- 1", Read::NotNumber),
        ("+-1", Read::NotNumber),
        ("1 2", Read::NotNumber),
        ("1a", Read::NotNumber),
        (".", Read::NotNumber),
        ("1e", Read::NotNumber),
        ("0x", Read::NotNumber),
        ("0xg", Read::NotNumber),
        ("0X10", Read::NotNumber),
        ("0b1", Read::NotNumber),
        ("1_000", Read::NotNumber),
        ("0x_1", Read::NotNumber),
    ] {
        assert_eq!(rt; read(text.as_bytes()), *want, "at {text}");
    }
}

#[test]
fn long_literal(rt: HostRuntime) -> Result<(), Fail> {
    // `1`, 200 zeros and `e-200`.
    let mut text = [b'1'].to_vec(rt.alloc())?;
    for _ in 0..200 {
        text.push(b'0')?;
    }
    assert_eq!(rt; read_literal(text.as_slice()), Read::OutOfRange);
    text.extend_from_slice(b"e-200".as_slice())?;
    assert_eq!(rt; read_literal(text.as_slice()), Read::Whole(whole(1)?));
    Ok(())
}
