//! Scripts that are compiled, and chunks that are listed.

use crate::tests::{Given, Wanted, expect};
use std::process::Abort;
use std::test::Fail;

// The chunk of the empty script.
const EMPTY: &[u8] = &[
    0x4C, 0x57, 0x43, 0x48, 1, 0, 1, 1, 0, 0, 1, 2, 0x3F, 0, 0, 0, 0x15, 0, 1, 0, 0, 0, 0,
];

const EMPTY_LISTING: &[u8] = b"proto 0 1 0 0 1\n0 PREPVARARGS 0\n1 RETURN 0 1\nmain 0\n";

// The chunk of `print('a')`: two strings; six words of code; two constants.
const PRINTING: &[u8] = &[
    0x4C, 0x57, 0x43, 0x48, 1, 2, 5, b'p', b'r', b'i', b'n', b't', 1, b'a', 1, 2, 0, 0, 1, 6, 0x3F,
    0, 0, 0, 6, 0, 0, 0, 0, 0, 0, 0, 4, 1, 1, 0, 0x14, 0, 2, 1, 0x15, 0, 1, 0, 2, 4, 0, 4, 1, 0, 0,
];

const PRINTING_LISTING: &[u8] = b"proto 0 2 0 0 1\n\
    k 0 \"print\"\n\
    k 1 \"a\"\n\
    0 PREPVARARGS 0\n\
    1 GETGLOBAL 0 0\n\
    3 LOADK 1 1\n\
    4 CALL 0 2 1\n\
    5 RETURN 0 1\n\
    main 0\n";

// A jump into the second word of an instruction.
const JUMPING: &[u8] = &[
    0x4C, 0x57, 0x43, 0x48, 1, 1, 1, b'a', 1, 1, 0, 0, 1, 5, 0x3F, 0, 0, 0, 0x16, 0, 1, 0, 6, 0, 0,
    0, 0, 0, 0, 0, 0x15, 0, 1, 0, 1, 4, 0, 0, 0,
];

fn expect_answer(
    rt: &(impl Abort + AllocGlobal),
    words: &[&str],
    held: &[u8],
    wanted: &Wanted<'_>,
) -> Result<(), Fail> {
    let given = Given {
        words,
        script: held,
        failing_reads: &[],
        failing_outputs: &[],
        failing_reports: &[],
    };
    expect(rt, &given, wanted)
}

#[test]
fn scripts_are_compiled(rt: HostRuntime) -> Result<(), Fail> {
    let rows: [(&[u8], u8, &[u8], &[u8]); 8] = [
        (b"", 0, EMPTY, b""),
        (b"print('a')", 0, PRINTING, b""),
        (
            b"print(1.5)",
            3,
            b"",
            b"1 refused: NotWholeLiteral 6 at 6\n",
        ),
        (b"local a = ", 3, b"", b"1 refused: Unexpected 10 at 9\n"),
        (
            b"print(1) break",
            3,
            b"",
            b"1 refused: LoopWordOutside 20 at 9\n",
        ),
        (b"print(x)", 3, b"", b"1 refused: NotBuilt 60 at 6\n"),
        (b"print({})", 3, b"", b"1 refused: NotBuilt 60 at 6\n"),
        (
            b"print({}) break",
            3,
            b"",
            b"1 refused: LoopWordOutside 20 at 10\n",
        ),
    ];
    for (script, status, output, report) in &rows {
        let wanted = Wanted {
            status: *status,
            output,
            report,
        };
        expect_answer(&rt, &["compile", "a"], script, &wanted)?;
        expect_answer(&rt, &["compile", "--turns", "0", "a"], script, &wanted)?;
    }
    Ok(())
}

#[test]
fn chunks_are_listed(rt: HostRuntime) -> Result<(), Fail> {
    let rows: [(&[u8], u8, &[u8], &[u8]); 7] = [
        (EMPTY, 0, EMPTY_LISTING, b""),
        (PRINTING, 0, PRINTING_LISTING, b""),
        (&[0], 8, b"", b"1 chunk refused: BadMagic 31 at 0\n"),
        (b"LWCI", 8, b"", b"1 chunk refused: BadMagic 31 at 3\n"),
        (
            b"LWCH\x02",
            8,
            b"",
            b"1 chunk refused: BadVersion 32 at 4\n",
        ),
        (
            b"LWCH\x01\x00\x01\x01\x00\x00\x02",
            8,
            b"",
            b"1 chunk refused: BadField 33 at 10\n",
        ),
        (
            JUMPING,
            8,
            b"",
            b"1 chunk refused: BadCode 35 at 0:1 Jump\n",
        ),
    ];
    for (bytes, status, output, report) in &rows {
        let wanted = Wanted {
            status: *status,
            output,
            report,
        };
        expect_answer(&rt, &["list", "a"], bytes, &wanted)?;
        expect_answer(&rt, &["list", "--turns", "0", "a"], bytes, &wanted)?;
    }
    Ok(())
}

#[test]
fn cut_and_longer_chunks_are_refused(rt: HostRuntime) -> Result<(), Fail> {
    let alloc = rt.alloc();
    for length in 0..EMPTY.len() {
        let report = format!(in alloc; "1 chunk refused: Truncated 30 at {length}\n")?;
        let wanted = Wanted {
            status: 8,
            output: b"",
            report: report.as_bytes(),
        };
        expect_answer(&rt, &["list", "a"], &EMPTY[..length], &wanted)?;
    }
    let mut longer = Vec::from_slice(alloc, EMPTY)?;
    longer.push(0)?;
    let wanted = Wanted {
        status: 8,
        output: b"",
        report: b"1 chunk refused: Trailing 34 at 23\n",
    };
    expect_answer(&rt, &["list", "a"], longer.as_slice(), &wanted)
}

#[test]
fn files_of_each_mode_are_refused(rt: HostRuntime) -> Result<(), Fail> {
    let usage = b"usage: luau run|exec|compile|list|gen [options] FILES\n";
    let large = vec![in rt.alloc(); b' '; 1_048_577]?;
    let rows: [(&[&str], &[u8], u8, &[u8]); 10] = [
        (&["compile"], EMPTY, 2, usage),
        (&["list"], EMPTY, 2, usage),
        (&["compile", "a", "a"], EMPTY, 2, usage),
        (&["list", "--turns", "x", "a"], EMPTY, 2, usage),
        (&["Compile", "a"], EMPTY, 2, usage),
        (&["exec", "a"], EMPTY, 2, usage),
        (&["compile", "b"], EMPTY, 4, b"missing: b\n"),
        (&["list", "b"], EMPTY, 4, b"missing: b\n"),
        (&["compile", "a"], large.as_slice(), 10, b"too large: a\n"),
        (&["list", "a"], large.as_slice(), 10, b"too large: a\n"),
    ];
    for (words, held, status, report) in &rows {
        let wanted = Wanted {
            status: *status,
            output: b"",
            report,
        };
        expect_answer(&rt, words, held, &wanted)?;
    }
    Ok(())
}

#[test]
fn faults_of_each_mode_are_reported(rt: HostRuntime) -> Result<(), Fail> {
    let refused: &[u8] = b"1 refused: NotBuilt 60 at 6\n";
    let no_chunk: &[u8] = b"1 chunk refused: Truncated 30 at 0\n";
    let rows: [(&str, &[u8], &[u64], &[u64], &[u64], u8, &[u8], &[u8]); 10] = [
        ("compile", b"", &[1], &[], &[], 4, b"", b"read fault: a\n"),
        ("compile", b"", &[], &[1], &[], 5, b"", b""),
        ("compile", b"", &[], &[], &[1], 0, EMPTY, b""),
        ("compile", b"print(x)", &[], &[1], &[], 3, b"", refused),
        ("compile", b"print(x)", &[], &[], &[1], 3, b"", b""),
        ("list", EMPTY, &[1], &[], &[], 4, b"", b"read fault: a\n"),
        ("list", EMPTY, &[], &[1], &[], 5, b"", b""),
        ("list", EMPTY, &[], &[], &[1], 0, EMPTY_LISTING, b""),
        ("list", b"", &[], &[1], &[], 8, b"", no_chunk),
        ("list", b"", &[], &[], &[1], 8, b"", b""),
    ];
    for (
        mode,
        held,
        failing_reads,
        failing_outputs,
        failing_reports,
        status,
        output,
        report,
    ) in &rows {
        let given = Given {
            words: &[mode, "a"],
            script: held,
            failing_reads,
            failing_outputs,
            failing_reports,
        };
        let wanted = Wanted {
            status: *status,
            output,
            report,
        };
        expect(&rt, &given, &wanted)?;
    }
    Ok(())
}
