use crate::top::top;
use outside_io::{MemFiles, MemSink};
use std::alloc::Global;
use std::process::Abort;
use std::test::Fail;

/// What the program is given: words, the contents of the file `a`, and the calls that are to fail.
#[derive(Clone, Copy)]
pub struct Given<'a> {
    pub words: &'a [&'a str],
    pub script: &'a [u8],
    pub failing_reads: &'a [u64],
    pub failing_outputs: &'a [u64],
    pub failing_reports: &'a [u64],
}

/// What it has to do.
#[derive(Clone, Copy)]
pub struct Wanted<'a> {
    pub status: u8,
    pub output: &'a [u8],
    pub report: &'a [u8],
}

const ROOM: usize = 100_000;

pub fn expect(
    rt: &(impl Abort + AllocGlobal),
    given: &Given<'_>,
    wanted: &Wanted<'_>,
) -> Result<(), Fail> {
    let alloc = rt.alloc();
    let mut words = Vec::new(alloc);
    for word in given.words {
        words.push(String::from_str(alloc, word)?)?;
    }
    let mut held = Vec::new(alloc);
    held.push((
        String::from_str(alloc, "a")?,
        Vec::from_slice(alloc, given.script)?,
    ))?;
    let mut files = MemFiles::new(held, Vec::from_slice(alloc, given.failing_reads)?);
    let mut out = MemSink::new(alloc, ROOM, Vec::from_slice(alloc, given.failing_outputs)?)?;
    let mut report = MemSink::new(alloc, ROOM, Vec::from_slice(alloc, given.failing_reports)?)?;
    let status = top(alloc, words.as_slice(), &mut files, &mut out, &mut report);
    assert_eq!(*rt; status, wanted.status);
    assert_eq!(*rt; out.bytes(), wanted.output);
    assert_eq!(*rt; report.bytes(), wanted.report);
    Ok(())
}

fn expect_run(
    rt: &(impl Abort + AllocGlobal),
    script: &[u8],
    wanted: &Wanted<'_>,
) -> Result<(), Fail> {
    let given = Given {
        words: &["run", "a"],
        script,
        failing_reads: &[],
        failing_outputs: &[],
        failing_reports: &[],
    };
    expect(rt, &given, wanted)
}

const ENDED: &[u8] = b"1 ended\n";

const NOT_BUILT: &str = "NotBuilt 60";

#[test]
fn scripts_print_and_end(rt: HostRuntime) -> Result<(), Fail> {
    let rows: [(&[u8], &[u8]); 10] = [
        (b"", b""),
        (b"type T = number print(1)", b"1\n"),
        (b"local a = 1; print(a);", b"1\n"),
        (
            b"local a = 2 local b = a * 3 - 1 print(b) print(a + b)",
            b"5\n7\n",
        ),
        (b"print(1 - 2 - 3)", b"-4\n"),
        (b"print(2 + 3 * 4 - 5 * 6 * 7)", b"-196\n"),
        (b"local a = 1 local a = a + 1 print(a)", b"2\n"),
        (
            b"local x_1 = 32767 local _y = 32768 print(x_1 * _y)",
            b"1073709056\n",
        ),
        (
            b"print\t( 007 )\r\nlocal continue = 999999999999999\nprint(continue)",
            b"7\n999999999999999\n",
        ),
        (
            b"print(0 * 5 - 0)print(94906265 * 94906265)",
            b"0\n9007199136250225\n",
        ),
    ];
    for (script, output) in &rows {
        let wanted = Wanted {
            status: 0,
            output,
            report: ENDED,
        };
        expect_run(&rt, script, &wanted)?;
    }
    Ok(())
}

#[test]
fn branches_and_loops_run(rt: HostRuntime) -> Result<(), Fail> {
    let rows: [(&[u8], &[u8]); 9] = [
        (
            b"local a = 1 if 1 == 1 then local a = 2 print(a) end print(a)",
            b"2\n1\n",
        ),
        (
            b"local a = 1 local b = a a = a + b * 2 b = 7 - a print(a) print(b)",
            b"3\n4\n",
        ),
        (
            b"if 1 == 1 then print(1) else print(2) end if 1 == 2 then print(3) else print(4) end",
            b"1\n4\n",
        ),
        (
            b"if 1 ~= 1 then print(1) else print(2) end if 1 ~= 2 then print(3) else print(4) end",
            b"2\n3\n",
        ),
        (
            b"if 1 < 2 then print(1) end if 2 < 2 then print(2) end if 2 > 1 then print(3) end if 2 > 2 then print(4) end",
            b"1\n3\n",
        ),
        (
            b"if 2 <= 2 then print(1) end if 3 <= 2 then print(2) end if 2 >= 2 then print(3) end if 2 >= 3 then print(4) end",
            b"1\n3\n",
        ),
        (
            b"local i = 0 while i < 3 do i = i + 1 if i == 2 then print(20) else print(i) end end",
            b"1\n20\n3\n",
        ),
        (
            b"local i = 3 while i > 0 do local j = i while j > 0 do local k = i * j print(k) j = j - 1 end i = i - 1 end print(i)",
            b"9\n6\n3\n4\n2\n1\n0\n",
        ),
        (
            b"while 1 == 2 do print(1) end if 0 - 1 < 0 then end print(2)",
            b"2\n",
        ),
    ];
    for (script, output) in &rows {
        let wanted = Wanted {
            status: 0,
            output,
            report: ENDED,
        };
        expect_run(&rt, script, &wanted)?;
    }
    Ok(())
}

#[test]
fn turns_are_bounded(rt: HostRuntime) -> Result<(), Fail> {
    let counting: &[u8] =
        b"local i = 0 while i < 3 do i = i + 1 if i == 2 then print(20) else print(i) end end";
    let forever: &[u8] = b"print(1) while 1 == 1 do end print(2)";
    let spent: &[u8] = b"1 turns spent\n";
    let rows: [(&str, &[u8], u8, &[u8], &[u8]); 8] = [
        ("0", counting, 7, b"1\n", spent),
        ("1", counting, 7, b"1\n20\n", spent),
        ("2", counting, 7, b"1\n20\n3\n", spent),
        ("3", counting, 0, b"1\n20\n3\n", ENDED),
        ("0000000003", counting, 0, b"1\n20\n3\n", ENDED),
        ("4294967295", counting, 0, b"1\n20\n3\n", ENDED),
        ("1000", forever, 7, b"1\n", spent),
        ("0", b"print(1)", 0, b"1\n", ENDED),
    ];
    for (turns, script, status, output, report) in &rows {
        let given = Given {
            words: &["run", "--turns", turns, "a"],
            script,
            failing_reads: &[],
            failing_outputs: &[],
            failing_reports: &[],
        };
        let wanted = Wanted {
            status: *status,
            output,
            report,
        };
        expect(&rt, &given, &wanted)?;
    }
    Ok(())
}

#[test]
fn scripts_stop_out_of_range(rt: HostRuntime) -> Result<(), Fail> {
    let rows: [(&[u8], &[u8]); 5] = [
        (b"print(999999999999999 * 10)", b""),
        (
            b"local a = 999999999999999 print(1) if a * 10 == 0 then print(2) else print(3) end",
            b"1\n",
        ),
        (
            b"local a = 999999999999999 print(1) while 0 < a * 10 do print(2) end",
            b"1\n",
        ),
        (
            b"print(1) local a = 999999999999999 * 9 print(a) print(a + a) print(3)",
            b"1\n8999999999999991\n",
        ),
        (
            b"local a = 0 - 999999999999999 * 9 - 999999999999999 print(a)",
            b"",
        ),
    ];
    for (script, output) in &rows {
        let wanted = Wanted {
            status: 1,
            output,
            report: b"1 stopped: out of range\n",
        };
        expect_run(&rt, script, &wanted)?;
    }
    Ok(())
}

fn expect_refused(
    rt: &(impl Abort + AllocGlobal),
    script: &[u8],
    cause: &str,
    at: usize,
) -> Result<(), Fail> {
    let report = format!(in rt.alloc(); "1 refused: {cause} at {at}\n")?;
    let wanted = Wanted {
        status: 3,
        output: b"",
        report: report.as_bytes(),
    };
    expect_run(rt, script, &wanted)
}

#[test]
fn each_refusal_has_its_place(rt: HostRuntime) -> Result<(), Fail> {
    let rows: [(&[u8], &str, usize); 27] = [
        (b"print(1) @", "BadByte 1", 9),
        (b"print(\"a", "UnfinishedString 2", 6),
        (b"print(\"a\\xZZ\")", "BadEscape 3", 8),
        (b"print(1) --[[ a", "UnfinishedComment 4", 9),
        (b"print(3a)", "BadNumber 5", 6),
        (b"print(1.5)", "NotWholeLiteral 6", 6),
        (b"print(9007199254740993)", "LiteralRange 7", 6),
        (b"print(`a{{1}`)", "DoubleBrace 8", 8),
        (b"print(1))", "Unexpected 10", 8),
        (b"local a = ", "Unexpected 10", 9),
        (b"while 1 == 1 do print(1)", "Unexpected 10", 24),
        (b"local f = print\n(f)(1)", "AmbiguousCall 12", 16),
        (b"print(1) break", "LoopWordOutside 20", 9),
        (
            b"repeat if x then continue end local y = 1 until y",
            "UntilSkipsLocal 21",
            17,
        ),
        (b"local function f() return ... end", "VarargOutside 22", 26),
        (b"print(x)", NOT_BUILT, 6),
        (b"local a", NOT_BUILT, 0),
        (b"local a, b = 1, 2", NOT_BUILT, 0),
        (b"if 1 == 1 then elseif 2 == 2 then end", NOT_BUILT, 0),
        (b"local a = 1 < 2", NOT_BUILT, 10),
        (b"if 1 then end", NOT_BUILT, 3),
        (b"local print = 1 print(2)", NOT_BUILT, 16),
        (b"a = 1", NOT_BUILT, 0),
        (b"local a = (1)", NOT_BUILT, 10),
        (b"if 1 == 1 then local a = 1 end print(a)", NOT_BUILT, 37),
        // The first fault of the tokens goes before the rules, and a broken rule before what is not built.
        (b"break print(1.5)", "NotWholeLiteral 6", 12),
        (b"local a break", "LoopWordOutside 20", 8),
    ];
    for (script, cause, at) in &rows {
        expect_refused(&rt, script, cause, *at)?;
    }
    Ok(())
}

/// The parts one after another, each as often as it says.
fn text_of(alloc: Global, parts: &[(&[u8], usize)]) -> Result<Vec<u8>, Fail> {
    let mut text = Vec::new(alloc);
    for (part, times) in parts {
        for _ in 0..*times {
            text.extend_from_slice(part)?;
        }
    }
    Ok(text)
}

/// A script of such parts ends, and prints a number so many times.
fn expect_printed(
    rt: &(impl Abort + AllocGlobal),
    parts: &[(&[u8], usize)],
    line: &[u8],
    times: usize,
) -> Result<(), Fail> {
    let script = text_of(rt.alloc(), parts)?;
    let output = text_of(rt.alloc(), &[(line, times)])?;
    let wanted = Wanted {
        status: 0,
        output: output.as_slice(),
        report: ENDED,
    };
    expect_run(rt, script.as_slice(), &wanted)
}

#[test]
fn what_is_within_the_limits_runs(rt: HostRuntime) -> Result<(), Fail> {
    // 200 locals, and 199 with others whose blocks have ended
    expect_printed(&rt, &[(b"local a = 1\n", 200)], b"", 0)?;
    let blocks = b"if a == 1 then local b = 2 else local c = 3 end local d = 4";
    expect_printed(&rt, &[(b"local a = 1\n", 199), (blocks, 1)], b"", 0)?;

    // The call is the 200th node that nests.
    let branches: [(&[u8], usize); 3] = [
        (b"if 1 == 1 then ", 199),
        (b"print(1)", 1),
        (b" end", 199),
    ];
    expect_printed(&rt, &branches, b"1\n", 1)?;
    let sum: [(&[u8], usize); 3] = [(b"print(0", 1), (b"+2", 199), (b")", 1)];
    expect_printed(&rt, &sum, b"398\n", 1)?;

    // bulk 8 + 26 * 1,153 = 29,986
    expect_printed(&rt, &[(b"print(1) ", 1153)], b"1\n", 1153)
}

fn expect_parts_refused(
    rt: &(impl Abort + AllocGlobal),
    parts: &[(&[u8], usize)],
    cause: &str,
    at: usize,
) -> Result<(), Fail> {
    let script = text_of(rt.alloc(), parts)?;
    expect_refused(rt, script.as_slice(), cause, at)
}

#[test]
fn what_is_beyond_the_limits_is_refused(rt: HostRuntime) -> Result<(), Fail> {
    expect_parts_refused(
        &rt,
        &[(b"local a = 1\n", 201)],
        "TooManyLocals 23",
        200 * 12,
    )?;

    // The 201st node that nests is the comparison of the 200th branch, and the 200th sum.
    expect_parts_refused(
        &rt,
        &[(b"if 1 == 1 then ", 200), (b" end", 200)],
        "TooDeep 11",
        199 * 15 + 5,
    )?;
    let sum: [(&[u8], usize); 3] = [(b"print(0", 1), (b"+2", 200), (b")", 1)];
    expect_parts_refused(&rt, &sum, "TooDeep 11", 7 + 199 * 2)?;

    // A call holds its callee and its arguments.
    let called: [(&[u8], usize); 3] = [(b"f(1", 1), (b", 1", 248), (b")", 1)];
    expect_parts_refused(&rt, &called, NOT_BUILT, 0)?;
    let wide: [(&[u8], usize); 3] = [(b"local function f() f(1", 1), (b", 1", 249), (b") end", 1)];
    expect_parts_refused(&rt, &wide, "TooWide 25", 6)?;

    // bulk 8 + 26 * 1,154 = 30,012
    let long: [(&[u8], usize); 3] = [
        (b"local function f() ", 1),
        (b"print(1) ", 1154),
        (b"end", 1),
    ];
    expect_parts_refused(&rt, &long, "TooLong 26", 6)
}

/// A function that sets 150 locals of the script and then some of the function around it.
fn capturing(alloc: Global, outer: usize) -> Result<Vec<u8>, Fail> {
    let mut text = Vec::new(alloc);
    for i in 0..150 {
        let local = format!(in alloc; "local a{i} ")?;
        text.extend_from_slice(local.as_bytes())?;
    }
    text.extend_from_slice(b"local function f() ")?;
    for i in 0..60 {
        let local = format!(in alloc; "local b{i} ")?;
        text.extend_from_slice(local.as_bytes())?;
    }
    text.extend_from_slice(b"local function g() ")?;
    for i in 0..150 {
        let set = format!(in alloc; "a{i} = 1 ")?;
        text.extend_from_slice(set.as_bytes())?;
    }
    for i in 0..outer {
        let set = format!(in alloc; "b{i} = 1 ")?;
        text.extend_from_slice(set.as_bytes())?;
    }
    Ok(text)
}

#[test]
fn captured_variables_are_limited(rt: HostRuntime) -> Result<(), Fail> {
    let alloc = rt.alloc();
    let mut text = capturing(alloc, 50)?;
    let at = text.len();
    let mut more = text.clone()?;
    text.extend_from_slice(b"a0 = 1 end end")?;
    expect_refused(&rt, text.as_slice(), NOT_BUILT, 0)?;
    more.extend_from_slice(b"b50 = 1 end end")?;
    expect_refused(&rt, more.as_slice(), "TooManyUpvalues 24", at)
}

#[test]
fn words_and_files_are_refused(rt: HostRuntime) -> Result<(), Fail> {
    let alloc = rt.alloc();
    let usage = b"usage: luau run|exec|compile|list|gen [options] FILES\n";
    let small: &[u8] = b"print(1)";
    let spaces = vec![in alloc; b' '; 1_048_576]?;
    let more = vec![in alloc; b' '; 1_048_577]?;
    let rows: [(&[&str], &[u8], u8, &[u8]); 15] = [
        (&[], small, 2, usage),
        (&["run", "--turns", "1"], small, 2, usage),
        (&["run", "--turns", "", "a"], small, 2, usage),
        (&["run", "--turns", "+1", "a"], small, 2, usage),
        (&["run", "--turns", "1x", "a"], small, 2, usage),
        (&["run", "--turns", "00000000001", "a"], small, 2, usage),
        (&["run", "--turns", "4294967296", "a"], small, 2, usage),
        (&["run", "--bound", "1", "a"], small, 2, usage),
        (&["run"], small, 2, usage),
        (&["fly", "a"], small, 2, usage),
        (&["run", "a", "a"], small, 2, usage),
        (&["run", "--turns"], small, 4, b"missing: --turns\n"),
        (&["run", ""], small, 4, b"missing: \n"),
        (&["run", "a"], spaces.as_slice(), 0, ENDED),
        (&["run", "a"], more.as_slice(), 10, b"too large: a\n"),
    ];
    for (words, script, status, report) in &rows {
        let given = Given {
            words,
            script,
            failing_reads: &[],
            failing_outputs: &[],
            failing_reports: &[],
        };
        let wanted = Wanted {
            status: *status,
            output: b"",
            report,
        };
        expect(&rt, &given, &wanted)?;
    }
    Ok(())
}

#[test]
fn faults_are_reported(rt: HostRuntime) -> Result<(), Fail> {
    let good: &[u8] = b"print(1) print(2)";
    let bad: &[u8] = b"print(x)";
    let refused: &[u8] = b"1 refused: NotBuilt 60 at 6\n";
    let rows: [(&[u8], &[u64], &[u64], &[u64], u8, &[u8], &[u8]); 8] = [
        (good, &[1], &[], &[], 4, b"", b"read fault: a\n"),
        (good, &[2], &[], &[], 4, b"", b"read fault: a\n"),
        (good, &[3], &[], &[], 0, b"1\n2\n", ENDED),
        (good, &[], &[1], &[], 5, b"", b""),
        (good, &[], &[2], &[], 0, b"1\n2\n", ENDED),
        (good, &[], &[], &[1], 5, b"1\n2\n", b""),
        (bad, &[], &[1], &[], 3, b"", refused),
        (bad, &[], &[], &[1], 3, b"", b""),
    ];
    for (script, failing_reads, failing_outputs, failing_reports, status, output, report) in &rows {
        let given = Given {
            words: &["run", "a"],
            script,
            failing_reads,
            failing_outputs,
            failing_reports,
        };
        let wanted = Wanted {
            status: *status,
            output,
            report,
        };
        expect(&rt, &given, &wanted)?;
    }
    Ok(())
}
