//! Scripts, and the listings of their chunks.

use byte_text::Interner;
use chunk_check::check;
use chunk_listing::list;
use luau_lexer::lex;
use luau_parser::parse;
use op_words::Chunk;
use scopes::resolve;
use script_compiler::compile;
use std::alloc::Global;
use std::test::Fail;
use syntax_tree::{Facts, Level};

fn chunk_of(alloc: Global, text: &[u8]) -> Result<Chunk, Fail> {
    let mut names = Interner::new(alloc);
    let Ok(tokens) = lex(alloc, text, &mut names) else {
        return Err(Fail::from("no tokens"));
    };
    let Ok(tree) = parse(alloc, tokens.as_slice(), &mut names) else {
        return Err(Fail::from("no tree"));
    };
    let Ok(bindings) = resolve(alloc, &tree) else {
        return Err(Fail::from("refused"));
    };
    let facts = Facts::new(alloc);
    match compile(alloc, &tree, &bindings, &facts, &names, Level::O0) {
        Ok(chunk) => Ok(chunk),
        Err(_) => Err(Fail::from("no memory")),
    }
}

fn listing(alloc: Global, text: &[u8]) -> Result<Vec<u8>, Fail> {
    let chunk = chunk_of(alloc, text)?;
    match check(alloc, chunk) {
        Ok(checked) => match list(alloc, checked.chunk()) {
            Ok(bytes) => Ok(bytes),
            Err(_) => Err(Fail::from("no memory")),
        },
        Err(_) => Err(Fail::from("not well formed")),
    }
}

// Scripts, and the listings of their chunks.
const ROWS: [(&[u8], &[u8]); 14] = [
    (
        b"",
        b"proto 0 1 0 0 1\n\
          0 PREPVARARGS 0\n\
          1 RETURN 0 1\n\
          main 0\n",
    ),
    (
        b"local a, b = 1, 'x' print(a, b, nil, true, 70000)",
        b"proto 0 8 0 0 1\n\
          k 0 \"x\"\n\
          k 1 \"print\"\n\
          k 2 70000\n\
          0 PREPVARARGS 0\n\
          1 LOADN 0 1\n\
          2 LOADK 1 0\n\
          3 GETGLOBAL 2 1\n\
          5 MOVE 3 0\n\
          6 MOVE 4 1\n\
          7 LOADNIL 5\n\
          8 LOADB 6 1 0\n\
          9 LOADK 7 2\n\
          10 CALL 2 6 1\n\
          11 RETURN 0 1\n\
          main 0\n",
    ),
    (
        b"local function f(a, ...) return ... end print((f(1, 2)), f(3))",
        b"proto 0 2 1 0 1\n\
          0 PREPVARARGS 1\n\
          1 GETVARARGS 1 0\n\
          2 RETURN 1 0\n\
          3 RETURN 0 1\n\
          proto 1 5 0 0 1\n\
          k 0 \"print\"\n\
          child 0 0\n\
          0 PREPVARARGS 0\n\
          1 NEWCLOSURE 0 0\n\
          2 GETGLOBAL 1 0\n\
          4 MOVE 2 0\n\
          5 LOADN 3 1\n\
          6 LOADN 4 2\n\
          7 CALL 2 3 2\n\
          8 MOVE 3 0\n\
          9 LOADN 4 3\n\
          10 CALL 3 2 0\n\
          11 CALL 1 0 1\n\
          12 RETURN 0 1\n\
          main 1\n",
    ),
    (
        b"local a = 1 local function f() a = a + 1 return a end f()",
        b"proto 0 2 0 1 0\n\
          k 0 1\n\
          0 GETUPVAL 0 0\n\
          1 ADDK 0 0 0\n\
          2 SETUPVAL 0 0\n\
          3 GETUPVAL 0 0\n\
          4 RETURN 0 2\n\
          5 RETURN 0 1\n\
          proto 1 3 0 0 1\n\
          child 0 0\n\
          0 PREPVARARGS 0\n\
          1 LOADN 0 1\n\
          2 NEWCLOSURE 1 0\n\
          3 CAPTURE 1 0\n\
          4 MOVE 2 1\n\
          5 CALL 2 1 1\n\
          6 RETURN 0 1\n\
          main 1\n",
    ),
    (
        b"local a = 1 local f = function() return a end",
        b"proto 0 1 0 1 0\n\
          0 GETUPVAL 0 0\n\
          1 RETURN 0 2\n\
          2 RETURN 0 1\n\
          proto 1 2 0 0 1\n\
          child 0 0\n\
          0 PREPVARARGS 0\n\
          1 LOADN 0 1\n\
          2 NEWCLOSURE 1 0\n\
          3 CAPTURE 1 0\n\
          4 RETURN 0 1\n\
          main 1\n",
    ),
    (
        b"local a = 1 if a < 2 then print(a) elseif a == 3 then print(3) else print(4) end",
        b"proto 0 3 0 0 1\n\
          k 0 \"print\"\n\
          0 PREPVARARGS 0\n\
          1 LOADN 0 1\n\
          2 LOADN 2 2\n\
          3 JUMPIFNOTLT 0 6 2\n\
          5 GETGLOBAL 1 0\n\
          7 MOVE 2 0\n\
          8 CALL 1 2 1\n\
          9 JUMP 12\n\
          10 LOADN 2 3\n\
          11 JUMPIFNOTEQ 0 6 2\n\
          13 GETGLOBAL 1 0\n\
          15 LOADN 2 3\n\
          16 CALL 1 2 1\n\
          17 JUMP 4\n\
          18 GETGLOBAL 1 0\n\
          20 LOADN 2 4\n\
          21 CALL 1 2 1\n\
          22 RETURN 0 1\n\
          main 0\n",
    ),
    (
        b"local a = 0 while a < 3 do local b = a a = b + 1 if b == 1 then continue end if a == 2 then break end end",
        b"proto 0 4 0 0 1\n\
          k 0 1\n\
          0 PREPVARARGS 0\n\
          1 LOADN 0 0\n\
          2 LOADN 2 3\n\
          3 JUMPIFNOTLT 0 13 2\n\
          5 MOVE 1 0\n\
          6 ADDK 2 1 0\n\
          7 MOVE 0 2\n\
          8 LOADN 3 1\n\
          9 JUMPIFNOTEQ 1 2 3\n\
          11 JUMP 4\n\
          12 LOADN 3 2\n\
          13 JUMPIFNOTEQ 0 2 3\n\
          15 JUMP 1\n\
          16 JUMPBACK -15\n\
          17 RETURN 0 1\n\
          main 0\n",
    ),
    (
        b"for i = 1, 3 do print(i) end",
        b"proto 0 6 0 0 1\n\
          k 0 \"print\"\n\
          0 PREPVARARGS 0\n\
          1 LOADN 2 1\n\
          2 LOADN 3 3\n\
          3 MOVE 0 3\n\
          4 LOADN 1 1\n\
          5 FORNPREP 0 6\n\
          6 MOVE 3 2\n\
          7 GETGLOBAL 4 0\n\
          9 MOVE 5 3\n\
          10 CALL 4 2 1\n\
          11 FORNLOOP 0 -6\n\
          12 RETURN 0 1\n\
          main 0\n",
    ),
    (
        b"local n = 0 repeat local m = n local function g() return m end n = m + 1 until g() > 2",
        b"proto 0 1 0 1 0\n\
          0 GETUPVAL 0 0\n\
          1 RETURN 0 2\n\
          2 RETURN 0 1\n\
          proto 1 5 0 0 1\n\
          k 0 1\n\
          child 0 0\n\
          0 PREPVARARGS 0\n\
          1 LOADN 0 0\n\
          2 MOVE 1 0\n\
          3 NEWCLOSURE 2 0\n\
          4 CAPTURE 1 1\n\
          5 MOVE 3 1\n\
          6 ADDK 3 3 0\n\
          7 MOVE 0 3\n\
          8 MOVE 3 2\n\
          9 CALL 3 1 2\n\
          10 LOADN 4 2\n\
          11 JUMPIFLT 4 3 3\n\
          13 CLOSEUPVALS 1\n\
          14 JUMPBACK -13\n\
          15 CLOSEUPVALS 1\n\
          16 RETURN 0 1\n\
          main 1\n",
    ),
    (
        b"local a, b = 1, 2 a, b = b, a a += 2 b = a .. b .. 'x'",
        b"proto 0 5 0 0 1\n\
          k 0 2\n\
          k 1 \"x\"\n\
          0 PREPVARARGS 0\n\
          1 LOADN 0 1\n\
          2 LOADN 1 2\n\
          3 MOVE 2 1\n\
          4 MOVE 3 0\n\
          5 MOVE 0 2\n\
          6 MOVE 1 3\n\
          7 ADDK 0 0 0\n\
          8 MOVE 2 0\n\
          9 MOVE 3 1\n\
          10 LOADK 4 1\n\
          11 CONCAT 2 2 4\n\
          12 MOVE 1 2\n\
          13 RETURN 0 1\n\
          main 0\n",
    ),
    (
        b"local a = 1 local b = a and print or not a local c = if a then b else 2",
        b"proto 0 3 0 0 1\n\
          k 0 \"print\"\n\
          0 PREPVARARGS 0\n\
          1 LOADN 0 1\n\
          2 MOVE 1 0\n\
          3 JUMPIFNOT 1 2\n\
          4 GETGLOBAL 1 0\n\
          6 JUMPIF 1 1\n\
          7 NOT 1 0\n\
          8 JUMPIFNOT 0 2\n\
          9 MOVE 2 1\n\
          10 JUMP 1\n\
          11 LOADN 2 2\n\
          12 RETURN 0 1\n\
          main 0\n",
    ),
    (
        b"local a = 1 print(a < 2, a >= 2, a ~= 1, -a, #'x', a // 2, 2 ^ a, 7 - a)",
        b"proto 0 11 0 0 1\n\
          k 0 \"print\"\n\
          k 1 \"x\"\n\
          k 2 2\n\
          k 3 7\n\
          0 PREPVARARGS 0\n\
          1 LOADN 0 1\n\
          2 GETGLOBAL 1 0\n\
          4 LOADN 3 2\n\
          5 JUMPIFLT 0 2 3\n\
          7 LOADB 2 0 1\n\
          8 LOADB 2 1 0\n\
          9 LOADN 4 2\n\
          10 JUMPIFLE 4 2 0\n\
          12 LOADB 3 0 1\n\
          13 LOADB 3 1 0\n\
          14 LOADN 5 1\n\
          15 JUMPIFNOTEQ 0 2 5\n\
          17 LOADB 4 0 1\n\
          18 LOADB 4 1 0\n\
          19 MINUS 5 0\n\
          20 LOADK 6 1\n\
          21 LENGTH 6 6\n\
          22 IDIVK 7 0 2\n\
          23 LOADN 8 2\n\
          24 POW 8 8 0\n\
          25 SUBRK 9 3 0\n\
          26 CALL 1 9 1\n\
          27 RETURN 0 1\n\
          main 0\n",
    ),
    (
        b"do local a = 1 local function f() return a end end local b = 2",
        b"proto 0 1 0 1 0\n\
          0 GETUPVAL 0 0\n\
          1 RETURN 0 2\n\
          2 RETURN 0 1\n\
          proto 1 2 0 0 1\n\
          child 0 0\n\
          0 PREPVARARGS 0\n\
          1 LOADN 0 1\n\
          2 NEWCLOSURE 1 0\n\
          3 CAPTURE 1 0\n\
          4 CLOSEUPVALS 0\n\
          5 LOADN 0 2\n\
          6 RETURN 0 1\n\
          main 1\n",
    ),
    (
        b"local function f() return f() end return f(), 1",
        b"proto 0 1 0 1 0\n\
          0 GETUPVAL 0 0\n\
          1 CALL 0 1 0\n\
          2 RETURN 0 0\n\
          3 RETURN 0 1\n\
          proto 1 3 0 0 1\n\
          child 0 0\n\
          0 PREPVARARGS 0\n\
          1 NEWCLOSURE 0 0\n\
          2 CAPTURE 1 0\n\
          3 MOVE 1 0\n\
          4 CALL 1 1 2\n\
          5 LOADN 2 1\n\
          6 RETURN 1 3\n\
          7 RETURN 0 1\n\
          main 1\n",
    ),
];

#[test]
fn scripts_have_their_code(rt: HostRuntime) -> Result<(), Fail> {
    for (text, wanted) in &ROWS {
        let found = listing(rt.alloc(), text)?;
        assert_eq!(rt; found.as_slice(), *wanted);
    }
    Ok(())
}
