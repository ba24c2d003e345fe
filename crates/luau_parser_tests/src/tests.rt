mod lexing;
mod printing;

use byte_text::Interner;
use lexing::tokens;
use luau_parser::{example_refusals, example_trees, one_tree, parse, trees_are_proper};
use printing::Printer;
use std::process::Abort;
use std::test::Fail;
use syntax_tree::Token;

// Texts, with what follows the parameters of the main function in their printed trees.
static TREES: [(&str, &str); 52] = [
    ("", ""),
    ("a = 1", " (set a = 1)"),
    ("a, b.c = d, nil", " (set a (b.c) = d nil)"),
    ("a[1] += 2", " (+= (at a 1) 2)"),
    ("a ..= b", " (..= a b)"),
    ("a()", " (do (call a))"),
    (
        "a(1, ...)'{b}",
        " (do (call (call (call a 1 ...) ') (table b)))",
    ),
    ("a.b:c(d)", " (do (call (a.b):c d))"),
    ("(a)()", " (do (call (a)))"),
    ("do a() end", " (block (do (call a)))"),
    ("while a do break end", " (while a (break))"),
    ("repeat continue; until a", " (repeat (continue) until a)"),
    (
        "if a then elseif b then c() else end",
        " (if a -> b -> (do (call c)) else)",
    ),
    ("if a then end", " (if a ->)"),
    ("for i = 1, 2 do end", " (for i 1 2:)"),
    (
        "for i: a = 1, 2, 3 do b() end",
        " (for i 1 2 3: (do (call b)))",
    ),
    ("for a, b: c in d, e do end", " (for a b in d e:)"),
    (
        "function a.b:c(d: e, ...: f): g return ... end",
        " (set ((a.b).c) = ((fn self d ...: (return ...))))",
    ),
    ("function a() end", " (set a = ((fn:)))"),
    ("local function a<b, c... = d>(e) end", " (local a (fn e:))"),
    ("local a: b?, c = 1", " (local a c = 1)"),
    ("local a", " (local a =)"),
    ("type a<b> = {c} export type d = e", ""),
    (
        "type = 1 export = 2 continue = 3",
        " (set type = 1) (set export = 2) (set continue = 3)",
    ),
    ("continue()", " (do (call continue))"),
    ("return", " (return)"),
    ("return;", " (return)"),
    ("return a, 1;", " (return a 1)"),
    (
        "return a or b or c and d",
        " (return (or (or a b) (and c d)))",
    ),
    (
        "return a and b < c == d",
        " (return (and a (== (< b c) d)))",
    ),
    (
        "return a < b .. c .. d + 1",
        " (return (< a (.. b c (+ d 1))))",
    ),
    (
        "return a > b, a <= b, a >= b, a ~= b",
        " (return (> a b) (<= a b) (>= a b) (~= a b))",
    ),
    (
        "return a - b + c * d / e // f % g",
        " (return (+ (- a b) (% (// (/ (* c d) e) f) g)))",
    ),
    ("return - a * b", " (return (* (- a) b))"),
    ("return not a == b", " (return (== (not a) b))"),
    ("return - a ^ - b ^ c", " (return (- (^ a (- (^ b c)))))"),
    ("return # a .. b", " (return (.. (# a) b))"),
    ("return a :: b ^ c", " (return (^ (a) c))"),
    ("return - a :: b", " (return (- (a)))"),
    (
        "return nil, true, false, 1, ', ...",
        " (return nil true false 1 ' ...)",
    ),
    ("return function(a) end", " (return ((fn a:)))"),
    (
        "return if a then b else c + 1",
        " (return (if a -> b else (+ c 1)))",
    ),
    (
        "return 1 + if a then b elseif c then d else e or f",
        " (return (+ 1 (if a -> b c -> d else (or e f))))",
    ),
    ("return {}", " (return (table))"),
    (
        "return {a, b = c; [d] = e, f == g,}",
        " (return (table a b=c [d]=e (== f g)))",
    ),
    (
        "return `, @ a $ b ! .. c",
        " (return (interp `) (.. (interp @ $ ! a b) c))",
    ),
    ("return (a)[b].c", " (return ((at (a) b).c))"),
    ("a.b 'c = 1", " (do (call (a.b) ')) (set c = 1)"),
    ("a = b :: typeof(c(1)) d()", " (set a = (b)) (do (call d))"),
    (
        "a = function() do return end end",
        " (set a = ((fn: (block (return)))))",
    ),
    (
        "return if a then b else c :: d :: e",
        " (return ((if a -> b else (c))))",
    ),
    (
        "a = 1; b = 2; return a\n",
        " (set a = 1) (set b = 2) (return a)",
    ),
];

// Texts that are refused: by 10 Unexpected, 11 TooDeep or 12 AmbiguousCall, and where.
static REFUSALS: [(&str, u8, usize); 25] = [
    ("a", 10, 1),
    ("a = 1 1", 10, 6),
    ("a() = 1", 10, 4),
    ("(a) = 1", 10, 4),
    ("a, b() = 1", 10, 7),
    ("break a", 10, 6),
    ("continue a()", 10, 9),
    ("continue; a()", 10, 10),
    ("return;;", 10, 7),
    ("return 1 a()", 10, 9),
    ("end", 10, 0),
    ("do", 10, 2),
    ("if a then", 10, 9),
    ("a = b :: c :: d", 10, 11),
    ("a = {b c}", 10, 7),
    ("a = {b = }", 10, 9),
    ("a.1 = 2", 10, 2),
    ("a = if b then c", 10, 15),
    ("for a, b = 1, 2 do end", 10, 9),
    ("function a.b:c.d() end", 10, 14),
    ("local function a(..., b) end", 10, 20),
    ("a = @ b", 10, 7),
    ("a = b\n(c)()", 12, 6),
    ("a\n()", 12, 2),
    ("a = b:c\n(d)", 12, 8),
];

fn expect_tree(rt: &(impl Abort + AllocGlobal), text: &str, wanted: &str) -> Result<(), Fail> {
    let alloc = rt.alloc();
    let tokens = tokens(alloc, text.as_bytes())?;
    match parse(alloc, tokens.as_slice(), &mut Interner::new(alloc)) {
        Ok(tree) => {
            let mut printer = Printer::new(alloc);
            printer.func(&tree.main)?;
            let mut expected = Vec::from_slice(alloc, b"(fn ...:")?;
            expected.extend_from_slice(wanted.as_bytes())?;
            expected.push(b')')?;
            assert_eq!(*rt; printer.out.as_slice(), expected.as_slice());
            assert!(*rt; printer.numbered);
            assert_eq!(*rt; printer.next, tree.nodes);
        }
        Err(_) => return Err(Fail::from("refused")),
    }
    Ok(())
}

fn expect_refusal(
    rt: &(impl Abort + AllocGlobal),
    tokens: &[Token],
    cause: u8,
    place: usize,
) -> Result<(), Fail> {
    match parse(rt.alloc(), tokens, &mut Interner::new(rt.alloc())) {
        Ok(_) => return Err(Fail::from("accepted")),
        Err(error) => match error.refusal() {
            Some(refusal) => assert_eq!(*rt; (refusal.cause.number(), refusal.at), (cause, place)),
            None => return Err(Fail::from("out of memory")),
        },
    }
    Ok(())
}

#[test]
fn texts_have_their_trees(rt: HostRuntime) -> Result<(), Fail> {
    for (text, wanted) in &TREES {
        expect_tree(&rt, text, wanted)?;
    }
    Ok(())
}

#[test]
fn texts_are_refused(rt: HostRuntime) -> Result<(), Fail> {
    for (text, cause, place) in &REFUSALS {
        let tokens = tokens(rt.alloc(), text.as_bytes())?;
        expect_refusal(&rt, tokens.as_slice(), *cause, *place)?;
    }
    Ok(())
}

// `return`, and so many times a text, and then another text.
fn repeated(rt: &impl AllocGlobal, count: usize, part: &[u8], end: &[u8]) -> Result<Vec<u8>, Fail> {
    let mut text = Vec::from_slice(rt.alloc(), b"return ")?;
    for _turn in 0..count {
        for byte in part {
            text.push(*byte)?;
        }
    }
    for byte in end {
        text.push(*byte)?;
    }
    Ok(text)
}

// Parts that nest, with what stands behind the last and how far into a part its opening token is.
static NESTING: [(&[u8], &[u8], usize); 5] = [
    (b"(", b"", 0),
    (b"{", b"", 0),
    (b"not ", b"a", 0),
    (b"a.", b"a", 1),
    (b"1+", b"1", 1),
];

// Of parts that fill so many bytes, 200 are read, and the 201st is refused at its opening token.
fn expect_too_deep(rt: &(impl Abort + AllocGlobal), len: usize) -> Result<(), Fail> {
    for (part, end, offset) in &NESTING {
        let text = repeated(rt, len / part.len().max(1), part, end)?;
        let tokens = tokens(rt.alloc(), text.as_slice())?;
        let place = (200 * part.len()).saturating_add(*offset).saturating_add(7);
        expect_refusal(rt, tokens.as_slice(), 11, place)?;
    }
    Ok(())
}

#[test]
fn two_hundred_nodes_nest(rt: HostRuntime) -> Result<(), Fail> {
    expect_too_deep(&rt, 804)
}

// Under `rt try` this takes long.
#[test]
fn a_megabyte_does_not_nest(rt: HostRuntime) -> Result<(), Fail> {
    expect_too_deep(&rt, 1048576)
}

// An expression in so many parentheses.
fn enclosed(rt: &impl AllocGlobal, count: usize) -> Result<Vec<Token>, Fail> {
    let mut text = repeated(rt, count, b"(", b"1")?;
    for _turn in 0..count {
        text.push(b')')?;
    }
    tokens(rt.alloc(), text.as_slice())
}

#[test]
fn two_hundred_parentheses_are_read(rt: HostRuntime) -> Result<(), Fail> {
    let tokens = enclosed(&rt, 200)?;
    match parse(
        rt.alloc(),
        tokens.as_slice(),
        &mut Interner::new(rt.alloc()),
    ) {
        Ok(tree) => assert_eq!(rt; tree.nodes, 203),
        Err(_) => return Err(Fail::from("refused")),
    }
    let tokens = enclosed(&rt, 201)?;
    expect_refusal(&rt, tokens.as_slice(), 11, 207)
}

#[test]
fn a_chain_of_two_hundred_is_read(rt: HostRuntime) -> Result<(), Fail> {
    for part in [b"1+", b"a.", b"--"] {
        let text = repeated(&rt, if part == b"--" { 100 } else { 200 }, part, b"a")?;
        let tokens = tokens(rt.alloc(), text.as_slice())?;
        match parse(
            rt.alloc(),
            tokens.as_slice(),
            &mut Interner::new(rt.alloc()),
        ) {
            Ok(tree) => assert!(rt; tree.nodes > 200),
            Err(_) => return Err(Fail::from("refused")),
        }
    }
    Ok(())
}

#[test]
fn laws(rt: HostRuntime) -> Result<(), Fail> {
    one_tree();
    trees_are_proper();
    example_trees();
    example_refusals();
    Ok(())
}
