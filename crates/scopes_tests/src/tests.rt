//! What names of short texts are bound to, and what is refused, by the lexer and the parser.

use byte_text::{Interner, StrId};
use luau_lexer::lex;
use luau_parser::parse;
use scope_laws::{
    declared_have_entries, functions_capture, locals_are_told, names_are_seen, names_in_scope,
    nodes_have_firsts,
};
use scopes::{ScopeErr, resolve};
use std::alloc::Global;
use std::test::Fail;
use syntax_tree::{Bindings, Bound, Tree};

fn tree(alloc: Global, text: &[u8]) -> Result<Tree, Fail> {
    let mut names = Interner::new(alloc);
    match lex(alloc, text, &mut names) {
        Ok(tokens) => match parse(alloc, tokens.as_slice(), &mut names) {
            Ok(tree) => Ok(tree),
            Err(_) => Err(Fail::from("no tree")),
        },
        Err(_) => Err(Fail::from("no tokens")),
    }
}

fn bindings(alloc: Global, text: &[u8]) -> Result<Bindings, Fail> {
    let tree = tree(alloc, text)?;
    match resolve(alloc, &tree) {
        Ok(bindings) => Ok(bindings),
        Err(_) => Err(Fail::from("refused")),
    }
}

// The number of the broken rule, and where; 0 where none is.
fn refusal(alloc: Global, text: &[u8]) -> Result<(u8, usize), Fail> {
    let tree = tree(alloc, text)?;
    Ok(match resolve(alloc, &tree) {
        Ok(_) => (0, 0),
        Err(error) => match error.refusal() {
            Some(refusal) => (refusal.cause.number(), refusal.at),
            None => return Err(Fail::from("out of memory")),
        },
    })
}

// Texts, and what the names in them are bound to, in the order of the text: a letter and a number each. `g` is global.
const NAMES: [(&str, &str); 9] = [
    // A local is visible from the next statement on, and the latest one is meant.
    ("local a = a do local a = a end a = b", "g0l0l0g0"),
    ("local a local a = a return a", "l0l1"),
    // A local function sees itself, and a function's name is a target.
    ("local function f() f() end", "u0"),
    ("function f() f() end", "g0g0"),
    // The condition of a `repeat` sees the body's locals, also in a function.
    ("repeat local a until a", "l0"),
    ("repeat local a until (function() return a end)()", "u0"),
    // Variables of loops and parameters are visible in the body alone.
    ("for a = a, a do b = a end return a", "g0g0g0l0g0"),
    ("for a, b in a do return b end", "g0l1"),
    // Variables are captured through functions.
    (
        "local a local function f(b) return function() a = b return a end end",
        "u0u2u0",
    ),
];

#[test]
fn names_are_bound(rt: HostRuntime) -> Result<(), Fail> {
    names_in_scope();
    names_are_seen();
    for (text, expected) in &NAMES {
        let bindings = bindings(rt.alloc(), text.as_bytes())?;
        let mut shown = String::new(rt.alloc());
        for name in bindings.names.as_slice() {
            match name {
                Some(Bound::Global) => shown.push_str("g0")?,
                Some(Bound::Local(k)) => shown.push_str(format!(in rt.alloc(); "l{k}")?.as_str())?,
                Some(Bound::Up(k)) => shown.push_str(format!(in rt.alloc(); "u{k}")?.as_str())?,
                None => {}
            }
        }
        assert_eq!(rt; shown.as_str(), *expected);
    }
    Ok(())
}

// The variables that the node of that number captures, each with a blank behind it.
fn captured(alloc: Global, bindings: &Bindings, node: usize) -> Result<String, Fail> {
    let mut shown = String::new(alloc);
    if let Some(variables) = bindings.upvalues.get(node) {
        for variable in variables.as_slice() {
            shown.push_str(format!(in alloc; "{variable} ")?.as_str())?;
        }
    }
    Ok(shown)
}

// A closure takes its variables in the order in which names stand for them, also those that only a function in it uses.
#[test]
fn variables_have_an_order(rt: HostRuntime) -> Result<(), Fail> {
    functions_capture();
    let text = b"local a, b, c local function f(d) print(c, d) return function() c = b + a end end";
    let bindings = bindings(rt.alloc(), text)?;
    // The nodes 0, 3 and 11 are the bodies of the functions.
    for (node, variables) in [(0, ""), (3, "2 1 0 "), (11, "2 1 0 ")] {
        assert_eq!(rt; captured(rt.alloc(), &bindings, node)?.as_str(), variables);
    }
    Ok(())
}

// The number of the first local that a node declares, by the numbers of the nodes.
#[test]
fn first_locals_are_told(rt: HostRuntime) -> Result<(), Fail> {
    nodes_have_firsts();
    let text =
        b"local a, b for i = 1, 2 do local c end for j, k in a do end local function f(x) end";
    let bindings = bindings(rt.alloc(), text)?;
    // The script, `a`, `i` and its first bound, `c`, `j`, `f` and `x`.
    for (node, first) in [
        (0, 0),
        (1, 0),
        (2, 2),
        (3, 3),
        (5, 3),
        (6, 4),
        (8, 6),
        (9, 7),
    ] {
        assert_eq!(rt; bindings.firsts.get(node), Some(&first));
    }
    assert_eq!(rt; bindings.locals.len(), 8);
    Ok(())
}

// A variable that a function sets two functions further in: each captures it, and it is marked.
#[test]
fn uses_are_marked(rt: HostRuntime) -> Result<(), Fail> {
    locals_are_told();
    declared_have_entries();
    let text = b"local a, b local function f() return function() a = 1 end end b = 2";
    let bindings = bindings(rt.alloc(), text)?;
    // The nodes 3 and 6 are the bodies of the two functions.
    for (node, variables) in [(0, ""), (3, "0 "), (4, ""), (6, "0 ")] {
        assert_eq!(rt; captured(rt.alloc(), &bindings, node)?.as_str(), variables);
    }
    let marks = [(true, true), (false, true), (false, false)];
    assert_eq!(rt; bindings.locals.len(), 3);
    for (local, expected) in bindings.locals.as_slice().iter().zip(marks) {
        assert_eq!(rt; (local.captured, local.assigned), expected);
    }
    Ok(())
}

// Texts, with the number of the rule that they break, and where; 0 where they break none.
const REFUSALS: [(&str, u8, usize); 13] = [
    ("break", 20, 0),
    ("do continue end", 20, 3),
    ("while a do break end", 0, 0),
    ("while a do local function f() break end end", 20, 30),
    (
        "repeat if x then continue end local y until (function() return y end)()",
        21,
        17,
    ),
    ("repeat local y if x then continue end until y", 0, 0),
    ("repeat while a do continue end local y until y", 0, 0),
    ("return ...", 0, 0),
    ("function f() return ... end", 22, 20),
    ("function f(...) return ... end", 0, 0),
    (
        "function f(...) return function() return ... end end",
        22,
        41,
    ),
    // The earlier place goes first, whatever the number.
    (
        "return function() return ... end, function() break end",
        22,
        25,
    ),
    (
        "while a do function f() break end function g() return ... end end",
        20,
        24,
    ),
];

#[test]
fn rules_are_kept(rt: HostRuntime) -> Result<(), Fail> {
    for (text, rule, place) in &REFUSALS {
        let found = refusal(rt.alloc(), text.as_bytes())?;
        assert_eq!(rt; found, (*rule, *place));
    }
    Ok(())
}

// A text, so many times another, and a third.
fn repeated(
    alloc: Global,
    front: &[u8],
    part: &[u8],
    count: usize,
    end: &[u8],
) -> Result<Vec<u8>, Fail> {
    let mut text = Vec::from_slice(alloc, front)?;
    for _turn in 0..count {
        text.extend_from_slice(part)?;
    }
    text.extend_from_slice(end)?;
    Ok(text)
}

// Texts with so many parts: a bulk of 30,000 and of 30,006. The other limits are tried by the whole program.
const LIMITS: [(&[u8], &[u8], usize, &[u8], u8, usize); 2] = [
    (b"do end do end do end ", b"f() ", 1498, b"return", 0, 0),
    (b"do end do end do end ", b"f() ", 1498, b"return 1", 26, 0),
];

#[test]
fn limits(rt: HostRuntime) -> Result<(), Fail> {
    for (front, part, count, end, rule, place) in &LIMITS {
        let text = repeated(rt.alloc(), front, part, *count, end)?;
        let found = refusal(rt.alloc(), text.as_slice())?;
        assert_eq!(rt; found, (*rule, *place));
    }
    Ok(())
}

// A name in 200 blocks, and one in 200 parentheses.
#[test]
fn a_nest_of_200(rt: HostRuntime) -> Result<(), Fail> {
    let mut text = repeated(rt.alloc(), b"local a ", b"do ", 200, b"a = 1")?;
    for _turn in 0..200 {
        text.extend_from_slice(b" end")?;
    }
    let bindings = bindings(rt.alloc(), text.as_slice())?;
    assert_eq!(rt; bindings.names.get(203), Some(&Some(Bound::Local(0))));
    Ok(())
}

#[test]
fn refusals_are_printed(rt: HostRuntime) -> Result<(), Fail> {
    let rows = [
        (
            ScopeErr::LoopWordOutside { at: 7 },
            "LoopWordOutside 20 at 7",
        ),
        (
            ScopeErr::UntilSkipsLocal { at: 7 },
            "UntilSkipsLocal 21 at 7",
        ),
        (ScopeErr::VarargOutside { at: 7 }, "VarargOutside 22 at 7"),
        (ScopeErr::TooManyLocals { at: 7 }, "TooManyLocals 23 at 7"),
        (
            ScopeErr::TooManyUpvalues { at: 7 },
            "TooManyUpvalues 24 at 7",
        ),
        (ScopeErr::TooWide { at: 7 }, "TooWide 25 at 7"),
        (ScopeErr::TooLong { at: 7 }, "TooLong 26 at 7"),
        (ScopeErr::OutOfMemory, "out of memory"),
    ];
    for (refusal, text) in &rows {
        let shown = format!(in rt.alloc(); "{refusal}")?;
        assert_eq!(rt; shown.as_str(), *text);
    }
    Ok(())
}
