//! Where the first node of a script stands that is not built.

use byte_text::Interner;
use luau_lexer::lex;
use luau_parser::parse;
use scopes::resolve;
use std::alloc::Global;
use std::test::Fail;
use unbuilt_nodes::first_unbuilt;

fn found(alloc: Global, text: &[u8]) -> Result<Option<usize>, Fail> {
    let mut names = Interner::new(alloc);
    let Ok(tokens) = lex(alloc, text, &mut names) else {
        return Err(Fail::from("no tokens"));
    };
    let Ok(tree) = parse(alloc, tokens.as_slice(), &mut names) else {
        return Err(Fail::from("no tree"));
    };
    let Ok(bindings) = resolve(alloc, &tree) else {
        return Err(Fail::from("refused"));
    };
    Ok(first_unbuilt(&tree, &bindings, &names))
}

// Scripts all of which is built: each kind of statement and of expression that is.
const BUILT: [&[u8]; 9] = [
    b"",
    b"local a, b = nil, true, false, 1, 'x' a, b = b a += 1 a ..= 'y' print(a, b)",
    b"local function f(a, ...) if a then return f(...) elseif not a then else end do return end end f()",
    b"local n = 0 while n < 3 do n = n + 1 if n == 2 then continue end break end",
    b"local n = 0 repeat local m = n n = m + 1 until m > 2",
    b"for i = 1, 3 do print(i) end for i = 3, 1, -1 do print(i, -i, #'a', (i)) end",
    b"local x = 1 print(function() x = x + 1 return x end, if x then 1 elseif x then 2 else 3)",
    b"print(type(1), select('#', 1), rawequal(1, 2), 1 // 2 * 3 % 4 ^ 5, 'a' .. 1 .. 'b')",
    b"print(1 < 2 and 3 >= 2 or 1 ~= 2)",
];

// Scripts, and where the first node stands that is not built.
const UNBUILT: [(&[u8], usize); 20] = [
    (b"print({})", 6),
    (b"print((print).x)", 6),
    (b"print(print[1])", 6),
    (b"print:f()", 0),
    (b"print(`a{1}`)", 6),
    (b"for a in print do end", 0),
    (b"print(math)", 6),
    (b"x()", 0),
    (b"x = 1", 0),
    (b"print.x = 1", 0),
    (b"x += 1", 0),
    (b"function x() end", 9),
    (b"local a = 1 a = x", 16),
    (b"if 1 then elseif x then end", 17),
    (b"if 1 then else x() end", 15),
    (b"repeat local a until x", 21),
    (b"for i = 1, 2, x do end", 14),
    (b"local function f() return function() return x end end", 44),
    (b"print(if 1 then 2 else x)", 23),
    (b"local a = 'x' .. x .. y", 17),
];

#[test]
fn what_is_built_has_no_such_node(rt: HostRuntime) -> Result<(), Fail> {
    for text in &BUILT {
        assert_eq!(rt; found(rt.alloc(), text)?, None);
    }
    Ok(())
}

#[test]
fn the_first_node_is_found(rt: HostRuntime) -> Result<(), Fail> {
    for (text, at) in &UNBUILT {
        assert_eq!(rt; found(rt.alloc(), text)?, Some(*at));
    }
    Ok(())
}
