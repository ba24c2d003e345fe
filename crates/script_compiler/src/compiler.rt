//! A script is compiled.

ghost use Rattle.std.specs.Prelude.{◌≡◌, ◌<◌, ◌≤◌, ◌^◌, [], length, true, IfOk};
ghost use Rattle.syntax_tree.specs.Bound.{bound, faults};
ghost use Rattle.op_words.specs.Chunks.{chunk_of};
ghost use Rattle.script_compiler.specs.Compiled.{IsNumbered, IsCompiled};

use crate::prototypes::link_all;
use crate::texts::texts_of;
use byte_text::Interner;
use emit_expr::{Emitter, long};
use emit_stat::emit_script;
use function_registers::registers;
use link_laws::code_links;
use op_words::Chunk;
use resource::OutOfMemory;
use std::alloc::Global;
use syntax_tree::{Bindings, Facts, Level, Tree};

// There is no memory for a tree of more nodes, or for more locals.
const MOST_NODES: usize = 4_611_686_018_427_387_904;

// There are no more numbers for the strings and functions of a chunk.
const MOST_NUMBERS: usize = 4_294_967_296;

// Whether there are numbers for what was emitted.
fn is_numbered(bindings: &Bindings, code: &Emitter) -> bool
    ensures strings { result ≡ true → length code.now.strings ≤ 2 ^ 32 }
    ensures protos { result ≡ true → length code.now.protos ≤ 2 ^ 32 }
    ensures locals { result ≡ true → length bindings.now.locals < 2 ^ 64 }
{
    code.strings.len() <= MOST_NUMBERS
        && code.protos.len() <= MOST_NUMBERS
        && bindings.locals.len() <= MOST_NODES
}

/// The chunk of a script: the code of each of its functions, and the strings that they name.
///
/// The tree's nodes are numbered in source order, it breaks no rule of scopes and sizes, and the bindings are its own. The facts and the
/// level change nothing yet.
///
/// The only error is want of memory. It is also the answer where there are more than 2^32 functions or strings, which the numbers of a chunk
/// cannot tell.
pub fn compile(
    alloc: Global,
    tree: &Tree,
    bindings: &Bindings,
    _facts: &Facts,
    names: &Interner,
    _level: Level,
) -> Result<Chunk, OutOfMemory>
    requires numbered { IsNumbered tree.now }
    requires bound { bindings.now ≡ bound tree.now }
    requires sound { faults tree.now ≡ [] }
    ensures { IfOk result (λ chunk. IsCompiled tree.now bindings.now names.now (chunk_of chunk)) }
{
    if tree.nodes > MOST_NODES {
        return Err(OutOfMemory);
    }
    code_links();
    let sizes = registers(alloc, &tree.main)?;
    let code = emit_script(alloc, &tree.main, bindings)?;
    if !is_numbered(bindings, &code) {
        return Err(OutOfMemory);
    }
    let strings = texts_of(alloc, names, code.strings.as_slice())?;
    let protos = link_all(alloc, bindings, sizes.as_slice(), code.protos.as_slice())?;
    let main = long(code.protos.len().saturating_sub(1));
    Ok(Chunk {
        strings,
        protos,
        main,
    })
}
