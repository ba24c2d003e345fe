//! The code of a script's functions is linked.

ghost use Rattle.std.specs.Prelude.{◌≡◌, length, map, IfOk};
ghost use Rattle.op_words.specs.Chunks.{proto_of};
ghost use Rattle.code_link.specs.Labels.{IsLinkable};
ghost use Rattle.emit_expr.specs.Puts.{narrow};
ghost use Rattle.emit_expr.specs.Names.{upvalues_at};
ghost use Rattle.link_laws.specs.Laws.{AreLinkable};
ghost use Rattle.script_compiler.specs.Compiled.{IsLinkedProto, AreLinked};

use code_link::{Labelled, Linked, link};
use emit_expr::{Prototype, narrow};
use function_registers::{FuncRegisters, registers_at};
use op_words::Proto;
use resource::OutOfMemory;
use std::alloc::Global;
use syntax_tree::Bindings;

// How many variables a function captures; 255 where they are more.
fn upvalue_count(bindings: &Bindings, func: usize) -> u8
    ensures { result ≡ narrow (length (upvalues_at bindings.now func)) }
{
    match bindings.upvalues.get(func) {
        Some(list) => narrow(list.len()),
        None => 0,
    }
}

fn link_proto(
    alloc: Global,
    bindings: &Bindings,
    sizes: &[FuncRegisters],
    proto: &Prototype,
) -> Result<Proto, OutOfMemory>
    requires { IsLinkable proto.now.items }
    ensures { IfOk result (λ linked. IsLinkedProto sizes.now bindings.now proto.now (proto_of linked)) }
{
    let items = Vec::from_slice(alloc, proto.items.as_slice())?;
    let Linked { code } = link(alloc, Labelled { items })?;
    let consts = Vec::from_slice(alloc, proto.constants.as_slice())?;
    let children = Vec::from_slice(alloc, proto.children.as_slice())?;
    Ok(Proto {
        registers: registers_at(sizes, proto.func),
        params: narrow(proto.params),
        upvalues: upvalue_count(bindings, proto.func),
        vararg: proto.vararg,
        code,
        consts,
        children,
    })
}

/// The functions, each with its code linked.
pub fn link_all(
    alloc: Global,
    bindings: &Bindings,
    sizes: &[FuncRegisters],
    protos: &[Prototype],
) -> Result<Vec<Proto>, OutOfMemory>
    requires { AreLinkable protos.now }
    ensures { IfOk result (λ linked. AreLinked sizes.now bindings.now protos.now (map proto_of linked.items)) }
{
    let mut linked = Vec::new(alloc);
    for proto in protos {
        linked.push(link_proto(alloc, bindings, sizes, proto)?)?;
    }
    Ok(linked)
}
