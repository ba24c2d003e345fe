//! Chunks are decoded.

ghost use Rattle.std.specs.Prelude.{List, IfOk};
ghost use Rattle.byte_text.specs.Texts.{AreDistinct};
ghost use Rattle.op_words.specs.Chunks.{ChunkOf, proto_of};
ghost use Rattle.value_model.specs.Values.{Bytes};
ghost use Rattle.machine_code.specs.Code.{HasNoImports, HoldsNoImports, IsCodeOf, IsFunctionOf};
ghost use Rattle.machine_code.specs.Kept.{Adds, AreNumbersOf};
ghost use Rattle.std.specs.Prelude.{◌≡◌};

use crate::code::{Code, Function};
use crate::constants::{no_imports, values};
use crate::lines::lines;
use crate::strings::numbers;
use byte_text::{Interner, StrId};
use chunk_check::Checked;
use op_words::Proto;
use resource::OutOfMemory;
use sqlite_items::Items;
use std::alloc::Global;

/// The chunk's code, decoded. Its strings are noted in the interner.
///
/// No import holds anything yet. Each place of the code is decoded once.
pub fn decode(checked: &Checked, names: &mut Interner, alloc: Global) -> Result<Code, OutOfMemory>
    ensures code { IfOk result (IsCodeOf checked.now names.new) }
    ensures imports { IfOk result HasNoImports }
    ensures names { Adds checked.now.strings names.old names.new }
{
    let chunk = checked.chunk();
    let numbers = numbers(alloc, &chunk.strings, names)?;
    let mut functions = Items::new(alloc);
    for proto in &chunk.protos {
        functions.push(function(alloc, proto, numbers.as_slice())?)?;
    }
    Ok(Code {
        functions,
        main: chunk.main as usize,
    })
}

/// A function, by the numbers of the chunk's strings.
pub fn function(alloc: Global, proto: &Proto, numbers: &[StrId]) -> Result<Function, OutOfMemory>
    ensures code { (chunk : ChunkOf) (texts : List Bytes) → AreNumbersOf texts chunk.strings numbers.now → IfOk result (IsFunctionOf chunk texts (proto_of proto.now)) }
    ensures imports { IfOk result HoldsNoImports }
{
    let lines = lines(alloc, &proto.code)?;
    let consts = values(alloc, &proto.consts, numbers)?;
    let imports = no_imports(alloc, proto.consts.len())?;
    let children = Items::from_slice(alloc, &proto.children)?;
    Ok(Function {
        registers: proto.registers,
        params: proto.params,
        upvalues: proto.upvalues,
        vararg: proto.vararg,
        lines,
        consts,
        imports,
        children,
    })
}
