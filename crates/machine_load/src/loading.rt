//! A chunk is loaded.

ghost use Rattle.std.specs.Prelude.{◌≡◌, true, IfOk, OnOk};
ghost use Rattle.op_words.specs.Chunks.{ChunkOf, chunk_of};
ghost use Rattle.value_model.specs.Fresh.{HostFields, fresh};
ghost use Rattle.luau_tables.specs.Worlds.{IsWorld, store_in};
ghost use Rattle.machine_code.specs.Kept.{AreNumbersOf};
ghost use Rattle.machine_load.specs.Beginning.{IsBare};
ghost use Rattle.machine_load.specs.Loaded.{IsLoaded, IsDecoded, AreDecoded, AreShort, unowned};

use crate::beginning::begin;
use crate::imports::imports;
use byte_text::{Bytes, StrId};
use call_frames::Stack;
use checked_runs::loaded_is_safe;
use chunk_check::Checked;
use luau_tables::LibWorld;
use machine_code::{Function, function, imports_keep_code, numbers};
use machine_world::{Code, Machine};
use op_words::{Chunk, Proto};
use resource::OutOfMemory;
use sqlite_items::Items;
use std::alloc::Global;

/// Loads a checked chunk for a script that has no objects yet, of which the world is. The script is then at the start of its main function.
///
/// What nobody owns is as the start of a script with this host says. The only error is want of memory.
pub fn load(alloc: Global, world: &mut LibWorld, checked: &Checked) -> Result<Machine, OutOfMemory>
    requires { IsBare world.old }
    ensures { (host : HostFields) → store_in world.old ≡ unowned (fresh host) → IfOk result (IsLoaded checked.now host world.new) }
{
    loaded_is_safe();
    let chunk = checked.chunk();
    let numbers = note_strings(alloc, world, chunk.strings.as_slice())?;
    let main = chunk.main as usize;
    let function = begin(alloc, world, main)?;
    let code = decode(alloc, world, chunk, numbers.as_slice())?;
    let registers = code.function(main).registers;
    let mut machine = Machine {
        stack: Stack::new(alloc),
        code,
    };
    machine.enter(world, function, registers, &[], &[])?;
    Ok(machine)
}

// The numbers of the chunk's strings, which are noted where they are new.
fn note_strings(
    alloc: Global,
    world: &mut LibWorld,
    strings: &[Bytes],
) -> Result<Items<StrId>, OutOfMemory>
    requires { IsBare world.old }
    ensures numbers { IfOk result (AreNumbersOf world.new.names strings.now) }
    ensures bare { OnOk result (IsBare world.new) }
    ensures same { world.new ≡ record world.old { names = world.new.names } }
    ensures store { OnOk result (store_in world.new ≡ store_in world.old) }
{
    if !are_short(strings) {
        return Err(OutOfMemory);
    }
    let found = numbers(alloc, strings, &mut world.names)?;
    let _distinct = world.names.count();
    Ok(found)
}

/// A text has fewer bytes than this.
const LONGEST_TEXT: usize = 9_007_199_254_740_992;

// Whether each text's length is a whole number.
fn are_short(strings: &[Bytes]) -> bool
    ensures { result ≡ true → AreShort strings.now }
{
    for string in strings {
        if string.as_slice().len() >= LONGEST_TEXT {
            return false;
        }
    }
    true
}

// The functions of the chunk, with what their imports lead to.
fn decode(
    alloc: Global,
    world: &LibWorld,
    chunk: &Chunk,
    numbers: &[StrId],
) -> Result<Code, OutOfMemory>
    requires world { IsWorld world.now }
    requires numbers { AreNumbersOf world.now.names (chunk_of chunk.now).strings numbers.now }
    ensures { IfOk result (AreDecoded world.now chunk.now) }
{
    let mut functions = Items::new(alloc);
    for proto in &chunk.protos {
        functions.push(decoded(alloc, world, proto, numbers)?)?;
    }
    Ok(Code {
        functions,
        main: chunk.main as usize,
    })
}

// A function, with what its imports lead to.
fn decoded(
    alloc: Global,
    world: &LibWorld,
    proto: &Proto,
    numbers: &[StrId],
) -> Result<Function, OutOfMemory>
    requires world { IsWorld world.now }
    ensures { (chunk : ChunkOf) → AreNumbersOf world.now.names chunk.strings numbers.now → IfOk result (IsDecoded chunk world.now proto.now) }
{
    imports_keep_code();
    let plain = function(alloc, proto, numbers)?;
    let imports = imports(alloc, world, &proto.consts, plain.consts.as_slice())?;
    Ok(Function { imports, ..plain })
}
