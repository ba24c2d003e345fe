//! How many registers each function of a script has.
#![tactic(auto)]

mod walk;

ghost use Rattle.std.specs.Prelude.{◌≡◌, IfOk};
ghost use Rattle.function_registers.specs.Registers as spec;

use resource::OutOfMemory;
use sqlite_items::Items;
use std::alloc::Global;
use syntax_tree::FuncBody;
pub use walk::FuncRegisters;
use walk::note_func;

/// The registers of a function and of those in it.
pub fn registers(alloc: Global, main: &FuncBody) -> Result<Items<FuncRegisters>, OutOfMemory>
    ensures { IfOk result (λ list. list ≡ spec.all_entries main.now) }
{
    let mut entries = Items::new(alloc);
    note_func(&mut entries, main)?;
    Ok(entries)
}

/// How many registers a function has; 1 where it is not in the list.
pub fn registers_at(list: &[FuncRegisters], func: usize) -> u8
    ensures { result ≡ spec.registers_in func list.now }
{
    for entry in list {
        if entry.func == func {
            return entry.registers;
        }
    }
    1
}
