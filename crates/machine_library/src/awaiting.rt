//! The library waits for texts that it asks for.

ghost use Rattle.std.specs.Prelude.{◌≡◌, List, IfOk, OnOk};
ghost use Rattle.value_model.specs.declared.event.Reply.{Reply};
ghost use Rattle.value_model.specs.declared.value.Value.{Value};
ghost use Rattle.luau_tables.specs.Answers.{MayAnswer};
ghost use Rattle.machine_meaning.specs.Moves as meaning;
ghost use Rattle.machine_world.specs.Sound.{IsMachine};
ghost use Rattle.machine_library.specs.Leads.{IsAsking, IsNext, Leads, LeadsTo};

use crate::next::Next;
use call_frames::ReturnKind;
use luau_tables::{LibAnswer, LibWorld};
use machine_world::Machine;
use resource::OutOfMemory;

/// Does what an answer of the library leads to. Where it asks for a call, it waits for what that gives.
pub(crate) fn follow(
    machine: &mut Machine,
    world: &LibWorld,
    answer: LibAnswer,
) -> Result<Next, OutOfMemory>
    requires sound { IsMachine world.now machine.old.stack }
    requires waits { machine.old.stack.top ≡ 0 }
    requires usable { MayAnswer world.now answer }
    requires asks { IsAsking answer }
    ensures leads { IfOk result (λ next. (m : meaning.Step) (given : List Value) (replies : List Reply) → Leads m answer given world.now machine.old.code machine.old.stack replies → LeadsTo m next given world.now machine.old.code machine.new.stack replies) }
    ensures next { IfOk result (IsNext world.now) }
    ensures sound { OnOk result (IsMachine world.now machine.new.stack) }
    ensures top { OnOk result (machine.new.stack.top ≡ 0) }
    ensures code { machine.new.code ≡ machine.old.code }
{
    match answer {
        LibAnswer::Values => Ok(Next::Gives),
        LibAnswer::Print(line) => Ok(Next::Prints(line)),
        LibAnswer::RunError(error) => Ok(Next::Fails(error)),
        LibAnswer::Raise(v) => Ok(Next::Raises(v)),
        LibAnswer::Stop(stop) => Ok(Next::Stops(stop)),
        LibAnswer::CallBack { callee, args, then } => {
            machine.await_library(world, ReturnKind::Library { rest: then })?;
            Ok(Next::Calls { callee, args })
        }
    }
}
