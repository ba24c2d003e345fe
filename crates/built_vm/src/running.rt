//! Runs of code.

ghost use Rattle.std.specs.Prelude.{◌≡◌, IfOk, ℕ, List};
ghost use Rattle.built_values.specs.Runs.{Report};
ghost use Rattle.built_machine.specs.Steps.{Look};
ghost use Rattle.built_machine.specs.Runs.{MachineRun};
ghost use Rattle.built_vm.specs.Shown.{Shows};

use crate::instructions::Instructions;
use crate::machine::{Here, Machine, Moved};
use built_machine::Code;
use built_values::End;
use resource::OutOfMemory;
use std::alloc::Global;

/// What a run printed, and how it ended.
#[derive(Drop)]
pub struct Ran {
    /// The lines, each followed by a line feed.
    pub output: Vec<u8>,
    pub end: End,
}

/// Runs code from its first word, with at most so many turns.
///
/// It ends for all words and constants, whether they are of a script or not: by `End::Stuck` where no instruction stands, or where the one that stands there has no rule.
pub fn run(alloc: Global, code: &Code, turns: u32) -> Result<Ran, OutOfMemory>
    ensures { IfOk result (λ ran. (r : Report (List ℕ) Look)
        × MachineRun code.now.words.items code.now.constants.items turns r × Shows ran r) }
{
    let instructions = Instructions::read(alloc, &code.words)?;
    let mut machine = Machine::new(alloc);
    let mut left = turns;
    let mut place = 0;
    while let Some((insn, next)) = instructions.at(place) {
        match machine.step(&code.constants, insn, Here { place, next })? {
            Moved::Goes(to) => place = to,
            Moved::Charges(to) => {
                if left == 0 {
                    return Ok(machine.end(End::Unfinished));
                }
                left -= 1;
                place = to;
            }
            Moved::Ends(end) => return Ok(machine.end(end)),
        }
    }
    Ok(machine.end(End::Stuck))
}
