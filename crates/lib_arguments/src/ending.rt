//! How library functions end that give no values.

ghost use Rattle.std.specs.Prelude.{◌≡◌, MatchResult};
ghost use Rattle.lib_arguments.specs.Rows.{ending_of};

use luau_tables::LibAnswer;
use resource::OutOfMemory;
use value_model::RunErr;
use whole_num::Stop;

/// Why a library function gives no values.
#[derive(Clone, Copy, PartialEq, Eq, Debug)]
pub enum Ending {
    OutOfMemory,
    RunError(RunErr),
    /// The script stops.
    Stop(Stop),
}

impl From<OutOfMemory> for Ending {
    fn from(_: OutOfMemory) -> Ending
        ensures { result ≡ Ending.OutOfMemory }
    {
        Ending::OutOfMemory
    }
}

/// The answer of a library function that has given its values, or has none to give.
pub fn answer(done: Result<(), Ending>) -> Result<LibAnswer, OutOfMemory>
    ensures { result ≡ ending_of done }
{
    match done {
        Ok(()) => Ok(LibAnswer::Values),
        Err(Ending::OutOfMemory) => Err(OutOfMemory),
        Err(Ending::RunError(error)) => Ok(LibAnswer::RunError(error)),
        Err(Ending::Stop(stop)) => Ok(LibAnswer::Stop(stop)),
    }
}
