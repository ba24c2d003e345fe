//! The program between its words and its status.

ghost use Rattle.std.specs.Prelude.{◌≡◌, ◌≢◌, ◌≤◌, ℕ, List, ◌⊎◌, ◌↔◌, ◌∷◌, [], Some, length, map, string_bytes, codes, IfOk, IfSome, MatchOption, ◌<◌};
ghost use Rattle.resource.specs.Faults.{Rose};
ghost use Rattle.luau_cli.specs.Answer.{Answer, Answers, AnswersFile, IsDoneBy, HasWork, told_of, IsProper, IsDone, HasRefused};
ghost use Rattle.luau_cli.specs.Command.{IsCommand};
ghost use Rattle.luau_cli.specs.Delivery.{Delivers, change};
ghost use Rattle.luau_cli.specs.Making.{answer_of};
ghost use Rattle.luau_cli.specs.declared.words.Mode.{Mode};

use crate::outcome::reply_to;
use crate::reply::Reply;
use crate::words::{Mode, read_command};
use outside_io::{Files, ReadErr, Sink, put_all, read_all};
use resource::OutOfMemory;
use std::alloc::Global;

const BAD_WORDS: u8 = 2;

const UNREAD: u8 = 4;

pub const OUT_OF_MEMORY: u8 = 6;

const TOO_LARGE: u8 = 10;

/// The greatest size of a file, in bytes.
const SIZE_LIMIT: usize = 1_048_576;

const USAGE: &[u8] = b"usage: luau run|exec|compile|list|gen [options] FILES\n";

/// Does what the words say, and gives the status.
pub fn top<F: Files, O: Sink, E: Sink>(
    alloc: Global,
    words: &[String],
    files: &mut F,
    out: &mut O,
    report: &mut E,
) -> u8
    // The statuses.
    ensures statuses { (result ≤ 8) ⊎ (result ≡ 10) }

    // What is written and with which status, but for want of memory. Of files that tell their contents the answer is as these say.
    ensures answer { result ≢ 6 →
        (a : Answer) × Answers (F.contents files.old) (map string_bytes words.entry.now) (F.faults files.old) (F.faults files.new) a
        × Delivers a
        (change (O.bytes out.old) (O.bytes out.new) (O.faults out.old) (O.faults out.new))
        (change (E.bytes report.old) (E.bytes report.new) (E.faults report.old) (E.faults report.new))
        result }

    // What a mode takes, in a file that is there, is run, compiled or listed, but for want of memory and where a read or a write fails.
    ensures runs { IfSome (F.contents files.old) (λ told. (mode : Mode)
        → HasWork told (map string_bytes words.entry.now) mode
        → (Rose (F.faults files.old) (F.faults files.new) → ⊥)
        → (Rose (O.faults out.old) (O.faults out.new) → ⊥)
        → (Rose (E.faults report.old) (E.faults report.new) → ⊥)
        → IsDoneBy mode result ⊎ (result ≡ 6)) }

    // What holds whatever the files and sinks tell.
    ensures other_words { (result ≡ 2) ↔ ((mode : Mode) (turns : ℕ) (file : List ℕ) → IsCommand (map string_bytes words.entry.now) mode turns file → ⊥) }
    ensures read_fault { F.faults files.new ≢ F.faults files.old → (result ≡ 4) ⊎ (result ≡ 6) }
    ensures write_fault { result ≡ 5 → Rose (O.faults out.old) (O.faults out.new) ⊎ Rose (E.faults report.old) (E.faults report.new) }
    ensures ended { IsDone result → (F.faults files.new ≡ F.faults files.old)
        × (O.faults out.new ≡ O.faults out.old) × (E.faults report.new ≡ E.faults report.old) }
    ensures refused { HasRefused result → (O.bytes out.new ≡ O.bytes out.old) × (O.faults out.new ≡ O.faults out.old) }
    ensures contents { F.contents files.new ≡ F.contents files.old }
{
    let Some(command) = read_command(words) else {
        let _ = put_all(report, USAGE);
        return BAD_WORDS;
    };
    match reply_for(alloc, command.mode, command.file, command.turns, files) {
        Ok(reply) => reply.deliver(out, report),
        Err(OutOfMemory) => OUT_OF_MEMORY,
    }
}

/// The reply for a file.
fn reply_for<F: Files>(
    alloc: Global,
    mode: Mode,
    file: &str,
    turns: u32,
    files: &mut F,
) -> Result<Reply, OutOfMemory>
    ensures answers { IfOk result (λ r.
        AnswersFile mode file.now turns (F.faults files.old) (F.faults files.new) (told_of (F.contents files.old) file.now) (answer_of r)) }
    ensures proper { IfOk result (λ r. IsProper (answer_of r)) }
    ensures quiet { IfOk result (λ r. r.status ≢ 4 → F.faults files.new ≡ F.faults files.old) }
    ensures fault { F.faults files.new ≢ F.faults files.old → IfOk result (λ r. r.status ≡ 4) }
    ensures contents { F.contents files.new ≡ F.contents files.old }
{
    match read_all(alloc, files, file, SIZE_LIMIT) {
        Ok(bytes) => reply_to(alloc, mode, bytes.as_slice(), turns),
        Err(ReadErr::Missing) => Reply::refusal(alloc, UNREAD, b"missing: ", file.as_bytes()),
        Err(ReadErr::ReadFault) => Reply::refusal(alloc, UNREAD, b"read fault: ", file.as_bytes()),
        Err(ReadErr::TooLarge) => Reply::refusal(alloc, TOO_LARGE, b"too large: ", file.as_bytes()),
        Err(ReadErr::OutOfMemory) => Err(OutOfMemory),
    }
}
