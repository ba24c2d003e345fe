//! The replies where a script is compiled, and where a chunk is listed.

ghost use Rattle.std.specs.Prelude.{◌≡◌, ℕ, List, IfOk};
ghost use Rattle.chunk_check.specs.Checks.{Checks};
ghost use Rattle.chunk_file.specs.Answers.{IsFault};
ghost use Rattle.chunk_file.specs.Reading.{read_file, IsChunk};
ghost use Rattle.chunk_file.specs.Spelling.{spelling, HasCounts};
ghost use Rattle.chunk_listing.specs.Listing.{listing};
ghost use Rattle.op_words.specs.Chunks.{ChunkOf, chunk_of};
ghost use Rattle.luau_cli.specs.Answer.{AnswersScript, AnswersTree, AnswersList, WritesChunk, IsProper, refusal, chunk_refused_text, written};
ghost use Rattle.luau_cli.specs.Making.{answer_of};
ghost use Rattle.luau_cli.specs.Refusals.{not_compiled, IsChunkRefused};
ghost use Rattle.luau_cli.specs.Readings.{IsSound, IsChunkReading};

use crate::refusal::{ChunkRefusal, ScriptErr};
use crate::reply::Reply;
use crate::script::{Reading, Script, read_script};
use chunk_check::{CheckErr, Checked, check};
use chunk_file::{ChunkErr, has_counts, list, read, write};
use op_words::Chunk;
use resource::OutOfMemory;
use script_compiler::compile;
use std::alloc::Global;
use syntax_tree::{Facts, Level};
use unbuilt_nodes::first_unbuilt;

const CHUNK_REFUSED: u8 = 8;

/// What a script that is compiled answers: why and where it is refused, or the bytes of its chunk.
pub fn reply_to_compile(alloc: Global, source: &[u8]) -> Result<Reply, OutOfMemory>
    ensures answers { IfOk result (λ r. AnswersScript not_compiled WritesChunk source.now (answer_of r)) }
    ensures proper { IfOk result (λ r. IsProper (answer_of r)) }
{
    match read_script(alloc, source)? {
        Reading::Refused(why) => Reply::refused(alloc, ScriptErr::Refused(why)),
        Reading::Accepted(script) => compile_script(alloc, &script),
    }
}

/// The reply to an accepted script that is compiled.
fn compile_script(alloc: Global, script: &Script) -> Result<Reply, OutOfMemory>
    requires { IsSound script.now }
    ensures answers { IfOk result (λ r. AnswersTree not_compiled WritesChunk script.now.tree script.now.names (answer_of r)) }
    ensures proper { IfOk result (λ r. IsProper (answer_of r)) }
{
    match first_unbuilt(&script.tree, &script.bindings, &script.names) {
        Some(at) => Reply::refused(alloc, ScriptErr::NotBuilt { at }),
        None => {
            let facts = Facts::new(alloc);
            let chunk = compile(
                alloc,
                &script.tree,
                &script.bindings,
                &facts,
                &script.names,
                Level::O0,
            )?;
            reply_with_chunk(alloc, &chunk)
        }
    }
}

/// The bytes of a chunk. There is no memory for one whose counts do not fit.
fn reply_with_chunk(alloc: Global, chunk: &Chunk) -> Result<Reply, OutOfMemory>
    ensures { IfOk result (λ r. HasCounts (chunk_of chunk.now) × (answer_of r ≡ written (spelling (chunk_of chunk.now)))) }
{
    if !has_counts(chunk) {
        return Err(OutOfMemory);
    }
    let bytes = write(alloc, chunk)?;
    Ok(Reply::written(alloc, bytes))
}

/// What a chunk that is listed answers: why and where it is refused, or its listing.
pub fn reply_to_list(alloc: Global, bytes: &[u8]) -> Result<Reply, OutOfMemory>
    ensures answers { IfOk result (λ r. AnswersList bytes.now (answer_of r)) }
    ensures proper { IfOk result (λ r. IsProper (answer_of r)) }
{
    match read_chunk(alloc, bytes)? {
        ChunkReading::Refused(why) => refused_chunk(alloc, why),
        ChunkReading::Sound(chunk) => {
            let listing = list(alloc, chunk.chunk())?;
            Ok(Reply::written(alloc, listing))
        }
    }
}

/// The reply to a chunk that is refused.
fn refused_chunk(alloc: Global, why: ChunkRefusal) -> Result<Reply, OutOfMemory>
    ensures { IfOk result (λ r. answer_of r ≡ refusal 8 (chunk_refused_text why)) }
{
    let text = format!(in alloc; "{why}")?;
    Reply::refusal(alloc, CHUNK_REFUSED, b"1 chunk refused: ", text.as_bytes())
}

/// What bytes are found to be: a well-formed chunk, or why they are none.
#[derive(Drop)]
pub enum ChunkReading {
    Sound(Checked),
    Refused(ChunkRefusal),
}

/// Reads a chunk, and checks it. The only error is want of memory.
fn read_chunk(alloc: Global, bytes: &[u8]) -> Result<ChunkReading, OutOfMemory>
    ensures { IfOk result (IsChunkReading bytes.now) }
{
    let chunk = match read(alloc, bytes) {
        Ok(chunk) => chunk,
        Err(error) => return Ok(ChunkReading::Refused(wrong_field(error)?)),
    };
    match check(alloc, chunk) {
        Ok(checked) => Ok(ChunkReading::Sound(checked)),
        Err(error) => Ok(ChunkReading::Refused(broken_rule(error)?)),
    }
}

// Why a file is no chunk, unless memory ran out.
fn wrong_field(error: ChunkErr) -> Result<ChunkRefusal, OutOfMemory>
    ensures { (bytes : List ℕ) → IsFault (read_file bytes) error → IfOk result (IsChunkRefused bytes) }
{
    match error {
        ChunkErr::Truncated { at } => Ok(ChunkRefusal::Truncated { at }),
        ChunkErr::BadMagic { at } => Ok(ChunkRefusal::BadMagic { at }),
        ChunkErr::BadVersion { at } => Ok(ChunkRefusal::BadVersion { at }),
        ChunkErr::BadField { at } => Ok(ChunkRefusal::BadField { at }),
        ChunkErr::Trailing { at } => Ok(ChunkRefusal::Trailing { at }),
        ChunkErr::OutOfMemory => Err(OutOfMemory),
    }
}

// Which rule the code of a chunk breaks, unless memory ran out.
fn broken_rule(error: CheckErr) -> Result<ChunkRefusal, OutOfMemory>
    ensures { (bytes : List ℕ) (c : ChunkOf) → read_file bytes ≡ IsChunk c → Checks c (Err error) → IfOk result (IsChunkRefused bytes) }
{
    match error {
        CheckErr::BadCode { proto, place, rule } => {
            Ok(ChunkRefusal::BadCode { proto, place, rule })
        }
        CheckErr::OutOfMemory => Err(OutOfMemory),
    }
}
