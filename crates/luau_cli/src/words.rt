//! The words of a command.

ghost use Rattle.std.specs.Prelude.{◌≡◌, ℕ, ◌∷◌, [], List, codes, map, string_bytes, MatchOption};
ghost use Rattle.luau_cli.specs.declared.words.Mode.{Mode};
ghost use Rattle.luau_cli.specs.Command.{IsTurns, IsCommand, mode_word, default_turns};

/// How many turns a script may spend where no word says it.
const DEFAULT_TURNS: u32 = 10_000_000;

/// The most digits of a number of turns.
const TURN_DIGITS: usize = 10;

/// What is done with a file.
#[derive(Clone, Copy)]
pub enum Mode {
    /// A script is run.
    Run,
    /// A script is compiled to a chunk.
    Compile,
    /// A chunk is listed.
    List,
}

/// What the words say: what is done with which file, and the bound on the turns of a script that is run.
#[derive(Clone, Copy)]
pub struct Command<'a> {
    pub mode: Mode,
    pub turns: u32,
    pub file: &'a str,
}

/// The command that the words spell.
pub fn read_command(words: &[String]) -> Option<Command<'_>>
    ensures { MatchOption result
        ((mode : Mode) (turns : ℕ) (file : List ℕ) → IsCommand (map string_bytes words.now) mode turns file → ⊥)
        (λ command. IsCommand (map string_bytes words.now) command.mode command.turns command.file.now) }
{
    match plain_command(words) {
        Some(command) => Some(command),
        None => bounded_command(words),
    }
}

/// What `MODE FILE` says.
fn plain_command(words: &[String]) -> Option<Command<'_>>
    ensures { MatchOption result
        ((mode : Mode) (file : List ℕ) → map string_bytes words.now ≡ mode_word mode ∷ file ∷ [] → ⊥)
        (λ command. (map string_bytes words.now ≡ mode_word command.mode ∷ command.file.now ∷ []) × (command.turns ≡ default_turns)) }
{
    let (mode, file) = mode_and_file(words)?;
    let mode = mode_of(mode)?;
    Some(Command {
        mode,
        turns: DEFAULT_TURNS,
        file,
    })
}

/// Two words, where there are no more.
fn mode_and_file(words: &[String]) -> Option<(&str, &str)>
    ensures { MatchOption result
        ((mode file : List ℕ) → map string_bytes words.now ≡ mode ∷ file ∷ [] → ⊥)
        (λ found. map string_bytes words.now ≡ found.0.now ∷ found.1.now ∷ []) }
{
    match words {
        [mode, file] => Some((mode.as_str(), file.as_str())),
        _ => None,
    }
}

/// What `MODE --turns N FILE` says, if the bound is one.
fn bounded_command(words: &[String]) -> Option<Command<'_>>
    ensures { MatchOption result
        ((mode : Mode) (turns : ℕ) (number file : List ℕ) → map string_bytes words.now ≡ mode_word mode ∷ codes "--turns" ∷ number ∷ file ∷ []
        → IsTurns number turns → ⊥)
        (λ command. (number : List ℕ)
        × (map string_bytes words.now ≡ mode_word command.mode ∷ codes "--turns" ∷ number ∷ command.file.now ∷ []) × IsTurns number command.turns) }
{
    let (mode, number, file) = mode_turns_and_file(words)?;
    let mode = mode_of(mode)?;
    let turns = turns_of(number)?;
    Some(Command { mode, turns, file })
}

/// The words around `--turns`, where there are no more.
fn mode_turns_and_file(words: &[String]) -> Option<(&str, &str, &str)>
    ensures { MatchOption result
        ((mode number file : List ℕ) → map string_bytes words.now ≡ mode ∷ codes "--turns" ∷ number ∷ file ∷ [] → ⊥)
        (λ found. map string_bytes words.now ≡ found.0.now ∷ codes "--turns" ∷ found.1.now ∷ found.2.now ∷ []) }
{
    match words {
        [mode, option, number, file] if option.as_str() == "--turns" => {
            Some((mode.as_str(), number.as_str(), file.as_str()))
        }
        _ => None,
    }
}

/// The mode that a word names.
fn mode_of(word: &str) -> Option<Mode>
    ensures { MatchOption result ((mode : Mode) → word.now ≡ mode_word mode → ⊥) (λ mode. word.now ≡ mode_word mode) }
{
    if word == "run" {
        Some(Mode::Run)
    } else if word == "compile" {
        Some(Mode::Compile)
    } else if word == "list" {
        Some(Mode::List)
    } else {
        None
    }
}

/// A number of turns: 1 to 10 decimal digits, below 2^32.
fn turns_of(word: &str) -> Option<u32>
    ensures { MatchOption result ((turns : ℕ) → IsTurns word.now turns → ⊥) (IsTurns word.now) }
{
    if word.len() > TURN_DIGITS || word.starts_with('+') {
        return None;
    }
    word.parse().ok()
}
