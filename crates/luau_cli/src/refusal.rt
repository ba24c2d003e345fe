//! Why a script or a chunk is refused, and where.

use chunk_check::CheckErr;
use std::fmt;
use syntax_tree::Refusal;

/// Why a script is refused.
#[derive(Clone, Copy)]
pub enum ScriptErr {
    /// It is not accepted.
    Refused(Refusal),
    /// A node is not built, the first at this offset in bytes. The cause's number is 60.
    NotBuilt { at: usize },
}

impl fmt::Display for ScriptErr {
    ghost use Rattle.std.specs.Prelude.{Some};
    ghost use Rattle.luau_cli.specs.Refusals.{error_text};

    ghost output = { λ e. Some (error_text e) };

    fn fmt<W: fmt::Write>(&self, f: &mut fmt::Formatter<W>) -> fmt::Result {
        match self {
            ScriptErr::Refused(refusal) => write!(f, "{refusal}"),
            ScriptErr::NotBuilt { at } => write!(f, "NotBuilt 60 at {at}"),
        }
    }
}

/// Why bytes are no chunk that can be used: their first wrong field, by its place, or the first rule that the code breaks.
#[derive(Clone, Copy)]
pub enum ChunkRefusal {
    Truncated {
        at: usize,
    },
    BadMagic {
        at: usize,
    },
    BadVersion {
        at: usize,
    },
    BadField {
        at: usize,
    },
    Trailing {
        at: usize,
    },
    BadCode {
        proto: usize,
        place: usize,
        rule: u8,
    },
}

impl fmt::Display for ChunkRefusal {
    ghost use Rattle.std.specs.Prelude.{Some};
    ghost use Rattle.luau_cli.specs.Refusals.{chunk_error_text};

    ghost output = { λ e. Some (chunk_error_text e) };

    fn fmt<W: fmt::Write>(&self, f: &mut fmt::Formatter<W>) -> fmt::Result {
        match self {
            ChunkRefusal::Truncated { at } => write!(f, "Truncated 30 at {at}"),
            ChunkRefusal::BadMagic { at } => write!(f, "BadMagic 31 at {at}"),
            ChunkRefusal::BadVersion { at } => write!(f, "BadVersion 32 at {at}"),
            ChunkRefusal::BadField { at } => write!(f, "BadField 33 at {at}"),
            ChunkRefusal::Trailing { at } => write!(f, "Trailing 34 at {at}"),
            ChunkRefusal::BadCode { proto, place, rule } => {
                let name = rule_text(*rule);
                write!(f, "BadCode 35 at {proto}:{place} {name}")
            }
        }
    }
}

ghost use Rattle.std.specs.Prelude.{◌≡◌};
ghost use Rattle.luau_cli.specs.Refusals.{rule_text};

// The name of a rule.
fn rule_text(rule: u8) -> &'static str
    ensures { result.now ≡ rule_text rule }
{
    let broken = CheckErr::BadCode {
        proto: 0,
        place: 0,
        rule,
    };
    match broken.rule_name() {
        Some(name) => name,
        None => "",
    }
}
