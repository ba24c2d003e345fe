//! Why a chunk is not well formed.

ghost use Rattle.std.specs.Prelude.{◌≡◌};
ghost use Rattle.std.specs.Option.{option_copied};
ghost use Rattle.chunk_check.specs.Causes.{number_of, rule_named, rule_of};

/// Why a chunk is not well formed: the first broken rule, by its prototype, the place of the instruction in words, and its number.
#[derive(Clone, Copy, PartialEq, Eq, Debug)]
pub enum CheckErr {
    BadCode {
        proto: usize,
        place: usize,
        rule: u8,
    },
    OutOfMemory,
}

impl CheckErr {
    /// The number of the cause, 35; none for want of memory.
    pub fn number(self) -> Option<u8>
        ensures { result ≡ number_of self }
    {
        match self {
            CheckErr::BadCode { .. } => Some(35),
            CheckErr::OutOfMemory => None,
        }
    }

    /// The name of the rule; none for want of memory.
    pub fn rule_name(self) -> Option<&'static str>
        ensures { option_copied result ≡ rule_of self }
    {
        match self {
            CheckErr::BadCode { rule, .. } => named(rule),
            CheckErr::OutOfMemory => None,
        }
    }
}

fn named(rule: u8) -> Option<&'static str>
    ensures { option_copied result ≡ rule_named rule }
{
    match rule {
        1 => Some("Opcode"),
        2 => Some("Register"),
        3 => Some("Constant"),
        4 => Some("Upvalue"),
        5 => Some("Child"),
        6 => Some("Jump"),
        7 => Some("Back"),
        8 => Some("Pair"),
        9 => Some("Top"),
        10 => Some("Fall"),
        11 => Some("Proto"),
        _ => None,
    }
}
