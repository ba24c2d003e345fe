//! Broken rules, and the first of them.

ghost use Rattle.chunk_check.specs.Faults as spec;
ghost use Rattle.chunk_check.specs.Faults.{fault_of};
ghost use Rattle.machine_meaning.specs.WellFormed as rules;
ghost use Rattle.std.specs.Prelude.{◌≡◌, option_map};

/// A broken rule, with its prototype and place.
#[derive(Clone, Copy)]
pub(crate) struct Fault {
    pub(crate) proto: usize,
    pub(crate) place: usize,
    pub(crate) rule: u8,
}

impl Fault {
    // By prototype, then by place, then by the number of the rule.
    fn precedes(self, other: Fault) -> bool
        ensures { result ≡ rules.precedes (fault_of self) (fault_of other) }
    {
        self.proto < other.proto
            || self.proto == other.proto
                && (self.place < other.place || self.place == other.place && self.rule < other.rule)
    }
}

/// The first of two faults.
pub(crate) fn sooner(a: Option<Fault>, b: Option<Fault>) -> Option<Fault>
    ensures { option_map fault_of result ≡ spec.sooner (option_map fault_of a) (option_map fault_of b) }
{
    match (a, b) {
        (None, _) => b,
        (Some(_), None) => a,
        (Some(first), Some(second)) => Some(if second.precedes(first) {
            second
        } else {
            first
        }),
    }
}

/// A broken rule, with its prototype and place.
pub(crate) fn located(proto: usize, place: usize, rule: Option<u8>) -> Option<Fault>
    ensures { option_map fault_of result ≡ spec.located proto place rule }
{
    match rule {
        Some(rule) => Some(Fault { proto, place, rule }),
        None => None,
    }
}
