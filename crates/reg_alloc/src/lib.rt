//! Which registers of a function are in use: those below a mark.
#![tactic(auto)]

ghost use Rattle.std.specs.Prelude.{◌≡◌, ◌+◌, ◌≤◌};

use std::marker::Model;

/// The registers of a function, from 0 up to a limit. Those below the mark are in use.
#[derive(Clone, Copy, PartialEq, Eq, Debug)]
pub struct Regs {
    mark: u8,
    limit: u8,
}

impl Model for Regs {
    ghost use Rattle.std.specs.Prelude.{◌≤◌};
    ghost use Rattle.reg_alloc.specs.Registers.{Registers};

    ghost Value = { Registers };

    ghost view = { λ r. record { mark = r.mark; limit = r.limit } };

    ghost inverse = { λ v. record { mark = v.mark; limit = v.limit } };

    ghost invariant = { λ r. r.mark ≤ r.limit };
}

impl Regs {
    /// A function whose registers are those below the limit. None of them is in use.
    pub fn new(limit: u8) -> Regs
        ensures { result ≡ record { mark = 0; limit = limit } }
    {
        Regs { mark: 0, limit }
    }

    /// The first register that is not in use.
    pub fn mark(&self) -> u8
        ensures { result ≡ self.now.mark }
    {
        self.mark
    }

    /// Takes the next `n` registers, and gives the first of them.
    pub fn take(&mut self, n: u8) -> u8
        requires { self.old.mark + n ≤ self.old.limit }
        ensures first { result ≡ self.old.mark }
        ensures taken { self.new ≡ record self.old { mark = self.old.mark + n } }
    {
        let first = self.mark;
        self.mark = first + n;
        first
    }

    /// Gives back the registers from a mark on.
    pub fn free_to(&mut self, mark: u8)
        requires { mark ≤ self.old.mark }
        ensures { self.new ≡ record self.old { mark = mark } }
    {
        self.mark = mark;
    }
}
