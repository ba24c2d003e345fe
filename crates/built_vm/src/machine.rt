//! The machine's registers and output, and what each instruction does to them.

ghost use Rattle.std.specs.Prelude.{◌≡◌, ◌+◌, ◌^◌, ◌<◌, ◌++◌, pos, ◌+ℤ◌, [], nat_eq, not, option_map, slice_get, IfOk, OnOk};
ghost use Rattle.std.specs.Fmt.{signed_decimal};
ghost use Rattle.op_words.specs.declared.insn.Insn.{Insn};
ghost use Rattle.built_values.specs.declared.value.Value.{Value};
ghost use Rattle.built_values.specs.Operations.{as_value, equal, less, less_or_equal};
ghost use Rattle.built_machine.specs.States.{put, start};
ghost use Rattle.built_machine.specs.Steps.{at, branch, call, charge, constant_at, fetch, give, jump, leave, load, row};
ghost use Rattle.built_vm.specs.Shown.{line_of};
ghost use Rattle.built_vm.specs.Moves.{registers_of, Makes};

use crate::operations::{difference, equal, less, less_or_equal, product, sum};
use crate::running::Ran;
use built_machine::Constant;
use built_values::{End, Value};
use byte_text::StrId;
use op_words::Insn;
use resource::OutOfMemory;
use std::alloc::Global;
use whole_num::{Stop, Whole, print_into};

/// What an instruction did: it leads to a place, it leads there once a turn is charged, or the code ends.
#[derive(Clone, Copy)]
pub(crate) enum Moved {
    Goes(usize),
    Charges(usize),
    Ends(End),
}

/// Where an instruction stands.
#[derive(Clone, Copy)]
pub(crate) struct Here {
    /// The place of its first word.
    pub place: usize,
    /// The place behind its last word.
    pub next: usize,
}

/// The registers, and what was printed so far.
#[derive(Drop)]
pub(crate) struct Machine {
    registers: [Value; 256],
    output: Vec<u8>,
}

impl Machine {
    pub fn new(alloc: Global) -> Machine
        ensures registers { registers_of result.registers ≡ start.registers }
        ensures output { result.output.items ≡ [] }
    {
        Machine {
            registers: [Value::Nil; 256],
            output: Vec::new(alloc),
        }
    }

    pub fn end(self, end: End) -> Ran
        ensures { result ≡ record { output = self.output; end = end } }
    {
        let Machine {
            registers: _,
            output,
        } = self;
        Ran { output, end }
    }

    /// Does what an instruction says, but charges no turn.
    ///
    /// After `OutOfMemory` part of a line may stand in the output.
    pub fn step(
        &mut self,
        constants: &[Constant],
        insn: Insn,
        here: Here,
    ) -> Result<Moved, OutOfMemory>
        requires { here.place < 2 ^ 62 }
        ensures { IfOk result (λ moved. Makes
            (row constants.now insn here.place here.next (registers_of self.old.registers)) moved self.old self.new) }
    {
        match insn {
            Insn::PrepVarargs { parameters: _ } => Ok(Moved::Goes(here.next)),
            Insn::LoadN { to, value } => Ok(self.load_number(to, value, here)),
            Insn::LoadK { to, constant } => Ok(self.load_constant(constants, to, constant, here)),
            Insn::Move { to, from } => Ok(self.copy(to, from, here)),
            Insn::GetGlobal { to, constant } => Ok(self.load_global(constants, to, constant, here)),
            Insn::Call {
                base,
                arguments,
                results,
            } => self.call(base, arguments, results, here),
            Insn::Return { base: _, values } => Ok(self.leave(values)),
            Insn::Jump { by } => Ok(self.jump(by, here)),
            Insn::JumpBack { by } => Ok(self.jump_back(by, here)),
            Insn::JumpIfEq { left, by, right } => Ok(self.branch(
                self.equal(left, right),
                by,
                here,
            )),
            Insn::JumpIfLe { left, by, right } => Ok(self.branch(
                self.less_or_equal(left, right),
                by,
                here,
            )),
            Insn::JumpIfLt { left, by, right } => Ok(self.branch(self.less(left, right), by, here)),
            Insn::JumpIfNotEq { left, by, right } => Ok(self.branch(
                not(self.equal(left, right)),
                by,
                here,
            )),
            Insn::JumpIfNotLe { left, by, right } => Ok(self.branch(
                not(self.less_or_equal(left, right)),
                by,
                here,
            )),
            Insn::JumpIfNotLt { left, by, right } => Ok(self.branch(
                not(self.less(left, right)),
                by,
                here,
            )),
            Insn::Add { to, left, right } => Ok(self.add(to, left, right, here)),
            Insn::Sub { to, left, right } => Ok(self.sub(to, left, right, here)),
            Insn::Mul { to, left, right } => Ok(self.mul(to, left, right, here)),
            _ => Ok(Moved::Ends(End::Stuck)),
        }
    }

    // A register. Those behind the last are as if they held nil.
    fn read(&self, register: usize) -> Value
        ensures { result ≡ registers_of self.now.registers register }
    {
        self.registers.get(register).copied().unwrap_or(Value::Nil)
    }

    // Writes a register, and goes on.
    fn write(&mut self, to: u8, value: Value, here: Here) -> Moved
        ensures { Makes (at here.next (put (registers_of self.old.registers) to value)) result self.old self.new }
    {
        self.registers[to as usize] = value;
        Moved::Goes(here.next)
    }

    // Writes what an operation gave, or ends.
    fn give(&mut self, to: u8, outcome: Option<Result<Whole, Stop>>, here: Here) -> Moved
        ensures { Makes
            (give (option_map as_value outcome) to here.next (registers_of self.old.registers)) result self.old self.new }
    {
        match outcome {
            Some(Ok(value)) => self.write(to, Value::Number(value), here),
            Some(Err(stop)) => Moved::Ends(End::Stopped(stop)),
            None => Moved::Ends(End::Stuck),
        }
    }

    fn load_number(&mut self, to: u8, value: i16, here: Here) -> Moved
        ensures { Makes
            (at here.next (put (registers_of self.old.registers) to (Value.Number value))) result self.old self.new }
    {
        let number = Whole::new(i64::from(value)).unwrap();
        self.write(to, Value::Number(number), here)
    }

    fn load_constant(&mut self, constants: &[Constant], to: u8, at: i16, here: Here) -> Moved
        ensures { Makes
            (load (constant_at constants.now at) to here.next (registers_of self.old.registers)) result self.old self.new }
    {
        match &constant_at(constants, at) {
            Some(Constant::Number(number)) => self.write(to, Value::Number(*number), here),
            _ => Moved::Ends(End::Stuck),
        }
    }

    fn copy(&mut self, to: u8, from: u8, here: Here) -> Moved
        ensures { let regs = registers_of self.old.registers in
            Makes (at here.next (put regs to (regs from))) result self.old self.new }
    {
        let value = self.read(usize::from(from));
        self.write(to, value, here)
    }

    // Another name than `print` gives nil.
    fn load_global(&mut self, constants: &[Constant], to: u8, at: u32, here: Here) -> Moved
        ensures { Makes
            (fetch (slice_get constants.now at) to here.next (registers_of self.old.registers)) result self.old self.new }
    {
        match constants.get(at as usize) {
            Some(Constant::Text(name)) if *name == StrId::PRINT => {
                self.write(to, Value::Print, here)
            }
            Some(Constant::Text(_)) => self.write(to, Value::Nil, here),
            _ => Moved::Ends(End::Stuck),
        }
    }

    // Only `print` is called, with one number and for no result.
    #[tactic(auto, unfolding(built_values::specs::Operations::printed))]
    fn call(
        &mut self,
        base: u8,
        arguments: u8,
        results: u8,
        here: Here,
    ) -> Result<Moved, OutOfMemory>
        ensures { let regs = registers_of self.old.registers in IfOk result (λ moved. Makes
            (call (regs base) (regs (base + 1)) (nat_eq arguments 2) (nat_eq results 1) here.next regs)
            moved self.old self.new) }
    {
        if arguments != 2 || results != 1 {
            return Ok(Moved::Ends(End::Stuck));
        }
        let base = usize::from(base);
        match (&self.read(base), &self.read(base + 1)) {
            (Value::Print, Value::Number(number)) => {
                self.print(*number)?;
                Ok(Moved::Goes(here.next))
            }
            _ => Ok(Moved::Ends(End::Stuck)),
        }
    }

    // A line with the number.
    fn print(&mut self, number: Whole) -> Result<(), OutOfMemory>
        ensures output { OnOk result
            (self.new.output.items ≡ self.old.output.items ++ line_of (signed_decimal number)) }
        ensures registers { self.new.registers ≡ self.old.registers }
    {
        print_into(number, &mut self.output)?;
        self.output.push(b'\n')?;
        Ok(())
    }

    fn leave(&self, values: u8) -> Moved
        ensures { Makes (leave (nat_eq values 1)) result self.now self.now }
    {
        if values == 1 {
            Moved::Ends(End::Ended)
        } else {
            Moved::Ends(End::Stuck)
        }
    }

    fn jump(&self, by: i16, here: Here) -> Moved
        requires { here.place < 2 ^ 62 }
        ensures { Makes (jump by here.place (registers_of self.now.registers)) result self.now self.now }
    {
        match usize::try_from(by) {
            Ok(by) => Moved::Goes(here.place + 1 + by),
            Err(_) => Moved::Ends(End::Stuck),
        }
    }

    fn jump_back(&self, by: i16, here: Here) -> Moved
        requires { here.place < 2 ^ 62 }
        ensures { Makes (charge (pos (here.place + 1) +ℤ by) (registers_of self.now.registers)) result self.now self.now }
    {
        let to = here.place as i64 + 1 + i64::from(by);
        match usize::try_from(to) {
            Ok(to) => Moved::Charges(to),
            Err(_) => Moved::Ends(End::Stuck),
        }
    }

    // Jumps where the answer is true.
    fn branch(&self, answer: Option<bool>, by: i16, here: Here) -> Moved
        requires { here.place < 2 ^ 62 }
        ensures { Makes
            (branch answer by here.place here.next (registers_of self.now.registers)) result self.now self.now }
    {
        match answer {
            Some(true) => self.jump(by, here),
            Some(false) => Moved::Goes(here.next),
            None => Moved::Ends(End::Stuck),
        }
    }

    fn equal(&self, left: u8, right: u32) -> Option<bool>
        ensures { let regs = registers_of self.now.registers in result ≡ equal (regs left) (regs right) }
    {
        equal(self.read(usize::from(left)), self.read(right as usize))
    }

    fn less(&self, left: u8, right: u32) -> Option<bool>
        ensures { let regs = registers_of self.now.registers in result ≡ less (regs left) (regs right) }
    {
        less(self.read(usize::from(left)), self.read(right as usize))
    }

    fn less_or_equal(&self, left: u8, right: u32) -> Option<bool>
        ensures { let regs = registers_of self.now.registers in result ≡ less_or_equal (regs left) (regs right) }
    {
        less_or_equal(self.read(usize::from(left)), self.read(right as usize))
    }

    fn add(&mut self, to: u8, left: u8, right: u8, here: Here) -> Moved
        ensures { Makes
            (row [] (Insn.Add to left right) here.place here.next (registers_of self.old.registers)) result self.old self.new }
    {
        let left = self.read(usize::from(left));
        let right = self.read(usize::from(right));
        self.give(to, sum(left, right), here)
    }

    fn sub(&mut self, to: u8, left: u8, right: u8, here: Here) -> Moved
        ensures { Makes
            (row [] (Insn.Sub to left right) here.place here.next (registers_of self.old.registers)) result self.old self.new }
    {
        let left = self.read(usize::from(left));
        let right = self.read(usize::from(right));
        self.give(to, difference(left, right), here)
    }

    fn mul(&mut self, to: u8, left: u8, right: u8, here: Here) -> Moved
        ensures { Makes
            (row [] (Insn.Mul to left right) here.place here.next (registers_of self.old.registers)) result self.old self.new }
    {
        let left = self.read(usize::from(left));
        let right = self.read(usize::from(right));
        self.give(to, product(left, right), here)
    }
}

fn not(answer: Option<bool>) -> Option<bool>
    ensures { result ≡ option_map not answer }
{
    answer.map(|answer| !answer)
}

fn constant_at(constants: &[Constant], at: i16) -> Option<Constant>
    ensures { result ≡ constant_at constants.now at }
{
    let at = usize::try_from(at).ok()?;
    constants.get(at).copied()
}
