//! Instructions.

/// An instruction of the machine. A register counts from 0, and a constant is named by its index.
///
/// A jump goes by so many words from the word behind its first, back where the number is negative.
#[derive(Clone, Copy)]
pub enum Insn {
    /// Charges so many turns, 0 or 1.
    Nop {
        turns: i32,
    },
    LoadNil {
        to: u8,
    },
    /// True where `value` is 1, else false; then so many words are passed over.
    LoadB {
        to: u8,
        value: u8,
        skip: u8,
    },
    /// A number into a register.
    LoadN {
        to: u8,
        value: i16,
    },
    /// A constant into a register.
    LoadK {
        to: u8,
        constant: i16,
    },
    Move {
        to: u8,
        from: u8,
    },
    /// The global whose name is a constant, into a register.
    GetGlobal {
        to: u8,
        constant: u32,
    },
    /// A register into the global whose name is a constant.
    SetGlobal {
        from: u8,
        constant: u32,
    },
    GetUpvalue {
        to: u8,
        upvalue: u8,
    },
    SetUpvalue {
        from: u8,
        upvalue: u8,
    },
    /// Closes the open cells of the registers from this one on.
    CloseUpvalues {
        from: u8,
    },
    /// The value of an import, a constant; `path` spells its names again.
    GetImport {
        to: u8,
        constant: i16,
        path: u32,
    },
    GetTable {
        to: u8,
        table: u8,
        key: u8,
    },
    SetTable {
        from: u8,
        table: u8,
        key: u8,
    },
    /// The value under a string, a constant.
    GetTableKS {
        to: u8,
        table: u8,
        constant: u32,
    },
    SetTableKS {
        from: u8,
        table: u8,
        constant: u32,
    },
    /// The value under the number behind `index`, from 1 to 256.
    GetTableN {
        to: u8,
        table: u8,
        index: u8,
    },
    SetTableN {
        from: u8,
        table: u8,
        index: u8,
    },
    /// A closure of a child of the prototype. A `Capture` follows for each of its upvalues.
    NewClosure {
        to: u8,
        child: i16,
    },
    /// The object behind `base`, and in `base` the value that it has under a string, a constant.
    NameCall {
        base: u8,
        object: u8,
        constant: u32,
    },
    /// Calls the function in `base` with the values behind it.
    ///
    /// There is one fewer than `arguments`, or at 0 all up to the top. One fewer than `results` are kept, or at 0 all.
    Call {
        base: u8,
        arguments: u8,
        results: u8,
    },
    /// Returns the values from `base` on, one fewer than `values`, or at 0 all up to the top.
    Return {
        base: u8,
        values: u8,
    },
    Jump {
        by: i16,
    },
    /// Jumps and charges a turn.
    JumpBack {
        by: i16,
    },
    /// Jumps where the register is neither nil nor false.
    JumpIf {
        value: u8,
        by: i16,
    },
    JumpIfNot {
        value: u8,
        by: i16,
    },
    /// Jumps where the two registers are equal, and so on for the other comparisons.
    JumpIfEq {
        left: u8,
        by: i16,
        right: u32,
    },
    JumpIfLe {
        left: u8,
        by: i16,
        right: u32,
    },
    JumpIfLt {
        left: u8,
        by: i16,
        right: u32,
    },
    JumpIfNotEq {
        left: u8,
        by: i16,
        right: u32,
    },
    JumpIfNotLe {
        left: u8,
        by: i16,
        right: u32,
    },
    JumpIfNotLt {
        left: u8,
        by: i16,
        right: u32,
    },
    /// Arithmetic on two registers.
    Add {
        to: u8,
        left: u8,
        right: u8,
    },
    Sub {
        to: u8,
        left: u8,
        right: u8,
    },
    Mul {
        to: u8,
        left: u8,
        right: u8,
    },
    Div {
        to: u8,
        left: u8,
        right: u8,
    },
    Mod {
        to: u8,
        left: u8,
        right: u8,
    },
    Pow {
        to: u8,
        left: u8,
        right: u8,
    },
    Idiv {
        to: u8,
        left: u8,
        right: u8,
    },
    /// Arithmetic on a register and a constant.
    AddK {
        to: u8,
        left: u8,
        constant: u8,
    },
    SubK {
        to: u8,
        left: u8,
        constant: u8,
    },
    MulK {
        to: u8,
        left: u8,
        constant: u8,
    },
    DivK {
        to: u8,
        left: u8,
        constant: u8,
    },
    ModK {
        to: u8,
        left: u8,
        constant: u8,
    },
    PowK {
        to: u8,
        left: u8,
        constant: u8,
    },
    IdivK {
        to: u8,
        left: u8,
        constant: u8,
    },
    /// Arithmetic on a constant and a register.
    SubRK {
        to: u8,
        constant: u8,
        right: u8,
    },
    DivRK {
        to: u8,
        constant: u8,
        right: u8,
    },
    /// The left operand where it is nil or false, else the right one.
    And {
        to: u8,
        left: u8,
        right: u8,
    },
    Or {
        to: u8,
        left: u8,
        right: u8,
    },
    AndK {
        to: u8,
        left: u8,
        constant: u8,
    },
    OrK {
        to: u8,
        left: u8,
        constant: u8,
    },
    /// The values of the registers from `first` to `last`, joined from the right.
    Concat {
        to: u8,
        first: u8,
        last: u8,
    },
    Not {
        to: u8,
        operand: u8,
    },
    Minus {
        to: u8,
        operand: u8,
    },
    Length {
        to: u8,
        operand: u8,
    },
    /// A new table. Its second word is 0.
    NewTable {
        to: u8,
    },
    /// Stores values raw under the whole numbers from `key` on: one fewer than `count` of the registers from `from` on, or at 0 all up to
    /// the top.
    SetList {
        table: u8,
        from: u8,
        count: u8,
        key: u32,
    },
    /// Begins a numeric loop: its limit, step and index stand from `base` on. Jumps where it has no turn.
    ForNPrep {
        base: u8,
        by: i16,
    },
    /// Charges a turn, adds the step, and jumps back where the loop goes on.
    ForNLoop {
        base: u8,
        by: i16,
    },
    /// Begins a generic loop: its generator, state and control stand from `base` on. Jumps to its `ForGLoop`.
    ForGPrep {
        base: u8,
        by: i16,
    },
    /// Charges a turn, asks for so many values, and jumps back unless the first is nil.
    ForGLoop {
        base: u8,
        by: i16,
        variables: u32,
    },
    /// One fewer of the variable arguments than `values`, or at 0 all, into the registers from `base` on.
    GetVarargs {
        base: u8,
        values: u8,
    },
    /// Begins a function that takes any number of arguments, beside so many parameters.
    PrepVarargs {
        parameters: u8,
    },
    /// What the closure before takes: at 0 the value of a register, at 1 the register itself, at 2 an upvalue.
    Capture {
        kind: u8,
        from: u8,
    },
    /// Tries a library function on the arguments of the `Call` that stands `skip` words behind the next one.
    FastCall {
        builtin: u8,
        skip: u8,
    },
    /// The same, of a call with one argument, in a register.
    FastCall1 {
        builtin: u8,
        argument: u8,
        skip: u8,
    },
    /// Of one with two, in registers.
    FastCall2 {
        builtin: u8,
        first: u8,
        skip: u8,
        second: u32,
    },
    /// Of one with two, of which the second is a constant.
    FastCall2K {
        builtin: u8,
        first: u8,
        skip: u8,
        constant: u32,
    },
    /// A far jump.
    JumpX {
        by: i32,
    },
    /// A constant of any number, into a register.
    LoadKX {
        to: u8,
        constant: u32,
    },
    /// Jumps where the register is nil; where the top bit of `test` is set, where it is not.
    JumpXEqKNil {
        value: u8,
        by: i16,
        test: u32,
    },
    /// The same, where it is the boolean that the low bit of `test` says.
    JumpXEqKB {
        value: u8,
        by: i16,
        test: u32,
    },
    /// The same, where it is the number that is the constant of the low 24 bits of `test`.
    JumpXEqKN {
        value: u8,
        by: i16,
        test: u32,
    },
    /// The same of a string.
    JumpXEqKS {
        value: u8,
        by: i16,
        test: u32,
    },
}
