//! Registers that an instruction reads or writes.

ghost use Rattle.machine_meaning.specs.Needs as needs;
ghost use Rattle.machine_meaning.specs.Needs.{fits_range, listed, one, registers_of, three, two};
ghost use Rattle.op_words.specs.declared.insn.Insn.TheVariants.{Capture};
ghost use Rattle.std.specs.List.{list_all};
ghost use Rattle.std.specs.Prelude.{◌≡◌, ◌+◌, ◌^◌, ◌<◌, [], ◌∷◌};

use op_words::Insn;

// Whether so many registers from this one on are among the first `count`.
fn fits(count: u8, from: u64, many: u64) -> bool
    requires { from + many < 2 ^ 64 }
    ensures { result ≡ fits_range count (from, many) }
{
    if many == 0 {
        return true;
    }
    from + many <= u64::from(count)
}

fn fits_one(count: u8, register: u32) -> bool
    ensures { result ≡ list_all (fits_range count) (one register ∷ []) }
{
    fits(count, u64::from(register), 1)
}

fn fits_two(count: u8, first: u8, second: u32) -> bool
    ensures { result ≡ list_all (fits_range count) (two first second) }
{
    fits(count, u64::from(first), 1) && fits(count, u64::from(second), 1)
}

fn fits_three(count: u8, first: u8, second: u8, third: u8) -> bool
    ensures { result ≡ list_all (fits_range count) (three first second third) }
{
    fits_one(count, u32::from(first)) && fits_two(count, second, u32::from(third))
}

// So many less one, or the first of a list without an end.
fn fits_listed(count: u8, from: u64, many: u8) -> bool
    requires { from < 2 ^ 32 }
    ensures { result ≡ fits_range count (listed from many) }
{
    if many == 0 {
        fits(count, from, 1)
    } else {
        fits(count, from, u64::from(many) - 1)
    }
}

fn fits_method(count: u8, base: u8, object: u8) -> bool
    ensures { result ≡ list_all (fits_range count) (three base (base + 1) object) }
{
    fits_one(count, u32::from(base))
        && fits_one(count, u32::from(base) + 1)
        && fits_one(count, u32::from(object))
}

fn fits_call(count: u8, base: u8, arguments: u8, results: u8) -> bool
    ensures { result ≡ list_all (fits_range count) (one base ∷ listed (base + 1) arguments ∷ listed base results ∷ []) }
{
    let first = u64::from(base);
    fits(count, first, 1)
        && fits_listed(count, first + 1, arguments)
        && fits_listed(count, first, results)
}

// A capture of an upvalue names no register.
fn fits_capture(count: u8, kind: u8, from: u8) -> bool
    ensures { result ≡ list_all (fits_range count) (registers_of (Capture kind from)) }
{
    match kind {
        0 | 1 => fits_one(count, u32::from(from)),
        _ => true,
    }
}

/// Whether each register that is read or written, with its range by count, is among the first `count`.
pub(crate) fn fits_registers(count: u8, insn: Insn) -> bool
    ensures { result ≡ list_all (fits_range count) (registers_of insn) }
{
    match insn {
        Insn::LoadNil { to }
        | Insn::NewTable { to }
        | Insn::LoadB { to, .. }
        | Insn::LoadN { to, .. }
        | Insn::LoadK { to, .. }
        | Insn::GetGlobal { to, .. }
        | Insn::GetUpvalue { to, .. }
        | Insn::GetImport { to, .. }
        | Insn::NewClosure { to, .. }
        | Insn::LoadKX { to, .. } => fits_one(count, u32::from(to)),
        Insn::SetGlobal { from: to, .. }
        | Insn::SetUpvalue { from: to, .. }
        | Insn::JumpIf { value: to, .. }
        | Insn::JumpIfNot { value: to, .. }
        | Insn::JumpXEqKNil { value: to, .. }
        | Insn::JumpXEqKB { value: to, .. }
        | Insn::JumpXEqKN { value: to, .. }
        | Insn::JumpXEqKS { value: to, .. }
        | Insn::FastCall1 { argument: to, .. }
        | Insn::FastCall2K { first: to, .. } => fits_one(count, u32::from(to)),
        Insn::Move { to, from }
        | Insn::Not { to, operand: from }
        | Insn::Minus { to, operand: from }
        | Insn::Length { to, operand: from }
        | Insn::GetTableKS {
            to,
            table: from,
            ..
        }
        | Insn::GetTableN {
            to,
            table: from,
            ..
        }
        | Insn::SetTableKS {
            from: to,
            table: from,
            ..
        }
        | Insn::SetTableN {
            from: to,
            table: from,
            ..
        }
        | Insn::AddK { to, left: from, .. }
        | Insn::SubK { to, left: from, .. }
        | Insn::MulK { to, left: from, .. }
        | Insn::DivK { to, left: from, .. }
        | Insn::ModK { to, left: from, .. }
        | Insn::PowK { to, left: from, .. }
        | Insn::IdivK { to, left: from, .. }
        | Insn::AndK { to, left: from, .. }
        | Insn::OrK { to, left: from, .. }
        | Insn::SubRK {
            to,
            right: from,
            ..
        }
        | Insn::DivRK {
            to,
            right: from,
            ..
        } => fits_two(count, to, u32::from(from)),
        Insn::JumpIfEq { left, right, .. }
        | Insn::JumpIfLe { left, right, .. }
        | Insn::JumpIfLt { left, right, .. }
        | Insn::JumpIfNotEq { left, right, .. }
        | Insn::JumpIfNotLe { left, right, .. }
        | Insn::JumpIfNotLt { left, right, .. }
        | Insn::FastCall2 {
            first: left,
            second: right,
            ..
        } => fits_two(count, left, right),
        Insn::Add { to, left, right }
        | Insn::Sub { to, left, right }
        | Insn::Mul { to, left, right }
        | Insn::Div { to, left, right }
        | Insn::Mod { to, left, right }
        | Insn::Pow { to, left, right }
        | Insn::Idiv { to, left, right }
        | Insn::And { to, left, right }
        | Insn::Or { to, left, right }
        | Insn::GetTable {
            to,
            table: left,
            key: right,
        }
        | Insn::SetTable {
            from: to,
            table: left,
            key: right,
        }
        | Insn::Concat {
            to,
            first: left,
            last: right,
        } => fits_three(count, to, left, right),
        Insn::NameCall { base, object, .. } => fits_method(count, base, object),
        Insn::Call {
            base,
            arguments,
            results,
        } => fits_call(count, base, arguments, results),
        Insn::Return { base, values } | Insn::GetVarargs { base, values } => fits_listed(
            count,
            u64::from(base),
            values,
        ),
        Insn::SetList {
            table,
            from,
            count: many,
            ..
        } => fits_one(count, u32::from(table)) && fits_listed(count, u64::from(from), many),
        Insn::ForNPrep { base, .. } | Insn::ForNLoop { base, .. } | Insn::ForGPrep { base, .. } =>
            fits(count, u64::from(base), 3),
        Insn::ForGLoop {
            base,
            variables,
            ..
        } => fits(count, u64::from(base), 3 + u64::from(variables)),
        Insn::Capture { kind, from } => fits_capture(count, kind, from),
        Insn::Nop { .. }
        | Insn::CloseUpvalues { .. }
        | Insn::Jump { .. }
        | Insn::JumpBack { .. }
        | Insn::JumpX { .. }
        | Insn::PrepVarargs { .. }
        | Insn::FastCall { .. } => true,
    }
}

/// What an instruction asks of its fields for themselves.
pub(crate) fn is_own(insn: Insn) -> bool
    ensures { result ≡ needs.is_own insn }
{
    match insn {
        Insn::Concat { first, last, .. } => first < last,
        Insn::ForGLoop { variables, .. } => variables >= 1,
        _ => true,
    }
}
