//! What kind of instruction one is.

ghost use Rattle.std.specs.Prelude.{◌≡◌};
ghost use Rattle.machine_steps.specs.Courses as courses;
ghost use Rattle.machine_steps.specs.Groups as group;

use op_words::Insn;

/// Whether a register is given a value that is there.
pub(crate) fn is_load(insn: Insn) -> bool
    ensures { result ≡ group.is_load insn }
{
    matches!(
        insn,
        Insn::LoadNil { .. }
            | Insn::LoadB { .. }
            | Insn::LoadN { .. }
            | Insn::LoadK { .. }
            | Insn::LoadKX { .. }
            | Insn::Move { .. }
            | Insn::GetUpvalue { .. }
            | Insn::Not { .. }
            | Insn::And { .. }
            | Insn::Or { .. }
            | Insn::AndK { .. }
            | Insn::OrK { .. }
    )
}

/// Whether a cell is written, or cells are closed.
pub(crate) fn is_cell(insn: Insn) -> bool
    ensures { result ≡ group.is_cell insn }
{
    matches!(insn, Insn::SetUpvalue { .. } | Insn::CloseUpvalues { .. })
}

/// Whether the code goes on elsewhere, and calls nothing.
pub(crate) fn is_jump(insn: Insn) -> bool
    ensures { result ≡ group.is_jump insn }
{
    matches!(
        insn,
        Insn::Nop { .. }
            | Insn::PrepVarargs { .. }
            | Insn::Jump { .. }
            | Insn::JumpX { .. }
            | Insn::JumpBack { .. }
            | Insn::JumpIf { .. }
            | Insn::JumpIfNot { .. }
            | Insn::JumpXEqKNil { .. }
            | Insn::JumpXEqKB { .. }
            | Insn::JumpXEqKN { .. }
            | Insn::JumpXEqKS { .. }
    )
}

/// Whether it is an operator on registers.
pub(crate) fn is_operator(insn: Insn) -> bool
    ensures { result ≡ group.is_operator insn }
{
    matches!(
        insn,
        Insn::Add { .. }
            | Insn::Sub { .. }
            | Insn::Mul { .. }
            | Insn::Div { .. }
            | Insn::Mod { .. }
            | Insn::Pow { .. }
            | Insn::Idiv { .. }
            | Insn::Minus { .. }
            | Insn::Length { .. }
    )
}

/// Whether it is an operator on a register and a constant.
pub(crate) fn is_constant_operator(insn: Insn) -> bool
    ensures { result ≡ group.is_constant_operator insn }
{
    matches!(
        insn,
        Insn::AddK { .. }
            | Insn::SubK { .. }
            | Insn::MulK { .. }
            | Insn::DivK { .. }
            | Insn::ModK { .. }
            | Insn::PowK { .. }
            | Insn::IdivK { .. }
            | Insn::SubRK { .. }
            | Insn::DivRK { .. }
    )
}

/// Whether it jumps on a comparison of registers.
pub(crate) fn is_comparison(insn: Insn) -> bool
    ensures { result ≡ group.is_comparison insn }
{
    matches!(
        insn,
        Insn::JumpIfEq { .. }
            | Insn::JumpIfLe { .. }
            | Insn::JumpIfLt { .. }
            | Insn::JumpIfNotEq { .. }
            | Insn::JumpIfNotLe { .. }
            | Insn::JumpIfNotLt { .. }
    )
}

/// Whether a value is read under a key.
pub(crate) fn is_read(insn: Insn) -> bool
    ensures { result ≡ group.is_read insn }
{
    matches!(
        insn,
        Insn::GetTable { .. }
            | Insn::GetTableKS { .. }
            | Insn::GetTableN { .. }
            | Insn::GetGlobal { .. }
            | Insn::NameCall { .. }
    )
}

/// Whether a value is stored under a key.
pub(crate) fn is_write(insn: Insn) -> bool
    ensures { result ≡ group.is_write insn }
{
    matches!(
        insn,
        Insn::SetTable { .. }
            | Insn::SetTableKS { .. }
            | Insn::SetTableN { .. }
            | Insn::SetGlobal { .. }
    )
}

/// Whether it is of a loop over numbers.
pub(crate) fn is_count(insn: Insn) -> bool
    ensures { result ≡ group.is_count insn }
{
    matches!(insn, Insn::ForNPrep { .. } | Insn::ForNLoop { .. })
}

/// Whether a generic loop begins.
pub(crate) fn is_iteration(insn: Insn) -> bool
    ensures { result ≡ group.is_iteration insn }
{
    matches!(insn, Insn::ForGPrep { .. })
}

/// Whether a table is made, or a list of values stored in one.
pub(crate) fn is_table(insn: Insn) -> bool
    ensures { result ≡ group.is_table insn }
{
    matches!(insn, Insn::NewTable { .. } | Insn::SetList { .. })
}

/// Whether a run of values is joined.
pub(crate) fn is_join(insn: Insn) -> bool
    ensures { result ≡ group.is_join insn }
{
    matches!(insn, Insn::Concat { .. })
}

/// Whether values are taken in hand.
pub(crate) fn is_call(insn: Insn) -> bool
    ensures { result ≡ group.is_call insn }
{
    matches!(
        insn,
        Insn::Call { .. } | Insn::Return { .. } | Insn::GetVarargs { .. } | Insn::ForGLoop { .. }
    )
}

/// Whether a turn is charged. The instruction is one that charges at most one.
pub fn charges(insn: Insn) -> bool
    ensures { result ≡ courses.charges insn }
{
    match insn {
        Insn::Nop { turns } => turns > 0,
        Insn::JumpBack { by: _ } => true,
        Insn::ForNLoop { base: _, by: _ } => true,
        Insn::ForGLoop {
            base: _,
            by: _,
            variables: _,
        } => true,
        _ => false,
    }
}

/// Whether the script's objects are left as they are.
pub(crate) fn is_still(insn: Insn) -> bool
    ensures { result ≡ group.is_still insn }
{
    is_load(insn)
        || is_jump(insn)
        || is_operator(insn)
        || is_comparison(insn)
        || is_constant_operator(insn)
        || is_count(insn)
        || is_iteration(insn)
}
