//! Laws of stacks.

ghost use Rattle.call_frames.specs.Laws.{ClosingKeepsUpvalues, OuterFramesStay, UnwindingKeepsUpvalues, EnteringKeepsRegisters};

/// Closing open cells changes what no upvalue gives.
pub fn closing_keeps_upvalues()
    ensures { ClosingKeepsUpvalues }
{}

/// Unwinding leaves the outer frames as they were.
pub fn outer_frames_stay()
    ensures { OuterFramesStay }
{}

/// Unwinding changes what no upvalue gives.
pub fn unwinding_keeps_upvalues()
    ensures { UnwindingKeepsUpvalues }
{}

/// A new frame changes no register below the top, and so none of another frame.
pub fn entering_keeps_registers()
    ensures { EnteringKeepsRegisters }
{}
