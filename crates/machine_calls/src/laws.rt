//! Laws of calls.

ghost use Rattle.machine_calls.specs.Laws.{ChargedCallsCharge, FreeMovesChargeNone, OtherCallsGoOn, SafeMayEnter};

/// In a safe state each value that the script may use may be entered.
pub fn safe_may_enter()
    ensures { SafeMayEnter }
{}

/// The machine charges a turn at each call that is said to charge one.
pub fn charged_calls_charge()
    ensures { ChargedCallsCharge }
{}

/// It charges none where what is no function is called.
pub fn other_calls_go_on()
    ensures { OtherCallsGoOn }
{}

/// A move that is answered with no charge charges no turn.
pub fn free_moves_charge_none()
    ensures { FreeMovesChargeNone }
{}
