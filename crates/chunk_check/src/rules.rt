//! The rules of one instruction, and those of a function as a whole.

ghost use Rattle.chunk_check.specs.Faults.{before_of, fault_of};
ghost use Rattle.chunk_check.specs.Lines.{line_of, lines_of};
ghost use Rattle.machine_meaning.specs.Needs as needs;
ghost use Rattle.machine_meaning.specs.WellFormed as rules;
ghost use Rattle.op_words.specs.Chunks.{chunk_of, proto_of};
ghost use Rattle.std.specs.List.{list_all};
ghost use Rattle.std.specs.Prelude.{◌≡◌, ◌&&◌, ◌||◌, ◌++◌, [], ◌∷◌, not, false, nat_eq, nat_lt, option_map, slice_get};
ghost use Rattle.machine_meaning.specs.Chunks.{proto_at};

use crate::constants::{has_constant, is_sound};
use crate::faults::{Fault, located};
use crate::layout::Layout;
use crate::lines::Line;
use crate::needs::{
    goes_back, has_child, has_upvalue, is_capture, is_fast, is_known, jump_of, reads_top, sets_top,
    target,
};
use crate::neighbours::{calls_well, captures_well, is_read};
use crate::registers::{fits_registers, is_own};
use op_words::{Chunk, Const, Insn, Proto};

// ---- jumps

// Whether a jump leads to where one may land.
fn may_land(layout: &Layout, vararg: bool, place: usize, insn: Insn) -> bool
    ensures { result ≡ rules.may_land vararg (rules.landings false false layout.now) place (needs.jump_of insn) }
{
    match jump_of(insn) {
        Some(by) => layout.lands(vararg, target(place, by)),
        None => true,
    }
}

// Whether a jump goes back exactly where its instruction does.
fn turns_well(place: usize, insn: Insn) -> bool
    ensures { result ≡ rules.turns_well place insn (needs.jump_of insn) }
{
    match jump_of(insn) {
        Some(by) => goes_back(insn) == (target(place, by) <= place as i128),
        None => true,
    }
}

fn is_generic_loop(base: u8, insn: Option<Insn>) -> bool
    ensures { result ≡ rules.is_generic_loop base insn }
{
    match insn {
        Some(Insn::ForGLoop { base: other, .. }) => base == other,
        _ => false,
    }
}

fn is_numeric_loop(base: u8, insn: Option<Insn>) -> bool
    ensures { result ≡ rules.is_numeric_loop base insn }
{
    match insn {
        Some(Insn::ForNLoop { base: other, .. }) => base == other,
        _ => false,
    }
}

// Whether the beginning of a loop leads to its end.
fn pairs_well(layout: &Layout, place: usize, insn: Insn) -> bool
    ensures { result ≡ rules.pairs_well layout.now place insn }
{
    match insn {
        Insn::ForGPrep { base, by } => is_generic_loop(
            base,
            layout.begins(target(place, i32::from(by))),
        ),
        Insn::ForNPrep { base, by } => is_numeric_loop(
            base,
            layout.ends(target(place, i32::from(by))),
        ),
        _ => true,
    }
}

// ---- what stands before

/// What stands before an instruction.
#[derive(Clone, Copy)]
pub(crate) struct Before {
    // Whether the last one is a fast call, and the one before it.
    pub(crate) fast: bool,
    pub(crate) fast_two: bool,
    // Whether the last one makes a closure or captures for it.
    pub(crate) closes: bool,
    // Whether the last three set a list without an end, the last one first.
    pub(crate) sets: bool,
    pub(crate) sets_two: bool,
    pub(crate) sets_three: bool,
}

impl Before {
    /// Before the first instruction.
    pub(crate) fn start() -> Before
        ensures { before_of result ≡ rules.at_start }
    {
        Before {
            fast: false,
            fast_two: false,
            closes: false,
            sets: false,
            sets_two: false,
            sets_three: false,
        }
    }

    /// Behind one more instruction.
    pub(crate) fn passing(self, insn: Insn) -> Before
        ensures { before_of result ≡ rules.passing (before_of self) insn }
    {
        Before {
            fast: is_fast(insn),
            fast_two: self.fast,
            closes: is_closure_or_capture(insn),
            sets: sets_top(insn).is_some(),
            sets_two: self.sets,
            sets_three: self.sets_two,
        }
    }

    // What reads a list without an end follows what sets it, a fast call and its move aside.
    fn is_set(self, insn: Insn) -> bool
        ensures { result ≡ rules.is_set self.sets self.fast_two self.sets_three (needs.reads_top insn) }
    {
        reads_top(insn).is_none() || self.sets || self.fast_two && self.sets_three
    }
}

fn is_closure_or_capture(insn: Insn) -> bool
    ensures { result ≡ rules.is_closure_or_capture insn }
{
    match insn {
        Insn::NewClosure { .. } => true,
        _ => is_capture(insn),
    }
}

// ---- the rules of an instruction

// A rule that is broken unless this holds.
fn unless(holds: bool, rule: u8) -> Option<u8>
    ensures { result ≡ slice_get (rules.unless holds rule) 0 }
{
    if holds { None } else { Some(rule) }
}

// What rule 2 asks.
fn keeps_registers(count: u8, insn: Insn) -> bool
    ensures { result ≡ (list_all (needs.fits_range count) (needs.registers_of insn) && needs.is_own insn) }
{
    fits_registers(count, insn) && is_own(insn)
}

// What rule 7 asks.
fn goes_well(layout: &Layout, place: usize, insn: Insn) -> bool
    ensures { result ≡ (rules.turns_well place insn (needs.jump_of insn) && rules.pairs_well layout.now place insn) }
{
    turns_well(place, insn) && pairs_well(layout, place, insn)
}

// What rule 8 asks.
fn has_partners(chunk: &Chunk, proto: &Proto, before: Before, line: Line, rest: &[Line]) -> bool
    ensures { result ≡ (rules.captures_well (chunk_of chunk.now) (proto_of proto.now) (lines_of rest.now) line.insn
        && (not (needs.is_capture line.insn) || before.closes)
        && rules.calls_well line.place (lines_of rest.now) line.insn) }
{
    captures_well(chunk, proto, rest, line.insn)
        && (!is_capture(line.insn) || before.closes)
        && calls_well(line.place, rest, line.insn)
}

// What rule 9 asks.
fn keeps_lists(before: Before, insn: Insn, rest: &[Line]) -> bool
    ensures { result ≡ (rules.is_read (needs.sets_top insn) (lines_of rest.now)
        && rules.is_set before.sets before.fast_two before.sets_three (needs.reads_top insn)) }
{
    is_read(sets_top(insn), rest) && before.is_set(insn)
}

/// The first rule that an instruction breaks, where these lines stand behind it.
#[tactic(auto, using(crate::proofs::First::head_append))]
pub(crate) fn line_rule(
    chunk: &Chunk,
    number: usize,
    proto: &Proto,
    layout: &Layout,
    before: Before,
    line: Line,
    rest: &[Line],
) -> Option<u8>
    ensures { result ≡ slice_get (rules.broken (chunk_of chunk.now) number (proto_of proto.now) layout.now
        (rules.landings false false layout.now) (before_of before) (line_of line) (lines_of rest.now)) 0 }
{
    let insn = line.insn;
    unless(is_known(insn), 1)
        .or(unless(keeps_registers(proto.registers, insn), 2))
        .or(unless(has_constant(chunk, number, insn), 3))
        .or(unless(has_upvalue(proto.upvalues, insn), 4))
        .or(unless(has_child(proto, insn), 5))
        .or(unless(may_land(layout, proto.vararg, line.place, insn), 6))
        .or(unless(goes_well(layout, line.place, insn), 7))
        .or(unless(has_partners(chunk, proto, before, line, rest), 8))
        .or(unless(keeps_lists(before, insn, rest), 9))
}

// ---- the rules of a function

fn is_end(insn: Insn) -> bool
    ensures { result ≡ rules.is_end insn }
{
    matches!(insn, Insn::Return { .. } | Insn::JumpBack { .. })
}

// The rule by which code does not end well that ends with this line.
fn last_fault(number: usize, size: usize, last: Line) -> Option<Fault>
    ensures { option_map fault_of result ≡ rules.first_of (rules.end_faults (nat_eq last.next size) number (line_of last ∷ [])) }
{
    if last.next == size {
        located(number, last.place, unless(is_end(last.insn), 10))
    } else {
        located(number, last.next, Some(1))
    }
}

/// The rule by which code does not end well: the instructions take all words, and the last one does not go on.
pub(crate) fn end_fault(number: usize, size: usize, lines: &[Line]) -> Option<Fault>
    ensures { option_map fault_of result ≡ rules.first_of
        (rules.end_faults (nat_eq (needs.behind (lines_of lines.now) 0) size) number (lines_of lines.now)) }
{
    if lines.is_empty() {
        return located(number, 0, Some(if size == 0 { 10 } else { 1 }));
    }
    last_fault(number, size, lines[lines.len() - 1])
}

fn is_prep(params: u8, insn: Insn) -> bool
    ensures { result ≡ rules.is_prep params insn }
{
    match insn {
        Insn::PrepVarargs { parameters } => parameters == params,
        _ => false,
    }
}

fn is_any_prep(insn: Insn) -> bool
    ensures { result ≡ rules.is_any_prep insn }
{
    matches!(insn, Insn::PrepVarargs { .. })
}

fn has_no_prep(lines: &[Line]) -> bool
    ensures { result ≡ rules.has_no_prep (lines_of lines.now) }
{
    for line in lines {
        if is_any_prep(line.insn) {
            return false;
        }
    }
    true
}

// Whether the preparation of the arguments stands first exactly in a function of any number of arguments, and nowhere else.
fn is_prepared(params: u8, vararg: bool, lines: &[Line]) -> bool
    ensures { result ≡ rules.is_prepared params vararg (lines_of lines.now) }
{
    if !vararg {
        return has_no_prep(lines);
    }
    match lines.first() {
        Some(first) => is_prep(params, first.insn) && has_no_prep(&lines[1..]),
        None => false,
    }
}

fn has_smaller_children(number: usize, children: &[u32]) -> bool
    ensures { result ≡ list_all (λ c. nat_lt c number) children.now }
{
    for child in children {
        if *child as usize >= number {
            return false;
        }
    }
    true
}

// What rule 11 asks.
fn is_proto(number: usize, proto: &Proto, lines: &[Line]) -> bool
    ensures { result ≡ rules.is_proto number (proto_of proto.now) (lines_of lines.now) }
{
    proto.registers >= 1
        && proto.registers <= 250
        && proto.params <= proto.registers
        && has_smaller_children(number, &proto.children)
        && is_prepared(proto.params, proto.vararg, lines)
}

fn has_sound_constants(chunk: &Chunk, number: usize, constants: &[Const]) -> bool
    ensures { result ≡ list_all (needs.is_sound (chunk_of chunk.now) number) constants.now }
{
    for constant in constants {
        if !is_sound(chunk, number, *constant) {
            return false;
        }
    }
    true
}

/// The first rule that a function breaks as a whole.
pub(crate) fn start_fault(
    chunk: &Chunk,
    number: usize,
    proto: &Proto,
    lines: &[Line],
) -> Option<Fault>
    ensures { option_map fault_of result ≡ rules.first_of (rules.at_place number 0
        (rules.unless (list_all (needs.is_sound (chunk_of chunk.now) number) (proto_of proto.now).consts) 3
        ++ rules.unless (rules.is_proto number (proto_of proto.now) (lines_of lines.now)) 11)) }
{
    let constants = unless(has_sound_constants(chunk, number, &proto.consts), 3);
    let whole = unless(is_proto(number, proto, lines), 11);
    located(number, 0, constants.or(whole))
}

/// The rule that the main function breaks.
pub(crate) fn main_fault(chunk: &Chunk) -> Option<Fault>
    ensures { option_map fault_of result ≡ rules.first_of (rules.at_place 0 0
        (rules.unless (rules.is_main (proto_at (chunk_of chunk.now) chunk.now.main)) 11)) }
{
    let main = match chunk.protos.get(chunk.main as usize) {
        Some(proto) => proto.vararg && proto.params == 0 && proto.upvalues == 0,
        None => false,
    };
    located(0, 0, unless(main, 11))
}
