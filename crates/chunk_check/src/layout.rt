//! The instructions of a function, with what stands at each word.

ghost use Rattle.chunk_check.specs.Lines.{IsWithin, lines_of, word_at};
ghost use Rattle.machine_meaning.specs.Needs as needs;
ghost use Rattle.machine_meaning.specs.WellFormed as rules;
ghost use Rattle.std.specs.List.{All, list_any};
ghost use Rattle.std.specs.Prelude.{◌≡◌, ◌+◌, ◌<◌, ℕ, IfOk, length, nat_eq, pos, false, None, slice_index_or};

use crate::lines::{Line, decode_all};
use crate::needs::{is_bound, is_fast};
use op_words::Insn;
use std::alloc::{AllocError, Global};
use std::marker::Model;

/// The instructions of a function. Clauses see these.
#[derive(Drop)]
pub(crate) struct Layout {
    lines: Vec<Line>,
    // By word, up to the one behind the code: whether a jump may land there, the instruction that begins there, and the one that ends before it.
    landings: Vec<bool>,
    begins: Vec<Option<Insn>>,
    ends: Vec<Option<Insn>>,
}

impl Model for Layout {
    ghost use Rattle.chunk_check.specs.Lines.{IsIndex, lines_of};
    ghost use Rattle.machine_meaning.specs.Needs.{Line};
    ghost use Rattle.std.specs.Prelude.{List};

    ghost Value = { List Line };

    ghost view = { λ a. lines_of a.lines.items };

    ghost invariant = { λ a. IsIndex (lines_of a.lines.items) a.landings.items a.begins.items a.ends.items };
}

impl Layout {
    pub(crate) fn new(alloc: Global, code: &[u32]) -> Result<Layout, AllocError>
        ensures { IfOk result (λ made. made ≡ needs.lines code.now) }
    {
        let lines = decode_all(alloc, code)?;
        let size = code.len() + 1;
        let landings = landings(alloc, &lines, size)?;
        let begins = beginnings(alloc, &lines, size)?;
        let ends = endings(alloc, &lines, size)?;
        Ok(Layout {
            lines,
            landings,
            begins,
            ends,
        })
    }

    pub(crate) fn lines(&self) -> &[Line]
        ensures { lines_of result.now ≡ self.now }
    {
        &self.lines
    }

    /// Whether a jump may land at the word.
    pub(crate) fn lands(&self, vararg: bool, to: i128) -> bool
        ensures { result ≡ rules.lands vararg (rules.landings false false self.now) to }
    {
        match word(to, self.landings.len()) {
            Some(at) => self.landings[at] && !(vararg && at == 0),
            None => false,
        }
    }

    /// The instruction that begins at the word.
    pub(crate) fn begins(&self, at: i128) -> Option<Insn>
        ensures { result ≡ rules.line_at self.now at }
    {
        match word(at, self.begins.len()) {
            Some(entry) => self.begins[entry],
            None => None,
        }
    }

    /// The instruction that ends before the word.
    pub(crate) fn ends(&self, at: i128) -> Option<Insn>
        ensures { result ≡ rules.line_before self.now at }
    {
        match word(at, self.ends.len()) {
            Some(entry) => self.ends[entry],
            None => None,
        }
    }
}

// The entry of a table of this size.
fn word(at: i128, size: usize) -> Option<usize>
    ensures { result ≡ word_at at size }
{
    if at < 0 || at >= size as i128 {
        return None;
    }
    Some(at as usize)
}

// Whether a jump may land, by word.
fn landings(alloc: Global, lines: &[Line], size: usize) -> Result<Vec<bool>, AllocError>
    requires { All (IsWithin size) lines.now }
    ensures { IfOk result (λ made. (t : ℕ) → slice_index_or made.items t false ≡ list_any (nat_eq t) (rules.landings false false (lines_of lines.now))) }
{
    let mut made = vec![in alloc; false; size]?;
    let mut fast = false;
    let mut fast_two = false;
    for line in lines {
        if !is_bound(fast, fast_two, line.insn) {
            made[line.place] = true;
        }
        fast_two = fast;
        fast = is_fast(line.insn);
    }
    Ok(made)
}

// The instruction that begins at each word; of two the first.
fn beginnings(alloc: Global, lines: &[Line], size: usize) -> Result<Vec<Option<Insn>>, AllocError>
    requires { All (IsWithin size) lines.now }
    ensures { IfOk result (λ made. (t : ℕ) → slice_index_or made.items t None ≡ rules.line_at (lines_of lines.now) (pos t)) }
{
    let mut made = vec![in alloc; None; size]?;
    let mut left = lines.len();
    while left > 0 {
        left -= 1;
        let line = lines[left];
        made[line.place] = Some(line.insn);
    }
    Ok(made)
}

// The instruction that ends before each word; of two the first.
fn endings(alloc: Global, lines: &[Line], size: usize) -> Result<Vec<Option<Insn>>, AllocError>
    requires { All (IsWithin size) lines.now }
    ensures { IfOk result (λ made. (t : ℕ) → slice_index_or made.items t None ≡ rules.line_before (lines_of lines.now) (pos t)) }
{
    let mut made = vec![in alloc; None; size]?;
    let mut left = lines.len();
    while left > 0 {
        left -= 1;
        let line = lines[left];
        made[line.next] = Some(line.insn);
    }
    Ok(made)
}
