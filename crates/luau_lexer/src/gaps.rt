//! Blanks, comments, and the brackets of long comments and long strings.

ghost use Rattle.std.specs.Prelude.{◌≡◌, ◌+◌, ◌≤◌, length, IsTrue, IfSome};
ghost use Rattle.std.specs.List.{prefix_len};
ghost use Rattle.syntax_tree.specs.Gaps.{blanks_len, line_len, bracket_level, is_level, closing_place, begins_comment};
ghost use Rattle.syntax_tree.specs.Bytes.{is_equals};

use crate::bytes::{begins_with, is_blank, is_equals, is_no_line_feed};

// How many blanks stand at the front.
pub(crate) fn blanks_len(bytes: &[u8]) -> usize
    ensures value { result ≡ blanks_len bytes.now }
    ensures within { result ≤ length bytes.now }
{
    bytes.iter().take_while(|&&b| is_blank(b)).count()
}

// How many bytes stand before the line's end.
pub(crate) fn line_len(bytes: &[u8]) -> usize
    ensures value { result ≡ line_len bytes.now }
    ensures within { result ≤ length bytes.now }
{
    bytes.iter().take_while(|&&b| is_no_line_feed(b)).count()
}

// How many `=` stand at the front.
fn equals_len(bytes: &[u8]) -> usize
    ensures value { result ≡ prefix_len is_equals bytes.now }
    ensures within { result ≤ length bytes.now }
{
    bytes.iter().take_while(|&&b| is_equals(b)).count()
}

// Whether two `-` stand at the front.
pub(crate) fn begins_comment(bytes: &[u8]) -> bool
    ensures value { result ≡ begins_comment bytes.now }
    ensures within { IsTrue result → 2 ≤ length bytes.now }
{
    match bytes.split_first() {
        Some((&b, rest)) => b == b'-' && begins_with(rest, b'-'),
        None => false,
    }
}

// The level of the bracket of this kind at the front.
pub(crate) fn bracket_level(byte: u8, bytes: &[u8]) -> Option<usize>
    ensures value { result ≡ bracket_level byte bytes.now }
    ensures within { IfSome result (λ level. level + 2 ≤ length bytes.now) }
{
    let (&b, rest) = bytes.split_first()?;
    if b != byte {
        return None;
    }
    let level = equals_len(rest);
    if begins_with(&rest[level..], byte) {
        Some(level)
    } else {
        None
    }
}

// The first place at which a bracket of this level closes.
pub(crate) fn closing_place(level: usize, bytes: &[u8]) -> Option<usize>
    ensures value { result ≡ closing_place level bytes.now }
    ensures within { IfSome result (λ k. k + (level + 2) ≤ length bytes.now) }
{
    for i in 0..bytes.len() {
        let (_, rest) = bytes.split_at(i);
        if closes(level, rest) {
            return Some(i);
        }
    }
    None
}

// Whether a bracket of this level closes at the front.
fn closes(level: usize, bytes: &[u8]) -> bool
    ensures value { result ≡ is_level level (bracket_level 93 bytes.now) }
    ensures within { IsTrue result → level + 2 ≤ length bytes.now }
{
    match bracket_level(b']', bytes) {
        Some(n) => n == level,
        None => false,
    }
}
