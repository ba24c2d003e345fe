//! Single fields of a chunk.

ghost use Rattle.chunk_file.specs.Answers.{Gives};
ghost use Rattle.chunk_file.specs.Reading as spec;
ghost use Rattle.std.specs.Int.{w64, from_le_bytes};
ghost use Rattle.std.specs.Prelude.{◌<◌, ◌||◌, nat_lt, ◌≡◌, [], ◌∷◌, MatchOption, length};

use crate::fault::Fault;
use byteorder::{ByteOrder, LittleEndian};
use op_words::Const;
use std::marker::Model;
use whole_num::Whole;

/// The bytes that are not read yet. Clauses see these.
#[derive(Drop)]
pub(crate) struct Reader<'a> {
    left: &'a [u8],
}

impl<'a> Model for Reader<'a> {
    ghost use Rattle.std.specs.Prelude.{ℕ, List};

    ghost Value = { List ℕ };

    ghost view = { λ r. r.left.now };
}

impl<'a> Reader<'a> {
    pub(crate) fn new(bytes: &'a [u8]) -> Reader<'a>
        ensures { result ≡ bytes.now }
    {
        Reader { left: bytes }
    }

    /// How many bytes are left.
    pub(crate) fn len(&self) -> usize
        ensures { result ≡ length self.now }
    {
        self.left.len()
    }

    // The next byte, or `None` at the end.
    fn next(&mut self) -> Option<u8>
        ensures { MatchOption result (self.old ≡ []) (λ b. self.old ≡ b ∷ self.new) }
    {
        let left = self.left;
        let byte = *left.first()?;
        self.left = &left[1..];
        Some(byte)
    }

    pub(crate) fn byte(&mut self) -> Result<u8, Fault>
        ensures { Gives (λ b. b) (spec.read_byte self.old) result self.new }
    {
        match self.next() {
            Some(byte) => Ok(byte),
            None => Err(Fault::Ends),
        }
    }

    /// So many bytes.
    pub(crate) fn piece(&mut self, count: usize) -> Result<&'a [u8], Fault>
        ensures { Gives (λ piece. piece.now) (spec.read_bytes count self.old) result self.new }
    {
        let left = self.left;
        if left.len() < count {
            return Err(Fault::Ends);
        }
        self.left = &left[count..];
        Ok(&left[..count])
    }

    /// A count or an index: seven bits a byte, the lowest first.
    pub(crate) fn number(&mut self) -> Result<u32, Fault>
        ensures { Gives (λ n. n) (spec.read_number self.old) result self.new }
    {
        let wrong = Fault::Wrong { left: self.len() };
        let mut number: u64 = 0;
        let mut unit: u64 = 1;
        let mut limit: u64 = 1 << 32;
        for place in 0..5u8 {
            let Some(byte) = self.next() else {
                return Err(Fault::Ends);
            };
            let byte = u64::from(byte);
            if byte < 128 {
                if byte < limit && (place == 0 || byte != 0) {
                    return Ok((number + byte * unit) as u32);
                }
                return Err(wrong);
            }
            if limit <= 128 {
                return Err(wrong);
            }
            number += (byte - 128) * unit;
            unit *= 128;
            limit /= 128;
        }
        Err(wrong)
    }

    pub(crate) fn word(&mut self) -> Result<u32, Fault>
        ensures { Gives (λ w. w) (spec.read_word self.old) result self.new }
    {
        let four = self.piece(4)?;
        Ok(LittleEndian::read_u32(four))
    }

    pub(crate) fn flag(&mut self) -> Result<bool, Fault>
        ensures { Gives (λ b. b) (spec.read_flag self.old) result self.new }
    {
        let wrong = Fault::Wrong { left: self.len() };
        match self.next() {
            None => Err(Fault::Ends),
            Some(0) => Ok(false),
            Some(1) => Ok(true),
            Some(_) => Err(wrong),
        }
    }

    // A whole number in range, as two's complement in eight bytes.
    fn whole(&mut self) -> Result<Whole, Fault>
        ensures { Gives (λ z. z) (spec.read_whole self.old) result self.new }
    {
        let left = self.left;
        let wrong = Fault::Wrong { left: left.len() };
        if left.len() < 8 {
            if may_go_on(left) {
                return Err(Fault::Ends);
            }
            return Err(wrong);
        }
        let (eight, rest) = left.split_at(8);
        self.left = rest;
        let Some(whole) = Whole::new(LittleEndian::read_i64(eight)) else {
            return Err(wrong);
        };
        Ok(whole)
    }

    pub(crate) fn constant(&mut self) -> Result<Const, Fault>
        ensures { Gives (λ k. k) (spec.read_constant self.old) result self.new }
    {
        let wrong = Fault::Wrong { left: self.len() };
        match self.byte()? {
            0 => Ok(Const::Nil),
            1 => Ok(Const::False),
            2 => Ok(Const::True),
            3 => Ok(Const::Num(self.whole()?)),
            4 => Ok(Const::Str(self.number()?)),
            5 => Ok(Const::Import(self.word()?)),
            _ => Err(wrong),
        }
    }
}

// Whether fewer than eight bytes begin a whole number in range.
fn may_go_on(bytes: &[u8]) -> bool
    requires { length bytes.now < 8 }
    ensures { result ≡ (nat_lt (length bytes.now) 7 || spec.may_go_on (from_le_bytes w64 bytes.now)) }
{
    if bytes.len() < 7 {
        return true;
    }
    let seven = LittleEndian::read_uint(bytes, 7);
    seven <= 1 << 53 || seven >= (1 << 56) - (1 << 53)
}
