//! Lists in a chunk: how many there are, and each of them.

ghost use Rattle.chunk_file.specs.Answers.{Gives};
ghost use Rattle.chunk_file.specs.Reading as spec;
ghost use Rattle.op_words.specs.Chunks.{proto_of};
ghost use Rattle.std.specs.Prelude.{map};

use crate::fault::Fault;
use crate::reader::Reader;
use byte_text::Bytes;
use op_words::{Const, Proto};
use std::alloc::Global;

impl<'a> Reader<'a> {
    pub(crate) fn strings(&mut self, alloc: Global) -> Result<Vec<Bytes>, Fault>
        ensures { Gives (λ xs. xs.items) (spec.read_counted spec.read_text self.old) result self.new }
    {
        let count = self.number()?;
        let mut strings = Vec::new(alloc);
        for _ in 0..count {
            strings.push(self.text(alloc)?)?;
        }
        Ok(strings)
    }

    fn text(&mut self, alloc: Global) -> Result<Bytes, Fault>
        ensures { Gives (λ t. t) (spec.read_text self.old) result self.new }
    {
        let length = self.number()?;
        let bytes = self.piece(length as usize)?;
        Ok(Bytes::from_slice(alloc, bytes)?)
    }

    fn words(&mut self, alloc: Global) -> Result<Vec<u32>, Fault>
        ensures { Gives (λ xs. xs.items) (spec.read_counted spec.read_word self.old) result self.new }
    {
        let count = self.number()?;
        let mut words = Vec::new(alloc);
        for _ in 0..count {
            words.push(self.word()?)?;
        }
        Ok(words)
    }

    fn constants(&mut self, alloc: Global) -> Result<Vec<Const>, Fault>
        ensures { Gives (λ xs. xs.items) (spec.read_counted spec.read_constant self.old) result self.new }
    {
        let count = self.number()?;
        let mut constants = Vec::new(alloc);
        for _ in 0..count {
            constants.push(self.constant()?)?;
        }
        Ok(constants)
    }

    fn numbers(&mut self, alloc: Global) -> Result<Vec<u32>, Fault>
        ensures { Gives (λ xs. xs.items) (spec.read_counted spec.read_number self.old) result self.new }
    {
        let count = self.number()?;
        let mut numbers = Vec::new(alloc);
        for _ in 0..count {
            numbers.push(self.number()?)?;
        }
        Ok(numbers)
    }

    fn proto(&mut self, alloc: Global) -> Result<Proto, Fault>
        ensures { Gives proto_of (spec.read_proto self.old) result self.new }
    {
        let registers = self.byte()?;
        let params = self.byte()?;
        let upvalues = self.byte()?;
        let vararg = self.flag()?;
        let code = self.words(alloc)?;
        let consts = self.constants(alloc)?;
        let children = self.numbers(alloc)?;
        Ok(Proto {
            registers,
            params,
            upvalues,
            vararg,
            code,
            consts,
            children,
        })
    }

    pub(crate) fn protos(&mut self, alloc: Global) -> Result<Vec<Proto>, Fault>
        ensures { Gives (λ xs. map proto_of xs.items) (spec.read_counted spec.read_proto self.old) result self.new }
    {
        let count = self.number()?;
        let mut protos = Vec::new(alloc);
        for _ in 0..count {
            protos.push(self.proto(alloc)?)?;
        }
        Ok(protos)
    }
}
