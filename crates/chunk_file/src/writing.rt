//! Chunks to bytes.

ghost use Rattle.std.specs.Prelude.{◌≡◌, ◌<◌, ◌++◌, IfOk, OnOk, length, map};
ghost use Rattle.std.specs.List.{AllByRecursion, flat_map};
ghost use Rattle.chunk_file.specs.Spelling as spell;
ghost use Rattle.op_words.specs.Chunks.{chunk_of, proto_of};

use byte_text::Bytes;
use byteorder::{ByteOrder, LittleEndian};
use op_words::{Chunk, Const, Proto};
use resource::OutOfMemory;
use std::alloc::Global;

/// The bytes that a chunk is spelled by. Each count in it and each length of a string has to be below 2^32.
pub fn write(alloc: Global, chunk: &Chunk) -> Result<Vec<u8>, OutOfMemory>
    requires { spell.HasCounts (chunk_of chunk.now) }
    ensures { IfOk result (λ bytes. bytes.items ≡ spell.spelling (chunk_of chunk.now)) }
{
    let mut out = Vec::new(alloc);
    out.extend_from_slice(&[0x4C, 0x57, 0x43, 0x48, 1])?;
    strings(&mut out, chunk.strings.as_slice())?;
    protos(&mut out, chunk.protos.as_slice())?;
    number(&mut out, chunk.main)?;
    Ok(out)
}

// A count or an index: seven bits a byte, the lowest first.
fn number(out: &mut Vec<u8>, n: u32) -> Result<(), OutOfMemory>
    ensures { OnOk result (out.new.items ≡ out.old.items ++ spell.number n) }
{
    let mut left = n;
    while left >= 128 {
        out.push((left % 128) as u8 + 128)?;
        left /= 128;
    }
    out.push(left as u8)?;
    Ok(())
}

fn count(out: &mut Vec<u8>, n: usize) -> Result<(), OutOfMemory>
    requires { n < spell.most_number }
    ensures { OnOk result (out.new.items ≡ out.old.items ++ spell.number n) }
{
    number(out, n as u32)
}

fn strings(out: &mut Vec<u8>, strings: &[Bytes]) -> Result<(), OutOfMemory>
    requires count { spell.IsCount strings.now }
    requires lengths { AllByRecursion (λ s. spell.IsCount s) strings.now }
    ensures { OnOk result (out.new.items ≡ out.old.items ++ spell.counted spell.text strings.now) }
{
    count(out, strings.len())?;
    for string in strings {
        count(out, string.as_slice().len())?;
        out.extend_from_slice(string.as_slice())?;
    }
    Ok(())
}

fn protos(out: &mut Vec<u8>, protos: &[Proto]) -> Result<(), OutOfMemory>
    requires count { spell.IsCount protos.now }
    requires counts { AllByRecursion spell.HasCountsIn (map proto_of protos.now) }
    ensures { OnOk result (out.new.items ≡ out.old.items ++ spell.counted spell.proto (map proto_of protos.now)) }
{
    count(out, protos.len())?;
    for proto in protos {
        one_proto(out, proto)?;
    }
    Ok(())
}

fn one_proto(out: &mut Vec<u8>, proto: &Proto) -> Result<(), OutOfMemory>
    requires { spell.HasCountsIn (proto_of proto.now) }
    ensures { OnOk result (out.new.items ≡ out.old.items ++ spell.proto (proto_of proto.now)) }
{
    let Proto {
        registers,
        params,
        upvalues,
        vararg,
        ..
    } = *proto;
    out.extend_from_slice(&[registers, params, upvalues, vararg as u8])?;
    words(out, proto.code.as_slice())?;
    constants(out, proto.consts.as_slice())?;
    numbers(out, proto.children.as_slice())
}

fn words(out: &mut Vec<u8>, words: &[u32]) -> Result<(), OutOfMemory>
    requires { spell.IsCount words.now }
    ensures { OnOk result (out.new.items ≡ out.old.items ++ spell.counted spell.word words.now) }
{
    count(out, words.len())?;
    for w in words {
        word(out, *w)?;
    }
    Ok(())
}

fn word(out: &mut Vec<u8>, w: u32) -> Result<(), OutOfMemory>
    ensures { OnOk result (out.new.items ≡ out.old.items ++ spell.word w) }
{
    let mut bytes = [0; 4];
    LittleEndian::write_u32(&mut bytes, w);
    out.extend_from_slice(&bytes)?;
    Ok(())
}

fn constants(out: &mut Vec<u8>, constants: &[Const]) -> Result<(), OutOfMemory>
    requires { spell.IsCount constants.now }
    ensures { OnOk result (out.new.items ≡ out.old.items ++ spell.counted spell.constant constants.now) }
{
    count(out, constants.len())?;
    for constant in constants {
        one_constant(out, constant)?;
    }
    Ok(())
}

fn one_constant(out: &mut Vec<u8>, constant: &Const) -> Result<(), OutOfMemory>
    ensures { OnOk result (out.new.items ≡ out.old.items ++ spell.constant constant.now) }
{
    match constant {
        Const::Nil => out.push(0)?,
        Const::False => out.push(1)?,
        Const::True => out.push(2)?,
        Const::Num(value) => {
            let mut bytes = [3, 0, 0, 0, 0, 0, 0, 0, 0];
            LittleEndian::write_i64(&mut bytes[1..], value.get());
            out.extend_from_slice(&bytes)?;
        }
        Const::Str(index) => {
            out.push(4)?;
            number(out, *index)?;
        }
        Const::Import(path) => {
            out.push(5)?;
            word(out, *path)?;
        }
    }
    Ok(())
}

fn numbers(out: &mut Vec<u8>, numbers: &[u32]) -> Result<(), OutOfMemory>
    requires { spell.IsCount numbers.now }
    ensures { OnOk result (out.new.items ≡ out.old.items ++ spell.counted spell.number numbers.now) }
{
    count(out, numbers.len())?;
    for n in numbers {
        number(out, *n)?;
    }
    Ok(())
}
