//! The listing of a chunk: a text of lines, each of fields with a space between two.

ghost use Rattle.chunk_listing.specs.Listing as spec;
ghost use Rattle.op_words.specs.Chunks.{chunk_of, proto_of};
ghost use Rattle.std.specs.Prelude.{◌≡◌, ◌++◌, [], IfOk, OnOk, map, slice_index_or};
ghost use Rattle.std.specs.List.{enumerate_from, flat_map};
ghost use Rattle.std.specs.String.{string_bytes};

use byte_text::Bytes;
use op_words::{Chunk, Const, Insn, Proto, decode};
use resource::OutOfMemory;
use std::alloc::Global;

/// The listing of a chunk: of each prototype a line with its number and sizes, and then its constants, its children and its
/// instructions, a line each; last the number of the main one. A prototype's instructions are listed as far as they stand
/// one behind another, and a string that there is not is listed as the empty one.
pub fn list(alloc: Global, chunk: &Chunk) -> Result<Vec<u8>, OutOfMemory>
    ensures { IfOk result (λ bytes. bytes.items ≡ spec.listing (chunk_of chunk.now)) }
{
    let mut out = String::new(alloc);
    protos(&mut out, chunk.strings.as_slice(), chunk.protos.as_slice())?;
    let main = chunk.main;
    writeln!(out, "main {main}")?;
    Ok(out.into_bytes())
}

fn protos(out: &mut String, strings: &[Bytes], protos: &[Proto]) -> Result<(), OutOfMemory>
    ensures { OnOk result (string_bytes out.new ≡ string_bytes out.old
        ++ spec.text_of (flat_map (λ item. spec.proto_lines strings.now item.0 item.1) (enumerate_from 0 (map proto_of protos.now)))) }
{
    for (number, proto) in protos.iter().enumerate() {
        one_proto(out, strings, number, proto)?;
    }
    Ok(())
}

fn one_proto(
    out: &mut String,
    strings: &[Bytes],
    number: usize,
    proto: &Proto,
) -> Result<(), OutOfMemory>
    ensures { OnOk result (string_bytes out.new ≡ string_bytes out.old ++ spec.text_of (spec.proto_lines strings.now number (proto_of proto.now))) }
{
    let Proto {
        registers,
        params,
        upvalues,
        vararg,
        ..
    } = *proto;
    let vararg = vararg as u8;
    writeln!(
        out,
        "proto {number} {registers} {params} {upvalues} {vararg}"
    )?;
    constants(out, strings, proto.consts.as_slice())?;
    children(out, proto.children.as_slice())?;
    instructions(out, proto.code.as_slice())
}

fn constants(out: &mut String, strings: &[Bytes], constants: &[Const]) -> Result<(), OutOfMemory>
    ensures { OnOk result (string_bytes out.new ≡ string_bytes out.old ++ spec.text_of (spec.numbered (spec.constant_line strings.now) constants.now)) }
{
    for (number, constant) in constants.iter().enumerate() {
        one_constant(out, strings, number, constant)?;
    }
    Ok(())
}

fn one_constant(
    out: &mut String,
    strings: &[Bytes],
    number: usize,
    constant: &Const,
) -> Result<(), OutOfMemory>
    ensures { OnOk result (string_bytes out.new ≡ string_bytes out.old ++ spec.line_text (spec.constant_line strings.now number constant.now)) }
{
    match constant {
        Const::Nil => writeln!(out, "k {number} nil")?,
        Const::False => writeln!(out, "k {number} false")?,
        Const::True => writeln!(out, "k {number} true")?,
        Const::Num(value) => {
            let value = value.get();
            writeln!(out, "k {number} {value}")?;
        }
        Const::Str(index) => {
            write!(out, "k {number} ")?;
            quoted(out, string(strings, *index))?;
            out.push('\n')?;
        }
        Const::Import(path) => writeln!(out, "k {number} import {path}")?,
    }
    Ok(())
}

// A string of the chunk; the empty one where there is none of this number.
fn string(strings: &[Bytes], index: u32) -> &[u8]
    ensures { result.now ≡ slice_index_or strings.now index [] }
{
    match strings.get(index as usize) {
        Some(string) => string.as_slice(),
        None => &[],
    }
}

// A string between quotes.
fn quoted(out: &mut String, bytes: &[u8]) -> Result<(), OutOfMemory>
    ensures { OnOk result (string_bytes out.new ≡ string_bytes out.old ++ spec.quoted bytes.now) }
{
    out.push('"')?;
    for byte in bytes {
        quoted_byte(out, *byte)?;
    }
    out.push('"')?;
    Ok(())
}

fn quoted_byte(out: &mut String, byte: u8) -> Result<(), OutOfMemory>
    ensures { OnOk result (string_bytes out.new ≡ string_bytes out.old ++ spec.quoted_byte byte) }
{
    if is_plain(byte) {
        out.push(char::from(byte))?;
    } else {
        write!(out, "\\{byte:02x}")?;
    }
    Ok(())
}

// Whether a byte stands for itself between quotes.
fn is_plain(byte: u8) -> bool
    ensures { result ≡ spec.is_plain byte }
{
    byte >= b' ' && byte <= b'~' && byte != b'"' && byte != b'\\'
}

fn children(out: &mut String, children: &[u32]) -> Result<(), OutOfMemory>
    ensures { OnOk result (string_bytes out.new ≡ string_bytes out.old ++ spec.text_of (spec.numbered spec.child_line children.now)) }
{
    for (number, child) in children.iter().enumerate() {
        one_child(out, number, *child)?;
    }
    Ok(())
}

fn one_child(out: &mut String, number: usize, child: u32) -> Result<(), OutOfMemory>
    ensures { OnOk result (string_bytes out.new ≡ string_bytes out.old ++ spec.line_text (spec.child_line number child)) }
{
    writeln!(out, "child {number} {child}")?;
    Ok(())
}

fn instructions(out: &mut String, code: &[u32]) -> Result<(), OutOfMemory>
    ensures { OnOk result (string_bytes out.new ≡ string_bytes out.old
        ++ spec.text_of (map (λ found. spec.instruction_line found.0 found.1) (spec.instructions code.now))) }
{
    let mut place = 0;
    while let Some((insn, next)) = decode(code, place) {
        one_instruction(out, place, &insn)?;
        place = next;
    }
    Ok(())
}

fn one_instruction(out: &mut String, place: usize, insn: &Insn) -> Result<(), OutOfMemory>
    ensures { OnOk result (string_bytes out.new ≡ string_bytes out.old ++ spec.line_text (spec.instruction_line place insn.now)) }
{
    let (name, fields) = insn.written();
    write!(out, "{place} {name}")?;
    for field in fields {
        let value = insn.operand(*field);
        write!(out, " {value}")?;
    }
    out.push('\n')?;
    Ok(())
}
