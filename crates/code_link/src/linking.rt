//! The places of labels, and the words of the code.

ghost use Rattle.std.specs.Prelude.{◌≡◌, ◌<◌, ◌^◌, ◌≤◌, ℕ, ◌++◌, nat_eq, Some, IfOk, OnOk};
ghost use Rattle.std.specs.List.{IsDistinct};
ghost use Rattle.std.specs.HashMap as hash;
ghost use Rattle.op_words.specs.Encoding.{encoded};
ghost use Rattle.code_link.specs.Labels.{AreJumps, IsLinkable, labels, place_in, word_count};
ghost use Rattle.code_link.specs.Linking.{IsLinked, jumping};
ghost use Rattle.code_link.specs.Making.{distance, linked};

use crate::item::{Item, Labelled, Linked};
use op_words::{Insn, encode};
use resource::OutOfMemory;
use std::alloc::Global;
use std::collections::HashMap;

/// The words of the items in their order, in which each branch jumps to its label.
pub fn link(alloc: Global, code: Labelled) -> Result<Linked, OutOfMemory>
    requires { IsLinkable code.items.items }
    ensures { IfOk result (λ linked. IsLinked code.items.items linked.code.items) }
{
    let places = places_of(alloc, &code.items)?;
    let code = resolve(alloc, &code.items, &places)?;
    Ok(Linked { code })
}

fn places_of(alloc: Global, items: &[Item]) -> Result<HashMap<usize, usize>, OutOfMemory>
    requires once { IsDistinct nat_eq (labels items.now) }
    requires short { word_count items.now < 2 ^ 15 }
    ensures { IfOk result
        (λ places. (label : ℕ) → hash.get nat_eq places label ≡ place_in items.now 0 label) }
{
    let mut places = HashMap::new(alloc);
    let mut here = 0;
    for item in items {
        match item {
            Item::Insn(insn) | Item::Branch(insn, _) => here += insn.word_count(),
            Item::Label(label) => {
                places.insert(*label, here)?;
            }
        }
    }
    Ok(places)
}

fn resolve(
    alloc: Global,
    items: &[Item],
    places: &HashMap<usize, usize>,
) -> Result<Vec<u32>, OutOfMemory>
    requires jumps { AreJumps (hash.get nat_eq places.now) items.now }
    requires short { word_count items.now < 2 ^ 15 }
    requires near { (label place : ℕ) → hash.get nat_eq places.now label ≡ Some place → place < 2 ^ 15 }
    ensures { IfOk result (λ code. code.items ≡ linked (hash.get nat_eq places.now) 0 items.now) }
{
    let mut code = Vec::new(alloc);
    for item in items {
        match item {
            Item::Insn(insn) => push_words(&mut code, insn)?,
            Item::Branch(insn, label) => {
                let place = places.get(label).copied().unwrap();
                let jump = jumping(insn, distance(code.len(), place));
                push_words(&mut code, &jump)?;
            }
            Item::Label(_) => {}
        }
    }
    Ok(code)
}

fn push_words(code: &mut Vec<u32>, insn: &Insn) -> Result<(), OutOfMemory>
    ensures { OnOk result (code.new.items ≡ code.old.items ++ encoded insn.now) }
{
    let words = encode(insn);
    code.push(words.first)?;
    if let Some(aux) = words.aux {
        code.push(aux)?;
    }
    Ok(())
}

fn distance(at: usize, to: usize) -> i16
    requires at { at < 2 ^ 15 }
    requires to { to < 2 ^ 15 }
    ensures { result ≡ distance at to }
{
    (to as i32 - at as i32 - 1) as i16
}

fn jumping(insn: &Insn, by: i16) -> Insn
    ensures { result ≡ jumping insn.now by }
{
    match *insn {
        Insn::Jump { .. } => Insn::Jump { by },
        Insn::JumpBack { .. } => Insn::JumpBack { by },
        Insn::JumpIf { value, .. } => Insn::JumpIf { value, by },
        Insn::JumpIfNot { value, .. } => Insn::JumpIfNot { value, by },
        Insn::JumpIfEq { left, right, .. } => Insn::JumpIfEq { left, by, right },
        Insn::JumpIfLe { left, right, .. } => Insn::JumpIfLe { left, by, right },
        Insn::JumpIfLt { left, right, .. } => Insn::JumpIfLt { left, by, right },
        Insn::JumpIfNotEq { left, right, .. } => Insn::JumpIfNotEq { left, by, right },
        Insn::JumpIfNotLe { left, right, .. } => Insn::JumpIfNotLe { left, by, right },
        Insn::JumpIfNotLt { left, right, .. } => Insn::JumpIfNotLt { left, by, right },
        Insn::ForNPrep { base, .. } => Insn::ForNPrep { base, by },
        Insn::ForNLoop { base, .. } => Insn::ForNLoop { base, by },
        Insn::ForGPrep { base, .. } => Insn::ForGPrep { base, by },
        Insn::ForGLoop {
            base,
            variables,
            ..
        } => Insn::ForGLoop {
            base,
            by,
            variables,
        },
        Insn::JumpXEqKNil { value, test, .. } => Insn::JumpXEqKNil { value, by, test },
        Insn::JumpXEqKB { value, test, .. } => Insn::JumpXEqKB { value, by, test },
        Insn::JumpXEqKN { value, test, .. } => Insn::JumpXEqKN { value, by, test },
        Insn::JumpXEqKS { value, test, .. } => Insn::JumpXEqKS { value, by, test },
        other => other,
    }
}
