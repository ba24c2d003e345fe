//! The compiler, from the tree to words.

ghost use Rattle.std.specs.Prelude.{◌≤◌, [], IfOk};
ghost use Rattle.syntax_tree.specs.declared.tree.FuncBody.{out-FuncBody};
ghost use Rattle.built_emitter.specs.Form.{IsBlock};
ghost use Rattle.built_emitter.specs.Standing.{IsBound};
ghost use Rattle.built_emitter.specs.Size.{most_words, block_words};
ghost use Rattle.built_emitter.specs.Correct.{Behaves};
ghost use Rattle.built_emitter.specs.Emitted.{IsEmitted};

use crate::draft::{Draft, put};
use crate::scope::Scope;
use crate::statements::emit_block;
use built_machine::{Code, Constant};
use byte_text::StrId;
use code_link::{Item, Labelled, Linked, link};
use op_words::Insn;
use resource::OutOfMemory;
use std::alloc::Global;
use syntax_tree::{Bindings, Tree};

/// The words of a script, at level 0. The bindings are those of its tree. The only error is want of memory.
pub fn compile(alloc: Global, tree: &Tree, bindings: &Bindings) -> Result<Code, OutOfMemory>
    requires bound { IsBound tree.now bindings.now }
    requires form { IsBlock bindings.now [] (out-FuncBody tree.now.main).body }
    requires small { block_words (out-FuncBody tree.now.main).body ≤ most_words }
    ensures { IfOk result (λ code. Behaves (out-FuncBody tree.now.main).body code.words.items code.constants.items) }
{
    let Draft {
        items,
        constants,
        ..
    } = emit_script(alloc, tree, bindings)?;
    let Linked { code: words } = link(alloc, Labelled { items })?;
    Ok(Code { words, constants })
}

// The code of a script with labels.
fn emit_script(alloc: Global, tree: &Tree, bindings: &Bindings) -> Result<Draft, OutOfMemory>
    requires bound { IsBound tree.now bindings.now }
    requires form { IsBlock bindings.now [] (out-FuncBody tree.now.main).body }
    requires small { block_words (out-FuncBody tree.now.main).body ≤ most_words }
    ensures { IfOk result (IsEmitted (out-FuncBody tree.now.main).body) }
{
    let mut code = Draft {
        items: Vec::new(alloc),
        constants: Vec::new(alloc),
        labels: 0,
    };
    let mut scope = Scope::new(alloc);
    code.constants.push(Constant::Text(StrId::PRINT))?;
    put(&mut code, Item::Insn(Insn::PrepVarargs { parameters: 0 }))?;
    emit_block(&mut code, &mut scope, bindings, tree.main.body.as_slice())?;
    put(&mut code, Item::Insn(Insn::Return { base: 0, values: 1 }))?;
    Ok(code)
}
