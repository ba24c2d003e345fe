//! Code that is being emitted.

ghost use Rattle.std.specs.Prelude.{◌≡◌, ◌+◌, ◌^◌, ◌<◌, pos, ◌∷◌, ◌++◌, [], length, OnOk, IfOk};
ghost use Rattle.code_link.specs.Labels.{word_count};
ghost use Rattle.built_emitter.specs.Emitted.{Appends};
ghost use Rattle.built_emitter.specs.Fits.{AllFit};

use built_machine::Constant;
use code_link::Item;
use resource::OutOfMemory;
use whole_num::Whole;

/// A function's code with labels, and its constants.
#[derive(Drop)]
pub struct Draft {
    pub items: Vec<Item>,
    pub constants: Vec<Constant>,
    /// How many labels there are. They are numbered from 0.
    pub labels: usize,
}

/// One more item.
pub fn put(code: &mut Draft, item: Item) -> Result<(), OutOfMemory>
    requires { AllFit (item ∷ []) }
    ensures item { OnOk result (Appends code.old code.new (word_count (item ∷ [])) (item ∷ [])) }
    ensures constants { code.new.constants ≡ code.old.constants }
    ensures labels { code.new.labels ≡ code.old.labels }
{
    code.items.push(item)?;
    Ok(())
}

/// A new label, which is to be placed once.
pub fn new_label(code: &mut Draft) -> usize
    requires { code.old.labels < 2 ^ 15 }
    ensures label { result ≡ code.old.labels }
    ensures draft { code.new ≡ record code.old { labels = code.old.labels + 1 } }
{
    let label = code.labels;
    code.labels += 1;
    label
}

/// The index of a new constant.
pub fn add_number(code: &mut Draft, n: Whole) -> Result<i16, OutOfMemory>
    requires { length code.old.constants.items < 2 ^ 15 }
    ensures index { IfOk result (λ k. k ≡ pos (length code.old.constants.items)) }
    ensures constants { OnOk result (code.new.constants.items ≡ code.old.constants.items ++ Constant.Number n ∷ []) }
    ensures items { code.new.items ≡ code.old.items }
    ensures labels { code.new.labels ≡ code.old.labels }
{
    let index = code.constants.len() as i16;
    code.constants.push(Constant::Number(n))?;
    Ok(index)
}
