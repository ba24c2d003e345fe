//! What each change of the arena keeps, and where the border of a table lies.

ghost use Rattle.std.specs.Prelude.{◌≡◌, ℕ, Option, true};
ghost use Rattle.value_arena.specs.Arenas.{ArenaView, no_arena};
ghost use Rattle.value_arena.specs.Borders.{IsFilled, item_behind};
ghost use Rattle.value_arena.specs.Growing.{Grows};
ghost use Rattle.value_arena.specs.Laws as law;
ghost use Rattle.value_arena.specs.Owning.{IsOwned, MayBeTable, MayHold};
ghost use Rattle.value_arena.specs.Tables.{Entries, TableView, border_of, is_nil};
ghost use Rattle.value_arena.specs.declared.closure.Closure.{Closure};
ghost use Rattle.value_arena.specs.declared.closure.Thread.{Thread};
ghost use Rattle.value_model.specs.declared.ids.CellId.{CellId};
ghost use Rattle.value_model.specs.declared.ids.ClosureId.{ClosureId};
ghost use Rattle.value_model.specs.declared.ids.Owner.{Owner};
ghost use Rattle.value_model.specs.declared.ids.TableId.{TableId};
ghost use Rattle.value_model.specs.declared.ids.ThreadId.{ThreadId};
ghost use Rattle.value_model.specs.declared.value.Value.{Value};

/// An object that is written reads so, and all other objects stay. Objects go on to refer only to what is there and is their
/// owner's or nobody's, where what is written does.
pub fn writes_keep()
    ensures table { (a : ArenaView) (t : TableId) (v : TableView) → law.TableWritten a t v }
    ensures closure { (a : ArenaView) (f : ClosureId) (v : Closure) → law.ClosureWritten a f v }
    ensures cell { (a : ArenaView) (c : CellId) (v : Value) → law.CellWritten a c v }
    ensures thread { (a : ArenaView) (t : ThreadId) (v : Thread) → law.ThreadWritten a t v }
{}

/// A new object is none of those that were there, and these stay. Objects go on to refer only to what is there and is their
/// owner's or nobody's, where the new one does.
pub fn new_objects_keep()
    ensures table { (a : ArenaView) (w : Owner) → law.TableMade a w }
    ensures closure { (a : ArenaView) (w : Owner) (f : Closure) → law.ClosureMade a w f }
    ensures cell { (a : ArenaView) (w : Owner) (v : Value) → law.CellMade a w v }
    ensures thread { (a : ArenaView) (w : Owner) (body : Value) → law.ThreadMade a w body }
{}

/// Objects refer only to what is there and is their owner's or nobody's: in an empty arena, and whichever coroutine is said to
/// run. What is there stays there as arenas grow. A table with a value written may be where it might be before, and the key and
/// the value may be held.
pub fn references_keep()
    ensures empty { IsOwned no_arena }
    ensures running { (a : ArenaView) (r : Option ThreadId) → IsOwned a → IsOwned (record a { running = r }) }
    ensures ids { (a b : ArenaView) → Grows a b → law.IdsStay a b }
    ensures entry { (a : ArenaView) (w : Owner) (t : TableView) (key v : Value) → MayBeTable a w t → MayHold a w key → MayHold a w v → MayBeTable a w (law.with_entry t key v) }
{}

/// The border is the least number behind which there is nil: up to it each whole number from 1 on has a value, and no other
/// number is so.
pub fn border_is_least()
    ensures filled { (es : Entries) → IsFilled es (border_of es) }
    ensures nil { (es : Entries) → is_nil (item_behind es (border_of es)) ≡ true }
    ensures only { (es : Entries) (b : ℕ) → IsFilled es b → is_nil (item_behind es b) ≡ true → border_of es ≡ b }
{}
