//! Laws of the definitions.

ghost use Rattle.std.specs.Prelude.{◌≡◌, codes, Some, slice_get};
ghost use Rattle.byte_text.specs.Texts.{fixed_texts};
ghost use Rattle.syntax_tree.specs.Proper.{ProperNodes};
ghost use Rattle.syntax_tree.specs.Types.{typeof_name};
ghost use Rattle.syntax_tree.specs.Words.{self_name, continue_name, type_name, export_name};

/// The numbers that the grammar knows are the places of their texts among those that every interner holds.
pub fn fixed_names()
    ensures typeof_text { slice_get fixed_texts typeof_name.0 ≡ Some (codes "typeof") }
    ensures self_text { slice_get fixed_texts self_name.0 ≡ Some (codes "self") }
    ensures continue_text { slice_get fixed_texts continue_name.0 ≡ Some (codes "continue") }
    ensures type_text { slice_get fixed_texts type_name.0 ≡ Some (codes "type") }
    ensures export_text { slice_get fixed_texts export_name.0 ≡ Some (codes "export") }
{}

/// The nodes of a proper tree: a call statement is a call, what is assigned to is a name, an index or a member, a compound
/// assignment computes, and a run of `..` has two operands or more.
pub fn proper_nodes()
    ensures { ProperNodes }
{}
