//! Names that are known by their numbers.

ghost use Rattle.std.specs.Prelude.{◌≡◌, codes, Some, slice_get};
ghost use Rattle.byte_text.specs.Texts.{fixed_texts};
ghost use Rattle.built_values.specs.Globals.{print_name};

/// The number of `print` is the place of its text among those that every interner holds.
pub fn fixed_name()
    ensures { slice_get fixed_texts print_name.0 ≡ Some (codes "print") }
{}
