//! Laws of shape.

ghost use Rattle.shape_laws.specs.Laws.{CodeShapes};

/// In the code of each function of a script that breaks no rule, instructions stand in the order that they ask for, jumps lead back
/// where they are to and ahead where they are not, and the constants and children that are named are there, of the kind that is wanted.
pub fn code_shapes()
    ensures { CodeShapes }
{}
