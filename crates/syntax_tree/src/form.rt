//! The forms of which a text is made.

/// What the first bytes of a text begin.
#[derive(Clone, Copy)]
pub enum Form {
    /// The text ends here.
    Finished,
    /// Blanks, as many as stand there.
    Blanks,
    /// A comment to the line's end.
    LineComment,
    /// A comment in brackets, with so many `=` signs in each.
    LongComment(usize),
    /// A name or a reserved word.
    Name,
    /// A number.
    Number,
    /// A string in quotes of this kind.
    Quoted(u8),
    /// A string in brackets, with so many `=` signs in each.
    LongString(usize),
    /// An interpolated string, with its first piece.
    FirstPiece,
    /// The piece of an interpolated string behind an expression.
    NextPiece,
    /// A symbol, or a byte that begins no token.
    Symbol,
}

/// What an open brace belongs to.
#[derive(Clone, Copy)]
pub enum Opener {
    /// It is the symbol.
    Brace,
    /// It begins an expression of an interpolated string.
    Piece,
}
