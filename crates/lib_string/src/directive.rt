//! The directives of a format.

ghost use Rattle.std.specs.Prelude.{◌≡◌, ◌+◌, ◌≤◌, Bool, false, length, option_map};
ghost use Rattle.lib_string.specs.Directives.{field_of, form_of, piece_of};
ghost use Rattle.value_model.specs.FormatRows as row;
ghost use Rattle.value_model.specs.Values.{Bytes};

/// What a directive wants of its argument.
#[derive(Clone, Copy)]
pub(crate) enum Form {
    Text,
    Decimal,
    /// Hexadecimal, with small or capital letters.
    Hex(bool),
    Byte,
}

/// What is made of the text of an argument: the blanks stand at its right, or it is filled with zeros, and so many bytes are
/// wanted.
#[derive(Clone, Copy)]
pub(crate) struct Field {
    pub left: bool,
    pub zeros: bool,
    pub width: usize,
    pub form: Form,
}

/// A piece of a format.
#[derive(Clone, Copy)]
pub(crate) enum Piece {
    Plain(u8),
    Directive(Field),
    Malformed,
}

/// The piece that begins with a byte, and what stands behind it.
pub(crate) fn read_piece(byte: u8, rest: &[u8]) -> (Piece, &[u8])
    ensures piece { (piece_of result.0, result.1.now) ≡ row.read_piece byte rest.now }
    ensures behind { length result.1.now ≤ length rest.now }
{
    if byte == b'%' {
        read_directive(rest)
    } else {
        (Piece::Plain(byte), rest)
    }
}

// The piece behind a `%`.
fn read_directive(rest: &[u8]) -> (Piece, &[u8])
    ensures piece { (piece_of result.0, result.1.now) ≡ row.read_directive rest.now }
    ensures behind { length result.1.now ≤ length rest.now }
{
    match rest {
        [] => (Piece::Malformed, rest),
        [b'%', behind @ ..] => (Piece::Plain(b'%'), behind),
        [b'*', behind @ ..] => (Piece::Directive(plain_text()), behind),
        _ => read_field(rest),
    }
}

// The field of `%*`.
fn plain_text() -> Field
    ensures { field_of result ≡ record { left = false; zeros = false; width = 0; form = row.AsText } }
{
    Field {
        left: false,
        zeros: false,
        width: 0,
        form: Form::Text,
    }
}

// A `-`, a `0`, a width and a letter.
fn read_field(rest: &[u8]) -> (Piece, &[u8])
    ensures piece { (piece_of result.0, result.1.now) ≡ row.read_field (row.optional_byte 45 rest.now) }
    ensures behind { length result.1.now ≤ length rest.now }
{
    let (left, rest) = optional_byte(b'-', rest);
    let (zeros, rest) = optional_byte(b'0', rest);
    let (width, rest) = read_width(rest);
    read_letter(left, zeros, width, rest)
}

// Whether a byte stands first, and what stands behind it.
fn optional_byte(byte: u8, rest: &[u8]) -> (bool, &[u8])
    ensures found { (result.0, result.1.now) ≡ row.optional_byte byte rest.now }
    ensures behind { length result.1.now ≤ length rest.now }
{
    match rest {
        [first, behind @ ..] if *first == byte => (true, behind),
        _ => (false, rest),
    }
}

// A width of at most two digits, and what stands behind it. It is 0 where there is none.
fn read_width(rest: &[u8]) -> (usize, &[u8])
    ensures width { (l z : Bool) → row.read_letter l z result.0 result.1.now ≡ row.read_width l z rest.now }
    ensures behind { length result.1.now ≤ length rest.now }
{
    match rest {
        [tens @ b'0'..=b'9', ones @ b'0'..=b'9', behind @ ..] => (
            digit(*tens) * 10 + digit(*ones),
            behind,
        ),
        [ones @ b'0'..=b'9', behind @ ..] => (digit(*ones), behind),
        _ => (0, rest),
    }
}

fn digit(byte: u8) -> usize
    requires { (48 ≤ byte) × (byte ≤ 57) }
    ensures { result + 48 ≡ byte }
{
    (byte - b'0') as usize
}

// The letter of a directive.
fn read_letter(left: bool, zeros: bool, width: usize, rest: &[u8]) -> (Piece, &[u8])
    ensures piece { (piece_of result.0, result.1.now) ≡ row.read_letter left zeros width rest.now }
    ensures behind { length result.1.now ≤ length rest.now }
{
    match rest {
        [] => (Piece::Malformed, rest),
        [letter, behind @ ..] => (directive(left, zeros, width, *letter), behind),
    }
}

// The directive of a letter.
fn directive(left: bool, zeros: bool, width: usize, letter: u8) -> Piece
    ensures { (behind : Bytes) → (piece_of result, behind) ≡ row.with_form left zeros width (row.form_of letter) behind }
{
    match form_of(letter) {
        Some(form) => Piece::Directive(Field {
            left,
            zeros,
            width,
            form,
        }),
        None => Piece::Malformed,
    }
}

// The form of a letter.
fn form_of(letter: u8) -> Option<Form>
    ensures { option_map form_of result ≡ row.form_of letter }
{
    match letter {
        b's' => Some(Form::Text),
        b'd' => Some(Form::Decimal),
        b'x' => Some(Form::Hex(false)),
        b'X' => Some(Form::Hex(true)),
        b'c' => Some(Form::Byte),
        _ => None,
    }
}
