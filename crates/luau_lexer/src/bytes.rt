//! Kinds of bytes.

ghost use Rattle.std.specs.Prelude.{◌≡◌, nat_eq};
ghost use Rattle.syntax_tree.specs.Bytes.{is_blank, is_digit, is_hex_digit, is_name_start, is_name_byte, is_number_byte, is_no_line_feed, is_equals, begins};

// A blank, tab, line feed, vertical tab, form feed or carriage return.
pub(crate) fn is_blank(b: u8) -> bool
    ensures { result ≡ is_blank b }
{
    b == b' ' || (9 <= b && b <= 13)
}

pub(crate) fn is_no_line_feed(b: u8) -> bool
    ensures { result ≡ is_no_line_feed b }
{
    b != b'\n'
}

pub(crate) fn is_equals(b: u8) -> bool
    ensures { result ≡ is_equals b }
{
    b == b'='
}

pub(crate) fn is_digit(b: u8) -> bool
    ensures { result ≡ is_digit b }
{
    b.is_ascii_digit()
}

pub(crate) fn is_hex_digit(b: u8) -> bool
    ensures { result ≡ is_hex_digit b }
{
    is_digit(b) || (b'A' <= b && b <= b'F') || (b'a' <= b && b <= b'f')
}

pub(crate) fn is_name_start(b: u8) -> bool
    ensures { result ≡ is_name_start b }
{
    b.is_ascii_alphabetic() || b == b'_'
}

pub(crate) fn is_name_byte(b: u8) -> bool
    ensures { result ≡ is_name_byte b }
{
    is_name_start(b) || is_digit(b)
}

pub(crate) fn is_number_byte(b: u8) -> bool
    ensures { result ≡ is_number_byte b }
{
    is_digit(b) || b == b'.' || b == b'_'
}

// Whether the first byte is this one.
pub(crate) fn begins_with(bytes: &[u8], byte: u8) -> bool
    ensures { result ≡ begins (λ c. nat_eq c byte) bytes.now }
{
    match bytes.first() {
        Some(&b) => b == byte,
        None => false,
    }
}

// Whether the first byte is a decimal digit.
pub(crate) fn begins_with_digit(bytes: &[u8]) -> bool
    ensures { result ≡ begins is_digit bytes.now }
{
    match bytes.first() {
        Some(&b) => is_digit(b),
        None => false,
    }
}
