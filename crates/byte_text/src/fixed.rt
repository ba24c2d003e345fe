//! Numbers of texts, and the texts whose numbers are the same in every interner.

ghost use Rattle.std.specs.Prelude.{◌≡◌, ◌<◌, Some, position, slice_get};
ghost use Rattle.std.specs.Str.{bytes_eq};
ghost use Rattle.byte_text.specs.Texts.{fixed_texts};

/// A text's number in an interner.
#[derive(Clone, Copy, PartialEq, Eq, PartialOrd, Ord, Hash, Debug)]
pub struct StrId(pub usize);

impl StrId {
    /// The number of `typeof` in every interner.
    pub const TYPEOF: StrId = StrId(0);

    /// The number of `self` in every interner.
    pub const SELF: StrId = StrId(1);

    /// The number of `continue` in every interner.
    pub const CONTINUE: StrId = StrId(2);

    /// The number of `type` in every interner.
    pub const TYPE: StrId = StrId(3);

    /// The number of `export` in every interner.
    pub const EXPORT: StrId = StrId(4);

    /// The number of `getfenv` in every interner.
    pub const GETFENV: StrId = StrId(5);

    /// The number of `setfenv` in every interner.
    pub const SETFENV: StrId = StrId(6);

    /// The number of `require` in every interner.
    pub const REQUIRE: StrId = StrId(7);

    /// The number of `print` in every interner.
    pub const PRINT: StrId = StrId(8);
}

// How many texts every interner holds from the start.
pub(crate) const FIXED_LEN: usize = 9;

static FIXED: [&[u8]; FIXED_LEN] = [
    b"typeof",
    b"self",
    b"continue",
    b"type",
    b"export",
    b"getfenv",
    b"setfenv",
    b"require",
    b"print",
];

// The fixed text at a place.
pub(crate) fn fixed_at(place: usize) -> &'static [u8]
    requires { place < FIXED_LEN }
    ensures { slice_get fixed_texts place ≡ Some result.now }
{
    FIXED[place]
}

// The place of a text among the fixed ones.
pub(crate) fn fixed_place(bytes: &[u8]) -> Option<usize>
    ensures { result ≡ position (bytes_eq bytes.now) fixed_texts }
{
    first_place(&FIXED, bytes)
}

// The first place of some bytes in a table.
fn first_place(table: &[&[u8]], bytes: &[u8]) -> Option<usize>
    ensures { result ≡ position (λ text. bytes_eq bytes.now text.now) table.now }
{
    table.iter().position(|text| bytes == *text)
}
