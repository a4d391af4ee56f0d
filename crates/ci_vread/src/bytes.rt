//! Bytes of a text, and runs of them.
ghost use Rattle.std.specs.Prelude.{◌≡◌, ◌≤◌, length, drop};
ghost use Rattle.ci_vread.specs.private.Scanning.{belongs, run, byte_at};

/// A class of bytes.
#[derive(Clone, Copy)]
pub(crate) enum ByteClass {
    Blank,
    /// A byte of a name behind its first.
    InName,
    Digit,
    HexDigit,
    /// Any byte but a quote.
    BeforeQuote,
}

fn belongs(class: ByteClass, byte: u8) -> bool
    ensures { result ≡ belongs class byte }
{
    match class {
        ByteClass::Blank => byte == b' ' || byte == b'\t' || byte == b'\n',
        ByteClass::InName => byte.is_ascii_alphanumeric() || byte == b'_',
        ByteClass::Digit => byte.is_ascii_digit(),
        ByteClass::HexDigit => byte.is_ascii_hexdigit(),
        ByteClass::BeforeQuote => byte != b'\'',
    }
}

/// How many bytes of the class the text begins with.
pub(crate) fn run(class: ByteClass, text: &[u8]) -> usize
    ensures size { result ≡ run class text.now }
    ensures bound { result ≤ length text.now }
{
    let mut size = 0;
    while size < text.len() && belongs(class, text[size]) {
        size += 1;
    }
    size
}

/// The byte at a place, 0 past the text's end.
pub(crate) fn byte_at(text: &[u8], place: usize) -> u8
    ensures { result ≡ byte_at text.now place }
{
    text.get(place).copied().unwrap_or(0)
}

/// The text from a place on, which is empty past its end.
pub(crate) fn behind(text: &[u8], place: usize) -> &[u8]
    ensures { result.now ≡ drop place text.now }
{
    &text[place.min(text.len())..]
}
