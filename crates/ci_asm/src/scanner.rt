//! The tokens of a line.
ghost use Rattle.std.specs.Prelude.{◌≡◌, ◌≤◌, length, drop, IfSome};
ghost use Rattle.ci_asm.specs.private.Tokens.{is_between, is_letter, is_digit, belongs, byte_at, run_end, run, is_hex_start};
ghost use Rattle.ci_asm.specs.private.Tokens.{is_negative_start, is_directive, kind_and_size, mark_of, scan, token_at};
ghost use Rattle.ci_asm.specs.private.Tokens.{next_token, text_of};

/// A class of bytes.
#[derive(Clone, Copy)]
pub(crate) enum ByteClass {
    Blank,
    NameByte,
    Digit,
    HexDigit,
    /// Any byte but a newline.
    InLine,
}

/// What a token is.
#[derive(Clone, Copy)]
pub(crate) enum Kind {
    /// A letter or `_`, and then letters, digits and `_`.
    Name,
    /// A number in decimal, with a `-` before it or without, or `0x` and hex digits.
    Numeral,
    /// `.word`.
    Directive,
    /// A comma, a bracket or a colon.
    Mark(u8),
    /// The end of the line.
    End,
    /// A byte that begins no token.
    Bad,
}

/// A token, and the bytes of the line that it has: from `start` to before `end`.
#[derive(Clone, Copy)]
pub(crate) struct Token {
    pub kind: Kind,
    pub start: usize,
    pub end: usize,
}

pub(crate) fn is_between(low: u8, high: u8, byte: u8) -> bool
    ensures { result ≡ is_between low high byte }
{
    low <= byte && byte <= high
}

fn is_letter(byte: u8) -> bool
    ensures { result ≡ is_letter byte }
{
    is_between(b'a', b'z', byte) || is_between(b'A', b'Z', byte) || byte == b'_'
}

pub(crate) fn is_digit(byte: u8) -> bool
    ensures { result ≡ is_digit byte }
{
    is_between(b'0', b'9', byte)
}

fn belongs(class: ByteClass, byte: u8) -> bool
    ensures { result ≡ belongs class byte }
{
    match class {
        ByteClass::Blank => byte == b' ' || byte == b'\t',
        ByteClass::NameByte => is_letter(byte) || is_digit(byte),
        ByteClass::Digit => is_digit(byte),
        ByteClass::HexDigit => {
            is_digit(byte) || is_between(b'a', b'f', byte) || is_between(b'A', b'F', byte)
        }
        ByteClass::InLine => byte != b'\n',
    }
}

/// The byte at a place, 0 past the line's end.
pub(crate) fn byte_at(line: &[u8], i: usize) -> u8
    ensures { result ≡ byte_at line.now i }
{
    line.get(i).copied().unwrap_or(0)
}

/// Where the bytes of the class end that begin at a place.
pub(crate) fn run_end(class: ByteClass, line: &[u8], from: usize) -> usize
    ensures place { result ≡ run_end class line.now from }
    ensures behind { from ≤ result }
    ensures bound { from ≤ length line.now → result ≤ length line.now }
{
    let mut end = from;
    while end < line.len() && belongs(class, line[end]) {
        end += 1;
    }
    end
}

/// How many bytes of the class the text begins with.
fn run(class: ByteClass, text: &[u8]) -> usize
    ensures size { result ≡ run class text.now }
    ensures bound { result ≤ length text.now }
{
    run_end(class, text, 0)
}

/// The text from a place on, which is empty past its end.
pub(crate) fn behind(text: &[u8], place: usize) -> &[u8]
    ensures { result.now ≡ drop place text.now }
{
    &text[place.min(text.len())..]
}

fn is_hex_start(first: u8, text: &[u8]) -> bool
    ensures { result ≡ is_hex_start first text.now }
{
    first == b'0' && byte_at(text, 0) == b'x' && belongs(ByteClass::HexDigit, byte_at(text, 1))
}

fn is_negative_start(first: u8, text: &[u8]) -> bool
    ensures { result ≡ is_negative_start first text.now }
{
    first == b'-' && is_digit(byte_at(text, 0))
}

fn is_directive(first: u8, text: &[u8]) -> bool
    ensures { result ≡ is_directive first text.now }
{
    first == b'.'
        && byte_at(text, 0) == b'w'
        && byte_at(text, 1) == b'o'
        && byte_at(text, 2) == b'r'
        && byte_at(text, 3) == b'd'
}

fn mark_of(first: u8) -> Option<(Kind, usize)>
    ensures { result ≡ kind_and_size (mark_of first) }
{
    match first {
        b',' | b'(' | b')' | b':' => Some((Kind::Mark(first), 0)),
        _ => None,
    }
}

/// The longest token that begins with a byte and stands before a text: its kind, and how many
/// bytes of the text it has.
#[tactic(auto, unfolding(crate::specs::private::Tokens::scan))]
fn scan(first: u8, text: &[u8]) -> Option<(Kind, usize)>
    ensures token { result ≡ kind_and_size (scan first text.now) }
    ensures bound { IfSome result (λ found. found.1 ≤ length text.now) }
{
    if is_letter(first) {
        Some((Kind::Name, run(ByteClass::NameByte, text)))
    } else if is_hex_start(first, text) {
        Some((Kind::Numeral, 1 + run(ByteClass::HexDigit, behind(text, 1))))
    } else if is_digit(first) || is_negative_start(first, text) {
        Some((Kind::Numeral, run(ByteClass::Digit, text)))
    } else if is_directive(first, text) {
        Some((Kind::Directive, 4))
    } else {
        mark_of(first)
    }
}

/// The token that begins at a place of the line, where no blank stands.
#[tactic(auto, unfolding(crate::specs::private::Tokens::token_at))]
fn token_at(line: &[u8], i: usize) -> Token
    ensures token { result ≡ token_at (length line.now) i (drop i line.now) }
    ensures bound { result.start ≤ length line.now }
{
    let end = Token {
        kind: Kind::End,
        start: line.len(),
        end: line.len(),
    };
    match behind(line, i).split_first() {
        None | Some((b'#', _)) => end,
        Some((first, text)) => match scan(*first, text) {
            None => Token {
                kind: Kind::Bad,
                start: i,
                end: i + 1,
            },
            Some((kind, size)) => Token {
                kind,
                start: i,
                end: i + 1 + size,
            },
        },
    }
}

/// The next token of the line behind the blanks from a place on.
pub(crate) fn next_token(line: &[u8], from: usize) -> Token
    ensures token { result ≡ next_token line.now from }
    ensures bound { result.start ≤ length line.now }
{
    token_at(line, run_end(ByteClass::Blank, line, from))
}

/// The bytes of a token of the line.
pub(crate) fn text_of(line: &[u8], token: Token) -> &[u8]
    ensures { result.now ≡ text_of line.now token }
{
    let end = token.end.min(line.len());
    &line[token.start.min(end)..end]
}
