//! From a text to its tokens.
ghost use Rattle.std.specs.Prelude.{◌≡◌, ◌<◌, ◌≤◌, ◌∷◌, false, if◌then◌else◌, [], min, length, map, option_map};
ghost use Rattle.std.specs.Prelude.{IfOk};
ghost use Rattle.ci_reading.specs.Lexers.{symbols_of};
ghost use Rattle.ci_vread.specs.Lexicon.{spelling};
ghost use Rattle.ci_vread.specs.private.Scanned.{placed_of};
ghost use Rattle.ci_vread.specs.private.Scanning.{among, words, word_token, is_good, is_value, number_at, cycles_at};
ghost use Rattle.ci_vread.specs.private.Scanning.{word_at, single, mark_at, scan, unit_lexer, symbols_from, IsSolid, kind_of};
ghost use Rattle.ci_vread.specs.private.Scanning.{kind_and_size, ends};

use crate::bytes::{ByteClass, behind, byte_at, run};
use crate::tokens::{Kind, Sign, Token};
use ci_verilog::Operator;
use std::alloc::{AllocError, Global};

/// The word of the grammar that these bytes are.
fn word_of(bytes: &[u8]) -> Option<Sign>
    ensures { result ≡ among spelling words bytes.now }
{
    match bytes {
        b"module" => Some(Sign::ModuleWord),
        b"input" => Some(Sign::InputWord),
        b"output" => Some(Sign::OutputWord),
        b"wire" => Some(Sign::WireWord),
        b"assign" => Some(Sign::AssignWord),
        b"endmodule" => Some(Sign::EndModuleWord),
        b"a" => Some(Sign::NameA),
        b"b" => Some(Sign::NameB),
        b"c" => Some(Sign::NameC),
        b"y" => Some(Sign::NameY),
        b"z" => Some(Sign::NameZ),
        _ => None,
    }
}

/// What these letters are: a word, a name, or too many for a name.
fn letters_kind(bytes: &[u8]) -> Kind
    ensures { result ≡ kind_of (word_token bytes.now) }
{
    if bytes.len() > 32 {
        return Kind::Never;
    }
    match word_of(bytes) {
        Some(sign) => Kind::Sign(sign),
        None => Kind::Name,
    }
}

/// The word or name with which the text begins.
fn word_at(text: &[u8]) -> (Kind, usize)
    ensures { result ≡ kind_and_size (word_at text.now) }
{
    let size = run(ByteClass::InName, text);
    (letters_kind(&text[..size]), size)
}

/// Whether the digits are one to seven, without zeros before their number.
fn is_good(digits: &[u8]) -> bool
    ensures { result ≡ is_good digits.now }
{
    !digits.is_empty() && digits.len() < 8 && (digits.len() == 1 || byte_at(digits, 0) != b'0')
}

/// Whether the value of a constant stands here, behind its width: `'h` and a digit.
fn is_value(text: &[u8]) -> bool
    ensures { result ≡ is_value text.now }
{
    byte_at(text, 0) == b'\'' && byte_at(text, 1) == b'h' && byte_at(text, 2).is_ascii_hexdigit()
}

/// The number or constant with which the text begins.
#[tactic(auto, unfolding(crate::specs::private::Scanning::number_at))]
fn number_at(text: &[u8]) -> (Kind, usize)
    ensures { result ≡ kind_and_size (number_at text.now) }
{
    let size = run(ByteClass::Digit, text);
    let good = is_good(&text[..size]);
    let rest = &text[size..];
    if is_value(rest) {
        let digits = run(ByteClass::HexDigit, behind(rest, 2));
        let kind = if good && digits < 17 {
            Kind::Constant
        } else {
            Kind::Never
        };
        (kind, size + 2 + digits)
    } else {
        let kind = if good { Kind::Number } else { Kind::Never };
        (kind, size)
    }
}

/// The line of a module's cycles with which the text begins.
#[tactic(auto, unfolding(crate::specs::private::Scanning::cycles_at))]
fn cycles_at(text: &[u8]) -> Option<(Kind, usize)>
    ensures { result ≡ option_map kind_and_size (cycles_at text.now) }
{
    let rest = text.strip_prefix(b"// cycles ")?;
    let size = run(ByteClass::Digit, rest);
    if is_good(&rest[..size]) && byte_at(rest, size) == b'\n' {
        Some((Kind::Cycles, size + 11))
    } else {
        None
    }
}

/// The mark that is this byte alone.
fn single(byte: u8) -> Option<(Kind, usize)>
    ensures { result ≡ option_map kind_and_size (single byte) }
{
    let kind = match byte {
        b'+' => Kind::Operator(Operator::Plus),
        b'-' => Kind::Operator(Operator::Minus),
        b'*' => Kind::Operator(Operator::Times),
        b'&' => Kind::Operator(Operator::And),
        b'|' => Kind::Operator(Operator::Or),
        b'^' => Kind::Operator(Operator::Xor),
        b'<' => Kind::Operator(Operator::Less),
        b'(' => Kind::Sign(Sign::Opening),
        b')' => Kind::Sign(Sign::Closing),
        b'[' => Kind::Sign(Sign::LeftBracket),
        b']' => Kind::Sign(Sign::RightBracket),
        b'{' => Kind::Sign(Sign::LeftBrace),
        b'}' => Kind::Sign(Sign::RightBrace),
        b',' => Kind::Sign(Sign::Comma),
        b';' => Kind::Sign(Sign::Semicolon),
        b':' => Kind::Sign(Sign::Colon),
        b'=' => Kind::Sign(Sign::Equals),
        b'?' => Kind::Sign(Sign::Question),
        _ => return None,
    };
    Some((kind, 1))
}

/// The operator or mark that is this byte, or this byte and the next.
#[tactic(auto, unfolding(crate::specs::private::Scanning::mark_at))]
fn mark_at(byte: u8, next: u8) -> Option<(Kind, usize)>
    ensures { result ≡ option_map kind_and_size (mark_at byte next) }
{
    if byte == b'<' && next == b'<' {
        return Some((Kind::Operator(Operator::Left), 2));
    }
    if byte == b'>' && next == b'>' {
        return Some((Kind::Operator(Operator::Right), 2));
    }
    single(byte)
}

/// The longest token with which the text begins, and how many bytes it has.
#[tactic(auto, unfolding(crate::specs::private::Scanning::scan))]
fn scan(text: &[u8]) -> Option<(Kind, usize)>
    ensures { result ≡ option_map kind_and_size (scan text.now) }
{
    let first = byte_at(text, 0);
    if first.is_ascii_alphabetic() {
        Some(word_at(text))
    } else if first.is_ascii_digit() {
        Some(number_at(text))
    } else if first == b'/' {
        cycles_at(text)
    } else {
        mark_at(first, byte_at(text, 1))
    }
}

/// Whether nothing stands behind a token of this kind.
fn ends(kind: Kind) -> bool
    ensures { result ≡ ends kind }
{
    matches!(kind, Kind::Stray | Kind::End)
}

/// The first place from this one on where no blank stands.
fn behind_blanks(text: &[u8], place: usize) -> usize
    requires { place ≤ length text.now }
    ensures symbols { symbols_from text.now result ≡ symbols_from text.now place }
    ensures solid { IsSolid text.now result }
    ensures place { place ≤ result }
    ensures bound { result ≤ length text.now }
{
    place + run(ByteClass::Blank, behind(text, place))
}

/// The token of so many bytes at the place. A size that doesn't fit is that of a token which is allowed nowhere.
fn placed(kind: Kind, size: usize, place: usize) -> Token
    requires { place ≤ 268435456 }
    ensures { result ≡ record { kind = kind; size = min size 255; start = place } }
{
    Token {
        kind,
        size: size.min(255) as u8,
        start: place as u32,
    }
}

/// The token at a place where no blank stands, and where the text behind it begins.
fn token_at(text: &[u8], place: usize) -> (Token, usize)
    requires place { place ≤ length text.now }
    requires length { length text.now ≤ 268435456 }
    requires solid { IsSolid text.now place }
    ensures symbols { symbols_from text.now place
        ≡ placed_of text.now result.0 ∷ (if ends result.0.kind then [] else symbols_from text.now result.1) }
    ensures more { ends result.0.kind ≡ false → place < result.1 }
    ensures bound { result.1 ≤ length text.now }
{
    if place == text.len() {
        return (placed(Kind::End, 0, place), place);
    }
    match scan(behind(text, place)) {
        Some((kind, size)) => (placed(kind, size, place), place + size),
        None => (placed(Kind::Stray, 1, place), place),
    }
}

/// The tokens of the text. The last one is its end, or a byte that begins no token.
///
/// # Errors
///
/// Out of memory.
pub(crate) fn symbols(alloc: Global, text: &[u8]) -> Result<Vec<Token>, AllocError>
    requires { length text.now ≤ 268435456 }
    ensures { IfOk result (λ tokens. map (placed_of text.now) tokens.items ≡ symbols_of unit_lexer text.now) }
{
    let mut tokens = Vec::new(alloc);
    let mut place = 0;
    loop {
        let (token, end) = token_at(text, behind_blanks(text, place));
        tokens.push(token)?;
        if ends(token.kind) {
            return Ok(tokens);
        }
        place = end;
    }
}
