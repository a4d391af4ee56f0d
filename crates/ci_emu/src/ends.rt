//! How a run ended, as text.
ghost use Rattle.std.specs.Prelude.{◌≡◌, ◌++◌, IfOk, codes};
ghost use Rattle.std.specs.String.{string_bytes};
ghost use Rattle.std.specs.Fmt.{decimal};
ghost use Rattle.ci_reading.specs.Hex.{eight_hex_digits};
ghost use Rattle.ci_isa.specs.Effects.{width_bytes};
ghost use Rattle.ci_emu.specs.Ends.{end_text};

use ci_isa::Width;
use ci_machine::End;
use ci_reading::hex_text;
use std::alloc::{AllocError, Global};

/// How a run ended, as text, or `limit` where it made as many steps as it may.
///
/// # Errors
///
/// Out of memory.
pub fn end_text(alloc: Global, end: Option<End>) -> Result<String, AllocError>
    ensures { IfOk result (λ text. string_bytes text ≡ end_text end) }
{
    match end {
        Some(End::Exit(code)) => word_text(alloc, "exit ", code),
        Some(End::Break) => String::from_str(alloc, "break"),
        Some(End::Access(address, width)) => access_text(alloc, address, width),
        Some(End::Misaligned(target)) => word_text(alloc, "misaligned ", target),
        Some(End::Fetch(pc)) => word_text(alloc, "fetch ", pc),
        Some(End::Illegal(word)) => word_text(alloc, "illegal ", word),
        None => String::from_str(alloc, "limit"),
    }
}

/// A name and the eight digits of a word.
fn word_text(alloc: Global, name: &str, word: u32) -> Result<String, AllocError>
    ensures { IfOk result (λ text. string_bytes text ≡ name.now ++ eight_hex_digits word) }
{
    let digits = hex_text(alloc, word)?;
    format!(in alloc; "{name}{digits}")
}

/// The address of an access, and how many bytes it moves.
fn access_text(alloc: Global, address: u32, width: Width) -> Result<String, AllocError>
    ensures { IfOk result (λ text. string_bytes text
        ≡ codes "access " ++ eight_hex_digits address ++ codes " " ++ decimal (width_bytes width)) }
{
    let mut text = word_text(alloc, "access ", address)?;
    let bytes = width.bytes();
    write!(text, " {bytes}")?;
    Ok(text)
}
