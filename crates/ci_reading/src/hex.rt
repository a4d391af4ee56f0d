//! Words in hexadecimal digits.
ghost use Rattle.std.specs.Prelude.{◌≡◌, ℕ, ◌<◌, ◌++◌, take, OnOk, IfOk, OnErr};
ghost use Rattle.std.specs.String.{string_bytes};
ghost use Rattle.ci_reading.specs.Hex.{eight_hex_digits};

use std::alloc::{AllocError, Global};

/// Appends the word's eight hexadecimal digits, in lower case.
///
/// # Errors
///
/// Out of memory. Some of the first digits may then be appended, and nothing else.
pub fn push_hex(text: &mut String, word: u32) -> Result<(), AllocError>
    ensures written { OnOk result
        (string_bytes text.new ≡ string_bytes text.old ++ eight_hex_digits word) }
    ensures front { OnErr result
        ((count : ℕ) × (string_bytes text.new ≡ string_bytes text.old ++ take count (eight_hex_digits word))) }
{
    for place in (0..8u32).rev() {
        let digit = (word >> (4 * place)) % 16;
        text.push(char::from_digit(digit, 16).unwrap())?;
    }
    Ok(())
}

/// The word's eight hexadecimal digits, in lower case.
///
/// # Errors
///
/// Out of memory.
pub fn hex_text(alloc: Global, word: u32) -> Result<String, AllocError>
    ensures { IfOk result (λ text. string_bytes text ≡ eight_hex_digits word) }
{
    let mut text = String::new(alloc);
    push_hex(&mut text, word)?;
    Ok(text)
}

/// Appends a name and the eight hexadecimal digits of a word, in lower case.
///
/// # Errors
///
/// Out of memory. Some of it may then be appended.
pub fn push_word(text: &mut String, name: &str, word: u32) -> Result<(), AllocError>
    ensures { OnOk result (string_bytes text.new ≡ string_bytes text.old ++ name.now ++ eight_hex_digits word) }
{
    text.push_str(name)?;
    push_hex(text, word)
}
