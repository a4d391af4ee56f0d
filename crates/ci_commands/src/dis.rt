//! The command `dis`: the listing of the words of a file.
ghost use Rattle.std.specs.Prelude.{◌≡◌, ℕ, List, ◌++◌, IfOk, OnOk};
ghost use Rattle.std.specs.String.{string_bytes};
ghost use Rattle.ci_reading.specs.Bytes.{words_of_bytes};
ghost use Rattle.ci_calls.specs.Evaluations.{RefusesNothing};
ghost use Rattle.ci_calls.specs.Reads.{IsAnswerOf};
ghost use Rattle.ci_commands.specs.DisCommand.{dis_inputs, IsDisMade, IsTextOf, IsListing, listed};

use ci_asm::show;
use ci_calls::{Refusal, Success, read_file};
use ci_io::Shelf;
use ci_isa::{Insn, decode_x};
use ci_reading::{hex_text, word_at};
use std::alloc::{AllocError, Global};

/// The maximum length of a file of words, in bytes.
const WORDS_LIMIT: u64 = 1_048_576;

/// Makes the listing of the words of the file.
///
/// # Errors
///
/// `Read` where no file has the name, or reading it failed. `TooLarge` where the file has more than 1,048,576 bytes.
/// `NoMemory`: memory ran out.
pub fn evaluate<'a, F: Shelf>(
    alloc: Global,
    file: &'a str,
    shelf: &mut F,
) -> Result<Success<'a>, Refusal<'a>>
    ensures { IsAnswerOf F.read_may_fail F.write_may_fail (F.state shelf.old) (F.state shelf.new)
        (dis_inputs file.now) IsDisMade RefusesNothing result }
{
    let bytes = read_file(alloc, file, WORDS_LIMIT, shelf)?;
    let text = listing(alloc, bytes.as_slice())?;
    Ok(Success {
        writes: Vec::new(alloc),
        text: text.into_bytes(),
    })
}

/// A line for each whole word of the bytes: its digits and its text. Bytes after the last whole word are passed over.
fn listing(alloc: Global, bytes: &[u8]) -> Result<String, AllocError>
    ensures { IfOk result (λ text. IsListing (words_of_bytes bytes.now) (string_bytes text)) }
{
    let mut text = String::new(alloc);
    for place in 0..bytes.len() / 4 {
        push_line(alloc, &mut text, word_at(bytes, place))?;
    }
    Ok(text)
}

/// Puts the line of a word at the end of the text.
fn push_line(alloc: Global, text: &mut String, word: u32) -> Result<(), AllocError>
    ensures { OnOk result ((shown : List ℕ) × IsTextOf word shown
        × (string_bytes text.new ≡ string_bytes text.old ++ listed word shown)) }
{
    let digits = hex_text(alloc, word)?;
    let shown = word_text(alloc, word)?;
    writeln!(text, "{digits} {shown}")?;
    Ok(())
}

/// The text of a word.
fn word_text(alloc: Global, word: u32) -> Result<String, AllocError>
    ensures { IfOk result (λ text. IsTextOf word (string_bytes text)) }
{
    match decode_x(word) {
        Some(insn) => show(alloc, &insn),
        None => show(alloc, &Insn::Illegal { word }),
    }
}
