//! The command `asm`: the words of an assembler text.
ghost use Rattle.std.specs.Prelude.{◌≡◌, ℕ, List, ◌≤◌, length, IfOk, IfErr};
ghost use Rattle.ci_reading.specs.Bytes.{bytes_of_words};
ghost use Rattle.ci_calls.specs.Evaluations.{RefusesNothing};
ghost use Rattle.ci_calls.specs.Forms.{IsText};
ghost use Rattle.ci_calls.specs.Reads.{IsAnswerOf};
ghost use Rattle.ci_commands.specs.AsmCommand.{asm_inputs, IsAsmMade};
ghost use Rattle.ci_commands.specs.private.Causes.{IsTextFault};

use ci_asm::{AsmFault, assemble};
use ci_calls::{Refusal, Success, Written, read_file};
use ci_io::Shelf;
use ci_reading::bytes_of_words;
use std::alloc::Global;

/// The maximum length of an assembler text, in bytes.
const TEXT_LIMIT: u64 = 1_048_576;

/// Makes the file of the words that the text in a file assembles to. It puts nothing.
///
/// # Errors
///
/// `Read` where no file has the name of the text, or reading it failed. `TooLarge` where the file has more than
/// 1,048,576 bytes. `BadAsm` is the first fault of the text. Bytes that aren't UTF-8 are a fault of kind 1 at line 1,
/// column 1. `NoMemory`: memory ran out.
pub fn evaluate<'a, F: Shelf>(
    alloc: Global,
    text: &'a str,
    out: &'a str,
    shelf: &mut F,
) -> Result<Success<'a>, Refusal<'a>>
    ensures { IsAnswerOf F.read_may_fail F.write_may_fail (F.state shelf.old) (F.state shelf.new)
        (asm_inputs text.now) (IsAsmMade out.now) RefusesNothing result }
{
    let read = read_file(alloc, text, TEXT_LIMIT, shelf)?;
    let bytes = assembled(alloc, read.as_slice())?;
    Ok(Success {
        writes: vec![in alloc; Written { name: out, bytes }]?,
        text: Vec::new(alloc),
    })
}

/// The bytes of the words that a text assembles to, the lowest byte of each first.
///
/// # Errors
///
/// `Bad` is the first fault of the text. Bytes that aren't UTF-8 are a fault of kind 1 at line 1, column 1. `NoMemory`:
/// memory ran out.
fn assembled(alloc: Global, text: &[u8]) -> Result<Vec<u8>, AsmFault>
    requires { length text.now ≤ 1048576 }
    ensures bytes { IfOk result (λ bytes. (words : List ℕ) × IsText text.now words
        × (bytes.items ≡ bytes_of_words words)) }
    ensures fault { IfErr result (IsTextFault text.now) }
{
    let Ok(text) = str::from_utf8(text) else {
        return Err(AsmFault::Bad {
            kind: 1,
            line: 1,
            column: 1,
        });
    };
    let words = assemble(alloc, text)?;
    let bytes = bytes_of_words(alloc, words.as_slice())?;
    Ok(bytes)
}
