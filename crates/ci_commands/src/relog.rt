//! The command `relog`: a log book in a version.
ghost use Rattle.std.specs.Prelude.{◌≡◌, length, IfOk};
ghost use Rattle.std.specs.String.{string_bytes};
ghost use Rattle.ci_calls.specs.Evaluations.{RefusesNothing};
ghost use Rattle.ci_calls.specs.Reads.{IsAnswerOf};
ghost use Rattle.ci_commands.specs.RelogCommand.{relog_inputs, relog_line, version_number, IsRelogMade};

use ci_calls::{Refusal, Success, Written, read_book};
use ci_io::Shelf;
use ci_log::{Version, write_in};
use std::alloc::{AllocError, Global};

/// Makes the file of the log book that a file spells, in the version, and the line of the version and of the file's
/// length.
///
/// # Errors
///
/// `Read` where no file has the name of the log book, or reading it failed. `TooLarge` where the file has more than
/// 268,435,456 bytes. `BadLog` where it spells no log book, by its first fault. `NoMemory`: memory ran out.
pub fn evaluate<'a, F: Shelf>(
    alloc: Global,
    logs: &'a str,
    out: &'a str,
    version: Version,
    shelf: &mut F,
) -> Result<Success<'a>, Refusal<'a>>
    ensures { IsAnswerOf F.read_may_fail F.write_may_fail (F.state shelf.old) (F.state shelf.new)
        (relog_inputs logs.now) (IsRelogMade out.now version) RefusesNothing result }
{
    let book = read_book(alloc, logs, shelf)?;
    let written = write_in(alloc, version, &book);
    drop(book);
    let bytes = written?;
    let text = relog_line(alloc, version, bytes.as_slice())?;
    Ok(Success {
        writes: vec![in alloc; Written { name: out, bytes }]?,
        text: text.into_bytes(),
    })
}

/// The line of the version and of the length of what is written.
fn relog_line(alloc: Global, version: Version, written: &[u8]) -> Result<String, AllocError>
    ensures { IfOk result (λ text. string_bytes text ≡ relog_line version (length written.now)) }
{
    let number = version_number(version);
    let bytes = written.len();
    format!(in alloc; "relog version {number} bytes {bytes}\n")
}

/// The number of the version.
fn version_number(version: Version) -> u8
    ensures { result ≡ version_number version }
{
    match version {
        Version::One => 1,
        Version::Two => 2,
    }
}
