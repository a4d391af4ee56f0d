//! The program: hands the words and the system's files and output to `ci_find::run`.
#![tactic(auto)]

ghost use Rattle.std.specs.Prelude.{◌≡◌, map};
ghost use Rattle.std.specs.String.{string_bytes};
ghost use Rattle.std.specs.Process.{exit_status};
ghost use Rattle.ci_io.specs.MadeCalls.{AreMade, ArePut};
ghost use Rattle.ci_calls.specs.Finishing.{changed};
ghost use Rattle.ci_find.specs.EndsBy.{EndsBy};
ghost use Rattle.ci_find.specs.Endings.{Ends};
ghost use Rattle.ci_find.specs.FirstFiles.{FirstFilesAreWhole};
ghost use Rattle.ci_find.specs.Headline.{AreChosenBy};
ghost use Rattle.ci_find.specs.SinceCalls.{since};

use ci_find::run;
use ci_io::{FileShelf, Shelf, Sink, StdSink};
use std::alloc::Global;
use std::process::ExitCode;
use std::{env, io};

/// The status where the system doesn't give the words.
const NO_WORDS: u8 = 16;

/// The status where memory ran out before there were words, or a call.
const NO_MEMORY: u8 = 12;

/// How many bytes of stack a call may take: `pair` of a block of 256 operations takes 284 KiB, the most, as measured.
const STACK: usize = 327680;

fn main(rt: HostRuntime) -> ExitCode {
    match words(&rt) {
        // A byte of the stack is never 2, but the compiler doesn't know.
        Ok(words) if touch_stack(words.len()) < 2 => {
            let mut shelf = FileShelf::new(&rt);
            let mut out = StdSink::new(&rt);
            exit_code(rt.alloc(), &words, &mut shelf, &mut out)
        }
        Ok(_) => ExitCode::from(NO_MEMORY),
        Err(error) if error.kind() == io::ErrorKind::OutOfMemory => ExitCode::from(NO_MEMORY),
        Err(_) => ExitCode::from(NO_WORDS),
    }
}

/// Writes to all the stack that a call may take. Where the system doesn't give it, the process ends here, before a file
/// is read or written, and not in the midst of its writes.
#[inline(never)]
fn touch_stack(place: usize) -> u8 {
    let mut room = [0u8; STACK];
    room[place % STACK] = 1;
    room[place / 2 % STACK]
}

/// The words after the program's name. A word that isn't UTF-8 is an error.
fn words(rt: &HostRuntime) -> io::Result<Vec<String>> {
    let words = env::args(rt)?.skip(1).collect(rt.alloc())?;
    Ok(words)
}

/// Runs the command that the words name, and answers the exit code of its status.
fn exit_code<F: Shelf, O: Sink>(
    alloc: Global,
    words: &Vec<String>,
    shelf: &mut F,
    out: &mut O,
) -> ExitCode
    // Over every shelf and every sink: just these calls were made on them.
    ensures called { AreMade F.read_may_fail F.write_may_fail (F.state shelf.old) (F.state shelf.new)
        (since (F.state shelf.old).calls (F.state shelf.new).calls) }
    ensures put { ArePut (O.state out.old) (O.state out.new)
        (since (O.state out.old).calls (O.state out.new).calls) }
    // By these calls it ends as it has to.
    ensures ends_by { EndsBy (map string_bytes words.now.items)
        (since (F.state shelf.old).calls (F.state shelf.new).calls)
        (since (O.state out.old).calls (O.state out.new).calls)
        (exit_status result) }
    // Where `find` succeeds, the headline holds of the bytes in them.
    ensures headline { exit_status result ≡ 0 → AreChosenBy (map string_bytes words.now.items)
        (since (F.state shelf.old).calls (F.state shelf.new).calls)
        (since (O.state out.old).calls (O.state out.new).calls) }
    // Where `find` stops at a write or at its put, the files that it wrote before are whole.
    ensures first_files { FirstFilesAreWhole (map string_bytes words.now.items)
        (since (F.state shelf.old).calls (F.state shelf.new).calls)
        (since (O.state out.old).calls (O.state out.new).calls)
        (exit_status result) }
    // Over the files that the shelf tells, and what the sink tells that it took, it ends as it has to.
    ensures ends { Ends (map string_bytes words.now.items)
        (changed F.read_may_fail F.write_may_fail
        (F.state shelf.old) (F.state shelf.new) (O.state out.old) (O.state out.new))
        (exit_status result) }
{
    ExitCode::from(run(alloc, words, shelf, out))
}
