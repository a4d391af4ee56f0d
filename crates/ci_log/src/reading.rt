//! From a text to its log book.
ghost use Rattle.std.specs.Prelude.{◌≡◌, ℕ, ◌<◌, ◌≤◌, length, IfOk, IfErr, Ok, Err};
ghost use Rattle.ci_log.specs.Books.{Book, Spells};
ghost use Rattle.ci_log.specs.Faults.{HasFault, IsFaultOf, Answers};
ghost use Rattle.ci_reading.specs.Fields.{Gives as GivesField};
ghost use Rattle.ci_log.specs.private.Reading.{Gives, IsLeft, failure_fault, header_fault};
ghost use Rattle.ci_log.specs.private.BookReading.{header, body};
ghost use Rattle.ci_log.specs.declared.faults.LogFault.{LogFault};

use crate::book::{LogBook, Version};
use crate::entries::{finish, rounds, searches};
use crate::faults::{Failure, LogFault};
use ci_reading::{Stop, begins_with, word};
use std::alloc::Global;

/// The first line, which names the version.
#[tactic(auto, unfolding(crate::specs::private::BookReading::header))]
fn header(bytes: &[u8]) -> Result<(Version, &[u8]), Stop>
    ensures { GivesField (λ x. (x.0, x.1.now)) result (header bytes.now) }
{
    let rest = word(bytes, b"ci-log ")?;
    if begins_with(rest, b'1') {
        let rest = word(rest, b"1\n")?;
        Ok((Version::One, rest))
    } else {
        let rest = word(rest, b"2\n")?;
        Ok((Version::Two, rest))
    }
}

/// What stands behind the first line.
#[tactic(auto, unfolding(crate::specs::private::BookReading::body))]
fn body(version: Version, alloc: Global, bytes: &[u8]) -> Result<(LogBook, &[u8]), Failure>
    requires { length bytes.now ≤ 268435456 }
    ensures { Gives (λ x. (x.0, x.1.now)) result (body version bytes.now) }
{
    let (entries, rest) = searches(version, alloc, bytes)?;
    let (entries, rest) = rounds(entries, version, alloc, rest)?;
    let (finish, rest) = finish(rest)?;
    Ok((LogBook::new(entries, finish), rest))
}

/// The fault of a text of this length in which reading behind the first line stopped.
fn fault_at(length: usize, failure: Failure) -> LogFault
    requires left { IsLeft failure length }
    requires length { length ≤ 268435456 }
    ensures { result ≡ failure_fault length failure }
{
    match failure {
        Failure::NoMemory => LogFault::NoMemory,
        Failure::Stopped(stop) if stop.left == 0 => LogFault::Unfinished,
        Failure::Stopped(stop) if stop.behind_tree => {
            LogFault::Trailing((length - stop.left) as u32)
        }
        Failure::Stopped(stop) => LogFault::BadItem((length - stop.left) as u32),
    }
}

/// The fault of a text in whose first line reading stopped, with so many bytes left.
fn header_fault(left: usize) -> LogFault
    ensures { result ≡ header_fault left }
{
    if left == 0 {
        LogFault::Unfinished
    } else {
        LogFault::BadHeader
    }
}

/// The log book that the bytes spell, or their first fault.
fn book_or_fault(alloc: Global, bytes: &[u8]) -> Result<LogBook, LogFault>
    requires { length bytes.now ≤ 268435456 }
    ensures book { IfOk result (λ book. Spells bytes.now book) }
    ensures fault { IfErr result (IsFaultOf bytes.now) }
{
    let (version, rest) = match header(bytes) {
        Ok(read) => read,
        Err(stop) => return Err(header_fault(stop.left)),
    };
    let (book, rest) = match body(version, alloc, rest) {
        Ok(read) => read,
        Err(failure) => return Err(fault_at(bytes.len(), failure)),
    };
    if rest.is_empty() {
        Ok(book)
    } else {
        Err(LogFault::Trailing((bytes.len() - rest.len()) as u32))
    }
}

/// The log book that the bytes spell, all of them, in the version that their first line names. They
/// have to be at most 268,435,456 bytes.
///
/// # Errors
///
/// The first fault of the text, where it spells no book. `NoMemory`: out of memory.
pub fn read(alloc: Global, bytes: &[u8]) -> Result<LogBook, LogFault>
    requires { length bytes.now ≤ 268435456 }
    ensures book { IfOk result (λ book. Spells bytes.now book) }
    ensures fault { IfErr result (IsFaultOf bytes.now) }
    ensures due_book { (book : Book) → Spells bytes.now book → Answers (Ok book) result }
    ensures due_fault { (fault : LogFault) → HasFault bytes.now fault → Answers (Err fault) result }
{
    book_or_fault(alloc, bytes)
}
