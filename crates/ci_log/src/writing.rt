//! From a log book to its text.
ghost use Rattle.std.specs.Prelude.{◌≡◌, ◌++◌, IfOk, OnOk};
ghost use Rattle.std.specs.String.{string_bytes};
ghost use Rattle.std.specs.Fmt.{decimal};
ghost use Rattle.ci_reading.specs.Hex.{eight_hex_digits};
ghost use Rattle.ci_reading.specs.Lines.{line};
ghost use Rattle.ci_log.specs.Trees.{letter, letters};
ghost use Rattle.ci_log.specs.Books.{SpellsIn, log_text, entry_head, entry_text, finish_text, first_line};
ghost use Rattle.ci_log.specs.declared.book.Version.TheVariants.{One, Two};

use crate::book::{Entry, Finish, LogBook, Version};
use crate::log::{Item, Log};
use crate::packing::push_packed;
use ci_reading::push_hex;
use ci_word::push_members;
use std::alloc::{AllocError, Global};

/// An item's letter.
fn letter(item: Item) -> u8
    ensures { result ≡ letter item }
{
    match item {
        Item::B => b'B',
        Item::O => b'O',
        Item::C => b'C',
        Item::I => b'I',
        Item::G => b'G',
        Item::F => b'F',
    }
}

/// Appends the items' letters.
fn push_letters(text: &mut Vec<u8>, items: &[Item]) -> Result<(), AllocError>
    ensures { OnOk result (text.new.items ≡ text.old.items ++ letters items.now) }
{
    let mut rest = items;
    while let [first, second, third, fourth, after @ ..] = rest {
        let letters = [
            letter(*first),
            letter(*second),
            letter(*third),
            letter(*fourth),
        ];
        text.extend_from_slice(&letters)?;
        rest = after;
    }
    for item in rest {
        text.push(letter(*item))?;
    }
    Ok(())
}

/// Appends the items of a log, as the version spells them.
fn push_items(text: &mut Vec<u8>, version: Version, items: &[Item]) -> Result<(), AllocError>
    ensures { OnOk result (text.new.items ≡ text.old.items ++ log_text version items.now) }
{
    match version {
        Version::One => push_letters(text, items),
        Version::Two => push_packed(text, items),
    }
}

/// Appends the log's line.
fn push_log(text: &mut Vec<u8>, version: Version, log: &Log) -> Result<(), AllocError>
    ensures { OnOk result (text.new.items ≡ text.old.items ++ line (log_text version log.now)) }
{
    push_items(text, version, log.items())?;
    text.push(b'\n')?;
    Ok(())
}

/// Appends the number and the line's end.
fn push_number(text: &mut String, number: u32) -> Result<(), AllocError>
    ensures { OnOk result (string_bytes text.new ≡ string_bytes text.old ++ line (decimal number)) }
{
    writeln!(text, "{number}")
}

/// Appends the leader's digits between two words.
fn push_leader(text: &mut String, before: &str, leader: u32, behind: &str) -> Result<(), AllocError>
    ensures { OnOk result (string_bytes text.new
        ≡ string_bytes text.old ++ (before.now ++ eight_hex_digits leader ++ behind.now)) }
{
    text.push_str(before)?;
    push_hex(text, leader)?;
    text.push_str(behind)
}

/// Appends the entry's first line.
fn push_head(text: &mut String, entry: &Entry) -> Result<(), AllocError>
    ensures { OnOk result (string_bytes text.new ≡ string_bytes text.old ++ entry_head entry.now) }
{
    match entry {
        Entry::Best { leader, cut, .. } => {
            push_leader(text, "block ", *leader, " best")?;
            push_members(text, cut)?;
            text.push('\n')
        }
        Entry::Without { leader, .. } => push_leader(text, "block ", *leader, " none\n"),
        Entry::Spent { leader, budget } => {
            push_leader(text, "block ", *leader, " spent ")?;
            push_number(text, *budget)
        }
        Entry::Take { leader, unit } => {
            push_leader(text, "take ", *leader, " unit ")?;
            push_number(text, u32::from(*unit))
        }
    }
}

/// Appends the entry's lines.
fn push_entry(
    text: &mut Vec<u8>,
    version: Version,
    alloc: Global,
    entry: &Entry,
) -> Result<(), AllocError>
    ensures { OnOk result (text.new.items ≡ text.old.items ++ entry_text version entry.now) }
{
    let mut head = String::new(alloc);
    push_head(&mut head, entry)?;
    text.extend_from_slice(head.as_bytes())?;
    match entry {
        Entry::Best { log, .. } => push_log(text, version, log),
        Entry::Without { log, .. } => push_log(text, version, log),
        Entry::Spent { .. } => Ok(()),
        Entry::Take { .. } => Ok(()),
    }
}

/// The first line of the version.
fn first_line(version: Version) -> &'static [u8]
    ensures { result.now ≡ first_line version }
{
    match version {
        Version::One => b"ci-log 1\n",
        Version::Two => b"ci-log 2\n",
    }
}

/// The finish line.
fn finish_line(finish: Finish) -> &'static [u8]
    ensures { result.now ≡ finish_text finish }
{
    match finish {
        Finish::Empty => b"end none\n",
        Finish::Count => b"end count\n",
    }
}

/// The text of the book in the version.
///
/// # Errors
///
/// Out of memory.
pub fn write_in(alloc: Global, version: Version, book: &LogBook) -> Result<Vec<u8>, AllocError>
    ensures { IfOk result (λ bytes. SpellsIn version bytes.items book.now) }
{
    let mut text = Vec::from_slice(alloc, first_line(version))?;
    for entry in book.entries() {
        push_entry(&mut text, version, alloc, entry)?;
    }
    text.extend_from_slice(finish_line(book.finish()))?;
    Ok(text)
}

/// The text of the book, version 1.
///
/// # Errors
///
/// Out of memory.
pub fn write(alloc: Global, book: &LogBook) -> Result<Vec<u8>, AllocError>
    ensures { IfOk result (λ bytes. SpellsIn One bytes.items book.now) }
{
    write_in(alloc, Version::One, book)
}

/// The text of the book, version 2, in which the logs are packed.
///
/// # Errors
///
/// Out of memory.
pub fn write_packed(alloc: Global, book: &LogBook) -> Result<Vec<u8>, AllocError>
    ensures { IfOk result (λ bytes. SpellsIn Two bytes.items book.now) }
{
    write_in(alloc, Version::Two, book)
}
