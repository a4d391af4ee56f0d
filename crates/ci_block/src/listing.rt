//! The listed leaders.
ghost use Rattle.std.specs.Prelude.{◌+◌, ◌*◌, ◌<◌, ◌↔◌, length, IfOk, IfSome, IsTrue, OnOk};
ghost use Rattle.ci_elf.specs.Executables.{end_of};
ghost use Rattle.ci_elf.specs.MemoryMap.{memory_top};
ghost use Rattle.ci_block.specs.Leaders.{IsListing};
ghost use Rattle.ci_block.specs.private.Listing.{IsFullBefore, IsLeaderTest, IsListedBelow};
ghost use Rattle.ci_block.specs.private.Marking.{range_at};
ghost use Rattle.ci_block.specs.private.Marks.{AreMarksOf, IsMarked};

use crate::Leaders;
use crate::data::mark_from_data;
use crate::marks::Marks;
use crate::text::{mark_from_text, mark_where_ranges_meet};
use ci_elf::Image;
use std::alloc::{AllocError, Global};

/// The most instructions of a block.
const LONGEST: u32 = 256;

/// Whether a block that begins at word `last` of a range, if there is one, is full before word `word`.
fn is_full(last: Option<u32>, word: u32) -> bool
    requires { IfSome last (λ last. last < word) }
    ensures { IsTrue result ↔ IsFullBefore last word }
{
    match last {
        Some(last) => word - last == LONGEST,
        None => false,
    }
}

/// Whether word `word` of range `index` is a leader, where the last leader before it in the range is word
/// `last`, if there is one.
fn is_leader(marks: &Marks, index: usize, last: Option<u32>, word: u32) -> bool
    requires within { word < (range_at marks.now.places index).words }
    requires last { IfSome last (λ last. last < word) }
    ensures { IsLeaderTest (IsMarked marks.now ((range_at marks.now.places index).start + 4 * word))
        (IsFullBefore last word) result }
{
    marks.is_marked(index, word) || is_full(last, word)
}

/// Lists the leaders of a range behind those of the ranges before it.
fn list_range(marks: &Marks, index: usize, addresses: &mut Vec<u32>) -> Result<(), AllocError>
    requires within { index < length marks.now.places }
    requires before { IsListedBelow marks.now.places (IsMarked marks.now)
        (range_at marks.now.places index).start addresses.old.items }
    ensures { OnOk result (IsListedBelow marks.now.places (IsMarked marks.now)
        (end_of (range_at marks.now.places index)) addresses.new.items) }
{
    let range = marks.range(index);
    let mut last = None;
    for word in 0..range.words {
        if is_leader(marks, index, last, word) {
            addresses.push(range.start + 4 * word)?;
            last = Some(word);
        }
    }
    Ok(())
}

/// The marked words and those behind full blocks.
fn listed(alloc: Global, marks: &Marks) -> Result<Vec<u32>, AllocError>
    ensures { IfOk result (λ addresses. IsListedBelow marks.now.places (IsMarked marks.now) memory_top
        addresses.items) }
{
    let mut addresses = Vec::new(alloc);
    for index in 0..marks.places.ranges().len() {
        list_range(marks, index, &mut addresses)?;
    }
    Ok(addresses)
}

/// The marks of a file.
fn marks_of(
    alloc: Global,
    image: &Image,
    targets: &[u32],
    given: &[u32],
) -> Result<Marks, AllocError>
    ensures { IfOk result (AreMarksOf image.now targets.now given.now) }
{
    let ranges = image.ranges();
    let mut marks = Marks::new(alloc, ranges)?;
    marks.mark(image.entry());
    mark_from_text(&mut marks, image);
    mark_where_ranges_meet(&mut marks, ranges);
    marks.mark_all(image.symbols());
    mark_from_data(&mut marks, image);
    marks.mark_all(targets);
    marks.mark_all(given);
    Ok(marks)
}

/// The listed leaders of a file, in ascending order: the words of the text that are the entry, the target of a jump or
/// branch, behind a terminator, at the start of a range that meets another, the value of a symbol or of a data word, in
/// `targets` or in `given`, or behind the 256th instruction of a block. `targets` are the addresses to which JALR
/// jumped, as far as they are known, and `given` those that the user names.
///
/// An Err is out of memory.
pub fn leaders(
    alloc: Global,
    image: &Image,
    targets: &[u32],
    given: &[u32],
) -> Result<Leaders, AllocError>
    ensures { IfOk result (λ leaders. IsListing image.now targets.now given.now leaders) }
{
    let marks = marks_of(alloc, image, targets, given)?;
    Ok(Leaders {
        addresses: listed(alloc, &marks)?,
    })
}
