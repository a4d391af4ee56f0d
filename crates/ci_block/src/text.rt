//! What the text marks: the targets of its jumps, the words behind its terminators, and those where ranges meet.
ghost use Rattle.std.specs.Prelude.{◌≡◌, ◌+◌, ◌<◌, ◌^◌, true, length};
ghost use Rattle.std.specs.List.{Contains};
ghost use Rattle.ci_word.specs.declared.arithmetic.Op.TheVariants.{Add};
ghost use Rattle.ci_word.specs.Arithmetic.{operation, word_of};
ghost use Rattle.ci_isa.specs.declared.instruction.Insn.{Insn as Instruction};
ghost use Rattle.ci_isa.specs.Effects.{ends_block};
ghost use Rattle.ci_elf.specs.Executables.{IsTextWord, end_of};
ghost use Rattle.ci_elf.specs.MemoryMap.{memory_top};
ghost use Rattle.ci_block.specs.private.Marking.{AreTextRanges};
ghost use Rattle.ci_block.specs.private.Marks.{Adds};
ghost use Rattle.ci_block.specs.private.Sources.{IsFromMeeting, IsFromText, IsFromWords, Leads, Meets};
ghost use Rattle.ci_block.specs.Text.{StandsAt, target_of as target_at};

use crate::marks::Marks;
use ci_elf::{Image, Range};
use ci_isa::{Insn, insn_at, is_terminator};

/// The address that is this offset from another.
pub(crate) fn address_behind(address: u32, offset: i32) -> u32
    ensures { result ≡ operation Add address (word_of offset) }
{
    address.wrapping_add(offset.cast_unsigned())
}

/// Where a JAL, or a branch that is taken, leads from an address.
fn target_of(address: u32, insn: &Insn) -> Option<u32>
    ensures { result ≡ target_at address insn.now }
{
    match *insn {
        Insn::Jal { offset, .. } | Insn::Branch { offset, .. } => {
            Some(address_behind(address, offset))
        }
        _ => None,
    }
}

/// The instruction at a word of the text.
pub(crate) fn insn_in(image: &Image, address: u32) -> Insn
    requires { IsTextWord image.now.ranges address }
    ensures stands { StandsAt image.now address result }
    ensures only { (insn : Instruction) → StandsAt image.now address insn → insn ≡ result }
{
    insn_at(image.word(address))
}

/// Marks the word behind the instruction at an address if that is a terminator.
fn mark_behind(marks: &mut Marks, address: u32, insn: &Insn)
    requires { address < memory_top }
    ensures { Adds marks.old marks.new (λ a. (ends_block insn.now ≡ true) × (address + 4 ≡ a)) }
{
    if is_terminator(insn) {
        marks.mark(address + 4);
    }
}

/// Marks the target of the instruction at an address, and the word behind it if it is a terminator.
fn mark_from(marks: &mut Marks, address: u32, insn: &Insn)
    requires { address < memory_top }
    ensures { Adds marks.old marks.new (Leads address insn.now) }
{
    marks.mark_if_some(target_of(address, insn));
    mark_behind(marks, address, insn);
}

/// Marks what the instructions of a range make leaders.
fn mark_from_range(marks: &mut Marks, image: &Image, range: Range)
    requires there { Contains image.now.ranges range }
    requires text { AreTextRanges image.now.ranges }
    ensures { Adds marks.old marks.new (IsFromWords image.now range.start range.words) }
{
    for word in 0..range.words {
        let address = range.start + 4 * word;
        mark_from(marks, address, &insn_in(image, address));
    }
}

/// Marks what the instructions of the text make leaders.
pub(crate) fn mark_from_text(marks: &mut Marks, image: &Image)
    requires { AreTextRanges image.now.ranges }
    ensures { Adds marks.old marks.new (IsFromText image.now) }
{
    for range in image.ranges() {
        mark_from_range(marks, image, *range);
    }
}

/// Marks the first word of a range where that begins where another range ends.
fn mark_where_these_meet(marks: &mut Marks, before: Range, range: Range)
    requires { end_of before < 2 ^ 32 }
    ensures { Adds marks.old marks.new (Meets before range) }
{
    if before.start + 4 * before.words == range.start {
        marks.mark(range.start);
    }
}

/// Marks the first word of each range that begins where another one ends.
pub(crate) fn mark_where_ranges_meet(marks: &mut Marks, ranges: &[Range])
    requires { AreTextRanges ranges.now }
    ensures { Adds marks.old marks.new (IsFromMeeting ranges.now (length ranges.now)) }
{
    for index in 1..ranges.len() {
        mark_where_these_meet(marks, ranges[index - 1], ranges[index]);
    }
}
