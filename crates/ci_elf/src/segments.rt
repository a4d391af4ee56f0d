//! Segments, and the rules on each program header.
ghost use Rattle.std.specs.Prelude.{◌≡◌, ◌+◌, ◌<◌, ◌↔◌, [], ◌∷◌, IsTrue, IfOk, Some};
ghost use Rattle.ci_elf.specs.Fields.{e_phnum};
ghost use Rattle.ci_elf.specs.Executables.{segments_of};
ghost use Rattle.ci_elf.specs.private.Parts.{part};
ghost use Rattle.ci_elf.specs.private.Checks.{IsTestOf, HasTables, SegmentFits, loadable_at};
ghost use Rattle.ci_elf.specs.Rules.{NamesNoInterpreter, HasFilePart, IsPlaced, segment_rules};

use crate::ElfFault;
use crate::fields::{program_count, program_header_at, program_type, word_at};
use crate::file_header::lies_in;
use crate::memory_map::{MEMORY_TOP, STACK_END, STACK_START};
use crate::parts::Part;
use std::alloc::{AllocError, Global};

/// A loadable segment that has memory: a part of the file that is loaded at an address, and zeros
/// behind it.
#[derive(Clone, Copy, PartialEq, Eq)]
pub struct Segment {
    /// Where its memory begins (`p_vaddr`).
    pub address: u32,
    /// How many bytes of memory it has (`p_memsz`).
    pub memory_size: u32,
    /// Where its part of the file begins (`p_offset`).
    pub offset: u32,
    /// How many bytes of the file it loads (`p_filesz`).
    pub file_size: u32,
}

/// The memory of the stack.
const STACK: Part = Part {
    start: STACK_START as u64,
    end: STACK_END as u64,
};

impl Segment {
    ghost use Rattle.std.specs.Prelude.{◌≡◌, ◌<◌, ◌↔◌, IsTrue};
    ghost use Rattle.ci_elf.specs.private.Parts.{part};
    ghost use Rattle.ci_elf.specs.private.Checks.{SegmentFits};

    /// The addresses of its memory.
    pub(crate) fn memory(self) -> Part
        ensures { result ≡ part self.address self.memory_size }
    {
        Part::new(self.address, self.memory_size)
    }

    /// Its part of the file.
    pub(crate) fn file_part(self) -> Part
        ensures { result ≡ part self.offset self.file_size }
    {
        Part::new(self.offset, self.file_size)
    }

    /// Whether its file bytes fit its memory, and its memory lies below the top and apart from the
    /// stack.
    fn fits_memory(self) -> bool
        requires { 0 < self.memory_size }
        ensures { IsTrue result ↔ SegmentFits self }
    {
        let memory = self.memory();
        self.file_size <= self.memory_size
            && memory.end <= u64::from(MEMORY_TOP)
            && !memory.overlaps(STACK)
    }
}

#[tactic(auto, unfolding(crate::proofs::HeaderFields::segment_fields))]
/// Loadable segment `n`, where program header `n` is one and has memory.
pub(crate) fn segment_at(bytes: &[u8], n: u32) -> Option<Segment>
    requires tables { HasTables bytes.now }
    requires exists { n < e_phnum bytes.now }
    ensures { result ≡ loadable_at bytes.now n }
{
    let header = program_header_at(bytes, n);
    let memory_size = word_at(bytes, header + 20);
    if program_type(bytes, n) == 1 && memory_size > 0 {
        Some(Segment {
            address: word_at(bytes, header + 8),
            memory_size,
            offset: word_at(bytes, header + 4),
            file_size: word_at(bytes, header + 16),
        })
    } else {
        None
    }
}

/// That program header `n` names no interpreter.
fn check_no_interpreter(bytes: &[u8], n: u32) -> Result<(), ElfFault>
    requires tables { HasTables bytes.now }
    requires exists { n < e_phnum bytes.now }
    ensures { IsTestOf bytes.now (NamesNoInterpreter n ∷ []) result }
{
    let kind = program_type(bytes, n);
    if kind == 3 {
        Err(ElfFault::WrongKind(program_header_at(bytes, n) as u32, kind))
    } else {
        Ok(())
    }
}

/// That segment `n`, where it is loadable, has its file part, and fits its memory.
fn check_placement(bytes: &[u8], n: u32) -> Result<(), ElfFault>
    requires tables { HasTables bytes.now }
    requires exists { n < e_phnum bytes.now }
    ensures { IsTestOf bytes.now (HasFilePart n ∷ IsPlaced n ∷ []) result }
{
    let Some(segment) = segment_at(bytes, n) else {
        return Ok(());
    };
    if !lies_in(bytes, segment.offset, segment.file_size) {
        return Err(ElfFault::Short(segment.offset));
    }
    if !segment.fits_memory() {
        return Err(ElfFault::BadSegment(n));
    }
    Ok(())
}

/// The rules on program header `n`.
fn check_segment(bytes: &[u8], n: u32) -> Result<(), ElfFault>
    requires tables { HasTables bytes.now }
    requires exists { n < e_phnum bytes.now }
    ensures { IsTestOf bytes.now (NamesNoInterpreter n ∷ HasFilePart n ∷ IsPlaced n ∷ []) result }
{
    check_no_interpreter(bytes, n)?;
    check_placement(bytes, n)
}

/// The rules on each program header.
pub(crate) fn check_segments(bytes: &[u8]) -> Result<(), ElfFault>
    requires { HasTables bytes.now }
    ensures { IsTestOf bytes.now (segment_rules bytes.now) result }
{
    for n in 0..program_count(bytes) {
        check_segment(bytes, n)?;
    }
    Ok(())
}

/// The loadable segments that have memory, in the order of the program headers.
pub(crate) fn segments_of(alloc: Global, bytes: &[u8]) -> Result<Vec<Segment>, AllocError>
    requires { HasTables bytes.now }
    ensures { IfOk result (λ v. v.items ≡ segments_of bytes.now) }
{
    let mut segments = Vec::new(alloc);
    for n in 0..program_count(bytes) {
        if let Some(segment) = segment_at(bytes, n) {
            segments.push(segment)?;
        }
    }
    Ok(segments)
}
