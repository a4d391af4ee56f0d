//! What may be wrong with a file.
use std::alloc::{AllocError, AllocFailed};

/// The first rule of `specs/Rules.antt` that a file breaks, or out of memory.
#[derive(Debug, Drop, PartialEq, Eq, thiserror::Error)]
pub enum ElfFault {
    /// The file ends before the part that begins at this offset does.
    #[error("the file ends before the part at offset {0}")]
    Short(u32),
    /// The file doesn't begin with the magic number.
    #[error("not an ELF file")]
    NotElf,
    /// The field at this offset has this value, which isn't supported.
    #[error("the field at offset {0} is {1}")]
    WrongKind(u32, u32),
    /// The memory of the segment of this number is too small, ends too high or meets the stack.
    #[error("segment {0} is misplaced")]
    BadSegment(u32),
    /// The memory of these two segments overlaps.
    #[error("segments {0} and {1} overlap")]
    Overlap(u32, u32),
    /// A byte of the text lies in the file parts of these two segments.
    #[error("segments {0} and {1} share text")]
    SharedText(u32, u32),
    /// The section of this number is a malformed symbol table, or text that isn't loaded or meets
    /// something else.
    #[error("section {0} is misplaced")]
    BadSection(u32),
    /// The entry isn't a multiple of four in text.
    #[error("the entry isn't text")]
    EntryNotText,
    /// The memory, or the text, is too large.
    #[error("too large")]
    TooLarge,
    /// Out of memory.
    #[error("out of memory")]
    NoMemory,
}

impl From<AllocError> for ElfFault {
    ghost use Rattle.std.specs.Prelude.{◌≡◌};
    ghost use Rattle.ci_elf.specs.declared.faults.ElfFault.TheVariants.{NoMemory};

    ghost from_gives = { λ _ e. e ≡ NoMemory };

    fn from(_: AllocError) -> Self {
        ElfFault::NoMemory
    }
}

impl<T: Drop> From<AllocFailed<T>> for ElfFault {
    ghost use Rattle.std.specs.Prelude.{◌≡◌};
    ghost use Rattle.ci_elf.specs.declared.faults.ElfFault.TheVariants.{NoMemory};

    ghost from_gives = { λ _ e. e ≡ NoMemory };

    fn from(_: AllocFailed<T>) -> Self {
        ElfFault::NoMemory
    }
}
