//! The file of a program.
ghost use Rattle.std.specs.Prelude.{◌≡◌, length, IfOk};
ghost use Rattle.ci_gen.specs.Programs.{IsOnlyProgramOf, IsProgramOf};

use crate::text::text;
use ci_elf::frame;
use std::alloc::{AllocError, Global};

/// The file of the program of a seed: the smallest file with its text, no constants, and one value, which is 0.
/// It has 65,120 bytes.
pub fn program(alloc: Global, seed: u32) -> Result<Vec<u8>, AllocError>
    ensures bytes { IfOk result (λ bytes. IsProgramOf seed bytes.items) }
    ensures length { IfOk result (λ bytes. length bytes.items ≡ 65120) }
    ensures only { IfOk result (λ bytes. IsOnlyProgramOf seed bytes.items) }
{
    let text = text(alloc, seed)?;
    frame(alloc, text.as_slice(), &[], &[0])
}
