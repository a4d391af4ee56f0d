//! That no byte of the text lies in the file parts of two segments.
ghost use Rattle.std.specs.Prelude.{◌<◌, IfOk};
ghost use Rattle.ci_elf.specs.Fields.{e_phnum};
ghost use Rattle.ci_elf.specs.Rules.{sharing_rules};
ghost use Rattle.ci_elf.specs.private.Checks.{HasTables, IsTestOf};
ghost use Rattle.ci_elf.specs.private.Parts.{ArePartsFromText, IsPartFromText, IsRising};

use crate::ElfFault;
use crate::coverage::{coverage, next_covered};
use crate::fields::program_count;
use crate::parts::{Part, first_overlap};
use crate::sections::text_parts;
use crate::segments::segment_at;
use std::alloc::{AllocError, Global};

/// The file part of segment `n` from its first byte of text on, or none where it isn't loadable.
fn part_from_text(bytes: &[u8], n: u32, texts: &[Part]) -> Part
    requires tables { HasTables bytes.now }
    requires exists { n < e_phnum bytes.now }
    requires rising { IsRising texts.now }
    ensures { IsPartFromText bytes.now texts.now n result }
{
    match segment_at(bytes, n) {
        Some(segment) => {
            let part = segment.file_part();
            Part {
                start: next_covered(texts, part.start),
                end: part.end,
            }
        }
        None => Part::new(0, 0),
    }
}

/// The file part of each segment from its first byte of text on: two of them overlap just where
/// the segments share a byte of text.
fn parts_from_text(alloc: Global, bytes: &[u8], texts: &[Part]) -> Result<Vec<Part>, AllocError>
    requires tables { HasTables bytes.now }
    requires rising { IsRising texts.now }
    ensures { IfOk result (λ v. ArePartsFromText bytes.now texts.now (e_phnum bytes.now) v.items) }
{
    let mut parts = Vec::new(alloc);
    for n in 0..program_count(bytes) {
        parts.push(part_from_text(bytes, n, texts))?;
    }
    Ok(parts)
}

/// That no two segments share a byte of text.
pub(crate) fn check_sharing(alloc: Global, bytes: &[u8]) -> Result<(), ElfFault>
    requires { HasTables bytes.now }
    ensures { IsTestOf bytes.now (sharing_rules bytes.now) result }
{
    let texts = text_parts(alloc, bytes)?;
    let texts = coverage(alloc, &texts)?;
    let parts = parts_from_text(alloc, bytes, &texts)?;
    match first_overlap(alloc, &parts)? {
        Some((m, n)) => Err(ElfFault::SharedText(m, n)),
        None => Ok(()),
    }
}
