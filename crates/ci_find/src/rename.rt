//! The command `rename`: values that live inside one block take registers that the block doesn't use.
ghost use Rattle.std.specs.Prelude.{◌≡◌, ◌≤◌, ◌∷◌, [], ℕ, List, Ok, IfOk, map};
ghost use Rattle.std.specs.String.{string_bytes};
ghost use Rattle.ci_elf.specs.Rules.{IsReadAs};
ghost use Rattle.ci_block.specs.CustomWords.{HasNoCustomWord};
ghost use Rattle.ci_live.specs.Analyses.{IsAnalysis};
ghost use Rattle.ci_calls.specs.Reads.{IsAnswerOf};
ghost use Rattle.ci_calls.specs.Refused.{name_in};
ghost use Rattle.ci_find.specs.FindCommand.{written};
ghost use Rattle.ci_find.specs.RenameCommand.{rename_inputs, rename_line, IsRenameMade, IsRenameRefused, IsRenaming};
ghost use Rattle.ci_find.specs.private.Renamed.{rename_settings_by};

use crate::profiling::{Profiled, profiled_run};
use ci_calls::{Refusal, Success, Written, read_image, read_input};
use ci_elf::Image;
use ci_io::Shelf;
use ci_lat::Table;
use ci_rename::{NewFile, rename};
use std::alloc::{AllocError, Global};

/// What a renaming is made by.
#[derive(Clone, Copy)]
pub struct RenameSettings<'a, 'b> {
    /// The greatest number of steps of the run, itself at most 4,294,967,296.
    pub steps: u64,
    /// Addresses that are named as leaders.
    pub leaders: &'b [u32],
    /// The file with the input of the program, which reads nothing where there is none.
    pub input: Option<&'a str>,
}

// Values of many parts are let go by calls of `drop` before a `?`, where the proof would walk through all their parts.

/// Makes the renamed file of the executable in the file, and the line of its numbers. The steps of the settings are at
/// most 4,294,967,296.
///
/// # Errors
///
/// Those of [`crate::find::evaluate`], except those of a table, which isn't read.
pub fn evaluate<'a, F: Shelf>(
    alloc: Global,
    file: &'a str,
    new: &'a str,
    settings: &RenameSettings<'a, '_>,
    shelf: &mut F,
) -> Result<Success<'a>, Refusal<'a>>
    requires { settings.now.steps ≤ 4294967296 }
    ensures { IsAnswerOf F.read_may_fail F.write_may_fail (F.state shelf.old) (F.state shelf.new)
        (rename_inputs file.now (name_in settings.now.input))
        (IsRenameMade new.now (rename_settings_by settings.now))
        (IsRenameRefused (rename_settings_by settings.now)) result }
{
    let image = read_image(alloc, file, shelf)?;
    let input = read_input(alloc, settings.input, shelf)?;
    let (steps, leaders) = (settings.steps, settings.leaders);
    // The leaders of a run don't depend on what its steps cost.
    let table = Table::usual();
    let profiled = profiled_run(alloc, &image, &table, input, steps, leaders)?;
    let outcome = success_of(alloc, new, &image, &profiled);
    drop(profiled);
    drop(image);
    let success = outcome?;
    Ok(success)
}

/// The renamed file under its name, and the line of its numbers.
fn success_of<'a>(
    alloc: Global,
    new: &'a str,
    image: &Image,
    profiled: &Profiled,
) -> Result<Success<'a>, AllocError>
    requires image { IsReadAs image.now.bytes (Ok image.now) }
    requires plain { HasNoCustomWord image.now }
    requires analysis { (targets : List ℕ) × (named : List ℕ) × IsAnalysis image.now targets named
        profiled.now.analysis.blocks profiled.now.analysis.live }
    ensures { IfOk result (λ success. (bytes : List ℕ) × (map written success.writes.items ≡ (new.now, bytes) ∷ [])
        × IsRenaming image.now profiled.now.analysis.live bytes success.text.items) }
{
    let analysis = &profiled.analysis;
    let renamed = rename(alloc, image, &analysis.blocks, &analysis.live)?;
    let outcome = rename_text(alloc, renamed.values, renamed.changed);
    let bytes = new_bytes(renamed);
    let text = outcome?;
    let success = success_with(alloc, new, bytes, text)?;
    Ok(success)
}

/// The line of how many values were renamed, and in how many blocks.
fn rename_text(alloc: Global, values: u32, changed: u32) -> Result<String, AllocError>
    ensures { IfOk result (λ text. string_bytes text ≡ rename_line values changed) }
{
    format!(in alloc; "renamed {values} blocks {changed}\n")
}

/// The bytes of the renamed file.
fn new_bytes(renamed: NewFile) -> Vec<u8>
    ensures { result.items ≡ renamed.image.bytes }
{
    renamed.image.into_bytes()
}

/// The file under its name, and the line.
fn success_with<'a>(
    alloc: Global,
    new: &'a str,
    bytes: Vec<u8>,
    text: String,
) -> Result<Success<'a>, AllocError>
    ensures writes { IfOk result (λ success. map written success.writes.items ≡ (new.now, bytes.items) ∷ []) }
    ensures text { IfOk result (λ success. success.text.items ≡ string_bytes text) }
{
    Ok(Success {
        writes: vec![in alloc; Written { name: new, bytes }]?,
        text: text.into_bytes(),
    })
}
