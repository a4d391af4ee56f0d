//! The command `load`: a choice of cuts for the program that a seed generates, and the runs of both programs.
ghost use Rattle.std.specs.Prelude.{◌≡◌, ◌≤◌, ◌++◌, [], ℕ, Ok, IfOk, OnOk};
ghost use Rattle.std.specs.String.{string_bytes};
ghost use Rattle.ci_elf.specs.Rules.{IsReadAs};
ghost use Rattle.ci_gen.specs.Programs.{IsProgramOf};
ghost use Rattle.ci_lat.specs.Latencies.{usual};
ghost use Rattle.ci_find.specs.LoadCommand.{byte_digits, load_line, steps_of_load, IsExtendedCost, IsLoadMade};
ghost use Rattle.ci_find.specs.LoadCommand.{IsPlainRun, IsPlanOfLoad};

use crate::find::summary;
use ci_calls::Success;
use ci_cut::Limits;
use ci_elf::{ElfFault, Image, read_vec};
use ci_emu::Profile;
use ci_gen::program;
use ci_lat::Table;
use ci_live::analysis_of;
use ci_machine::State;
use ci_machine::laws::bytes_are_small;
use ci_select::{Chosen, Plan, choose};
use ci_vemit::modules;
use ci_xemu::run_x;
use std::alloc::{AllocError, Global};

/// The greatest number of steps of a run.
const STEPS: u64 = 16_777_216;

/// A run of the plain machine.
#[derive(Drop)]
struct PlainRun {
    profile: Profile,
    output: Vec<u8>,
}

/// What the line of a load tells beside the choice.
#[derive(Clone, Copy)]
struct Figures {
    seed: u32,
    /// How many blocks there are.
    blocks: usize,
    /// What the run of the program costs.
    cost: u64,
    /// What the run of the program that uses the units costs.
    new_cost: u64,
}

// Values of many parts are lent, and let go by calls of `drop`: at a `?` the proof would walk through all their parts.

/// Makes the line of the seed: it chooses cuts for the program that the seed generates, by the options as they are
/// where none is given, and runs it and the program that uses the units of the cuts.
///
/// # Errors
///
/// Out of memory.
pub fn evaluate<'a>(alloc: Global, seed: u32) -> Result<Success<'a>, AllocError>
    ensures { IfOk result (IsLoadMade seed []) }
{
    let image = generated(alloc, seed)?;
    let success = load_of(alloc, seed, &image);
    drop(image);
    success
}

/// The line of the seed, whose program the image is.
fn load_of<'a>(alloc: Global, seed: u32, image: &Image) -> Result<Success<'a>, AllocError>
    requires program { IsProgramOf seed image.now.bytes }
    requires image { IsReadAs image.now.bytes (Ok image.now) }
    ensures { IfOk result (IsLoadMade seed []) }
{
    let table = Table::usual();
    let original = plain_run(alloc, image, &table, STEPS)?;
    let success = load_by(alloc, seed, image, &table, &original);
    drop(original);
    success
}

/// The same by a run of the program, where the table is the usual one.
fn load_by<'a>(
    alloc: Global,
    seed: u32,
    image: &Image,
    table: &Table,
    original: &PlainRun,
) -> Result<Success<'a>, AllocError>
    requires program { IsProgramOf seed image.now.bytes }
    requires image { IsReadAs image.now.bytes (Ok image.now) }
    requires usual { table.now ≡ usual }
    requires run { IsPlainRun image.now table.now steps_of_load original.now.profile original.now.output.items }
    ensures { IfOk result (IsLoadMade seed []) }
{
    bytes_are_small(image.bytes());
    let profile = &original.profile;
    let analysis = analysis_of(alloc, image, profile.targets(), &[])?;
    let (blocks, live) = (&analysis.blocks, &analysis.live);
    let chosen = choose(alloc, image, profile, blocks, live, table, &plan())?;
    bytes_are_small(chosen.image.bytes());
    // What a table of units keeps is known where its units are read.
    let _units = chosen.units.as_slice();
    let outcome = text_of(alloc, seed, blocks.all().len(), table, original, &chosen);
    drop(chosen);
    drop(analysis);
    let text = outcome?;
    Ok(Success {
        writes: Vec::new(alloc),
        text: text.into_bytes(),
    })
}

/// The line of the seed, by a choice for its program, which has so many blocks.
fn text_of(
    alloc: Global,
    seed: u32,
    blocks: usize,
    table: &Table,
    original: &PlainRun,
    chosen: &Chosen,
) -> Result<String, AllocError>
    ensures { IfOk result (λ text. (new_cost : ℕ)
        × IsExtendedCost chosen.now.image chosen.now.units table.now steps_of_load new_cost
        × (string_bytes text ≡ load_line seed blocks chosen.now.book.entries chosen.now.units chosen.now.saved
        original.now.profile.cost new_cost original.now.output.items)) }
{
    let figures = Figures {
        seed,
        blocks,
        cost: original.profile.cost,
        new_cost: cost_with_units(alloc, chosen, table, STEPS)?,
    };
    let text = load_line(alloc, &figures, chosen, original.output.as_slice())?;
    Ok(text)
}

/// The image of the program of the seed.
fn generated(alloc: Global, seed: u32) -> Result<Image, AllocError>
    ensures program { IfOk result (λ image. IsProgramOf seed image.bytes) }
    ensures image { IfOk result (λ image. IsReadAs image.bytes (Ok image)) }
{
    match read_vec(alloc, program(alloc, seed)?) {
        Ok(image) => Ok(image),
        Err(fault) => {
            // The file of a generated program keeps all rules.
            prove!(matches!(&fault, ElfFault::NoMemory));
            Err(AllocError)
        }
    }
}

/// The limits of the choice.
fn plan() -> Plan
    ensures { IsPlanOfLoad result }
{
    Plan {
        limits: Limits {
            inputs: 3,
            outputs: 2,
        },
        count: 32,
        budget: 65_536,
    }
}

/// So many steps of the program on the plain machine, without input.
fn plain_run(
    alloc: Global,
    image: &Image,
    table: &Table,
    steps: u64,
) -> Result<PlainRun, AllocError>
    requires { steps ≤ 4294967296 }
    ensures { IfOk result (λ run. IsPlainRun image.now table.now steps run.profile run.output.items) }
{
    let mut state = State::start(alloc, image, &[])?;
    let profile = ci_emu::run(alloc, &mut state, table, steps)?;
    let output = state.into_output();
    Ok(PlainRun { profile, output })
}

/// What so many steps of the program that uses the units cost, on the extended machine with their modules.
fn cost_with_units(
    alloc: Global,
    chosen: &Chosen,
    table: &Table,
    steps: u64,
) -> Result<u64, AllocError>
    requires { steps ≤ 4294967296 }
    ensures { IfOk result (IsExtendedCost chosen.now.image chosen.now.units table.now steps) }
{
    // What a table of units keeps is known where its units are read.
    let _units = chosen.units.as_slice();
    let modules = modules(alloc, &chosen.units)?;
    let mut state = State::start(alloc, &chosen.image, &[])?;
    let profile = run_x(alloc, &mut state, modules.as_slice(), table, steps)?;
    Ok(profile.cost)
}

/// The line of the choice, of both costs and of the output.
fn load_line(
    alloc: Global,
    figures: &Figures,
    chosen: &Chosen,
    output: &[u8],
) -> Result<String, AllocError>
    ensures { IfOk result (λ text. string_bytes text ≡ load_line figures.now.seed figures.now.blocks
        chosen.now.book.entries chosen.now.units chosen.now.saved figures.now.cost figures.now.new_cost output.now) }
{
    let Figures {
        seed,
        blocks,
        cost,
        new_cost,
    } = *figures;
    let mut text = format!(in alloc; "load {seed}")?;
    write!(text, " blocks {blocks} ")?;
    let summary = summary(alloc, chosen)?;
    text.push_str(summary.as_str())?;
    write!(text, " cost {cost}")?;
    write!(text, " {new_cost} output ")?;
    push_bytes(&mut text, output)?;
    text.push('\n')?;
    Ok(text)
}

/// Appends two hexadecimal digits for each byte, in lower case.
fn push_bytes(text: &mut String, bytes: &[u8]) -> Result<(), AllocError>
    ensures { OnOk result (string_bytes text.new ≡ string_bytes text.old ++ byte_digits bytes.now) }
{
    for byte in bytes {
        let byte = u32::from(*byte);
        text.push(char::from_digit(byte / 16, 16).unwrap())?;
        text.push(char::from_digit(byte % 16, 16).unwrap())?;
    }
    Ok(())
}
