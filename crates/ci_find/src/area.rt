//! The command `area`: the best of the units of a choice of cuts where there is room for so many gates.
ghost use Rattle.std.specs.Prelude.{◌≡◌, ◌≤◌, ◌<◌, ◌^◌, ℕ, List, Ok, IfOk, OnOk, length};
ghost use Rattle.std.specs.List.{sum_by};
ghost use Rattle.std.specs.String.{string_bytes};
ghost use Rattle.std.specs.FinSet as set;
ghost use Rattle.ci_area.specs.declared.flattening.AreaNode.{AreaNode as Branch};
ghost use Rattle.ci_area.specs.AreaAnswered.{HasLog};
ghost use Rattle.ci_area.specs.Pieces.{ArePieces, IsBestSet};
ghost use Rattle.ci_region.specs.BoundedMap.{BoundedMap};
ghost use Rattle.ci_elf.specs.Rules.{IsReadAs};
ghost use Rattle.ci_calls.specs.Reads.{IsAnswerOf};
ghost use Rattle.ci_calls.specs.Refused.{name_in};
ghost use Rattle.ci_select.specs.Takes.{cycles_of};
ghost use Rattle.ci_vemit.specs.Templates.{modules_of};
ghost use Rattle.ci_find.specs.Profiled.{IsProfiled};
ghost use Rattle.ci_find.specs.FindCommand.{find_inputs, IsFindRefused};
ghost use Rattle.ci_find.specs.AreaCommand.{area_line, IsAreaChoice, IsAreaLine, IsAreaMade};
ghost use Rattle.ci_find.specs.private.Chosen.{instance_from, settings_by};
ghost use Rattle.ci_find.specs.private.Pieces.{ArePiecesFor};

use crate::profiling::{ChoiceSettings, Profiled, RunFiles, profiled_run, read_run_files};
use ci_area::{
    AreaChild, AreaFound, AreaNode, Piece, check_choice, choose_within, flatten_area, together,
};
use ci_calls::{Refusal, Success, read_image};
use ci_commands::best::skipped_text;
use ci_elf::Image;
use ci_gates::count;
use ci_io::Shelf;
use ci_lat::Table;
use ci_machine::laws::bytes_are_small;
use ci_region::Region;
use ci_select::{Chosen, Plan, Taken, choose, saved_by};
use ci_vemit::modules;
use ci_verilog::Module;
use ci_word::{Row, push_members};
use std::alloc::{AllocError, Global};

// Values of many parts are let go by calls of `drop` before a `?`, where the proof would walk through all their parts.

/// Makes the line of the best of the units that a choice for the executable in the file has, where there is room for so
/// many gates. The steps of the settings are at most 4,294,967,296.
///
/// # Errors
///
/// Those of [`crate::find::evaluate`].
pub fn evaluate<'a, F: Shelf>(
    alloc: Global,
    file: &'a str,
    limit: u32,
    settings: &ChoiceSettings<'a, '_>,
    shelf: &mut F,
) -> Result<Success<'a>, Refusal<'a>>
    requires { settings.now.steps ≤ 4294967296 }
    ensures { IsAnswerOf F.read_may_fail F.write_may_fail (F.state shelf.old) (F.state shelf.new)
        (find_inputs file.now (name_in settings.now.table) (name_in settings.now.input))
        (IsAreaMade (settings_by settings.now) limit) (IsFindRefused (settings_by settings.now)) result }
{
    let image = read_image(alloc, file, shelf)?;
    let RunFiles { table, input } = read_run_files(alloc, settings.table, settings.input, shelf)?;
    let (steps, leaders) = (settings.steps, settings.leaders);
    let profiled = profiled_run(alloc, &image, &table, input, steps, leaders)?;
    let outcome = success_of(alloc, &image, &table, &profiled, limit, &settings.plan);
    drop(profiled);
    drop(image);
    let success = outcome?;
    Ok(success)
}

/// The line of the best of the units of the choice.
fn success_of<'a>(
    alloc: Global,
    image: &Image,
    table: &Table,
    profiled: &Profiled,
    limit: u32,
    plan: &Plan,
) -> Result<Success<'a>, AllocError>
    requires image { IsReadAs image.now.bytes (Ok image.now) }
    requires profiled { (input : List ℕ) × (steps : ℕ) × (named : List ℕ) × (steps ≤ 4294967296)
        × IsProfiled image.now table.now input steps named profiled.now.profile profiled.now.analysis.blocks
        profiled.now.analysis.live }
    ensures { IfOk result (IsAreaChoice (instance_from table.now profiled.now plan.now) limit) }
{
    let (profile, analysis) = (&profiled.profile, &profiled.analysis);
    let (blocks, live) = (&analysis.blocks, &analysis.live);
    bytes_are_small(image.bytes());
    // What a table keeps is known where it is read.
    let _latency = table.read();
    let chosen = choose(alloc, image, profile, blocks, live, table, plan)?;
    let _units = chosen.units.as_slice();
    let outcome = pieces_of(alloc, &chosen);
    drop(chosen);
    let pieces = outcome?;
    let line = best_line(alloc, pieces.as_slice(), limit, plan.budget)?;
    Ok(Success {
        writes: Vec::new(alloc),
        text: line.into_bytes(),
    })
}

/// The pieces of a choice, one for each of its units. All its takes together have to save less than 2 to the power 64
/// cycles.
fn pieces_of(alloc: Global, chosen: &Chosen) -> Result<Vec<Piece>, AllocError>
    requires { sum_by cycles_of chosen.now.takes.items < 2 ^ 64 }
    ensures { IfOk result (λ pieces. ArePiecesFor (modules_of chosen.now.units) chosen.now.takes.items
        (length chosen.now.units) pieces.items) }
{
    let _units = chosen.units.as_slice();
    let modules = modules(alloc, &chosen.units)?;
    let pieces = pieces_for(alloc, modules.as_slice(), chosen.takes.as_slice());
    drop(modules);
    pieces
}

/// One piece for each of the modules, by what the takes of its number save.
fn pieces_for(alloc: Global, modules: &[Module], takes: &[Taken]) -> Result<Vec<Piece>, AllocError>
    requires few { length modules.now ≤ 32 }
    requires savings { sum_by cycles_of takes.now < 2 ^ 64 }
    ensures { IfOk result (λ pieces. ArePiecesFor modules.now takes.now (length modules.now) pieces.items) }
{
    let mut pieces = Vec::new(alloc);
    for (number, module) in modules.iter().enumerate() {
        pieces.push(Piece {
            area: count(module),
            gain: saved_by(takes, number as u8),
        })?;
    }
    Ok(pieces)
}

/// The line of the best set of the pieces, or that the log of a search for it has more branches than the budget.
fn best_line(alloc: Global, pieces: &[Piece], limit: u32, budget: u32) -> Result<String, AllocError>
    requires pieces { ArePieces pieces.now }
    requires few { budget ≤ 4194304 }
    ensures { IfOk result (λ line. IsAreaLine pieces.now limit budget (string_bytes line)) }
{
    let mut region = Region::with_capacity(alloc, budget)?;
    match choose_within(pieces, limit, &mut region) {
        AreaFound::Best { set, root } => {
            check_log(alloc, pieces, limit, &set, &region, root)?;
            area_text(alloc, pieces, &set)
        }
        AreaFound::Spent { budget } => skipped_text(alloc, budget),
    }
}

/// Checks that the log of the tree shows that the set is the best one.
fn check_log(
    alloc: Global,
    pieces: &[Piece],
    limit: u32,
    chosen: &Row,
    region: &Region<AreaNode>,
    root: AreaChild,
) -> Result<(), AllocError>
    requires pieces { ArePieces pieces.now }
    requires few { region.now.capacity < 2 ^ 30 }
    requires log { (before : BoundedMap Branch)
        × HasLog pieces.now limit (set.contains chosen.now) before region.now root }
    ensures { OnOk result (IsBestSet pieces.now limit (set.contains chosen.now)) }
{
    prove!(region.used() <= region.capacity());
    let log = flatten_area(alloc, region, root)?;
    match check_choice(pieces, limit, chosen, &log) {
        Ok(()) => Ok(()),
        Err(_) => unreachable!(),
    }
}

/// `area`, what the pieces of the set need, `gain`, what they gain, `units`, and their numbers in rising order.
fn area_text(alloc: Global, pieces: &[Piece], chosen: &Row) -> Result<String, AllocError>
    requires { ArePieces pieces.now }
    ensures { IfOk result (λ text. string_bytes text ≡ area_line pieces.now (set.contains chosen.now)) }
{
    let Piece { area, gain } = together(pieces, chosen);
    let mut text = format!(in alloc; "area {area} gain {gain} units")?;
    push_members(&mut text, chosen)?;
    text.push('\n')?;
    Ok(text)
}
