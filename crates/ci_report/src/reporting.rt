//! The report of a choice of cuts.
ghost use Rattle.std.specs.Prelude.{◌≡◌, ◌++◌, length, reverse, IfOk, OnOk};
ghost use Rattle.std.specs.String.{string_bytes};
ghost use Rattle.ci_emu.specs.Profiles.{entries_in};
ghost use Rattle.ci_select.specs.Histories.{round};
ghost use Rattle.ci_select.specs.Instances.{Instance, instance_of};
ghost use Rattle.ci_select.specs.UnitNumbers.{AreUnits};
ghost use Rattle.ci_select.specs.Savings.{IsSaved};
ghost use Rattle.ci_select.specs.Takes.{AreTaken};
ghost use Rattle.ci_report.specs.Reports.{IsReport, block_lines, unit_lines, is_take_as, uses_of};
ghost use Rattle.ci_report.specs.private.Added.{AddsLines};

use crate::lines::{
    push_block, push_cut, push_plan, push_profile, push_skip, push_total, push_unit,
};
use ci_block::Block;
use ci_emu::Profile;
use ci_lat::Table;
use ci_live::Analysis;
use ci_log::Entry;
use ci_select::{Chosen, Plan, Taken};
use ci_unit::Unit;
use std::alloc::{AllocError, Global};

/// The report of a choice: a line for the limits, the run, each block that was entered, each cut that was taken and
/// each block that was skipped, in the order of the log book, each unit, and what all cuts save.
///
/// The cuts, the units and the cycles of the choice have to be those of its book, for the blocks with their live sets,
/// the entries of the profile, the table and the plan.
///
/// # Errors
///
/// Out of memory.
pub fn report(
    alloc: Global,
    profile: &Profile,
    analysis: &Analysis,
    table: &Table,
    plan: &Plan,
    chosen: &Chosen,
) -> Result<Vec<u8>, AllocError>
    requires takes { AreTaken (instance_of profile.now analysis.now.blocks analysis.now.live table.now plan.now)
        (reverse chosen.now.book.entries) (reverse chosen.now.takes.items) }
    requires units { AreUnits (instance_of profile.now analysis.now.blocks analysis.now.live table.now plan.now)
        (reverse chosen.now.book.entries) chosen.now.units }
    requires saved { IsSaved (instance_of profile.now analysis.now.blocks analysis.now.live table.now plan.now)
        (reverse chosen.now.book.entries) chosen.now.saved }
    ensures { IfOk result (λ text.
        IsReport (instance_of profile.now analysis.now.blocks analysis.now.live table.now plan.now)
        profile.now chosen.now.book text.items) }
{
    let mut text = String::from_str(alloc, "ci-report 1\n")?;
    push_plan(&mut text, plan, table)?;
    push_profile(alloc, &mut text, profile)?;
    push_blocks(&mut text, analysis.blocks.all(), profile)?;
    let entries = chosen.book.entries();
    push_entries(&mut text, entries, &chosen.takes)?;
    push_units(&mut text, entries, chosen.units.as_slice())?;
    push_total(&mut text, chosen.saved)?;
    Ok(text.into_bytes())
}

/// Appends the lines of the blocks that were entered.
fn push_blocks(text: &mut String, blocks: &[Block], profile: &Profile) -> Result<(), AllocError>
    ensures { OnOk result (string_bytes text.new
        ≡ string_bytes text.old ++ block_lines (entries_in profile.now) blocks.now) }
{
    for block in blocks {
        let entries = profile.entries(block.leader);
        if entries > 0 {
            push_block(text, block, entries)?;
        }
    }
    Ok(())
}

/// Appends the lines of the cuts that were taken and of the blocks that were skipped.
fn push_entries(text: &mut String, entries: &[Entry], takes: &[Taken]) -> Result<(), AllocError>
    requires { length takes.now ≡ round (reverse entries.now) }
    ensures { OnOk result ((instance : Instance) → AreTaken instance (reverse entries.now) (reverse takes.now)
        → AddsLines instance (reverse entries.now) (string_bytes text.old) (string_bytes text.new)) }
{
    let mut round = 0;
    for entry in entries {
        match entry {
            Entry::Take { .. } => {
                push_cut(text, &takes[round])?;
                round += 1;
            }
            Entry::Spent { leader, budget } => push_skip(text, round, *leader, *budget)?,
            Entry::Best { .. } => {}
            Entry::Without { .. } => {}
        }
    }
    Ok(())
}

/// Appends the lines of the units.
fn push_units(text: &mut String, entries: &[Entry], units: &[Unit]) -> Result<(), AllocError>
    ensures { OnOk result (string_bytes text.new ≡ string_bytes text.old ++ unit_lines entries.now 0 units.now) }
{
    for (number, unit) in units.iter().enumerate() {
        push_unit(text, number, unit, uses(entries, number))?;
    }
    Ok(())
}

/// How many of the entries are takes as the unit of this number.
fn uses(entries: &[Entry], number: usize) -> usize
    ensures { result ≡ uses_of entries.now number }
{
    let mut uses = 0;
    for entry in entries {
        if is_take_as(entry, number) {
            uses += 1;
        }
    }
    uses
}

/// Whether the entry is a take as the unit of this number.
fn is_take_as(entry: &Entry, number: usize) -> bool
    ensures { result ≡ is_take_as number entry.now }
{
    match entry {
        Entry::Take { unit, .. } => usize::from(*unit) == number,
        _ => false,
    }
}
