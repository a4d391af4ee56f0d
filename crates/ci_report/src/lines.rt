//! The lines of a report.
ghost use Rattle.std.specs.Prelude.{◌≡◌, ◌++◌, length, OnOk};
ghost use Rattle.std.specs.FinSet as set;
ghost use Rattle.std.specs.String.{string_bytes};
ghost use Rattle.ci_word.specs.Members.{members_text};
ghost use Rattle.ci_report.specs.Lines as lines;

use ci_block::Block;
use ci_emu::{Profile, end_text};
use ci_lat::Table;
use ci_select::{Plan, Taken};
use ci_unit::Unit;
use ci_word::{Row, push_members};
use std::alloc::{AllocError, Global};

/// Appends a name and a number in decimal.
#[tactic(auto, unfolding(crate::specs::Lines::number_after))]
fn push_number(text: &mut String, name: &str, number: u64) -> Result<(), AllocError>
    ensures { OnOk result (string_bytes text.new ≡ string_bytes text.old ++ lines.number_after name.now number) }
{
    text.push_str(name)?;
    write!(text, "{number}")
}

/// Appends a name and a word in eight hexadecimal digits.
#[tactic(auto, unfolding(crate::specs::Lines::word_after))]
fn push_word(text: &mut String, name: &str, word: u32) -> Result<(), AllocError>
    ensures { OnOk result (string_bytes text.new ≡ string_bytes text.old ++ lines.word_after name.now word) }
{
    ci_reading::push_word(text, name, word)
}

/// Appends the line of the limits of the choice, with what no-ops and `cread` cost.
pub fn push_plan(text: &mut String, plan: &Plan, table: &Table) -> Result<(), AllocError>
    ensures { OnOk result (string_bytes text.new ≡ string_bytes text.old ++ lines.plan_line plan.now table.now) }
{
    let (inputs, outputs) = (plan.limits.inputs, plan.limits.outputs);
    let (count, budget) = (plan.count, plan.budget);
    let (pad, read) = (table.pad(), table.read());
    writeln!(
        text,
        "ports {inputs} {outputs} count {count} budget {budget} pad {pad} read {read}"
    )
}

/// Appends the line of the profiled run.
pub fn push_profile(alloc: Global, text: &mut String, profile: &Profile) -> Result<(), AllocError>
    ensures { OnOk result (string_bytes text.new ≡ string_bytes text.old
        ++ lines.profile_line profile.now.end profile.now.steps profile.now.cost) }
{
    let end = end_text(alloc, profile.end)?;
    let (steps, cost) = (profile.steps, profile.cost);
    writeln!(text, "profile {end} steps {steps} cost {cost}")
}

/// Appends the line of a block that was entered so often.
pub fn push_block(text: &mut String, block: &Block, entries: u64) -> Result<(), AllocError>
    ensures { OnOk result (string_bytes text.new ≡ string_bytes text.old
        ++ lines.block_line block.now.leader (length block.now.insns.items) entries) }
{
    push_word(text, "block ", block.leader)?;
    push_number(text, " length ", block.insns.len() as u64)?;
    push_number(text, " entries ", entries)?;
    text.push('\n')
}

/// Appends the line of a cut that was taken.
pub fn push_cut(text: &mut String, taken: &Taken) -> Result<(), AllocError>
    ensures { OnOk result (string_bytes text.new ≡ string_bytes text.old
        ++ lines.cut_line taken.now.round taken.now.leader taken.now.unit taken.now.gain taken.now.entries
        (set.contains taken.now.cut) taken.now.word) }
{
    push_place(text, taken)?;
    push_number(text, " gain ", taken.gain)?;
    push_number(text, " entries ", taken.entries)?;
    push_members_after(text, " nodes", &taken.cut)?;
    push_word(text, " word ", taken.word)?;
    text.push('\n')
}

/// Appends the round, the block and the unit of a cut that was taken.
fn push_place(text: &mut String, taken: &Taken) -> Result<(), AllocError>
    ensures { OnOk result (string_bytes text.new ≡ string_bytes text.old
        ++ lines.place_text taken.now.round taken.now.leader taken.now.unit) }
{
    push_number(text, "cut ", u64::from(taken.round))?;
    push_word(text, " block ", taken.leader)?;
    push_number(text, " unit ", u64::from(taken.unit))
}

/// Appends a name and the members of a set.
fn push_members_after(text: &mut String, name: &str, numbers: &Row) -> Result<(), AllocError>
    ensures { OnOk result (string_bytes text.new ≡ string_bytes text.old ++ name.now
        ++ members_text (set.contains numbers.now)) }
{
    text.push_str(name)?;
    push_members(text, numbers)
}

/// Appends the line of a block that is skipped.
pub fn push_skip(
    text: &mut String,
    round: usize,
    leader: u32,
    budget: u32,
) -> Result<(), AllocError>
    ensures { OnOk result (string_bytes text.new ≡ string_bytes text.old ++ lines.skip_line round leader budget) }
{
    push_number(text, "skip ", round as u64)?;
    push_word(text, " block ", leader)?;
    push_number(text, " budget ", u64::from(budget))?;
    text.push('\n')
}

/// Appends the line of a unit that was used so often.
pub fn push_unit(
    text: &mut String,
    number: usize,
    unit: &Unit,
    uses: usize,
) -> Result<(), AllocError>
    ensures { OnOk result (string_bytes text.new ≡ string_bytes text.old ++ lines.unit_line number unit.now uses) }
{
    let (cycles, operations) = (unit.cycles(), unit.ops().len());
    writeln!(
        text,
        "unit {number} cycles {cycles} operations {operations} uses {uses}"
    )
}

/// Appends the line of what all cuts save.
#[tactic(auto, unfolding(crate::specs::Lines::number_after))]
pub fn push_total(text: &mut String, saved: u128) -> Result<(), AllocError>
    ensures { OnOk result (string_bytes text.new ≡ string_bytes text.old ++ lines.total_line saved) }
{
    writeln!(text, "total {saved}")
}
