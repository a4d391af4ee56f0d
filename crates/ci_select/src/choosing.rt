//! The choice of cuts.
ghost use Rattle.std.specs.Prelude.{◌≡◌, ◌↔◌, ◌∷◌, ◌<◌, false, [], reverse, Ok, IfOk};
ghost use Rattle.ci_cut.specs.Need.{NeedExceeds};
ghost use Rattle.ci_elf.specs.Rules.{IsReadAs};
ghost use Rattle.ci_select.specs.Histories.{History, is_take, leader_of};
ghost use Rattle.ci_select.specs.Instances.{instance_of, AreBlocksOf};
ghost use Rattle.ci_select.specs.UnitNumbers.{AreUnits};
ghost use Rattle.ci_select.specs.Dues.{IsDue};
ghost use Rattle.ci_select.specs.LegalBooks.{HasShortLog, IsLegal, IsSearched};
ghost use Rattle.ci_select.specs.GivenUp.{IsGivenUp, IsGivenUpByNeed, GivesUpByNeed};
ghost use Rattle.ci_select.specs.Savings.{IsSaved};
ghost use Rattle.ci_select.specs.Takes.{AreTaken};
ghost use Rattle.ci_select.specs.NewFiles.{IsNewFile, with_bytes};
ghost use Rattle.ci_select.specs.private.Followed.{Follows, instance_in, steps_left};

use crate::plan::Plan;
use crate::rounds::{Due, Rounds};
use crate::taken::Taken;
use ci_block::Blocks;
use ci_cut::{Graph, GraphRows};
use ci_elf::Image;
use ci_emu::Profile;
use ci_lat::Table;
use ci_live::LiveSets;
use ci_log::{Entry, LogBook, LogNode, flatten};
use ci_machine::laws::bytes_are_small;
use ci_region::Region;
use ci_search::{Found, search_reusing};
use ci_unit::UnitTable;
use std::alloc::{AllocError, Global};

/// A choice of cuts.
#[derive(Drop)]
pub struct Chosen {
    /// Its log book.
    pub book: LogBook,
    /// The cuts that were taken, in their order.
    pub takes: Vec<Taken>,
    /// The units of the cuts that were taken, each once.
    pub units: UnitTable,
    /// The file with the folded blocks in place.
    pub image: Image,
    /// What the cuts that were taken save over the profiled run: the sum of their gains, each as often as its block was
    /// entered, in cycles.
    pub saved: u128,
}

/// Chooses cuts of the blocks of an executable that its run entered. Each time the best cut of the block where it saves
/// most, its gain as often as the block was entered, becomes an instruction, and that block is searched again; among
/// blocks where as much is saved the one of the least leader comes first. The choice ends where no block has a cut, or
/// where the next cut needs a new unit and there are as many as the plan allows. A block whose search needs more than
/// the budget is skipped from there on.
///
/// The image has to be that of a file, and the blocks and the live sets those of the image.
///
/// # Errors
///
/// Out of memory.
pub fn choose(
    alloc: Global,
    image: &Image,
    profile: &Profile,
    blocks: &Blocks,
    live: &LiveSets,
    table: &Table,
    plan: &Plan,
) -> Result<Chosen, AllocError>
    requires image { IsReadAs image.now.bytes (Ok image.now) }
    requires blocks { AreBlocksOf image.now blocks.now live.now }
    ensures book { IfOk result (λ chosen.
        IsLegal (instance_of profile.now blocks.now live.now table.now plan.now) chosen.book) }
    ensures takes { IfOk result (λ chosen. AreTaken (instance_of profile.now blocks.now live.now table.now plan.now)
        (reverse chosen.book.entries) (reverse chosen.takes.items)) }
    ensures units { IfOk result (λ chosen. AreUnits (instance_of profile.now blocks.now live.now table.now plan.now)
        (reverse chosen.book.entries) chosen.units) }
    ensures bytes { IfOk result (λ chosen. IsNewFile (instance_of profile.now blocks.now live.now table.now plan.now)
        image.now (reverse chosen.book.entries) chosen.image.bytes) }
    ensures saved { IfOk result (λ chosen. IsSaved (instance_of profile.now blocks.now live.now table.now plan.now)
        (reverse chosen.book.entries) chosen.saved) }
    ensures same_else { IfOk result (λ chosen. chosen.image ≡ with_bytes image.now chosen.image.bytes) }
    ensures given_up { IfOk result (λ chosen.
        GivesUpByNeed (instance_of profile.now blocks.now live.now table.now plan.now) (reverse chosen.book.entries)) }
{
    bytes_are_small(image.bytes());
    let mut rounds = Rounds::new(alloc, profile, blocks, live, table, plan)?;
    let (book, takes) = book_of(alloc, &mut rounds)?;
    let image = rounds.new_image(alloc, image)?;
    Ok(Chosen {
        book,
        takes,
        saved: rounds.saved(),
        units: rounds.units,
        image,
    })
}

/// Makes each entry that is due, up to the end, and keeps the cuts that are taken.
fn book_of(alloc: Global, rounds: &mut Rounds) -> Result<(LogBook, Vec<Taken>), AllocError>
    requires { Follows [] rounds.old }
    ensures legal { IfOk result (λ made. IsLegal (instance_in rounds.old) made.0) }
    ensures takes { IfOk result (λ made.
        AreTaken (instance_in rounds.old) (reverse made.0.entries) (reverse made.1.items)) }
    ensures followed { IfOk result (λ made. Follows (reverse made.0.entries) rounds.new) }
    ensures given_up { IfOk result (λ made. GivesUpByNeed (instance_in rounds.old) (reverse made.0.entries)) }
    ensures instance { instance_in rounds.new ≡ instance_in rounds.old }
{
    let mut region = Region::with_capacity(alloc, rounds.plan().budget)?;
    let mut rows = GraphRows::new();
    let mut entries = Vec::new(alloc);
    let mut takes = Vec::new(alloc);
    loop {
        match rounds.due() {
            Due::Search(leader) => {
                entries.push(search_block(alloc, rounds, &mut region, &mut rows, leader)?)?;
            }
            Due::Take { leader, unit } => {
                takes.push(rounds.taken(alloc, unit))?;
                rounds.follow_take(alloc, unit)?;
                entries.push(Entry::Take { leader, unit })?;
            }
            Due::End(finish) => return Ok((LogBook::new(entries, finish), takes)),
        }
    }
}

/// Searches the block that is due, which has this leader, and makes the entry of the search. All slots of the region
/// are free for its log.
fn search_block(
    alloc: Global,
    rounds: &mut Rounds,
    region: &mut Region<LogNode>,
    rows: &mut GraphRows,
    leader: u32,
) -> Result<Entry, AllocError>
    requires due { (history : History) × Follows history rounds.old
        × IsDue (instance_in rounds.old) history (Due.Search leader) }
    requires budget { region.old.capacity ≡ (instance_in rounds.old).plan.budget }
    ensures followed { IfOk result (λ entry. (history : History) → Follows history rounds.old
        → IsDue (instance_in rounds.old) history (Due.Search leader) → Follows (entry ∷ history) rounds.new) }
    ensures given_up { IfOk result (λ entry. (history : History) → Follows history rounds.old
        → IsDue (instance_in rounds.old) history (Due.Search leader)
        → IsGivenUpByNeed (instance_in rounds.old) history entry) }
    ensures search { IfOk result (λ entry. is_take entry ≡ false) }
    ensures short { IfOk result HasShortLog }
    ensures fewer { IfOk result (λ _. steps_left rounds.new < steps_left rounds.old) }
    ensures instance { instance_in rounds.new ≡ instance_in rounds.old }
    ensures budget { region.new.capacity ≡ region.old.capacity }
{
    let graph = rounds.graph(alloc)?;
    let entry = search_graph(alloc, &graph, rounds.plan(), region, rows, leader)?;
    rounds.follow_search(alloc, graph, &entry)?;
    Ok(entry)
}

/// The entry of a search of this graph, the block of which has this leader, in the region, whatever that held.
fn search_graph(
    alloc: Global,
    graph: &Graph,
    plan: &Plan,
    region: &mut Region<LogNode>,
    rows: &mut GraphRows,
    leader: u32,
) -> Result<Entry, AllocError>
    requires { region.old.capacity ≡ plan.now.budget }
    ensures searched { IfOk result (IsSearched graph.now plan.now) }
    ensures given_up { IfOk result (λ entry.
        IsGivenUp entry ↔ NeedExceeds graph.now plan.now.limits plan.now.budget) }
    ensures short { IfOk result HasShortLog }
    ensures leader { IfOk result (λ entry. leader_of entry ≡ leader) }
    ensures budget { region.new.capacity ≡ region.old.capacity }
{
    region.clear();
    Ok(match search_reusing(graph, &plan.limits, region, rows) {
        Found::Best { cut, root } => Entry::Best {
            leader,
            cut,
            log: flatten(alloc, region, root)?,
        },
        Found::NoCut { root } => Entry::Without {
            leader,
            log: flatten(alloc, region, root)?,
        },
        Found::Spent { budget } => Entry::Spent { leader, budget },
    })
}
