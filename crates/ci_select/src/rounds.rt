//! How far a choice has come: what the entries of a book so far make of the blocks, and what is due behind them.
ghost use Rattle.std.specs.Prelude.{◌≡◌, ◌≢◌, ◌<◌, ◌^◌, ◌∷◌, ◌++◌, ℕ, false, [], reverse, length, map};
ghost use Rattle.std.specs.Prelude.{pos, ◌<ℤ◌, ◌*ℤ◌, Ok, IfOk, OnOk, MatchOption};
ghost use Rattle.std.specs.FinSet as finite;
ghost use Rattle.std.specs.List.{Contains};
ghost use Rattle.ci_cut.specs.Gain as terms;
ghost use Rattle.ci_unit.specs.Operands.{FitsSomeLimits};
ghost use Rattle.ci_elf.specs.Rules.{IsReadAs};
ghost use Rattle.ci_log.specs.declared.book.Entry.TheVariants.{Take};
ghost use Rattle.ci_select.specs.Histories.{History, is_take, round};
ghost use Rattle.ci_select.specs.Instances.{instance_of, AreBlocksOf, AreOfSomeFile};
ghost use Rattle.ci_select.specs.UnitNumbers.{AreUnits};
ghost use Rattle.ci_select.specs.Dues.{IsDue};
ghost use Rattle.ci_select.specs.Savings.{IsSaved};
ghost use Rattle.ci_select.specs.Takes.{IsTaken};
ghost use Rattle.ci_select.specs.LegalBooks.{IsRight};
ghost use Rattle.ci_select.specs.NewFiles.{IsNewFile, with_bytes};
ghost use Rattle.ci_select.specs.private.Followed.{Follows, FollowsSome, HasDueSearch, IsDueGraph, IsNumberFor};
ghost use Rattle.ci_select.specs.private.Followed.{IsFirst, entered_from, instance_in, steps_left};

use crate::plan::Plan;
use crate::taken::Taken;
use ci_block::{Block, Blocks, patch_block};
use ci_cut::{Graph, gain};
use ci_dfg::graph;
use ci_elf::Image;
use ci_emu::Profile;
use ci_isa::{Insn, encode};
use ci_lat::Table;
use ci_live::LiveSets;
use ci_log::{Entry, Finish};
use ci_rewrite::fold;
use ci_unit::{Unit, UnitTable, encode_use, unit_of};
use ci_word::Row;
use std::alloc::{AllocError, Global};
use std::cmp::Reverse;
use std::collections::BTreeMap;

/// What a book has next.
#[derive(Clone, Copy)]
pub enum Due {
    /// The search of the block of this leader.
    Search(u32),
    /// The take of the cut that was found last in the block of this leader, as the unit of this number.
    Take { leader: u32, unit: u8 },
    /// The end.
    End(Finish),
}

/// A block of which a cut can be taken.
#[derive(Drop)]
struct Candidate {
    /// The place of the block among all of them.
    place: usize,
    /// The graph of the block, as that was searched last.
    graph: Graph,
    /// The cut that was found then.
    cut: Row,
    /// The unit of the cut.
    unit: Unit,
}

/// Which candidate goes first: the one that saves most, and of those that save as much the one of the least leader.
#[derive(Clone, Copy, PartialEq, Eq, PartialOrd, Ord)]
struct Rank {
    /// The gain of the cut in cycles, as often as the block was entered.
    saved: Reverse<u128>,
    leader: u32,
}

/// How far a choice has come, after the entries of a book so far.
#[derive(Drop)]
pub struct Rounds<'a> {
    blocks: &'a [Block],
    live: &'a LiveSets,
    profile: &'a Profile,
    table: &'a Table,
    plan: Plan,
    /// The instructions of each block in the present program.
    present: Vec<Vec<Insn>>,
    /// The places of the blocks whose search is due, the next one last.
    unsearched: Vec<usize>,
    candidates: BTreeMap<Rank, Candidate>,
    pub(crate) units: UnitTable,
    /// How many cuts were taken.
    round: u32,
    /// What they save over the profiled run, in cycles.
    saved: u128,
}

impl<'a> Rounds<'a> {
    /// Before the first entry. The blocks and the live sets have to be those of one file.
    ///
    /// # Errors
    ///
    /// Out of memory.
    pub fn new(
        alloc: Global,
        profile: &'a Profile,
        blocks: &'a Blocks,
        live: &'a LiveSets,
        table: &'a Table,
        plan: &Plan,
    ) -> Result<Rounds<'a>, AllocError>
        requires { AreOfSomeFile blocks.now live.now }
        ensures instance { IfOk result (λ rounds.
            instance_in rounds ≡ instance_of profile.now blocks.now live.now table.now plan.now) }
        ensures none { IfOk result (Follows []) }
    {
        let blocks = blocks.all();
        Ok(Rounds {
            blocks,
            live,
            profile,
            table,
            plan: *plan,
            present: instructions_of(alloc, blocks)?,
            unsearched: entered_places(alloc, blocks, profile)?,
            candidates: BTreeMap::new(alloc),
            units: UnitTable::new(alloc),
            round: 0,
            saved: 0,
        })
    }

    /// What is due.
    pub fn due(&self) -> Due
        requires { FollowsSome self.now }
        ensures { (history : History) → Follows history self.now → IsDue (instance_in self.now) history result }
    {
        if let Some(place) = self.unsearched.last() {
            return Due::Search(self.blocks[*place].leader);
        }
        let Some((rank, candidate)) = self.first_candidate() else {
            return Due::End(Finish::Empty);
        };
        match self.number_for(&candidate.unit) {
            Some(unit) => Due::Take {
                leader: rank.leader,
                unit,
            },
            None => Due::End(Finish::Count),
        }
    }

    /// The candidate that goes first, if there is one.
    fn first_candidate(&self) -> Option<(&Rank, &Candidate)>
        ensures { MatchOption result (self.now.candidates.entries ≡ [])
            (λ first. IsFirst self.now.candidates.entries (first.0.now, first.1.now)) }
    {
        self.candidates.first_key_value()
    }

    /// The number of the equal unit, or the next one where there is none and there may be one more.
    fn number_for(&self, unit: &Unit) -> Option<u8>
        ensures { IsNumberFor self.now.units self.now.plan.count unit.now result }
    {
        let next = self.units.len();
        match self.units.number_of(unit) {
            Some(number) => Some(number),
            None if next < self.plan.count => Some(next),
            None => None,
        }
    }

    /// The graph of the block whose search is due, in the present program. What is live after it stays that of the file.
    ///
    /// # Errors
    ///
    /// Out of memory.
    pub fn graph(&self, alloc: Global) -> Result<Graph, AllocError>
        requires { HasDueSearch self.now }
        ensures { IfOk result (IsDueGraph self.now) }
    {
        let Some(place) = self.unsearched.last() else {
            unreachable!()
        };
        let live_out = self.live.after(self.blocks[*place].leader);
        graph(alloc, &self.present[*place], live_out, self.table)
    }

    /// What is told of the take that is due, as the unit of this number.
    pub fn taken(&self, alloc: Global, unit: u8) -> Taken
        requires { (history : History) × (leader : ℕ) × Follows history self.now
            × IsDue (instance_in self.now) history (Due.Take leader unit) }
        ensures { (history : History) (leader : ℕ) → Follows history self.now
            → IsDue (instance_in self.now) history (Due.Take leader unit)
            → IsTaken (instance_in self.now) history leader unit result }
    {
        let Some((rank, candidate)) = self.first_candidate() else {
            unreachable!()
        };
        let Candidate {
            place,
            graph,
            cut,
            ..
        } = candidate;
        let used = encode_use(alloc, &self.present[*place], graph, cut, unit);
        Taken {
            round: self.round,
            leader: rank.leader,
            unit,
            gain: gain(graph, cut) as u64,
            entries: self.profile.entries(rank.leader),
            cut: *cut,
            word: encode(&used.unit),
        }
    }

    /// What bounds the choice.
    pub fn plan(&self) -> &Plan
        ensures { result.now ≡ (instance_in self.now).plan }
    {
        &self.plan
    }

    /// The units so far.
    pub fn units(&self) -> &UnitTable
        ensures { (history : History) → Follows history self.now
            → AreUnits (instance_in self.now) history result.now }
    {
        &self.units
    }

    /// How many cuts were taken.
    pub fn round(&self) -> u32
        ensures { (history : History) → Follows history self.now → result ≡ round history }
    {
        self.round
    }

    /// What the cuts that were taken save over the profiled run: the sum of their gains, each as often as its block was
    /// entered, in cycles.
    pub fn saved(&self) -> u128
        ensures { (history : History) → Follows history self.now → IsSaved (instance_in self.now) history result }
    {
        self.saved
    }

    /// Follows the entry of the search that is due, which is right. The graph is that of the block.
    ///
    /// # Errors
    ///
    /// Out of memory. The rounds serve nothing then.
    pub fn follow_search(
        &mut self,
        alloc: Global,
        graph: Graph,
        entry: &Entry,
    ) -> Result<(), AllocError>
        requires right { (history : History) × Follows history self.old
            × IsRight (instance_in self.old) history entry.now × (is_take entry.now ≡ false) }
        requires graph { IsDueGraph self.old graph }
        ensures followed { OnOk result ((history : History) → Follows history self.old
            → IsRight (instance_in self.old) history entry.now → Follows (entry.now ∷ history) self.new) }
        ensures fewer { OnOk result (steps_left self.new < steps_left self.old) }
        ensures instance { instance_in self.new ≡ instance_in self.old }
    {
        let Some(place) = self.unsearched.pop() else {
            unreachable!()
        };
        match entry {
            Entry::Best { leader, cut, .. } => {
                let insns = self.present[place].as_slice();
                let unit = unit_of(alloc, insns, &graph, cut)?;
                let saved = saved_in_run(&graph, cut, self.profile.entries(*leader));
                let rank = Rank {
                    saved: Reverse(saved),
                    leader: *leader,
                };
                let candidate = Candidate {
                    place,
                    graph,
                    cut: *cut,
                    unit,
                };
                self.candidates.insert(rank, candidate)?;
                Ok(())
            }
            _ => Ok(()),
        }
    }

    /// Follows the take that is due, as the unit of this number: its cut is folded, and its block is to be searched
    /// again.
    ///
    /// # Errors
    ///
    /// Out of memory. The rounds serve nothing then.
    pub fn follow_take(&mut self, alloc: Global, number: u8) -> Result<(), AllocError>
        requires { (history : History) × (leader : ℕ) × Follows history self.old
            × IsDue (instance_in self.old) history (Due.Take leader number) }
        ensures followed { OnOk result ((history : History) (leader : ℕ) → Follows history self.old
            → IsDue (instance_in self.old) history (Due.Take leader number)
            → Follows (Take leader number ∷ history) self.new) }
        ensures fewer { OnOk result (steps_left self.new < steps_left self.old) }
        ensures instance { instance_in self.new ≡ instance_in self.old }
    {
        let Some((rank, candidate)) = self.candidates.pop_first() else {
            unreachable!()
        };
        let Candidate {
            place,
            graph,
            cut,
            unit,
        } = candidate;
        self.present[place] = fold(alloc, &self.present[place], &graph, &cut, number)?;
        self.unsearched.push(place)?;
        add_new(&mut self.units, number, unit)?;
        self.round += 1;
        self.saved += rank.saved.0;
        Ok(())
    }

    /// The file, whose blocks these are, with the blocks of the present program in place. The image has to be that of a
    /// file.
    ///
    /// # Errors
    ///
    /// Out of memory.
    pub fn new_image(&self, alloc: Global, image: &Image) -> Result<Image, AllocError>
        requires image { IsReadAs image.now.bytes (Ok image.now) }
        requires blocks { AreBlocksOf image.now self.now.blocks.now self.now.live.now }
        requires follows { FollowsSome self.now }
        ensures bytes { IfOk result (λ new. (history : History) → Follows history self.now
            → IsNewFile (instance_in self.now) image.now history new.bytes) }
        ensures same_else { IfOk result (λ new. new ≡ with_bytes image.now new.bytes) }
    {
        let mut new = image.duplicate(alloc)?;
        for (block, insns) in self.blocks.iter().zip(&self.present) {
            patch_block(&mut new, block.leader, insns);
        }
        Ok(new)
    }
}

/// What the cut saves in a run that enters its block so often, which has this graph, in cycles.
fn saved_in_run(graph: &Graph, cut: &Row, entries: u64) -> u128
    requires fits { FitsSomeLimits graph.now (finite.contains cut.now) }
    requires gains { pos 0 <ℤ terms.gain graph.now (finite.contains cut.now) }
    ensures product { pos result ≡ terms.gain graph.now (finite.contains cut.now) *ℤ pos entries }
    ensures small { result < 2 ^ 82 }
{
    // What a graph keeps is known where its nodes are read.
    prove!(graph.nodes().len() <= 256);
    gain(graph, cut) as u128 * u128::from(entries)
}

/// Adds the unit where its number is the next one.
fn add_new(units: &mut UnitTable, number: u8, unit: Unit) -> Result<(), AllocError>
    requires room { number < 32 }
    requires absent { number ≡ length units.old → ¬ Contains units.old unit }
    ensures added { OnOk result (number ≡ length units.old → units.new ≡ units.old ++ unit ∷ []) }
    ensures known { OnOk result (number ≢ length units.old → units.new ≡ units.old) }
{
    if number == units.len() {
        units.add(unit)?;
    }
    Ok(())
}

/// The instructions of each block of the file.
fn instructions_of(alloc: Global, blocks: &[Block]) -> Result<Vec<Vec<Insn>>, AllocError>
    ensures { IfOk result (λ present.
        map (λ insns. insns.items) present.items ≡ map (λ block. block.insns.items) blocks.now) }
{
    let mut present = Vec::with_capacity(alloc, blocks.len())?;
    for block in blocks {
        present.push(Vec::from_slice(alloc, &block.insns)?)?;
    }
    Ok(present)
}

/// The places of the blocks that were entered, the first one last.
fn entered_places(
    alloc: Global,
    blocks: &[Block],
    profile: &Profile,
) -> Result<Vec<usize>, AllocError>
    ensures { IfOk result (λ places. reverse places.items ≡ entered_from profile.now blocks.now) }
{
    let mut places = Vec::new(alloc);
    for place in (0..blocks.len()).rev() {
        if profile.entries(blocks[place].leader) > 0 {
            places.push(place)?;
        }
    }
    Ok(places)
}
