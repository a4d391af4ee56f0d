//! The verdict on a log book with modules and a new file.
ghost use Rattle.std.specs.Prelude.{◌≡◌, ◌↔◌, [], reverse, Ok, IfOk, IfNone, IsTrue, OnOk, MatchOption};
ghost use Rattle.ci_elf.specs.Rules.{IsReadAs};
ghost use Rattle.ci_check.specs.Rules.{IsAccepted, IsFirstWrong};
ghost use Rattle.ci_vemit.specs.Templates.{modules_of};
ghost use Rattle.ci_select.specs.Histories.{History, leader_of};
ghost use Rattle.ci_select.specs.Instances.{instance_of, AreBlocksOf};
ghost use Rattle.ci_select.specs.Dues.{IsDue};
ghost use Rattle.ci_select.specs.LegalBooks.{IsLegal};
ghost use Rattle.ci_select.specs.NewFiles.{IsNewFile};
ghost use Rattle.ci_select.specs.WrongPlaces.{IsAcceptable, IsVerdict, IsFirstWrongPart};
ghost use Rattle.ci_select.specs.private.Followed.{Follows, FollowsSome, instance_in};
ghost use Rattle.ci_select.specs.private.Judged.{IsEndJudged, IsJudged, IsSearchJudged, is_at};

use crate::plan::Plan;
use crate::rounds::{Due, Rounds};
use ci_block::Blocks;
use ci_check::{check_reusing, needs_more};
use ci_cut::{Graph, GraphRows};
use ci_elf::Image;
use ci_emu::Profile;
use ci_lat::Table;
use ci_live::LiveSets;
use ci_log::{Entry, Finish, Log, LogBook};
use ci_machine::laws::bytes_are_small;
use ci_unit::UnitTable;
use ci_verilog::Module;
use ci_word::Row;
use std::alloc::{AllocError, Global};

/// What is found of a log book with modules and a new file.
#[derive(Clone, Copy)]
pub enum Verdict {
    /// The book is legal, and the modules and the file are its own.
    Accepted,
    /// The first place that is wrong.
    Rejected {
        /// The number of takes before.
        round: u32,
        /// The leader of the block that is due, or 0 where none is.
        leader: u32,
        /// The number of the wrong item of a log, in preorder, or 0.
        item: u32,
        /// Why it is wrong:
        ///
        /// - 1 to 7: the log of a search entry is wrong, as `ci_check::check` says;
        /// - 8: the search of a block is due and something else stands there, or the search is given up with another
        ///   budget than the plan's, or where no more is needed;
        /// - 9: a take is due and something else stands there;
        /// - 10: an end is due and something else stands there;
        /// - 11: the modules are not those of the units of the book;
        /// - 12: the new file is not the file with the folded blocks in place.
        reason: u8,
    },
}

/// Where a part of a book is wrong, in the round that is being read.
#[derive(Clone, Copy)]
struct Wrong {
    leader: u32,
    item: u32,
    reason: u8,
}

/// Whether the book is one that a choice may write, with the modules of its units and its new file; else the first
/// place that is wrong.
///
/// The image has to be that of a file, and the blocks and the live sets those of the image.
///
/// # Errors
///
/// Out of memory.
pub fn accept(
    alloc: Global,
    image: &Image,
    profile: &Profile,
    blocks: &Blocks,
    live: &LiveSets,
    table: &Table,
    plan: &Plan,
    book: &LogBook,
    modules: &[Module],
    new: &[u8],
) -> Result<Verdict, AllocError>
    requires image { IsReadAs image.now.bytes (Ok image.now) }
    requires blocks { AreBlocksOf image.now blocks.now live.now }
    ensures accepted { IfOk result (λ verdict. (verdict ≡ Verdict.Accepted)
        ↔ IsAcceptable (instance_of profile.now blocks.now live.now table.now plan.now)
        image.now book.now modules.now new.now) }
    ensures verdict { IfOk result (IsVerdict (instance_of profile.now blocks.now live.now table.now plan.now)
        image.now book.now modules.now new.now) }
{
    bytes_are_small(image.bytes());
    let mut rounds = Rounds::new(alloc, profile, blocks, live, table, plan)?;
    // What owns the rounds ends in one place: at each end the proof walks through all their parts.
    verdict_by(alloc, image, &mut rounds, book, modules, new)
}

/// The verdict on the book, the modules and the new file, by rounds before the first entry.
fn verdict_by(
    alloc: Global,
    image: &Image,
    rounds: &mut Rounds,
    book: &LogBook,
    modules: &[Module],
    new: &[u8],
) -> Result<Verdict, AllocError>
    requires image { IsReadAs image.now.bytes (Ok image.now) }
    requires blocks { AreBlocksOf image.now (instance_in rounds.old).blocks (instance_in rounds.old).live }
    requires none { Follows [] rounds.old }
    ensures { IfOk result (IsVerdict (instance_in rounds.old) image.now book.now modules.now new.now) }
{
    if let Some(wrong) = first_wrong(alloc, rounds, book)? {
        return Ok(rejected(rounds, wrong));
    }
    if !are_modules(alloc, rounds.units(), modules)? {
        return Ok(rejected(rounds, nowhere(11)));
    }
    if !is_new_file(alloc, rounds, image, new)? {
        return Ok(rejected(rounds, nowhere(12)));
    }
    Ok(Verdict::Accepted)
}

/// Whether the modules are those of the units.
fn are_modules(alloc: Global, units: &UnitTable, modules: &[Module]) -> Result<bool, AllocError>
    ensures { IfOk result (λ are. IsTrue are ↔ (modules.now ≡ modules_of units.now)) }
{
    let own = ci_vemit::modules(alloc, units)?;
    Ok(own.as_slice() == modules)
}

/// Whether the bytes are those of the image, whose blocks these are, with the blocks of the present program in place.
fn is_new_file(
    alloc: Global,
    rounds: &Rounds,
    image: &Image,
    bytes: &[u8],
) -> Result<bool, AllocError>
    requires image { IsReadAs image.now.bytes (Ok image.now) }
    requires blocks { AreBlocksOf image.now rounds.now.blocks.now rounds.now.live.now }
    requires follows { FollowsSome rounds.now }
    ensures { IfOk result (λ is. (history : History) → Follows history rounds.now
        → IsTrue is ↔ IsNewFile (instance_in rounds.now) image.now history bytes.now) }
{
    let own = rounds.new_image(alloc, image)?;
    bytes_are_small(image.bytes());
    bytes_are_small(own.bytes());
    bytes_are_small(bytes);
    Ok(own.bytes() == bytes)
}

/// The verdict that this is wrong in the present round.
fn rejected(rounds: &Rounds, wrong: Wrong) -> Verdict
    requires { FollowsSome rounds.now }
    ensures { result ≡ Verdict.Rejected rounds.now.round wrong.leader wrong.item wrong.reason }
{
    let Wrong {
        leader,
        item,
        reason,
    } = wrong;
    Verdict::Rejected {
        round: rounds.round(),
        leader,
        item,
        reason,
    }
}

/// What is wrong for this reason, at no block.
fn nowhere(reason: u8) -> Wrong
    ensures { result ≡ record { leader = 0; item = 0; reason = reason } }
{
    Wrong {
        leader: 0,
        item: 0,
        reason,
    }
}

/// Something else than this block's search or take stands where that is due, by the reason.
fn another(leader: u32, reason: u8) -> Wrong
    ensures { result ≡ record { leader = leader; item = 0; reason = reason } }
{
    Wrong {
        leader,
        item: 0,
        reason,
    }
}

/// Follows the book, and answers its first part that is wrong, if one is.
fn first_wrong(
    alloc: Global,
    rounds: &mut Rounds,
    book: &LogBook,
) -> Result<Option<Wrong>, AllocError>
    requires { Follows [] rounds.old }
    ensures wrong { IfOk result (λ found. MatchOption found (IsLegal (instance_in rounds.old) book.now)
        (λ wrong. IsFirstWrongPart (instance_in rounds.old) book.now (is_at wrong rounds.new.round))) }
    ensures followed { IfOk result (λ found. IfNone found (Follows (reverse book.now.entries) rounds.new)) }
    ensures follows { OnOk result (FollowsSome rounds.new) }
    ensures instance { instance_in rounds.new ≡ instance_in rounds.old }
{
    let mut rows = GraphRows::new();
    for entry in book.entries() {
        if let Some(wrong) = follow(alloc, rounds, &mut rows, entry)? {
            return Ok(Some(wrong));
        }
    }
    Ok(wrong_end(rounds.due(), book.finish()))
}

/// What is wrong of the end of a book, where this is due.
fn wrong_end(due: Due, finish: Finish) -> Option<Wrong>
    ensures { IsEndJudged due finish result }
{
    match due {
        Due::Search(leader) => Some(another(leader, 8)),
        Due::Take { leader, .. } => Some(another(leader, 9)),
        Due::End(due) if due == finish => None,
        Due::End(_) => Some(nowhere(10)),
    }
}

/// Follows the entry, if it is right, or answers what is wrong.
fn follow(
    alloc: Global,
    rounds: &mut Rounds,
    rows: &mut GraphRows,
    entry: &Entry,
) -> Result<Option<Wrong>, AllocError>
    requires { FollowsSome rounds.old }
    ensures judged { IfOk result (IsJudged rounds.old rounds.new entry.now) }
    ensures instance { instance_in rounds.new ≡ instance_in rounds.old }
{
    match rounds.due() {
        Due::Search(leader) => follow_search(alloc, rounds, rows, leader, entry),
        Due::Take { leader, unit } => follow_take(alloc, rounds, leader, unit, entry),
        Due::End(_) => Ok(Some(nowhere(10))),
    }
}

/// Follows the entry, where the search of the block of this leader is due.
fn follow_search(
    alloc: Global,
    rounds: &mut Rounds,
    rows: &mut GraphRows,
    leader: u32,
    entry: &Entry,
) -> Result<Option<Wrong>, AllocError>
    requires follows { FollowsSome rounds.old }
    requires due { (history : History) → Follows history rounds.old
        → IsDue (instance_in rounds.old) history (Due.Search leader) }
    ensures judged { IfOk result (IsJudged rounds.old rounds.new entry.now) }
    ensures instance { instance_in rounds.new ≡ instance_in rounds.old }
{
    let graph = rounds.graph(alloc)?;
    if let Some(wrong) = wrong_search(&graph, rounds.plan(), rows, leader, entry) {
        return Ok(Some(wrong));
    }
    rounds.follow_search(alloc, graph, entry)?;
    Ok(None)
}

/// What is wrong of the entry, where the search of the block of this leader is due, which has this graph.
fn wrong_search(
    graph: &Graph,
    plan: &Plan,
    rows: &mut GraphRows,
    leader: u32,
    entry: &Entry,
) -> Option<Wrong>
    ensures { IsSearchJudged graph.now plan.now leader entry.now result }
{
    if leader_of(entry) != leader {
        return Some(another(leader, 8));
    }
    match entry {
        Entry::Best { cut, log, .. } => wrong_item(graph, plan, rows, leader, Some(*cut), log),
        Entry::Without { log, .. } => wrong_item(graph, plan, rows, leader, None, log),
        Entry::Spent { budget, .. } => {
            if *budget == plan.budget && needs_more(graph, &plan.limits, plan.budget) {
                None
            } else {
                Some(another(leader, 8))
            }
        }
        Entry::Take { .. } => Some(another(leader, 8)),
    }
}

/// The leader of the block that the entry speaks of.
fn leader_of(entry: &Entry) -> u32
    ensures { result ≡ leader_of entry.now }
{
    match entry {
        Entry::Best { leader, .. }
        | Entry::Without { leader, .. }
        | Entry::Spent { leader, .. }
        | Entry::Take { leader, .. } => *leader,
    }
}

/// The first wrong item of the log for the cut, or for none, of the block of this leader, if one is.
fn wrong_item(
    graph: &Graph,
    plan: &Plan,
    rows: &mut GraphRows,
    leader: u32,
    best: Option<Row>,
    log: &Log,
) -> Option<Wrong>
    ensures { MatchOption result (IsAccepted graph.now plan.now.limits best log.now)
        (λ wrong. (wrong.leader ≡ leader)
        × IsFirstWrong graph.now plan.now.limits best log.now (record { item = wrong.item; reason = wrong.reason })) }
{
    match check_reusing(graph, &plan.limits, best, log, rows) {
        Ok(()) => None,
        Err(wrong) => Some(Wrong {
            leader,
            item: wrong.item,
            reason: wrong.reason,
        }),
    }
}

/// Follows the entry, where the take of the block of this leader as the unit of this number is due.
fn follow_take(
    alloc: Global,
    rounds: &mut Rounds,
    leader: u32,
    unit: u8,
    entry: &Entry,
) -> Result<Option<Wrong>, AllocError>
    requires follows { FollowsSome rounds.old }
    requires due { (history : History) → Follows history rounds.old
        → IsDue (instance_in rounds.old) history (Due.Take leader unit) }
    ensures judged { IfOk result (IsJudged rounds.old rounds.new entry.now) }
    ensures instance { instance_in rounds.new ≡ instance_in rounds.old }
{
    match entry {
        Entry::Take { leader: l, unit: k } if *l == leader && *k == unit => {
            rounds.follow_take(alloc, unit)?;
            Ok(None)
        }
        _ => Ok(Some(another(leader, 9))),
    }
}
