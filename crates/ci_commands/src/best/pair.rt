//! The best pair of cuts of a graph, by a search whose log is checked.
ghost use Rattle.std.specs.Prelude.{◌≤◌, ◌<◌, ◌^◌, IfOk, OnOk, MatchOption};
ghost use Rattle.std.specs.String.{string_bytes};
ghost use Rattle.ci_region.specs.BoundedMap.{BoundedMap};
ghost use Rattle.ci_pair.specs.Answered.{HasLog};
ghost use Rattle.ci_pair.specs.Pairs.{IsBestPair, HasNoPair};
ghost use Rattle.ci_pair.specs.PairSets.{sets, given};
ghost use Rattle.ci_pair.specs.declared.flattening.PairNode.{PairNode as Branch};
ghost use Rattle.ci_commands.specs.PairCommand.{IsPairLine};

use super::line::{pair_text, skipped_text};
use ci_cut::{Graph, Limits};
use ci_pair::{Pair, PairChild, PairFound, PairNode, check_pair, flatten_pair, search_pair};
use ci_region::Region;
use std::alloc::{AllocError, Global};

/// The line of the best pair of the graph, or that it has none, or that the log of a search for it has more branches
/// than the budget.
pub fn best_pair_line(
    alloc: Global,
    graph: &Graph,
    limits: &Limits,
    budget: u32,
) -> Result<String, AllocError>
    requires { budget ≤ 4194304 }
    ensures { IfOk result (λ line. IsPairLine graph.now limits.now budget (string_bytes line)) }
{
    let mut region = Region::with_capacity(alloc, budget)?;
    match search_pair(graph, limits, &mut region) {
        PairFound::Best { pair, root } => {
            check_log(alloc, graph, limits, Some(pair), &region, root)?;
            pair_text(alloc, graph, &pair)
        }
        PairFound::NoPair { root } => {
            check_log(alloc, graph, limits, None, &region, root)?;
            String::from_str(alloc, "no pair\n")
        }
        PairFound::Spent { budget } => skipped_text(alloc, budget),
    }
}

/// Checks that the log of the tree shows that the pair is the best one, or that there is none.
fn check_log(
    alloc: Global,
    graph: &Graph,
    limits: &Limits,
    best: Option<Pair>,
    region: &Region<PairNode>,
    root: PairChild,
) -> Result<(), AllocError>
    requires few { region.now.capacity < 2 ^ 30 }
    requires log { (before : BoundedMap Branch) × HasLog graph.now limits.now (given best) before region.now root }
    ensures { OnOk result (MatchOption best (HasNoPair graph.now limits.now)
        (λ pair. IsBestPair graph.now limits.now (sets pair))) }
{
    prove!(region.used() <= region.capacity());
    let log = flatten_pair(alloc, region, root)?;
    match check_pair(graph, limits, best, &log) {
        Ok(()) => Ok(()),
        Err(_) => unreachable!(),
    }
}
