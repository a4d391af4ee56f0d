//! The best cut of a graph, by a search whose log is checked.
ghost use Rattle.std.specs.Prelude.{◌≤◌, ◌<◌, ◌^◌, IfOk, OnOk, MatchOption};
ghost use Rattle.std.specs.FinSet as set;
ghost use Rattle.std.specs.String.{string_bytes};
ghost use Rattle.ci_region.specs.BoundedMap.{BoundedMap};
ghost use Rattle.ci_cut.specs.Best.{IsBest, HasNoCut};
ghost use Rattle.ci_log.specs.declared.flattening.LogNode.{LogNode as Branch};
ghost use Rattle.ci_search.specs.Answered.{HasLog};
ghost use Rattle.ci_commands.specs.BestCommand.{IsBestLine};

use super::line::{cut_text, skipped_text};
use ci_check::check;
use ci_cut::{Graph, Limits};
use ci_log::{Child, LogNode, flatten};
use ci_region::Region;
use ci_search::{Found, search};
use ci_word::Row;
use std::alloc::{AllocError, Global};

/// The line of the best cut of the graph, or that it has none, or that the log of a search for it has more branches
/// than the budget.
pub fn best_cut_line(
    alloc: Global,
    graph: &Graph,
    limits: &Limits,
    budget: u32,
) -> Result<String, AllocError>
    requires { budget ≤ 4194304 }
    ensures { IfOk result (λ line. IsBestLine graph.now limits.now budget (string_bytes line)) }
{
    let mut region = Region::with_capacity(alloc, budget)?;
    match search(graph, limits, &mut region) {
        Found::Best { cut, root } => {
            check_log(alloc, graph, limits, Some(cut), &region, root)?;
            cut_text(alloc, graph, &cut)
        }
        Found::NoCut { root } => {
            check_log(alloc, graph, limits, None, &region, root)?;
            String::from_str(alloc, "no cut\n")
        }
        Found::Spent { budget } => skipped_text(alloc, budget),
    }
}

/// Checks that the log of the tree shows that the cut is the best one, or that there is none.
fn check_log(
    alloc: Global,
    graph: &Graph,
    limits: &Limits,
    best: Option<Row>,
    region: &Region<LogNode>,
    root: Child,
) -> Result<(), AllocError>
    requires few { region.now.capacity < 2 ^ 31 }
    requires log { (before : BoundedMap Branch) × HasLog graph.now limits.now best before region.now root }
    ensures { OnOk result (MatchOption best (HasNoCut graph.now limits.now)
        (λ cut. IsBest graph.now limits.now (set.contains cut))) }
{
    prove!(region.used() <= region.capacity());
    let log = flatten(alloc, region, root)?;
    match check(graph, limits, best, &log) {
        Ok(()) => Ok(()),
        Err(_) => unreachable!(),
    }
}
