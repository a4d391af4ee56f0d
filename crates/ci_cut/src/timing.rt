//! The hardware time of a set of nodes.
ghost use Rattle.std.specs.Prelude.{◌≡◌, ℕ, ◌+◌, ◌/◌, max, ◌<◌, ◌≤◌, Bool, List, IsTrue, length};
ghost use Rattle.std.specs.FinSet as set;
ghost use Rattle.ci_cut.specs.private.ChainDelays.{IsMaximumAt};
ghost use Rattle.ci_cut.specs.Hardware as terms;
ghost use Rattle.ci_cut.specs.FlowGraph.{FlowGraph};
ghost use Rattle.ci_cut.specs.GraphRules.{IsFlowGraph, AreNodes};

use crate::graph::{Graph, Source};
use ci_word::Row;

/// The hardware time: the delay of the critical path, the chain of members with the greatest sum of delays, in cycles,
/// rounded up, and at least 1.
///
/// Each number of the set has to be a node.
pub fn hardware(graph: &Graph, cut: &Row) -> u32
    requires { AreNodes graph.now cut.now }
    ensures { result ≡ terms.hardware graph.now (set.contains cut.now) }
{
    in_cycles(critical_path_delay(graph, cut))
}

/// A delay in cycles, rounded up, and at least 1.
pub(crate) fn in_cycles(delay: u32) -> u32
    ensures { result ≡ max 1 ((delay + 999) / 1000) }
{
    delay.div_ceil(1000).max(1)
}

/// The law of the critical path: no chain of members has more than its delay, and some chain has it. Nothing happens
/// when it runs.
pub fn hardware_is_the_critical_path()
    ensures bound { (graph : FlowGraph) (cut : ℕ → Bool) → IsFlowGraph graph
        → ((k : ℕ) → IsTrue (cut k) → k < length graph.nodes)
        → (chain : List ℕ) → IsTrue (terms.is_chain graph cut chain)
        → terms.delay_along graph chain ≤ terms.critical_path_delay graph cut }
    ensures reached { (graph : FlowGraph) (cut : ℕ → Bool)
        → (chain : List ℕ) × IsTrue (terms.is_chain graph cut chain)
        × (terms.delay_along graph chain ≡ terms.critical_path_delay graph cut) }
{}

/// The delay of the critical path, in thousandths of a cycle.
fn critical_path_delay(graph: &Graph, cut: &Row) -> u32
    requires { AreNodes graph.now cut.now }
    ensures { result ≡ terms.critical_path_delay graph.now (set.contains cut.now) }
{
    // At each member, the greatest sum along a chain that begins there; elsewhere 0.
    let mut delays = [0u32; 256];
    let mut longest = 0;
    for (k, node) in graph.nodes().iter().enumerate() {
        if cut.has(k as u8) {
            let delay = maximum_at(&delays, node.sources.as_slice()) + node.delay;
            delays[k] = delay;
            longest = longest.max(delay);
        }
    }
    longest
}

/// The maximum of the delays at the nodes among the sources, and 0 where there is none.
fn maximum_at(delays: &[u32; 256], sources: &[Source]) -> u32
    ensures { IsMaximumAt delays.now sources.now result }
{
    let mut maximum = 0;
    for source in sources {
        if let Source::Made(node) = source {
            maximum = maximum.max(delays[*node as usize]);
        }
    }
    maximum
}
