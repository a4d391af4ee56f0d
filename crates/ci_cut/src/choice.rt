//! The best cut, by trying every set of eligible nodes.
ghost use Rattle.std.specs.Prelude.{◌≡◌, ℕ, ◌<◌, ◌≤◌, MatchOption, IsTrue, length};
ghost use Rattle.std.specs.FinSet as set;
ghost use Rattle.ci_word.specs.Numbers.{count_below};
ghost use Rattle.ci_cut.specs.FlowGraph.{node_at};
ghost use Rattle.ci_cut.specs.Gain as terms;
ghost use Rattle.ci_cut.specs.Best.{IsBest, HasNoCut};
ghost use Rattle.ci_cut.specs.private.Tried.{IsBetterFrom};

use crate::graph::{Graph, Limits};
use crate::incumbent::Incumbent;
use ci_word::Row;

/// The best cut of a graph of at most twelve eligible nodes, or `None` where no set that fits has a positive gain.
///
/// Among equal gains it is the set that comes first when sets are compared from the last node to the first, with "in"
/// before "out". It tries every set of eligible nodes, so its time doubles with each of them.
pub fn best_of_all(graph: &Graph, limits: &Limits) -> Option<Row>
    requires { count_below (length graph.now.nodes) (λ k. (node_at graph.now k).eligible) ≤ 12 }
    ensures { MatchOption result (HasNoCut graph.now limits.now)
        (λ cut. IsBest graph.now limits.now (set.contains cut)) }
{
    let none = Incumbent { cut: None, gain: 0 };
    try_below(graph, limits, graph.nodes().len(), Row::empty(), none).cut
}

/// Tries the sets that differ from `cut` in nodes below `undecided` alone, those first that take the later nodes in.
fn try_below(
    graph: &Graph,
    limits: &Limits,
    undecided: usize,
    cut: Row,
    reached: Incumbent,
) -> Incumbent
    requires are_nodes { undecided ≤ length graph.now.nodes }
    requires decided { (k : ℕ) → IsTrue (set.contains cut k) → (undecided ≤ k) × (k < length graph.now.nodes) }
    ensures { IsBetterFrom (terms.Fits graph.now limits.now) (terms.gain graph.now) undecided (set.contains cut)
        reached result }
{
    if undecided == 0 {
        return reached.improved(graph, limits, &cut);
    }
    let node = undecided - 1;
    if !graph.nodes()[node].eligible {
        return try_below(graph, limits, node, cut, reached);
    }
    let mut with_node = cut;
    with_node.insert(node as u8);
    let reached = try_below(graph, limits, node, with_node, reached);
    try_below(graph, limits, node, cut, reached)
}
