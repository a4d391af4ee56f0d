//! Convex sets of nodes.
ghost use Rattle.std.specs.Prelude.{◌↔◌, IsTrue};
ghost use Rattle.std.specs.FinSet as set;
ghost use Rattle.ci_cut.specs.Walks.{IsConvex};
ghost use Rattle.ci_cut.specs.GraphRules.{AreNodes};

use crate::graph::Graph;
use ci_word::Row;

/// Whether no walk along arcs leads from a member through a node outside to a member.
///
/// Each number of the set has to be a node.
pub fn is_convex(graph: &Graph, cut: &Row) -> bool
    requires { AreNodes graph.now cut.now }
    ensures { IsTrue result ↔ IsConvex graph.now (set.contains cut.now) }
{
    // Nodes outside to which a walk leads from a member.
    let mut passed = Row::empty();
    for (k, node) in graph.nodes().iter().enumerate() {
        let before = &node.before;
        if cut.has(k as u8) {
            if before.meets(&passed) {
                return false;
            }
        } else if before.meets(cut) || before.meets(&passed) {
            passed.insert(k as u8);
        }
    }
    true
}
