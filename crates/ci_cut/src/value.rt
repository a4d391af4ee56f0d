//! What a set of nodes gains as an instruction, and whether it fits.
ghost use Rattle.std.specs.Prelude.{◌≡◌, ◌↔◌, ℕ, ◌+◌, ◌≤◌, ◌≤ℤ◌, ◌<ℤ◌, IsTrue, IsSome, IfSome, MatchOption, length};
ghost use Rattle.std.specs.FinSet as set;
ghost use Rattle.ci_word.specs.Numbers.{sum_below};
ghost use Rattle.ci_cut.specs.Gain as terms;
ghost use Rattle.ci_cut.specs.Ports as counts;
ghost use Rattle.ci_cut.specs.FlowGraph.{node_in, node_at};
ghost use Rattle.ci_cut.specs.GraphRules.{AreNodes};

use crate::convexity::is_convex;
use crate::graph::{Graph, Limits, Node};
use crate::ports::{Ports, ports_of};
use crate::timing::hardware;
use ci_word::Row;

/// The cycles that the set saves at each run of the block: its latencies, less its hardware time, less a read for each
/// further word of its use and a no-op for each other place that it leaves.
///
/// Each number of the set has to be a node.
pub fn gain(graph: &Graph, cut: &Row) -> i64
    requires { AreNodes graph.now cut.now }
    ensures { result ≡ terms.gain graph.now (set.contains cut.now) }
{
    gain_by_ports(graph, cut, &ports_of(graph, cut))
}

/// The same, where the ports are known.
fn gain_by_ports(graph: &Graph, cut: &Row, ports: &Ports) -> i64
    requires nodes { AreNodes graph.now cut.now }
    requires inputs { ports.now.inputs ≡ counts.inputs graph.now (set.contains cut.now) }
    requires outputs { ports.now.outputs ≡ counts.outputs graph.now (set.contains cut.now) }
    ensures { result ≡ terms.gain graph.now (set.contains cut.now) }
{
    saved_cycles(
        graph,
        software(graph.nodes(), cut),
        hardware(graph, cut),
        ports.further_words(),
        cut.count(),
    )
}

/// The saved cycles by a software latency, a hardware time, further words and a size.
pub(crate) fn saved_cycles(
    graph: &Graph,
    software: u32,
    hardware: u32,
    further: u32,
    size: u32,
) -> i64
    requires software { software ≤ 256000 }
    requires further { further ≤ 256 }
    requires size { size ≤ 256 }
    ensures { result ≡ terms.saved_cycles graph.now.read graph.now.pad software hardware further size }
{
    let saved = software as i64 - hardware as i64;
    let places = size as i64 - 1 - further as i64;
    saved - further as i64 * graph.read() as i64 - places * graph.pad() as i64
}

/// Whether the set may become an instruction under the limits: its members are eligible, it is convex, it has at most
/// as many inputs and outputs as the limits, an output, and a place for each word of its use.
///
/// Each number of the set has to be a node.
pub fn fits(graph: &Graph, limits: &Limits, cut: &Row) -> bool
    requires { AreNodes graph.now cut.now }
    ensures { IsTrue result ↔ terms.Fits graph.now limits.now (set.contains cut.now) }
{
    fitting_ports(graph, limits, cut).is_some()
}

/// The ports of the set, if it fits under the limits.
fn fitting_ports(graph: &Graph, limits: &Limits, cut: &Row) -> Option<Ports>
    requires { AreNodes graph.now cut.now }
    ensures fits { IsSome result ↔ terms.Fits graph.now limits.now (set.contains cut.now) }
    ensures inputs { IfSome result (λ ports. ports.inputs ≡ counts.inputs graph.now (set.contains cut.now)) }
    ensures outputs { IfSome result (λ ports. ports.outputs ≡ counts.outputs graph.now (set.contains cut.now)) }
{
    if !are_eligible(graph, cut) || !is_convex(graph, cut) {
        return None;
    }
    let ports = ports_of(graph, cut);
    if !ports.are_within(limits, cut.count()) {
        return None;
    }
    Some(ports)
}

/// What the set gains, if it fits under the limits.
///
/// Each number of the set has to be a node.
fn fitting_gain(graph: &Graph, limits: &Limits, cut: &Row) -> Option<i64>
    requires { AreNodes graph.now cut.now }
    ensures { MatchOption result (¬ terms.Fits graph.now limits.now (set.contains cut.now))
        (λ gained. terms.Fits graph.now limits.now (set.contains cut.now)
        × (gained ≡ terms.gain graph.now (set.contains cut.now))) }
{
    let ports = fitting_ports(graph, limits, cut)?;
    Some(gain_by_ports(graph, cut, &ports))
}

/// What the set gains, if it fits under the limits and gains more than `floor`.
///
/// Each number of the set has to be a node.
pub fn gain_above(graph: &Graph, limits: &Limits, cut: &Row, floor: i64) -> Option<i64>
    requires { AreNodes graph.now cut.now }
    ensures { MatchOption result
        (terms.Fits graph.now limits.now (set.contains cut.now)
        → terms.gain graph.now (set.contains cut.now) ≤ℤ floor)
        (λ gained. terms.Fits graph.now limits.now (set.contains cut.now)
        × (gained ≡ terms.gain graph.now (set.contains cut.now)) × (floor <ℤ gained)) }
{
    let gained = fitting_gain(graph, limits, cut)?;
    if gained > floor { Some(gained) } else { None }
}

/// The software latencies of the members together, in cycles.
pub(crate) fn software(nodes: &[Node], cut: &Row) -> u32
    requires few { length nodes.now ≤ 256 }
    requires latency_most { (k : ℕ) → (node_in nodes.now k).latency ≤ 1000 }
    ensures value { result ≡ sum_below (length nodes.now) (set.contains cut.now) (λ k. (node_in nodes.now k).latency) }
    ensures most { result ≤ 256000 }
{
    let mut sum = 0;
    for (k, node) in nodes.iter().enumerate() {
        if cut.has(k as u8) {
            sum += node.latency;
        }
    }
    sum
}

/// Whether each member is eligible.
fn are_eligible(graph: &Graph, cut: &Row) -> bool
    requires { AreNodes graph.now cut.now }
    ensures { IsTrue result
        ↔ ((k : ℕ) → IsTrue (set.contains cut.now k) → IsTrue (node_at graph.now k).eligible) }
{
    for (k, node) in graph.nodes().iter().enumerate() {
        if cut.has(k as u8) && !node.eligible {
            return false;
        }
    }
    true
}

/// Whether each number of the set is a node.
pub fn are_nodes(graph: &Graph, cut: &Row) -> bool
    ensures { IsTrue result ↔ AreNodes graph.now cut.now }
{
    cut.numbers_are_below_256();
    for k in graph.nodes().len()..256 {
        if cut.has(k as u8) {
            return false;
        }
    }
    true
}
