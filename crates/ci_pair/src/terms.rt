//! The terms of a prefix of pairs, one label after the other.
//!
//! Of each of both sets the terms are those of a prefix that leaves out what is labelled otherwise.
ghost use Rattle.std.specs.Prelude.{◌≡◌, ◌↔◌, suc, ◌≤◌, [], ◌∷◌, length, IsTrue, pos, ◌-ℤ◌};
ghost use Rattle.ci_cut.specs.FlowGraph.{FlowGraph, node_at};
ghost use Rattle.ci_cut.specs.Prefixes as cuts;
ghost use Rattle.ci_cut.specs.Representation.{AreRowsOf, IsLastBelow};
ghost use Rattle.ci_pair.specs.Pairs.{First, Second, Out};
ghost use Rattle.ci_pair.specs.Prefixes.{PairPrefix, choices, chosen, bound, IsMirrored, IsCrossing};
ghost use Rattle.ci_pair.specs.private.States.{Represents, RepresentsSome, AreKeptFrom};
ghost use Rattle.ci_pair.specs.PairSets.{sets};

use crate::pair::{Pair, has_greatest};
use ci_cut::{Delays, Graph, GraphRows, PrefixTerms};

/// At each member of either set, the greatest sum of delays along a chain of members that ends there.
#[derive(Clone, Copy, Drop)]
pub struct PairDelays {
    pub first: Delays,
    pub second: Delays,
}

/// The terms of a prefix of pairs.
#[derive(Clone, Copy, Drop)]
pub struct PairTerms {
    /// Those of the first set, in which the other decided nodes are left out.
    pub first: PrefixTerms,
    /// Those of the second set.
    pub second: PrefixTerms,
    /// What the undecided nodes add to the bounds of both sets.
    pub shared: i64,
}

impl PairTerms {
    /// No label yet.
    pub fn none(graph: &Graph) -> PairTerms
        ensures { (delays : PairDelays) → Represents graph.now [] result delays }
    {
        let first = PrefixTerms::none(graph);
        let second = first;
        let pads = u64::from(first.size) * u64::from(graph.pad());
        PairTerms {
            first,
            second,
            shared: i64::from(first.software) - pads as i64,
        }
    }

    /// What a pair that goes on from the prefix gains at most.
    pub fn bound(&self, graph: &Graph) -> i64
        requires { RepresentsSome graph.now self.now }
        ensures { (prefix : PairPrefix) (delays : PairDelays) → Represents graph.now prefix self.now delays
            → result ≡ bound graph.now prefix }
    {
        // These tell how great the numbers of the bounds may be.
        let _read = graph.read();
        let _pad = graph.pad();
        let _first = self.first.longest;
        let _second = self.second.longest;
        self.first.bound(graph) + self.second.bound(graph) - self.shared
    }

    /// What a pair that goes on from the prefix gains at most, less a cost.
    pub fn bound_less(&self, graph: &Graph, cost: u32) -> i64
        requires { RepresentsSome graph.now self.now }
        ensures { (prefix : PairPrefix) (delays : PairDelays) → Represents graph.now prefix self.now delays
            → result ≡ bound graph.now prefix -ℤ pos cost }
    {
        // These tell how great the numbers of the bound may be.
        let _read = graph.read();
        let _pad = graph.pad();
        let _first = self.first.longest;
        let _second = self.second.longest;
        self.bound(graph) - i64::from(cost)
    }

    /// Whether walks lead both ways between the sets.
    pub fn is_crossing(&self) -> bool
        ensures { (graph : FlowGraph) (prefix : PairPrefix) (delays : PairDelays)
            → Represents graph prefix self.now delays
            → IsTrue result ↔ IsCrossing graph prefix }
    {
        if !self.first.taken.meets(&self.second.reaching) {
            return false;
        }
        self.second.taken.meets(&self.first.reaching)
    }

    /// Whether the second set has the greatest node of both.
    pub fn is_mirrored(&self) -> bool
        ensures { (graph : FlowGraph) (prefix : PairPrefix) (delays : PairDelays)
            → Represents graph prefix self.now delays
            → IsTrue result ↔ IsMirrored graph prefix }
    {
        has_greatest(&self.second.taken, &self.first.taken)
    }

    /// The sets so far.
    pub fn chosen(&self) -> Pair
        ensures { (graph : FlowGraph) (prefix : PairPrefix) (delays : PairDelays)
            → Represents graph prefix self.now delays
            → sets result ≡ chosen graph prefix }
    {
        Pair {
            first: self.first.taken,
            second: self.second.taken,
        }
    }

    /// The node that is labelled next, or `None` where all are labelled.
    pub fn next(&self, graph: &Graph, rows: &GraphRows) -> Option<u8>
        requires rows { AreRowsOf graph.now rows.now }
        requires within { self.now.first.place ≤ length graph.now.nodes }
        ensures { IsLastBelow graph.now self.now.first.place result }
    {
        self.first.next(graph, rows)
    }

    /// The next node is in the first set.
    pub fn put_in_first(
        &mut self,
        graph: &Graph,
        rows: &GraphRows,
        delays: &mut PairDelays,
        node: u8,
    )
        requires rows { AreRowsOf graph.now rows.now }
        requires next { (prefix : PairPrefix) × Represents graph.now prefix self.old delays.old
            × IsTrue (cuts.is_next graph.now (choices First prefix) node) }
        ensures place { self.new.first.place ≡ node }
        ensures represents { (prefix : PairPrefix) → Represents graph.now prefix self.old delays.old
            → IsTrue (cuts.is_next graph.now (choices First prefix) node)
            → Represents graph.now (First ∷ prefix) self.new delays.new }
        ensures kept { AreKeptFrom (suc node) delays.old delays.new }
    {
        self.shared = self.shared_without(graph, node);
        self.first = self.first.take_in(graph, rows, &mut delays.first, node);
        self.second.leave_out(graph, node);
    }

    /// The next node is in the second set.
    pub fn put_in_second(
        &mut self,
        graph: &Graph,
        rows: &GraphRows,
        delays: &mut PairDelays,
        node: u8,
    )
        requires rows { AreRowsOf graph.now rows.now }
        requires next { (prefix : PairPrefix) × Represents graph.now prefix self.old delays.old
            × IsTrue (cuts.is_next graph.now (choices First prefix) node) }
        ensures place { self.new.first.place ≡ node }
        ensures represents { (prefix : PairPrefix) → Represents graph.now prefix self.old delays.old
            → IsTrue (cuts.is_next graph.now (choices First prefix) node)
            → Represents graph.now (Second ∷ prefix) self.new delays.new }
        ensures kept { AreKeptFrom (suc node) delays.old delays.new }
    {
        self.shared = self.shared_without(graph, node);
        self.second = self.second.take_in(graph, rows, &mut delays.second, node);
        self.first.leave_out(graph, node);
    }

    /// The next node is in none.
    pub fn leave_out(&mut self, graph: &Graph, node: u8)
        requires next { (prefix : PairPrefix) × (delays : PairDelays) × Represents graph.now prefix self.old delays
            × IsTrue (cuts.is_next graph.now (choices First prefix) node) }
        ensures place { self.new.first.place ≡ node }
        ensures represents { (prefix : PairPrefix) (delays : PairDelays) → Represents graph.now prefix self.old delays
            → IsTrue (cuts.is_next graph.now (choices First prefix) node)
            → Represents graph.now (Out ∷ prefix) self.new delays }
    {
        self.shared = self.shared_without(graph, node);
        self.first.leave_out(graph, node);
        self.second.leave_out(graph, node);
    }

    /// What the undecided nodes but the next one add to the bounds of both sets.
    fn shared_without(&self, graph: &Graph, node: u8) -> i64
        requires next { (prefix : PairPrefix) × (delays : PairDelays) × Represents graph.now prefix self.now delays
            × IsTrue (cuts.is_next graph.now (choices First prefix) node) }
        ensures { result ≡ self.now.shared -ℤ (pos (node_at graph.now node).latency -ℤ pos graph.now.pad) }
    {
        let latency = graph.nodes()[node as usize].latency;
        self.shared - (i64::from(latency) - i64::from(graph.pad()))
    }
}
