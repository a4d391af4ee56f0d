//! The terms of a prefix, one decision after the other.
//!
//! A recursion over prefixes holds the terms in the frame of a call that takes a node in, and writes over them where
//! it then leaves the node out, so that no decision is taken back, and no memory is taken. The frames are at most one
//! more than there are nodes.
ghost use Rattle.std.specs.Prelude.{◌≡◌, ◌↔◌, ℕ, suc, ◌<◌, ◌+◌, ◌≤◌, true, false, List, [], ◌∷◌, length, IsTrue};
ghost use Rattle.std.specs.Prelude.{MatchOption};
ghost use Rattle.std.specs.Prelude.{slice_index};
ghost use Rattle.std.specs.FinSet as set;
ghost use Rattle.ci_cut.specs.FlowGraph.{FlowGraph};
ghost use Rattle.ci_cut.specs.Walks.{IsConvex};
ghost use Rattle.ci_cut.specs.Ports as counts;
ghost use Rattle.ci_cut.specs.Gain as gains;
ghost use Rattle.ci_cut.specs.Prefixes as prefixes;
ghost use Rattle.ci_cut.specs.Representation.{row_at, AreRowsOf, IsLastBelow, IsDelayTo, HasWayBack, HasReaderOutside};
ghost use Rattle.ci_cut.specs.Representation.{bound_by, Represents, RepresentsSome, RepresentsWhole, AreKeptFrom};

use crate::graph::{Graph, Limits, Source};
use crate::graph_rows::{GraphRows, eligible_nodes};
use crate::ports::{Ports, SourceSet};
use crate::timing::in_cycles;
use crate::value::{saved_cycles, software};
use ci_word::Row;

/// At each member, the greatest sum of delays along a chain of members that ends there.
pub type Delays = [u32; 256];

/// The terms of a prefix.
#[derive(Clone, Copy, Drop)]
pub struct PrefixTerms {
    /// The nodes taken in.
    pub taken: Row,
    /// The eligible nodes from this number on are decided, and those below are undecided.
    pub place: usize,
    /// The nodes from which a walk leads to a node taken in.
    pub reaching: Row,
    /// What the nodes taken in read.
    pub read: SourceSet,
    /// Whether the nodes taken in are convex.
    pub convex: bool,
    /// How many outputs the nodes taken in have.
    pub outputs: u32,
    /// How many inputs are settled.
    pub settled: u32,
    /// The greatest sum of delays along a chain of nodes taken in.
    pub longest: u32,
    /// The latencies of the nodes that may be members, together.
    pub software: u32,
    /// How many nodes may be members.
    pub size: u32,
    /// What a set that goes on from the prefix gains at most.
    pub bound: i64,
}

impl PrefixTerms {
    /// No decision yet.
    pub fn none(graph: &Graph) -> PrefixTerms
        ensures { (delays : List ℕ) → Represents graph.now [] result delays }
    {
        let eligible = eligible_nodes(graph);
        let software = software(graph.nodes(), &eligible);
        let size = eligible.count();
        let none = Ports {
            inputs: 0,
            outputs: 0,
        };
        PrefixTerms {
            taken: Row::empty(),
            place: graph.nodes().len(),
            reaching: Row::empty(),
            read: SourceSet::empty(),
            convex: true,
            outputs: 0,
            settled: 0,
            longest: 0,
            software,
            size,
            bound: bound_of(graph, software, 0, &none, size),
        }
    }

    /// The node that is decided next, or `None` where all are decided.
    pub fn next(&self, graph: &Graph, rows: &GraphRows) -> Option<u8>
        requires rows { AreRowsOf graph.now rows.now }
        requires within { self.now.place ≤ length graph.now.nodes }
        ensures { IsLastBelow graph.now self.now.place result }
    {
        // Its contract tells that there are no more nodes than rows.
        let _nodes = graph.nodes();
        rows.last_below[self.place]
    }

    /// The next node is taken in.
    pub fn take_in(
        &self,
        graph: &Graph,
        rows: &GraphRows,
        delays: &mut Delays,
        node: u8,
    ) -> PrefixTerms
        requires rows { AreRowsOf graph.now rows.now }
        requires next { (prefix : prefixes.Prefix) × Represents graph.now prefix self.now delays.old
            × IsTrue (prefixes.is_next graph.now prefix node) }
        ensures place { result.place ≡ node }
        ensures represents { (prefix : prefixes.Prefix) → Represents graph.now prefix self.now delays.old
            → IsTrue (prefixes.is_next graph.now prefix node)
            → Represents graph.now (true ∷ prefix) result delays.new }
        ensures kept { AreKeptFrom (suc node) delays.old delays.new }
    {
        let here = &graph.nodes()[node as usize];
        let delay = self.delay_to(rows, delays, node, here.delay);
        let longest = self.longest.max(delay);
        let mut read = self.read;
        let ports = Ports {
            inputs: self.settled + read.extend_settled(graph, here.sources.as_slice()),
            outputs: self.outputs_with(graph, rows, node),
        };
        let mut taken = self.taken;
        taken.insert(node);
        delays[node as usize] = delay;
        PrefixTerms {
            taken,
            place: node as usize,
            reaching: self.reaching.union(&rows.ancestors[node as usize]),
            read,
            convex: self.convex_with(rows, node),
            outputs: ports.outputs,
            settled: ports.inputs,
            longest,
            software: self.software,
            size: self.size,
            bound: bound_of(graph, self.software, longest, &ports, self.size),
        }
    }

    /// The next node is left out.
    pub fn leave_out(&mut self, graph: &Graph, node: u8)
        requires next { (prefix : prefixes.Prefix) × (delays : List ℕ) × Represents graph.now prefix self.old delays
            × IsTrue (prefixes.is_next graph.now prefix node) }
        ensures place { self.new.place ≡ node }
        ensures represents { (prefix : prefixes.Prefix) (delays : List ℕ) → Represents graph.now prefix self.old delays
            → IsTrue (prefixes.is_next graph.now prefix node)
            → Represents graph.now (false ∷ prefix) self.new delays }
    {
        let read = self.read.has(&Source::Made(node));
        let latency = graph.nodes()[node as usize].latency;
        self.place = node as usize;
        self.settled += u32::from(read);
        self.software -= latency;
        self.size -= 1;
        self.bound = self.bound_left(graph, latency);
    }

    /// The bound where the other terms are already those without a node of this latency, and it is still that with the
    /// node.
    fn bound_left(&self, graph: &Graph, latency: u32) -> i64
        requires software { self.now.software + latency ≤ 256000 }
        requires outputs { self.now.outputs ≤ 256 }
        requires size { self.now.size + 1 ≤ 256 }
        requires before { (settled : ℕ) × (settled ≤ self.now.settled) × (self.now.bound ≡ bound_by graph.now
            (self.now.software + latency) self.now.longest settled self.now.outputs (self.now.size + 1)) }
        ensures { result ≡ bound_by graph.now self.now.software self.now.longest self.now.settled self.now.outputs
            self.now.size }
    {
        if self.settled > 3 {
            return bound_of(graph, self.software, self.longest, &self.ports(), self.size);
        }
        // These tell how great the numbers of the bound may be.
        let _read = graph.read();
        let _longest = self.longest;
        self.bound - (i64::from(latency) - i64::from(graph.pad()))
    }

    /// How many outputs there are once the next node is taken in.
    pub fn outputs_with(&self, graph: &Graph, rows: &GraphRows, node: u8) -> u32
        requires rows { AreRowsOf graph.now rows.now }
        requires next { (prefix : prefixes.Prefix) × (delays : List ℕ) × Represents graph.now prefix self.now delays
            × IsTrue (prefixes.is_next graph.now prefix node) }
        ensures { (prefix : prefixes.Prefix) (delays : List ℕ) → Represents graph.now prefix self.now delays
            → IsTrue (prefixes.is_next graph.now prefix node)
            → result ≡ counts.outputs graph.now (prefixes.taken graph.now (true ∷ prefix)) }
    {
        let here = &graph.nodes()[node as usize];
        self.outputs + u32::from(here.live | self.is_read_outside(rows, node))
    }

    /// Whether the nodes taken in are convex once the next node is one of them.
    pub fn convex_with(&self, rows: &GraphRows, node: u8) -> bool
        ensures { (graph : FlowGraph) (prefix : prefixes.Prefix) (delays : List ℕ) → AreRowsOf graph rows.now
            → Represents graph prefix self.now delays → IsTrue (prefixes.is_next graph prefix node)
            → IsTrue result ↔ IsConvex graph (prefixes.taken graph (true ∷ prefix)) }
    {
        self.convex & !self.breaks_convexity(rows, node)
    }

    /// Whether the node has an arc into one that is not taken in and from which a walk leads to one that is.
    fn breaks_convexity(&self, rows: &GraphRows, node: u8) -> bool
        ensures { IsTrue result ↔ HasWayBack (set.contains (row_at rows.now.successors node))
            (set.contains self.now.taken) (set.contains self.now.reaching) }
    {
        rows.successors[node as usize]
            .minus(&self.taken)
            .meets(&self.reaching)
    }

    /// Whether some node that is not taken in reads the node's value.
    fn is_read_outside(&self, rows: &GraphRows, node: u8) -> bool
        ensures { IsTrue result
            ↔ HasReaderOutside (set.contains (row_at rows.now.readers node)) (set.contains self.now.taken) }
    {
        let readers = &rows.readers[node as usize];
        readers.minus(&self.taken).meets(readers)
    }

    /// The greatest sum of delays along a chain that ends at the node, which has this delay, once it is taken in.
    fn delay_to(&self, rows: &GraphRows, delays: &Delays, node: u8, own: u32) -> u32
        requires small { (k : ℕ) → IsTrue (set.contains self.now.taken k) → slice_index delays.now k ≤ 25600000 }
        requires own { own ≤ 100000 }
        ensures { IsDelayTo (set.contains (row_at rows.now.readers node)) (set.contains self.now.taken) delays.now own
            result }
    {
        let outside = rows.readers[node as usize].minus(&self.taken);
        let mut readers = rows.readers[node as usize].minus(&outside);
        let mut longest = 0;
        while let Some(reader) = readers.greatest() {
            longest = longest.max(delays[reader as usize]);
            readers.remove(reader);
        }
        longest + own
    }

    /// What a set that goes on from the prefix gains at most.
    pub fn bound(&self, graph: &Graph) -> i64
        requires { RepresentsSome graph.now self.now }
        ensures { (prefix : prefixes.Prefix) (delays : List ℕ) → Represents graph.now prefix self.now delays
            → result ≡ prefixes.bound graph.now prefix }
    {
        self.bound
    }

    /// The outputs, and the inputs that are settled.
    fn ports(&self) -> Ports
        ensures inputs { result.inputs ≡ self.now.settled }
        ensures outputs { result.outputs ≡ self.now.outputs }
    {
        Ports {
            inputs: self.settled,
            outputs: self.outputs,
        }
    }

    /// What the set that is taken in gains, if it fits under the limits.
    ///
    /// All nodes have to be decided.
    pub fn fitting_gain(&self, graph: &Graph, limits: &Limits) -> Option<i64>
        requires { RepresentsWhole graph.now self.now }
        ensures { MatchOption result (¬ gains.Fits graph.now limits.now (set.contains self.now.taken))
            (λ gained. gains.Fits graph.now limits.now (set.contains self.now.taken)
            × (gained ≡ gains.gain graph.now (set.contains self.now.taken))) }
    {
        if self.convex && self.ports().are_within(limits, self.size) {
            Some(self.bound(graph))
        } else {
            None
        }
    }
}

/// What sets gain at most by a software latency, the greatest sum of delays, the ports and a size.
// Out of line: few prefixes need it, and what tells the bound of the others by the one before stays short.
#[inline(never)]
fn bound_of(graph: &Graph, software: u32, longest: u32, ports: &Ports, size: u32) -> i64
    requires software { software ≤ 256000 }
    requires outputs { ports.now.outputs ≤ 256 }
    requires size { size ≤ 256 }
    ensures { result ≡ bound_by graph.now software longest ports.now.inputs ports.now.outputs size }
{
    saved_cycles(
        graph,
        software,
        in_cycles(longest),
        ports.further_words(),
        size,
    )
}
