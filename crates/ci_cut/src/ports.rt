//! The inputs and outputs of a set of nodes.
ghost use Rattle.std.specs.Prelude.{◌≡◌, ◌↔◌, ℕ, ◌+◌, ◌<◌, ◌≤◌, ◌||◌, Bool, false, if◌then◌else◌, length, IsTrue};
ghost use Rattle.std.specs.FinSet as set;
ghost use Rattle.std.specs.List.{list_any};
ghost use Rattle.ci_cut.specs.declared.graph.Source.{Source};
ghost use Rattle.ci_cut.specs.declared.graph.Source.TheVariants.{Made};
ghost use Rattle.ci_cut.specs.Ports as terms;
ghost use Rattle.ci_cut.specs.FlowGraph.{is_source};
ghost use Rattle.ci_cut.specs.GraphRules.{AreNodes};
ghost use Rattle.ci_cut.specs.Gain.{further_words_of};
ghost use Rattle.ci_cut.specs.Prefixes.{is_eligible};
ghost use Rattle.ci_cut.specs.private.SourceSets.{holds, is_reader, is_read_below, AreSettledBy, count_held};

use crate::graph::{Graph, Limits, Source};
use ci_word::Row;

/// How many inputs and outputs a set of nodes has.
#[derive(Drop)]
pub struct Ports {
    pub inputs: u32,
    pub outputs: u32,
}

impl Ports {
    /// The words that a use takes beside its first.
    pub fn further_words(&self) -> u32
        ensures { result ≡ further_words_of self.now.inputs self.now.outputs }
    {
        self.outputs.saturating_sub(1) + u32::from(self.inputs > 3)
    }

    /// Whether there are no more inputs and outputs than the limits, an output, and in a set of this size a place for
    /// each word of a use.
    pub fn are_within(&self, limits: &Limits, size: u32) -> bool
        ensures { IsTrue result
            ↔ (self.now.inputs ≤ limits.now.inputs) × (1 ≤ self.now.outputs) × (self.now.outputs ≤ limits.now.outputs)
            × (1 + further_words_of self.now.inputs self.now.outputs ≤ size) }
    {
        self.inputs <= u32::from(limits.inputs)
            && 1 <= self.outputs
            && self.outputs <= u32::from(limits.outputs)
            && self.further_words() < size
    }
}

/// The ports of a set of nodes.
///
/// Each number of the set has to be a node.
pub fn ports_of(graph: &Graph, cut: &Row) -> Ports
    requires { AreNodes graph.now cut.now }
    ensures inputs { result.inputs ≡ terms.inputs graph.now (set.contains cut.now) }
    ensures outputs { result.outputs ≡ terms.outputs graph.now (set.contains cut.now) }
{
    Ports {
        inputs: inputs(graph, cut),
        outputs: outputs(graph, cut),
    }
}

/// A set of sources.
#[derive(Clone, Copy, Drop)]
pub struct SourceSet {
    /// Registers at entry.
    registers: Row,
    /// Nodes.
    nodes: Row,
}

impl SourceSet {
    /// The set without a source.
    pub(crate) fn empty() -> SourceSet
        ensures { (source : Source) → holds result source ≡ false }
    {
        SourceSet {
            registers: Row::empty(),
            nodes: Row::empty(),
        }
    }

    /// Puts a source in.
    fn insert(&mut self, source: Source)
        ensures { (other : Source) → holds self.new other ≡ (is_source other source || holds self.old other) }
    {
        match source {
            Source::Entry(register) => self.registers.insert(register),
            Source::Made(node) => self.nodes.insert(node),
        }
    }

    /// Whether a source is in.
    pub(crate) fn has(&self, source: &Source) -> bool
        ensures { result ≡ holds self.now source.now }
    {
        match source {
            Source::Entry(register) => self.registers.has(*register),
            Source::Made(node) => self.nodes.has(*node),
        }
    }

    /// Puts a source in, and tells whether it is new and no node that may be a member.
    ///
    /// A node has to be one of the graph.
    fn insert_settled(&mut self, graph: &Graph, source: Source) -> bool
        requires { (k : ℕ) → source ≡ Made k → k < length graph.now.nodes }
        ensures holds { (other : Source) → holds self.new other ≡ (is_source other source || holds self.old other) }
        ensures counted { (outside : Source → Bool) → outside source ≡ terms.is_outside (is_eligible graph.now) source
            → count_held graph.now outside self.new
            ≡ count_held graph.now outside self.old + (if result then 1 else 0) }
    {
        let settled = !self.has(&source) && is_settled(graph, &source);
        self.insert(source);
        self.registers.numbers_are_below_256();
        settled
    }

    /// Puts sources in, and tells how many of them are new and no node that may be a member.
    ///
    /// The nodes among them have to be nodes of the graph.
    pub(crate) fn extend_settled(&mut self, graph: &Graph, sources: &[Source]) -> u32
        requires few { length graph.now.nodes ≤ 256 }
        requires nodes { (k : ℕ) → IsTrue (list_any (is_source (Made k)) sources.now) → k < length graph.now.nodes }
        ensures holds { (other : Source) →
            holds self.new other ≡ (holds self.old other || list_any (is_source other) sources.now) }
        ensures counted { (outside : Source → Bool) → AreSettledBy graph.now outside sources.now
            → count_held graph.now outside self.new ≡ count_held graph.now outside self.old + result }
        ensures few { result ≤ 512 }
    {
        let mut settled = 0;
        for source in sources {
            settled += u32::from(self.insert_settled(graph, *source));
        }
        settled
    }

    /// Puts sources in.
    fn extend(&mut self, sources: &[Source])
        ensures { (other : Source) →
            holds self.new other ≡ (holds self.old other || list_any (is_source other) sources.now) }
    {
        for source in sources {
            self.insert(*source);
        }
    }
}

/// Whether the source is no node that may be a member.
fn is_settled(graph: &Graph, source: &Source) -> bool
    requires { (k : ℕ) → source.now ≡ Made k → k < length graph.now.nodes }
    ensures { result ≡ terms.is_outside (is_eligible graph.now) source.now }
{
    match source {
        Source::Entry(_) => true,
        Source::Made(node) => !graph.nodes()[*node as usize].eligible,
    }
}

/// The sources that the members of a set read, or those that the other nodes read.
fn read_by(graph: &Graph, cut: &Row, members: bool) -> SourceSet
    ensures { let nodes = length graph.now.nodes in (source : Source) →
        holds result source ≡ is_read_below nodes graph.now (is_reader (set.contains cut.now) members) source }
{
    let mut read = SourceSet::empty();
    for (k, node) in graph.nodes().iter().enumerate() {
        if cut.has(k as u8) == members {
            read.extend(node.sources.as_slice());
        }
    }
    read
}

/// How many distinct sources outside the set its members read: nodes, and registers at entry.
///
/// Each number of the set has to be a node.
pub fn inputs(graph: &Graph, cut: &Row) -> u32
    requires { AreNodes graph.now cut.now }
    ensures { result ≡ terms.inputs graph.now (set.contains cut.now) }
{
    let read = read_by(graph, cut, true);
    // Its contract tells that nodes read nodes alone.
    let _nodes = graph.nodes();
    read.registers.count() + read.nodes.minus(cut).count()
}

/// How many members have a value that a node outside reads or that is live after the block.
///
/// Each number of the set has to be a node.
pub fn outputs(graph: &Graph, cut: &Row) -> u32
    requires { AreNodes graph.now cut.now }
    ensures { result ≡ terms.outputs graph.now (set.contains cut.now) }
{
    let read = read_by(graph, cut, false);
    let mut count = 0;
    for (k, node) in graph.nodes().iter().enumerate() {
        let wanted = node.live || read.nodes.has(k as u8);
        if wanted && cut.has(k as u8) {
            count += 1;
        }
    }
    count
}
