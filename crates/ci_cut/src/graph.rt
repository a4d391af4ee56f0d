//! The data-flow graph of a basic block, and the limits on a cut's ports.
ghost use Rattle.std.specs.Prelude.{◌≡◌, ℕ, ◌≤◌, ◌<◌, [], ◌∷◌, ◌++◌, OnOk, OnErr, IfOk, length};
ghost use Rattle.smallvec.specs.SmallVec.{small_vec_len};

use ci_word::Row;
use smallvec::SmallVec;
use std::alloc::{AllocError, Global};
use std::marker::Model;

/// Where an operand's value comes from.
#[derive(Clone, Copy, Debug, PartialEq, Eq)]
pub enum Source {
    /// The register of this number, as it is when the block is entered.
    Entry(u8),
    /// The node of this number, which lies earlier in the block.
    Made(u8),
}

/// It only fills the unused places of a small vector.
impl Default for Source {
    fn default() -> Source {
        Source::Entry(0)
    }
}

/// The sources of a node's operands, in the order of the operands. Up to three take no memory.
#[derive(Drop)]
pub struct Sources {
    items: SmallVec<Source, 3>,
}

impl Model for Sources {
    ghost use Rattle.std.specs.Prelude.{List};
    ghost use Rattle.ci_cut.specs.declared.graph.Source.{Source};

    ghost Value = { List Source };

    ghost view = { λ sources. sources.items.items };
}

impl Sources {
    /// No source.
    pub fn new(alloc: Global) -> Sources
        ensures { result ≡ [] }
    {
        Sources {
            items: SmallVec::new(alloc),
        }
    }

    /// Puts a source at the end. An Err is out of memory, and nothing changes.
    pub fn push(&mut self, source: Source) -> Result<(), AllocError>
        ensures ok { OnOk result (self.new ≡ self.old ++ source ∷ []) }
        ensures err { OnErr result (self.new ≡ self.old) }
    {
        self.items.push(source)?;
        Ok(())
    }

    /// The sources in order.
    pub fn as_slice(&self) -> &[Source]
        ensures { result.now ≡ self.now }
    {
        self.items.as_slice()
    }
}

/// An instruction of a block, as a node of its data-flow graph.
#[derive(Drop)]
pub struct Node {
    /// Whether the node may be a member of a cut.
    pub eligible: bool,
    /// Software latency, in cycles.
    pub latency: u32,
    /// Delay in hardware, in thousandths of a cycle.
    pub delay: u32,
    /// Where the operands' values come from.
    pub sources: Sources,
    /// The nodes with an arc into this one: those that have to stay before it.
    pub before: Row,
    /// Whether the value is live after the block.
    pub live: bool,
}

/// The limits on the ports of a cut.
#[derive(Clone, Copy, Debug, PartialEq, Eq)]
pub struct Limits {
    /// The greatest number of inputs, from 1 to 5.
    pub inputs: u8,
    /// The greatest number of outputs, from 1 to 3.
    pub outputs: u8,
    ghost inputs_in_range: { (1 ≤ inputs) × (inputs ≤ 5) },
    ghost outputs_in_range: { (1 ≤ outputs) × (outputs ≤ 3) },
}

/// The data-flow graph of a basic block.
#[derive(Drop)]
pub struct Graph {
    nodes: Vec<Node>,
    read: u32,
    pad: u32,
}

impl Model for Graph {
    ghost use Rattle.ci_cut.specs.FlowGraph.{FlowGraph};
    ghost use Rattle.ci_cut.specs.GraphRules.{IsFlowGraph};
    ghost use Rattle.ci_cut.specs.private.Stored.{coded_graph};

    ghost Value = { FlowGraph };

    ghost coded = { coded_graph };

    ghost view = { λ graph. record { nodes = graph.nodes.items; read = graph.read; pad = graph.pad } };

    ghost invariant = { λ graph.
        IsFlowGraph (record { nodes = graph.nodes.items; read = graph.read; pad = graph.pad }) };
}

impl Graph {
    ghost use Rattle.ci_cut.specs.GraphRules.{IsFlowGraph};

    /// The graph of these nodes. `read` and `pad` are charges in cycles: for each further word of a use, which reads a
    /// result after the first or passes operands, and for a no-op.
    ///
    /// It has at most 256 nodes. Arcs and sources come from earlier nodes. Latencies are at most 1000, and of
    /// eligible nodes at least 1; delays are at most 100,000. `pad` is at most `read`, and at most the latency of
    /// each eligible node.
    pub fn new(nodes: Vec<Node>, read: u32, pad: u32) -> Graph
        requires { IsFlowGraph (record { nodes = nodes.items; read = read; pad = pad }) }
        ensures { result ≡ record { nodes = nodes.items; read = read; pad = pad } }
    {
        Graph { nodes, read, pad }
    }

    /// The nodes, in the order of the block.
    pub fn nodes(&self) -> &[Node]
        ensures value { result.now ≡ self.now.nodes }
        ensures kept { IsFlowGraph self.now }
    {
        &self.nodes
    }

    /// The cycles of a further word of a use, which reads a result after the first or passes operands.
    pub fn read(&self) -> u32
        ensures { result ≡ self.now.read }
    {
        self.read
    }

    /// The cycles of a no-op.
    pub fn pad(&self) -> u32
        ensures { result ≡ self.now.pad }
    {
        self.pad
    }
}
