//! Graphs that are built by hand, with sets of their nodes, for the tests of cuts, of searches and of logs.
ghost use Rattle.std.specs.Prelude.{ℕ, ◌<◌, IsTrue, IfOk};
ghost use Rattle.std.specs.FinSet as set;
ghost use Rattle.ci_cut.specs.GraphRules.{IsFlowGraph};

use ci_cut::Source::{Entry, Made};
use ci_cut::{Graph, Limits, Node, Source, Sources, best_of_all};
use ci_word::Row;
use std::alloc::{AllocError, Global};
use std::process::Abort;

/// The charges of a read and of a filling word, in cycles.
#[derive(Clone, Copy)]
pub(crate) struct Charges {
    pub(crate) read: u32,
    pub(crate) pad: u32,
}

pub(crate) const DEFAULT: Charges = Charges { read: 1, pad: 0 };

/// A node, which comes after each node whose value it reads.
#[derive(Clone, Copy)]
pub(crate) struct Part<'a> {
    pub(crate) eligible: bool,
    pub(crate) operands: &'a [Source],
    /// Other nodes that it comes after.
    pub(crate) after: &'a [u8],
    pub(crate) latency: u32,
    /// Thousandths of a cycle.
    pub(crate) delay: u32,
    pub(crate) live: bool,
}

/// A sum of two registers that no one reads.
pub(crate) const SUM: Part<'static> = Part {
    eligible: true,
    operands: &[Entry(10), Entry(11)],
    after: &[],
    latency: 1,
    delay: 400,
    live: false,
};

/// add x5, x10, x11; add x6, x5, x12; add x7, x13, x14; add x8, x7, x15: x6 and x8 are live.
pub(crate) fn sums() -> &'static [Part<'static>] {
    &[
        SUM,
        Part {
            operands: &[Made(0), Entry(12)],
            live: true,
            ..SUM
        },
        Part {
            operands: &[Entry(13), Entry(14)],
            ..SUM
        },
        Part {
            operands: &[Made(2), Entry(15)],
            live: true,
            ..SUM
        },
    ]
}

/// The first two of them.
pub(crate) fn two_sums() -> &'static [Part<'static>] {
    &[
        SUM,
        Part {
            operands: &[Made(0), Entry(12)],
            live: true,
            ..SUM
        },
    ]
}

/// The set of these numbers.
pub(crate) fn row_of(numbers: &[u8]) -> Row {
    let mut row = Row::empty();
    for number in numbers {
        row.insert(*number);
    }
    row
}

/// The set of these numbers, each below `count`.
pub(crate) fn row_below(rt: &impl Abort, count: usize, numbers: &[u8]) -> Row
    ensures { (j : ℕ) → IsTrue (set.contains result j) → j < count }
{
    let mut row = Row::empty();
    for number in numbers {
        assert!(rt; (*number as usize) < count);
        row.insert(*number);
    }
    row
}

/// Puts a node at the end.
pub(crate) fn add(
    rt: &impl Abort,
    alloc: Global,
    charges: Charges,
    nodes: &mut Vec<Node>,
    part: Part<'_>,
) -> Result<(), AllocError>
    requires { IsFlowGraph (record { nodes = nodes.old.items; read = charges.read; pad = charges.pad }) }
    ensures { IfOk result
        (λ _. IsFlowGraph (record { nodes = nodes.new.items; read = charges.read; pad = charges.pad })) }
{
    let Part {
        eligible,
        operands,
        after,
        latency,
        delay,
        live,
    } = part;
    let count = nodes.len();
    assert!(rt; count < 256);
    assert!(rt; 1 <= latency);
    assert!(rt; charges.pad <= latency);
    assert!(rt; latency <= 1000);
    assert!(rt; delay <= 100000);
    let mut before = row_below(rt, count, after);
    let mut sources = Sources::new(alloc);
    for source in operands {
        if let Made(node) = source {
            assert!(rt; (*node as usize) < count);
            before.insert(*node);
        }
        sources.push(*source)?;
    }
    nodes.push(Node {
        eligible,
        latency,
        delay,
        sources,
        before,
        live,
    })?;
    Ok(())
}

/// The graph of these nodes under these charges.
pub(crate) fn graph_under(
    rt: &impl Abort,
    alloc: Global,
    charges: Charges,
    parts: &[Part<'_>],
) -> Result<Graph, AllocError> {
    assert!(rt; charges.pad <= charges.read);
    let mut nodes = Vec::new(alloc);
    for part in parts {
        add(rt, alloc, charges, &mut nodes, *part)?;
    }
    Ok(Graph::new(nodes, charges.read, charges.pad))
}

/// The graph of these nodes, where a read costs 1 cycle and a filling word nothing.
pub(crate) fn graph_of(
    rt: &impl Abort,
    alloc: Global,
    parts: &[Part<'_>],
) -> Result<Graph, AllocError> {
    graph_under(rt, alloc, DEFAULT, parts)
}

/// The best cut of a small graph, with all sets tried.
pub(crate) fn best_in(rt: &impl Abort, graph: &Graph, limits: &Limits) -> Option<Row> {
    assert!(rt; graph.nodes().len() <= 12);
    best_of_all(graph, limits)
}

pub(crate) const ONE_OUTPUT: Limits = Limits {
    inputs: 3,
    outputs: 1,
};
