//! The nodes of a block's graph.
ghost use Rattle.std.specs.Prelude.{◌≡◌, ◌≤◌, ◌<◌, length, IfOk};
ghost use Rattle.ci_dfg.specs.BlockGraph as terms;
ghost use Rattle.ci_dfg.specs.BlockGraph.{graph_of};
ghost use Rattle.ci_dfg.specs.Bundles.{AreBundled};

use crate::arcs::nodes_before;
use crate::operand_sources::sources;
use ci_cut::{Graph, Node};
use ci_isa::{Insn, class, destination, is_eligible, writes_register};
use ci_lat::Table;
use ci_word::Row;
use std::alloc::{AllocError, Global};

/// The graph of a block of these instructions, at most 256, after which the registers `live_out` are live. Latencies
/// and delays are those of the table. Bundles are whole: each `cput` stands directly before a unit word, each `cread`
/// of index 0 directly behind one, and each `cread` of index 1 directly behind a `cread` of index 0. Each instruction
/// that ends a block has arcs from all earlier ones.
///
/// An Err is out of memory.
#[tactic(auto, using(crate::proofs::BlockIsGraph::so_far))]
pub fn graph(
    alloc: Global,
    insns: &[Insn],
    live_out: Row,
    table: &Table,
) -> Result<Graph, AllocError>
    requires few { length insns.now ≤ 256 }
    requires bundled { AreBundled insns.now }
    ensures { IfOk result (λ graph. graph ≡ graph_of insns.now live_out table.now) }
{
    let mut nodes = Vec::new(alloc);
    for k in 0..insns.len() {
        nodes.push(node(alloc, insns, k, live_out, table)?)?;
    }
    Ok(Graph::new(nodes, table.read(), table.pad()))
}

/// Instruction `k` as a node.
fn node(
    alloc: Global,
    insns: &[Insn],
    k: usize,
    live_out: Row,
    table: &Table,
) -> Result<Node, AllocError>
    requires few { length insns.now ≤ 256 }
    requires there { k < length insns.now }
    ensures { IfOk result (λ node. node ≡ terms.node_of insns.now live_out table.now k) }
{
    let class = class(&insns[k]);
    let sources = sources(alloc, insns, k)?;
    let before = nodes_before(insns, k, sources.as_slice());
    Ok(Node {
        eligible: is_eligible(&insns[k]),
        latency: table.latency(class),
        delay: table.delay(class),
        sources,
        before,
        live: is_live(insns, k, live_out),
    })
}

/// Whether the value of node `k` is live after the block, after which these registers are live: its register is one
/// of them, and no later node writes it.
pub fn is_live(insns: &[Insn], k: usize, live_out: Row) -> bool
    requires { k < length insns.now }
    ensures { result ≡ terms.is_live insns.now live_out k }
{
    let register = destination(&insns[k]);
    register != 0 && live_out.has(register) && !is_written_after(insns, k, register)
}

/// Whether a node behind node `k` writes the register.
#[tactic(auto, using(crate::proofs::WritersByPlace::later))]
fn is_written_after(insns: &[Insn], k: usize, register: u8) -> bool
    requires { k < length insns.now }
    ensures { result ≡ terms.is_written_after insns.now k register }
{
    for j in k + 1..insns.len() {
        if writes_register(&insns[j], register) {
            return true;
        }
    }
    false
}
