//! Which nodes have to stay before a node.
ghost use Rattle.std.specs.Prelude.{◌≡◌, ℕ, ◌≤◌, ◌<◌, ◌↔◌, ◌||◌, length, Some, IsTrue};
ghost use Rattle.std.specs.List.{list_any};
ghost use Rattle.ci_word.specs.Numbers.{set_below};
ghost use Rattle.ci_isa.specs.Sequences.{latest_writer};
ghost use Rattle.ci_cut.specs.FlowGraph.{is_source};
ghost use Rattle.ci_dfg.specs.BlockGraph as terms;
ghost use Rattle.ci_dfg.specs.BundleArcs.{LeadsTo};

use crate::bundles::{first_left_by, is_joined, last_entered_by};
use crate::operand_sources::latest_writer;
use ci_cut::Source;
use ci_isa::{Insn, destination, is_access, is_terminator, reads_register, writes_register};
use ci_word::Row;

/// The nodes with an arc into node `k`, which has these sources.
#[tactic(auto, using(crate::proofs::FilledSets::arcs))]
pub(crate) fn nodes_before(insns: &[Insn], k: usize, sources: &[Source]) -> Row
    requires few { length insns.now ≤ 256 }
    requires there { k < length insns.now }
    requires sources { sources.now ≡ terms.sources insns.now k }
    ensures { result ≡ set_below k (terms.has_arc_into insns.now k) }
{
    let last = last_entered_by(insns, k);
    let mut before = Row::empty();
    for j in 0..k {
        if has_arc(insns, k, last, sources, j) {
            before.insert(j as u8);
        }
    }
    before
}

/// Whether there is an arc from node `j` into the later node `k`, which has these sources. Arcs into the nodes from
/// node `k` to the last, and into no others, enter node `k`.
fn has_arc(insns: &[Insn], k: usize, last: usize, sources: &[Source], j: usize) -> bool
    requires few { length insns.now ≤ 256 }
    requires within { last < length insns.now }
    requires order { j < k }
    requires there { k < length insns.now }
    requires entered { (l : ℕ) → LeadsTo (terms.is_joined insns.now) l k ↔ ((k ≤ l) × (l ≤ last)) }
    requires sources { sources.now ≡ terms.sources insns.now k }
    ensures { result ≡ terms.has_arc_into insns.now k j }
{
    has_outer_arc(insns, k, last, sources, j) || k == j + 1 && is_joined(insns, k)
}

/// The same, without the arcs from a node of a bundle to the next.
fn has_outer_arc(insns: &[Insn], k: usize, last: usize, sources: &[Source], j: usize) -> bool
    requires few { length insns.now ≤ 256 }
    requires within { last < length insns.now }
    requires order { j < k }
    requires there { k < length insns.now }
    requires entered { (l : ℕ) → LeadsTo (terms.is_joined insns.now) l k ↔ ((k ≤ l) × (l ≤ last)) }
    requires sources { sources.now ≡ terms.sources insns.now k }
    ensures { result ≡ (terms.has_arc_from_bundle insns.now k j || terms.has_arc_into_bundle insns.now k j) }
{
    let first = first_left_by(insns, j);
    if first == j && last == k {
        has_node(sources, j as u8) || has_order_arc(insns, k, j)
    } else {
        has_arc_among(insns, first, j, k, last)
    }
}

/// Whether one of the nodes from the first to node `j` has an arc of its own into one of the later nodes from node `k`
/// to the last.
fn has_arc_among(insns: &[Insn], first: usize, j: usize, k: usize, last: usize) -> bool
    requires few { length insns.now ≤ 256 }
    requires order { j < k }
    requires within { last < length insns.now }
    ensures { result ≡ terms.some_between first j (λ i.
        terms.some_between k last (λ l. terms.has_own_arc insns.now l i)) }
{
    for i in first..j + 1 {
        if has_arc_to_some(insns, i, k, last) {
            return true;
        }
    }
    false
}

/// Whether node `i` has an arc of its own into one of the later nodes from node `k` to the last.
fn has_arc_to_some(insns: &[Insn], i: usize, k: usize, last: usize) -> bool
    requires few { length insns.now ≤ 256 }
    requires order { i < k }
    requires within { last < length insns.now }
    ensures { result ≡ terms.some_between k last (λ l. terms.has_own_arc insns.now l i) }
{
    for l in k..last + 1 {
        if has_own_arc(insns, l, i) {
            return true;
        }
    }
    false
}

/// Whether there is an arc from node `j` into the later node `k` by what the two do.
fn has_own_arc(insns: &[Insn], k: usize, j: usize) -> bool
    requires few { length insns.now ≤ 256 }
    requires there { k < length insns.now }
    requires order { j < k }
    ensures { result ≡ terms.has_own_arc insns.now k j }
{
    has_true_arc(insns, k, j) || has_order_arc(insns, k, j)
}

/// Whether an operand of node `k` comes from node `j`.
fn has_true_arc(insns: &[Insn], k: usize, j: usize) -> bool
    requires few { length insns.now ≤ 256 }
    requires there { k < length insns.now }
    requires order { j < k }
    ensures { result ≡ terms.has_true_arc insns.now k j }
{
    let written = destination(&insns[j]);
    reads_register(&insns[k], written) && is_latest_writer(insns, written, k, j)
}

/// Whether node `j` is the latest one before node `k` that writes the register.
fn is_latest_writer(insns: &[Insn], register: u8, k: usize, j: usize) -> bool
    requires few { length insns.now ≤ 256 }
    requires there { k < length insns.now }
    ensures { IsTrue result ↔ (latest_writer insns.now register k ≡ Some j) }
{
    match latest_writer(insns, register, k) {
        None => false,
        Some(writer) => writer as usize == j,
    }
}

/// Whether there is an arc from node `j` into the later node `k` by their order alone, whatever values `k` takes.
fn has_order_arc(insns: &[Insn], k: usize, j: usize) -> bool
    requires there { k < length insns.now }
    requires order { j < k }
    ensures { result ≡ terms.has_order_arc insns.now k j }
{
    has_anti_arc(insns, k, j)
        || has_output_arc(insns, k, j)
        || is_access(&insns[j]) && is_access(&insns[k])
        || is_terminator(&insns[k])
}

/// Whether node `j` reads the register that node `k` writes.
fn has_anti_arc(insns: &[Insn], k: usize, j: usize) -> bool
    requires there { k < length insns.now }
    requires order { j < k }
    ensures { result ≡ terms.has_anti_arc insns.now k j }
{
    reads_register(&insns[j], destination(&insns[k]))
}

/// Whether both nodes write the same register.
fn has_output_arc(insns: &[Insn], k: usize, j: usize) -> bool
    requires there { k < length insns.now }
    requires order { j < k }
    ensures { result ≡ terms.has_output_arc insns.now k j }
{
    writes_register(&insns[j], destination(&insns[k]))
}

/// Whether the node is among the sources.
fn has_node(sources: &[Source], node: u8) -> bool
    ensures { result ≡ list_any (is_source (Source.Made node)) sources.now }
{
    sources.iter().any(|source| *source == Source::Made(node))
}
