//! What a graph tells of its nodes once, for all prefixes.
ghost use Rattle.std.specs.Prelude.{◌≡◌, ◌↔◌, ℕ, ◌<◌, ◌≤◌, nat_eq, [], length, slice_index_or, IsTrue, None};
ghost use Rattle.std.specs.List.{list_any};
ghost use Rattle.std.specs.FinSet as set;
ghost use Rattle.ci_cut.specs.declared.graph.Source.TheVariants.{Made};
ghost use Rattle.ci_cut.specs.FlowGraph.{is_source};
ghost use Rattle.ci_cut.specs.Walks.{Walk};
ghost use Rattle.ci_cut.specs.Prefixes.{is_eligible};
ghost use Rattle.ci_cut.specs.Representation.{row_at, IsLastBelow, AreRowsOf};
ghost use Rattle.ci_cut.specs.private.AddedRows.{AreAdded};

use crate::graph::{Graph, Source};
use ci_word::Row;

/// Rows by the number of a node, and the node that is decided next at each place. Behind the nodes they may hold
/// anything.
#[derive(Drop)]
pub struct GraphRows {
    /// The nodes into which this node has an arc.
    pub successors: [Row; 256],
    /// The nodes from which a walk leads to this node.
    pub ancestors: [Row; 256],
    /// The nodes that read this node's value.
    pub readers: [Row; 256],
    /// The last eligible node below this place.
    pub last_below: [Option<u8>; 257],
}

impl GraphRows {
    /// The rows of the graph without a node. They may hold those of one graph after the other.
    pub fn new() -> GraphRows
        ensures { AreRowsOf (record { nodes = []; read = 0; pad = 0 }) result }
    {
        GraphRows {
            successors: [Row::empty(); 256],
            ancestors: [Row::empty(); 256],
            readers: [Row::empty(); 256],
            last_below: [None; 257],
        }
    }

    /// Holds the rows of the graph, whatever was held before. Only what belongs to its nodes is written.
    pub fn hold(&mut self, graph: &Graph)
        ensures { AreRowsOf graph.now self.new }
    {
        let size = graph.nodes().len();
        clear(&mut self.successors, size);
        clear(&mut self.readers, size);
        for (k, node) in graph.nodes().iter().enumerate() {
            add_at_members(&mut self.successors, &node.before, k as u8);
            add_at_makers(&mut self.readers, node.sources.as_slice(), k as u8);
            self.ancestors[k] = ancestors_of(graph, &self.ancestors, k);
        }
        hold_last_below(&mut self.last_below, graph);
    }
}

/// Makes the first rows empty, so many.
fn clear(rows: &mut [Row; 256], size: usize)
    requires { size ≤ 256 }
    ensures { (j : ℕ) → j < size → row_at rows.new j ≡ set.empty }
{
    for k in 0..size {
        rows[k] = Row::empty();
    }
}

/// The nodes that may be members of a cut.
pub(crate) fn eligible_nodes(graph: &Graph) -> Row
    ensures { (k : ℕ) → set.contains result k ≡ is_eligible graph.now k }
{
    let mut row = Row::empty();
    for (k, node) in graph.nodes().iter().enumerate() {
        if node.eligible {
            row.insert(k as u8);
        }
    }
    row
}

/// Puts the number into the rows at these places.
fn add_at_members(rows: &mut [Row; 256], places: &Row, number: u8)
    ensures { AreAdded rows.old rows.new (set.contains places.now) (λ k. nat_eq k number) }
{
    let mut rest = *places;
    while let Some(place) = rest.greatest() {
        add_at(rows, place, number);
        rest.remove(place);
    }
}

/// Puts the number into the rows at the nodes among the sources.
fn add_at_makers(rows: &mut [Row; 256], sources: &[Source], number: u8)
    ensures { AreAdded rows.old rows.new (λ j. list_any (is_source (Made j)) sources.now) (λ k. nat_eq k number) }
{
    for source in sources {
        add_at_maker(rows, source, number);
    }
}

/// Puts the number into the row at the source where that is a node.
fn add_at_maker(rows: &mut [Row; 256], source: &Source, number: u8)
    ensures { AreAdded rows.old rows.new (λ j. is_source (Made j) source.now) (λ k. nat_eq k number) }
{
    match source {
        Source::Entry(_) => {}
        Source::Made(maker) => add_at(rows, *maker, number),
    }
}

/// Puts the number into the row at the place.
fn add_at(rows: &mut [Row; 256], place: u8, number: u8)
    ensures { AreAdded rows.old rows.new (λ j. nat_eq j place) (λ k. nat_eq k number) }
{
    rows[place as usize].insert(number);
}

/// The nodes from which a walk leads to this node, where those of the earlier nodes are known.
fn ancestors_of(graph: &Graph, earlier: &[Row; 256], node: usize) -> Row
    requires node { node < length graph.now.nodes }
    requires earlier { (j k : ℕ) → k < node → IsTrue (set.contains (row_at earlier.now k) j) ↔ Walk graph.now j k }
    ensures { (j : ℕ) → IsTrue (set.contains result j) ↔ Walk graph.now j node }
{
    let mut row = graph.nodes()[node].before;
    // The nodes with an arc into this one that aren't known to lead to a later one of them.
    let mut rest = row;
    while let Some(last) = rest.greatest() {
        let further = &earlier[last as usize];
        row = row.union(further);
        rest.remove(last);
        rest = rest.minus(further);
    }
    row
}

/// Holds the last eligible node below each place.
fn hold_last_below(last: &mut [Option<u8>; 257], graph: &Graph)
    ensures { (place : ℕ) → place ≤ length graph.now.nodes
        → IsLastBelow graph.now place (slice_index_or last.new place None) }
{
    last[0] = None;
    for (k, node) in graph.nodes().iter().enumerate() {
        last[k + 1] = if node.eligible {
            Some(k as u8)
        } else {
            last[k]
        };
    }
}
