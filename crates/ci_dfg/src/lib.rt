//! The data-flow graph of a basic block.
//!
//! The nodes are the instructions in order. An operand's source is the latest earlier node that writes its
//! register, or the register as it is when the block is entered. An arc says which node has to stay before which:
//! one that reads what the other wrote (true), that writes what the other reads (anti) or writes (output), two loads
//! or stores (memory), any node and the instruction that ends the block (control), and the words of a bundle, which
//! move together (bundle).
//!
//! A bundle is the use of a unit: a `cput`, the unit word behind it, and the `cread` words behind that. Each of its
//! words stays behind the one before it, an arc from outside into one of them enters the first too, and an arc from one
//! of them to the outside leaves the last too.
//!
//! The definition of all this is `specs/BlockGraph.antt`; `specs/Arcs.antt` and `specs/BundleArcs.antt` say the arcs
//! again, rule by rule. `specs/Bundles.antt` says when the bundles of a block are whole.
#![tactic(auto)]

pub use bundled::are_bundled;
pub use laws::{arcs_are_these, bundles_move_together, graph_has_these_arcs, hazards_are_joined};
pub use nodes::{graph, is_live};
pub use operand_sources::{latest_writer, sources};

mod arcs;
mod bundled;
mod bundles;
mod laws;
mod nodes;
mod operand_sources;
