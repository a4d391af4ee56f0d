//! What holds of the arcs of all blocks. The functions do nothing; their contracts are the laws.
ghost use Rattle.ci_dfg.specs.Arcs.{ArcsAreThese, GraphHasTheseArcs, BundlesAreShort, BundlesMoveTogether};
ghost use Rattle.ci_dfg.specs.Hazards.{HazardsAreJoined, AccessesAreJoined};

/// The arcs are those that the rules make, and no more: the least set of arcs that all rules hold of.
pub fn arcs_are_these()
    ensures { ArcsAreThese }
{}

/// So are the arcs of a block's graph.
pub fn graph_has_these_arcs()
    ensures { GraphHasTheseArcs }
{}

/// The words of a bundle move together: there is an arc from each to the next, what enters one of them from outside
/// enters the first too, and what leaves one of them to the outside leaves the last too. Where the words are of the
/// table and bundles are whole, none has more than four words.
pub fn bundles_move_together()
    ensures together { BundlesMoveTogether }
    ensures short { BundlesAreShort }
{}

/// An arc, or a node between them that writes the register too, joins two nodes with a data hazard in one of x1 to
/// x31, and an arc two that go to memory. Of the hidden registers nothing is said: between the words of two bundles
/// there may be no arc, though their order matters.
pub fn hazards_are_joined()
    ensures registers { HazardsAreJoined }
    ensures memory { AccessesAreJoined }
{}
