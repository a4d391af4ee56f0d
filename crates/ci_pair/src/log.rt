//! Logs of searches for pairs.
ghost use Rattle.std.specs.Prelude.{◌≡◌};
ghost use Rattle.ci_pair.specs.Trees.{IsLog};

use std::marker::Model;

/// What a log says of one set of labels: some of the nodes are decided, and the others undecided.
#[derive(Clone, Copy, Debug, PartialEq, Eq)]
pub enum PairItem {
    /// Branch: the next node is in the first set, in the second, or in none.
    B,
    /// No completion has few enough outputs.
    O,
    /// No completion is convex.
    C,
    /// No completion has few enough inputs.
    I,
    /// Walks lead both ways between the sets of each completion.
    X,
    /// In each completion the second set has the greatest node.
    M,
    /// No completion gains enough.
    G,
    /// A complete choice that is no better pair than the best.
    F,
}

/// The log of a search for pairs: a tree in which a branch has three children and other items none, in preorder. It has
/// fewer than 2 to the power 32 items.
#[derive(Debug, Drop)]
pub struct PairLog {
    items: Vec<PairItem>,
}

impl Model for PairLog {
    ghost use Rattle.std.specs.Prelude.{List};
    ghost use Rattle.ci_pair.specs.declared.log.PairItem.{PairItem};
    ghost use Rattle.ci_pair.specs.Trees.{IsLog};

    ghost Value = { List PairItem };

    ghost view = { λ log. log.items.items };

    ghost invariant = { λ log. IsLog log.items.items };
}

impl PairLog {
    /// The log of these items, which have to be a tree in preorder, of fewer than 2 to the power 32 items.
    pub fn new(items: Vec<PairItem>) -> PairLog
        requires { IsLog items.items }
        ensures { result ≡ items.items }
    {
        PairLog { items }
    }

    /// The items in preorder.
    pub fn items(&self) -> &[PairItem]
        ensures items { result.now ≡ self.now }
        ensures log { IsLog self.now }
    {
        &self.items
    }
}
