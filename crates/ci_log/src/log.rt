//! Logs of searches.
ghost use Rattle.std.specs.Prelude.{◌≡◌};
ghost use Rattle.ci_log.specs.Trees.{IsLog};

use std::marker::Model;

/// What a log says of one set of choices: some of the nodes are decided, and the others undecided.
#[derive(Clone, Copy, Debug, PartialEq, Eq)]
pub enum Item {
    /// Branch: the next node is taken in, or left out.
    B,
    /// No completion has few enough outputs.
    O,
    /// No completion is convex.
    C,
    /// No completion has few enough inputs.
    I,
    /// No completion gains enough.
    G,
    /// A complete choice that is no better cut than the best.
    F,
}

/// The log of a search: a tree in which a branch has two children and other items none, in
/// preorder. It has fewer than 2 to the power 32 items.
#[derive(Drop)]
pub struct Log {
    items: Vec<Item>,
}

impl Model for Log {
    ghost use Rattle.std.specs.Prelude.{List};
    ghost use Rattle.ci_log.specs.declared.log.Item.{Item};
    ghost use Rattle.ci_log.specs.Trees.{IsLog};

    ghost Value = { List Item };

    ghost view = { λ log. log.items.items };

    ghost invariant = { λ log. IsLog log.items.items };
}

impl Log {
    /// The log of these items, which have to be a tree in preorder, of fewer than 2 to the power 32
    /// items.
    pub fn new(items: Vec<Item>) -> Log
        requires { IsLog items.items }
        ensures { result ≡ items.items }
    {
        Log { items }
    }

    /// The items in preorder.
    pub fn items(&self) -> &[Item]
        ensures items { result.now ≡ self.now }
        ensures log { IsLog self.now }
    {
        &self.items
    }
}
