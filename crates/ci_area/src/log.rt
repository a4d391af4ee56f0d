//! Logs of choices.
ghost use Rattle.std.specs.Prelude.{◌≡◌};
ghost use Rattle.ci_area.specs.AreaTrees.{IsLog};

use std::marker::Model;

/// What a log says of one set of decisions: some of the pieces are decided, and the others undecided.
#[derive(Clone, Copy, Debug, PartialEq, Eq)]
pub enum AreaItem {
    /// Branch: the next piece is taken in, or left out.
    B,
    /// The pieces taken in need more area than there is.
    A,
    /// No completion gains enough where area is paid for at the rate `num / den`.
    G {
        /// What is paid,
        num: u64,
        /// for so much area.
        den: u64,
    },
    /// A complete choice that is no better set than the best.
    F,
}

/// The log of a choice: a tree in which a branch has two children and other items none, in preorder. It has fewer than
/// 2 to the power 32 items.
#[derive(Debug, Drop)]
pub struct AreaLog {
    items: Vec<AreaItem>,
}

impl Model for AreaLog {
    ghost use Rattle.std.specs.Prelude.{List};
    ghost use Rattle.ci_area.specs.declared.log.AreaItem.{AreaItem};
    ghost use Rattle.ci_area.specs.AreaTrees.{IsLog};

    ghost Value = { List AreaItem };

    ghost view = { λ log. log.items.items };

    ghost invariant = { λ log. IsLog log.items.items };
}

impl AreaLog {
    /// The log of these items, which have to be a tree in preorder, of fewer than 2 to the power 32 items.
    pub fn new(items: Vec<AreaItem>) -> AreaLog
        requires { IsLog items.items }
        ensures { result ≡ items.items }
    {
        AreaLog { items }
    }

    /// The items in preorder.
    pub fn items(&self) -> &[AreaItem]
        ensures items { result.now ≡ self.now }
        ensures log { IsLog self.now }
    {
        &self.items
    }
}
