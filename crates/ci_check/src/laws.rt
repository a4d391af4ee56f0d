//! Laws of the definitions, each the contract of a function that does nothing.
ghost use Rattle.std.specs.Prelude.{◌≡◌, List};
ghost use Rattle.ci_log.specs.declared.log.Item.{Item};
ghost use Rattle.ci_log.specs.Trees.{IsTree};
ghost use Rattle.ci_cut.specs.Prefixes.{Prefix};
ghost use Rattle.ci_check.specs.Rules.{stations};

/// A list of items is a tree in one way: each item stands at one prefix.
pub fn each_item_has_one_prefix()
    ensures { (items : List Item) (first second : IsTree items) (prefix : Prefix) →
        stations first prefix ≡ stations second prefix }
{}
