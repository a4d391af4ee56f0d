//! What bounds a choice.
ghost use Rattle.std.specs.Prelude.{◌≤◌};

use ci_cut::Limits;

/// What bounds a choice of cuts.
#[derive(Clone, Copy)]
pub struct Plan {
    /// The limits on the ports of a cut.
    pub limits: Limits,
    /// The greatest number of units, from 1 to 32.
    pub count: u8,
    /// The greatest number of branches in the log of a search, from 1 to 4,194,304.
    pub budget: u32,
    ghost count_in_range: { (1 ≤ count) × (count ≤ 32) },
    ghost budget_in_range: { (1 ≤ budget) × (budget ≤ 4194304) },
}
