//! What a run is counted by.

use crate::counts::Counts;
use ci_machine::End;

/// What was counted over a run.
#[derive(Drop)]
pub struct Profile {
    /// How many steps were made. One that ends the run is counted.
    pub steps: u64,
    /// The sum of the latencies of their instructions, in cycles.
    pub cost: u64,
    /// How the run ended, or None where as many steps were made as were asked for, and none ended.
    pub end: Option<End>,
    /// The pc of the first step that touches the text, and the first byte of the text, in the order of the access, that
    /// it moves.
    pub touched: Option<(u32, u32)>,
    pub(crate) counts: Counts,
    pub(crate) targets: Vec<u32>,
}

impl Profile {
    ghost use Rattle.std.specs.Prelude.{◌≡◌};
    ghost use Rattle.ci_emu.specs.Profiles.{entries_in, targets_in};

    /// How many steps began at the address of a word of the text.
    #[tactic(auto, unfolding(crate::specs::Profiles::entries_in))]
    pub fn entries(&self, address: u32) -> u64
        ensures { result ≡ entries_in self.now address }
    {
        self.counts.at(address)
    }

    /// The distinct addresses to which a JALR led, in ascending order. One that ended led nowhere.
    #[tactic(auto, unfolding(crate::specs::Profiles::targets_in))]
    pub fn targets(&self) -> &[u32]
        ensures { result.now ≡ targets_in self.now }
    {
        &self.targets
    }
}
