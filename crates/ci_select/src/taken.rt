//! What a choice tells of a cut that it took.

use ci_word::Row;

/// A cut that was taken.
#[derive(Drop)]
pub struct Taken {
    /// How many cuts were taken before.
    pub round: u32,
    pub leader: u32,
    pub unit: u8,
    /// The cycles that it saves at each run of its block.
    pub gain: u64,
    /// How often its block was entered.
    pub entries: u64,
    /// Its members, by their numbers in the block as that was in its round.
    pub cut: Row,
    /// The word of its unit.
    pub word: u32,
}
