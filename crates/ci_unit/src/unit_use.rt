//! The words of a use.
use ci_isa::Insn;
use smallvec::SmallVec;

/// The words by which a block uses a unit, in the order in which they stand there. They take no memory.
#[derive(Drop)]
pub struct UnitUse {
    /// The `cput` of the fourth and the fifth input, where there are more than three.
    pub put: Option<Insn>,
    /// The unit word.
    pub unit: Insn,
    /// A `cread` of each output behind the first.
    pub reads: SmallVec<Insn, 2>,
}
