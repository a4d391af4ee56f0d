//! Worked calls of `load`.
use crate::common::{Step, expect};
use std::alloc::AllocError;

/// The line of seed 7, which a plain reading of generated programs and of rounds gives (`checks/oracles/generated.py`
/// and `checks/oracles/choices.py` of the repository).
const LINE_OF_SEVEN: &[u8] =
    b"load 7 blocks 1802 cuts 32 units 32 skipped 0 gain 192 cost 18010 17818 output 3f38b0fc\n";

/// The seed, and the same with zeros in front.
fn loads() -> &'static [Step] {
    &[
        Step::Call("load 7", 0, LINE_OF_SEVEN),
        Step::Call("load 0007", 0, LINE_OF_SEVEN),
    ]
}

#[test]
fn a_seed_has_one_line(rt: HostRuntime) -> Result<(), AllocError> {
    expect(&rt, loads())
}
