//! Whether the bundles of a block are whole.
ghost use Rattle.std.specs.Prelude.{◌<◌, ◌↔◌, length, IsTrue};
ghost use Rattle.ci_dfg.specs.Bundles.{AreBundled, IsBundledAt, is_read_of};

use ci_isa::{Insn, is_unit};

/// Whether each `cput` stands directly before a unit word, each `cread` of index 0 directly behind one, and each
/// `cread` of index 1 directly behind a `cread` of index 0.
pub fn are_bundled(insns: &[Insn]) -> bool
    ensures { IsTrue result ↔ AreBundled insns.now }
{
    for k in 0..insns.len() {
        if !is_bundled_at(insns, k) {
            return false;
        }
    }
    true
}

/// Whether this holds of the instruction at place `k`.
fn is_bundled_at(insns: &[Insn], k: usize) -> bool
    requires { k < length insns.now }
    ensures { IsTrue result ↔ IsBundledAt insns.now k }
{
    match &insns[k] {
        Insn::Cput { .. } => k + 1 < insns.len() && is_unit(&insns[k + 1]),
        Insn::Cread { index, .. } => match *index {
            0 => k > 0 && is_unit(&insns[k - 1]),
            1 => k > 0 && is_first_read(&insns[k - 1]),
            _ => true,
        },
        _ => true,
    }
}

/// Whether the instruction is a `cread` of index 0.
fn is_first_read(insn: &Insn) -> bool
    ensures { IsTrue result ↔ is_read_of 0 insn.now }
{
    matches!(insn, Insn::Cread { index: 0, .. })
}
