//! Which nodes stand in one bundle.
ghost use Rattle.std.specs.Prelude.{◌≡◌, ℕ, suc, ◌≤◌, ◌<◌, ◌↔◌, false, length};
ghost use Rattle.ci_dfg.specs.BlockGraph as terms;
ghost use Rattle.ci_dfg.specs.BundleArcs.{IsSpan, ComesFrom, LeadsTo};

use ci_isa::{Insn, is_cput, is_cread, is_unit};

/// The first of the nodes whose arcs to later nodes leave node `j` too: the first of its bundle, if node `j` is the
/// last of it, and else node `j`.
pub(crate) fn first_left_by(insns: &[Insn], j: usize) -> usize
    requires { suc j < length insns.now }
    ensures { (i : ℕ) → ComesFrom (terms.is_joined insns.now) i j ↔ ((result ≤ i) × (i ≤ j)) }
{
    if !is_joined(insns, j) || is_joined(insns, j + 1) {
        j
    } else {
        first_of_bundle(insns, j)
    }
}

/// The first node of the bundle of node `j`.
fn first_of_bundle(insns: &[Insn], j: usize) -> usize
    requires { j < length insns.now }
    ensures one { IsSpan (terms.is_joined insns.now) result j }
    ensures begins { terms.is_joined insns.now result ≡ false }
{
    let mut first = j;
    while is_joined(insns, first) {
        first -= 1;
    }
    first
}

/// The last of the nodes whose arcs from earlier nodes enter node `k` too: the last of its bundle, if node `k` is the
/// first of it, and else node `k`.
pub(crate) fn last_entered_by(insns: &[Insn], k: usize) -> usize
    requires { k < length insns.now }
    ensures within { result < length insns.now }
    ensures all { (l : ℕ) → LeadsTo (terms.is_joined insns.now) l k ↔ ((k ≤ l) × (l ≤ result)) }
{
    if is_joined(insns, k) {
        k
    } else {
        last_of_bundle(insns, k)
    }
}

/// The last node of the bundle of node `k`.
fn last_of_bundle(insns: &[Insn], k: usize) -> usize
    requires { k < length insns.now }
    ensures within { result < length insns.now }
    ensures one { IsSpan (terms.is_joined insns.now) k result }
    ensures ends { terms.is_joined insns.now (suc result) ≡ false }
{
    let mut last = k;
    while last + 1 < insns.len() && is_joined(insns, last + 1) {
        last += 1;
    }
    last
}

/// Whether node `k` stands in one bundle with the node directly before it.
pub(crate) fn is_joined(insns: &[Insn], k: usize) -> bool
    requires { k < length insns.now }
    ensures { result ≡ terms.is_joined insns.now k }
{
    k > 0 && stay_together(&insns[k - 1], &insns[k])
}

/// Whether the second word belongs to the bundle of the first, directly before it.
fn stay_together(first: &Insn, second: &Insn) -> bool
    ensures { result ≡ terms.stay_together first.now second.now }
{
    match second {
        Insn::Unit { .. } => is_cput(first),
        Insn::Cread { .. } => is_unit(first) || is_cread(first),
        _ => false,
    }
}
