//! Where the operands of an instruction come from.
ghost use Rattle.std.specs.Prelude.{◌≡◌, ◌≤◌, ◌<◌, ◌++◌, ◌∷◌, [], map, length, OnOk, IfOk};
ghost use Rattle.ci_dfg.specs.BlockGraph as terms;
ghost use Rattle.ci_isa.specs.Sequences as sequences;
ghost use Rattle.ci_isa.specs.Effects.{without_x0};

use ci_cut::{Source, Sources};
use ci_isa::{Insn, operands, writes_register};
use std::alloc::{AllocError, Global};

/// Where the operands of node `k` come from, in their order: for each the latest node before it that writes the
/// operand's register, else the register as it is when the block is entered. An operand x0 has no source, and an
/// immediate is no operand. The operands of an environment call are x10, x11, x12 and x17.
///
/// Node `k` is instruction `k` of the block, from 0.
/// An Err is out of memory.
pub fn sources(alloc: Global, insns: &[Insn], k: usize) -> Result<Sources, AllocError>
    requires few { length insns.now ≤ 256 }
    requires there { k < length insns.now }
    ensures { IfOk result (λ sources. sources ≡ terms.sources insns.now k) }
{
    let mut sources = Sources::new(alloc);
    for register in operands(&insns[k]) {
        push_source(insns, k, register, &mut sources)?;
    }
    Ok(sources)
}

/// Puts the source of node `k`'s operand in the register at the end. An operand x0 has none.
fn push_source(
    insns: &[Insn],
    k: usize,
    register: u8,
    sources: &mut Sources,
) -> Result<(), AllocError>
    requires few { length insns.now ≤ 256 }
    requires there { k ≤ length insns.now }
    ensures { OnOk result (sources.new ≡ sources.old
        ++ map (terms.source_of insns.now k) (without_x0 (register ∷ []))) }
{
    if register == 0 {
        return Ok(());
    }
    let source = match latest_writer(insns, register, k) {
        None => Source::Entry(register),
        Some(writer) => Source::Made(writer),
    };
    sources.push(source)
}

/// The latest node before `k` that writes the register, in a block of at most 256 instructions.
#[tactic(auto, using(crate::proofs::WritersByPlace::writers))]
pub fn latest_writer(insns: &[Insn], register: u8, k: usize) -> Option<u8>
    requires few { length insns.now ≤ 256 }
    requires there { k ≤ length insns.now }
    ensures { result ≡ sequences.latest_writer insns.now register k }
{
    let mut j = k;
    while j > 0 {
        j -= 1;
        if writes_register(&insns[j], register) {
            return Some(j as u8);
        }
    }
    None
}
