//! The folded block.
ghost use Rattle.std.specs.Prelude.{◌≡◌, ℕ, ◌+◌, ◌<◌, ◌≤◌, ◌++◌, ◌↔◌, not, length, replicate, IfOk, OnOk, IsTrue};
ghost use Rattle.std.specs.FinSet as set;
ghost use Rattle.std.specs.Option.{option_to_list};
ghost use Rattle.ci_cut.specs.Gain.{further_words};
ghost use Rattle.ci_unit.specs.Operands.{FitsSomeLimits};
ghost use Rattle.ci_unit.specs.Uses.{AreRegisters, use_of};
ghost use Rattle.ci_rewrite.specs.Blocks.{AllFieldsFit, IsBlock};
ghost use Rattle.ci_rewrite.specs.FoldedBlock as terms;
ghost use Rattle.ci_rewrite.specs.FoldedBlock.{IsGraphOf, IsFolded, LeadsToMember, places_left, those};
ghost use Rattle.ci_rewrite.specs.Folds.{KeepsEffect, SavesGain};
ghost use Rattle.ci_rewrite.specs.SameEffect.{KeepsShape};

use ci_cut::{Graph, inputs, outputs};
use ci_isa::{Insn, Reg};
use ci_unit::encode_use;
use ci_word::{Op, Row};
use std::alloc::{AllocError, Global};

/// The block in which the unit of this number stands for the members of the cut.
///
/// Before the words of the unit's use stand the instructions outside the cut from which a walk along arcs leads to a
/// member, in their order; behind them a no-op for each place that is left over, and then the other instructions. So
/// the block keeps its length, and an instruction that ends it stays last.
///
/// The graph has to be that of the block for some live set and table, each instruction has to be one that a word can
/// hold, the cut has to fit under some limits, and the number is below 32.
///
/// # Errors
///
/// Out of memory.
pub fn fold(
    alloc: Global,
    insns: &[Insn],
    graph: &Graph,
    cut: &Row,
    number: u8,
) -> Result<Vec<Insn>, AllocError>
    requires graph { IsGraphOf insns.now graph.now }
    requires fit { AllFieldsFit insns.now }
    requires fits { FitsSomeLimits graph.now (set.contains cut.now) }
    requires number { number < 32 }
    ensures folded { IfOk result (λ folded.
        IsFolded insns.now graph.now (set.contains cut.now) number folded.items) }
    ensures fit { IfOk result (λ folded. AllFieldsFit folded.items) }
    ensures shape { IfOk result (λ folded.
        (n : ℕ) → IsBlock insns.now n → KeepsShape insns.now n folded.items) }
    ensures effect { IfOk result (λ folded.
        KeepsEffect insns.now graph.now (set.contains cut.now) number folded.items) }
    ensures saves { IfOk result (λ folded.
        SavesGain insns.now graph.now (set.contains cut.now) number folded.items) }
{
    // A graph has a node for each instruction, and at most 256.
    prove!(graph.nodes().len() <= 256);
    let early = early_nodes(graph, cut);
    let mut folded = Vec::new(alloc);
    push_those(&mut folded, insns, &early)?;
    push_use(&mut folded, insns, graph, cut, number)?;
    push_no_ops(&mut folded, graph, cut)?;
    push_others(&mut folded, insns, &cut.union(&early))?;
    Ok(folded)
}

/// The nodes outside the cut from which a walk leads to a member.
fn early_nodes(graph: &Graph, cut: &Row) -> Row
    ensures { (k : ℕ) → IsTrue (set.contains result k)
        ↔ ((¬ IsTrue (set.contains cut.now k)) × LeadsToMember graph.now (set.contains cut.now) k) }
{
    let nodes = graph.nodes();
    // Arcs lead to later nodes, so all that lie behind a node are settled when its turn comes.
    let mut reaching = *cut;
    for k in (0..nodes.len()).rev() {
        if reaching.has(k as u8) {
            reaching = reaching.union(&nodes[k].before);
        }
    }
    reaching.minus(cut)
}

/// Puts the instructions of these numbers at the end, in their order.
fn push_those(list: &mut Vec<Insn>, insns: &[Insn], numbers: &Row) -> Result<(), AllocError>
    requires { length insns.now ≤ 256 }
    ensures { OnOk result (list.new.items ≡ list.old.items ++ those insns.now (set.contains numbers.now)) }
{
    for (k, insn) in insns.iter().enumerate() {
        if numbers.has(k as u8) {
            list.push(*insn)?;
        }
    }
    Ok(())
}

/// Puts the instructions of all other numbers at the end, in their order.
fn push_others(list: &mut Vec<Insn>, insns: &[Insn], numbers: &Row) -> Result<(), AllocError>
    requires { length insns.now ≤ 256 }
    ensures { OnOk result (list.new.items
        ≡ list.old.items ++ those insns.now (λ k. not (set.contains numbers.now k))) }
{
    for (k, insn) in insns.iter().enumerate() {
        if !numbers.has(k as u8) {
            list.push(*insn)?;
        }
    }
    Ok(())
}

/// Puts the words of the use at the end, in their order.
fn push_use(
    list: &mut Vec<Insn>,
    insns: &[Insn],
    graph: &Graph,
    cut: &Row,
    number: u8,
) -> Result<(), AllocError>
    requires graph { IsGraphOf insns.now graph.now }
    requires registers { AreRegisters graph.now }
    requires fits { FitsSomeLimits graph.now (set.contains cut.now) }
    requires number { number < 32 }
    ensures items { OnOk result (list.new.items
        ≡ list.old.items ++ use_of insns.now graph.now (set.contains cut.now) number) }
    ensures fit { OnOk result (AllFieldsFit (use_of insns.now graph.now (set.contains cut.now) number)) }
{
    let used = encode_use(*list.allocator(), insns, graph, cut, number);
    push_some(list, used.put)?;
    list.push(used.unit)?;
    list.extend_from_slice(used.reads.as_slice())?;
    Ok(())
}

/// Puts the word at the end, if there is one.
fn push_some(list: &mut Vec<Insn>, word: Option<Insn>) -> Result<(), AllocError>
    ensures { OnOk result (list.new.items ≡ list.old.items ++ option_to_list word) }
{
    if let Some(word) = word {
        list.push(word)?;
    }
    Ok(())
}

/// Puts a no-op at the end for each place of the members that their unit leaves over.
fn push_no_ops(list: &mut Vec<Insn>, graph: &Graph, cut: &Row) -> Result<(), AllocError>
    requires { FitsSomeLimits graph.now (set.contains cut.now) }
    ensures { OnOk result (list.new.items ≡ list.old.items
        ++ replicate (places_left graph.now (set.contains cut.now)) terms.no_op) }
{
    let taken = words_of_use(graph, cut);
    let members = cut.count();
    for _ in taken..members {
        list.push(no_op())?;
    }
    Ok(())
}

/// How many words the use of the cut's unit takes: one for each output, and one that passes further inputs, where there
/// are any.
fn words_of_use(graph: &Graph, cut: &Row) -> u32
    requires { FitsSomeLimits graph.now (set.contains cut.now) }
    ensures { result ≡ 1 + further_words graph.now (set.contains cut.now) }
{
    outputs(graph, cut) + u32::from(inputs(graph, cut) > 3)
}

/// `addi x0, x0, 0`, the word 00000013.
fn no_op() -> Insn
    ensures { result ≡ terms.no_op }
{
    Insn::AluImm {
        op: Op::Add,
        rd: Reg::zero(),
        rs1: Reg::zero(),
        imm: 0,
    }
}
