//! What a line asks for: the unit of a cut, or the block that is folded by it.
ghost use Rattle.std.specs.Prelude.{◌<◌, ◌≤◌, IfOk, IfSome, length};
ghost use Rattle.std.specs.FinSet as set;
ghost use Rattle.ci_cut.specs.GraphRules.{AreNodes};
ghost use Rattle.ci_dfg.specs.Bundles.{AreBundled};
ghost use Rattle.ci_rewrite.specs.Blocks.{AllFieldsFit};
ghost use Rattle.ci_unit.specs.Operands.{FitsSomeLimits};

use crate::cuts::{MOST_UNITS, MOST_WORDS, is_cut};
use crate::instructions::insns_of;
use ci_cut::Graph;
use ci_dfg::{are_bundled, graph};
use ci_isa::Insn;
use ci_lat::Table;
use ci_reading::number_of_digits;
use ci_rewrite::fold;
use ci_unit::{Unit, unit_of};
use ci_word::Row;
use std::alloc::{AllocError, Global};

/// The number of registers.
const REGISTERS: u8 = 32;

/// The unit of the cut, if the line has the words of a block, `|`, and the numbers of a cut that fits. An Err is out of
/// memory.
pub fn unit_of_line(alloc: Global, line: &str) -> Result<Option<Unit>, AllocError> {
    let Some((words, members)) = line.split_once('|') else {
        return Ok(None);
    };
    let Some(insns) = block_of(alloc, words)? else {
        return Ok(None);
    };
    unit_in_block(alloc, insns.as_slice(), members)
}

/// The unit of the cut of these members, if it fits.
fn unit_in_block(alloc: Global, insns: &[Insn], members: &str) -> Result<Option<Unit>, AllocError>
    requires few { length insns.now ≤ 256 }
    requires bundled { AreBundled insns.now }
{
    let graph = graph(alloc, insns, every_register(), &Table::usual())?;
    let Some(cut) = cut_of(&graph, members) else {
        return Ok(None);
    };
    Ok(Some(unit_of(alloc, insns, &graph, &cut)?))
}

/// The folded block, if the line has the words of a block, the numbers of a cut that fits, the number of its unit, and
/// the registers that are live after the block, with `|` between them. An Err is out of memory.
pub fn folded_of_line(alloc: Global, line: &str) -> Result<Option<Vec<Insn>>, AllocError>
    ensures { IfOk result (λ found. IfSome found (λ folded. AllFieldsFit folded.items)) }
{
    let Some((words, rest)) = line.split_once('|') else {
        return Ok(None);
    };
    let Some(insns) = block_of(alloc, words)? else {
        return Ok(None);
    };
    folded_block(alloc, insns.as_slice(), rest)
}

/// The block that is folded by the cut, if the text has the cut's members, a number, and registers.
fn folded_block(alloc: Global, insns: &[Insn], text: &str) -> Result<Option<Vec<Insn>>, AllocError>
    requires few { length insns.now ≤ 256 }
    requires bundled { AreBundled insns.now }
    requires fit { AllFieldsFit insns.now }
    ensures { IfOk result (λ found. IfSome found (λ folded. AllFieldsFit folded.items)) }
{
    let Some((members, number, live)) = parts_of(text) else {
        return Ok(None);
    };
    let graph = graph(alloc, insns, live, &Table::usual())?;
    let Some(cut) = cut_of(&graph, members) else {
        return Ok(None);
    };
    Ok(Some(fold(alloc, insns, &graph, &cut, number)?))
}

/// The text of the members, the number of the unit, and the set of registers.
fn parts_of(text: &str) -> Option<(&str, u8, Row)>
    ensures { IfSome result (λ parts. parts.1 < 32) }
{
    let (members, rest) = text.split_once('|')?;
    let (number, registers) = rest.split_once('|')?;
    let number = number_of_digits(10, 2, number.trim().as_bytes())?;
    if number >= MOST_UNITS as u64 {
        return None;
    }
    Some((members, number as u8, registers_of(registers)?))
}

/// The instructions of up to 256 words of hex digits, whose bundles are whole.
fn block_of(alloc: Global, text: &str) -> Result<Option<Vec<Insn>>, AllocError>
    ensures few { IfOk result (λ found. IfSome found (λ insns. length insns.items ≤ 256)) }
    ensures bundled { IfOk result (λ found. IfSome found (λ insns. AreBundled insns.items)) }
    ensures fit { IfOk result (λ found. IfSome found (λ insns. AllFieldsFit insns.items)) }
{
    let mut words = Vec::new(alloc);
    for digits in text.split_whitespace() {
        let Some(word) = number_of_digits(16, 8, digits.as_bytes()) else {
            return Ok(None);
        };
        words.push(word as u32)?;
    }
    let insns = insns_of(alloc, words.as_slice())?;
    if insns.len() > MOST_WORDS || !are_bundled(insns.as_slice()) {
        return Ok(None);
    }
    Ok(Some(insns))
}

/// The set of decimal numbers, if it is a cut that fits.
fn cut_of(graph: &Graph, members: &str) -> Option<Row>
    ensures { IfSome result (λ cut. FitsSomeLimits graph.now (set.contains cut)) }
{
    let cut = nodes_of(graph, members)?;
    if !is_cut(graph, &cut) {
        return None;
    }
    Some(cut)
}

/// The set of decimal numbers, if they are nodes.
#[tactic(auto, using(crate::proofs::NodeSets::no_nodes, crate::proofs::NodeSets::insert_node))]
fn nodes_of(graph: &Graph, members: &str) -> Option<Row>
    ensures { IfSome result (λ nodes. AreNodes graph.now nodes) }
{
    let mut nodes = Row::empty();
    for digits in members.split_whitespace() {
        let node = number_of_digits(10, 3, digits.as_bytes())? as usize;
        if node >= graph.nodes().len() {
            return None;
        }
        nodes.insert(node as u8);
    }
    Some(nodes)
}

/// The set of the registers of these decimal numbers.
fn registers_of(numbers: &str) -> Option<Row> {
    let mut registers = Row::empty();
    for digits in numbers.split_whitespace() {
        let register = number_of_digits(10, 2, digits.as_bytes())?;
        if register >= REGISTERS as u64 {
            return None;
        }
        registers.insert(register as u8);
    }
    Some(registers)
}

/// x0 to x31.
fn every_register() -> Row {
    let mut registers = Row::empty();
    for register in 0..REGISTERS {
        registers.insert(register);
    }
    registers
}
