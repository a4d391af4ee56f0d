//! The words by which a block uses the unit of a cut.
ghost use Rattle.std.specs.Prelude.{◌≡◌, ◌<◌, [], ◌∷◌, ◌++◌, length, find, slice_get, IfSome, All};
ghost use Rattle.std.specs.Prelude.{if◌then◌else◌};
ghost use Rattle.std.specs.Option.{option_to_list};
ghost use Rattle.std.specs.FinSet as set;
ghost use Rattle.ci_cut.specs.GraphRules.{AreNodes};
ghost use Rattle.smallvec.specs.SmallVec.{HasRoomFor};
ghost use Rattle.ci_isa.specs.declared.instruction.Insn.TheVariants.{Cput};
ghost use Rattle.ci_isa.specs.Table.{IsWellFormed};
ghost use Rattle.ci_unit.specs.Operands.{AreOperands, FitsSomeLimits};
ghost use Rattle.ci_unit.specs.private.Reading as reading;
ghost use Rattle.ci_unit.specs.private.Reading.{inputs_below, outputs_below, sources_below, AreFirstOf, IsRegister};
ghost use Rattle.ci_unit.specs.Uses as terms;
ghost use Rattle.ci_unit.specs.Uses.{AreRegisters, passes};

use crate::cuts::{has_source, is_output, is_outside};
use crate::unit_use::UnitUse;
use ci_cut::{Graph, Source, inputs};
use ci_isa::{Insn, Reg, result_register};
use ci_word::Row;
use smallvec::SmallVec;
use std::alloc::Global;

/// The words by which a block uses the unit of a cut, as the unit of this number: the `cput` where there are more than
/// three inputs, the unit word, and a `cread` for each output behind the first. It takes no memory: `alloc` is that of
/// the list, whose words stand in their places inline.
///
/// The unit word takes the registers of the first three inputs in their order, x0 where there is none, and gives the
/// first output to its register. The `cput` passes the registers of the fourth and the fifth input, x0 where there is
/// no fifth. A `cread` gives the second output to its own register, from the first hidden result, and one gives the
/// third, from the second.
///
/// As for `unit_of`, the graph has to be that of the instructions and the cut has to fit under some limits. The number
/// is below 32.
pub fn encode_use(alloc: Global, insns: &[Insn], graph: &Graph, cut: &Row, number: u8) -> UnitUse
    requires operands { AreOperands insns.now graph.now }
    requires registers { AreRegisters graph.now }
    requires fits { FitsSomeLimits graph.now (set.contains cut.now) }
    requires number { number < 32 }
    ensures put { option_to_list result.put ≡ terms.input_put insns.now graph.now (set.contains cut.now) }
    ensures unit { result.unit ≡ terms.unit_word insns.now graph.now (set.contains cut.now) number }
    ensures reads { result.reads.items ≡ terms.output_reads insns.now graph.now (set.contains cut.now) }
    ensures well_formed { IfSome result.put IsWellFormed × IsWellFormed result.unit
        × All IsWellFormed result.reads.items }
{
    let (a, b, c, d, e) = five_inputs(graph, cut);
    let (first, second, third) = three_outputs(graph, cut);
    let unit = Insn::Unit {
        number,
        rd: register_or_zero(insns, first),
        rs1: register_or_zero(insns, a),
        rs2: register_or_zero(insns, b),
        rs3: register_or_zero(insns, c),
    };
    let mut reads = SmallVec::new(alloc);
    push_read(&mut reads, insns, second, 0);
    push_read(&mut reads, insns, third, 1);
    UnitUse {
        put: input_put(insns, graph, cut, d, e),
        unit,
        reads,
    }
}

/// The register that a source is in.
fn register_of(insns: &[Insn], source: Source) -> Reg
    requires { IsRegister source }
    ensures { result ≡ terms.register_of insns.now source }
{
    match source {
        Source::Entry(register) => Reg::new(register).unwrap(),
        Source::Made(node) => match insns.get(node as usize) {
            Some(insn) => result_register(insn),
            None => Reg::zero(),
        },
    }
}

/// The register that a source is in, and x0 for none.
fn register_or_zero(insns: &[Insn], source: Option<Source>) -> Reg
    requires { IfSome source IsRegister }
    ensures value { result ≡ reading.register_or_zero insns.now source }
    ensures below { result < 32 }
{
    let register = match source {
        Some(source) => register_of(insns, source),
        None => Reg::zero(),
    };
    // The bound of a register's number is known where it is read.
    prove!(register.number() < 32);
    register
}

/// The `cput` of the fourth and the fifth input, x0 for none, where the cut has more than three inputs.
fn input_put(
    insns: &[Insn],
    graph: &Graph,
    cut: &Row,
    fourth: Option<Source>,
    fifth: Option<Source>,
) -> Option<Insn>
    requires nodes { AreNodes graph.now cut.now }
    requires registers { IfSome fourth IsRegister × IfSome fifth IsRegister }
    ensures value { option_to_list result ≡ (if passes graph.now (set.contains cut.now)
        then Cput (reading.register_or_zero insns.now fourth) (reading.register_or_zero insns.now fifth) ∷ []
        else []) }
    ensures well_formed { IfSome result IsWellFormed }
{
    if inputs(graph, cut) <= 3 {
        return None;
    }
    let rs1 = register_or_zero(insns, fourth);
    let rs2 = register_or_zero(insns, fifth);
    Some(Insn::Cput { rs1, rs2 })
}

/// Puts the `cread` of the hidden result of this index into the register of this output at the end, if there is one.
fn push_read(reads: &mut SmallVec<Insn, 2>, insns: &[Insn], output: Option<Source>, index: u8)
    requires room { HasRoomFor reads.old 1 }
    requires register { IfSome output IsRegister }
    requires index { index < 2 }
    ensures items { reads.new.items ≡ reads.old.items ++ reading.read_of insns.now index output }
    ensures capacity { reads.new.capacity ≡ reads.old.capacity }
    ensures well_formed { All IsWellFormed reads.old.items → All IsWellFormed reads.new.items }
{
    if let Some(output) = output {
        let rd = register_of(insns, output);
        // The bound of a register's number is known where it is read.
        prove!(rd.number() < 32);
        reads.push_reserved(Insn::Cread { rd, index });
    }
}

/// Sources, as far as there are any.
type FiveSources = (
    Option<Source>,
    Option<Source>,
    Option<Source>,
    Option<Source>,
    Option<Source>,
);

/// The first five inputs of the cut, as far as there are any.
fn five_inputs(graph: &Graph, cut: &Row) -> FiveSources
    requires { AreRegisters graph.now }
    ensures inputs { AreFirstOf (inputs_below graph.now (set.contains cut.now) (length graph.now.nodes))
        result.0 result.1 result.2 result.3 result.4 }
    ensures registers { IfSome result.0 IsRegister × IfSome result.1 IsRegister × IfSome result.2 IsRegister
        × IfSome result.3 IsRegister × IfSome result.4 IsRegister }
{
    let Some(first) = next_input(graph, cut, &[]) else {
        return (None, None, None, None, None);
    };
    let Some(second) = next_input(graph, cut, &[first]) else {
        return (Some(first), None, None, None, None);
    };
    let Some(third) = next_input(graph, cut, &[first, second]) else {
        return (Some(first), Some(second), None, None, None);
    };
    let Some(fourth) = next_input(graph, cut, &[first, second, third]) else {
        return (Some(first), Some(second), Some(third), None, None);
    };
    let fifth = next_input(graph, cut, &[first, second, third, fourth]);
    (Some(first), Some(second), Some(third), Some(fourth), fifth)
}

/// The first source that a member reads from outside the cut, and that is not among those that were seen.
fn next_input(graph: &Graph, cut: &Row, seen: &[Source]) -> Option<Source>
    requires { AreRegisters graph.now }
    ensures registers { IfSome result IsRegister }
    ensures value { let cut = set.contains cut.now in
        result ≡ find (reading.is_further cut seen.now) (sources_below graph.now cut (length graph.now.nodes)) }
{
    let mut found = None;
    for (k, node) in graph.nodes().iter().enumerate() {
        if cut.has(k as u8) {
            found = found.or(next_source(node.sources.as_slice(), cut, seen));
        }
    }
    found
}

/// The first of the sources that lies outside the cut, and is not among those that were seen.
fn next_source(sources: &[Source], cut: &Row, seen: &[Source]) -> Option<Source>
    ensures { result ≡ find (reading.is_further (set.contains cut.now) seen.now) sources.now }
{
    for source in sources {
        if is_further(*source, cut, seen) {
            return Some(*source);
        }
    }
    None
}

/// Whether the source lies outside the cut, and is not among those that were seen.
fn is_further(source: Source, cut: &Row, seen: &[Source]) -> bool
    ensures { result ≡ reading.is_further (set.contains cut.now) seen.now source }
{
    is_outside(source, cut) && !has_source(seen, source)
}

/// The first three outputs of the cut, as far as there are any.
fn three_outputs(graph: &Graph, cut: &Row) -> (Option<Source>, Option<Source>, Option<Source>)
    ensures outputs { let outputs = outputs_below graph.now (set.contains cut.now) (length graph.now.nodes) in
        (result.0 ≡ slice_get outputs 0) × (result.1 ≡ slice_get outputs 1) × (result.2 ≡ slice_get outputs 2) }
    ensures registers { IfSome result.0 IsRegister × IfSome result.1 IsRegister × IfSome result.2 IsRegister }
{
    let mut first = None;
    let mut second = None;
    let mut third = None;
    for k in 0..graph.nodes().len() {
        if is_output(graph, cut, k as u8) {
            let output = Some(Source::Made(k as u8));
            third = third.or(second.and(output));
            second = second.or(first.and(output));
            first = first.or(output);
        }
    }
    (first, second, third)
}
