//! The unit of a cut.
ghost use Rattle.std.specs.Prelude.{◌≡◌, ◌<◌, ◌≤◌, not, [], ◌∷◌, drop, length, map, All, IfOk, OnOk};
ghost use Rattle.std.specs.FinSet as set;
ghost use Rattle.std.specs.List.{list_any};
ghost use Rattle.ci_word.specs.Numbers.{count_below, numbers_below};
ghost use Rattle.ci_isa.specs.Effects as effects;
ghost use Rattle.ci_cut.specs.declared.graph.Source.TheVariants.{Made};
ghost use Rattle.ci_cut.specs.FlowGraph.{is_source};
ghost use Rattle.ci_cut.specs.Ports as ports;
ghost use Rattle.ci_unit.specs.Operands.{AreOperands, FitsSomeLimits};
ghost use Rattle.ci_unit.specs.private.Reading.{inputs_below, with_inputs, IsSmall, IsWordArg, HasWords};
ghost use Rattle.ci_unit.specs.Units as terms;
ghost use Rattle.ci_unit.specs.Units.{arg_from, args_from, arg_at, operation_of, place_in};

use crate::operations::{Arg, UnitOp};
use crate::units::Unit;
use ci_cut::{Graph, Source, Sources, hardware};
use ci_isa::{Insn, class};
use ci_word::{Class, Op, Row};
use smallvec::SmallVec;
use std::alloc::{AllocError, Global};

/// The unit of a cut: the operations of its members in the order of the block, with what they are applied to, its
/// outputs and the cycles of its critical path.
///
/// Inputs are numbered by first use, in the order of the block and of the operands. An operand x0 is the constant 0,
/// and LUI adds 0 to its constant.
///
/// The graph has to be that of the instructions, as the graph of their block is, and the cut has to fit under some
/// limits.
///
/// # Errors
///
/// Out of memory.
pub fn unit_of(alloc: Global, insns: &[Insn], graph: &Graph, cut: &Row) -> Result<Unit, AllocError>
    requires operands { AreOperands insns.now graph.now }
    requires fits { FitsSomeLimits graph.now (set.contains cut.now) }
    ensures { IfOk result (λ unit. unit ≡ terms.unit_of insns.now graph.now (set.contains cut.now)) }
{
    // What a graph keeps is known where its nodes are read.
    prove!(graph.nodes().len() <= 256);
    let inputs = inputs_of(alloc, graph, cut)?;
    let ops = operations(alloc, insns, graph, cut, inputs.as_slice())?;
    let outputs = outputs(alloc, graph, cut)?;
    Ok(Unit::new(ops, outputs, hardware(graph, cut)))
}

/// The sources outside the cut that its members read, each once, by first use.
fn inputs_of(alloc: Global, graph: &Graph, cut: &Row) -> Result<Sources, AllocError>
    ensures value { IfOk result (λ inputs.
        inputs ≡ inputs_below graph.now (set.contains cut.now) (length graph.now.nodes)) }
    ensures small { IfOk result (All IsSmall) }
{
    let mut inputs = Sources::new(alloc);
    for (k, node) in graph.nodes().iter().enumerate() {
        if cut.has(k as u8) {
            push_inputs(&mut inputs, node.sources.as_slice(), cut)?;
        }
    }
    Ok(inputs)
}

/// Puts those sources at the end that lie outside the cut and are not there yet.
fn push_inputs(inputs: &mut Sources, sources: &[Source], cut: &Row) -> Result<(), AllocError>
    ensures value { OnOk result (inputs.new ≡ with_inputs (set.contains cut.now) inputs.old sources.now) }
    ensures small { OnOk result (All IsSmall inputs.old → All IsSmall inputs.new) }
{
    for source in sources {
        if is_outside(*source, cut) && !has_source(inputs.as_slice(), *source) {
            inputs.push(*source)?;
        }
    }
    Ok(())
}

/// Whether the source is a register at entry, or a node outside the cut.
pub(crate) fn is_outside(source: Source, cut: &Row) -> bool
    ensures value { result ≡ ports.is_outside (set.contains cut.now) source }
    ensures small { IsSmall source }
{
    match source {
        Source::Entry(_) => true,
        Source::Made(node) => !cut.has(node),
    }
}

/// Whether the source is among these.
pub(crate) fn has_source(sources: &[Source], source: Source) -> bool
    ensures { result ≡ list_any (is_source source) sources.now }
{
    for other in sources {
        if *other == source {
            return true;
        }
    }
    false
}

/// The operations of the members, in the order of the block.
fn operations(
    alloc: Global,
    insns: &[Insn],
    graph: &Graph,
    cut: &Row,
    inputs: &[Source],
) -> Result<Vec<UnitOp>, AllocError>
    requires same_length { length graph.now.nodes ≡ length insns.now }
    requires few { length inputs.now ≤ 5 }
    ensures value { let cut = set.contains cut.now in IfOk result (λ ops.
        ops.items ≡ map (terms.op_of insns.now graph.now cut inputs.now) (numbers_below (length insns.now) cut)) }
    ensures words { IfOk result (λ ops. All HasWords ops.items) }
{
    let mut ops = Vec::new(alloc);
    for (k, node) in graph.nodes().iter().enumerate() {
        if cut.has(k as u8) {
            ops.push(operation(&insns[k], node.sources.as_slice(), inputs, cut))?;
        }
    }
    Ok(ops)
}

/// The operation of an instruction whose operands have these sources.
fn operation(insn: &Insn, sources: &[Source], inputs: &[Source], cut: &Row) -> UnitOp
    requires { length inputs.now ≤ 5 }
    ensures value { result ≡ operation_of insn.now (args_from (set.contains cut.now) inputs.now
        (effects.operands insn.now) sources.now) }
    ensures words { HasWords result }
{
    let class = class(insn);
    match *insn {
        Insn::Alu { op, rs1, rs2, .. } => {
            let second = usize::from(rs1.number() != 0);
            let left = argument(rs1.number(), sources, 0, inputs, cut);
            let right = argument(rs2.number(), sources, second, inputs, cut);
            UnitOp {
                class,
                op,
                left,
                right,
            }
        }
        Insn::AluImm { op, rs1, imm, .. } => UnitOp {
            class,
            op,
            left: argument(rs1.number(), sources, 0, inputs, cut),
            right: Arg::Constant(imm.cast_unsigned()),
        },
        Insn::Lui { upper, .. } => {
            // The range of the field is known where it is read.
            prove!(upper <= u32::MAX);
            UnitOp {
                class,
                op: Op::Add,
                left: Arg::Constant(upper),
                right: Arg::Constant(0),
            }
        }
        // No member is another instruction.
        _ => UnitOp {
            class: Class::System,
            op: Op::Add,
            left: Arg::Constant(0),
            right: Arg::Constant(0),
        },
    }
}

/// What an operand in this register is, where the source at this place is its own.
fn argument(register: u8, sources: &[Source], place: usize, inputs: &[Source], cut: &Row) -> Arg
    requires { length inputs.now ≤ 5 }
    ensures value { result
        ≡ arg_at (args_from (set.contains cut.now) inputs.now (register ∷ []) (drop place sources.now)) 0 }
    ensures word { IsWordArg result }
{
    if register == 0 {
        return Arg::Constant(0);
    }
    match sources.get(place) {
        Some(source) => argument_from(*source, inputs, cut),
        None => Arg::Constant(0),
    }
}

/// What an operand of this source is: a member's result, by its number among the members, or an input.
fn argument_from(source: Source, inputs: &[Source], cut: &Row) -> Arg
    requires { length inputs.now ≤ 5 }
    ensures value { result ≡ arg_from (set.contains cut.now) inputs.now source }
    ensures word { IsWordArg result }
{
    match source {
        Source::Made(node) => {
            if cut.has(node) {
                Arg::Earlier(members_below(cut, node))
            } else {
                Arg::Input(place_of(source, inputs))
            }
        }
        Source::Entry(_) => Arg::Input(place_of(source, inputs)),
    }
}

/// How many members have a smaller number.
fn members_below(cut: &Row, node: u8) -> u8
    ensures { result ≡ count_below node (set.contains cut.now) }
{
    let mut count = 0;
    for k in 0..node {
        if cut.has(k) {
            count += 1;
        }
    }
    count
}

/// The place of the source among the inputs, and past their end where it is none.
fn place_of(source: Source, inputs: &[Source]) -> u8
    requires { length inputs.now ≤ 5 }
    ensures { result ≡ place_in inputs.now source }
{
    for (place, input) in inputs.iter().enumerate() {
        if *input == source {
            return place as u8;
        }
    }
    inputs.len() as u8
}

/// The outputs, by their numbers among the members.
fn outputs(alloc: Global, graph: &Graph, cut: &Row) -> Result<SmallVec<u8, 3>, AllocError>
    ensures { IfOk result (λ outputs. outputs.items ≡ map (λ k. count_below k (set.contains cut.now))
        (numbers_below (length graph.now.nodes) (ports.is_output graph.now (set.contains cut.now)))) }
{
    let mut outputs = SmallVec::new(alloc);
    let mut number = 0usize;
    for k in 0..graph.nodes().len() {
        if is_output(graph, cut, k as u8) {
            outputs.push(number as u8)?;
        }
        if cut.has(k as u8) {
            number += 1;
        }
    }
    Ok(outputs)
}

/// Whether node `k` is a member whose value is live after the block or read by a node outside.
pub(crate) fn is_output(graph: &Graph, cut: &Row, k: u8) -> bool
    requires { k < length graph.now.nodes }
    ensures { result ≡ ports.is_output graph.now (set.contains cut.now) k }
{
    cut.has(k) && (graph.nodes()[k as usize].live || is_read_outside(graph, cut, k))
}

/// Whether a node outside the cut reads the value of node `k`.
fn is_read_outside(graph: &Graph, cut: &Row, k: u8) -> bool
    ensures { result ≡ ports.is_read_by graph.now (λ j. not (set.contains cut.now j)) (Made k) }
{
    for (j, node) in graph.nodes().iter().enumerate() {
        if !cut.has(j as u8) && has_source(node.sources.as_slice(), Source::Made(k)) {
            return true;
        }
    }
    false
}
