//! The netlists of modules.
ghost use Rattle.std.specs.Prelude.{◌≡◌, ◌+◌, ◌≤◌, ◌<◌, ◌∷◌, [], ◌++◌, List, length, OnOk, IfOk};
ghost use Rattle.ci_verilog.specs.declared.expressions.Expr.{Expr};
ghost use Rattle.ci_gates.specs.Modules.{HasFewGates, IsNetlistOf};
ghost use Rattle.ci_gates.specs.private.Wired.{slot_of, AreInputs, AreWords, AreBehind, IsNext, IsResult, AreOutputs};

use crate::building::Builder;
use crate::counts::count;
use crate::inputs::input_word;
use crate::scopes::Scope;
use crate::words::copies;
use ci_netlist::{Bit, Netlist};
use ci_verilog::{Expr, Module};
use std::alloc::{AllocError, Global};

/// The inputs that a netlist has.
const INPUTS: u8 = 5;

/// The bits that each name has.
const BITS: usize = 64;

/// Puts a word behind the others, with zeros above it.
fn push_word(alloc: Global, words: &mut Vec<Bit>, bits: &[Bit]) -> Result<(), AllocError>
    requires { length bits.now ≤ 64 }
    ensures { OnOk result (words.new.items ≡ words.old.items ++ slot_of bits.now) }
{
    let zeros = copies(alloc, Bit::Zero, BITS - bits.len())?;
    words.extend_from_slice(bits)?;
    words.extend_from_slice(&zeros)
}

/// The words of the inputs.
fn input_words(alloc: Global) -> Result<Vec<Bit>, AllocError>
    ensures { IfOk result (λ words. AreInputs words.items 5) }
{
    let mut words = Vec::new(alloc);
    for input in 0..INPUTS {
        let word = input_word(alloc, input)?;
        push_word(alloc, &mut words, &word)?;
    }
    Ok(words)
}

/// The bits of the module's wire k, for which gates are appended.
fn wire_bits(
    alloc: Global,
    builder: &mut Builder,
    module: &Module,
    words: &[Bit],
    k: usize,
) -> Result<Vec<Bit>, AllocError>
    requires there { k < length «module».now.wires.list }
    requires words_are { AreWords «module».now builder.old words.now k }
    requires few { HasFewGates «module».now }
    ensures narrow { IfOk result (λ bits. length bits.items ≤ 64) }
    ensures words { IfOk result (λ bits. AreWords «module».now builder.new (words.now ++ slot_of bits.items) (k + 1)) }
{
    // That the gates so far are gates.
    let _made = builder.len();
    let all = module.wires();
    let wires = all.as_slice();
    let scope = Scope {
        wide: all.is_wide(),
        wires: &wires[..k],
        words,
    };
    scope.expr(alloc, builder, &wires[k].value)
}

/// The words of the inputs and the wires, for which gates are appended.
fn words_of(alloc: Global, builder: &mut Builder, module: &Module) -> Result<Vec<Bit>, AllocError>
    requires start { builder.old ≡ [] }
    requires few { HasFewGates «module».now }
    ensures { IfOk result (λ words. AreWords «module».now builder.new words.items (length «module».now.wires.list)) }
{
    let mut words = input_words(alloc)?;
    for k in 0..module.wires().as_slice().len() {
        let bits = wire_bits(alloc, builder, module, &words, k)?;
        push_word(alloc, &mut words, &bits)?;
    }
    Ok(words)
}

/// The bits of a result, for which gates are appended.
fn result_bits(
    alloc: Global,
    builder: &mut Builder,
    module: &Module,
    words: &[Bit],
    expr: &Expr,
) -> Result<Vec<Bit>, AllocError>
    requires next { (exprs : List Expr) × AreBehind «module».now builder.old words.now exprs × IsNext «module».now exprs expr.now }
    requires few { HasFewGates «module».now }
    ensures value { IfOk result (λ bits. IsResult «module».now builder.old builder.new expr.now bits.items) }
    ensures behind { OnOk result ((exprs : List Expr) → AreBehind «module».now builder.old words.now exprs
        → IsNext «module».now exprs expr.now → AreBehind «module».now builder.new words.now (exprs ++ expr.now ∷ [])) }
{
    // That the gates so far are gates.
    let _made = builder.len();
    let all = module.wires();
    let scope = Scope {
        wide: all.is_wide(),
        wires: all.as_slice(),
        words,
    };
    scope.expr(alloc, builder, expr)
}

/// The bits of the results, for which gates are appended.
fn outputs_of(
    alloc: Global,
    builder: &mut Builder,
    module: &Module,
    words: &[Bit],
) -> Result<Vec<Bit>, AllocError>
    requires words_are { AreWords «module».now builder.old words.now (length «module».now.wires.list) }
    requires few { HasFewGates «module».now }
    ensures { IfOk result (λ bits. AreOutputs «module».now builder.new bits.items) }
{
    let y = result_bits(alloc, builder, module, words, module.y())?;
    let z = result_bits(alloc, builder, module, words, module.z())?;
    let x = result_bits(alloc, builder, module, words, module.x())?;
    joined(y, &z, &x)
}

/// Three words, one behind the other.
fn joined(first: Vec<Bit>, second: &[Bit], third: &[Bit]) -> Result<Vec<Bit>, AllocError>
    ensures { IfOk result (λ bits. bits.items ≡ first.items ++ (second.now ++ third.now)) }
{
    let mut bits = first;
    bits.extend_from_slice(second)?;
    bits.extend_from_slice(third)?;
    Ok(bits)
}

/// The netlist of the module, whose count has to be at most 4,194,304. It has that many gates, and at all words the
/// module's values.
///
/// # Errors
///
/// Out of memory.
pub fn of_module(alloc: Global, module: &Module) -> Result<Netlist, AllocError>
    requires { HasFewGates «module».now }
    ensures { IfOk result (IsNetlistOf «module».now) }
{
    let mut builder = Builder::with_room(alloc, count(module) as usize)?;
    let words = words_of(alloc, &mut builder, module)?;
    let outputs = outputs_of(alloc, &mut builder, module, &words)?;
    Ok(builder.finished(outputs))
}
