//! The modules of units.
ghost use Rattle.std.specs.Prelude.{◌≡◌, IfOk};
ghost use Rattle.std.specs.List.{list_any};
ghost use Rattle.ci_vemit.specs.Templates as terms;
ghost use Rattle.ci_vemit.specs.Templates.{output_at, wires_from, module_of, modules_of};

use crate::parts::{constant, whole};
use crate::templates::push_operation;
use ci_unit::{Arg, Unit, UnitOp, UnitTable};
use ci_verilog::{Expr, Module, Wire, Wires};
use std::alloc::{AllocError, Global};

/// The modules of a table's units, in their order: module k has number k, the cycles of unit k, and at all words its
/// values.
///
/// # Errors
///
/// Out of memory.
#[tactic(auto, using(crate::proofs::BuildingLaws::modules_more))]
pub fn modules(alloc: Global, units: &UnitTable) -> Result<Vec<Module>, AllocError>
    ensures { IfOk result (λ modules. modules.items ≡ modules_of units.now) }
{
    let mut modules = Vec::new(alloc);
    for (k, unit) in units.as_slice().iter().enumerate() {
        modules.push(module(alloc, k as u8, unit)?)?;
    }
    Ok(modules)
}

/// The module of this number that computes the unit.
fn module(alloc: Global, number: u8, unit: &Unit) -> Result<Module, AllocError>
    ensures { IfOk result (λ m. m ≡ module_of number unit.now) }
{
    let wires = wires_of(alloc, unit)?;
    let outputs = unit.outputs();
    let (y, z, x) = results(alloc, &wires, outputs)?;
    let cycles = unit.cycles();
    let wires = Wires::from_vec(is_wide(unit), wires);
    Ok(Module::new(number, cycles, wires, y, z, x))
}

/// Whether the unit has more than three inputs, of which an operation takes the fourth or the fifth, or three outputs.
fn is_wide(unit: &Unit) -> bool
    ensures { result ≡ terms.is_wide unit.now }
{
    take_further(unit.ops()) || unit.outputs().len() > 2
}

/// Whether one of the operations takes an input that a narrow module doesn't have.
fn take_further(ops: &[UnitOp]) -> bool
    ensures { result ≡ list_any terms.takes_further ops.now }
{
    for op in ops {
        if is_further(op.left) || is_further(op.right) {
            return true;
        }
    }
    false
}

/// Whether the argument is an input that a narrow module doesn't have.
fn is_further(arg: Arg) -> bool
    ensures { result ≡ terms.is_further arg }
{
    match arg {
        Arg::Input(i) => i > 2,
        Arg::Earlier(_) | Arg::Constant(_) => false,
    }
}

/// The results of the first three outputs.
fn results(alloc: Global, wires: &[Wire], outputs: &[u8]) -> Result<(Expr, Expr, Expr), AllocError>
    ensures y { IfOk result (λ all. all.0 ≡ output_at outputs.now 0) }
    ensures z { IfOk result (λ all. all.1 ≡ output_at outputs.now 1) }
    ensures x { IfOk result (λ all. all.2 ≡ output_at outputs.now 2) }
{
    let y = output(alloc, wires, outputs, 0)?;
    // At a `?` the proof would walk through all that an expression can be.
    let z = match output(alloc, wires, outputs, 1) {
        Ok(z) => z,
        Err(error) => {
            drop(y);
            return Err(error);
        }
    };
    match output(alloc, wires, outputs, 2) {
        Ok(x) => Ok((y, z, x)),
        Err(error) => {
            drop(y);
            drop(z);
            Err(error)
        }
    }
}

/// The wires of a unit's operations.
#[tactic(auto, using(crate::proofs::BuildingLaws::wires_more))]
fn wires_of(alloc: Global, unit: &Unit) -> Result<Vec<Wire>, AllocError>
    ensures { IfOk result (λ wires. wires.items ≡ wires_from 0 unit.now.ops) }
{
    let mut wires = Vec::new(alloc);
    for (n, op) in unit.ops().iter().enumerate() {
        push_operation(alloc, &mut wires, n as u8, op)?;
    }
    Ok(wires)
}

/// The result of the output at this place, or 0 where there is none.
fn output(alloc: Global, wires: &[Wire], outputs: &[u8], place: usize) -> Result<Expr, AllocError>
    ensures { IfOk result (λ expr. expr ≡ output_at outputs.now place) }
{
    match outputs.get(place) {
        Some(number) => Ok(Expr::One(whole(alloc, wires, "t", *number)?)),
        None => Ok(Expr::One(constant(0))),
    }
}
