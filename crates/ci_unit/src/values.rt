//! What a unit computes.
ghost use Rattle.std.specs.Prelude.{◌≡◌, ℕ, ◌<◌, [], ◌∷◌, length, map, slice_index};
ghost use Rattle.ci_unit.specs.Units.{IsTripleOf, IsArg, arg_value, op_value, op_at};

use crate::operations::Arg;
use crate::units::Unit;
use ci_word::alu;

/// The outputs of the unit at these values of its inputs, in their order, and 0 for each that is not there.
pub fn apply(unit: &Unit, a: u32, b: u32, c: u32, d: u32, e: u32) -> (u32, u32, u32)
    ensures { IsTripleOf unit.now (a ∷ b ∷ c ∷ d ∷ e ∷ []) (result.0 ∷ result.1 ∷ result.2 ∷ []) }
{
    let results = results_of(unit, &[a, b, c, d, e]);
    let outputs = unit.outputs();
    let first = output(outputs, 0, &results);
    let second = output(outputs, 1, &results);
    let third = output(outputs, 2, &results);
    (first, second, third)
}

/// The output at this place, by the results, and 0 where there is none.
fn output(outputs: &[u8], place: usize, results: &[u32; 256]) -> u32
    ensures { result ≡ slice_index (map (slice_index results.now) outputs.now) place }
{
    match outputs.get(place) {
        Some(n) => results[*n as usize],
        None => 0,
    }
}

/// What each operation of the unit gives, in their order, and further words.
fn results_of(unit: &Unit, inputs: &[u32; 5]) -> [u32; 256]
    ensures size { length result ≡ 256 }
    ensures value { (k : ℕ) → k < length unit.now.ops
        → slice_index result k ≡ op_value inputs.now result (op_at unit.now k) }
{
    let mut results = [0u32; 256];
    for (k, op) in unit.ops().iter().enumerate() {
        let left = argument(op.left, inputs, &results);
        let right = argument(op.right, inputs, &results);
        results[k] = alu(op.op, left, right);
    }
    results
}

/// The value of an argument, by the inputs and the results so far.
fn argument(arg: Arg, inputs: &[u32; 5], results: &[u32; 256]) -> u32
    requires { IsArg 256 arg }
    ensures { result ≡ arg_value inputs.now results.now arg }
{
    match arg {
        Arg::Input(i) => inputs[i as usize],
        Arg::Earlier(n) => results[n as usize],
        Arg::Constant(word) => word,
    }
}
