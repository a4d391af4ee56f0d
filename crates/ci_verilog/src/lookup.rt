//! What a name stands for.
ghost use Rattle.std.specs.Prelude.{◌≡◌, ◌≢◌, ℕ, ◌<◌, length, IfSome, IsNone, IsTrue, ◌↔◌};
ghost use Rattle.std.specs.List.{slice_index_or};
ghost use Rattle.ci_verilog.specs.declared.expressions.Wire.{Wire};
ghost use Rattle.ci_verilog.specs.Modules.{IsInput};

use crate::expressions::{Name, Wire};

/// The number of the input that has the name, in a wide module or in a narrow one.
pub fn input_named(wide: bool, name: &[u8]) -> Option<usize>
    ensures some { IfSome result (λ k. IsInput wide name.now k) }
    ensures few { IfSome result (λ k. k < 5) }
    ensures none { IsNone result → (k : ℕ) → ¬ IsInput wide name.now k }
{
    match name {
        b"a" => Some(0),
        b"b" => Some(1),
        b"c" => Some(2),
        b"d" => if wide { Some(3) } else { None },
        b"e" => if wide { Some(4) } else { None },
        _ => None,
    }
}

/// Whether the wire of this number is there and has the name.
fn is_named(wires: &[Wire], k: usize, name: &[u8]) -> bool
    ensures { IsTrue result ↔ ((k < length wires.now) × ((d : Wire) → (slice_index_or wires.now k d).name ≡ name.now)) }
{
    k < wires.len() && wires[k].name.as_bytes() == name
}

/// The number of a wire that has the name. The number beside the name is tried first.
pub fn wire_named(wires: &[Wire], name: &Name) -> Option<usize>
    ensures some { IfSome result (λ k. k < length wires.now) }
    ensures named { IfSome result (λ k. (d : Wire) → (slice_index_or wires.now k d).name ≡ name.now) }
    ensures none { IsNone result → (k : ℕ) → k < length wires.now → (d : Wire)
        → (slice_index_or wires.now k d).name ≢ name.now }
{
    let place = name.place();
    if is_named(wires, place, name.as_bytes()) {
        return Some(place);
    }
    let mut k = wires.len();
    while k > 0 {
        k -= 1;
        if is_named(wires, k, name.as_bytes()) {
            return Some(k);
        }
    }
    None
}
