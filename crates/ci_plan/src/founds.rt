//! Vectors that stand at places, and what a step makes of them.
ghost use Rattle.std.specs.Prelude.{◌≡◌, ℕ, List, ◌+◌, ◌*◌, ◌-◌, ◌/◌, ◌%◌, ◌^◌, ◌<◌, ◌≤◌, IfSome, replicate};
ghost use Rattle.ci_verilog.specs.declared.vectors.Vector.{Vector};
ghost use Rattle.ci_verilog.specs.Modules.{Module};
ghost use Rattle.ci_verilog.specs.Values.{of_width, above, joined};
ghost use Rattle.ci_plan.specs.private.Drafts.{IsDraft, Grows, StandsFor};
ghost use Rattle.ci_plan.specs.private.Factors.{factor};

use crate::drafts::Draft;
use crate::steps::{Step, low_bits, shifted_left};

/// A vector of so many bits at a place.
#[derive(Clone, Copy)]
pub(crate) struct Found {
    pub(crate) width: u8,
    pub(crate) place: u8,
    ghost narrow: { width ≤ 64 },
    ghost below: { place < 64 },
}

/// A constant. None: its value doesn't fit its width, or there is no room.
pub(crate) fn constant(draft: &mut Draft, width: u8, value: u64) -> Option<Found>
    requires { IsDraft draft.old }
    ensures grows { IfSome result (λ _. Grows draft.old draft.new) }
    ensures found { IfSome result (λ found. (m : Module)
        → StandsFor m draft.new found.place found.width (λ names. of_width width value)) }
{
    if width > 64 || low_bits(value, width) != value {
        return None;
    }
    let place = draft.number(value)?;
    Some(Found { width, place })
}

/// The bits of a vector from the high one to the low one. None: it has no such bits, or there is no room.
pub(crate) fn part(draft: &mut Draft, from: Found, high: u8, low: u8) -> Option<Found>
    requires { IsDraft draft.old }
    ensures grows { IfSome result (λ _. Grows draft.old draft.new) }
    ensures found { IfSome result (λ found. (m : Module) (bits : (List ℕ → Vector) → Vector)
        → StandsFor m draft.old from.place from.width bits
        → StandsFor m draft.new found.place found.width
        (λ names. of_width (high + 1 - low) ((bits names).value / 2 ^ low % 2 ^ (high + 1 - low)))) }
{
    if low > high || high >= from.width {
        return None;
    }
    let width = high + 1 - low;
    if width == from.width {
        return Some(from);
    }
    if let Some(number) = draft.number_at(from.place) {
        return constant(draft, width, low_bits(number >> low, width));
    }
    let place = draft.step(Step::Part(from.place, low, width))?;
    Some(Found { width, place })
}

/// 1 at the lowest bit of each of so many copies of so many bits.
fn factor(count: u8, width: u8) -> u64
    requires { count * width ≤ 64 }
    ensures { result ≡ factor count width % 2 ^ 64 }
{
    let mut sum: u64 = 0;
    for k in 0..count {
        sum = sum.wrapping_add(shifted_left(1, u64::from(k * width), 64));
    }
    sum
}

/// So many copies of a vector, one behind the other. None: they are too wide, or there is no room.
pub(crate) fn copies(draft: &mut Draft, count: u8, from: Found) -> Option<Found>
    requires { IsDraft draft.old }
    ensures grows { IfSome result (λ _. Grows draft.old draft.new) }
    ensures found { IfSome result (λ found. (m : Module) (bits : (List ℕ → Vector) → Vector)
        → StandsFor m draft.old from.place from.width bits
        → StandsFor m draft.new found.place found.width (λ names. joined (replicate count (bits names)))) }
{
    if u16::from(count) * u16::from(from.width) > 64 {
        return None;
    }
    let number = draft.number(factor(count, from.width))?;
    let place = draft.step(Step::Times(from.place, number, 64))?;
    Some(Found {
        width: count * from.width,
        place,
    })
}

/// A vector of 32 bits, widened to 64 by its sign. None: it has another width, or there is no room.
pub(crate) fn signed(draft: &mut Draft, from: Found) -> Option<Found>
    requires { IsDraft draft.old }
    ensures grows { IfSome result (λ _. Grows draft.old draft.new) }
    ensures found { IfSome result (λ found. (m : Module) (bits : (List ℕ → Vector) → Vector)
        → StandsFor m draft.old from.place from.width bits
        → StandsFor m draft.new found.place found.width
        (λ names. above (joined (replicate 32 (of_width 1 ((bits names).value / 2 ^ 31 % 2)))) (bits names))) }
{
    if from.width != 32 {
        return None;
    }
    let place = draft.step(Step::Signed(from.place))?;
    Some(Found { width: 64, place })
}

/// The bits of a vector above those of another one. None: they are too wide, or there is no room.
pub(crate) fn joined(draft: &mut Draft, high: Found, low: Found) -> Option<Found>
    requires { IsDraft draft.old }
    ensures grows { IfSome result (λ _. Grows draft.old draft.new) }
    ensures found { IfSome result (λ found. (m : Module) (first second : (List ℕ → Vector) → Vector)
        → StandsFor m draft.old high.place high.width first
        → StandsFor m draft.old low.place low.width second
        → StandsFor m draft.new found.place found.width (λ names. above (first names) (second names))) }
{
    let width = high.width + low.width;
    if width > 64 {
        return None;
    }
    if draft.is_zero(high.place) {
        return Some(Found {
            width,
            place: low.place,
        });
    }
    let place = draft.step(Step::Above(high.place, low.place, low.width))?;
    Some(Found { width, place })
}
