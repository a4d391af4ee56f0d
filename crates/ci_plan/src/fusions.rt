//! One step in place of several.
ghost use Rattle.std.specs.Prelude.{◌≡◌, ℕ, List, [], ◌∷◌, ◌+◌, ◌/◌, ◌%◌, ◌^◌, ◌<◌, ◌≤◌, length, take, slice_index, slice_set};
ghost use Rattle.std.specs.Prelude.{bit_or, All, Option, IfSome, IsTrue};
ghost use Rattle.std.specs.List.{slice_index_or};
ghost use Rattle.ci_verilog.specs.declared.vectors.Vector.{Vector};
ghost use Rattle.ci_verilog.specs.Modules.{Module};
ghost use Rattle.ci_plan.specs.private.Drafts.{IsDraft, StandsFor};
ghost use Rattle.ci_plan.specs.private.Fusions.{Ignores, IsLeft, MakesAll, Replaces};
ghost use Rattle.ci_plan.specs.private.Names.{AreHeld};
ghost use Rattle.ci_plan.specs.private.Steps.{IsStep, step_value};

use crate::drafts::{Draft, INPUTS};
use crate::founds::Found;
use crate::steps::Step;

/// A step that makes alone what the last ones of a plan, so many, make in turn.
#[derive(Clone, Copy)]
pub(crate) struct Fusion {
    pub(crate) many: u8,
    pub(crate) step: Step,
}

/// The step of the bits above the lowest 32 of what the step makes.
fn high(step: Step) -> Option<Step>
    requires { IsStep 64 step }
    ensures is_step { IfSome result (λ high. IsStep 64 high) }
    ensures same { IfSome result (λ high. (words : List ℕ) → step_value words high ≡ step_value words step / 2 ^ 32 % 2 ^ 32) }
{
    match step {
        Step::Times(left, right, width) => if width == 64 {
            Some(Step::High(left, right))
        } else {
            None
        },
        Step::SignedTimes(left, right) => Some(Step::SignedHigh(left, right)),
        _ => None,
    }
}

/// The step of the sum of 32 bits of what the step makes and the word at the place.
fn sum(step: Step, place: u8) -> Option<Step>
    requires is_step { IsStep 64 step }
    requires below { place < 64 }
    ensures is_step { IfSome result (λ sum. IsStep 64 sum) }
    ensures same { IfSome result (λ sum. (words : List ℕ)
        → step_value words sum ≡ (step_value words step + slice_index words place) % 2 ^ 64 % 2 ^ 32) }
{
    match step {
        Step::Times(left, right, width) => if width == 32 {
            Some(Step::TimesPlus(left, right, place))
        } else {
            None
        },
        _ => None,
    }
}

/// The step that makes alone what these two make, of which the first one puts its word at the place.
fn fused_two(first: Step, place: u8, second: Step) -> Option<Step>
    requires first { IsStep 64 first }
    requires second { IsStep 64 second }
    ensures { IfSome result (λ step. MakesAll place (first ∷ []) second step) }
{
    match second {
        Step::Part(from, low, width) => if from == place && low == 32 && width == 32 {
            high(first)
        } else {
            None
        },
        Step::Plus(left, right, width) => if width == 32 && left == place && right != place {
            sum(first, right)
        } else if width == 32 && right == place && left != place {
            sum(first, left)
        } else {
            None
        },
        _ => None,
    }
}

/// The step that makes the words of both shifts together, where they are shifts of 32 bits whose bits don't overlap.
fn turn(left: Step, right: Step) -> Option<Step>
    requires left { IsStep 64 left }
    requires right { IsStep 64 right }
    ensures is_step { IfSome result (λ turn. IsStep 64 turn) }
    ensures same { IfSome result (λ turn. (words : List ℕ)
        → step_value words turn ≡ bit_or (step_value words left) (step_value words right)) }
{
    match (left, right) {
        (Step::LeftBy(from, amount, width), Step::RightBy(other, rest)) => if width == 32
            && amount <= 32
            && rest == 32 - amount
        {
            Some(Step::Turn(from, other, amount))
        } else {
            None
        },
        _ => None,
    }
}

/// Whether the step is a shift by a number of a word that isn't the one at the place.
fn ignores(step: Step, place: u8) -> bool
    ensures { IsTrue result → Ignores place step }
{
    match step {
        Step::LeftBy(from, _, _) | Step::RightBy(from, _) => from != place,
        _ => false,
    }
}

/// The step that makes alone what these three make, of which the first two put their words at the place and behind it.
fn fused_three(first: Step, second: Step, place: u8, third: Step) -> Option<Step>
    requires first { IsStep 64 first }
    requires second { IsStep 64 second }
    requires below { place < 64 }
    ensures { IfSome result (λ step. MakesAll place (first ∷ second ∷ []) third step) }
{
    if !ignores(second, place) {
        return None;
    }
    match third {
        Step::Or(left, right) => if left == place && right == place + 1 {
            turn(first, second)
        } else if left == place + 1 && right == place {
            turn(second, first)
        } else {
            None
        },
        _ => None,
    }
}

/// One step for the last two.
fn last_two(steps: &[Step]) -> Option<Fusion>
    requires are_steps { All (IsStep 64) steps.now }
    requires few { length steps.now ≤ 59 }
    ensures { IfSome result (λ fusion. Replaces steps.now fusion.many fusion.step) }
{
    let count = steps.len();
    if count < 2 {
        return None;
    }
    let place = INPUTS + count - 2;
    let step = fused_two(steps[count - 2], place as u8, steps[count - 1])?;
    Some(Fusion { many: 2, step })
}

/// One step for the last three.
fn last_three(steps: &[Step]) -> Option<Fusion>
    requires are_steps { All (IsStep 64) steps.now }
    requires few { length steps.now ≤ 59 }
    ensures { IfSome result (λ fusion. Replaces steps.now fusion.many fusion.step) }
{
    let count = steps.len();
    if count < 3 {
        return None;
    }
    let place = INPUTS + count - 3;
    let step = fused_three(
        steps[count - 3],
        steps[count - 2],
        place as u8,
        steps[count - 1],
    )?;
    Some(Fusion { many: 3, step })
}

/// One step for the last ones.
fn last_steps(steps: &[Step]) -> Option<Fusion>
    requires are_steps { All (IsStep 64) steps.now }
    requires few { length steps.now ≤ 59 }
    ensures { IfSome result (λ fusion. Replaces steps.now fusion.many fusion.step) }
{
    match last_two(steps) {
        Some(fusion) => Some(fusion),
        None => last_three(steps),
    }
}

/// What is left of what stands at a place, where the words from the first place to before the end go away.
fn left(found: Option<Found>, first: u8, end: u8) -> Option<Found>
    ensures { IsLeft first end found result }
{
    match found {
        Some(one) => if one.place >= first && one.place < end {
            None
        } else {
            Some(one)
        },
        None => None,
    }
}

/// Forgets what stands at the places from the first to before the end.
fn forget(found: &mut [Option<Found>], first: u8, end: u8)
    ensures room { length found.new ≡ length found.old }
    ensures left { (k : ℕ) (d : Option Found) → k < length found.old
        → IsLeft first end (slice_index_or found.old k d) (slice_index_or found.new k d) }
{
    for k in 0..found.len() {
        found[k] = left(found[k], first, end);
    }
}

/// Makes one step of the last ones, where that is asked for and can be, if the last one makes what was found. What the
/// others made is forgotten.
pub(crate) fn shorten(
    draft: &mut Draft,
    found: &mut [Option<Found>],
    last: Found,
    fuses: bool,
) -> Found
    requires { IsDraft draft.old }
    ensures room { length found.new ≡ length found.old }
    ensures held { (m : Module) (k : ℕ) → AreHeld m (take k found.old) draft.old → AreHeld m (take k found.new) draft.new }
    ensures found { (m : Module) (bits : (List ℕ → Vector) → Vector)
        → StandsFor m draft.old last.place last.width bits → StandsFor m draft.new result.place result.width bits }
{
    let end = INPUTS + draft.steps().len();
    if !fuses || usize::from(last.place) + 1 != end {
        return last;
    }
    let Some(fusion) = last_steps(draft.steps()) else {
        return last;
    };
    let place = draft.replace(fusion.many, fusion.step);
    forget(found, place, end as u8);
    Found {
        width: last.width,
        place,
    }
}
