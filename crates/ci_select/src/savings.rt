//! What the takes of a unit save.
ghost use Rattle.std.specs.Prelude.{◌<◌, ◌^◌, ℕ, reverse};
ghost use Rattle.std.specs.List.{sum_by};
ghost use Rattle.ci_select.specs.Histories.{History};
ghost use Rattle.ci_select.specs.Instances.{Instance};
ghost use Rattle.ci_select.specs.Savings.{IsSavedBy};
ghost use Rattle.ci_select.specs.Takes.{AreTaken, cycles_of};

use crate::taken::Taken;

/// What the takes of the unit of this number save over the profiled run, in cycles. All takes together have to save
/// less than 2 to the power 64 cycles.
pub fn saved_by(takes: &[Taken], unit: u8) -> u64
    requires { sum_by cycles_of takes.now < 2 ^ 64 }
    ensures { (instance : Instance) (history : History) → AreTaken instance history (reverse takes.now)
        → IsSavedBy instance unit history result }
{
    let mut saved = 0;
    for taken in takes {
        if taken.unit == unit {
            saved += taken.gain * taken.entries;
        }
    }
    saved
}
