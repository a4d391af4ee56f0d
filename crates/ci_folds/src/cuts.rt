//! Cuts that fit under the greatest limits, and their units.
ghost use Rattle.std.specs.Prelude.{IsTrue};
ghost use Rattle.std.specs.FinSet as set;
ghost use Rattle.ci_cut.specs.GraphRules.{AreNodes};
ghost use Rattle.ci_unit.specs.Operands.{FitsSomeLimits};

use ci_cut::{Graph, Limits, fits};
use ci_unit::{Unit, UnitTable};
use ci_word::Row;
use std::alloc::AllocError;

/// The most instructions of a block.
pub const MOST_WORDS: usize = 256;

/// The most units of a table.
pub const MOST_UNITS: u8 = 32;

/// Whether the set of nodes may become a unit.
pub fn is_cut(graph: &Graph, cut: &Row) -> bool
    requires { AreNodes graph.now cut.now }
    ensures { IsTrue result → FitsSomeLimits graph.now (set.contains cut.now) }
{
    let limits = Limits {
        inputs: 5,
        outputs: 3,
    };
    fits(graph, &limits, cut)
}

/// Puts the unit into the table, unless it is there already. Answers whether there was room for it.
pub fn add_unit(units: &mut UnitTable, unit: Unit) -> Result<bool, AllocError> {
    // A table has at most 32 units.
    prove!(units.len() <= MOST_UNITS);
    if units.number_of(&unit).is_some() {
        return Ok(true);
    }
    if units.len() == MOST_UNITS {
        return Ok(false);
    }
    units.add(unit)?;
    Ok(true)
}
