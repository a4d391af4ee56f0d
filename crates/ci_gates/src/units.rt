//! The netlists of units.
ghost use Rattle.std.specs.Prelude.{◌≡◌, ◌<◌, length, slice_get, Some, IfOk};
ghost use Rattle.ci_unit.specs.Units.{Unit};
ghost use Rattle.ci_vemit.specs.Templates.{module_of};
ghost use Rattle.ci_gates.specs.Modules.{HasFewGates, IsNetlistOfUnit};

use crate::modules::of_module;
use ci_netlist::Netlist;
use ci_unit::UnitTable;
use ci_vemit::modules;
use std::alloc::{AllocError, Global};

/// The netlist of the module of the table's unit k, whose count has to be at most 4,194,304. It has that many gates, and
/// at all words the unit's values.
///
/// # Errors
///
/// Out of memory.
pub fn netlist(alloc: Global, units: &UnitTable, k: u8) -> Result<Netlist, AllocError>
    requires there { k < length units.now }
    requires few { (unit : Unit) → slice_get units.now k ≡ Some unit → HasFewGates (module_of k unit) }
    ensures { (unit : Unit) → slice_get units.now k ≡ Some unit → IfOk result (IsNetlistOfUnit k unit) }
{
    // What a table keeps is known where its units are read.
    let _units = units.as_slice();
    let modules = modules(alloc, units)?;
    of_module(alloc, &modules[usize::from(k)])
}
