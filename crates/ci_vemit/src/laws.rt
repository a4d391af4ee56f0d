//! What holds of the modules of all units. The functions do nothing; their contracts are the laws.
ghost use Rattle.ci_vemit.specs.Laws.{ModulesAreModules, ModulesComputeUnits, ModulesKeepCycles};
ghost use Rattle.ci_vemit.specs.Laws.{ModulesAreInOrder};

/// The module of a unit keeps what every module keeps, and has at all words the unit's values, and its cycles. Module k
/// of a list of units is that of unit k, and there are no others.
pub fn modules_compute_units()
    ensures modules { ModulesAreModules }
    ensures values { ModulesComputeUnits }
    ensures cycles { ModulesKeepCycles }
    ensures order { ModulesAreInOrder }
{}
