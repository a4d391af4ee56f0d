//! What holds of all units. The functions do nothing; their contracts are the laws.
ghost use Rattle.ci_unit.specs.Laws.{ValueExists, ValueIsOne, ValuesAreWords, ValueHasLength};

/// A unit has outputs at each list of values of its five inputs, and no others, as many as it says; at words they are
/// words.
pub fn units_have_values()
    ensures some { ValueExists }
    ensures one { ValueIsOne }
    ensures words { ValuesAreWords }
    ensures count { ValueHasLength }
{}
