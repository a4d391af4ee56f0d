//! What holds of all texts of modules. The function does nothing; its contract is the laws.
ghost use Rattle.ci_vread.specs.Laws.{SpellsOrHasFault, HasNoFault, FaultIsOne, SpellsWhereRulesAreKept, SpellingIsOne};

/// A text spells modules or has a fault, never both, and it spells one list of modules or has one fault at most. It
/// spells modules exactly where it keeps every rule.
pub fn texts_of_modules()
    ensures some { SpellsOrHasFault }
    ensures never_both { HasNoFault }
    ensures one_fault { FaultIsOne }
    ensures rules { SpellsWhereRulesAreKept }
    ensures one_spelling { SpellingIsOne }
{}
