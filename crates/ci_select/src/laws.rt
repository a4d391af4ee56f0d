//! What holds of all log books. The functions do nothing; their contracts are the laws.
ghost use Rattle.ci_select.specs.Laws.{EntriesAreTrue, TakesAreBest, TakesNameTheirUnits, EachBlockIsPresent};
ghost use Rattle.ci_select.specs.Laws.{EachEnteredBlockIsSearched, PresentIsOne, UnitsAreOne, SavedIsOne, DueIsOne};
ghost use Rattle.ci_select.specs.Laws.{NewFileIsOne, ChoiceIsOne, VerdictIsOne, LegalBooksAreBooks, LogsDecideNothing};
ghost use Rattle.ci_select.specs.Laws.{AcceptableAlike, UnitsSaveAll, EachUnitSaves, SavedByIsOne, EntriesAreSteps};
ghost use Rattle.ci_select.specs.Laws.{SavedIsFew, TakesSaveFew};

/// The entries of a legal book tell what is best: a cut that no set that fits gains more than, that there is none, or
/// that more than the budget is needed. And each take is of the best cut of its block.
pub fn book_tells_the_best()
    ensures entries { EntriesAreTrue }
    ensures takes { TakesAreBest }
{}

/// A take of a legal book names the unit of the cut that it takes.
pub fn takes_name_their_units()
    ensures { TakesNameTheirUnits }
{}

/// Behind a legal book each block of the file is present: it has instructions in the program with the folded blocks.
/// And each block that was entered has been searched.
pub fn book_keeps_each_block()
    ensures present { EachBlockIsPresent }
    ensures searched { EachEnteredBlockIsSearched }
{}

/// What is due is one thing, and so are the present blocks, the units, what is saved, the new file and the
/// verdict.
pub fn book_is_judged_once()
    ensures present { PresentIsOne }
    ensures units { UnitsAreOne }
    ensures saved { SavedIsOne }
    ensures due { DueIsOne }
    ensures file { NewFileIsOne }
    ensures verdict { VerdictIsOne }
{}

/// An instance has one legal book in which each search was given up exactly by need, but for the logs of its searches,
/// and these make no difference: what is due, the present blocks, the units, what is saved and the new file are the
/// same behind entries that are one but for their logs.
pub fn choice_is_one()
    ensures book { ChoiceIsOne }
    ensures logs { LogsDecideNothing }
{}

/// The entries of a legal book of a file's blocks stand in the order of its grammar, and each has what it allows.
pub fn legal_books_are_in_order()
    ensures { LegalBooksAreBooks }
{}

/// Instances that say the same have the same books: what is acceptable for one is so for the other.
pub fn like_instances_have_the_same_books()
    ensures { AcceptableAlike }
{}

/// The units of a legal book save together what its cuts do, and each of them saves something.
pub fn units_save_all()
    ensures all { UnitsSaveAll }
    ensures each { EachUnitSaves }
    ensures one { SavedByIsOne }
{}

/// The blocks are entered no more often than the run has steps, so a legal book saves few cycles.
pub fn book_saves_few()
    ensures entries { EntriesAreSteps }
    ensures saved { SavedIsFew }
    ensures takes { TakesSaveFew }
{}
