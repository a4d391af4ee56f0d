//! What holds of all choices, checks and loads. The functions do nothing; their contracts are the laws.
ghost use Rattle.ci_find.specs.Laws.{ChoicesTellTheBest, CheckAcceptsChoices, ChecksEnd, LoadIsOne, LoadsSave};

/// What `find` makes tells the best: each take of its log book is of the best cut of its block in the program before,
/// and the module of the take's number computes the unit of this cut. And the text of its modules spells them.
pub fn choices_tell_the_best()
    ensures { ChoicesTellTheBest }
{}

/// `check` accepts what `find` wrote, with the same options, where each file that it reads is as `find` left it; other
/// files may be any. It refuses nothing but a log book that is too long to be read, and the call ends so.
pub fn check_accepts_choices()
    ensures refusals { CheckAcceptsChoices }
    ensures calls { ChecksEnd }
{}

/// In the line of a load the cost of the program, whose run exits with code 0, less that of the one that uses the units
/// is the gain.
pub fn loads_save()
    ensures { LoadsSave }
{}

/// What `load` says of a seed is one line.
pub fn load_is_one()
    ensures { LoadIsOne }
{}
