//! What reading the file of a generated program gives, and what its run does, as contracts of functions without effect.
ghost use Rattle.ci_gen.specs.Laws.{ProgramsAreRead, ProgramsArePlain, ProgramsKeepRules};
ghost use Rattle.ci_gen.specs.Runs.{ProgramsExit};

/// The file of a generated program keeps all rules, reads as the smallest file with its text and its
/// value, and has no word of a custom opcode in its text.
pub fn programs_are_read()
    ensures image { ProgramsAreRead }
    ensures rules { ProgramsKeepRules }
    ensures plain { ProgramsArePlain }
{}

/// The run of a generated program leaves its text alone, and exits with code 0.
pub fn programs_exit()
    ensures { ProgramsExit }
{}
