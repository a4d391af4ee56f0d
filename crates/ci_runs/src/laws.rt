//! What holds of folded and renamed executables, and of all choices of cuts. The functions do nothing; their contracts
//! are the laws.
ghost use Rattle.ci_runs.specs.ChosenFiles.{ChosenFilesRunAlike};
ghost use Rattle.ci_runs.specs.ProfiledRuns.{ChoicesSaveInProfile, ProfiledRunsAreTame};
ghost use Rattle.ci_runs.specs.RenamedAnalyses.{RenamedFilesAnalyseAlike, RenamedFilesKeepCuts};
ghost use Rattle.ci_runs.specs.RenamedChoices.{RenamedChoicesRunAlike};
ghost use Rattle.ci_runs.specs.RenamedRuns.{RenamedFilesRunInStep, RenamedRunsAreTame};
ghost use Rattle.ci_runs.specs.Laws.{FoldedFilesRunAlike, FoldedFilesMeet, FoldedFilesCostLess};

/// An executable in whose blocks cuts were folded, on the machine that has their units, behaves as the original does
/// wherever that is tame: it puts the same output, ends alike, and meets it at each listed leader. Where the original
/// ends otherwise than by a refused access, it costs less by the gain of each cut as often as its block is entered.
pub fn folded_files_run_alike()
    ensures runs { FoldedFilesRunAlike }
    ensures fronts { FoldedFilesMeet }
    ensures accounts { FoldedFilesCostLess }
{}

/// The new file of a legal log book, on the machine that has its units, behaves as the original does wherever that is
/// tame, and costs less by the gain of each cut as often as its block is entered, where that ends otherwise than by a
/// refused access.
pub fn chosen_files_run_alike()
    ensures { ChosenFilesRunAlike }
{}

/// The run that a choice is made from is tame, where it leaves the text alone. And where it ended otherwise than by a
/// refused access, it cost more than that of the new file by just what the log book saves.
pub fn profiled_runs_cost_less()
    ensures tame { ProfiledRunsAreTame }
    ensures saves { ChoicesSaveInProfile }
{}

/// A renamed file runs in step with the original wherever that is tame: after each number of steps both have the same
/// end, if any, output, heap end, input left and memory outside the text, and at each listed leader they agree on the
/// registers that are live there. And it is tame, too.
pub fn renamed_files_run_in_step()
    ensures steps { RenamedFilesRunInStep }
    ensures tame { RenamedRunsAreTame }
{}

/// The new file of a legal log book for a renamed file, on the machine that has its units, behaves as the file before
/// the renaming does, wherever that is tame.
pub fn renamed_choices_run_alike()
    ensures { RenamedChoicesRunAlike }
{}

/// A renamed file has the leaders of the original, and the same registers are live at them and behind their blocks. The
/// graph of each of its blocks has the sources, the live values and no other arcs than that of the original's block, so
/// that what fits there fits here with the same gain, and the best gain doesn't fall.
pub fn renamed_files_analyse_alike()
    ensures analyses { RenamedFilesAnalyseAlike }
    ensures cuts { RenamedFilesKeepCuts }
{}
