//! What holds of all bytes, instructions, lists of instructions and runs, and of the runs of all files.
ghost use Rattle.ci_machine.specs.ExtendedLaws.{ExtendedExists, ExtendedIsOne, ExtendedGivesWords};
ghost use Rattle.ci_machine.specs.ExtendedLaws.{ExtendedTakesHidden, ExtendedRunsPlainFiles};
ghost use Rattle.ci_machine.specs.FileLaws.{OpensWithFileWords, FileInsnsStay, FileInsnsStand, OpensAlike};
ghost use Rattle.ci_machine.specs.Laws.{Frame, ControlFrame, ListFrame, ListLeaves, ListsKeepStreams};
ghost use Rattle.ci_machine.specs.Laws.{RegistersRead, RegistersWritten, NeededIsReadFirst, NeededIsReadFirstByPlain};
ghost use Rattle.ci_machine.specs.MeaningLaws.{MeaningsAgree, WordMeaningsAgree, FileMeaningsAgree};
ghost use Rattle.ci_machine.specs.MeaningLaws.{PlainExists, PlainIsOne, PlainAndExtendedAgree};
ghost use Rattle.ci_machine.specs.MeaningLaws.{UnitsUnused, UnitsUnusedByLists, UnitsLeaveText};
ghost use Rattle.ci_machine.specs.RunLaws.{RunsJoin, EndsStay, RunsEndAt, NoEndBefore, CountsJoin, CountsStay};
ghost use Rattle.ci_machine.specs.RunLaws.{BlockSteps, BlockLeaves, BlockCosts, ControlSteps};
ghost use Rattle.ci_machine.specs.StateLaws.{WordsStayByLists, WordsStayByControl, WordsStay};
ghost use Rattle.ci_machine.specs.StateLaws.{OpensInWords, PlainGivesWords, TextStays, OpensWithText};
ghost use Rattle.ci_machine.specs.Words.{AreBytes};

/// Each byte is below 256.
pub fn bytes_are_small(bytes: &[u8])
    ensures { AreBytes bytes.now }
{}

/// What an instruction does depends on the registers that it reads and the bytes that it moves, and on nothing else.
pub fn frame()
    ensures { Frame }
{}

/// The same for the instructions that end a block.
pub fn control_frame()
    ensures { ControlFrame }
{}

/// What a list of instructions does, and which text it touches, depends on the registers that it needs.
pub fn list_frame()
    ensures related { ListFrame }
    ensures leaves { ListLeaves }
    ensures streams { ListsKeepStreams }
{}

/// The registers that instructions read and write are those of their sets, and what a list needs is what it reads
/// first: of all registers where no instruction is a unit word, a `cread` or a `cput`, and else of all but the hidden
/// ones.
pub fn register_sets()
    ensures read { RegistersRead }
    ensures written { RegistersWritten }
    ensures needed { NeededIsReadFirst }
    ensures plain { NeededIsReadFirstByPlain }
{}

/// Runs go on where others came to, and do not go on after an end.
pub fn runs_join()
    ensures join { RunsJoin }
    ensures stay { EndsStay }
    ensures place { RunsEndAt }
    ensures before { NoEndBefore }
{}

/// What is counted over some steps and over those behind them.
pub fn counts_join()
    ensures joined { CountsJoin }
    ensures over { CountsStay }
{}

/// The steps through a list of instructions in the text do what the list does, touch the text where it does, and cost
/// what it does; the step of an instruction that ends a block is its control.
pub fn block_steps()
    ensures run { BlockSteps }
    ensures touches { BlockLeaves }
    ensures cost { BlockCosts }
    ensures control { ControlSteps }
{}

/// Registers hold words, and memory, input and output hold bytes, from the opening state on.
pub fn words_stay()
    ensures lists { WordsStayByLists }
    ensures control { WordsStayByControl }
    ensures runs { WordsStay }
    ensures opening { OpensInWords }
    ensures plain { PlainGivesWords }
{}

/// The text stays as long as no step touches it, from the opening state on.
pub fn text_stays()
    ensures runs { TextStays }
    ensures opening { OpensWithText }
{}

/// The text in memory is the file's, and another file's memory differs in text alone where its bytes do.
pub fn file_text()
    ensures words { OpensWithFileWords }
    ensures instructions { FileInsnsStay }
    ensures lists { FileInsnsStand }
    ensures outside { OpensAlike }
{}

/// Meanings that read alike what is fetched make one run.
pub fn one_run()
    ensures steps { MeaningsAgree }
    ensures words { WordMeaningsAgree }
    ensures files { FileMeaningsAgree }
{}

/// The plain machine is one, and so is the cost of its runs, whatever its meaning says of units; and it reads a text
/// without a custom opcode as a machine of the extended table does.
pub fn plain_meaning()
    ensures exists { PlainExists }
    ensures one { PlainIsOne }
    ensures extended { PlainAndExtendedAgree }
{}

/// There is an extended machine for all modules, and all its meanings make one run from words. It makes words of words,
/// and runs a file without custom words as the plain machine does.
pub fn extended_meaning()
    ensures exists { ExtendedExists }
    ensures one { ExtendedIsOne }
    ensures words { ExtendedGivesWords }
    ensures hidden { ExtendedTakesHidden }
    ensures plain { ExtendedRunsPlainFiles }
{}

/// Units matter to unit words alone.
pub fn units_unused()
    ensures instructions { UnitsUnused }
    ensures lists { UnitsUnusedByLists }
    ensures text { UnitsLeaveText }
{}
