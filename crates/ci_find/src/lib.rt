//! The commands of the program.
#![tactic(auto)]

ghost use Rattle.std.specs.Prelude.{◌≡◌, ◌≢◌, ◌⊎◌, ℕ, List, [], ◌∷◌, Some, IfSome, Contains, map};
ghost use Rattle.std.specs.String.{string_bytes};
ghost use Rattle.ci_io.specs.CallLists.{Call};
ghost use Rattle.ci_io.specs.MadeCalls.{AreMade, ArePut};
ghost use Rattle.ci_calls.specs.Finishing.{changed};
ghost use Rattle.ci_find.specs.EndsBy.{AreLeftBy, EndsBy, HasCause, StaysBy};
ghost use Rattle.ci_find.specs.Endings.{Ends, IsDue, IsAnswered};
ghost use Rattle.ci_find.specs.Endings.{HasNoRefusal, HasNoFault, AreLeft, HasPrinted};
ghost use Rattle.ci_find.specs.FirstFiles.{FirstFilesAreWhole};
ghost use Rattle.ci_find.specs.Headline.{AreChosenBy};
ghost use Rattle.ci_find.specs.HeadlineOverFiles.{AreChosenOver};
ghost use Rattle.ci_find.specs.RenameHeadline.{AreRenamedBy, AreRenamedOver};
ghost use Rattle.ci_find.specs.SinceCalls.{since};

use ci_calls::{finish, refuse};
use ci_io::{Shelf, Sink};
use commands::evaluate;
pub use laws::{check_accepts_choices, choices_tell_the_best, load_is_one, loads_save};
use std::alloc::Global;

mod area;
mod check;
mod commands;
mod find;
mod laws;
mod load;
mod profiling;
mod rename;

/// Runs the command that the words name, over the files of a shelf, and answers the program's status.
///
/// `words` are those after the program's name. The commands are:
///
/// - `best FILE`, with the options `--in N`, `--out N`, `--budget N` and `--table FILE`: puts the line of the best cut
///   of the block whose words FILE holds, by the latencies of the table, or that it has none, or that a search for it
///   needs more branches than the budget. With `--at ADDR`, FILE is an executable, and the block is the one at this
///   leader. With `--leader ADDR`, as often as wanted, a block begins at that address too.
/// - `pair FILE`, with the same options: puts the line of the best pair of cuts of the block, or that it has none, or
///   that the budget was too small for a search for it.
/// - `blocks FILE`, with `--leader ADDR`: puts a line for each basic block of the executable FILE, with its leader, its
///   length and the registers that are live at the leader.
/// - `run FILE`, with the options `--steps N`, `--units UNITS`, `--input FILE` and `--table FILE`: runs the executable
///   FILE, and puts its output and a line with its end, its steps and their cost. With `--units UNITS`, its unit words
///   do what the modules of UNITS compute, and take their cycles.
/// - `asm TEXT OUT`: writes the words that TEXT assembles to, the lowest byte of each first, to OUT. It puts nothing.
/// - `dis FILE`: puts a line for each whole word of FILE.
/// - `eval UNITS K A B C`, with the options `--d D` and `--e E`: puts a line with the results y and z of module K of
///   UNITS at the words A, B and C; of a wide module, with y, z and x at the words A, B, C, D and E. D and E are 0 if
///   left out.
/// - `find OLD NEW UNITS LOGS REPORT`, with the options `--in N`, `--out N`, `--count N`, `--budget N`, `--steps N`,
///   `--table FILE`, `--input FILE`, `--leader ADDR` and `--log N`: chooses cuts of the basic blocks of the executable
///   OLD, by a run of it. It writes the modules of their units to UNITS, the log book of the choice, in version N, to
///   LOGS, its report to REPORT and the executable that uses the units to NEW, in this order, and then puts a line of
///   numbers.
/// - `check OLD NEW UNITS LOGS`, with the same options except `--log`: puts `accepted` where NEW, UNITS and LOGS are
///   those of such a choice.
/// - `area OLD`, with the same options and `--limit N`: puts a line with how many gates the best set of the units of
///   such a choice needs, of those sets that need at most N, with what it saves and with the numbers of its units; or
///   that the budget was too small for a search for it. `--limit` must stand.
/// - `rename OLD NEW`, with the options `--steps N`, `--input FILE` and `--leader ADDR`: renames the values of the
///   basic blocks of the executable OLD, by the leaders that a run of it shows. A value that lives inside one block
///   takes the least register that the block doesn't use, where another instruction of the block writes its own too, or
///   it or an earlier one reads that. It writes the executable to NEW, and then puts a line with how many values were
///   renamed, and in how many blocks.
/// - `relog LOGS OUT`, with the option `--log N`: writes the book that LOGS spells to OUT, in version N, and then puts
///   a line with N and the length of OUT.
/// - `gates UNITS OUT`: writes the netlists of all modules of UNITS to OUT, and then puts a line with the numbers of
///   modules and of gates.
/// - `geval NETS K A B C`, with the options `--d D` and `--e E`: puts a line with the results y, z and x of netlist K
///   of NETS at the words A, B, C, D and E. D and E are 0 if left out.
/// - `load SEED`: makes the program of the seed, runs it, chooses cuts of its blocks by the default options, runs the
///   program that uses their units, and puts a line of numbers and the output. It reads and writes no file.
///
/// Files are read in the order that the words have them, then units, table, input, each with its limit and its form
/// tested before the next; only what gives status 7, 8, 11 or 14 is tested once all are read. Nothing is written before
/// all are read, and the text is put once all is written. The contract says so of the calls that are made on any shelf
/// and any sink, by their names, their bytes and their answers, and of the files where the shelf tells them. Every
/// refusal puts one fault line:
///
/// - 1, `fault 1 usage`: the words have no reading.
/// - 2, `fault 2 read NAME`: the file isn't there, or reading it failed.
/// - 3, `fault 3 write NAME`: writing the file failed, or the sink, whose name is `-`, failed to take the text.
/// - 4, `fault 4 too large NAME`: the file has more bytes than one of its kind may have: 1024 for the words of a block,
///   1,048,576 for FILE of `dis` and for a text, 65,536 for a table, 4,194,304 for modules, 268,435,456 for a log book
///   and for netlists, and 16,777,216 for an executable, NEW of `check` and an input.
/// - 5, `fault 5 elf RULE A B`: the file is no executable, and RULE is the number of the fault and A and B its numbers.
/// - 6, `fault 6 table RULE KEY`: the file is no latency table, and RULE is the number of the fault and KEY its key.
/// - 7, `fault 7 unsupported POSITION WORD`: in an executable, the address of the first word of a custom opcode and
///   that word, or the address of `--at`, where no block begins, and 0; in a file of words, its length, where that is
///   no multiple of four, and 0, or the offset of the first word of a custom opcode or of a terminator that isn't last,
///   and that word; of `eval` the number of the module, and of `geval` that of the netlist, where the file has none of
///   it, and 0.
/// - 8, `fault 8 text touched PC ADDR`: the profiled run of `find`, `check`, `area` or `rename` touches the text: the
///   pc of the first step that does, and the first byte of the text that it moves.
/// - 9, `fault 9 units KIND OFFSET`: the file spells no modules, by its first fault.
/// - 10, `fault 10 log KIND OFFSET`: the file spells no log book, by its first fault.
/// - 11, `fault 11 rejected ROUND LEADER ITEM REASON`: the files are those of no choice: their first wrong place.
/// - 12, `fault 12 no memory`: memory ran out.
/// - 13, `fault 13 asm KIND LINE COLUMN`: the file holds no assembler text. Where it isn't UTF-8 the numbers are 1 1 1.
/// - 14, `fault 14 many K N`: the modules of `gates` have more than 4,194,304 gates: the number of the first module up
///   to which they have more, and how many they have up to it.
/// - 15, `fault 15 nets OFFSET`: the file is no text of netlists, by the offset of its first wrong byte, or by its
///   length where it ends too early.
pub fn run<F: Shelf, O: Sink>(alloc: Global, words: &Vec<String>, shelf: &mut F, out: &mut O) -> u8
    // Over every shelf and every sink: just the calls were made on them that their lists have since the call began.
    ensures called { AreMade F.read_may_fail F.write_may_fail (F.state shelf.old) (F.state shelf.new)
        (since (F.state shelf.old).calls (F.state shelf.new).calls) }
    ensures put { ArePut (O.state out.old) (O.state out.new)
        (since (O.state out.old).calls (O.state out.new).calls) }
    // By these calls it ends as it has to.
    ensures ends_by { EndsBy (map string_bytes words.now.items)
        (since (F.state shelf.old).calls (F.state shelf.new).calls)
        (since (O.state out.old).calls (O.state out.new).calls)
        result }
    // Another status than 0 and 12 has a cause: the refusal that is due, or a write or a put that failed.
    ensures cause { HasCause (map string_bytes words.now.items)
        (since (F.state shelf.old).calls (F.state shelf.new).calls)
        (since (O.state out.old).calls (O.state out.new).calls)
        result }
    // A refusal writes nothing.
    ensures no_write { StaysBy (since (F.state shelf.old).calls (F.state shelf.new).calls) result }
    // Each write is of a whole file of the success that is due; where it isn't done, the status says so.
    ensures writes { AreLeftBy (map string_bytes words.now.items)
        (since (F.state shelf.old).calls (F.state shelf.new).calls)
        (since (O.state out.old).calls (O.state out.new).calls)
        result }
    // Where `find` succeeds, the new executable with its units runs as the old one does, wherever that is tame; the
    // profiled run is, and costs less by the gain in the line, where it ended otherwise than by a refused access; each
    // unit computes the operations of its cut, and each cut that was taken is the best of its block as that stood then.
    ensures headline { result ≡ 0 → AreChosenBy (map string_bytes words.now.items)
        (since (F.state shelf.old).calls (F.state shelf.new).calls)
        (since (O.state out.old).calls (O.state out.new).calls) }
    // Where `rename` succeeds, it wrote the executable with all blocks renamed, which runs in step with the old one and
    // whose blocks keep all cuts, and put its numbers.
    ensures renamed { result ≡ 0 → AreRenamedBy (map string_bytes words.now.items)
        (since (F.state shelf.old).calls (F.state shelf.new).calls)
        (since (O.state out.old).calls (O.state out.new).calls) }
    // Where `find` stops at a write or at its put, or for want of memory, the files that it wrote before are the first
    // of the four of a choice, each whole.
    ensures first_files { FirstFilesAreWhole (map string_bytes words.now.items)
        (since (F.state shelf.old).calls (F.state shelf.new).calls)
        (since (O.state out.old).calls (O.state out.new).calls)
        result }
    // Over the files that the shelf tells, and what the sink tells that it took, it ends as it has to.
    ensures ends { Ends (map string_bytes words.now.items)
        (changed F.read_may_fail F.write_may_fail
        (F.state shelf.old) (F.state shelf.new) (O.state out.old) (O.state out.new))
        result }
    // All that follows comes of `ends` alone. What is due comes.
    ensures due { IfSome (F.state shelf.old).files (λ held. (status : ℕ)
        → IsDue (Some held) (map string_bytes words.now.items) status
        → IsAnswered
        (changed F.read_may_fail F.write_may_fail
        (F.state shelf.old) (F.state shelf.new) (O.state out.old) (O.state out.new))
        status result) }
    // No other status comes.
    ensures statuses { Contains (0 ∷ 1 ∷ 2 ∷ 3 ∷ 4 ∷ 5 ∷ 6 ∷ 7 ∷ 8 ∷ 9 ∷ 10 ∷ 11 ∷ 12 ∷ 13 ∷ 14 ∷ 15 ∷ []) result }
    // A refusal changes no file.
    ensures files_stay { result ≢ 0 → result ≢ 3 → result ≢ 12 → (F.state shelf.new).files ≡ (F.state shelf.old).files }
    // No file changes but those that the command writes, and these by a success or a write that failed.
    ensures left { AreLeft (map string_bytes words.now.items)
        (changed F.read_may_fail F.write_may_fail
        (F.state shelf.old) (F.state shelf.new) (O.state out.old) (O.state out.new))
        result }
    // The headline of what the files held, and of what they hold.
    ensures headline_over_files { result ≡ 0
        → AreChosenOver (map string_bytes words.now.items) (F.state shelf.old).files (F.state shelf.new).files
        (O.state out.old) (O.state out.new) }
    // Where `rename` succeeds, of what the files held, and of what they hold.
    ensures renamed_over_files { result ≡ 0
        → AreRenamedOver (map string_bytes words.now.items) (F.state shelf.old).files (F.state shelf.new).files
        (O.state out.old) (O.state out.new) }
    // Where nothing is refused and nothing fails, the call succeeds, or memory runs out.
    ensures complete { HasNoRefusal (F.state shelf.old).files (map string_bytes words.now.items)
        → HasNoFault
        (changed F.read_may_fail F.write_may_fail
        (F.state shelf.old) (F.state shelf.new) (O.state out.old) (O.state out.new))
        → (result ≡ 0) ⊎ (result ≡ 12) }
    // After another status than 0, the sink took a front of the text of success, mostly none, and then one fault line.
    ensures printed { result ≢ 0 → HasPrinted (map string_bytes words.now.items)
        (changed F.read_may_fail F.write_may_fail
        (F.state shelf.old) (F.state shelf.new) (O.state out.old) (O.state out.new))
        result }
{
    answer(alloc, words, shelf, out)
}

/// Makes what the words say, or refuses it, and tells the status.
fn answer<F: Shelf, O: Sink>(alloc: Global, words: &Vec<String>, shelf: &mut F, out: &mut O) -> u8
    ensures called { (calls : List Call) × (puts : List Call)
        × AreMade F.read_may_fail F.write_may_fail (F.state shelf.old) (F.state shelf.new) calls
        × ArePut (O.state out.old) (O.state out.new) puts
        × EndsBy (map string_bytes words.now.items) calls puts result }
    ensures ends { Ends (map string_bytes words.now.items)
        (changed F.read_may_fail F.write_may_fail
        (F.state shelf.old) (F.state shelf.new) (O.state out.old) (O.state out.new))
        result }
{
    match evaluate(alloc, words, shelf) {
        Ok(success) => finish(alloc, &success, shelf, out),
        Err(refusal) => refuse(alloc, &refusal, out),
    }
}
