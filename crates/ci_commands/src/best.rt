//! The commands `best` and `pair`: the best cut of a block, and the best pair of cuts.
ghost use Rattle.std.specs.Prelude.{ℕ, List, Option, ◌≤◌, IfOk, IfErr, length};
ghost use Rattle.std.specs.FinSet as set;
ghost use Rattle.std.specs.Ordering.{nat_cmp};
ghost use Rattle.std.specs.String.{string_bytes};
ghost use Rattle.ci_dfg.specs.BlockGraph.{graph_of};
ghost use Rattle.ci_dfg.specs.Bundles.{AreBundled};
ghost use Rattle.ci_isa.specs.declared.instruction.Insn.{Insn as Instruction};
ghost use Rattle.ci_calls.specs.Reads.{IsAnswerOf};
ghost use Rattle.ci_calls.specs.Refused.{name_in};
ghost use Rattle.ci_commands.specs.BestCommand.{best_inputs, IsBestMade, IsBestRefused, HoldsBlock, HoldsNoBlock};
ghost use Rattle.ci_commands.specs.private.BlockFiles.{IsFileOf, IsWithinLimit};
ghost use Rattle.ci_commands.specs.private.Causes.{IsCause};
ghost use Rattle.ci_commands.specs.PairCommand.{IsLineOf};

use ci_calls::{Refusal, Success, read_table};
use ci_cut::{Graph, Limits};
use ci_dfg::graph;
use ci_io::Shelf;
use ci_isa::Insn;
use ci_lat::Table;
use ci_word::Row;
use cut::best_cut_line;
use file::{BlockFile, read_block_file};
pub use line::skipped_text;
use listed::listed_block;
use pair::best_pair_line;
use std::alloc::{AllocError, Global};
use words::word_block;

mod cut;
mod file;
mod line;
mod listed;
mod pair;
mod words;

/// The instructions of a block, and the registers that are live after it.
#[derive(Drop)]
pub struct LiveBlock {
    pub insns: Vec<Insn>,
    pub live_out: Row,
}

/// What is searched for in a block.
#[derive(Clone, Copy)]
pub enum Sought {
    /// The best cut.
    Cut,
    /// The best pair of cuts.
    Pair,
}

/// Which block is meant, and how it is searched.
#[derive(Clone, Copy)]
pub struct BestSettings<'a, 'b> {
    /// The address of the block in an executable. Where there is none, the file is the words of the block.
    pub at: Option<u32>,
    /// The addresses at which blocks of an executable begin too.
    pub leaders: &'b [u32],
    /// The greatest numbers of inputs and of outputs of a cut.
    pub limits: Limits,
    /// What is searched for.
    pub sought: Sought,
    /// The greatest number of branches of the log of the search, itself at most 4,194,304.
    pub budget: u32,
    /// The file with the latency table, which is the usual one where there is none.
    pub table: Option<&'a str>,
}

/// Makes the line of the best cut, or of the best pair, of the block in the file. The budget of the settings is at most
/// 4,194,304.
///
/// # Errors
///
/// The first fault of the file, and then of the table: `Read` where no file has the name, or reading it failed;
/// `TooLarge` where an executable has more than 16,777,216 bytes, a file of words more than 1,024, or a table more than
/// 65,536; `BadElf` where the settings give an address and the file is no executable; `BadTable` where the table is no
/// latency table.
///
/// Then `Unsupported` where the file holds no such block. In an executable it names the first word of a custom opcode
/// in the text, by its address, or else the address at which no block begins, with 0. In a file of words it names the
/// file's length where that is no multiple of four, with 0, or else the first word that can't stand in its place, by
/// its offset in bytes: a word of a custom opcode, or a terminator before the last word.
///
/// `NoMemory`: memory ran out. A budget that is too small for the search is no error.
pub fn evaluate<'a, F: Shelf>(
    alloc: Global,
    file: &'a str,
    settings: &BestSettings<'a, '_>,
    shelf: &mut F,
) -> Result<Success<'a>, Refusal<'a>>
    requires { settings.now.budget ≤ 4194304 }
    ensures { IsAnswerOf F.read_may_fail F.write_may_fail (F.state shelf.old) (F.state shelf.new)
        (best_inputs settings.now.at file.now (name_in settings.now.table))
        (IsBestMade settings.now.at settings.now.leaders.now (IsLineOf settings.now.sought)
        settings.now.limits settings.now.budget (name_in settings.now.table))
        (IsBestRefused settings.now.at settings.now.leaders.now) result }
{
    let block = read_block_file(alloc, file, settings.at, shelf)?;
    let table = read_table(alloc, settings.table, shelf)?;
    let line = best_line(alloc, &block, settings, &table)?;
    Ok(Success {
        writes: Vec::new(alloc),
        text: line.into_bytes(),
    })
}

/// The line of what is searched for in the block that the file holds.
fn best_line<'a>(
    alloc: Global,
    file: &BlockFile,
    settings: &BestSettings<'_, '_>,
    table: &Table,
) -> Result<String, Refusal<'a>>
    requires within { IsWithinLimit file.now }
    requires budget { settings.now.budget ≤ 4194304 }
    ensures done { IfOk result (λ line. (at : Option ℕ) (bytes : List ℕ) → IsFileOf at bytes file.now
        → (insns : List Instruction) × (live_out : set.FinSet nat_cmp)
        × HoldsBlock at settings.now.leaders.now bytes insns live_out
        × IsLineOf settings.now.sought (graph_of insns live_out table.now) settings.now.limits settings.now.budget
        (string_bytes line)) }
    ensures cause { IfErr result (λ error. (at : Option ℕ) (bytes : List ℕ) → IsFileOf at bytes file.now
        → IsCause (HoldsNoBlock at settings.now.leaders.now bytes) error) }
{
    let block = block_in(alloc, file, settings.leaders)?;
    let graph = graph(alloc, block.insns.as_slice(), block.live_out, table)?;
    Ok(line_of(alloc, settings, &graph)?)
}

/// The line of what is searched for in the graph.
fn line_of(
    alloc: Global,
    settings: &BestSettings<'_, '_>,
    graph: &Graph,
) -> Result<String, AllocError>
    requires { settings.now.budget ≤ 4194304 }
    ensures { IfOk result (λ line.
        IsLineOf settings.now.sought graph.now settings.now.limits settings.now.budget (string_bytes line)) }
{
    match settings.sought {
        Sought::Cut => best_cut_line(alloc, graph, &settings.limits, settings.budget),
        Sought::Pair => best_pair_line(alloc, graph, &settings.limits, settings.budget),
    }
}

/// The block that the file holds.
fn block_in<'a>(alloc: Global, file: &BlockFile, named: &[u32]) -> Result<LiveBlock, Refusal<'a>>
    requires { IsWithinLimit file.now }
    ensures few { IfOk result (λ block. length block.insns.items ≤ 256) }
    ensures bundled { IfOk result (λ block. AreBundled block.insns.items) }
    ensures held { IfOk result (λ block. (at : Option ℕ) (bytes : List ℕ) → IsFileOf at bytes file.now
        → HoldsBlock at named.now bytes block.insns.items block.live_out) }
    ensures cause { IfErr result (λ error. (at : Option ℕ) (bytes : List ℕ) → IsFileOf at bytes file.now
        → IsCause (HoldsNoBlock at named.now bytes) error) }
{
    match file {
        BlockFile::Words(bytes) => word_block(alloc, bytes.as_slice()),
        BlockFile::Program { image, address } => listed_block(alloc, image, named, *address),
    }
}
