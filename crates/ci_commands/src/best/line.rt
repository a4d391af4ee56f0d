//! The lines that the program prints.
ghost use Rattle.std.specs.Prelude.{◌≡◌, IfOk};
ghost use Rattle.std.specs.String.{string_bytes};
ghost use Rattle.std.specs.FinSet as set;
ghost use Rattle.ci_cut.specs.GraphRules.{AreNodes};
ghost use Rattle.ci_pair.specs.PairSets.{sets};
ghost use Rattle.ci_commands.specs.BestCommand.{cut_line, skipped_line};
ghost use Rattle.ci_commands.specs.PairCommand.{pair_line};

use ci_cut::{Graph, gain};
use ci_pair::{Pair, pair_gain};
use ci_word::{Row, push_members};
use std::alloc::{AllocError, Global};

/// `cut`, the members in rising order, and the gain.
pub fn cut_text(alloc: Global, graph: &Graph, cut: &Row) -> Result<String, AllocError>
    requires { AreNodes graph.now cut.now }
    ensures { IfOk result (λ text. string_bytes text ≡ cut_line graph.now (set.contains cut.now)) }
{
    let mut text = String::from_str(alloc, "cut")?;
    push_members(&mut text, cut)?;
    let gain = gain(graph, cut);
    writeln!(text, " gain {gain}")?;
    Ok(text)
}

/// `pair`, the members of the first set in rising order, those of the second, and what both gain.
pub fn pair_text(alloc: Global, graph: &Graph, pair: &Pair) -> Result<String, AllocError>
    requires first { AreNodes graph.now pair.now.first }
    requires second { AreNodes graph.now pair.now.second }
    ensures { IfOk result (λ text. string_bytes text ≡ pair_line graph.now (sets pair.now)) }
{
    let mut text = String::from_str(alloc, "pair")?;
    push_members(&mut text, &pair.first)?;
    text.push_str(" and")?;
    push_members(&mut text, &pair.second)?;
    let gain = pair_gain(graph, pair);
    writeln!(text, " gain {gain}")?;
    Ok(text)
}

/// That the budget of the search was too small.
pub fn skipped_text(alloc: Global, budget: u32) -> Result<String, AllocError>
    ensures { IfOk result (λ text. string_bytes text ≡ skipped_line budget) }
{
    format!(in alloc; "skipped budget {budget}\n")
}
