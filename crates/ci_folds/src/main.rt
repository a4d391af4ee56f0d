//! Writes folded blocks and the Verilog of the units of cuts, for the checks that compare them with what others make of
//! the same blocks, and run them.
//!
//! A line of standard input asks for one of these. The parts of a line stand apart by `|`, and their words by blanks.
//!
//! - The words of a block in hex digits, and the numbers of a cut's members: the unit of the cut, where every register
//!   is live after the block and latencies are the usual ones. Equal units are written once, behind all else.
//! - These two, the number of a unit, and the registers that are live after the block: the words of the folded block.
//!
//! A line that isn't so, whose bundles aren't whole, whose cut doesn't fit, or whose unit is the 33rd, ends the program
//! with the status 1.
#![tactic(auto)]

ghost use Rattle.ci_rewrite.specs.Blocks.{AllFieldsFit};

use ci_isa::Insn;
use ci_unit::UnitTable;
use ci_vemit::emit;
use cuts::add_unit;
use instructions::words_of;
use lines::{folded_of_line, unit_of_line};
use std::alloc::{AllocError, Global};
use std::io::{self, Write};
use std::process::ExitCode;

mod cuts;
mod instructions;
mod lines;

fn main(rt: HostRuntime) -> io::Result<ExitCode> {
    let mut units = UnitTable::new(rt.alloc());
    answer_all(&rt, &mut units)
}

/// Answers all lines, and then writes the Verilog of the units.
fn answer_all(rt: &HostRuntime, units: &mut UnitTable) -> io::Result<ExitCode> {
    for line in rt.lines(rt.alloc()) {
        let line = line?;
        if !answer(rt, line.as_str(), units)? {
            return Ok(ExitCode::from(1));
        }
    }
    write_modules(rt, units)?;
    Ok(ExitCode::SUCCESS)
}

/// Writes what the line asks for, or puts its unit into the table. Answers whether the line asks for one of these.
fn answer(rt: &HostRuntime, line: &str, units: &mut UnitTable) -> io::Result<bool> {
    if let Some(folded) = folded_of_line(rt.alloc(), line)? {
        write_block(rt, folded.as_slice())?;
        return Ok(true);
    }
    if add_unit_of(rt.alloc(), line, units)? {
        return Ok(true);
    }
    println!(rt; "no block with a cut, or a unit too many: {line}")?;
    Ok(false)
}

/// Writes the words of a block.
fn write_block(rt: &HostRuntime, insns: &[Insn]) -> io::Result<()>
    requires { AllFieldsFit insns.now }
{
    let text = text_of(rt.alloc(), insns)?;
    println!(rt; "{text}")
}

/// Writes the Verilog of the units.
fn write_modules(rt: &HostRuntime, units: &UnitTable) -> io::Result<()> {
    let text = emit(rt.alloc(), units)?;
    io::writer(rt).write_all(text.as_slice())
}

/// The words of instructions in hex digits.
fn text_of(alloc: Global, insns: &[Insn]) -> Result<String, AllocError>
    requires { AllFieldsFit insns.now }
{
    let words = words_of(alloc, insns)?;
    let mut text = String::new(alloc);
    for word in &words {
        if !text.is_empty() {
            text.push(' ')?;
        }
        push_word(&mut text, *word)?;
    }
    Ok(text)
}

/// Puts the eight hex digits of a word at the end.
fn push_word(text: &mut String, word: u32) -> Result<(), AllocError> {
    write!(text, "{word:08x}")
}

/// Puts the unit that the line tells into the table, unless it is there already. Answers whether the line tells one,
/// and there was room for it.
fn add_unit_of(alloc: Global, line: &str, units: &mut UnitTable) -> Result<bool, AllocError> {
    let Some(unit) = unit_of_line(alloc, line)? else {
        return Ok(false);
    };
    add_unit(units, unit)
}
