//! From a text to its words.
ghost use Rattle.std.specs.Prelude.{◌≡◌, ℕ, ◌+◌, ◌++◌, ◌≤◌, ◌<◌, List, drop, length, IfOk, IfSome, IfErr, OnOk, Ok};
ghost use Rattle.std.specs.Prelude.{true, vec_len};
ghost use Rattle.std.specs.Option.{ForSome, option_to_list, option_or};
ghost use Rattle.ci_isa.specs.Table.{IsWellFormed};
ghost use Rattle.ci_asm.specs.private.Shapes.{fits, field_of};
ghost use Rattle.ci_asm.specs.private.LabelMap.{found_in};
ghost use Rattle.ci_asm.specs.Assembly.{IsAssembly};
ghost use Rattle.ci_asm.specs.Promised.{IsOnlyAssembly, IsFaultOf};
ghost use Rattle.ci_asm.specs.private.Programs.{kind_of, defined_once, offset_between, resolved, line_insn, insns_of};
ghost use Rattle.ci_asm.specs.private.Programs.{first_line, all_read, definition_of, definition_on, words_behind, IsFaultIn};
ghost use Rattle.ci_asm.specs.private.Programs.{AreWordsOf, AreWordsIn, option_length};
ghost use Rattle.ci_asm.specs.Lines.{lines_of};
ghost use Rattle.ci_isa.specs.declared.instruction.Insn.{Insn};

use crate::faults::{AsmFault, Fault, Rule};
use crate::instructions::insn_of;
use crate::labels::{Definition, Definitions, define, definition_in};
use crate::lines::{Line, read_line};
use crate::numbers::Number;
use crate::scanner::{ByteClass, Token, run_end, text_of};
use crate::statements::Statement;
use ci_isa::{Insn, encode};
use std::alloc::{AllocError, Global};
use std::collections::BTreeMap;

/// A program has no more words than this.
const MOST_WORDS: u32 = 262_144;

/// The words of the text: one for each statement, in their order.
///
/// # Errors
///
/// `Bad` is the first fault of the text. What is due for labels (that they are defined, once, and
/// near enough) is looked at once the whole text has no other fault. `NoMemory`: out of memory.
pub fn assemble(alloc: Global, text: &str) -> Result<Vec<u32>, AsmFault>
    requires { length text.now ≤ 268435456 }
    ensures words { IfOk result (λ words. IsAssembly text.now words.items) }
    ensures only { IfOk result (λ words. IsOnlyAssembly text.now words.items) }
    ensures fault { IfErr result (IsFaultOf text.now) }
{
    let text = text.as_bytes();
    let definitions = definitions_of(alloc, text)?;
    words_of(alloc, text, &definitions)
}

/// The line that begins at a place of the text, without its newline.
fn line_from(text: &[u8], start: usize) -> &[u8]
    requires { start < length text.now }
    ensures { result.now ≡ first_line (drop start text.now) }
{
    &text[start..run_end(ByteClass::InLine, text, start)]
}

/// The fault on the line of this number.
fn on_line(number: u32, fault: Fault) -> AsmFault
    requires { fault.place < 268435457 }
    ensures { result ≡ AsmFault.Bad (kind_of fault.rule) number (fault.place + 1) }
{
    AsmFault::Bad {
        kind: fault.rule.kind(),
        line: number,
        column: fault.place as u32 + 1,
    }
}

/// The first definition of each label, if all lines can be read.
fn definitions_of(alloc: Global, text: &[u8]) -> Result<Definitions<'_>, AsmFault>
    requires { length text.now ≤ 268435456 }
    ensures read { OnOk result (all_read 1 0 (lines_of text.now) ≡ Ok tt) }
    ensures definitions { IfOk result (λ definitions. (name : List ℕ) →
        found_in definitions name ≡ definition_of name 1 0 (lines_of text.now)) }
    ensures fault { IfErr result (IsFaultIn (all_read 1 0 (lines_of text.now))) }
{
    let mut definitions = BTreeMap::new(alloc);
    let mut start = 0;
    let mut number = 0;
    let mut words = 0;
    while start < text.len() {
        let line = line_from(text, start);
        number += 1;
        words = words_through(&mut definitions, number, words, line)?;
        start += line.len() + 1;
    }
    Ok(definitions)
}

/// How many words stand before the end of the line of this number, before which `words` words
/// stand. Its label is defined.
fn words_through<'a>(
    definitions: &mut Definitions<'a>,
    number: u32,
    words: u32,
    line: &'a [u8],
) -> Result<u32, AsmFault>
    requires line { length line.now ≤ 268435456 }
    requires words { words ≤ 268435456 }
    ensures words { IfOk result (λ after. words_behind number words line.now ≡ Ok after) }
    ensures definitions { OnOk result ((name : List ℕ) →
        found_in definitions.new name
        ≡ option_or (found_in definitions.old name) (definition_on name number words line.now)) }
    ensures fault { IfErr result (IsFaultIn (words_behind number words line.now)) }
{
    let Line { label, statement } = match read_line(line, words == MOST_WORDS) {
        Ok(read) => read,
        Err(unread) => return Err(on_line(number, unread)),
    };
    if let Some(label) = label {
        let definition = Definition {
            line: number,
            words,
        };
        define(definitions, text_of(line, label), definition)?;
    }
    Ok(words + u32::from(statement.is_some()))
}

/// Appends the instruction's word, if there is an instruction.
fn push_word(words: &mut Vec<u32>, insn: Option<Insn>) -> Result<(), AllocError>
    requires { ForSome insn IsWellFormed }
    ensures words { OnOk result ((done : List Insn) → AreWordsOf words.old.items done
        → AreWordsOf words.new.items (done ++ option_to_list insn)) }
    ensures count { OnOk result (vec_len words.new ≡ vec_len words.old + option_length insn) }
{
    if let Some(insn) = insn {
        words.push(encode(&insn))?;
    }
    Ok(())
}

/// The words of a text all of whose lines can be read.
fn words_of<'a>(
    alloc: Global,
    text: &'a [u8],
    definitions: &Definitions<'a>,
) -> Result<Vec<u32>, AsmFault>
    requires { length text.now ≤ 268435456 }
    ensures words { IfOk result (λ words. AreWordsIn words.items
        (insns_of (found_in definitions.now) 1 0 (lines_of text.now))) }
    ensures fault { IfErr result (IsFaultIn
        (insns_of (found_in definitions.now) 1 0 (lines_of text.now))) }
{
    let mut words = Vec::new(alloc);
    let mut start = 0;
    let mut number = 0;
    while start < text.len() {
        let line = line_from(text, start);
        number += 1;
        match line_insn(definitions, number, words.len() as u32, line) {
            Ok(insn) => push_word(&mut words, insn)?,
            Err(fault) => return Err(on_line(number, fault)),
        }
        start += line.len() + 1;
    }
    Ok(words)
}

/// The instruction of the line of this number, before which `words` words stand.
#[tactic(auto, unfolding(crate::specs::private::Programs::line_insn))]
fn line_insn<'a>(
    definitions: &Definitions<'a>,
    number: u32,
    words: u32,
    line: &'a [u8],
) -> Result<Option<Insn>, Fault>
    ensures value { result ≡ line_insn (found_in definitions.now) number words line.now }
    ensures bound { IfErr result (λ fault. fault.place ≤ length line.now) }
    ensures well_formed { IfOk result (λ found. IfSome found IsWellFormed) }
{
    let Line { label, statement } = read_line(line, words == MOST_WORDS)?;
    defined_once(definitions, number, line, label)?;
    match statement {
        None => Ok(None),
        Some(statement) => {
            let number = resolved(definitions, words, line, &statement)?;
            Ok(Some(insn_of(statement.mnemonic, statement.operands.registers, number)))
        }
    }
}

/// The label on the line of this number is defined on no earlier line.
fn defined_once<'a>(
    definitions: &Definitions<'a>,
    number: u32,
    line: &'a [u8],
    label: Option<Token>,
) -> Result<(), Fault>
    ensures { result ≡ defined_once (found_in definitions.now) number line.now label }
{
    let Some(label) = label else {
        return Ok(());
    };
    match definition_in(definitions, text_of(line, label)) {
        Some(first) if first.line != number => Err(Fault {
            rule: Rule::DefinedTwice,
            place: label.start,
        }),
        _ => Ok(()),
    }
}

/// From one word of a program to another, in bytes.
fn offset_between(from: u32, to: u32) -> Number
    ensures { result ≡ offset_between from to }
{
    let negative = to < from;
    let words = if negative { from - to } else { to - from };
    Number {
        negative,
        magnitude: 4 * u64::from(words),
    }
}

/// The number of a statement that stands behind `words` words: the offset of its label, if it has
/// one.
fn resolved<'a>(
    definitions: &Definitions<'a>,
    words: u32,
    line: &'a [u8],
    statement: &Statement,
) -> Result<Number, Fault>
    requires { fits (field_of statement.now.mnemonic) statement.now.operands.number ≡ true }
    ensures value { result
        ≡ resolved (found_in definitions.now) words line.now statement.now statement.now.operands.label }
    ensures in_field { IfOk result (λ number. fits (field_of statement.now.mnemonic) number ≡ true) }
{
    let Some(label) = statement.operands.label else {
        return Ok(statement.operands.number);
    };
    let Some(target) = definition_in(definitions, text_of(line, label)) else {
        return Err(Fault {
            rule: Rule::Undefined,
            place: label.start,
        });
    };
    let number = offset_between(words, target.words);
    if statement.mnemonic.field().fits(number) {
        Ok(number)
    } else {
        Err(Fault {
            rule: Rule::OutOfField,
            place: label.start,
        })
    }
}
