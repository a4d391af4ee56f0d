//! The statement of a line.
ghost use Rattle.std.specs.Prelude.{◌≡◌, ◌≤◌, length, IfErr};
ghost use Rattle.ci_asm.specs.private.Shapes.{fits, is_one};
ghost use Rattle.ci_asm.specs.private.Tokens.{text_of};
ghost use Rattle.ci_asm.specs.private.Statements.{no_operands, with_register, not_due, register_in, mark_in};
ghost use Rattle.ci_asm.specs.private.Statements.{number_in, value_in, second_in, filled_in, ended, read_slots};
ghost use Rattle.ci_asm.specs.private.Statements.{mnemonic_in, read_statement};

use crate::faults::{Fault, Rule};
use crate::mnemonics::{Mnemonic, mnemonic_of};
use crate::numbers::{Number, number_of};
use crate::registers::{register_of, zero};
use crate::scanner::{Kind, Token, next_token, text_of};
use crate::slots::{Field, RegisterPlace, Slot};
use ci_isa::Reg;

/// The registers of a statement. What the statement doesn't have is x0.
#[derive(Clone, Copy)]
pub(crate) struct Registers {
    pub rd: Reg,
    pub rs1: Reg,
    pub rs2: Reg,
    pub rs3: Reg,
}

/// The operands of a statement. What the statement doesn't have is 0.
#[derive(Clone, Copy)]
pub(crate) struct Operands {
    pub registers: Registers,
    pub number: Number,
    /// The label that stands for the number.
    pub label: Option<Token>,
}

/// A statement.
#[derive(Clone, Copy)]
pub(crate) struct Statement {
    pub mnemonic: Mnemonic,
    pub operands: Operands,
}

impl Registers {
    /// The registers with this one in the place.
    fn with(mut self, place: RegisterPlace, register: Reg) -> Registers
        ensures { result ≡ with_register place register self }
    {
        match place {
            RegisterPlace::Rd => self.rd = register,
            RegisterPlace::Rs1 => self.rs1 = register,
            RegisterPlace::Rs2 => self.rs2 = register,
            RegisterPlace::Rs3 => self.rs3 = register,
        }
        self
    }
}

impl Operands {
    /// No operands.
    fn none() -> Operands
        ensures { result ≡ no_operands }
    {
        Operands {
            registers: Registers {
                rd: zero(),
                rs1: zero(),
                rs2: zero(),
                rs3: zero(),
            },
            number: Number {
                negative: false,
                magnitude: 0,
            },
            label: None,
        }
    }
}

/// The rule that a token of the kind breaks where another is due.
fn not_due(rule: Rule, kind: Kind) -> Rule
    ensures { result ≡ not_due rule kind }
{
    match kind {
        Kind::Bad => Rule::NoToken,
        _ => rule,
    }
}

/// The register that the token names.
fn register_in(text: &[u8], kind: Kind) -> Result<Reg, Rule>
    ensures { result ≡ register_in text.now kind }
{
    match kind {
        Kind::Name => register_of(text).ok_or(Rule::NoOperand),
        kind => Err(not_due(Rule::NoOperand, kind)),
    }
}

/// The operands, if the token is the mark that is due. The rule is broken by another token.
fn mark_in(due: u8, rule: Rule, operands: Operands, kind: Kind) -> Result<Operands, Rule>
    ensures { result ≡ mark_in due rule operands kind }
{
    match kind {
        Kind::Mark(mark) if mark == due => Ok(operands),
        kind => Err(not_due(rule, kind)),
    }
}

/// The operands with the number, if there is one and it lies in the field.
fn number_in(field: Field, number: Option<Number>, operands: Operands) -> Result<Operands, Rule>
    ensures { result ≡ number_in (fits field) number operands }
{
    match number {
        Some(number) if field.fits(number) => Ok(Operands { number, ..operands }),
        _ => Err(Rule::OutOfField),
    }
}

/// The operands with the token as the field's number.
fn value_in(line: &[u8], token: Token, field: Field, operands: Operands) -> Result<Operands, Rule>
    ensures { result ≡ value_in (text_of line.now token) token field operands token.kind }
{
    match token.kind {
        Kind::Numeral => number_in(field, number_of(text_of(line, token)), operands),
        Kind::Name if field.is_offset() => Ok(Operands {
            label: Some(token),
            ..operands
        }),
        kind => Err(not_due(Rule::NoOperand, kind)),
    }
}

/// The operands with the number, if there is one and it is 1.
fn one_in(number: Option<Number>, operands: Operands) -> Result<Operands, Rule>
    ensures { result ≡ number_in is_one number operands }
{
    match number {
        Some(number) if number.is_one() => Ok(Operands { number, ..operands }),
        _ => Err(Rule::OutOfField),
    }
}

/// The operands with the token as the number 1, of the second hidden result.
fn second_in(text: &[u8], operands: Operands, kind: Kind) -> Result<Operands, Rule>
    ensures { result ≡ second_in text.now operands kind }
{
    match kind {
        Kind::Numeral => one_in(number_of(text), operands),
        kind => Err(not_due(Rule::NoOperand, kind)),
    }
}

/// The operands with the token in the slot's place.
#[tactic(auto, unfolding(crate::specs::private::Statements::filled))]
fn filled_in(line: &[u8], slot: Slot, token: Token, operands: Operands) -> Result<Operands, Rule>
    ensures { result ≡ filled_in line.now slot token operands }
{
    match slot {
        Slot::Register(place) => {
            let register = register_in(text_of(line, token), token.kind)?;
            Ok(Operands {
                registers: operands.registers.with(place, register),
                ..operands
            })
        }
        Slot::Value(field) => value_in(line, token, field, operands),
        Slot::Comma => mark_in(b',', Rule::NoOperand, operands, token.kind),
        Slot::Open => mark_in(b'(', Rule::NoOperand, operands, token.kind),
        Slot::Close => mark_in(b')', Rule::NoOperand, operands, token.kind),
        Slot::Further => mark_in(b',', Rule::Surplus, operands, token.kind),
        Slot::Second => second_in(text_of(line, token), operands, token.kind),
    }
}

/// The operands, if the token is the line's end.
fn ended(operands: Operands, token: Token) -> Result<Operands, Fault>
    ensures value { result ≡ ended token.start operands token.kind }
    ensures place { IfErr result (λ fault. fault.place ≡ token.start) }
{
    let rule = match token.kind {
        Kind::End => return Ok(operands),
        kind => not_due(Rule::Surplus, kind),
    };
    Err(Fault {
        rule,
        place: token.start,
    })
}

/// The operands with what stands in the slots' places, from a place of the line on.
#[tactic(auto, unfolding(crate::specs::private::Statements::read_slots))]
fn read_slots(
    line: &[u8],
    slots: &[Slot],
    from: usize,
    operands: Operands,
) -> Result<Operands, Fault>
    ensures value { result ≡ read_slots line.now slots.now from operands }
    ensures bound { IfErr result (λ fault. fault.place ≤ length line.now) }
{
    let mut place = from;
    let mut read = operands;
    for slot in slots {
        let token = next_token(line, place);
        if slot.ends_before(token.kind) {
            return Ok(read);
        }
        match filled_in(line, *slot, token, read) {
            Ok(more) => read = more,
            Err(rule) => {
                return Err(Fault {
                    rule,
                    place: token.start,
                });
            }
        }
        place = token.end;
    }
    ended(read, next_token(line, place))
}

/// The mnemonic that the token is.
fn mnemonic_in(text: &[u8], kind: Kind) -> Result<Mnemonic, Rule>
    ensures { result ≡ mnemonic_in text.now kind }
{
    match kind {
        Kind::Name | Kind::Directive => mnemonic_of(text).ok_or(Rule::NoMnemonic),
        kind => Err(not_due(Rule::NoMnemonic, kind)),
    }
}

/// The statement that begins with the token. Where the program is full, no more statements may
/// come.
#[tactic(auto, unfolding(crate::specs::private::Statements::read_statement))]
pub(crate) fn read_statement(line: &[u8], token: Token, full: bool) -> Result<Statement, Fault>
    requires { token.start ≤ length line.now }
    ensures value { result ≡ read_statement line.now token full }
    ensures bound { IfErr result (λ fault. fault.place ≤ length line.now) }
{
    let place = token.start;
    let mnemonic = match mnemonic_in(text_of(line, token), token.kind) {
        Ok(mnemonic) => mnemonic,
        Err(rule) => return Err(Fault { rule, place }),
    };
    if full {
        let rule = Rule::Surplus;
        return Err(Fault { rule, place });
    }
    let operands = read_slots(line, mnemonic.slots(), token.end, Operands::none())?;
    Ok(Statement { mnemonic, operands })
}
