//! Parts of the expressions of an operation, whose wires are named by a letter and the operation's number.
ghost use Rattle.std.specs.Prelude.{◌≡◌, IfOk};
ghost use Rattle.ci_vemit.specs.Templates as parts;
ghost use Rattle.ci_vemit.specs.Templates.{numbered};

use ci_verilog::{Item, Items, Name, Simple, Term, Wire};
use std::alloc::{AllocError, Global};

/// The most wires of a module.
const WIRES: usize = 2048;

/// The name of the operation's wire with this letter.
pub(crate) fn name(alloc: Global, letter: &str, number: u8) -> Result<Name, AllocError>
    ensures { IfOk result (λ name. name ≡ numbered number letter.now) }
{
    Ok(Name::new(format!(in alloc; "{letter}{number}")?.into_bytes()))
}

/// The same name, for a term: beside it stands the number of the wire that has it, which likely is one of the last.
fn known(alloc: Global, wires: &[Wire], letter: &str, number: u8) -> Result<Name, AllocError>
    ensures { IfOk result (λ name. name ≡ numbered number letter.now) }
{
    let name = name(alloc, letter, number)?;
    for place in (0..wires.len().min(WIRES)).rev() {
        if wires[place].name.as_bytes() == name.as_bytes() {
            return Ok(name.placed(place));
        }
    }
    Ok(name)
}

/// All bits of the operation's wire with this letter.
pub(crate) fn whole(
    alloc: Global,
    wires: &[Wire],
    letter: &str,
    number: u8,
) -> Result<Term, AllocError>
    ensures { IfOk result (λ term. term ≡ parts.whole (numbered number letter.now)) }
{
    Ok(Term::Plain(Simple::Whole(known(alloc, wires, letter, number)?)))
}

/// The bits from the high one to the low one.
pub(crate) fn bits(
    alloc: Global,
    wires: &[Wire],
    letter: &str,
    number: u8,
    high: u8,
    low: u8,
) -> Result<Term, AllocError>
    ensures { IfOk result (λ term. term ≡ parts.bits (numbered number letter.now) high low) }
{
    Ok(Term::Plain(Simple::Bits(known(alloc, wires, letter, number)?, high, low)))
}

/// A constant of 32 bits.
pub(crate) fn constant(word: u32) -> Term
    ensures { result ≡ parts.constant word }
{
    Term::Plain(Simple::Number {
        width: 32,
        value: u64::from(word),
    })
}

/// An item above all bits of the operation's wire with this letter.
fn above(
    alloc: Global,
    item: Item,
    wires: &[Wire],
    letter: &str,
    number: u8,
) -> Result<Term, AllocError>
    ensures { IfOk result (λ term. term ≡ parts.above item (numbered number letter.now)) }
{
    let mut items = Items::new(alloc);
    items.push(item)?;
    items.push(Item::Plain(Simple::Whole(known(alloc, wires, letter, number)?)))?;
    Ok(Term::Join(items))
}

/// The 64 bits of a signed word.
pub(crate) fn signed(
    alloc: Global,
    wires: &[Wire],
    letter: &str,
    number: u8,
) -> Result<Term, AllocError>
    ensures { IfOk result (λ term. term ≡ parts.signed (numbered number letter.now)) }
{
    let top = Item::Repeat(
        32,
        Simple::Bits(known(alloc, wires, letter, number)?, 31, 31),
    );
    above(alloc, top, wires, letter, number)
}

/// The 64 bits of an unsigned word.
pub(crate) fn unsigned(
    alloc: Global,
    wires: &[Wire],
    letter: &str,
    number: u8,
) -> Result<Term, AllocError>
    ensures { IfOk result (λ term. term ≡ parts.unsigned (numbered number letter.now)) }
{
    above(alloc, zeros(32), wires, letter, number)
}

/// The word of one bit.
pub(crate) fn widened(
    alloc: Global,
    wires: &[Wire],
    letter: &str,
    number: u8,
) -> Result<Term, AllocError>
    ensures { IfOk result (λ term. term ≡ parts.widened (numbered number letter.now)) }
{
    above(alloc, zeros(31), wires, letter, number)
}

/// So many zeros.
fn zeros(width: u8) -> Item
    ensures { result ≡ parts.zeros width }
{
    Item::Plain(Simple::Number { width, value: 0 })
}
