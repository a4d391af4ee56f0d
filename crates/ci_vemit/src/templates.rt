//! The wires of an operation.
ghost use Rattle.std.specs.Prelude.{◌≡◌, ◌<◌, ◌++◌, [], ◌∷◌, map, codes, IfOk, OnOk};
ghost use Rattle.ci_vemit.specs.Templates as terms;
ghost use Rattle.ci_vemit.specs.Templates.{wire, numbered, numbered_wire, direct, shift, comparison};
ghost use Rattle.ci_vemit.specs.Templates.{template, op_wires};

use crate::parts::{bits, constant, name, signed, unsigned, whole, widened};
use ci_unit::{Arg, UnitOp};
use ci_verilog::{Expr, Name, Operator, Simple, Term, Wire};
use ci_word::Op;
use std::alloc::{AllocError, Global};

/// Puts the wires of the operation of this number at the end.
pub(crate) fn push_operation(
    alloc: Global,
    wires: &mut Vec<Wire>,
    number: u8,
    op: &UnitOp,
) -> Result<(), AllocError>
    ensures { OnOk result (wires.new.items ≡ wires.old.items ++ op_wires number op.now) }
{
    let left = operand(alloc, wires, op.left)?;
    push(alloc, wires, "p", number, 32, Expr::One(left))?;
    let right = operand(alloc, wires, op.right)?;
    push(alloc, wires, "q", number, 32, Expr::One(right))?;
    push_template(alloc, wires, number, op.op)
}

/// An input, the result of an earlier operation or a constant.
fn operand(alloc: Global, wires: &[Wire], arg: Arg) -> Result<Term, AllocError>
    ensures { IfOk result (λ term. term ≡ terms.operand arg) }
{
    match arg {
        Arg::Input(0) => input(alloc, "a"),
        Arg::Input(1) => input(alloc, "b"),
        Arg::Input(2) => input(alloc, "c"),
        Arg::Input(3) => input(alloc, "d"),
        Arg::Input(_) => input(alloc, "e"),
        Arg::Earlier(number) => whole(alloc, wires, "t", number),
        Arg::Constant(word) => Ok(constant(word)),
    }
}

/// The input of this name.
fn input(alloc: Global, letter: &str) -> Result<Term, AllocError>
    ensures { IfOk result (λ term. term ≡ terms.whole letter.now) }
{
    let letter = String::from_str(alloc, letter)?;
    Ok(Term::Plain(Simple::Whole(Name::new(letter.into_bytes()))))
}

/// Puts a wire of the operation at the end.
fn push(
    alloc: Global,
    wires: &mut Vec<Wire>,
    letter: &str,
    number: u8,
    width: u8,
    value: Expr,
) -> Result<(), AllocError>
    ensures { OnOk result (wires.new.items ≡ wires.old.items ++ wire (numbered number letter.now) width value ∷ []) }
{
    let name = match name(alloc, letter, number) {
        Ok(name) => name,
        // At a `?` the proof would walk through all that an expression can be.
        Err(error) => {
            drop(value);
            return Err(error);
        }
    };
    wires.push(Wire { name, width, value })?;
    Ok(())
}

/// Puts the operation's wires behind those of its operands at the end.
fn push_template(alloc: Global, wires: &mut Vec<Wire>, number: u8, op: Op) -> Result<(), AllocError>
    ensures { OnOk result (wires.new.items ≡ wires.old.items ++ map (numbered_wire number) (template op)) }
{
    match op {
        Op::Add => push_direct(alloc, wires, number, Operator::Plus),
        Op::Sub => push_direct(alloc, wires, number, Operator::Minus),
        Op::Mul => push_direct(alloc, wires, number, Operator::Times),
        Op::And => push_direct(alloc, wires, number, Operator::And),
        Op::Or => push_direct(alloc, wires, number, Operator::Or),
        Op::Xor => push_direct(alloc, wires, number, Operator::Xor),
        Op::Sll => push_shift(alloc, wires, number, Operator::Left),
        Op::Srl => push_shift(alloc, wires, number, Operator::Right),
        Op::Sra => push_signed_shift(alloc, wires, number),
        Op::Sltu => push_comparison(alloc, wires, number, "p", "q"),
        Op::Slt => push_signed_comparison(alloc, wires, number),
        Op::Mulhu => push_unsigned_high_half(alloc, wires, number),
        Op::Mulh => push_signed_high_half(alloc, wires, number),
        Op::Mulhsu => push_mixed_high_half(alloc, wires, number),
        // No unit has these.
        Op::Div | Op::Divu | Op::Rem | Op::Remu => Ok(()),
    }
}

/// The result is that of one operator on both operands.
fn push_direct(
    alloc: Global,
    wires: &mut Vec<Wire>,
    number: u8,
    operator: Operator,
) -> Result<(), AllocError>
    ensures { OnOk result (wires.new.items ≡ wires.old.items ++ map (numbered_wire number) (direct operator)) }
{
    let left = whole(alloc, wires, "p", number)?;
    let right = whole(alloc, wires, "q", number)?;
    push(
        alloc,
        wires,
        "t",
        number,
        32,
        Expr::Two(operator, left, right),
    )
}

/// The result is the first operand, shifted by the low five bits of the second.
fn push_shift(
    alloc: Global,
    wires: &mut Vec<Wire>,
    number: u8,
    operator: Operator,
) -> Result<(), AllocError>
    ensures { OnOk result (wires.new.items ≡ wires.old.items ++ map (numbered_wire number) (shift operator)) }
{
    let left = whole(alloc, wires, "p", number)?;
    let amount = bits(alloc, wires, "q", number, 4, 0)?;
    push(
        alloc,
        wires,
        "t",
        number,
        32,
        Expr::Two(operator, left, amount),
    )
}

/// The result is the low half of the first operand's 64 bits, shifted by the low five bits of the second.
fn push_signed_shift(alloc: Global, wires: &mut Vec<Wire>, number: u8) -> Result<(), AllocError>
    ensures { OnOk result (wires.new.items ≡ wires.old.items ++ map (numbered_wire number) (template Op.Sra)) }
{
    let extended = signed(alloc, wires, "p", number)?;
    let places = bits(alloc, wires, "q", number, 4, 0)?;
    push(
        alloc,
        wires,
        "w",
        number,
        64,
        Expr::Two(Operator::Right, extended, places),
    )?;
    let low = bits(alloc, wires, "w", number, 31, 0)?;
    push(alloc, wires, "t", number, 32, Expr::One(low))
}

/// The result is 1 where the word of the one letter is below that of the other.
fn push_comparison(
    alloc: Global,
    wires: &mut Vec<Wire>,
    number: u8,
    left: &str,
    right: &str,
) -> Result<(), AllocError>
    ensures { OnOk result (wires.new.items
        ≡ wires.old.items ++ map (numbered_wire number) (comparison left.now right.now)) }
{
    let left = whole(alloc, wires, left, number)?;
    let right = whole(alloc, wires, right, number)?;
    push(
        alloc,
        wires,
        "w",
        number,
        1,
        Expr::Two(Operator::Less, left, right),
    )?;
    let word = widened(alloc, wires, "w", number)?;
    push(alloc, wires, "t", number, 32, Expr::One(word))
}

/// The operands' top bits are turned over before they are compared, which brings signed words into their order.
fn push_signed_comparison(
    alloc: Global,
    wires: &mut Vec<Wire>,
    number: u8,
) -> Result<(), AllocError>
    ensures { OnOk result (wires.new.items ≡ wires.old.items ++ map (numbered_wire number) (template Op.Slt)) }
{
    let left = turned(alloc, wires, "p", number)?;
    push(alloc, wires, "u", number, 32, left)?;
    let right = turned(alloc, wires, "q", number)?;
    push(alloc, wires, "v", number, 32, right)?;
    push_comparison(alloc, wires, number, "u", "v")
}

/// A word with its top bit turned over.
fn turned(alloc: Global, wires: &[Wire], letter: &str, number: u8) -> Result<Expr, AllocError>
    ensures { IfOk result (λ expr. expr ≡ terms.turned (numbered number letter.now)) }
{
    let word = whole(alloc, wires, letter, number)?;
    Ok(Expr::Two(Operator::Xor, word, constant(0x8000_0000)))
}

/// The high half of the product of two unsigned words.
fn push_unsigned_high_half(
    alloc: Global,
    wires: &mut Vec<Wire>,
    number: u8,
) -> Result<(), AllocError>
    ensures { OnOk result (wires.new.items ≡ wires.old.items ++ map (numbered_wire number) (template Op.Mulhu)) }
{
    let left = unsigned(alloc, wires, "p", number)?;
    let right = unsigned(alloc, wires, "q", number)?;
    push_high_half(alloc, wires, number, left, right)
}

/// The high half of the product of two signed words.
fn push_signed_high_half(alloc: Global, wires: &mut Vec<Wire>, number: u8) -> Result<(), AllocError>
    ensures { OnOk result (wires.new.items ≡ wires.old.items ++ map (numbered_wire number) (template Op.Mulh)) }
{
    let left = signed(alloc, wires, "p", number)?;
    let right = signed(alloc, wires, "q", number)?;
    push_high_half(alloc, wires, number, left, right)
}

/// The high half of the product of a signed and an unsigned word.
fn push_mixed_high_half(alloc: Global, wires: &mut Vec<Wire>, number: u8) -> Result<(), AllocError>
    ensures { OnOk result (wires.new.items ≡ wires.old.items ++ map (numbered_wire number) (template Op.Mulhsu)) }
{
    let multiplicand = signed(alloc, wires, "p", number)?;
    let multiplier = unsigned(alloc, wires, "q", number)?;
    push_high_half(alloc, wires, number, multiplicand, multiplier)
}

/// The result is the high half of the product of two terms of 64 bits.
fn push_high_half(
    alloc: Global,
    wires: &mut Vec<Wire>,
    number: u8,
    left: Term,
    right: Term,
) -> Result<(), AllocError>
    ensures { OnOk result (wires.new.items ≡ wires.old.items
        ++ wire (numbered number (codes "w")) 64 (Expr.Two Operator.Times left right)
        ∷ numbered_wire number (wire (codes "t") 32 (Expr.One (terms.bits (codes "w") 63 32))) ∷ []) }
{
    push(
        alloc,
        wires,
        "w",
        number,
        64,
        Expr::Two(Operator::Times, left, right),
    )?;
    let high = bits(alloc, wires, "w", number, 63, 32)?;
    push(alloc, wires, "t", number, 32, Expr::One(high))
}
