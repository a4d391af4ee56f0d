//! The operations of RV32I and of the M extension on words of 32 bits.
ghost use Rattle.std.specs.Prelude.{◌≡◌, ◌^◌};
ghost use Rattle.ci_word.specs.Arithmetic.{operation, signed, word_of, floor_quotient};

/// An operation on two words, under the name of its instruction (RISC-V Unprivileged ISA 20191213, section
/// 2.4 and chapter 7).
#[derive(Clone, Copy, Debug, PartialEq, Eq)]
pub enum Op {
    Add,
    Sub,
    Sll,
    Slt,
    Sltu,
    Xor,
    Srl,
    Sra,
    Or,
    And,
    Mul,
    Mulh,
    Mulhsu,
    Mulhu,
    Div,
    Divu,
    Rem,
    Remu,
}

/// A kind of instruction with a latency of its own.
///
/// `Shift` is a shift by a register, `ShiftConst` one by a constant. `Free` is what has no latency of its own: unit
/// words, `cread` and `cput`, the canonical no-op, and words that are no instruction.
#[derive(Clone, Copy, Debug, PartialEq, Eq)]
pub enum Class {
    Add,
    Logic,
    Shift,
    ShiftConst,
    Compare,
    Lui,
    Mul,
    Mulh,
    Load,
    Store,
    Branch,
    Jump,
    Auipc,
    Div,
    Fence,
    System,
    Free,
}

/// What the operation gives on the words `a` and `b`.
pub fn alu(op: Op, a: u32, b: u32) -> u32
    ensures { result ≡ operation op a b }
{
    match op {
        Op::Add => a.wrapping_add(b),
        Op::Sub => a.wrapping_sub(b),
        Op::Sll => a.wrapping_shl(b),
        Op::Slt => u32::from(a.cast_signed() < b.cast_signed()),
        Op::Sltu => u32::from(a < b),
        Op::Xor => a ^ b,
        Op::Srl => a.wrapping_shr(b),
        Op::Sra => a.cast_signed().wrapping_shr(b).cast_unsigned(),
        Op::Or => a | b,
        Op::And => a & b,
        Op::Mul => a.wrapping_mul(b),
        Op::Mulh => high_half(i64::from(a.cast_signed()) * i64::from(b.cast_signed())),
        Op::Mulhsu => high_half(i64::from(a.cast_signed()) * i64::from(b)),
        Op::Mulhu => (u64::from(a) * u64::from(b) >> 32) as u32,
        Op::Div => quotient(a, b),
        Op::Divu => a.checked_div(b).unwrap_or(u32::MAX),
        Op::Rem => remainder(a, b),
        Op::Remu => a.checked_rem(b).unwrap_or(a),
    }
}

/// The high word of a product.
fn high_half(product: i64) -> u32
    ensures { result ≡ word_of (floor_quotient product (2 ^ 32)) }
{
    (product.cast_unsigned() >> 32) as u32
}

/// The signed quotient. By zero it is all ones, and where it overflows it is the dividend.
fn quotient(a: u32, b: u32) -> u32
    ensures { result ≡ operation Op.Div a b }
{
    if b == 0 {
        u32::MAX
    } else {
        a.cast_signed()
            .wrapping_div(b.cast_signed())
            .cast_unsigned()
    }
}

/// The signed remainder. By zero it is the dividend.
fn remainder(a: u32, b: u32) -> u32
    ensures { result ≡ operation Op.Rem a b }
{
    if b == 0 {
        a
    } else {
        a.cast_signed()
            .wrapping_rem(b.cast_signed())
            .cast_unsigned()
    }
}
