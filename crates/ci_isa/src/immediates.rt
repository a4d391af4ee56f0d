//! The immediates of the formats, taken out of a word and put into one (RISC-V Unprivileged ISA 20191213, figures 2.3
//! and 2.4).
ghost use Rattle.std.specs.Prelude.{◌≡◌, ℕ};
ghost use Rattle.ci_isa.specs.Fields.{field, rd_field, funct7, immediate_format, store_format, branch_format};
ghost use Rattle.ci_isa.specs.Fields.{upper_format, jump_format, immediate, signed_immediate};

use crate::fields::{bits, sign_extended};

/// The immediate of the format I.
pub fn immediate_of(word: u32) -> i32
    ensures { result ≡ signed_immediate immediate_format word }
{
    sign_extended(bits(word, 31, 20), 12)
}

/// The immediate of the format S.
pub fn store_offset_of(word: u32) -> i32
    ensures { result ≡ signed_immediate store_format word }
{
    sign_extended(bits(word, 31, 25) << 5 | bits(word, 11, 7), 12)
}

/// The immediate of the format B.
pub fn branch_offset_of(word: u32) -> i32
    ensures { result ≡ signed_immediate branch_format word }
{
    let top = bits(word, 31, 31) << 12 | bits(word, 7, 7) << 11;
    sign_extended(top | bits(word, 30, 25) << 5 | bits(word, 11, 8) << 1, 13)
}

/// The immediate of the format U.
pub fn upper_of(word: u32) -> u32
    ensures { result ≡ immediate upper_format word }
{
    bits(word, 31, 12) << 12
}

/// The immediate of the format J.
pub fn jump_offset_of(word: u32) -> i32
    ensures { result ≡ signed_immediate jump_format word }
{
    let top = bits(word, 31, 31) << 20 | bits(word, 19, 12) << 12;
    sign_extended(top | bits(word, 20, 20) << 11 | bits(word, 30, 21) << 1, 21)
}

/// The bits 31 to 20 of a word with this immediate of the format I.
pub fn immediate_bits(immediate: i32) -> u32
    ensures { (w : ℕ) → signed_immediate immediate_format w ≡ immediate → field w 31 20 ≡ result }
{
    bits(immediate.cast_unsigned(), 11, 0)
}

/// The bits 31 to 25 of a word with this immediate of the format S.
pub fn store_high_bits(offset: i32) -> u32
    ensures { (w : ℕ) → signed_immediate store_format w ≡ offset → funct7 w ≡ result }
{
    bits(offset.cast_unsigned(), 11, 5)
}

/// The bits 11 to 7 of a word with this immediate of the format S.
pub fn store_low_bits(offset: i32) -> u32
    ensures { (w : ℕ) → signed_immediate store_format w ≡ offset → rd_field w ≡ result }
{
    bits(offset.cast_unsigned(), 4, 0)
}

/// The bits 31 to 25 of a word with this immediate of the format B.
pub fn branch_high_bits(offset: i32) -> u32
    ensures { (w : ℕ) → signed_immediate branch_format w ≡ offset → funct7 w ≡ result }
{
    let value = offset.cast_unsigned();
    bits(value, 12, 12) << 6 | bits(value, 10, 5)
}

/// The bits 11 to 7 of a word with this immediate of the format B.
pub fn branch_low_bits(offset: i32) -> u32
    ensures { (w : ℕ) → signed_immediate branch_format w ≡ offset → rd_field w ≡ result }
{
    let value = offset.cast_unsigned();
    bits(value, 4, 1) << 1 | bits(value, 11, 11)
}

/// The bits 31 to 12 of a word with this immediate of the format J.
pub fn jump_bits(offset: i32) -> u32
    ensures { (w : ℕ) → signed_immediate jump_format w ≡ offset → field w 31 12 ≡ result }
{
    let value = offset.cast_unsigned();
    let top = bits(value, 20, 20) << 19 | bits(value, 10, 1) << 9;
    top | bits(value, 11, 11) << 8 | bits(value, 19, 12)
}
