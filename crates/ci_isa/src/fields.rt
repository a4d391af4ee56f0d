//! The bits of a word.
ghost use Rattle.std.specs.Prelude.{◌≡◌, ◌^◌, ◌<◌, ◌≤◌};
ghost use Rattle.ci_word.specs.Arithmetic.{signed_of_width};
ghost use Rattle.ci_isa.specs.Fields.{field};

/// The bits of the word from `high` down to `low`, as a number.
pub fn bits(word: u32, high: u32, low: u32) -> u32
    requires ordered { low ≤ high }
    requires within { high < 32 }
    ensures { result ≡ field word high low }
{
    word >> low & u32::MAX >> (31 - (high - low))
}

/// The number that `value` stands for in two's complement of `width` bits.
pub fn sign_extended(value: u32, width: u32) -> i32
    requires positive { 0 < width }
    requires narrow { width < 31 }
    requires fits { value < 2 ^ width }
    ensures { result ≡ signed_of_width width value }
{
    if value < 1 << (width - 1) {
        value as i32
    } else {
        value as i32 - (1 << width)
    }
}
