//! The steps of a plan.
ghost use Rattle.std.specs.Prelude.{◌≡◌, ◌<◌, ◌≤◌, ◌*◌, ◌/◌, ◌%◌, ◌^◌, length, slice_index, IsTrue};
ghost use Rattle.ci_plan.specs.private.Steps.{IsStep, signed_word, step_value};

/// A step of a plan: it makes one word of others, which it names by their places.
#[derive(Clone, Copy)]
pub(crate) enum Step {
    /// The sum, of so many bits.
    Plus(u8, u8, u8),
    Minus(u8, u8, u8),
    Times(u8, u8, u8),
    And(u8, u8),
    Or(u8, u8),
    Xor(u8, u8),
    /// The shift to the left, of so many bits.
    Left(u8, u8, u8),
    Right(u8, u8),
    /// The shift to the left by a number, of so many bits.
    LeftBy(u8, u8, u8),
    /// The shift to the right by a number.
    RightBy(u8, u8),
    Less(u8, u8),
    /// The third word where the first is 0, else the second.
    Choose(u8, u8, u8),
    /// Bits of a word from the low one on, so many.
    Part(u8, u8, u8),
    /// A word above another one of so many bits.
    Above(u8, u8, u8),
    /// A word of 32 bits, widened to 64 by its sign.
    Signed(u8),
    /// The product of two words of 32 bits, each widened to 64 by its sign.
    SignedTimes(u8, u8),
    /// The bits above the lowest 32 of the product.
    High(u8, u8),
    /// Those of the product of two words of 32 bits, each widened to 64 by its sign.
    SignedHigh(u8, u8),
    /// The lowest 32 bits of a word shifted to the left by a number, or those of another one shifted to the right by what
    /// the number leaves of 32.
    Turn(u8, u8, u8),
    /// The lowest 32 bits of the sum of a product and a word.
    TimesPlus(u8, u8, u8),
}

/// The lowest bits of a word.
pub(crate) fn low_bits(value: u64, width: u8) -> u64
    ensures { result ≡ value % 2 ^ width }
{
    if width == 32 {
        value & 0xffff_ffff
    } else if width < 64 {
        value & ((1 << width) - 1)
    } else {
        value
    }
}

/// The shift to the left, of so many bits.
pub(crate) fn shifted_left(value: u64, amount: u64, width: u8) -> u64
    requires { width ≤ 64 }
    ensures { result ≡ value * 2 ^ amount % 2 ^ width }
{
    if amount < 64 {
        low_bits(value << amount, width)
    } else {
        0
    }
}

/// The shift to the right.
fn shifted_right(value: u64, amount: u64) -> u64
    ensures { result ≡ value / 2 ^ amount }
{
    if amount < 64 { value >> amount } else { 0 }
}

/// A word of 32 bits, widened to 64 by its sign.
fn signed(value: u64) -> u64
    ensures { result ≡ signed_word value }
{
    value.wrapping_add((value >> 31) % 2 * 0xffff_ffff_0000_0000)
}

/// The word at the place.
fn word(words: &[u64], place: u8) -> u64
    requires { place < length words.now }
    ensures { result ≡ slice_index words.now place }
{
    words[usize::from(place)]
}

impl Step {
    /// Whether the places of the words that it is made of are below this one.
    pub(crate) fn is_within(self, top: u8) -> bool
        requires { IsStep 64 self }
        ensures { IsTrue result → IsStep top self }
    {
        match self {
            Step::Plus(first, second, _)
            | Step::Minus(first, second, _)
            | Step::Times(first, second, _)
            | Step::Left(first, second, _)
            | Step::Above(first, second, _)
            | Step::And(first, second)
            | Step::Or(first, second)
            | Step::Xor(first, second)
            | Step::Right(first, second)
            | Step::Less(first, second)
            | Step::SignedTimes(first, second)
            | Step::High(first, second)
            | Step::SignedHigh(first, second)
            | Step::Turn(first, second, _) => first < top && second < top,
            Step::Choose(test, first, second) | Step::TimesPlus(test, first, second) => test < top
                && first < top
                && second < top,
            Step::LeftBy(from, _, _)
            | Step::RightBy(from, _)
            | Step::Part(from, _, _)
            | Step::Signed(from) => from < top,
        }
    }

    /// The word that the step makes of these.
    #[inline(always)]
    pub(crate) fn value(self, words: &[u64]) -> u64
        requires { IsStep (length words.now) self }
        ensures { result ≡ step_value words.now self }
    {
        match self {
            Step::Plus(left, right, width) => {
                low_bits(word(words, left).wrapping_add(word(words, right)), width)
            }
            Step::Minus(left, right, width) => {
                low_bits(word(words, left).wrapping_sub(word(words, right)), width)
            }
            Step::Times(left, right, width) => {
                low_bits(word(words, left).wrapping_mul(word(words, right)), width)
            }
            Step::And(left, right) => word(words, left) & word(words, right),
            Step::Or(left, right) => word(words, left) | word(words, right),
            Step::Xor(left, right) => word(words, left) ^ word(words, right),
            Step::Left(left, right, width) => {
                shifted_left(word(words, left), word(words, right), width)
            }
            Step::Right(left, right) => shifted_right(word(words, left), word(words, right)),
            Step::LeftBy(from, amount, width) => {
                shifted_left(word(words, from), u64::from(amount), width)
            }
            Step::RightBy(from, amount) => shifted_right(word(words, from), u64::from(amount)),
            Step::Less(left, right) => u64::from(word(words, left) < word(words, right)),
            Step::Choose(test, first, second) => {
                if word(words, test) == 0 {
                    word(words, second)
                } else {
                    word(words, first)
                }
            }
            Step::Part(from, low, width) => {
                low_bits(shifted_right(word(words, from), u64::from(low)), width)
            }
            Step::Above(high, low, width) => {
                shifted_left(word(words, high), u64::from(width), 64).wrapping_add(word(words, low))
            }
            Step::Signed(from) => signed(word(words, from)),
            Step::SignedTimes(left, right) => {
                signed(word(words, left)).wrapping_mul(signed(word(words, right)))
            }
            Step::High(left, right) => {
                low_bits(word(words, left).wrapping_mul(word(words, right)) >> 32, 32)
            }
            Step::SignedHigh(left, right) => {
                low_bits(
                    signed(word(words, left)).wrapping_mul(signed(word(words, right))) >> 32,
                    32,
                )
            }
            Step::Turn(left, right, amount) => {
                low_bits(word(words, left) << amount, 32) | word(words, right) >> (32 - amount)
            }
            Step::TimesPlus(left, right, more) => {
                let product = low_bits(word(words, left).wrapping_mul(word(words, right)), 32);
                low_bits(product.wrapping_add(word(words, more)), 32)
            }
        }
    }
}
