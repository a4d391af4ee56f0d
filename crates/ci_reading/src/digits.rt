//! Numbers in digits of a base.
ghost use Rattle.std.specs.Prelude.{◌≡◌, ◌^◌, ◌<◌, ◌≤◌, length, IfSome, SomeIff};
ghost use Rattle.std.specs.Char.{digit_value};
ghost use Rattle.std.specs.Str.Parse.{IsNumeral, digits_value};

/// What a byte stands for as a digit, in either case of letters, and 36 if it is no digit.
pub fn digit_value(byte: u8) -> u64
    ensures value { result ≡ digit_value byte }
    ensures bound { result ≤ 36 }
{
    match byte {
        b'0'..=b'9' => u64::from(byte - b'0'),
        b'A'..=b'Z' => u64::from(byte - b'A') + 10,
        b'a'..=b'z' => u64::from(byte - b'a') + 10,
        _ => 36,
    }
}

/// The number that the text writes, where it is one digit of the base or more, and at most so many.
pub fn number_of_digits(base: u64, most: usize, text: &[u8]) -> Option<u64>
    requires digits { 2 ≤ base }
    requires letters { base ≤ 36 }
    requires small { base ^ most ≤ 2 ^ 64 }
    ensures number { SomeIff result (IsNumeral base text.now × (length text.now ≤ most))
        (digits_value base text.now) }
    ensures below { IfSome result (λ n. n < base ^ most) }
{
    if text.is_empty() || text.len() > most {
        return None;
    }
    let mut number = 0;
    for byte in text {
        let digit = digit_value(*byte);
        if digit >= base {
            return None;
        }
        number = number * base + digit;
    }
    Some(number)
}
