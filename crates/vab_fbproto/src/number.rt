//! Numbers of packets.
ghost use Rattle.std.specs.Prelude.{◌≡◌, ◌≤◌, ◌<◌, ◌+◌, ◌*◌, ◌^◌, length, IfSome, IsTrue, Some};
ghost use Rattle.vab_fbproto.specs.Requests.{digit_of, with_digit, digits_behind, number_in, wide};
ghost use Rattle.vab_fbproto.specs.Requests.{is_hexadecimal, number_of, decimal_number};

// The value of a hexadecimal digit.
fn digit(byte: u8) -> Option<u8>
    ensures value { result ≡ digit_of byte }
    ensures small { IfSome result (λ d. d < 16) }
{
    match byte {
        b'0'..=b'9' => Some(byte - b'0'),
        b'a'..=b'f' => Some(byte - b'a' + 10),
        b'A'..=b'F' => Some(byte - b'A' + 10),
        _ => None,
    }
}

// A number, and one digit more that is below the base, 10 or 16.
fn with_digit(base: u8, value: u128, digit: Option<u8>) -> Option<u128>
    requires base { base ≤ 16 }
    requires small { value < 2 ^ 100 }
    ensures value { result ≡ with_digit base value digit }
    ensures small { IfSome result (λ n. n < 16 * (value + 1)) }
{
    match digit {
        Some(digit) if digit < base => Some(base as u128 * value + digit as u128),
        _ => None,
    }
}

// The number that at most twenty digits spell.
fn digits_value(base: u8, digits: &[u8]) -> Option<u128>
    requires base { base ≤ 16 }
    requires few { length digits.now ≤ 20 }
    ensures value { result ≡ digits_behind base (Some 0) digits.now }
    ensures small { length digits.now ≤ 8 → IfSome result (λ n. n < 2 ^ 32) }
{
    let mut value: u128 = 0;
    for byte in digits {
        match with_digit(base, value, digit(*byte)) {
            Some(next) => value = next,
            None => return None,
        }
    }
    Some(value)
}

// The number that 1 to so many digits spell.
#[tactic(auto, unfolding(crate::specs::Requests::number_in))]
fn number_in(base: u8, most: usize, digits: &[u8]) -> Option<u128>
    requires base { base ≤ 16 }
    requires most { most ≤ 20 }
    ensures value { result ≡ number_in base most digits.now }
    ensures small { most ≤ 8 → IfSome result (λ n. n < 2 ^ 32) }
{
    if digits.is_empty() || digits.len() > most {
        return None;
    }
    digits_value(base, digits)
}

// The number where it has 64 bits.
fn wide(number: Option<u128>) -> Option<u64>
    ensures { result ≡ wide number }
{
    match number {
        Some(n) if n < 1 << 64 => Some(n as u64),
        _ => None,
    }
}

/// The number that 1 to 8 hexadecimal digits spell.
pub(crate) fn short_hexadecimal(digits: &[u8]) -> Option<u32>
    ensures { result ≡ number_in 16 8 digits.now }
{
    match number_in(16, 8, digits) {
        Some(n) => Some(n as u32),
        None => None,
    }
}

/// The number that 1 to 20 decimal digits spell, where it is below 2^64.
pub(crate) fn decimal_number(text: &[u8]) -> Option<u64>
    ensures { result ≡ decimal_number text.now }
{
    wide(number_in(10, 20, text))
}

// Whether the text begins with `0x`.
#[tactic(auto, unfolding(crate::specs::Requests::is_hexadecimal))]
fn is_hexadecimal(text: &[u8]) -> bool
    ensures test { result ≡ is_hexadecimal text.now }
    ensures long { IsTrue result → 2 ≤ length text.now }
{
    matches!(text, [b'0', b'x', ..])
}

/// The number that `0x` and 1 to 16 hexadecimal digits spell, or 1 to 20 decimal digits, where it
/// is below 2^64.
#[tactic(auto, unfolding(crate::specs::Requests::number_of))]
pub(crate) fn number_of(text: &[u8]) -> Option<u64>
    ensures { result ≡ number_of text.now }
{
    if is_hexadecimal(text) {
        wide(number_in(16, 16, &text[2..]))
    } else {
        decimal_number(text)
    }
}
