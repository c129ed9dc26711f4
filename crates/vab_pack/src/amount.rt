//! Numbers of bytes in words.

ghost use Rattle.std.specs.Prelude.{◌≡◌, ◌≤◌, IfSome};
ghost use Rattle.std.specs.Char.{is_ascii_digit};
ghost use Rattle.std.specs.List.{list_all};
ghost use Rattle.vab_pack.specs.Amounts.{is_number, number_of, digits_of, factor_of};
ghost use Rattle.vab_pack.specs.Amounts.{scaled_up_to, amount_up_to};

const DIGITS_MAX: usize = 20;

// Whether each byte is a decimal digit.
fn is_digits(text: &str) -> bool
    ensures { result ≡ list_all is_ascii_digit text.now }
{
    text.bytes().all(|byte| byte.is_ascii_digit())
}

// Whether the text is 1 to 20 decimal digits.
#[tactic(auto, unfolding(crate::specs::Amounts::is_number))]
fn is_number(text: &str) -> bool
    ensures { result ≡ is_number text.now }
{
    !text.is_empty() && text.len() <= DIGITS_MAX && is_digits(text)
}

// The number that 1 to 20 decimal digits write, where it is below 2^64.
fn parse_number(text: &str) -> Option<u64>
    ensures { result ≡ number_of text.now }
{
    if !is_number(text) {
        return None;
    }
    match text.parse::<u64>() {
        Ok(number) => Some(number),
        Err(_) => None,
    }
}

// What stands before a letter K, M or G, and the factor that it stands for.
#[tactic(auto, unfolding(crate::specs::Amounts::digits_of, crate::specs::Amounts::factor_of))]
fn split_factor(text: &str) -> (&str, u64)
    ensures digits { result.0.now ≡ digits_of text.now }
    ensures factor { result.1 ≡ factor_of text.now }
{
    if let Some(digits) = text.strip_suffix('K') {
        (digits, 1 << 10)
    } else if let Some(digits) = text.strip_suffix('M') {
        (digits, 1 << 20)
    } else if let Some(digits) = text.strip_suffix('G') {
        (digits, 1 << 30)
    } else {
        (text, 1)
    }
}

// So many times the number, up to a most.
fn scaled(number: u64, factor: u64, most: u64) -> Option<u64>
    ensures { result ≡ scaled_up_to most factor number }
{
    match number.checked_mul(factor) {
        Some(scaled) if scaled <= most => Some(scaled),
        _ => None,
    }
}

/// The number of bytes that 1 to 20 decimal digits write, with K, M or G behind them for 2^10, 2^20
/// or 2^30 times as many; `None` where the text is none, or above a most.
#[tactic(auto, unfolding(crate::specs::Amounts::amount_up_to))]
pub(crate) fn parse_amount(text: &str, most: u64) -> Option<u64>
    ensures { result ≡ amount_up_to most text.now }
{
    let (digits, factor) = split_factor(text);
    scaled(parse_number(digits)?, factor, most)
}
