// The values of options and operands.
ghost use Rattle.std.specs.Prelude.{◌≡◌, ◌≤◌, ◌<◌, ◌^◌, IfSome, option_map};
ghost use Rattle.std.specs.Char.{is_ascii_digit};
ghost use Rattle.std.specs.List.{list_all};
ghost use Rattle.vab_words.specs.Values.{is_number, number_up_to, limit_of, metadata_max_of};
ghost use Rattle.vab_words.specs.Values.{blocks_of, slot_of, seed_of, scale_of, turns_of};
ghost use Rattle.vab_words.specs.Values.{IsBlocks, IsMetadataMax, IsScale};

const LIMIT_MAX: u64 = 1 << 44;

const METADATA_MAX: u64 = 65536;

const SECTOR: u64 = 512;

const BLOCKS_MAX: u64 = (1 << 32) - 1;

const SCALE_MAX: u64 = 64;

const DIGITS_MAX: usize = 20;

// Whether each byte is a decimal digit.
fn is_digits(text: &str) -> bool
    ensures { result ≡ list_all is_ascii_digit text.now }
{
    text.bytes().all(|byte| byte.is_ascii_digit())
}

// Whether the text is 1 to 20 decimal digits.
#[tactic(auto, unfolding(crate::specs::Values::is_number))]
fn is_number(text: &str) -> bool
    ensures { result ≡ is_number text.now }
{
    !text.is_empty() && text.len() <= DIGITS_MAX && is_digits(text)
}

// The number that 1 to 20 decimal digits write, where it is at most `most`.
fn parse_number(text: &str, most: u64) -> Option<u64>
    ensures value { result ≡ number_up_to most text.now }
    ensures small { IfSome result (λ n. n ≤ most) }
{
    if !is_number(text) {
        return None;
    }
    match text.parse::<u64>() {
        Ok(number) if number <= most => Some(number),
        _ => None,
    }
}

/// The bytes of `--limit`: from 0 to 2^44, and 0 where the option isn't given.
#[tactic(auto, unfolding(crate::specs::Values::limit_of))]
pub(crate) fn parse_limit(text: Option<&str>) -> Option<u64>
    ensures value { result ≡ limit_of (option_map (λ t. t.now) text.entry) }
    ensures small { IfSome result (λ n. n ≤ 2 ^ 44) }
{
    match text {
        Some(text) => parse_number(text, LIMIT_MAX),
        None => Some(0),
    }
}

/// The bytes of `--metadata-max`: a multiple of 512 from 512 to 65536, and 65536 where the option
/// isn't given.
#[tactic(auto, unfolding(crate::specs::Values::metadata_max_of))]
pub(crate) fn parse_metadata_max(text: Option<&str>) -> Option<u32>
    ensures value { result ≡ metadata_max_of (option_map (λ t. t.now) text.entry) }
    ensures range { IfSome result IsMetadataMax }
{
    let Some(text) = text else {
        return Some(METADATA_MAX as u32);
    };
    match parse_number(text, METADATA_MAX) {
        Some(bytes) if bytes >= SECTOR && bytes % SECTOR == 0 => Some(bytes as u32),
        _ => None,
    }
}

/// The operand of `merge`: a number from 1 to 2^32 - 1.
#[tactic(auto, unfolding(crate::specs::Values::blocks_of))]
pub(crate) fn parse_blocks(text: &str) -> Option<u64>
    ensures value { result ≡ blocks_of text.now }
    ensures range { IfSome result IsBlocks }
{
    match parse_number(text, BLOCKS_MAX) {
        Some(blocks) if blocks >= 1 => Some(blocks),
        _ => None,
    }
}

/// The number of `--turns`: from 0 to 2^32 - 1, and 0 where the option isn't given.
#[tactic(auto, unfolding(crate::specs::Values::turns_of))]
pub(crate) fn parse_turns(text: Option<&str>) -> Option<u64>
    ensures value { result ≡ turns_of (option_map (λ t. t.now) text.entry) }
    ensures range { IfSome result (λ n. n < 2 ^ 32) }
{
    match text {
        Some(text) => parse_number(text, BLOCKS_MAX),
        None => Some(0),
    }
}

/// The operand of `demo`: a number below 2^64.
#[tactic(auto, unfolding(crate::specs::Values::seed_of))]
pub(crate) fn parse_seed(text: &str) -> Option<u64>
    ensures value { result ≡ seed_of text.now }
    ensures range { IfSome result (λ n. n < 2 ^ 64) }
{
    parse_number(text, u64::MAX)
}

/// The number of `--scale`: from 1 to 64, and 1 where the option isn't given.
#[tactic(auto, unfolding(crate::specs::Values::scale_of))]
pub(crate) fn parse_scale(text: Option<&str>) -> Option<u64>
    ensures value { result ≡ scale_of (option_map (λ t. t.now) text.entry) }
    ensures range { IfSome result IsScale }
{
    let Some(text) = text else {
        return Some(1);
    };
    match parse_number(text, SCALE_MAX) {
        Some(scale) if scale >= 1 => Some(scale),
        _ => None,
    }
}

/// The slot of a letter: 0 for a and 1 for b.
#[tactic(auto, unfolding(crate::specs::Values::slot_of))]
pub(crate) fn parse_slot(text: &str) -> Option<usize>
    ensures value { result ≡ slot_of text.now }
    ensures range { IfSome result (λ slot. slot < 2) }
{
    match text {
        "a" => Some(0),
        "b" => Some(1),
        _ => None,
    }
}
