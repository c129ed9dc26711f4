// The first word: which device.
ghost use Rattle.std.specs.Prelude.{◌≡◌, ◌≢◌, ◌++◌, ℕ, List, MatchOption, codes};
ghost use Rattle.std.specs.Char.{is_ascii_digit};
ghost use Rattle.std.specs.List.{list_all};
ghost use Rattle.std.specs.Str.Parse.{digits_value};
ghost use Rattle.vab.specs.Word.{IsCount, AsksMemory, IsDeviceOf};

/// A device in memory of so many sectors, or a file.
#[derive(Clone, Copy, Debug, PartialEq, Eq)]
pub enum Device<'a> {
    Memory(u32),
    File(&'a str),
}

/// The most digits of a count of sectors.
const DIGITS_MAX: usize = 9;

// What stands behind the `mem:` at a word's front.
fn behind_mem(word: &str) -> Option<&str>
    ensures { MatchOption result
        ((rest : List ℕ) → word.now ≢ codes "mem:" ++ rest)
        (λ rest. word.now ≡ codes "mem:" ++ rest.now) }
{
    word.strip_prefix("mem:")
}

// Whether each byte is a decimal digit.
fn is_decimal(text: &str) -> bool
    ensures { result ≡ list_all is_ascii_digit text.now }
{
    text.bytes().all(|byte| byte.is_ascii_digit())
}

// The number that 1 to 9 decimal digits write.
fn parse_count(digits: &str) -> Option<u32>
    ensures { MatchOption result
        (¬ IsCount digits.now)
        (λ n. IsCount digits.now × (n ≡ digits_value 10 digits.now)) }
{
    if digits.len() > DIGITS_MAX || !is_decimal(digits) {
        return None;
    }
    match digits.parse::<u32>() {
        Ok(number) => Some(number),
        Err(_) => None,
    }
}

/// `mem:N` with 1 to 9 decimal digits is a device in memory; any other word is a path.
pub fn parse_device(word: &str) -> Device<'_>
    // What comes is what the word names.
    ensures named { IsDeviceOf word.now result }
    // Each word that asks for memory gets it.
    ensures memory { (digits : List ℕ)
        → AsksMemory word.now digits
        → result ≡ Device.Memory (digits_value 10 digits) }
{
    match behind_mem(word) {
        Some(digits) => match parse_count(digits) {
            Some(sectors) => Device::Memory(sectors),
            None => Device::File(word),
        },
        None => Device::File(word),
    }
}
