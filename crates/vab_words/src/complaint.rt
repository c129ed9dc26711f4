// What is wrong with words that ask for nothing.
ghost use Rattle.std.specs.Prelude.{◌≡◌, IfSome, map, string_bytes};
ghost use Rattle.vab_words.specs.Complaints.{Names};

use crate::values::{
    parse_blocks, parse_limit, parse_metadata_max, parse_scale, parse_seed, parse_slot, parse_turns,
};
use std::fmt;

/// A value of a verb. Displayed it is what the value may be.
#[derive(Clone, Copy, Debug, PartialEq, Eq)]
pub enum Value {
    /// The operand of `merge`.
    Turns,
    /// The operand of `activate` and of `adopt`.
    Slot,
    /// The operand of `demo`.
    Seed,
    /// `--limit` of `make`.
    Limit,
    /// `--metadata-max` of `make`.
    MetadataMax,
    /// `--scale` of `demo`.
    Scale,
    /// `--turns` of `serve`.
    Between,
}

/// What is wrong with words that ask for nothing.
#[derive(Clone, Copy, Debug, PartialEq, Eq)]
pub enum Complaint {
    /// There is no word.
    NoVerb,
    /// The first word is no verb.
    Unknown,
    /// The word of this index isn't in the form or the range of its value.
    Value(usize, Value),
    /// The verb doesn't take these words behind it.
    Words,
}

impl Value {
    ghost use Rattle.vab_words.specs.Complaints.{is_value};

    // Whether a text is in form and range.
    fn takes(self, text: &str) -> bool
        ensures { result ≡ is_value self text.now }
    {
        match self {
            Value::Turns => parse_blocks(text).is_some(),
            Value::Slot => parse_slot(text).is_some(),
            Value::Seed => parse_seed(text).is_some(),
            Value::Limit => parse_limit(Some(text)).is_some(),
            Value::MetadataMax => parse_metadata_max(Some(text)).is_some(),
            Value::Scale => parse_scale(Some(text)).is_some(),
            Value::Between => parse_turns(Some(text)).is_some(),
        }
    }
}

impl fmt::Display for Value {
    fn fmt<W: fmt::Write>(&self, f: &mut fmt::Formatter<W>) -> fmt::Result {
        match self {
            Value::Turns => write!(f, "N is 1 to 4294967295"),
            Value::Slot => write!(f, "SLOT is a or b"),
            Value::Seed => write!(f, "SEED is 0 to 18446744073709551615"),
            Value::Limit => write!(f, "BYTES is 0 to 17592186044416"),
            Value::MetadataMax => write!(f, "BYTES is 512 to 65536, a multiple of 512"),
            Value::Scale => write!(f, "K is 1 to 64"),
            Value::Between => write!(f, "N is 0 to 4294967295"),
        }
    }
}

// Whether a word is the name of a verb.
fn is_verb(word: &str) -> bool {
    match word {
        "make" | "adopt" | "serve" | "install" | "boot" | "mark" | "begin-merge" => true,
        "merge" | "cancel" | "activate" | "print" | "digest" | "status" | "demo" => true,
        _ => false,
    }
}

// The value that the word behind this one is.
fn value_behind(word: &str) -> Option<Value> {
    match word {
        "merge" => Some(Value::Turns),
        "activate" | "adopt" => Some(Value::Slot),
        "demo" => Some(Value::Seed),
        "--limit" => Some(Value::Limit),
        "--metadata-max" => Some(Value::MetadataMax),
        "--scale" => Some(Value::Scale),
        "--turns" => Some(Value::Between),
        _ => None,
    }
}

// The first word that stands where a value does and isn't one.
fn bad_value(words: &[String]) -> Option<Complaint>
    ensures { IfSome result (Names (map string_bytes words.now)) }
{
    let mut value: Option<Value> = None;
    for (index, word) in words.iter().enumerate() {
        if let Some(value) = value {
            if !value.takes(word.as_str()) {
                return Some(Complaint::Value(index, value));
            }
        }
        value = value_behind(word.as_str());
    }
    None
}

/// What is wrong with words that ask for nothing, as far as they tell.
pub fn complaint_of(words: &[String]) -> Complaint
    // Where a word is named, it is there, and isn't of its form or range.
    ensures { Names (map string_bytes words.now) result }
{
    let Some(first) = words.first() else {
        return Complaint::NoVerb;
    };
    if !is_verb(first.as_str()) {
        return Complaint::Unknown;
    }
    match bad_value(words) {
        Some(complaint) => complaint,
        None => Complaint::Words,
    }
}
