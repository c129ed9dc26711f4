// What the words ask for.
ghost use Rattle.std.specs.Prelude.{◌≡◌, ◌↔◌, IfSome, IfOk, IfErr, Some, None, true, false, map};
ghost use Rattle.std.specs.Prelude.{option_and_then, option_map, string_bytes, codes};
ghost use Rattle.clap.specs.Words.{first_of, found_of, kind_of, rows_of, subcommand_rows_of};
ghost use Rattle.clap.specs.declared.error.kind.ErrorKind.TheVariants.{OutOfMemory};

use crate::command::vab;
use crate::values::{
    parse_blocks, parse_limit, parse_metadata_max, parse_scale, parse_seed, parse_slot, parse_turns,
};
use clap::ArgMatches;
use clap::error::ErrorKind;
use std::alloc::{AllocError, Global};

/// What the words ask for.
#[derive(Clone, Copy, Debug, PartialEq, Eq)]
pub enum Verb<'a> {
    /// A device is made of a set of images.
    Make {
        /// The limit of the group of the partitions in bytes, 0 for none: from 0 to 2^44.
        limit: u64,
        /// The most bytes of a copy of a partition table: a multiple of 512, from 512 to 65536.
        metadata_max: u32,
    },
    /// A device is made of a disk whose partition table of this slot somebody else has written,
    /// 0 for a and 1 for b.
    Adopt(usize),
    /// A session over the device.
    Serve {
        /// The device is made first.
        fresh: bool,
        /// How many turns of a merge are made behind the hello and behind each reply: below 2^32.
        turns: u64,
    },
    /// Installs the set of images on standard input into the slot that isn't running.
    Install,
    /// A boot of the device.
    Boot,
    /// The current slot is marked successful.
    Mark,
    /// An update begins to be merged.
    BeginMerge,
    /// At most so many turns of a merge, from 1 to 2^32 - 1: each merges a block, and one more ends
    /// the merge.
    Merge(u64),
    /// An update is dropped.
    Cancel,
    /// The slot is made the active one, 0 for a and 1 for b.
    Activate(usize),
    /// The bytes of the partition of this name.
    Print(&'a str),
    /// The SHA-256 of the bytes of the partition of this name.
    Digest(&'a str),
    /// Tells the page of the device.
    Status,
    /// Makes a device, updates it and merges the update.
    Demo {
        /// What the images are drawn from.
        seed: u64,
        /// How many times as many blocks as without the option: from 1 to 64.
        scale: u64,
    },
}

/// Why the words ask for nothing.
#[derive(Clone, Copy, Debug, PartialEq, Eq)]
pub enum WordsFault {
    /// The words aren't taken, or a value is out of form or range.
    Usage,
    /// Memory was refused.
    NoMemory,
}

impl From<AllocError> for WordsFault {
    ghost use Rattle.vab_words.specs.declared.verb.WordsFault.TheVariants.{NoMemory};

    ghost from_gives = { λ _ fault. fault ≡ NoMemory };

    fn from(_error: AllocError) -> WordsFault {
        WordsFault::NoMemory
    }
}

impl From<clap::Error> for WordsFault {
    ghost use Rattle.vab_words.specs.Verbs.{fault_of};

    ghost from_gives = { λ error fault. fault ≡ fault_of (kind_of error) };

    fn from(error: clap::Error) -> WordsFault {
        match error.kind() {
            ErrorKind::OutOfMemory => WordsFault::NoMemory,
            _ => WordsFault::Usage,
        }
    }
}

ghost use Rattle.vab_words.specs.Command.{found_in, is_taken};
ghost use Rattle.vab_words.specs.Verbs.{IsInRange, demo_in, is_set, make_of, meaning_of};
ghost use Rattle.vab_words.specs.Verbs.{serve_of, verb_in, verb_of};

// What clap finds in the words.
fn parse_matches<'a>(alloc: Global, words: &'a [String]) -> Result<ArgMatches<'a>, WordsFault>
    ensures taken { IfOk result (λ _. is_taken (map string_bytes words.entry.now) ≡ true) }
    ensures found { IfOk result
        (λ m. subcommand_rows_of m ≡ found_in (map string_bytes words.entry.now)) }
    ensures usage { IfErr result
        (λ fault. fault ≡ WordsFault.Usage → is_taken (map string_bytes words.entry.now) ≡ false) }
{
    let matches = vab(alloc)?.try_get_matches_from(words)?;
    Ok(matches)
}

// The text that was found for the argument.
fn text_of<'a>(values: &ArgMatches<'a>, id: &str) -> Option<&'a str>
    ensures { option_map (λ t. t.now) result ≡ first_of id.now (rows_of (found_of values.now)) }
{
    values.get_str(id)
}

// `make` with what was found for its options.
#[tactic(auto, unfolding(crate::specs::Verbs::make_of))]
fn make_in<'a>(values: &ArgMatches<'a>) -> Option<Verb<'a>>
    ensures range { IfSome result IsInRange }
    ensures value { option_map meaning_of result
        ≡ make_of (first_of (codes "limit") (rows_of (found_of values.now)))
        (first_of (codes "metadata-max") (rows_of (found_of values.now))) }
{
    let limit = parse_limit(text_of(values, "limit"))?;
    let metadata_max = parse_metadata_max(text_of(values, "metadata-max"))?;
    Some(Verb::Make {
        limit,
        metadata_max,
    })
}

// `demo` with what was found for its operand and its option.
#[tactic(auto, unfolding(crate::specs::Verbs::demo_of))]
fn demo_in<'a>(values: &ArgMatches<'a>) -> Option<Verb<'a>>
    ensures range { IfSome result IsInRange }
    ensures value { option_map meaning_of result ≡ demo_in (rows_of (found_of values.now)) }
{
    let seed = parse_seed(text_of(values, "seed")?)?;
    let scale = parse_scale(text_of(values, "scale"))?;
    Some(Verb::Demo { seed, scale })
}

// Whether the flag is given.
#[tactic(auto, unfolding(crate::specs::Verbs::is_set))]
fn is_set(values: &ArgMatches<'_>, id: &str) -> bool
    ensures { result ≡ is_set (first_of id.now (rows_of (found_of values.now))) }
{
    match text_of(values, id) {
        Some(value) => value == "true",
        None => false,
    }
}

// `serve` with what was found for its flag and its option.
#[tactic(auto, unfolding(crate::specs::Verbs::serve_of))]
fn serve_in<'a>(values: &ArgMatches<'a>) -> Option<Verb<'a>>
    ensures range { IfSome result IsInRange }
    ensures value { option_map meaning_of result
        ≡ serve_of (first_of (codes "fresh") (rows_of (found_of values.now)))
        (first_of (codes "turns") (rows_of (found_of values.now))) }
{
    let turns = parse_turns(text_of(values, "turns"))?;
    Some(Verb::Serve {
        fresh: is_set(values, "fresh"),
        turns,
    })
}

// The verb of this name, by what was found for its arguments.
#[tactic(auto, unfolding(crate::specs::Verbs::verb_in))]
fn verb_in<'a>(name: &str, values: &ArgMatches<'a>) -> Option<Verb<'a>>
    ensures range { IfSome result IsInRange }
    ensures value { option_map meaning_of result
        ≡ verb_in name.now (rows_of (found_of values.now)) }
{
    match name {
        "make" => make_in(values),
        "adopt" => Some(Verb::Adopt(parse_slot(text_of(values, "slot")?)?)),
        "serve" => serve_in(values),
        "install" => Some(Verb::Install),
        "boot" => Some(Verb::Boot),
        "mark" => Some(Verb::Mark),
        "begin-merge" => Some(Verb::BeginMerge),
        "merge" => Some(Verb::Merge(parse_blocks(text_of(values, "blocks")?)?)),
        "cancel" => Some(Verb::Cancel),
        "activate" => Some(Verb::Activate(parse_slot(text_of(values, "slot")?)?)),
        "print" => Some(Verb::Print(text_of(values, "name")?)),
        "digest" => Some(Verb::Digest(text_of(values, "name")?)),
        "status" => Some(Verb::Status),
        "demo" => demo_in(values),
        _ => None,
    }
}

// The verb that clap found.
fn found_verb<'a>(matches: &ArgMatches<'a>) -> Option<Verb<'a>>
    ensures range { IfSome result IsInRange }
    ensures value { option_map meaning_of result
        ≡ option_and_then (λ found. verb_in found.0 found.1) (subcommand_rows_of matches.now) }
{
    let (name, values) = matches.subcommand()?;
    verb_in(name, values)
}

/// What the words behind the device's ask for: `make [--limit BYTES] [--metadata-max BYTES]`,
/// `adopt SLOT`, `serve [--fresh] [--turns N]`, `install`, `boot`, `mark`, `begin-merge`,
/// `merge N`, `cancel`, `activate SLOT`, `print NAME`, `digest NAME`, `status` or
/// `demo SEED [--scale K]`.
pub fn parse_words<'a>(alloc: Global, words: &'a [String]) -> Result<Verb<'a>, WordsFault>
    // A verb comes only where the words ask for it, and a refusal only where they ask for none.
    ensures verb { IfOk result
        (λ v. verb_of (map string_bytes words.entry.now) ≡ Some (meaning_of v)) }
    ensures usage { IfErr result
        (λ fault. fault ≡ WordsFault.Usage → verb_of (map string_bytes words.entry.now) ≡ None) }
    ensures range { IfOk result IsInRange }
{
    let matches = parse_matches(alloc, words)?;
    found_verb(&matches).ok_or(WordsFault::Usage)
}
