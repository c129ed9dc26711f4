//! Arguments of packets.
ghost use Rattle.std.specs.Prelude.{◌≡◌, ◌≤◌, ◌<◌, ◌^◌, MatchResult, Ok, Err, option_map, IfOk};
ghost use Rattle.std.specs.List.{list_any};
ghost use Rattle.vab_fbproto.specs.Requests.{is_delimiter, is_name, no_argument, name_argument};
ghost use Rattle.vab_fbproto.specs.Requests.{slot_argument, length_argument, count_argument};
ghost use Rattle.vab_fbproto.specs.Requests.{number_argument};
ghost use Rattle.vab_fbproto.specs.Requests.{sized_name, colon_argument, blank_argument};
ghost use Rattle.vab_fbproto.specs.Requests.{chunk_of, chunked_name, chunk_argument};

use crate::number::{decimal_number, number_of, short_hexadecimal};
use crate::request::BadCommand;
use crate::word::{split_at_blank, split_at_colon};
use vab_space::Chunk;

// Whether one of the bytes is a colon or a blank.
fn has_delimiter(name: &[u8]) -> bool
    ensures { result ≡ list_any is_delimiter name.now }
{
    name.iter().any(|b| *b == b':' || *b == b' ' || *b == b'\t')
}

// Whether these are one or more bytes that are neither a colon nor a blank.
#[tactic(auto, unfolding(crate::specs::Requests::is_name))]
fn is_name(name: &[u8]) -> bool
    ensures { result ≡ is_name name.now }
{
    !name.is_empty() && !has_delimiter(name)
}

/// No argument.
pub(crate) fn no_argument(rest: Option<&[u8]>) -> Result<(), BadCommand>
    ensures { let text = option_map (λ r. r.now) rest.entry in
        MatchResult result
        (λ x. no_argument text ≡ Ok tt)
        (λ e. no_argument text ≡ Err e) }
{
    match rest {
        None => Ok(()),
        Some(_) => Err(BadCommand::BadArgument),
    }
}

/// A name.
#[tactic(auto, unfolding(crate::specs::Requests::name_argument))]
pub(crate) fn name_argument(rest: Option<&[u8]>) -> Result<&[u8], BadCommand>
    ensures { let text = option_map (λ r. r.now) rest.entry in
        MatchResult result
        (λ name. name_argument text ≡ Ok name.now)
        (λ e. name_argument text ≡ Err e) }
{
    match rest {
        Some(name) if is_name(name) => Ok(name),
        _ => Err(BadCommand::BadArgument),
    }
}

/// A slot.
#[tactic(auto, unfolding(crate::specs::Requests::slot_argument))]
pub(crate) fn slot_argument(rest: Option<&[u8]>) -> Result<usize, BadCommand>
    ensures value { let text = option_map (λ r. r.now) rest.entry in
        MatchResult result
        (λ slot. slot_argument text ≡ Ok slot)
        (λ e. slot_argument text ≡ Err e) }
    ensures small { IfOk result (λ slot. slot < 2) }
{
    let slot = match rest {
        Some(slot) => slot,
        None => return Err(BadCommand::BadArgument),
    };
    if slot == b"a".as_slice() || slot == b"_a".as_slice() {
        Ok(0)
    } else if slot == b"b".as_slice() || slot == b"_b".as_slice() {
        Ok(1)
    } else {
        Err(BadCommand::BadArgument)
    }
}

/// The length of a download.
#[tactic(auto, unfolding(crate::specs::Requests::length_argument))]
pub(crate) fn length_argument(rest: Option<&[u8]>) -> Result<u32, BadCommand>
    ensures { let text = option_map (λ r. r.now) rest.entry in
        MatchResult result
        (λ size. length_argument text ≡ Ok size)
        (λ e. length_argument text ≡ Err e) }
{
    match rest {
        Some(digits) => match short_hexadecimal(digits) {
            Some(size) => Ok(size),
            None => Err(BadCommand::BadArgument),
        },
        None => Err(BadCommand::BadArgument),
    }
}

/// A decimal number from 1 to 2^32 - 1.
#[tactic(auto, unfolding(crate::specs::Requests::count_argument))]
pub(crate) fn count_argument(rest: Option<&[u8]>) -> Result<u64, BadCommand>
    ensures { let text = option_map (λ r. r.now) rest.entry in
        MatchResult result
        (λ count. count_argument text ≡ Ok count)
        (λ e. count_argument text ≡ Err e) }
{
    match rest {
        Some(digits) => match decimal_number(digits) {
            Some(count) if count > 0 && count < 1 << 32 => Ok(count),
            _ => Err(BadCommand::BadArgument),
        },
        None => Err(BadCommand::BadArgument),
    }
}

/// A number.
#[tactic(auto, unfolding(crate::specs::Requests::number_argument))]
pub(crate) fn number_argument(rest: Option<&[u8]>) -> Result<u64, BadCommand>
    ensures { let text = option_map (λ r. r.now) rest.entry in
        MatchResult result
        (λ n. number_argument text ≡ Ok n)
        (λ e. number_argument text ≡ Err e) }
{
    match rest {
        Some(number) => match number_of(number) {
            Some(n) => Ok(n),
            None => Err(BadCommand::BadArgument),
        },
        None => Err(BadCommand::BadArgument),
    }
}

// A name, and the number behind it.
#[tactic(auto, unfolding(crate::specs::Requests::sized_name))]
fn sized_name<'a>(name: &'a [u8], number: Option<&[u8]>) -> Result<(&'a [u8], u64), BadCommand>
    ensures { let text = option_map (λ r. r.now) number.entry in
        MatchResult result
        (λ p. sized_name name.now text ≡ Ok (p.0.now, p.1))
        (λ e. sized_name name.now text ≡ Err e) }
{
    let number = match number {
        Some(number) => number,
        None => return Err(BadCommand::BadArgument),
    };
    if !is_name(name) {
        return Err(BadCommand::BadArgument);
    }
    match number_of(number) {
        Some(size) => Ok((name, size)),
        None => Err(BadCommand::BadArgument),
    }
}

/// A name and a number, with a colon between them.
#[tactic(auto, unfolding(crate::specs::Requests::colon_argument))]
pub(crate) fn colon_argument(rest: Option<&[u8]>) -> Result<(&[u8], u64), BadCommand>
    ensures { let text = option_map (λ r. r.now) rest.entry in
        MatchResult result
        (λ p. colon_argument text ≡ Ok (p.0.now, p.1))
        (λ e. colon_argument text ≡ Err e) }
{
    match rest {
        Some(text) => {
            let (name, number) = split_at_colon(text);
            sized_name(name, number)
        }
        None => Err(BadCommand::BadArgument),
    }
}

/// A name and a number, with a blank between them.
#[tactic(auto, unfolding(crate::specs::Requests::blank_argument))]
pub(crate) fn blank_argument(rest: Option<&[u8]>) -> Result<(&[u8], u64), BadCommand>
    ensures { let text = option_map (λ r. r.now) rest.entry in
        MatchResult result
        (λ p. blank_argument text ≡ Ok (p.0.now, p.1))
        (λ e. blank_argument text ≡ Err e) }
{
    match rest {
        Some(text) => {
            let (name, number) = split_at_blank(text);
            sized_name(name, number)
        }
        None => Err(BadCommand::BadArgument),
    }
}

// The size of a chunk, by its sectors of 512 bytes.
#[tactic(auto, unfolding(crate::specs::Requests::chunk_of))]
fn chunk_of(sectors: &[u8]) -> Option<Chunk>
    ensures { result ≡ chunk_of sectors.now }
{
    if sectors == b"8".as_slice() {
        Some(Chunk::One)
    } else if sectors == b"16".as_slice() {
        Some(Chunk::Two)
    } else if sectors == b"32".as_slice() {
        Some(Chunk::Four)
    } else {
        None
    }
}

// A name, and the size of a chunk behind it.
#[tactic(auto, unfolding(crate::specs::Requests::chunked_name))]
fn chunked_name<'a>(name: &'a [u8], sectors: Option<&[u8]>) -> Result<(&'a [u8], Chunk), BadCommand>
    ensures { let text = option_map (λ r. r.now) sectors.entry in
        MatchResult result
        (λ p. chunked_name name.now text ≡ Ok (p.0.now, p.1))
        (λ e. chunked_name name.now text ≡ Err e) }
{
    let sectors = match sectors {
        Some(sectors) => sectors,
        None => return Err(BadCommand::BadArgument),
    };
    if !is_name(name) {
        return Err(BadCommand::BadArgument);
    }
    match chunk_of(sectors) {
        Some(chunk) => Ok((name, chunk)),
        None => Err(BadCommand::BadArgument),
    }
}

/// A name and the size of a chunk, with a blank between them.
#[tactic(auto, unfolding(crate::specs::Requests::chunk_argument))]
pub(crate) fn chunk_argument(rest: Option<&[u8]>) -> Result<(&[u8], Chunk), BadCommand>
    ensures { let text = option_map (λ r. r.now) rest.entry in
        MatchResult result
        (λ p. chunk_argument text ≡ Ok (p.0.now, p.1))
        (λ e. chunk_argument text ≡ Err e) }
{
    match rest {
        Some(text) => {
            let (name, sectors) = split_at_blank(text);
            chunked_name(name, sectors)
        }
        None => Err(BadCommand::BadArgument),
    }
}
