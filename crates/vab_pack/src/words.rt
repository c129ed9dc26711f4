//! What words ask for.

ghost use Rattle.std.specs.Prelude.{◌≡◌, ◌⊎◌, List, map, option_map, Some, IfSome, IfOk, IfErr};
ghost use Rattle.std.specs.Prelude.{Ok, Err, string_bytes};
ghost use Rattle.vab_pack.specs.Asked.{Ask, Asked, Parts, HasParts};
ghost use Rattle.vab_pack.specs.declared.fault.WordFault.{WordFault as Fault};
ghost use Rattle.vab_pack.specs.Faults.{IsFaultOf};
ghost use Rattle.vab_pack.specs.Images.{NamesOfSet};
ghost use Rattle.vab_pack.specs.Words.{Gives, parts_of, first_named, new_name, asked_by, asked_of};
ghost use Rattle.vab_pack.specs.Words.{asked_with};

use crate::front::{Front, split_front};
use crate::{Entry, WordFault};
use std::alloc::Global;
use vab_bytes::Name36;
use vab_names::{MAX_PARTITIONS, parse_base};

/// The most words, and so the most images of a set.
const MAX_WORDS: usize = MAX_PARTITIONS;

// What stands before the first `=` of a word and what stands behind it.
#[tactic(auto, unfolding(crate::specs::Words::parts_of))]
fn split_word(word: &str) -> Option<(&str, &str)>
    ensures { option_map (λ x. record { front = x.0.now; path = x.1.now }) result
        ≡ parts_of word.now }
{
    let (front, path) = word.split_once('=')?;
    if path.is_empty() {
        return None;
    }
    Some((front, path))
}

/// What stands before the first `=` of a word and what stands behind it; `None` where there is no
/// `=`, or nothing behind it. What stands before it may be no name.
pub fn parse_word(word: &str) -> Option<(&str, &str)>
    // What comes is the word, taken apart.
    ensures found { IfSome result
        (λ x. HasParts word.now (record { front = x.0.now; path = x.1.now })) }
    // What has parts is taken apart.
    ensures only { (p : Parts)
        → HasParts word.now p
        → option_map (λ x. record { front = x.0.now; path = x.1.now }) result ≡ Some p }
    // Both, by a definition that computes.
    ensures exact { option_map (λ x. record { front = x.0.now; path = x.1.now }) result
        ≡ parts_of word.now }
{
    split_word(word)
}

// The first entry of this name.
#[tactic(auto, unfolding(crate::specs::Words::first_named))]
fn first_named(entries: &[Entry<'_>], name: &Name36) -> Option<usize>
    ensures { result ≡ first_named entries.now name.now }
{
    entries.iter().position(|entry| *entry.name() == *name)
}

// The base name that a text is, where no entry has it.
#[tactic(auto, unfolding(crate::specs::Words::new_name))]
fn new_name(entries: &[Entry<'_>], text: &str) -> Result<Name36, WordFault>
    ensures { Gives (λ n. n) result (new_name entries.now text.now) }
{
    let Some(name) = parse_base(text.as_bytes()) else {
        return Err(WordFault::BadName(entries.len()));
    };
    match first_named(entries, &name) {
        Some(first) => Err(WordFault::Repeated(first, entries.len())),
        None => Ok(name),
    }
}

// The entry of a word with these texts, behind these entries.
#[tactic(auto, unfolding(crate::specs::Words::asked_with))]
fn entry_with<'a>(
    entries: &[Entry<'_>],
    front: &Front<'_>,
    path: &'a str,
) -> Result<Entry<'a>, WordFault>
    ensures { Gives (λ e. e) result (asked_with entries.now front.now path.entry.now) }
{
    let name = new_name(entries, front.name())?;
    let Some(size) = front.size() else {
        return Err(WordFault::BadSize(entries.len()));
    };
    let Some(store) = front.store() else {
        return Err(WordFault::BadStore(entries.len()));
    };
    Ok(Entry::new(name, size, store, path))
}

// The entry of the word behind those of these entries.
#[tactic(auto, unfolding(crate::specs::Words::asked_by))]
fn parse_entry<'a>(entries: &[Entry<'_>], word: &'a str) -> Result<Entry<'a>, WordFault>
    ensures { Gives (λ e. e) result (asked_by entries.now word.entry.now) }
{
    let Some((front, path)) = parse_word(word) else {
        return Err(WordFault::BadWord(entries.len()));
    };
    entry_with(entries, &split_front(front), path)
}

// The entries of the words, one after the other.
#[tactic(auto, unfolding(crate::specs::Words::asked_of))]
fn parse_all<'a>(alloc: Global, words: &'a [String]) -> Result<Vec<Entry<'a>>, WordFault>
    ensures { Gives (λ v. v.items) result (asked_of (map string_bytes words.entry.now)) }
{
    if words.len() > MAX_WORDS {
        return Err(WordFault::TooMany(words.len()));
    }
    let mut entries = Vec::new(alloc);
    for word in words {
        let entry = parse_entry(&entries, word.as_str())?;
        entries.push(entry)?;
    }
    Ok(entries)
}

/// The images that the words ask for, in their order. A word is `NAME=FILE`, `NAME:SIZE=FILE`,
/// `NAME:SIZE:STORE=FILE` or `NAME::STORE=FILE` up to its first `=`; a size and a store are 1 to 20
/// decimal digits, with K, M or G behind them for 2^10, 2^20 or 2^30 times as many. A fault counts
/// words from 0. No words ask for no image.
pub fn parse_words<'a>(alloc: Global, words: &'a [String]) -> Result<Vec<Entry<'a>>, WordFault>
    // What comes is what the words spell.
    ensures found { IfOk result (λ v. Ask (map string_bytes words.entry.now) v.items) }
    // What the words spell comes, unless memory is refused.
    ensures only { (asked : List Asked)
        → Ask (map string_bytes words.entry.now) asked
        → Gives (λ v. v.items) result (Ok asked) }
    // A fault is what is wrong with the words.
    ensures fault { IfErr result
        (λ e. (e ≡ WordFault.NoMemory) ⊎ IsFaultOf (map string_bytes words.entry.now) e) }
    // What is wrong with the words comes as a fault, unless memory is refused.
    ensures faulty { (e : Fault)
        → IsFaultOf (map string_bytes words.entry.now) e
        → Gives (λ v. v.items) result (Err e) }
    // All of it, by a definition that computes.
    ensures exact { Gives (λ v. v.items) result (asked_of (map string_bytes words.entry.now)) }
    // Images of these names are a set.
    ensures set { IfOk result (λ v. NamesOfSet v.items) }
{
    parse_all(alloc, words)
}
