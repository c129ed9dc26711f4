//! Exceptions sorted by their old chunks.

ghost use Rattle.std.specs.Prelude.{◌≡◌, ℕ, ◌+◌, ◌-◌, ◌*◌, ◌^◌, ◌<◌, ◌≤◌, length, IfOk};
ghost use Rattle.std.specs.Prelude.{MatchOption, IsTrue, ◌↔◌};
ghost use Rattle.vab_store.specs.Index.{place_at, Ascends, HasPlace, HoldsPlace, LacksKey, key_of};
ghost use Rattle.vab_store.specs.Index.{IsSortedBy, IsSooner, TellsTie, TellsRepeat, earlier_of};
ghost use Rattle.vab_store.specs.Index.{IsRank};

use crate::Steps;
use std::alloc::Global;
use std::cmp::Ordering;
use std::sync::ledger::Ledger;
use vab_disk::NoMemory;
use vab_exceptions::Exception;

/// What exceptions are sorted by.
#[derive(Clone, Copy, Debug, PartialEq, Eq)]
pub(crate) enum Key {
    Old,
    New,
}

/// One of the exceptions: a chunk of it, and its place in the store's list.
#[derive(Clone, Copy, Debug, PartialEq, Eq, PartialOrd, Ord)]
pub(crate) struct Place {
    pub(crate) key: u64,
    pub(crate) at: u64,
}

/// The place of the exception with this key.
pub(crate) fn place_of<L: Ledger>(index: &[Place], key: u64, steps: &mut Steps<L>) -> Option<u64>
    requires { Ascends index.now }
    ensures found { MatchOption result (LacksKey index.now key) (HasPlace index.now key) }
    ensures cost { 2 ^ (steps.new - steps.old) ≤ 2 * length index.now + 1 }
    ensures grows { steps.old ≤ steps.new }
{
    let mut low = 0;
    let mut high = index.len();
    while low < high {
        let middle = low + (high - low) / 2;
        let place = index[middle];
        match steps.compare(place.key, key) {
            Ordering::Less => low = middle + 1,
            Ordering::Greater => high = middle,
            Ordering::Equal => return Some(place.at),
        }
    }
    None
}

/// How many keys are below this one.
pub(crate) fn rank_of(index: &[Place], key: u64) -> usize
    requires { Ascends index.now }
    ensures { IsRank index.now key result }
{
    index.partition_point(|place| place.key < key)
}

/// Where the index has this place of the list. The last of the index is looked at first.
pub(crate) fn index_of(index: &[Place], at: u64) -> usize
    requires { HoldsPlace index.now at }
    ensures within { result < length index.now }
    ensures here { (place_at index.now result).at ≡ at }
{
    let mut i = index.len();
    while i > 0 {
        i -= 1;
        if index[i].at == at {
            return i;
        }
    }
    unreachable!()
}

fn key_of(key: Key, exception: &Exception) -> u64
    ensures { result ≡ key_of key exception.now }
{
    match key {
        Key::Old => exception.old_chunk,
        Key::New => exception.new_chunk,
    }
}

/// The places of these exceptions, sorted by a key.
pub(crate) fn sorted_by(
    alloc: Global,
    items: &[Exception],
    key: Key,
) -> Result<Vec<Place>, NoMemory>
    ensures { IfOk result (λ v. IsSortedBy key items.now v.items) }
{
    let mut places = Vec::with_capacity(alloc, items.len())?;
    for (i, exception) in items.iter().enumerate() {
        places.push(Place {
            key: key_of(key, exception),
            at: i as u64,
        })?;
    }
    places.sort_unstable();
    Ok(places)
}

fn is_sooner(at: u64, first: Option<(u64, u64)>) -> bool
    ensures { IsTrue result ↔ IsSooner at first }
{
    match first {
        None => true,
        Some((_, second)) => at < second,
    }
}

/// Of the places that share their key with the one before them, the first in the list, behind the
/// other.
pub(crate) fn first_tie(places: &[Place]) -> Option<(u64, u64)>
    ensures { TellsTie places.now (length places.now) result }
{
    let mut first = None;
    for i in 1..places.len() {
        let before = places[i - 1];
        let place = places[i];
        if before.key == place.key && is_sooner(place.at, first) {
            first = Some((before.at, place.at));
        }
    }
    first
}

/// The first exception that shares this key with an earlier one, behind that one.
pub(crate) fn repeat_by(
    alloc: Global,
    items: &[Exception],
    key: Key,
) -> Result<Option<(u64, u64)>, NoMemory>
    ensures { IfOk result (TellsRepeat key items.now) }
{
    let places = sorted_by(alloc, items, key)?;
    Ok(first_tie(&places))
}

/// Of two repeats the one that comes first in the list.
pub(crate) fn earlier(a: Option<(u64, u64)>, b: Option<(u64, u64)>) -> Option<(u64, u64)>
    ensures { result ≡ earlier_of a b }
{
    match (a, b) {
        (None, other) => other,
        (Some(only), None) => Some(only),
        (Some((j, k)), Some((j2, k2))) => {
            if k2 < k || (k2 == k && j2 < j) {
                Some((j2, k2))
            } else {
                Some((j, k))
            }
        }
    }
}
