//! The physical partitions, which each slot has behind `super`.

ghost use Rattle.std.specs.Prelude.{◌≡◌, if◌then◌else◌, IfOk, Some};
ghost use Rattle.std.specs.Option.{option_copied};
ghost use Rattle.std.specs.Str.{bytes_eq};
ghost use Rattle.vab_model.specs.Physical.{held_by, holding, physical_named, is_physical};
ghost use Rattle.vab_model.specs.Physical.{at_physical, with_held, all_blank};

use crate::change::copy_bytes;
use std::alloc::Global;
use vab_bytes::{Bytes, Listing};
use vab_model::{NoMemory, Physical, State};

/// The one of this base name.
pub(crate) fn physical_named<'a>(physical: &'a [Physical], name: &[u8]) -> Option<&'a Physical>
    ensures { option_copied result ≡ physical_named name.now physical.now }
{
    for partition in physical {
        if partition.name.text() == name {
            return Some(partition);
        }
    }
    None
}

/// Whether there is one of this base name.
pub(crate) fn is_physical(physical: &[Physical], name: &[u8]) -> bool
    ensures { result ≡ is_physical name.now physical.now }
{
    physical_named(physical, name).is_some()
}

/// What that of a slot holds, where that counts; any slot but 0 is b.
pub(crate) fn held_by(slot: usize, partition: &Physical) -> &Option<Bytes>
    ensures { result.now ≡ held_by slot partition.now }
{
    if slot == 0 {
        &partition.a
    } else {
        &partition.b
    }
}

// ---- changes, each in memory of its own

fn copy_held(alloc: Global, held: &Option<Bytes>) -> Result<Option<Bytes>, NoMemory>
    ensures { IfOk result (λ x. x ≡ held.now) }
{
    match held {
        None => Ok(None),
        Some(bytes) => Ok(Some(copy_bytes(alloc, bytes.as_slice())?)),
    }
}

fn copy_physical(alloc: Global, partition: &Physical) -> Result<Physical, NoMemory>
    ensures { IfOk result (λ p. p ≡ partition.now) }
{
    Ok(Physical {
        name: partition.name,
        blocks: partition.blocks,
        a: copy_held(alloc, &partition.a)?,
        b: copy_held(alloc, &partition.b)?,
    })
}

// That of a slot holds these bytes, or nothing that counts; any slot but 0 is b.
fn holding(slot: usize, bytes: Option<Bytes>, partition: Physical) -> Physical
    ensures { result ≡ holding slot bytes partition }
{
    if slot == 0 {
        Physical {
            a: bytes,
            ..partition
        }
    } else {
        Physical {
            b: bytes,
            ..partition
        }
    }
}

// The same of one of this base name.
fn holding_at(
    alloc: Global,
    slot: usize,
    name: &[u8],
    bytes: &[u8],
    partition: &Physical,
) -> Result<Physical, NoMemory>
    ensures { IfOk result (λ p. p
        ≡ (if bytes_eq (partition.now).name name.now
        then holding slot (Some bytes.now) partition.now
        else partition.now)) }
{
    let copy = copy_physical(alloc, partition)?;
    if partition.name.text() == name {
        Ok(holding(slot, Some(copy_bytes(alloc, bytes)?), copy))
    } else {
        Ok(copy)
    }
}

// The one of this base name holds these bytes.
fn at_physical(
    alloc: Global,
    slot: usize,
    name: &[u8],
    bytes: &[u8],
    physical: &[Physical],
) -> Result<Listing<Physical>, NoMemory>
    ensures { IfOk result
        (λ x. x ≡ at_physical name.now (holding slot (Some bytes.now)) physical.now) }
{
    let mut copies = Vec::new(alloc);
    for partition in physical {
        copies.push(holding_at(alloc, slot, name, bytes, partition)?)?;
    }
    Ok(Listing::from_vec(copies))
}

/// The state in which that of a slot and of this base name holds these bytes.
pub(crate) fn with_held(
    alloc: Global,
    state: &State,
    slot: usize,
    name: &[u8],
    bytes: &[u8],
) -> Result<State, NoMemory>
    ensures { IfOk result (λ s. s ≡ with_held state.now slot name.now bytes.now) }
{
    let physical = at_physical(alloc, slot, name, bytes, state.physical.as_slice())?;
    Ok(State {
        physical,
        ..state.copy(alloc)?
    })
}

/// Those of a slot hold nothing that counts any more.
pub(crate) fn all_blank(
    alloc: Global,
    slot: usize,
    physical: &[Physical],
) -> Result<Listing<Physical>, NoMemory>
    ensures { IfOk result (λ x. x ≡ all_blank slot physical.now) }
{
    let mut copies = Vec::new(alloc);
    for partition in physical {
        copies.push(holding(slot, None, copy_physical(alloc, partition)?))?;
    }
    Ok(Listing::from_vec(copies))
}
