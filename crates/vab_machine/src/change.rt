//! Changes of a plan, each in memory of its own.

ghost use Rattle.std.specs.Prelude.{◌≡◌, ◌<◌, ◌^◌, ◌==◌, if◌then◌else◌, IfOk, All, map};
ghost use Rattle.std.specs.Prelude.{◌∷◌, ◌++◌, []};
ghost use Rattle.std.specs.Str.{bytes_eq};
ghost use Rattle.vab_space.specs.Space.{need_of, blocks_of};
ghost use Rattle.vab_model.specs.Plans.{kept_entry, created_entry, resized_entry, stored_entry};
ghost use Rattle.vab_model.specs.Plans.{written_entry, at_entry, without_entry, with_entries};
ghost use Rattle.vab_model.specs.Plans.{begun_plan};
ghost use Rattle.vab_machine.specs.Changes.{change_of};
ghost use Rattle.vab_machine.specs.Small.{IsSmallEntry};

use crate::count::blocks_in;
use crate::parts::{first_group, twins_of};
use std::alloc::Global;
use vab_bytes::{Bytes, Listing, Name36};
use vab_model::{GroupLimit, Image, NoMemory, Plan, PlanEntry, PlanImage};
use vab_space::{blocks, need};

/// What is made of an entry.
#[derive(Clone, Copy)]
pub(crate) enum Change<'a> {
    /// So many blocks.
    Resize(u64),
    /// A store of so many bytes.
    Store(u64),
    /// These bytes, and so many exceptions in its store.
    Write(&'a [u8], u64),
}

// ---- entries

/// The same bytes.
pub(crate) fn copy_bytes(alloc: Global, bytes: &[u8]) -> Result<Bytes, NoMemory>
    ensures { IfOk result (λ x. x ≡ bytes.now) }
{
    Ok(Bytes::from_vec(Vec::from_slice(alloc, bytes)?))
}

fn copy_image(alloc: Global, image: &PlanImage) -> Result<PlanImage, NoMemory>
    ensures { IfOk result (λ x. x ≡ image.now) }
{
    match image {
        PlanImage::Kept => Ok(PlanImage::Kept),
        PlanImage::Declared => Ok(PlanImage::Declared),
        PlanImage::Written(bytes, exceptions) => {
            let bytes = copy_bytes(alloc, bytes.as_slice())?;
            Ok(PlanImage::Written(bytes, *exceptions))
        }
    }
}

fn copy_entry(alloc: Global, entry: &PlanEntry) -> Result<PlanEntry, NoMemory>
    ensures { IfOk result (λ x. x ≡ entry.now) }
{
    Ok(PlanEntry {
        name: entry.name,
        group: entry.group,
        blocks: entry.blocks,
        store: entry.store,
        image: copy_image(alloc, &entry.image)?,
    })
}

// An image of the source that is kept.
fn kept_entry(image: &Image) -> PlanEntry
    ensures { result ≡ kept_entry image.now }
{
    PlanEntry {
        name: image.name,
        group: image.group,
        blocks: blocks_in(image.bytes.as_slice()),
        store: None,
        image: PlanImage::Kept,
    }
}

// A partition of so many bytes that is declared, in the first of the groups.
fn created_entry(groups: &Listing<GroupLimit>, name: Name36, size: u64) -> PlanEntry
    ensures { result ≡ created_entry groups.now name size }
{
    PlanEntry {
        name,
        group: first_group(groups),
        blocks: blocks(size),
        store: None,
        image: PlanImage::Declared,
    }
}

// Another number of blocks; the same changes nothing.
fn resized(alloc: Global, entry: &PlanEntry, blocks: u64) -> Result<PlanEntry, NoMemory>
    ensures { IfOk result (λ e. e ≡ resized_entry blocks entry.now) }
{
    if entry.blocks == blocks {
        return copy_entry(alloc, entry);
    }
    Ok(PlanEntry {
        name: entry.name,
        group: entry.group,
        blocks,
        store: entry.store,
        image: PlanImage::Declared,
    })
}

/// Blocks of a store of so many bytes, over so many blocks.
pub(crate) fn store_size(planned: u64, size: u64) -> u64
    requires { planned < 2 ^ 63 }
    ensures { result ≡ (if size == 0 then need_of planned else blocks_of size) }
{
    if size == 0 {
        need(planned)
    } else {
        blocks(size)
    }
}

// A store of so many bytes.
fn stored(entry: &PlanEntry, size: u64) -> PlanEntry
    requires { (entry.now).blocks < 2 ^ 63 }
    ensures { result ≡ stored_entry size entry.now }
{
    PlanEntry {
        name: entry.name,
        group: entry.group,
        blocks: entry.blocks,
        store: Some(store_size(entry.blocks, size)),
        image: PlanImage::Declared,
    }
}

// These bytes.
fn written(
    alloc: Global,
    entry: &PlanEntry,
    bytes: &[u8],
    exceptions: u64,
) -> Result<PlanEntry, NoMemory>
    ensures { IfOk result (λ e. e ≡ written_entry bytes.now exceptions entry.now) }
{
    let bytes = copy_bytes(alloc, bytes)?;
    Ok(PlanEntry {
        name: entry.name,
        group: entry.group,
        blocks: entry.blocks,
        store: entry.store,
        image: PlanImage::Written(bytes, exceptions),
    })
}

fn changed(alloc: Global, entry: &PlanEntry, change: &Change) -> Result<PlanEntry, NoMemory>
    requires { IsSmallEntry entry.now }
    ensures { IfOk result (λ e. e ≡ change_of change.now entry.now) }
{
    match *change {
        Change::Resize(blocks) => resized(alloc, entry, blocks),
        Change::Store(size) => Ok(stored(entry, size)),
        Change::Write(bytes, exceptions) => written(alloc, entry, bytes, exceptions),
    }
}

// The same of an entry of this base name.
fn changed_at(
    alloc: Global,
    entry: &PlanEntry,
    name: &[u8],
    change: &Change,
) -> Result<PlanEntry, NoMemory>
    requires { IsSmallEntry entry.now }
    ensures { IfOk result (λ e. e
        ≡ (if bytes_eq (entry.now).name name.now then change_of change.now entry.now
        else entry.now)) }
{
    if entry.name.text() == name {
        changed(alloc, entry, change)
    } else {
        copy_entry(alloc, entry)
    }
}

// ---- plans

fn copy_plan(alloc: Global, plan: &[PlanEntry]) -> Result<Vec<PlanEntry>, NoMemory>
    ensures { IfOk result (λ x. x.items ≡ plan.now) }
{
    let mut copies = Vec::new(alloc);
    for entry in plan {
        copies.push(copy_entry(alloc, entry)?)?;
    }
    Ok(copies)
}

// Each of these images, kept.
fn kept_entries(alloc: Global, images: &[Image]) -> Result<Listing<PlanEntry>, NoMemory>
    ensures { IfOk result (λ x. x ≡ map kept_entry images.now) }
{
    let mut entries = Vec::new(alloc);
    for image in images {
        entries.push(kept_entry(image))?;
    }
    Ok(Listing::from_vec(entries))
}

/// The plan as an installation begins: each image of the source, kept, or nothing where the target
/// stands apart.
pub(crate) fn begun_plan(alloc: Global, apart: bool, source: &[Image]) -> Result<Plan, NoMemory>
    ensures { IfOk result (λ p. p ≡ begun_plan apart source.now) }
{
    let entries = kept_entries(alloc, twins_of(apart, source))?;
    Ok(Plan { apart, entries })
}

/// These entries in place of a plan's.
pub(crate) fn with_entries(plan: &Plan, entries: Listing<PlanEntry>) -> Plan
    ensures { result ≡ with_entries plan.now entries }
{
    Plan {
        apart: plan.apart,
        entries,
    }
}

/// A partition more.
pub(crate) fn with_created(
    alloc: Global,
    plan: &[PlanEntry],
    groups: &Listing<GroupLimit>,
    name: Name36,
    size: u64,
) -> Result<Listing<PlanEntry>, NoMemory>
    ensures { IfOk result (λ x. x ≡ plan.now ++ created_entry groups.now name size ∷ []) }
{
    let mut copies = copy_plan(alloc, plan)?;
    copies.push(created_entry(groups, name, size))?;
    Ok(Listing::from_vec(copies))
}

/// The entry of this base name, changed.
pub(crate) fn at_entry(
    alloc: Global,
    plan: &[PlanEntry],
    name: &[u8],
    change: &Change,
) -> Result<Listing<PlanEntry>, NoMemory>
    requires { All IsSmallEntry plan.now }
    ensures { IfOk result (λ x. x ≡ at_entry name.now (change_of change.now) plan.now) }
{
    let mut copies = Vec::new(alloc);
    for entry in plan {
        copies.push(changed_at(alloc, entry, name, change)?)?;
    }
    Ok(Listing::from_vec(copies))
}

/// The plan without the entry of this base name.
pub(crate) fn without_entry(
    alloc: Global,
    plan: &[PlanEntry],
    name: &[u8],
) -> Result<Listing<PlanEntry>, NoMemory>
    ensures { IfOk result (λ x. x ≡ without_entry name.now plan.now) }
{
    let mut copies = Vec::new(alloc);
    for entry in plan {
        if entry.name.text() != name {
            copies.push(copy_entry(alloc, entry)?)?;
        }
    }
    Ok(Listing::from_vec(copies))
}
