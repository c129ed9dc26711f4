//! All that is judged and allocated before the first write of an overlay that begins.

ghost use Rattle.std.specs.Prelude.{◌≡◌, ◌≢◌, ℕ, ◌+◌, ◌≤◌, ◌<◌, ◌^◌, List, length, sum_by, get_or};
ghost use Rattle.std.specs.Prelude.{Option, Some, None, option_map, IfOk, IfErr, IfSome, IfNone};
ghost use Rattle.vab_names.specs.Names.{base_of, store_of};
ghost use Rattle.vab_model.specs.declared.command.Refusal.TheVariants as refusals;
ghost use Rattle.vab_model.specs.Overlay.{is_store_size, store_of_size};
ghost use Rattle.vab_layout.specs.declared.layout.Part.{Part as PartOfLayout};
ghost use Rattle.vab_layout.specs.Layout.{layout_of};
ghost use Rattle.vab_device.specs.Kept.{IsDevice, part_named, parts_at, parts_of, sectors_of};
ghost use Rattle.vab_device.specs.Kept.{table_of_slot};
ghost use Rattle.vab_device.specs.Stores.{first_named};
ghost use Rattle.vab_overlaying.specs.Prepared.{is_free, Refuses, IsAsked, IsMeasured, IsStored};
ghost use Rattle.vab_overlaying.specs.Prepared.{HasStore, IsSpelled, IsPrepared};

use std::alloc::Global;
use vab_builder::{EditFault, blocks_beside, has_own, with_overlay};
use vab_bytes::{Bytes, Listing, Name36};
use vab_device::{Device, Part};
use vab_linear::Map;
use vab_model::Refusal;
use vab_names::{base_of, is_full, store_of};
use vab_plan::{map, named, parts};
use vab_space::{blocks, need};
use vab_tables::{Table, encode_table};

/// Bytes that a store may have at most.
const MOST: u64 = 1 << 40;

/// The slot's table with the store, its text, and the slot's partitions; the one that is to be
/// overlaid, and where its store stands.
#[derive(Drop)]
pub struct Prepared {
    pub table: Table,
    pub text: Bytes,
    pub parts: Listing<Part>,
    pub part: Part,
    pub store: Map,
}

// Whether a store may have so many bytes; 0 are as many as its partition may need.
fn is_store_size(size: u64) -> bool
    ensures { result ≡ is_store_size size }
{
    size <= MOST && (size == 0 || 1 < blocks(size))
}

// The blocks of a store of so many bytes over a partition of so many blocks.
fn store_size(planned: u64, size: u64) -> u64
    requires { planned < 2 ^ 63 }
    ensures { result ≡ store_of_size planned size }
{
    if size == 0 {
        need(planned)
    } else {
        blocks(size)
    }
}

// Whether there is no update and no overlay.
fn is_free(device: &Device) -> bool
    ensures { result ≡ is_free device.now.mark }
{
    !device.mark.overlaid && device.mark.phase.is_idle()
}

// The name, where there is no update and no overlay, and the name and the size are those of one.
fn asked(device: &Device, name: &[u8], size: u64) -> Result<Name36, Refusal>
    requires kept { (n : ℕ) × IsDevice device.now n }
    ensures name { IfOk result (λ n. n ≡ name.now) }
    ensures asked { IfOk result (λ n. IsAsked device.now name.now size) }
    ensures refused { IfErr result (Refuses device.now name.now size) }
{
    if !is_free(device) {
        return Err(Refusal::NotIdle);
    }
    match Name36::parse(name) {
        Err(_) => Err(Refusal::BadName),
        Ok(text) => {
            if !is_full(name, device.mark.slot) {
                Err(Refusal::BadName)
            } else if !is_store_size(size) {
                Err(Refusal::BadSize)
            } else {
                Ok(text)
            }
        }
    }
}

// The place of the first partition of this base name.
fn place_of(parts: &[Part], base: &[u8]) -> Option<usize>
    ensures none { IfNone result (part_named base.now parts.now ≡ None) }
    ensures within { IfSome result (λ i. i < length parts.now) }
    ensures some { IfSome result (λ i. (p : Part)
        → part_named base.now parts.now ≡ Some (get_or parts.now i p)) }
{
    for i in 0..parts.len() {
        if parts[i].name.text() == base {
            return Some(i);
        }
    }
    None
}

// The blocks of these partitions.
fn blocks_in(parts: &[Part]) -> u64
    requires { sum_by (λ p. length p.map) parts.now < 2 ^ 63 }
    ensures { result ≡ sum_by (λ p. length p.map) parts.now }
{
    parts.iter().map(|part| part.map.len()).sum()
}

// How many blocks the store over the slot's partition of this name is to have.
fn measured(device: &Device, name: &Name36, size: u64) -> Result<u64, Refusal>
    requires kept { (n : ℕ) × IsDevice device.now n }
    requires asked { IsAsked device.now name.now size }
    ensures measured { IfOk result (λ n. IsMeasured device.now name.now size n) }
    ensures refused { IfErr result (Refuses device.now name.now size) }
{
    match device.images(device.mark.slot) {
        None => unreachable!(),
        Some(parts) => {
            let parts = parts.as_slice();
            match place_of(parts, base_of(name.text())) {
                None => Err(Refusal::Unknown),
                Some(at) => {
                    let store = store_size(parts[at].map.len(), size);
                    let held = blocks_in(parts);
                    let used = held + store;
                    if used > device.cap {
                        Err(Refusal::NoRoom(used, device.cap))
                    } else {
                        Ok(store)
                    }
                }
            }
        }
    }
}

// The table of the slot of the mark.
fn table(device: &Device) -> &Table
    requires { (n : ℕ) × IsDevice device.now n }
    ensures { table_of_slot device.now device.now.mark.slot ≡ Some result.now }
{
    let table = if device.mark.slot == 0 {
        device.table_a.as_ref()
    } else {
        device.table_b.as_ref()
    };
    match table {
        Some(table) => table,
        None => unreachable!(),
    }
}

// The slot's table with a store of so many blocks over the partition of this name.
fn table_over(alloc: Global, device: &Device, name: &Name36, blocks: u64) -> Result<Table, Refusal>
    requires kept { (n : ℕ) × IsDevice device.now n }
    ensures stored { IfOk result (λ u. (t : Table)
        × (table_of_slot device.now device.now.mark.slot ≡ Some t)
        × IsStored device.now.geometry.max device.now.mark.slot t name.now blocks u) }
    ensures refused { (size : ℕ)
        → IsMeasured device.now name.now size blocks
        → IfErr result (Refuses device.now name.now size) }
{
    let table = table(device);
    let slot = device.mark.slot;
    // Of a device that is that of its disk both are known by now.
    if !has_own(table, slot, name.text()) {
        return Err(Refusal::Unknown);
    }
    let free = blocks_beside(table, slot);
    if blocks > free {
        return Err(Refusal::NoRoom(blocks, free));
    }
    match with_overlay(alloc, table, slot, name, blocks, device.geometry.max) {
        Ok(table) => Ok(table),
        Err(EditFault::TableFull(size, max)) => Err(Refusal::TableFull(size, u64::from(max))),
        Err(_) => Err(Refusal::NoMemory),
    }
}

// The slot's partition of this name.
fn part_of(alloc: Global, table: &Table, slot: usize, name: &Name36) -> Result<Part, Refusal>
    requires slot { slot < 2 }
    requires over { HasStore slot name.now table.now }
    ensures part { IfOk result
        (λ p. part_named (base_of name.now) (parts_of slot (layout_of table.now)) ≡ Some p) }
    ensures refused { IfErr result (λ r. r ≡ refusals.NoMemory) }
{
    match parts(alloc, table, slot) {
        Err(_) => Err(Refusal::NoMemory),
        Ok(parts) => {
            let mut parts = parts.into_vec();
            match place_of(parts.as_slice(), base_of(name.text())) {
                None => unreachable!(),
                Some(at) => Ok(parts.remove(at)),
            }
        }
    }
}

// Where the store of the partition of this name stands.
fn store_over(alloc: Global, table: &Table, slot: usize, name: &Name36) -> Result<Map, Refusal>
    requires slot { slot < 2 }
    requires over { HasStore slot name.now table.now }
    ensures store { IfOk result (λ m. (s : PartOfLayout)
        × (first_named (store_of name.now) (layout_of table.now).parts ≡ Some s)
        × (m ≡ sectors_of (layout_of table.now).device.first_logical_sector s.blocks)) }
    ensures refused { IfErr result (λ r. r ≡ refusals.NoMemory) }
{
    match named(table, &store_of(name)) {
        None => unreachable!(),
        Some(store) => match map(alloc, table, store) {
            Ok(map) => Ok(map),
            Err(_) => Err(Refusal::NoMemory),
        },
    }
}

// A table with its text, the slot's partitions, and the one of this name with its store.
fn spelled(alloc: Global, table: Table, slot: usize, name: &Name36) -> Result<Prepared, Refusal>
    requires slot { slot < 2 }
    requires over { HasStore slot name.now table }
    ensures spelled { IfOk result (λ x. IsSpelled slot name.now table x) }
    ensures refused { IfErr result (λ r. r ≡ refusals.NoMemory) }
{
    let text = match encode_table(alloc, &table) {
        Ok(text) => Bytes::from_vec(text),
        Err(_) => return Err(Refusal::NoMemory),
    };
    let parts = match parts(alloc, &table, slot) {
        Ok(parts) => parts,
        Err(_) => return Err(Refusal::NoMemory),
    };
    let part = part_of(alloc, &table, slot, name)?;
    let store = store_over(alloc, &table, slot, name)?;
    Ok(Prepared {
        table,
        text,
        parts,
        part,
        store,
    })
}

/// What an overlay over the slot's partition of this whole name writes, with a store of so many
/// bytes, and what is kept then; or the first refusal. `NoMemory` where memory is refused.
pub fn prepare(alloc: Global, device: &Device, name: &[u8], size: u64) -> Result<Prepared, Refusal>
    requires kept { (n : ℕ) × IsDevice device.now n }
    ensures prepared { IfOk result (λ x. IsPrepared device.now name.now size x) }
    ensures refused { IfErr result (Refuses device.now name.now size) }
{
    let name = asked(device, name, size)?;
    let blocks = measured(device, &name, size)?;
    let table = table_over(alloc, device, &name, blocks)?;
    spelled(alloc, table, device.mark.slot, &name)
}
