//! The stores of a device.

ghost use Rattle.std.specs.Prelude.{◌≡◌, ◌++◌, ◌<◌, ◌^◌, OnOk, IfOk};
ghost use Rattle.std.specs.List.{flat_map};
ghost use Rattle.vab_survey.specs.Rows.{used_of, row_of, row_over, rows_at, rows_of, listed};

use std::alloc::Global;
use vab_bytes::{Listing, Name36};
use vab_device::{Device, Part, PartImage};
use vab_model::NoMemory;
use vab_space::{Chunk, need_at};

/// What the store of a partition holds that an update or an overlay has written.
#[derive(Clone, Copy, Debug, PartialEq, Eq)]
pub struct StoreRow {
    /// The partition's slot: 0 for a, 1 for b.
    pub slot: usize,
    /// Its base name.
    pub name: Name36,
    /// How many chunks of the partition the store has something for.
    pub exceptions: u64,
    /// How many blocks of 4096 bytes the store has.
    pub blocks: u64,
    /// How many of them the exceptions use, with the header and the areas.
    pub used: u64,
}

// Of a store of so many blocks, those that so many exceptions use.
fn used_of(blocks: u64, count: u64, chunk: Chunk) -> u64
    requires { blocks < 2 ^ 60 }
    ensures { result ≡ used_of blocks count chunk }
{
    if count < blocks {
        need_at(count, chunk)
    } else {
        blocks
    }
}

// The row of a partition, where it has a store and a status.
fn row_of(slot: usize, part: &Part) -> Option<StoreRow>
    ensures { listed result ≡ row_of slot part.now }
{
    let store = match &part.store {
        None => return None,
        Some(store) => store,
    };
    match &part.image {
        PartImage::Kept => None,
        PartImage::Declared => None,
        PartImage::Written(chunk, view) => Some(StoreRow {
            slot,
            name: part.name,
            exceptions: view.count(),
            blocks: store.len(),
            used: used_of(store.len(), view.count(), *chunk),
        }),
    }
}

// Puts the rows of a slot's partitions behind others.
fn push_rows(slot: usize, parts: &[Part], rows: &mut Vec<StoreRow>) -> Result<(), NoMemory>
    ensures { OnOk result (rows.new.items ≡ rows.old.items ++ flat_map (row_of slot) parts.now) }
{
    for part in parts {
        if let Some(row) = row_of(slot, part) {
            rows.push(row)?;
        }
    }
    Ok(())
}

// Puts the rows of a slot's partitions behind others, where it has some.
fn push_slot(
    slot: usize,
    parts: &Option<Listing<Part>>,
    rows: &mut Vec<StoreRow>,
) -> Result<(), NoMemory>
    ensures { OnOk result (rows.new.items ≡ rows.old.items ++ rows_at slot parts.now) }
{
    match parts {
        None => Ok(()),
        Some(parts) => push_rows(slot, parts.as_slice(), rows),
    }
}

// Puts the row of a partition that is written over behind others, where there is one.
fn push_over(slot: usize, overlay: &Option<Part>, rows: &mut Vec<StoreRow>) -> Result<(), NoMemory>
    ensures { OnOk result (rows.new.items ≡ rows.old.items ++ row_over slot overlay.now) }
{
    let row = match overlay {
        None => None,
        Some(part) => row_of(slot, part),
    };
    match row {
        None => Ok(()),
        Some(row) => {
            rows.push(row)?;
            Ok(())
        }
    }
}

/// The stores of a device: those of both slots' images, and of the target that is planned, each in
/// the order of its table, and behind them that of an overlay.
pub fn store_rows(alloc: Global, device: &Device) -> Result<Vec<StoreRow>, NoMemory>
    requires { device.now.mark.slot < 2 }
    ensures { IfOk result (λ rows. rows.items ≡ rows_of device.now) }
{
    let mut rows = Vec::new(alloc);
    push_slot(0, &device.a, &mut rows)?;
    push_slot(1, &device.b, &mut rows)?;
    push_slot(1 - device.mark.slot, &device.plan, &mut rows)?;
    push_over(device.mark.slot, &device.overlay, &mut rows)?;
    Ok(rows)
}
