//! All that is decided and allocated before the first write.

ghost use Rattle.std.specs.Prelude.{◌≡◌, ◌⊎◌, ℕ, ◌<◌, ◌^◌, Some, None, IfErr, IfOk, option_map};
ghost use Rattle.vab_disk.specs.Disk.{Image};
ghost use Rattle.vab_model.specs.declared.command.Refusal.TheVariants as refusals;
ghost use Rattle.vab_model.specs.Effects.{refuses};
ghost use Rattle.vab_tables.specs.Rules.{KeepsRules};
ghost use Rattle.vab_tables.specs.Spelling.{table_size_of};
ghost use Rattle.vab_layout.specs.Layout.{layout_of};
ghost use Rattle.vab_layout.specs.Slots.{IsOwn};
ghost use Rattle.vab_super_image.specs.SuperImage.{super_image_of, IsSuperImage};
ghost use Rattle.vab_device.specs.Kept.{IsDevice, table_of_slot};
ghost use Rattle.vab_device.specs.Mounted.{phase_on, places_on};
ghost use Rattle.vab_device.specs.Updates.{is_geometry, has_device, layout_at};
ghost use Rattle.vab_wipe.specs.Prepared.{other, full, judged, refused_image, Refuses};
ghost use Rattle.vab_wipe.specs.Prepared.{AreTaken, IsEmptied, IsSpelled, IsPrepared};

use std::alloc::Global;
use vab_bytes::Listing;
use vab_device::{Device, Part};
use vab_geometry::Geometry;
use vab_model::{GroupLimit, Refusal, is_sparse};
use vab_partitions::same_device;
use vab_plan::{limits, parts};
use vab_super_image::{SuperImage, first_filled, read_super_image, wiped};
use vab_tables::{Table, encode_table, table_size};

/// The table that is left of an image of a `super`, with its text, the slot's own partitions and
/// its groups.
#[derive(Drop)]
pub struct Prepared {
    pub table: Table,
    pub text: Vec<u8>,
    pub parts: Listing<Part>,
    pub groups: Listing<GroupLimit>,
}

// The staged bytes, where there is neither an update nor an overlay.
fn take<'a>(device: &Device, staged: Option<&'a [u8]>) -> Result<&'a [u8], Refusal>
    requires kept { (size : ℕ) × IsDevice device.now size }
    ensures taken { IfOk result
        (λ b. AreTaken device.now (option_map (λ s. s.now) staged.entry) b.now) }
    ensures refused { (image : Image) → IfErr result
        (λ r. judged device.now (option_map (λ s. s.now) staged.entry) (phase_on device.now image)
        ≡ refuses r) }
{
    if device.mark.overlaid || !device.mark.phase.is_idle() {
        return Err(Refusal::NotIdle);
    }
    let bytes = match staged {
        Some(bytes) => bytes,
        None => return Err(Refusal::NothingStaged),
    };
    if is_sparse(bytes) {
        return Err(Refusal::Sparse);
    }
    Ok(bytes)
}

// The image of a `super` that these bytes are.
fn read(alloc: Global, bytes: &[u8], slot: usize) -> Result<SuperImage, Refusal>
    requires slot { slot < 2 }
    ensures exact { IfOk result (λ i. super_image_of slot bytes.now ≡ Some i) }
    ensures rules { IfOk result (IsSuperImage slot) }
    ensures refused { IfErr result (λ r. (r ≡ refusals.NoMemory)
        ⊎ ((r ≡ refusals.BadSuperImage) × (super_image_of slot bytes.now ≡ None))) }
{
    match read_super_image(alloc, bytes, slot) {
        Err(_) => Err(Refusal::NoMemory),
        Ok(None) => Err(Refusal::BadSuperImage),
        Ok(Some(image)) => Ok(image),
    }
}

// Whether both are the same.
fn is_geometry(a: &Geometry, b: &Geometry) -> bool
    ensures { result ≡ is_geometry a.now b.now }
{
    a.max == b.max && a.slots == b.slots
}

// The table of the slot of the mark.
fn table(device: &Device) -> Option<&Table>
    ensures { option_map (λ t. t.now) result ≡ table_of_slot device.now device.now.mark.slot }
{
    if device.mark.slot == 0 {
        device.table_a.as_ref()
    } else {
        device.table_b.as_ref()
    }
}

// Whether the block device of the image is that of the slot's table.
fn has_device(device: &Device, image: &SuperImage) -> bool
    requires kept { (size : ℕ) × IsDevice device.now size }
    requires rules { IsSuperImage device.now.mark.slot image.now }
    ensures { result
        ≡ has_device (layout_at (places_on device.now) device.now.mark.slot) image.now }
{
    match table(device) {
        Some(table) => same_device(table, &image.table),
        None => false,
    }
}

// Why the image is none of the device's `super`.
fn other(device: &Device, image: &SuperImage) -> Option<Refusal>
    requires kept { (size : ℕ) × IsDevice device.now size }
    requires rules { IsSuperImage device.now.mark.slot image.now }
    ensures { result ≡ other device.now image.now }
{
    if !is_geometry(&device.geometry, &image.geometry) {
        Some(Refusal::OtherGeometry)
    } else if !has_device(device, image) {
        Some(Refusal::OtherDevice)
    } else {
        None
    }
}

// Why the image isn't taken, whatever the size of its table.
fn judge(device: &Device, image: &SuperImage) -> Option<Refusal>
    requires kept { (size : ℕ) × IsDevice device.now size }
    requires rules { IsSuperImage device.now.mark.slot image.now }
    ensures { result ≡ refused_image device.now image.now }
{
    match other(device, image) {
        Some(refusal) => Some(refusal),
        None => match first_filled(&image.table) {
            Some(name) => Some(Refusal::NotEmpty(name)),
            None => None,
        },
    }
}

// The table that is left of the image, where its text is no longer than a copy may be.
fn emptied(alloc: Global, device: &Device, image: &SuperImage) -> Result<Table, Refusal>
    requires rules { IsSuperImage device.now.mark.slot image.now }
    ensures is { IfOk result (IsEmptied device.now.geometry.max device.now.mark.slot image.now) }
    ensures refused { IfErr result
        (λ r. (r ≡ refusals.NoMemory) ⊎ (full device.now image.now ≡ Some r)) }
{
    let table = match wiped(alloc, &image.table) {
        Ok(table) => table,
        Err(_) => return Err(Refusal::NoMemory),
    };
    let size = table_size(&table);
    let max = u64::from(device.geometry.max);
    if size > max {
        return Err(Refusal::TableFull(size, max));
    }
    Ok(table)
}

// A table with its text, the slot's own partitions and its groups.
fn spelled(alloc: Global, table: Table, slot: usize) -> Result<Prepared, Refusal>
    requires slot { slot < 2 }
    requires keeps { KeepsRules table }
    requires small { table_size_of table < 2 ^ 24 }
    requires own { IsOwn slot (layout_of table).parts }
    requires minor { table.minor ≡ 2 }
    ensures table { IfOk result (λ p. p.table ≡ table) }
    ensures spelled { IfOk result
        (λ p. IsSpelled slot table p.text.items p.parts p.groups) }
    ensures refused { IfErr result (λ r. r ≡ refusals.NoMemory) }
{
    let text = match encode_table(alloc, &table) {
        Ok(text) => text,
        Err(_) => return Err(Refusal::NoMemory),
    };
    let parts = match parts(alloc, &table, slot) {
        Ok(parts) => parts,
        Err(_) => return Err(Refusal::NoMemory),
    };
    match limits(alloc, &table, slot) {
        Ok(groups) => Ok(Prepared {
            table,
            text,
            parts,
            groups,
        }),
        Err(_) => Err(Refusal::NoMemory),
    }
}

/// What a wipe of the slot of a device's mark writes, and what is kept then, or the first refusal.
pub fn prepare(alloc: Global, device: &Device, staged: Option<&[u8]>) -> Result<Prepared, Refusal>
    requires kept { (size : ℕ) × IsDevice device.now size }
    ensures prepared { IfOk result
        (λ p. IsPrepared device.now (option_map (λ s. s.now) staged.entry) p.table p.text.items
        p.parts p.groups) }
    ensures refused { IfErr result
        (Refuses device.now (option_map (λ s. s.now) staged.entry)) }
{
    let bytes = take(device, staged)?;
    let image = read(alloc, bytes, device.mark.slot)?;
    if let Some(refusal) = judge(device, &image) {
        return Err(refusal);
    }
    let table = emptied(alloc, device, &image)?;
    spelled(alloc, table, device.mark.slot)
}
