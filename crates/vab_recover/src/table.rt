//! Reading the tables of a device.

ghost use Rattle.std.specs.Prelude.{◌≡◌, ◌<◌, ◌≤◌, ◌^◌, length, IfOk, IfErr, Ok, Err, IsTrue};
ghost use Rattle.std.specs.Prelude.{IfSome, is_some};
ghost use Rattle.vab_disk.specs.Calls.{OnlyReads};
ghost use Rattle.vab_geometry.specs.Geometry.{IsGeometry};
ghost use Rattle.vab_tables.specs.Rules.{KeepsRules};
ghost use Rattle.vab_tables.specs.Text.{IsTableText};
ghost use Rattle.vab_tables.specs.Spelling.{table_size_of};
ghost use Rattle.vab_lpstore.specs.Loading.{slot_table};
ghost use Rattle.vab_layout.specs.Layout.{layout_of};
ghost use Rattle.vab_device.specs.Faults.{IsOfContents, IsOfDisk};
ghost use Rattle.vab_device.specs.Kept.{lies_in, copies_end, super_bytes};
ghost use Rattle.vab_layout.specs.Slots.{other_slot};
ghost use Rattle.vab_device.specs.Reading.{table_at, tables_in};
ghost use Rattle.vab_device.specs.Kept.{reads_both};
ghost use Rattle.vab_device.specs.Phases.{phase_at};
ghost use Rattle.vab_recover.specs.Opened.{IsTableThere, AreLoaded, AreTablesThere};
ghost use Rattle.vab_recover.specs.Repairs.{IsLoadedAt};
ghost use Rattle.vab_recover.specs.Opened.{target_slots, target_tables, tables_of, with_tables};
ghost use Rattle.vab_tidy.specs.Counts.{CountsFaults};

use crate::read::{copies_end, reads_both, super_bytes};
use std::alloc::Global;
use vab_device::{Device, StartFault};
use vab_disk::Disk;
use vab_geometry::Geometry;
use vab_lpstore::{LoadFault, Loaded, load_table};
use vab_marks::UpdateMark;
use vab_tables::Table;

/// The tables that are read of a device.
#[derive(Drop)]
pub struct Tables {
    /// That of the mark's slot.
    pub source: Loaded,
    /// That of the other slot, while an update is installed or ready.
    pub target: Option<Loaded>,
}

// Whether the block device lies in `super`, and its first logical sector behind the copies of the
// tables.
#[tactic(auto, unfolding(vab_layout::specs::Layout::layout_of))]
fn lies_in(table: &Table, geometry: &Geometry, super_end: u64) -> bool
    requires keeps { KeepsRules table.now }
    requires geometry { IsGeometry geometry.now }
    requires small { super_end < 2 ^ 55 }
    ensures { result ≡ lies_in super_end geometry.now (layout_of table.now).device }
{
    let device = &table.devices.as_slice()[0];
    device.size <= super_bytes(super_end)
        && copies_end(geometry).div_ceil(512) <= device.first_logical_sector
}

// The table's copies, or why there is none.
#[tactic(auto, unfolding(vab_device::specs::Reading::table_at))]
fn load<D: Disk>(
    alloc: Global,
    d: &mut D,
    super_end: u64,
    geometry: &Geometry,
    slot: usize,
) -> Result<Loaded, StartFault>
    requires rules { IsGeometry geometry.now }
    requires slot { slot < 2 }
    requires ends { super_end ≤ D.size d.old }
    requires copies_on { copies_end geometry.now ≤ super_bytes super_end }
    ensures table { D.is_modelled
        → IfOk result (λ l. slot_table geometry.now slot (D.seen d.old) ≡ Ok l.table) }
    ensures fault { D.is_modelled → IfErr result
        (λ f. IsOfContents f → table_at super_end geometry.now slot (D.seen d.old) ≡ Err f) }
    ensures loaded { D.is_modelled → IfOk result (IsLoadedAt geometry.now slot (D.seen d.old)) }
    ensures text { IfOk result (λ l. IsTableText geometry.now.max l.text l.table) }
    ensures fits { IfOk result (λ l. length l.text ≤ geometry.now.max) }
    ensures small { IfOk result (λ l. table_size_of l.table < 2 ^ 24) }
    ensures reads { OnlyReads D.Disk d.old d.new }
    ensures counts { CountsFaults D.Disk d.old d.new result }
{
    match load_table(alloc, d, geometry, slot) {
        Ok(loaded) => Ok(loaded),
        Err(LoadFault::BothBad(_, _)) => Err(StartFault::BadTable(slot)),
        Err(LoadFault::NoMemory) => Err(StartFault::NoMemory),
        Err(LoadFault::Disk(fault)) => Err(StartFault::Disk(fault)),
    }
}

/// Reads the table of a slot. `BadTable` comes exactly where neither copy is a table's text, or its
/// block device doesn't lie in `super` behind the copies.
pub fn read_table<D: Disk>(
    alloc: Global,
    d: &mut D,
    super_end: u64,
    geometry: &Geometry,
    slot: usize,
) -> Result<Loaded, StartFault>
    requires rules { IsGeometry geometry.now }
    requires slot { slot < 2 }
    requires ends { super_end ≤ D.size d.old }
    requires copies_on { copies_end geometry.now ≤ super_bytes super_end }
    ensures ok { D.is_modelled → IfOk result
        (λ l. table_at super_end geometry.now slot (D.seen d.old) ≡ Ok l.table) }
    ensures fault { D.is_modelled → IfErr result
        (λ f. IsOfContents f → table_at super_end geometry.now slot (D.seen d.old) ≡ Err f) }
    ensures loaded { D.is_modelled → IfOk result (IsLoadedAt geometry.now slot (D.seen d.old)) }
    ensures there { IfOk result (IsTableThere super_end geometry.now) }
    ensures reads { OnlyReads D.Disk d.old d.new }
    ensures counts { CountsFaults D.Disk d.old d.new result }
{
    let loaded = load(alloc, d, super_end, geometry, slot)?;
    if !lies_in(&loaded.table, geometry, super_end) {
        return Err(StartFault::BadTable(slot));
    }
    Ok(loaded)
}

// Reads the target's table, while an update is installed or ready.
fn read_target<D: Disk>(
    alloc: Global,
    d: &mut D,
    super_end: u64,
    geometry: &Geometry,
    mark: &UpdateMark,
) -> Result<Option<Loaded>, StartFault>
    requires rules { IsGeometry geometry.now }
    requires slot { mark.now.slot < 2 }
    requires ends { super_end ≤ D.size d.old }
    requires copies_on { copies_end geometry.now ≤ super_bytes super_end }
    ensures ok { D.is_modelled → IfOk result (λ t.
        tables_in super_end geometry.now (target_slots mark.now) (D.seen d.old)
        ≡ Ok (target_tables t)) }
    ensures fault { D.is_modelled → IfErr result (λ f. IsOfContents f
        → tables_in super_end geometry.now (target_slots mark.now) (D.seen d.old) ≡ Err f) }
    ensures loaded { D.is_modelled → IfOk result (λ t. IfSome t
        (IsLoadedAt geometry.now (other_slot mark.now.slot) (D.seen d.old))) }
    ensures there { IfOk result (λ t. IfSome t (IsTableThere super_end geometry.now)) }
    ensures both { IfOk result (λ t. is_some t ≡ reads_both mark.now.phase) }
    ensures reads { OnlyReads D.Disk d.old d.new }
    ensures counts { CountsFaults D.Disk d.old d.new result }
{
    if !reads_both(mark.phase) {
        return Ok(None);
    }
    match read_table(alloc, d, super_end, geometry, 1 - mark.slot) {
        Ok(loaded) => Ok(Some(loaded)),
        Err(fault) => Err(fault),
    }
}

/// Reads the table of the mark's slot, and while an update is installed or ready that of the other.
/// `BadTable` comes exactly where it says, the mark's slot's first.
pub fn read_tables<D: Disk>(
    alloc: Global,
    d: &mut D,
    super_end: u64,
    geometry: &Geometry,
    mark: &UpdateMark,
) -> Result<Tables, StartFault>
    requires rules { IsGeometry geometry.now }
    requires slot { mark.now.slot < 2 }
    requires ends { super_end ≤ D.size d.old }
    requires copies_on { copies_end geometry.now ≤ super_bytes super_end }
    ensures ok { D.is_modelled → IfOk result (λ t.
        tables_in super_end geometry.now
        (phase_at mark.now).tables (D.seen d.old)
        ≡ Ok (tables_of t)) }
    ensures fault { D.is_modelled → IfErr result (λ f. IsOfContents f
        → tables_in super_end geometry.now
        (phase_at mark.now).tables (D.seen d.old)
        ≡ Err f) }
    ensures loaded { D.is_modelled → IfOk result
        (AreLoaded geometry.now mark.now.slot (D.seen d.old)) }
    ensures there { IfOk result (AreTablesThere super_end geometry.now mark.now) }
    ensures reads { OnlyReads D.Disk d.old d.new }
    ensures counts { CountsFaults D.Disk d.old d.new result }
{
    match read_table(alloc, d, super_end, geometry, mark.slot) {
        Err(fault) => Err(fault),
        Ok(source) => match read_target(alloc, d, super_end, geometry, mark) {
            Err(fault) => Err(fault),
            Ok(target) => Ok(Tables { source, target }),
        },
    }
}

/// The device with the tables that were loaded.
pub fn with_tables(device: Device, tables: Tables) -> Device
    requires { device.mark.slot < 2 }
    ensures { result ≡ with_tables tables device }
{
    let Tables { source, target } = tables;
    let target = match target {
        None => None,
        Some(loaded) => Some(loaded.table),
    };
    if device.mark.slot == 0 {
        Device {
            table_a: Some(source.table),
            table_b: target,
            ..device
        }
    } else {
        Device {
            table_a: target,
            table_b: Some(source.table),
            ..device
        }
    }
}
