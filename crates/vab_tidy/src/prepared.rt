//! What is to be done behind a merge that has ended, before anything is written.

ghost use Rattle.std.specs.Prelude.{◌≡◌, ◌<◌, ◌^◌, IfOk, IfErr, IfSome};
ghost use Rattle.vab_disk.specs.Calls.{OnlyReads};
ghost use Rattle.vab_marks.specs.Mark.{mark_of};
ghost use Rattle.vab_tables.specs.Rules.{KeepsRules};
ghost use Rattle.vab_tables.specs.Spelling.{table_size_of};
ghost use Rattle.vab_geometry.specs.declared.geometry.Geometry.{Geometry};
ghost use Rattle.vab_layout.specs.Layout.{layout_of};
ghost use Rattle.vab_layout.specs.Slots.{IsOwn};
ghost use Rattle.vab_device.specs.Faults.{IsOfContents, IsOfDisk};
ghost use Rattle.vab_device.specs.Kept.{IsTableOf};
ghost use Rattle.vab_device.specs.Reading.{mark_in};
ghost use Rattle.vab_tidy.specs.Counts.{CountsFaults};
ghost use Rattle.vab_tidy.specs.Tidied.{is_completed, says_completed, is_other_part};
ghost use Rattle.vab_tidy.specs.Tidied.{is_other_group, has_other_parts, has_other_groups};
ghost use Rattle.vab_tidy.specs.Tidied.{has_others};
ghost use Rattle.vab_tidy.specs.Planned.{IsAloneIf, IsDue, IsTidying};

use std::alloc::Global;
use vab_builder::without_stores;
use vab_bytes::Bytes;
use vab_device::StartFault;
use vab_disk::Disk;
use vab_gate::get_sector;
use vab_marks::{MarkPhase, UpdateMark, decode_mark};
use vab_names::{default_group, is_of_slot};
use vab_tables::{Group, NoMemory, Partition, Table, encode_table, table_size};

/// The disk sector of the update mark.
pub const MARK_SECTOR: u64 = 2048;

/// The table of a slot alone, without stores.
#[derive(Drop)]
pub struct Alone {
    pub table: Table,
    pub text: Bytes,
}

/// What is to be done behind a merge that has ended: the table of the slot alone is stored, where
/// there is one here, and then the mark says that there is no update.
#[derive(Drop)]
pub struct Tidying {
    pub alone: Option<Alone>,
}

// Whether the phase is that of a merge that has ended.
fn is_completed(phase: MarkPhase) -> bool
    ensures { result ≡ is_completed phase }
{
    match phase {
        MarkPhase::Idle => false,
        MarkPhase::Installing => false,
        MarkPhase::Staged => false,
        MarkPhase::Merging => false,
        MarkPhase::Completed => true,
    }
}

// Whether the bytes of the mark say that a merge has ended.
fn says_completed(sector: &[u8; 512]) -> bool
    ensures { result ≡ says_completed (mark_of sector.now) }
{
    match decode_mark(sector) {
        Ok(mark) => is_completed(mark.phase),
        Err(_) => false,
    }
}

// Whether the mark says so.
fn has_completed<D: Disk>(d: &mut D) -> Result<bool, StartFault>
    requires { 2048 < D.size d.old }
    ensures is { D.is_modelled
        → IfOk result (λ b. b ≡ says_completed (mark_of (D.seen d.old 2048))) }
    ensures kind { IfErr result IsOfDisk }
    ensures reads { OnlyReads D.Disk d.old d.new }
    ensures counts { CountsFaults D.Disk d.old d.new result }
{
    let mut sector = [0u8; 512];
    match get_sector(d, MARK_SECTOR, &mut sector) {
        Ok(()) => Ok(says_completed(&sector)),
        Err(fault) => Err(StartFault::Disk(fault)),
    }
}

// Whether a partition isn't one of the slot.
fn is_other_part(partition: &Partition, slot: usize) -> bool
    requires { slot < 2 }
    ensures { result ≡ is_other_part slot partition.now }
{
    !is_of_slot(partition.name.text(), slot)
}

// Whether a group is neither one of the slot nor that of no slot.
fn is_other_group(group: &Group, slot: usize) -> bool
    requires { slot < 2 }
    ensures { result ≡ is_other_group slot group.now }
{
    !is_of_slot(group.name.text(), slot) && group.name.text() != default_group().text()
}

// Whether the table has a partition that isn't one of the slot.
fn has_other_parts(table: &Table, slot: usize) -> bool
    requires { slot < 2 }
    ensures { result ≡ has_other_parts slot table.now }
{
    let partitions = table.partitions.as_slice();
    partitions.iter().any(|it| is_other_part(it, slot))
}

// Whether it has a group that is neither one of the slot nor that of no slot.
fn has_other_groups(table: &Table, slot: usize) -> bool
    requires { slot < 2 }
    ensures { result ≡ has_other_groups slot table.now }
{
    let groups = table.groups.as_slice();
    groups.iter().any(|it| is_other_group(it, slot))
}

// Whether the table has a partition or a group that the table of the slot alone hasn't.
fn has_others(table: &Table, slot: usize) -> bool
    requires { slot < 2 }
    ensures { result ≡ has_others slot table.now }
{
    has_other_parts(table, slot) || has_other_groups(table, slot)
}

// The table of the slot alone with its text, where it has less and its text is no longer than a
// copy may be.
fn alone_of(alloc: Global, table: &Table, slot: usize, max: u32) -> Result<Option<Alone>, NoMemory>
    requires slot { slot < 2 }
    requires keeps { KeepsRules table.now }
    requires small { table_size_of table.now < 2 ^ 24 }
    requires own { IsOwn slot (layout_of table.now).parts }
    ensures { IfOk result (IsAloneIf max slot table.now) }
{
    if !has_others(table, slot) {
        return Ok(None);
    }
    let alone = without_stores(alloc, table, slot)?;
    if table_size(&alone) > u64::from(max) {
        return Ok(None);
    }
    let text = encode_table(alloc, &alone)?;
    Ok(Some(Alone {
        table: alone,
        text: Bytes::from_vec(text),
    }))
}

/// What is to be done where the mark of the disk says that a merge has ended, and nothing in each
/// other case. The mark is the one that the disk was read with, and the table that of its slot.
/// Want of memory comes before anything is written.
pub fn prepare<D: Disk>(
    alloc: Global,
    d: &mut D,
    mark: &UpdateMark,
    max: u32,
    table: &Table,
) -> Result<Option<Tidying>, StartFault>
    requires enough { 2048 < D.size d.old }
    requires slot { mark.now.slot < 2 }
    requires keeps { KeepsRules table.now }
    requires small { table_size_of table.now < 2 ^ 24 }
    requires own { IsOwn mark.now.slot (layout_of table.now).parts }
    requires mark { D.is_modelled → mark_in (D.seen d.old) ≡ Ok mark.now }
    ensures due { D.is_modelled → IfOk result (IsDue mark.now (D.seen d.old)) }
    ensures tidying { IfOk result (λ x. IfSome x (IsTidying max mark.now table.now)) }
    ensures kind { IfErr result (λ f. IsOfContents f → ⊥) }
    ensures reads { OnlyReads D.Disk d.old d.new }
    ensures counts { CountsFaults D.Disk d.old d.new result }
{
    if !mark.phase.is_idle() {
        return Ok(None);
    }
    if mark.overlaid {
        return Ok(None);
    }
    match has_completed(d) {
        Err(fault) => Err(fault),
        Ok(false) => Ok(None),
        Ok(true) => match alone_of(alloc, table, mark.slot, max) {
            Err(_) => Err(StartFault::NoMemory),
            Ok(alone) => Ok(Some(Tidying { alone })),
        },
    }
}
