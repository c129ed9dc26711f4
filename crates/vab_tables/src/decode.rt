//! Reading a table.

ghost use Rattle.std.specs.Prelude.{◌≡◌, ◌*◌, ◌&&◌, not, [], length, IfOk, Ok};
ghost use Rattle.vab_tables.specs.declared.table.Table.{Table as TableValue};
ghost use Rattle.vab_tables.specs.declared.fault.TableFault.TheVariants as faults;
ghost use Rattle.vab_tables.specs.Rules.{is_named};
ghost use Rattle.vab_tables.specs.Text.{IsTableText};
ghost use Rattle.vab_tables.specs.Reading.{Gives, entry_or, entries_in, device_in, groups_in};
ghost use Rattle.vab_tables.specs.Reading.{extents_in, partitions_in, table_of};

use crate::entries::{BlockDevice, Entry, Extent, Group, Partition};
use crate::fault::{EntryKind, TableFault};
use crate::header::{
    DEVICES, EXTENTS, Entries, GROUPS, PARTITIONS, check_frame, entries_of, flags, minor,
};
use crate::names::{Named, add_name};
use crate::rules::{DeviceRules, ExtentRules, GroupRules, PartitionRules, Rules};
use crate::table::Table;
use std::alloc::Global;
use std::collections::BTreeSet;
use vab_bytes::Listing;

// The entry that the bytes spell, if it keeps the rules.
fn read_next<E: Entry, R: Rules<E>>(
    kind: EntryKind,
    rules: &R,
    index: usize,
    bytes: &[u8],
) -> Result<E, TableFault>
    requires { length bytes.now ≡ E.SIZE }
    ensures { Gives (λ e. e) result
        (entry_or (faults.BadEntry kind index) (R.passing rules.now) (E.reading bytes.now)) }
{
    match E::read(bytes) {
        Some(entry) if rules.admits(&entry) => Ok(entry),
        _ => Err(TableFault::BadEntry(kind, index)),
    }
}

// All entries of a kind.
fn read_all<E: Entry, R: Rules<E>>(
    alloc: Global,
    kind: EntryKind,
    rules: &R,
    entries: Entries,
) -> Result<Vec<E>, TableFault>
    requires { length entries.bytes.now ≡ entries.count * E.SIZE }
    ensures { Gives (λ v. v.items) result
        (entries_in kind E.SIZE E.reading (λ _ e. R.passing rules.now e) entries.entry.bytes.now
        entries.entry.count []) }
{
    let mut all = Vec::new(alloc);
    for index in 0..entries.count {
        let at = index * E::SIZE;
        let entry = read_next(kind, rules, index, &entries.bytes[at..at + E::SIZE])?;
        all.push(entry)?;
    }
    Ok(all)
}

// All entries of a kind, no two of which have one name. The names stand in their order beside the
// entries, so that each is looked up among those before it.
fn read_named<E: Entry + Named, R: Rules<E>>(
    alloc: Global,
    kind: EntryKind,
    rules: &R,
    entries: Entries,
) -> Result<Vec<E>, TableFault>
    requires { length entries.bytes.now ≡ entries.count * E.SIZE }
    ensures { Gives (λ v. v.items) result
        (entries_in kind E.SIZE E.reading
        (λ earlier e. R.passing rules.now e && not (is_named E.text_of earlier (E.text_of e)))
        entries.entry.bytes.now entries.entry.count []) }
{
    let mut all: Vec<E> = Vec::new(alloc);
    let mut names = BTreeSet::new(alloc);
    for index in 0..entries.count {
        let at = index * E::SIZE;
        let entry = read_next(kind, rules, index, &entries.bytes[at..at + E::SIZE])?;
        if !add_name(&mut names, entry.name())? {
            return Err(TableFault::BadEntry(kind, index));
        }
        all.push(entry)?;
    }
    Ok(all)
}

// The one block device.
#[tactic(auto, unfolding(crate::specs::Reading::device_in))]
fn read_device(entries: Entries) -> Result<BlockDevice, TableFault>
    requires { length entries.bytes.now ≡ entries.count * 64 }
    ensures { Gives (λ d. d) result (device_in entries.entry.count entries.entry.bytes.now) }
{
    if entries.count == 0 {
        return Err(TableFault::BadEntry(EntryKind::Device, 0));
    }
    let first = &entries.bytes[..BlockDevice::SIZE];
    let device = read_next(EntryKind::Device, &DeviceRules, 0, first)?;
    if entries.count > 1 {
        return Err(TableFault::BadEntry(EntryKind::Device, 1));
    }
    Ok(device)
}

#[tactic(auto, unfolding(crate::specs::Reading::groups_in))]
fn read_groups(alloc: Global, entries: Entries) -> Result<Vec<Group>, TableFault>
    requires { length entries.bytes.now ≡ entries.count * 48 }
    ensures { Gives (λ v. v.items) result (groups_in entries.entry.count entries.entry.bytes.now) }
{
    read_named(alloc, EntryKind::Group, &GroupRules, entries)
}

#[tactic(auto, unfolding(crate::specs::Reading::extents_in))]
fn read_extents(
    alloc: Global,
    rules: &ExtentRules,
    entries: Entries,
) -> Result<Vec<Extent>, TableFault>
    requires { length entries.bytes.now ≡ entries.count * 24 }
    ensures { Gives (λ v. v.items) result
        (extents_in rules.entry.now.device.now entries.entry.count entries.entry.bytes.now) }
{
    read_all(alloc, EntryKind::Extent, rules, entries)
}

#[tactic(auto, unfolding(crate::specs::Reading::partitions_in))]
fn read_partitions(
    alloc: Global,
    rules: &PartitionRules,
    entries: Entries,
) -> Result<Vec<Partition>, TableFault>
    requires { length entries.bytes.now ≡ entries.count * 52 }
    ensures { Gives (λ v. v.items) result
        (partitions_in rules.now.minor rules.now.extents rules.now.groups entries.entry.count
        entries.entry.bytes.now) }
{
    read_named(alloc, EntryKind::Partition, rules, entries)
}

// The whole text.
#[tactic(auto, unfolding(crate::specs::Reading::table_of))]
fn read_table(alloc: Global, text: &[u8], max: u32) -> Result<Table, TableFault>
    ensures { Gives (λ t. t) result (table_of max text.now) }
{
    check_frame(text, max)?;
    let device = read_device(entries_of(text, DEVICES, BlockDevice::SIZE))?;
    let groups = read_groups(alloc, entries_of(text, GROUPS, Group::SIZE))?;
    let rules = ExtentRules { device: &device };
    let extents = read_extents(alloc, &rules, entries_of(text, EXTENTS, Extent::SIZE))?;
    let minor = minor(text);
    let rules = PartitionRules {
        minor,
        extents: extents.len(),
        groups: groups.len(),
    };
    let partitions = read_partitions(alloc, &rules, entries_of(text, PARTITIONS, Partition::SIZE))?;
    let mut devices = Vec::new(alloc);
    devices.push(device)?;
    Ok(Table {
        partitions: Listing::from_vec(partitions),
        extents: Listing::from_vec(extents),
        groups: Listing::from_vec(groups),
        devices: Listing::from_vec(devices),
        minor,
        flags: flags(text),
    })
}

/// The table whose text this is, in at most `max` bytes; what stands behind the tables is not read.
///
/// # Errors
///
/// The first fault in the order of `TableFault`.
pub fn decode_table(alloc: Global, text: &[u8], max: u32) -> Result<Table, TableFault>
    // The text is one of the table that is read.
    ensures found { IfOk result (λ t. IsTableText max text.now t) }
    // The table whose text this is is read, unless memory is refused.
    ensures only { (t : TableValue) → IsTableText max text.now t → Gives (λ t. t) result (Ok t) }
    // Which fault it is.
    ensures exact { Gives (λ t. t) result (table_of max text.now) }
{
    read_table(alloc, text, max)
}
