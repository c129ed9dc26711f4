//! The lines of the entries of a table.

ghost use Rattle.std.specs.Prelude.{◌≡◌, ◌+◌, ◌≤◌, ◌++◌, length, OnOk, slice_get};
ghost use Rattle.std.specs.List.{flat_map};
ghost use Rattle.vab_tables.specs.Extents.{extents_of};
ghost use Rattle.vab_tables.specs.Rules.{KeepsRules};
ghost use Rattle.vab_look.specs.TablesText as texts;

use crate::copies::begin_of_slot;
use crate::form::{Form, end, put_counted, put_keyed, put_number, put_word};
use crate::line::{Line, push_line};
use vab_model::NoMemory;
use vab_tables::{BlockDevice, Extent, Group, Partition, Table};

// The bytes of these extents, 2^64 - 1 where there are more.
fn bytes_of(extents: &[Extent]) -> u64
    ensures { result ≡ texts.bytes_of extents.now }
{
    let mut bytes: u64 = 0;
    for extent in extents {
        bytes = bytes.saturating_add(extent.sectors.saturating_mul(512));
    }
    bytes
}

// The name of the group of a partition.
#[tactic(auto, using(vab_bytes::proofs::NameLaws::name_fits))]
fn group_name<'a>(table: &'a Table, partition: &Partition) -> &'a [u8]
    ensures text { result.now ≡ texts.name_in (slice_get (table.now).groups (partition.now).group) }
    ensures short { length result.now ≤ 36 }
{
    match table.groups.as_slice().get(partition.group as usize) {
        Some(group) => group.name.text(),
        None => b"",
    }
}

// The line of a partition.
#[tactic(auto, using(vab_bytes::proofs::NameLaws::name_fits))]
fn partition_line(form: Form, slot: usize, table: &Table, partition: &Partition) -> Line
    requires { (partition.now).first_extent + (partition.now).extent_count
        ≤ length (table.now).extents }
    ensures { result.items ≡ texts.partition_line form slot table.now partition.now }
{
    let bytes = bytes_of(table.extents_of(partition));
    let mut line = begin_of_slot(form, b"partition", slot);
    put_word(form, b"name", partition.name.text(), &mut line);
    put_counted(
        form,
        b"attributes",
        u64::from(partition.attributes),
        &mut line,
    );
    put_counted(form, b"bytes", bytes, &mut line);
    put_keyed(form, b"group", group_name(table, partition), &mut line);
    end(form, &mut line);
    line
}

// The line of an extent.
fn extent_line(form: Form, slot: usize, extent: &Extent) -> Line
    ensures { result.items ≡ texts.extent_line form slot extent.now }
{
    let mut line = begin_of_slot(form, b"extent", slot);
    put_number(form, b"first", extent.first_sector, &mut line);
    put_number(form, b"sectors", extent.sectors, &mut line);
    end(form, &mut line);
    line
}

// The line of a group.
#[tactic(auto, using(vab_bytes::proofs::NameLaws::name_fits))]
fn group_line(form: Form, slot: usize, group: &Group) -> Line
    ensures { result.items ≡ texts.group_line form slot group.now }
{
    let mut line = begin_of_slot(form, b"group", slot);
    put_word(form, b"name", group.name.text(), &mut line);
    put_counted(form, b"limit", group.maximum_size, &mut line);
    end(form, &mut line);
    line
}

// The line of a block device.
#[tactic(auto, using(vab_bytes::proofs::NameLaws::name_fits))]
fn device_line(form: Form, slot: usize, device: &BlockDevice) -> Line
    ensures { result.items ≡ texts.device_line form slot device.now }
{
    let mut line = begin_of_slot(form, b"device", slot);
    put_word(form, b"name", device.partition_name.text(), &mut line);
    put_counted(form, b"first", device.first_logical_sector, &mut line);
    put_counted(form, b"bytes", device.size, &mut line);
    end(form, &mut line);
    line
}

// The lines of extents.
fn push_extents(
    form: Form,
    slot: usize,
    extents: &[Extent],
    page: &mut Vec<u8>,
) -> Result<(), NoMemory>
    ensures { OnOk result (page.new.items
        ≡ page.old.items ++ flat_map (texts.extent_line form slot) extents.now) }
{
    for extent in extents {
        push_line(&extent_line(form, slot, extent), page)?;
    }
    Ok(())
}

// The lines of a partition.
fn push_partition(
    form: Form,
    slot: usize,
    table: &Table,
    partition: &Partition,
    page: &mut Vec<u8>,
) -> Result<(), NoMemory>
    requires { (partition.now).first_extent + (partition.now).extent_count
        ≤ length (table.now).extents }
    ensures { OnOk result (page.new.items
        ≡ page.old.items ++ texts.partition_lines form slot table.now partition.now) }
{
    push_line(&partition_line(form, slot, table, partition), page)?;
    push_extents(form, slot, table.extents_of(partition), page)
}

// The lines of the partitions.
fn push_partitions(
    form: Form,
    slot: usize,
    table: &Table,
    page: &mut Vec<u8>,
) -> Result<(), NoMemory>
    requires { KeepsRules table.now }
    ensures { OnOk result (page.new.items
        ≡ page.old.items
        ++ flat_map (texts.partition_lines form slot table.now) (table.now).partitions) }
{
    for partition in table.partitions.as_slice() {
        push_partition(form, slot, table, partition, page)?;
    }
    Ok(())
}

// The lines of groups.
fn push_groups(
    form: Form,
    slot: usize,
    groups: &[Group],
    page: &mut Vec<u8>,
) -> Result<(), NoMemory>
    ensures { OnOk result (page.new.items
        ≡ page.old.items ++ flat_map (texts.group_line form slot) groups.now) }
{
    for group in groups {
        push_line(&group_line(form, slot, group), page)?;
    }
    Ok(())
}

// The lines of block devices.
fn push_devices(
    form: Form,
    slot: usize,
    devices: &[BlockDevice],
    page: &mut Vec<u8>,
) -> Result<(), NoMemory>
    ensures { OnOk result (page.new.items
        ≡ page.old.items ++ flat_map (texts.device_line form slot) devices.now) }
{
    for device in devices {
        push_line(&device_line(form, slot, device), page)?;
    }
    Ok(())
}

/// Puts the lines of a table's entries behind a page.
pub(crate) fn push_entries(
    form: Form,
    slot: usize,
    table: &Table,
    page: &mut Vec<u8>,
) -> Result<(), NoMemory>
    requires { KeepsRules table.now }
    ensures { OnOk result
        (page.new.items ≡ page.old.items ++ texts.entry_lines form slot table.now) }
{
    push_partitions(form, slot, table, page)?;
    push_groups(form, slot, table.groups.as_slice(), page)?;
    push_devices(form, slot, table.devices.as_slice(), page)
}
