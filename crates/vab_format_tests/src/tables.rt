// Texts that are read, and what is wrong with them.

ghost use Rattle.vab_tables.specs.Rules.{KeepsRules};

use crate::texts::{put, put_device, text_of, text_of_groups};
use sha2::{Digest, Sha256};
use std::alloc::Global;
use std::test::*;
use vab_tables::{EntryKind, Table, TableFault, decode_table, encode_table, table_size, text_size};

// The SHA-256 sums of texts that another program wrote from the public format: groups `default`,
// `main_a` and `main_b` alone with flags 1, and a partition `a` of one block in `main_a`.
const THREE_GROUPS: [u8; 32] = [
    125, 125, 77, 100, 10, 28, 176, 103, 70, 43, 49, 23, 238, 191, 30, 125, 233, 14, 12, 109, 1,
    124, 16, 192, 245, 191, 240, 18, 44, 64, 26, 225,
];

const ONE_BLOCK_MINOR_0: [u8; 32] = [
    156, 162, 255, 116, 121, 232, 200, 51, 206, 194, 250, 147, 218, 217, 59, 250, 60, 143, 229, 61,
    88, 120, 241, 198, 136, 177, 189, 45, 59, 215, 255, 122,
];

const ONE_BLOCK_MINOR_2: [u8; 32] = [
    140, 62, 215, 62, 151, 92, 226, 16, 177, 220, 103, 40, 64, 81, 196, 225, 147, 239, 123, 174,
    61, 149, 87, 131, 178, 14, 166, 220, 222, 67, 113, 70,
];

fn three_groups(alloc: Global) -> Result<Vec<u8>, Fail> {
    text_of_groups(alloc, &[b"default", b"main_a", b"main_b"])
}

// A partition with these attributes, an extent of so many sectors, a group.
fn one_block(
    alloc: Global,
    minor: u8,
    attributes: u32,
    sectors: [u32; 2],
) -> Result<Vec<u8>, Fail> {
    let mut tables = Vec::new(alloc);
    put(&mut tables, b"a", &[attributes, 0, 1, 0])?;
    put(&mut tables, b"", &[sectors[0], sectors[1], 0, 2048, 0, 0])?;
    put(&mut tables, b"main_a", &[0, 0, 0])?;
    put_device(&mut tables)?;
    text_of(alloc, minor, [1, 1, 1, 1], &tables)
}

fn text_size_of(text: &[u8]) -> Option<usize> {
    if text.len() < 128 {
        None
    } else {
        Some(text_size(text))
    }
}

// How many partitions, extents, groups and devices a table has, and its minor and flags.
fn counts(table: &Table) -> ([usize; 4], u16, u32) {
    let counts = [
        table.partitions.len(),
        table.extents.len(),
        table.groups.len(),
        table.devices.len(),
    ];
    (counts, table.minor, table.flags)
}

// The text of a table that takes so many bytes.
fn written(alloc: Global, table: &Table, size: u64) -> Result<Vec<u8>, Fail>
    requires { KeepsRules table.now }
{
    if table.partitions.len() > 9 || table.extents.len() > 9 || table.groups.len() > 9 {
        return Err("a small table".into());
    }
    let found = table_size(table);
    if found != size || found >= 1 << 32 {
        return Err("another size".into());
    }
    Ok(encode_table(alloc, table)?)
}

// Whether the last group has this name, and the first device so many blocks.
fn ends_with(table: &Table, name: &[u8], cap: u64) -> bool {
    match (
        table.groups.as_slice().last(),
        table.devices.as_slice().first(),
    ) {
        (Some(group), Some(device)) => group.name.text() == name && device.cap() == cap,
        _ => false,
    }
}

#[test]
fn three_groups_are_464_bytes(rt: HostRuntime) -> Result<(), Fail> {
    let text = three_groups(rt.alloc())?;
    assert!(rt; Sha256::digest(text.as_slice()) == THREE_GROUPS);
    assert!(rt; text_size_of(&text) == Some(464));
    let small = decode_table(rt.alloc(), &text, 463).err();
    assert!(rt; small == Some(TableFault::BadSize));
    let table = decode_table(rt.alloc(), &text, 464)?;
    assert!(rt; counts(&table) == ([0, 0, 3, 1], 2, 1));
    assert!(rt; ends_with(&table, b"main_b", 256));
    let written = written(rt.alloc(), &table, 464)?;
    assert!(rt; written.as_slice() == text.as_slice());
    Ok(())
}

// The attributes of the first partition, and the first sector of the first extent.
fn firsts(table: &Table) -> Option<(u32, u64)> {
    let partition = table.partitions.as_slice().first()?;
    let extent = table.extents.as_slice().first()?;
    Some((partition.attributes, extent.first_sector))
}

#[test]
fn a_table_of_minor_0_is_written_as_minor_2(rt: HostRuntime) -> Result<(), Fail> {
    let text = one_block(rt.alloc(), 0, 1, [8, 0])?;
    assert!(rt; Sha256::digest(text.as_slice()) == ONE_BLOCK_MINOR_0);
    let table = decode_table(rt.alloc(), &text, 316)?;
    assert!(rt; counts(&table) == ([1, 1, 1, 1], 0, 0));
    assert!(rt; firsts(&table) == Some((1, 2048)));
    let written = written(rt.alloc(), &table, 444)?;
    assert!(rt; Sha256::digest(written.as_slice()) == ONE_BLOCK_MINOR_2);
    Ok(())
}

#[test]
fn attributes_are_those_of_the_minor(rt: HostRuntime) -> Result<(), Fail> {
    let alloc = rt.alloc();
    let refused = Some(TableFault::BadEntry(EntryKind::Partition, 0));
    for (minor, attributes, fault) in [
        (0, 0, None),
        (0, 1, None),
        (0, 4, refused),
        (1, 13, None),
        (2, 13, None),
        (0, 2, refused),
        (1, 2, refused),
        (1, 16, refused),
    ] {
        let text = one_block(alloc, minor, attributes, [8, 0])?;
        let found = decode_table(alloc, &text, 65536).err();
        assert!(rt; found == fault, "minor {minor}, attributes {attributes}");
    }
    Ok(())
}

// The text with these bytes in these places.
fn changed(alloc: Global, text: &[u8], changes: &[(usize, u8)]) -> Result<Vec<u8>, Fail> {
    let mut text = text.to_vec(alloc)?;
    for (at, byte) in changes {
        if *at < text.len() {
            text[*at] = *byte;
        }
    }
    Ok(text)
}

#[test]
fn faults_of_a_table_in_their_order(rt: HostRuntime) -> Result<(), Fail> {
    let alloc = rt.alloc();
    let good = three_groups(alloc)?;
    for (changes, fault) in [
        ([(0, 1), (6, 1)], TableFault::NoHeader),
        ([(4, 11), (20, 1)], TableFault::BadVersion),
        ([(6, 1), (20, 1)], TableFault::BadVersion),
        ([(6, 3), (20, 1)], TableFault::BadVersion),
        ([(20, 1), (400, 1)], TableFault::BadHeaderSum),
        ([(127, 1), (400, 1)], TableFault::BadHeaderSum),
        ([(255, 1), (400, 1)], TableFault::BadHeaderSum),
        ([(256, 1), (400, 1)], TableFault::BadTablesSum),
    ] {
        let text = changed(alloc, &good, &changes)?;
        assert!(rt; decode_table(alloc, &text, 464).err() == Some(fault));
    }
    for (len, fault) in [
        (127, TableFault::NoHeader),
        (255, TableFault::BadVersion),
        (463, TableFault::BadSize),
    ] {
        let front = good.as_slice().get(..len).ok_or("longer")?;
        assert!(rt; decode_table(alloc, front, 464).err() == Some(fault));
    }
    let many = text_of(alloc, 2, [u32::MAX, 0, 0, 0], &[])?;
    assert!(rt; decode_table(alloc, &many, 65536).err() == Some(TableFault::BadBounds));
    Ok(())
}

// A text of these partitions and groups, each with its first number, and so many devices.
fn text_with(
    alloc: Global,
    partitions: &[&[u8]],
    groups: &[&[u8]],
    devices: u32,
) -> Result<Vec<u8>, Fail> {
    let mut tables = Vec::new(alloc);
    for name in partitions {
        put(&mut tables, name, &[1, 0, 0, 0])?;
    }
    for name in groups {
        put(&mut tables, name, &[0, 0, 0])?;
    }
    for _device in 0..devices {
        put_device(&mut tables)?;
    }
    let counts = [
        u32::try_from(partitions.len()).ok().ok_or("too many")?,
        0,
        u32::try_from(groups.len()).ok().ok_or("too many")?,
        devices,
    ];
    text_of(alloc, 2, counts, &tables)
}

#[test]
fn the_first_bad_entry_of_a_table_is_told(rt: HostRuntime) -> Result<(), Fail> {
    let alloc = rt.alloc();
    for (partitions, groups, devices, kind, index) in [
        (
            [b"\0a".as_slice()].as_slice(),
            [b"default".as_slice(), b"main"].as_slice(),
            1,
            EntryKind::Group,
            1,
        ),
        (&[], &[], 0, EntryKind::Device, 0),
        (&[], &[], 2, EntryKind::Device, 1),
        (&[b"a", b"a"], &[b"cow"], 1, EntryKind::Partition, 1),
    ] {
        let text = text_with(alloc, partitions, groups, devices)?;
        let fault = decode_table(alloc, &text, 65536).err();
        assert!(rt; fault == Some(TableFault::BadEntry(kind, index)));
    }
    let extent = one_block(alloc, 2, 16, [u32::MAX - 7, u32::MAX])?;
    let fault = decode_table(alloc, &extent, 65536).err();
    assert!(rt; fault == Some(TableFault::BadEntry(EntryKind::Extent, 0)));
    Ok(())
}

// A table of two partitions, of which the second has no extents and names this one as its first.
fn without_extents(alloc: Global, first: u32) -> Result<Vec<u8>, Fail> {
    let mut tables = Vec::new(alloc);
    put(&mut tables, b"a", &[1, 0, 1, 0])?;
    put(&mut tables, b"b", &[1, first, 0, 0])?;
    put(&mut tables, b"", &[8, 0, 0, 2048, 0, 0])?;
    put(&mut tables, b"cow", &[0, 0, 0])?;
    put_device(&mut tables)?;
    text_of(alloc, 2, [2, 1, 1, 1], &tables)
}

#[test]
fn a_partition_without_extents_names_one_or_the_end(rt: HostRuntime) -> Result<(), Fail> {
    let alloc = rt.alloc();
    let refused = Some(TableFault::BadEntry(EntryKind::Partition, 1));
    for (first, fault) in [(0, None), (1, None), (2, refused), (u32::MAX, refused)] {
        let text = without_extents(alloc, first)?;
        let found = decode_table(alloc, &text, 65536).err();
        assert!(rt; found == fault, "first extent {first}");
    }
    Ok(())
}
