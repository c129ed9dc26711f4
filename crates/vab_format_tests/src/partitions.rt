// One table for each kind of bad partition, and the happy path.

ghost use Rattle.std.specs.Prelude.{IfOk, ◌<◌, ◌≤◌};
ghost use Rattle.vab_names.specs.Names.{most_partitions};
ghost use Rattle.vab_tables.specs.Rules.{KeepsRules};

use crate::texts::{put, put_device, text_of};
use std::alloc::Global;
use std::test::*;
use vab_bytes::{Listing, Name36};
use vab_names::MAX_PARTITIONS;
use vab_partitions::{bad_merging, bad_partition, bad_target, has_twins, same_device};
use vab_tables::{BlockDevice, Group, Table, decode_table};

// A text's partitions, each with its attributes, its first extent, its count of extents and its
// group; its extents, each with its sectors and the first one; and its groups.
struct Sample {
    partitions: &'static [(&'static [u8], [u32; 4])],
    extents: &'static [[u32; 2]],
    groups: &'static [&'static [u8]],
}

const GROUPS: [&[u8]; 3] = [b"default", b"main_a", b"main_b"];

const TARGET_GROUPS: [&[u8]; 4] = [b"default", b"main_a", b"main_b", b"cow"];

// `a` has blocks 4, 0 and 1 in `system`, 2 and 3 in `vendor`, and an empty partition; block 9
// stands twice in `b`'s one partition.
const GOOD: Sample = Sample {
    partitions: &[
        (b"system_b", [0, 0, 2, 2]),
        (b"system_a", [0, 2, 2, 1]),
        (b"vendor_a", [0, 4, 1, 0]),
        (b"empty_a", [0, 0, 0, 1]),
    ],
    extents: &[[16, 2112], [8, 2120], [8, 2080], [16, 2048], [16, 2064]],
    groups: &GROUPS,
};

// `a` has a base name with a hyphen; in `b`, whose blocks are those of `a`, one stands in a group
// of `a`.
const NAMES: Sample = Sample {
    partitions: &[
        (b"system_a", [0, 0, 1, 1]),
        (b"a-b_a", [0, 1, 1, 1]),
        (b"system_b", [0, 0, 1, 2]),
        (b"vendor_a", [0, 2, 1, 1]),
        (b"vendor_b", [0, 2, 1, 1]),
    ],
    extents: &[[16, 2048], [8, 2064], [8, 2072]],
    groups: &GROUPS,
};

// `vendor` of `a` has block 5, as `system` of `b`, and block 1, as `system` of `a`.
const SHARED: Sample = Sample {
    partitions: &[
        (b"system_a", [0, 0, 1, 1]),
        (b"system_b", [0, 1, 1, 2]),
        (b"vendor_a", [0, 1, 2, 0]),
        (b"third_a", [0, 3, 1, 0]),
    ],
    extents: &[[16, 2048], [8, 2088], [8, 2056], [8, 2096]],
    groups: &GROUPS,
};

// `system` of `b` has the first half of the source's, `vendor` all of the source's, block 10, and a
// store.
const TARGET: Sample = Sample {
    partitions: &[
        (b"system_a", [0, 0, 1, 1]),
        (b"vendor_a", [0, 1, 1, 1]),
        (b"system_b", [4, 2, 1, 2]),
        (b"vendor_b", [4, 3, 2, 2]),
        (b"vendor_b-cow", [0, 5, 1, 3]),
    ],
    extents: &[
        [32, 2048],
        [16, 2080],
        [16, 2048],
        [16, 2080],
        [8, 2128],
        [16, 2208],
    ],
    groups: &TARGET_GROUPS,
};

// The fresh block of `vendor` is one of `system` in the source.
const SOURCE_BLOCK: Sample = Sample {
    partitions: &[
        (b"system_a", [0, 0, 1, 1]),
        (b"vendor_a", [0, 1, 1, 1]),
        (b"system_b", [4, 2, 1, 2]),
        (b"vendor_b", [4, 3, 2, 2]),
        (b"vendor_b-cow", [0, 5, 1, 3]),
    ],
    extents: &[
        [32, 2048],
        [16, 2080],
        [16, 2048],
        [16, 2080],
        [8, 2072],
        [16, 2208],
    ],
    groups: &TARGET_GROUPS,
};

// `system` of `b` is smaller than the source's, and isn't marked as updated.
const UNMARKED: Sample = Sample {
    partitions: &[
        (b"system_a", [0, 0, 1, 1]),
        (b"vendor_a", [0, 1, 1, 1]),
        (b"system_b", [0, 2, 1, 2]),
        (b"vendor_b", [4, 3, 2, 2]),
        (b"vendor_b-cow", [0, 5, 1, 3]),
    ],
    extents: &[
        [32, 2048],
        [16, 2080],
        [16, 2048],
        [16, 2080],
        [8, 2128],
        [16, 2208],
    ],
    groups: &TARGET_GROUPS,
};

// The store stands in a group of the slot.
const STORE_GROUP: Sample = Sample {
    partitions: &[
        (b"system_a", [0, 0, 1, 1]),
        (b"vendor_a", [0, 1, 1, 1]),
        (b"system_b", [4, 2, 1, 2]),
        (b"vendor_b", [4, 3, 2, 2]),
        (b"vendor_b-cow", [0, 5, 1, 2]),
    ],
    extents: &[
        [32, 2048],
        [16, 2080],
        [16, 2048],
        [16, 2080],
        [8, 2128],
        [16, 2208],
    ],
    groups: &TARGET_GROUPS,
};

// `other` of `b` has a store, and isn't there.
const ORPHAN: Sample = Sample {
    partitions: &[
        (b"system_a", [0, 0, 1, 1]),
        (b"vendor_a", [0, 1, 1, 1]),
        (b"system_b", [4, 2, 1, 2]),
        (b"vendor_b", [0, 3, 1, 2]),
        (b"system_b-cow", [0, 4, 1, 3]),
        (b"other_b-cow", [0, 5, 1, 3]),
    ],
    extents: &[
        [32, 2048],
        [16, 2080],
        [16, 2048],
        [16, 2080],
        [8, 2128],
        [16, 2208],
    ],
    groups: &TARGET_GROUPS,
};

// The store has block 11, as `vendor` behind it.
const STORE_FIRST: Sample = Sample {
    partitions: &[
        (b"system_a", [0, 0, 1, 1]),
        (b"vendor_a", [0, 1, 1, 1]),
        (b"system_b", [4, 2, 1, 2]),
        (b"vendor_b-cow", [0, 3, 1, 3]),
        (b"vendor_b", [4, 4, 2, 2]),
    ],
    extents: &[
        [32, 2048],
        [16, 2080],
        [16, 2048],
        [16, 2128],
        [16, 2080],
        [8, 2136],
    ],
    groups: &TARGET_GROUPS,
};

// `vendor` of `b` has blocks of no partition of the source, and `system` none.
const APART: Sample = Sample {
    partitions: &[
        (b"system_a", [0, 0, 1, 1]),
        (b"vendor_a", [0, 1, 1, 1]),
        (b"system_b", [4, 2, 0, 2]),
        (b"vendor_b", [4, 2, 2, 2]),
    ],
    extents: &[[32, 2048], [16, 2080], [16, 2128], [8, 2152]],
    groups: &TARGET_GROUPS,
};

// `vendor` isn't marked as updated, and has the source's blocks.
const APART_UNMARKED: Sample = Sample {
    partitions: &[
        (b"system_a", [0, 0, 1, 1]),
        (b"vendor_a", [0, 1, 1, 1]),
        (b"system_b", [4, 2, 1, 2]),
        (b"vendor_b", [0, 3, 0, 2]),
    ],
    extents: &[[32, 2048], [16, 2080], [16, 2128]],
    groups: &TARGET_GROUPS,
};

// The partitions, the extents, the groups, and a device of 256 blocks that begins at sector 2048.
fn entries(alloc: Global, sample: &Sample) -> Result<Vec<u8>, Fail> {
    let mut out = Vec::new(alloc);
    for (name, numbers) in sample.partitions {
        put(&mut out, name, numbers.as_slice())?;
    }
    for extent in sample.extents {
        put(&mut out, b"", &[extent[0], 0, 0, extent[1], 0, 0])?;
    }
    for name in sample.groups {
        put(&mut out, name, &[0, 0, 0])?;
    }
    put_device(&mut out)?;
    Ok(out)
}

fn number(len: usize) -> Result<u32, Fail> {
    Ok(u32::try_from(len).ok().ok_or("too many")?)
}

fn table(alloc: Global, sample: &Sample) -> Result<Table, Fail>
    ensures { IfOk result (λ t. KeepsRules t) }
{
    let partitions = number(sample.partitions.len())?;
    let extents = number(sample.extents.len())?;
    let groups = number(sample.groups.len())?;
    let entries = entries(alloc, sample)?;
    let text = text_of(alloc, 2, [partitions, extents, groups, 1], &entries)?;
    Ok(decode_table(alloc, &text, 1024)?)
}

// The name that was found, or nothing.
fn text_of_found(alloc: Global, found: Option<Name36>) -> Result<Vec<u8>, Fail> {
    match found {
        Some(name) => Ok(name.text().to_vec(alloc)?),
        None => Ok(Vec::new(alloc)),
    }
}

// The name of the bad partition of a slot of a sample where it may have so many, or nothing where
// none is bad.
fn bad_in(alloc: Global, sample: &Sample, slot: usize, most: usize) -> Result<Vec<u8>, Fail>
    requires slot { slot < 2 }
    requires most { most ≤ most_partitions }
{
    let table = table(alloc, sample)?;
    text_of_found(alloc, bad_partition(alloc, &table, slot, most)?)
}

// Each sample with the bad partition of slot a and that of slot b.
const SOURCES: [(&Sample, [&[u8]; 2]); 3] = [
    (&GOOD, [b"", b"system_b"]),
    (&NAMES, [b"a-b_a", b"vendor_b"]),
    (&SHARED, [b"vendor_a", b""]),
];

#[test]
fn each_bad_partition_is_named(rt: HostRuntime) -> Result<(), Fail> {
    for (sample, bad) in SOURCES {
        for slot in 0..2 {
            let found = bad_in(rt.alloc(), sample, slot, MAX_PARTITIONS)?;
            assert!(rt; found.as_slice() == bad[slot], "slot {slot}");
        }
    }
    Ok(())
}

#[test]
fn a_partition_too_many_is_bad(rt: HostRuntime) -> Result<(), Fail> {
    for (most, bad) in [(0, b"system_a".as_slice()), (2, b"empty_a"), (3, b"")] {
        assert!(rt;
            bad_in(rt.alloc(), &GOOD, 0, most)?.as_slice() == bad,
            "most {most}"
        );
    }
    Ok(())
}

// The name of the bad partition or store of slot b beside slot a, or apart from it, or nothing
// where none is bad.
fn bad_beside(alloc: Global, sample: &Sample, apart: bool) -> Result<Vec<u8>, Fail> {
    let table = table(alloc, sample)?;
    match bad_partition(alloc, &table, 0, MAX_PARTITIONS)? {
        None => text_of_found(
            alloc,
            bad_target(alloc, &table, &table, 1, MAX_PARTITIONS, apart)?,
        ),
        Some(_) => Err("the source is good".into()),
    }
}

// The name of the bad partition or store of slot b alone, or nothing where none is bad.
fn bad_merged(alloc: Global, sample: &Sample) -> Result<Vec<u8>, Fail> {
    let table = table(alloc, sample)?;
    text_of_found(alloc, bad_merging(alloc, &table, 1, MAX_PARTITIONS)?)
}

// Each sample with the bad one of slot b beside its source, that of slot b alone, to which a block
// of the source and an unmarked partition are no matter, and that of slot b apart from its source,
// of which it may have no block.
const TARGETS: [(&Sample, [&[u8]; 3]); 8] = [
    (&TARGET, [b"", b"", b"system_b"]),
    (&SOURCE_BLOCK, [b"vendor_b", b"", b"system_b"]),
    (&UNMARKED, [b"system_b", b"", b"system_b"]),
    (
        &STORE_GROUP,
        [b"vendor_b-cow", b"vendor_b-cow", b"system_b"],
    ),
    (&ORPHAN, [b"other_b-cow", b"other_b-cow", b"system_b"]),
    (&STORE_FIRST, [b"vendor_b", b"vendor_b", b"system_b"]),
    (&APART, [b"vendor_b", b"", b""]),
    (&APART_UNMARKED, [b"system_b", b"", b"vendor_b"]),
];

#[test]
fn the_first_bad_one_of_a_target_is_named(rt: HostRuntime) -> Result<(), Fail> {
    for (sample, bad) in TARGETS {
        assert!(rt; bad_beside(rt.alloc(), sample, false)?.as_slice() == bad[0]);
    }
    Ok(())
}

#[test]
fn the_first_bad_one_of_a_target_apart_is_named(rt: HostRuntime) -> Result<(), Fail> {
    for (sample, bad) in TARGETS {
        assert!(rt; bad_beside(rt.alloc(), sample, true)?.as_slice() == bad[2]);
    }
    Ok(())
}

#[test]
fn the_first_bad_one_of_a_merged_slot_is_named(rt: HostRuntime) -> Result<(), Fail> {
    for (sample, bad) in TARGETS {
        assert!(rt; bad_merged(rt.alloc(), sample)?.as_slice() == bad[1]);
    }
    Ok(())
}

// A table of these groups, each with its limit, and a block device of so many bytes.
fn with_groups(alloc: Global, groups: &[(&[u8], u64)], size: u64) -> Result<Table, Fail> {
    let mut all = Vec::new(alloc);
    for (text, maximum_size) in groups {
        let name = Name36::parse(text).ok().ok_or("a name")?;
        all.push(Group {
            name,
            flags: 0,
            maximum_size: *maximum_size,
        })?;
    }
    let mut devices = Vec::new(alloc);
    devices.push(BlockDevice {
        first_logical_sector: 2048,
        alignment: 0,
        alignment_offset: 0,
        size,
        partition_name: Name36::parse(b"super").ok().ok_or("a name")?,
        flags: 0,
    })?;
    Ok(Table {
        partitions: Listing::from_vec(Vec::new(alloc)),
        extents: Listing::from_vec(Vec::new(alloc)),
        groups: Listing::from_vec(all),
        devices: Listing::from_vec(devices),
        minor: 2,
        flags: 0,
    })
}

const SOURCE_GROUPS: [(&[u8], u64); 3] = [(b"one_a", 8), (b"cow", 0), (b"two_a", 16)];

// Whether slot b's groups are the twins of slot a's, and the device of that size is the source's of
// 1 MiB.
fn beside(alloc: Global, groups: &[(&[u8], u64)], size: u64) -> Result<(bool, bool), Fail> {
    let source = with_groups(alloc, &SOURCE_GROUPS, 1 << 20)?;
    let target = with_groups(alloc, groups, size)?;
    Ok((
        has_twins(&source, &target, 1),
        same_device(&source, &target),
    ))
}

// Groups of slot b, and whether they are twins.
const TWINS: [([(&[u8], u64); 3], bool); 5] = [
    ([(b"one_b", 8), (b"two_b", 16), (b"cow", 0)], true),
    ([(b"two_b", 16), (b"one_b", 8), (b"cow", 0)], false),
    ([(b"one_b", 8), (b"two_b", 17), (b"cow", 0)], false),
    ([(b"one_b", 8), (b"two_a", 16), (b"cow", 0)], false),
    ([(b"one_b", 8), (b"two_b", 16), (b"three_b", 0)], false),
];

#[test]
fn twins_have_one_name_one_limit_and_one_order(rt: HostRuntime) -> Result<(), Fail> {
    for (groups, twins) in TWINS {
        assert!(rt; beside(rt.alloc(), &groups, 1 << 20)? == (twins, true));
    }
    let (_, same) = beside(rt.alloc(), &SOURCE_GROUPS, 1 << 21)?;
    assert!(rt; !same);
    Ok(())
}
