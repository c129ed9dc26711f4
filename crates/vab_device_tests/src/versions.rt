// A device whose mark has version 1 goes on with version 2 when it is opened: its statuses are
// kept, those that version 2 adds are none, and then the mark is written.

use crate::opening::{areas, opened, put, put_each, sector, with_store};
use std::alloc::Global;
use std::test::*;
use vab_device::{Device, PartImage, PhaseKind, StartFault};
use vab_disk::{Disk, MemPort};
use vab_marks::{MarkPhase, MarkVersion, UpdateMark, decode_mark};
use vab_recover::start;

const MARK: u64 = 2048;

// The first status that version 2 adds, and the sector behind the last.
const ADDED: u64 = 2081;

const BEHIND: u64 = 2113;

const OTHER: [u8; 512] = [0xa5; 512];

// The mark of a merge of slot a, of this version and with this sum.
fn merging(version: u8, sum: [u8; 4]) -> [u8; 512] {
    let mut bytes = [0u8; 512];
    bytes[..8].copy_from_slice(b"VABU\0\x03\0\0");
    bytes[4] = version;
    bytes[508..].copy_from_slice(&sum);
    bytes
}

// A disk in the middle of a merge of slot a whose mark has version 1, with other bytes in the
// sectors that version 2 adds, and behind them. Nothing is pending.
fn old(alloc: Global) -> Result<MemPort, Fail> {
    let mut d = with_store(alloc, MarkPhase::Merging, areas()[2])?;
    let sectors = [
        (MARK, merging(1, [0xfb, 0x0b, 0x32, 0x9a])),
        (ADDED, OTHER),
        (2100, OTHER),
        (BEHIND - 1, OTHER),
        (BEHIND, OTHER),
    ];
    put_each(&mut d, &sectors)?;
    if d.sync().is_err() {
        return Err("the disk is synced".into());
    }
    Ok(d.next_run(Vec::new(alloc)))
}

// How many exceptions are left in the store of slot a's partition, while slot a is merged.
fn left(device: &Device) -> Option<u64> {
    if device.phase() != PhaseKind::Merging(0) {
        return None;
    }
    match &device.images(0)?.as_slice().first()?.image {
        PartImage::Written(_, view) => Some(view.count()),
        PartImage::Kept | PartImage::Declared => None,
    }
}

// The version of the disk's mark, where it is that of a merge of slot a.
fn version(d: &mut MemPort) -> Option<MarkVersion> {
    let merging = UpdateMark {
        phase: MarkPhase::Merging,
        slot: 0,
        apart: false,
        overlaid: false,
        physical: false,
    };
    let bytes = sector(d, MARK)?;
    if decode_mark(&bytes) == Ok(merging) {
        Some(MarkVersion::of_mark(&bytes))
    } else {
        None
    }
}

// Whether the sectors that version 2 adds are all zeros.
fn are_none(d: &mut MemPort) -> bool {
    for at in ADDED..BEHIND {
        if sector(d, at) != Some([0; 512]) {
            return false;
        }
    }
    true
}

#[test]
fn a_device_of_version_1_goes_on_with_version_2(rt: HostRuntime) -> Result<(), Fail> {
    let alloc = rt.alloc();
    let mut d = old(alloc)?;
    assert!(rt; version(&mut d) == Some(MarkVersion::One));
    let before = sector(&mut d, 2049);
    let device = opened(alloc, &mut d)?;
    assert!(rt; left(&device) == Some(2));
    assert!(rt; version(&mut d) == Some(MarkVersion::Two) && are_none(&mut d));
    assert!(rt; sector(&mut d, 2049) == before && sector(&mut d, BEHIND) == Some(OTHER));
    // Once more nothing is written, and nothing is synced.
    let mut d = d.next_run(Vec::new(alloc));
    d.stop_after(1);
    let device = opened(alloc, &mut d)?;
    assert!(rt; left(&device) == Some(2) && d.syncs() == 0);
    Ok(())
}

// Gives the mark, where it was pending when a run was cut, its settled bytes.
fn lose_mark(d: &mut MemPort) -> Result<(), Fail> {
    if MARK < d.sectors() {
        let settled = d.settled_sector(MARK);
        if put(d, MARK, &settled) {
            return Ok(());
        }
    }
    Err("the mark is written".into())
}

// Wherever it is cut, also where nothing of what was pending then has landed, the device is the
// same, and where its mark has version 2 the added statuses are none.
#[test]
fn a_migration_that_is_cut_goes_on(rt: HostRuntime) -> Result<(), Fail> {
    let alloc = rt.alloc();
    for stop in 0..60 {
        for landed in [false, true] {
            let mut d = old(alloc)?;
            d.stop_after(stop);
            let done = start(alloc, &mut d).is_ok();
            let mut d = d.next_run(Vec::new(alloc));
            if !landed {
                lose_mark(&mut d)?;
            }
            if version(&mut d) == Some(MarkVersion::Two) {
                assert!(rt; are_none(&mut d), "after {stop} calls");
            } else {
                assert!(rt;
                    version(&mut d) == Some(MarkVersion::One),
                    "after {stop} calls"
                );
            }
            let device = opened(alloc, &mut d)?;
            assert!(rt; left(&device) == Some(2), "after {stop} calls");
            assert!(rt; version(&mut d) == Some(MarkVersion::Two) && are_none(&mut d));
            if done {
                // 32 sectors and a sync, the mark and a sync.
                assert!(rt; stop == 35, "after {stop} calls");
                return Ok(());
            }
        }
    }
    Err("a migration comes to its end".into())
}

#[test]
fn a_mark_of_another_version_is_no_device(rt: HostRuntime) -> Result<(), Fail> {
    let alloc = rt.alloc();
    for (version, sum) in [(0, [0, 0, 0, 0]), (3, [0xc1, 0xe1, 0x53, 0x82])] {
        let mut d = old(alloc)?;
        assert!(rt; put(&mut d, MARK, &merging(version, sum)));
        let found = start(alloc, &mut d).map(|_| ());
        assert!(rt;
            found == Err(StartFault::BadMark(2048)),
            "version {version}"
        );
        assert!(rt; sector(&mut d, ADDED) == Some(OTHER));
    }
    Ok(())
}
