// A merge that has ended is tidied when its device is opened: the table without stores, and then
// the mark.

use crate::devices::{SECTORS, device_of_one, reply_staged};
use crate::opening::{areas, control, opened, put, put_each, sector, with_store};
use crate::texts::FULL;
use std::alloc::Global;
use std::test::*;
use vab_bytes::Name36;
use vab_device::{Device, PhaseKind};
use vab_disk::{Disk, MemPort};
use vab_geometry::{Geometry, encode_geometry};
use vab_marks::{MarkPhase, UpdateMark, decode_mark, encode_mark};
use vab_model::{Command, Reply};
use vab_recover::start;
use vab_space::Chunk;

const MARK: u64 = 2048;

// The sectors that a tidying writes: the text in both copies of slot a's table, and the mark.
const WRITTEN: [u64; 5] = [4120, 4121, 4376, 4377, MARK];

// What the mark of a disk says.
fn mark_of(d: &mut MemPort) -> Option<UpdateMark> {
    decode_mark(&sector(d, MARK)?).ok()
}

fn idle(slot: usize) -> Option<UpdateMark> {
    Some(UpdateMark {
        phase: MarkPhase::Idle,
        slot,
        apart: false,
        overlaid: false,
        physical: false,
    })
}

// A disk on which a merge of slot b has ended, and nothing is pending.
fn merged(alloc: Global) -> Result<MemPort, Fail> {
    let mut d = device_of_one(alloc)?;
    let commands = [
        (Command::Begin, Reply::Done),
        (Command::Create(b"y_b", 8192), Reply::Done),
        (Command::Snapshot(b"x_b", 0), Reply::Done),
        (Command::Snapshot(b"y_b", 0), Reply::Done),
        (Command::Flash(b"x_b", Chunk::One), Reply::Done),
        (Command::Flash(b"y_b", Chunk::One), Reply::Done),
        (Command::Finish, Reply::Done),
        (Command::SetActive(1), Reply::Done),
        (Command::Boot, Reply::Booted(1)),
        (Command::Mark, Reply::Done),
        (Command::BeginMerge, Reply::Done),
        (Command::Merge(9), Reply::Merged),
    ];
    for (command, told) in commands {
        if reply_staged(alloc, &mut d, &command, Some(b"abd")) != Some(told) {
            return Err("a merge is made".into());
        }
    }
    Ok(d.next_run(Vec::new(alloc)))
}

// How many partitions and groups the kept table of a slot has, and the name of its last partition.
fn kept(device: &Device, slot: usize) -> Option<(usize, usize, Name36)> {
    let table = if slot == 0 {
        device.table_a.as_ref()?
    } else {
        device.table_b.as_ref()?
    };
    let partitions = table.partitions.as_slice();
    let last = partitions.last()?;
    Some((partitions.len(), table.groups.as_slice().len(), last.name))
}

fn name(text: &[u8]) -> Result<Name36, Fail> {
    Ok(Name36::parse(text).ok().ok_or("it is a name")?)
}

// Gives each sector that was pending when a run was cut its settled bytes.
fn lose(d: &mut MemPort) -> Result<(), Fail> {
    for at in WRITTEN {
        if at < d.sectors() {
            let settled = d.settled_sector(at);
            if !put(d, at, &settled) {
                return Err("the sector is written".into());
            }
        }
    }
    Ok(())
}

// Whether the device of a disk is slot b's, with two partitions and two groups and no update, and
// the mark says so.
fn is_tidied(alloc: Global, d: &mut MemPort) -> Result<bool, Fail> {
    let last = name(b"y_b")?;
    let device = opened(alloc, d)?;
    let is_idle = device.phase() == PhaseKind::Idle;
    let has_table = kept(&device, 1) == Some((2, 2, last));
    Ok(is_idle && has_table && mark_of(d) == idle(1))
}

#[test]
fn a_merge_that_has_ended_is_tidied_once(rt: HostRuntime) -> Result<(), Fail> {
    let alloc = rt.alloc();
    let mut d = merged(alloc)?;
    let completed = UpdateMark {
        phase: MarkPhase::Completed,
        slot: 1,
        apart: false,
        overlaid: false,
        physical: false,
    };
    assert!(rt; mark_of(&mut d) == Some(completed));
    // The table is stored, each copy with its syncs, and the mark by one gate.
    assert!(rt; is_tidied(alloc, &mut d)? && d.syncs() > 1);
    // Once more nothing is written, and nothing is synced.
    let mut d = d.next_run(Vec::new(alloc));
    d.stop_after(1);
    assert!(rt; is_tidied(alloc, &mut d)? && d.syncs() == 0);
    Ok(())
}

// A disk on which a merge of slot a has ended, and nothing is pending.
fn ended(alloc: Global) -> Result<MemPort, Fail> {
    let mut d = with_store(alloc, MarkPhase::Completed, areas()[0])?;
    if d.sync().is_err() {
        return Err("the disk is synced".into());
    }
    Ok(d.next_run(Vec::new(alloc)))
}

// The blocks of a device, how many a partition of slot a has, and the sector of its first.
fn image_of(device: &Device) -> Option<(u64, u64, u64)> {
    let part = device.images(0)?.as_slice().first()?;
    if part.map.len() == 0 {
        return None;
    }
    Some((device.cap(), part.map.len(), part.map.sector_of(0)))
}

// Whether the device of a disk is that of slot a, without an update and without a store, and the
// mark says so.
fn is_ended(alloc: Global, d: &mut MemPort) -> Result<bool, Fail> {
    let last = name(b"system_a")?;
    let device = opened(alloc, d)?;
    let is_idle = device.phase() == PhaseKind::Idle;
    let has_image = image_of(&device) == Some((256, 100, 6144));
    let has_table = kept(&device, 0) == Some((1, 2, last));
    Ok(is_idle && has_image && has_table && mark_of(d) == idle(0))
}

// A tidying that is cut behind so many writes and syncs, and what was pending then has landed or
// not: whether it was done, and the port.
fn cut(alloc: Global, stop: u64, landed: bool) -> Result<(bool, MemPort), Fail> {
    let mut d = ended(alloc)?;
    d.stop_after(stop);
    let done = start(alloc, &mut d).is_ok();
    let mut d = d.next_run(Vec::new(alloc));
    if !landed {
        lose(&mut d)?;
    }
    Ok((done, d))
}

// Wherever it is cut, and whether what was pending then has landed or not, the device is the same,
// and it is tidied when it is opened next.
#[test]
fn a_tidying_that_is_cut_goes_on(rt: HostRuntime) -> Result<(), Fail> {
    let alloc = rt.alloc();
    for stop in 0..20 {
        let (_, mut lost) = cut(alloc, stop, false)?;
        assert!(rt; is_ended(alloc, &mut lost)?, "after {stop} calls");
        let (done, mut landed) = cut(alloc, stop, true)?;
        assert!(rt; is_ended(alloc, &mut landed)?, "after {stop} calls");
        if done {
            // It made more calls than that.
            assert!(rt; stop > 6, "after {stop} calls");
            return Ok(());
        }
    }
    Err("a tidying comes to its end".into())
}

#[test]
fn a_table_that_would_not_fit_is_left(rt: HostRuntime) -> Result<(), Fail> {
    let alloc = rt.alloc();
    let d = MemPort::new(alloc, SECTORS, Vec::new(alloc));
    let mut d = d.ok().ok_or("there is memory for a disk")?;
    let geometry = encode_geometry(&Geometry { max: 512, slots: 2 });
    let completed = encode_mark(&UpdateMark {
        phase: MarkPhase::Completed,
        slot: 0,
        apart: false,
        overlaid: false,
        physical: false,
    });
    let sectors = [
        (4, control(0, 15, true)),
        (MARK, completed),
        (4104, geometry),
        (4112, geometry),
        (4120, FULL),
        (4122, FULL),
    ];
    put_each(&mut d, &sectors)?;
    assert!(rt; d.sync().is_ok());
    let mut d = d.next_run(Vec::new(alloc));
    let device = opened(alloc, &mut d)?;
    assert!(rt; kept(&device, 0) == Some((2, 3, name(b"system_a-cow")?)));
    assert!(rt; sector(&mut d, 4120) == Some(FULL) && sector(&mut d, 4122) == Some(FULL));
    // The mark alone is written.
    assert!(rt; mark_of(&mut d) == idle(0));
    assert!(rt; d.syncs() == 1);
    Ok(())
}
