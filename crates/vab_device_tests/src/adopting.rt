// Disks without their heads, which are adopted.

use crate::devices::{SECTORS, device_of_one};
use std::alloc::Global;
use std::test::*;
use vab_adopt::{AdoptFault, Adopted, adopt_device};
use vab_device::StartFault;
use vab_disk::{Blend, Disk, MemPort};
use vab_marks::{MarkPhase, UpdateMark, encode_mark};
use vab_recover::probe;

const CONTROL: u64 = 4;

const MARK: u64 = 2048;

// One image of one block, of the blocks behind the first megabyte of `super`.
const ONE: Adopted = Adopted {
    images: 1,
    blocks: 1,
    cap: (SECTORS - 6144) / 8,
    dropped: None,
};

// The disk of a device of one image, without its mark and its boot control.
fn headless(alloc: Global) -> Result<MemPort, Fail> {
    let mut d = device_of_one(alloc)?;
    for at in [CONTROL, MARK] {
        if at < d.sectors() {
            d.write_sector(at, &[0u8; 512])
                .ok()
                .ok_or("a sector is written")?;
        }
    }
    d.sync().ok().ok_or("a disk is synced")?;
    Ok(d.next_run(Vec::new(alloc)))
}

#[test]
fn a_disk_without_its_heads_is_adopted_once(rt: HostRuntime) -> Result<(), Fail> {
    let alloc = rt.alloc();
    let mut d = headless(alloc)?;
    assert!(rt; probe(alloc, &mut d).is_err());
    let refused = Err(AdoptFault::NoDevice(StartFault::BadTable(1)));
    assert!(rt; adopt_device(alloc, &mut d, 1) == refused);
    assert!(rt; adopt_device(alloc, &mut d, 0) == Ok(ONE));
    assert!(rt; probe(alloc, &mut d).is_ok());
    assert!(rt; adopt_device(alloc, &mut d, 0) == Err(AdoptFault::AlreadyDevice));
    Ok(())
}

#[test]
fn a_disk_without_a_super_is_not_adopted(rt: HostRuntime) -> Result<(), Fail> {
    let alloc = rt.alloc();
    let small = MemPort::new(alloc, 4119, Vec::new(alloc));
    let mut small = small.ok().ok_or("there is memory for a disk")?;
    let few = adopt_device(alloc, &mut small, 0);
    assert!(rt; few == Err(AdoptFault::NoDevice(StartFault::TooSmall(4120, 4119))));
    let blank = MemPort::new(alloc, SECTORS, Vec::new(alloc));
    let mut blank = blank.ok().ok_or("there is memory for a disk")?;
    let none = adopt_device(alloc, &mut blank, 0);
    assert!(rt; none == Err(AdoptFault::NoDevice(StartFault::BadGeometry)));
    Ok(())
}

// What is answered where this mark stood on the disk.
fn adopted_over(alloc: Global, mark: UpdateMark) -> Result<Adopted, Fail> {
    let mut d = headless(alloc)?;
    if mark.slot < 2 && !mark.apart && !mark.overlaid && MARK < d.sectors() {
        d.write_sector(MARK, &encode_mark(&mark))
            .ok()
            .ok_or("a sector is written")?;
    }
    match adopt_device(alloc, &mut d, 0) {
        Ok(adopted) => Ok(adopted),
        Err(_) => Err("a disk is adopted".into()),
    }
}

#[test]
fn an_update_that_is_dropped_is_answered(rt: HostRuntime) -> Result<(), Fail> {
    let alloc = rt.alloc();
    for (phase, slot, is_dropped) in [
        (MarkPhase::Idle, 0, false),
        (MarkPhase::Installing, 1, true),
        (MarkPhase::Staged, 0, true),
        (MarkPhase::Merging, 1, true),
        (MarkPhase::Completed, 0, false),
    ] {
        let mark = UpdateMark {
            phase,
            slot,
            apart: false,
            overlaid: false,
            physical: false,
        };
        let dropped = if is_dropped { Some(mark) } else { None };
        let adopted = adopted_over(alloc, mark)?;
        assert!(rt; adopted.dropped == dropped);
        assert!(rt; adopted.images == 1);
    }
    Ok(())
}

#[test]
fn a_cut_leaves_no_device_or_the_adopted_one(rt: HostRuntime) -> Result<(), Fail> {
    let alloc = rt.alloc();
    for stop in 0..7u64 {
        for blend in [Blend::Old, Blend::New, Blend::Even, Blend::Odd] {
            let mut d = headless(alloc)?;
            d.stop_after(stop);
            let adopted = adopt_device(alloc, &mut d, 0);
            let left = d.outcome(blend);
            let mut left = left.ok().ok_or("there is memory for a disk")?;
            let is_device = probe(alloc, &mut left).is_ok();
            assert!(rt; is_device || stop < 6);
            assert!(rt; adopted.is_ok() == (stop >= 6));
            assert!(rt; is_device || adopt_device(alloc, &mut left, 0) == Ok(ONE));
        }
    }
    Ok(())
}
