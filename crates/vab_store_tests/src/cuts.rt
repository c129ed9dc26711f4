// What cuts of a turn leave.
use crate::pair::{Pair, image};
use std::alloc::Global;
use std::test::*;
use vab_disk::{Disk, MemPort};
use vab_merge::{Ran, turn};
use vab_space::Chunk;

// A sector that is pending, with its settled bytes and those that were written.
#[derive(Clone, Copy)]
struct Pending {
    at: u64,
    settled: [u8; 512],
    written: [u8; 512],
}

// The pending sectors whose settled bytes are others than those that a read gives.
fn pending_sectors(alloc: Global, d: &mut MemPort) -> Result<Vec<Pending>, Fail> {
    let mut found = Vec::new(alloc);
    for at in 0..d.sectors() {
        let mut written = [0; 512];
        if at >= d.sectors() || d.read_sector(at, &mut written).is_err() || at >= d.sectors() {
            return Err("a sector is read")?;
        }
        let settled = d.settled_sector(at);
        if settled != written {
            found.push(Pending {
                at,
                settled,
                written,
            })?;
        }
    }
    Ok(found)
}

// Lays a blend of the pending sectors: the written bytes where the blend has a bit, else the
// settled ones.
fn lay(d: &mut MemPort, pending: &[Pending], blend: u32) -> bool {
    let mut left = blend;
    for sector in pending {
        let bytes = if left % 2 == 1 {
            &sector.written
        } else {
            &sector.settled
        };
        if sector.at >= d.sectors() || d.write_sector(sector.at, bytes).is_err() {
            return false;
        }
        left /= 2;
    }
    true
}

// Merges the last exception, and answers how many are left.
fn turned(alloc: Global, d: &mut MemPort, pair: &Pair) -> Option<(Ran, u64)> {
    let mut view = pair.scan(alloc, d)?;
    if !pair.lies_on(d) {
        return None;
    }
    match turn(d, &pair.base, &pair.store, &mut view, pair.chunk) {
        Ok(ran) => Some((ran, view.count())),
        Err(_) => None,
    }
}

// Blocks 1 and 2 of four stand in a store.
fn written(alloc: Global, pair: &Pair) -> Result<MemPort, Fail> {
    let mut d = pair.disk(alloc)?;
    let image = image(alloc, 4, 4096)?;
    if !pair.write(&mut d, &[1, 2], &image) {
        return Err("the store is written")?;
    }
    Ok(d)
}

#[test]
fn a_turn_merges_the_last_exception_until_none_is_left(rt: HostRuntime) -> Result<(), Fail> {
    let alloc = rt.alloc();
    let pair = Pair::new(alloc, 4, 4, Chunk::One)?;
    let d = written(alloc, &pair)?;
    let mut d = d.next_run(Vec::new(alloc));
    for (ran, left, syncs) in [
        (Ran::Merged(1), 1, 2u64),
        (Ran::Merged(1), 0, 4),
        (Ran::Empty, 0, 4),
    ] {
        assert_eq!(rt; turned(alloc, &mut d, &pair), Some((ran, left)));
        assert_eq!(rt; pair.count(alloc, &mut d, &[0, 1, 2, 0], 4096), Some(left));
        assert_eq!(rt; d.syncs(), syncs);
    }
    Ok(())
}

// The calls are: the eight sectors of the block, sync, the sector of its entry, sync.
#[test]
fn no_blend_of_a_cut_turn_changes_a_block(rt: HostRuntime) -> Result<(), Fail> {
    let alloc = rt.alloc();
    let pair = Pair::new(alloc, 4, 4, Chunk::One)?;
    for (stop, sectors, blends) in [
        (0, 0, 1),
        (1, 1, 2),
        (2, 2, 4),
        (3, 3, 8),
        (4, 4, 16),
        (5, 5, 32),
        (6, 6, 64),
        (7, 7, 128),
        (8, 8, 256),
        (9, 0, 1),
        (10, 1, 2u32),
    ] {
        let mut d = written(alloc, &pair)?.next_run(Vec::new(alloc));
        d.stop_after(stop);
        assert!(rt; turned(alloc, &mut d, &pair).is_none());
        let mut d = d.next_run(Vec::new(alloc));
        let pending = pending_sectors(alloc, &mut d)?;
        assert_eq!(rt; pending.len(), sectors, "after {stop} calls");
        for blend in 0..blends {
            assert!(rt; lay(&mut d, &pending, blend));
            // The entry is gone once its sector has landed.
            let left = if stop == 10 && blend == 1 { 1 } else { 2 };
            let count = pair.count(alloc, &mut d, &[0, 1, 2, 0], 4096);
            assert_eq!(rt; count, Some(left), "after {stop} calls, blend {blend}");
        }
    }
    Ok(())
}

// Chunks 0 and 1, which are a run, stand in a store. The first sector of each of their blocks holds
// the block's number.
fn written_run(alloc: Global, pair: &Pair, blocks: u8) -> Result<MemPort, Fail> {
    let mut d = pair.disk(alloc)?;
    let image = image(alloc, blocks, 512)?;
    if !pair.write(&mut d, &[0, 1], &image) {
        return Err("the store is written")?;
    }
    Ok(d.next_run(Vec::new(alloc)))
}

// Whether each block reads as it is wanted in each blend of what a run left that was cut behind so
// many calls. `entries` is the call that zeroes the entries.
fn holds_when_cut(
    alloc: Global,
    pair: &Pair,
    wanted: &[u8],
    stop: u64,
    entries: u64,
) -> Result<bool, Fail> {
    let mut d = written_run(alloc, pair, wanted.len().min(255) as u8)?;
    d.stop_after(stop);
    if pair.merge(alloc, &mut d, 2).is_some() {
        return Ok(false);
    }
    let mut d = d.next_run(Vec::new(alloc));
    let pending = pending_sectors(alloc, &mut d)?;
    for blend in 0..1u32 << pending.len().min(10) {
        // The entries are gone once their sector has landed.
        let left = if stop == entries && blend == 1 { 0 } else { 2 };
        if !lay(&mut d, &pending, blend) || pair.count(alloc, &mut d, wanted, 512) != Some(left) {
            return Ok(false);
        }
    }
    Ok(true)
}

// The first cut of a run behind which it isn't so. The calls are: the sectors of the blocks, sync,
// the sector of the entries, sync.
fn lost_when_cut(
    alloc: Global,
    pair: &Pair,
    wanted: &[u8],
    sectors: u32,
) -> Result<Option<u64>, Fail> {
    let entries = u64::from(sectors) + 2;
    for stop in 0..=entries {
        if !holds_when_cut(alloc, pair, wanted, stop, entries)? {
            return Ok(Some(stop));
        }
    }
    Ok(None)
}

// The last chunk has one block of the partition.
#[test]
fn no_blend_of_a_cut_run_changes_a_block_in_chunks_of_two(rt: HostRuntime) -> Result<(), Fail> {
    let alloc = rt.alloc();
    let pair = Pair::new(alloc, 3, 8, Chunk::Two)?;
    let wanted = [0, 1, 2];
    assert_eq!(rt; lost_when_cut(alloc, &pair, &wanted, 24)?, None);
    let mut d = written_run(alloc, &pair, 3)?;
    assert_eq!(rt; pair.merge(alloc, &mut d, 2), Some((Ran::Merged(2), 0)));
    assert_eq!(rt; pair.count(alloc, &mut d, &wanted, 512), Some(0));
    Ok(())
}

// The last chunk has two.
#[test]
fn no_blend_of_a_cut_run_changes_a_block_in_chunks_of_four(rt: HostRuntime) -> Result<(), Fail> {
    let alloc = rt.alloc();
    let pair = Pair::new(alloc, 6, 16, Chunk::Four)?;
    let wanted = [0, 1, 2, 3, 4, 5];
    assert_eq!(rt; lost_when_cut(alloc, &pair, &wanted, 48)?, None);
    let mut d = written_run(alloc, &pair, 6)?;
    assert_eq!(rt; pair.merge(alloc, &mut d, 2), Some((Ran::Merged(2), 0)));
    assert_eq!(rt; pair.count(alloc, &mut d, &wanted, 512), Some(0));
    Ok(())
}
