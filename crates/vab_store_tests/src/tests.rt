ghost use Rattle.std.specs.Prelude.{◌≡◌, ◌+◌, ◌*◌, ◌<◌, ◌^◌};

use crate::pair::{Pair, ascending, image, partition};
use std::alloc::Global;
use std::marker::Brand;
use std::sync::ledger::{Blank, Ledger};
use std::test::*;
use vab_disk::{Disk, MemPort};
use vab_exceptions::{HeaderFault, encode_store_header};
use vab_merge::Ran;
use vab_scan::scan;
use vab_space::Chunk;
use vab_store::{Steps, StoreFault, StoreView};

fn put(d: &mut MemPort, at: u64, from: &[u8; 512]) -> bool {
    at < d.sectors() && d.write_sector(at, from).is_ok()
}

// Blocks 10 to 59 hold their numbers.
fn wanted() -> [u8; 100] {
    let mut bytes = [0; 100];
    for block in 10..60usize {
        bytes[block] = block as u8;
    }
    bytes
}

#[test]
fn a_cut_while_entries_are_zeroed_changes_no_block(rt: HostRuntime) -> Result<(), Fail> {
    let alloc = rt.alloc();
    let pair = Pair::new(alloc, 100, 60, Chunk::One)?;
    let mut d = pair.disk(alloc)?;
    let image = image(alloc, 100, 4096)?;
    let olds = ascending(alloc, 10, 50)?;
    let wanted = wanted();
    assert!(rt; pair.write(&mut d, &olds, &image));
    assert_eq!(rt; pair.count(alloc, &mut d, &wanted, 4096), Some(50));
    assert_eq!(rt; d.sectors(), 1280);
    let full = [d.settled_sector(808), d.settled_sector(809)];
    let syncs = d.syncs();
    let ran = pair.merge(alloc, &mut d, 40);
    assert_eq!(rt; ran, Some((Ran::Merged(40), 10)));
    assert_eq!(rt; d.syncs().wrapping_sub(syncs), 2);
    assert_eq!(rt; pair.count(alloc, &mut d, &wanted, 4096), Some(10));
    assert_eq!(rt; d.sectors(), 1280);
    let cleared = d.settled_sector(808);
    // Only the second sector landed.
    assert!(rt; put(&mut d, 808, &full[0]));
    assert_eq!(rt; pair.count(alloc, &mut d, &wanted, 4096), Some(32));
    // Only the first did.
    assert!(rt; put(&mut d, 808, &cleared) && put(&mut d, 809, &full[1]));
    assert_eq!(rt; pair.count(alloc, &mut d, &wanted, 4096), Some(10));
    Ok(())
}

// With chunks of one block the last four exceptions of 260 stand in a second area, with chunks of
// two all of them stand in one.
#[test]
fn a_run_ends_where_its_area_does(rt: HostRuntime) -> Result<(), Fail> {
    let alloc = rt.alloc();
    let olds = ascending(alloc, 0, 260)?;
    for (chunk, blocks, room, ran, left) in [
        (Chunk::One, 260, 263, 4, 256),
        (Chunk::Two, 520, 524, 260, 0u64),
    ] {
        let pair = Pair::new(alloc, blocks, room, chunk)?;
        let mut d = pair.disk(alloc)?;
        assert!(rt; pair.write(&mut d, &olds, &[7]));
        let merged = pair.merge(alloc, &mut d, 300);
        assert_eq!(rt; merged, Some((Ran::Merged(ran), left)));
        assert_eq!(rt; pair.count(alloc, &mut d, &[7, 0], 1), Some(left));
    }
    Ok(())
}

#[test]
fn exceptions_get_their_chunks_in_order(rt: HostRuntime) -> Result<(), Fail> {
    let olds = ascending(rt.alloc(), 0, 257)?;
    let view = StoreView::planned(rt.alloc(), &olds, Chunk::One);
    let view = view.ok().ok_or("there is memory for a view")?;
    assert_eq!(rt; view.count(), 257);
    assert!(rt; view.count() > 256 && view.at(256).new_chunk == 259);
    assert_eq!(rt; view.chunk_of(0), Some(2));
    assert_eq!(rt; view.chunk_of(255), Some(257));
    assert_eq!(rt; view.chunk_of(257), None);
    Ok(())
}

// What is found of an old chunk, and in how many comparisons.
fn found<L: Ledger>(view: &StoreView, old: u64, blank: Blank) -> (Option<u64>, u64)
    requires name { blank.name ≡ L.name }
    requires parts { blank.parts ≡ L.parts }
    requires some { 0 < L.parts }
{
    let mut steps = Steps::<L>::new(blank);
    let chunk = view.find(old, &mut steps);
    (chunk, steps.made())
}

#[test]
fn one_of_three_is_found_in_at_most_two_comparisons(rt: HostRuntime) -> Result<(), Fail> {
    let view = StoreView::planned(rt.alloc(), &[1, 5, 9], Chunk::One);
    let view = view.ok().ok_or("there is memory for a view")?;
    for (old, wanted) in [
        (5, (Some(3), 1)),
        (9, (Some(4), 2)),
        (1, (Some(2), 2)),
        (4, (None, 2)),
    ] {
        assert_eq!(rt;
            found::<Brand>(&view, old, Blank::new(1)),
            wanted,
            "of {old}"
        );
    }
    Ok(())
}

// What a scan of the partition from a sector on gives.
fn scanned(
    alloc: Global,
    d: &mut MemPort,
    first: u64,
    blocks: u64,
) -> Result<Result<u64, StoreFault>, Fail>
    requires { first + 8 * blocks < 2 ^ 60 }
{
    let store = partition(alloc, first, blocks)?;
    if first + 8 * blocks > d.sectors() {
        return Err("the partition is on the disk")?;
    }
    match scan(alloc, d, &store, 1000, Chunk::One) {
        Ok(view) => Ok(Ok(view.count())),
        Err(fault) => Ok(Err(fault)),
    }
}

#[test]
fn a_full_area_wants_another_behind_it(rt: HostRuntime) -> Result<(), Fail> {
    let alloc = rt.alloc();
    let pair = Pair::new(alloc, 1, 259, Chunk::One)?;
    let mut d = pair.disk(alloc)?;
    let no_store = scanned(alloc, &mut d, 8, 259)?;
    assert!(rt; no_store == Err(StoreFault::Header(HeaderFault::BadMagic)));
    let olds = ascending(alloc, 0, 256)?;
    assert!(rt; pair.write(&mut d, &olds, &[7]));
    let whole = scanned(alloc, &mut d, 8, 259)?;
    assert!(rt; whole == Ok(256));
    let short = scanned(alloc, &mut d, 8, 258)?;
    assert!(rt; short == Err(StoreFault::Unended));
    let one_chunk = scanned(alloc, &mut d, 8, 1)?;
    assert!(rt; one_chunk == Err(StoreFault::Unended));
    Ok(())
}

// Its header is judged first.
#[test]
fn a_store_of_less_than_two_chunks_has_no_end(rt: HostRuntime) -> Result<(), Fail> {
    let alloc = rt.alloc();
    for (chunk, room) in [(Chunk::Two, 3), (Chunk::Four, 2), (Chunk::Four, 7)] {
        let pair = Pair::new(alloc, 1, room, chunk)?;
        let mut d = pair.disk(alloc)?;
        let none = Some(StoreFault::Header(HeaderFault::BadMagic));
        assert_eq!(rt; pair.fault(alloc, &mut d), none);
        assert!(rt; put(&mut d, 8, &encode_store_header(chunk)));
        assert_eq!(rt; pair.fault(alloc, &mut d), Some(StoreFault::Unended));
    }
    Ok(())
}

// Two entries, of an old chunk and a new chunk each, in an area's first sector.
fn sector_of(entries: [(u64, u64); 2]) -> [u8; 512] {
    let mut bytes = [0; 512];
    let [(first_old, first_new), (second_old, second_new)] = entries;
    bytes[..8].copy_from_slice(&first_old.to_le_bytes());
    bytes[8..16].copy_from_slice(&first_new.to_le_bytes());
    bytes[16..24].copy_from_slice(&second_old.to_le_bytes());
    bytes[24..32].copy_from_slice(&second_new.to_le_bytes());
    bytes
}

// The store of a partition of four blocks has six chunks, so that 2 to 5 hold data. Its area is in
// the sectors from 40 on.
#[test]
fn entries_that_are_none_are_refused(rt: HostRuntime) -> Result<(), Fail> {
    let alloc = rt.alloc();
    let pair = Pair::new(alloc, 4, 6, Chunk::One)?;
    let mut d = pair.disk(alloc)?;
    let olds = ascending(alloc, 0, 2)?;
    assert!(rt; pair.write(&mut d, &olds, &image(alloc, 4, 4096)?));
    for (entries, fault) in [
        ([(4, 2), (1, 3)], StoreFault::BadChunk(0)),
        ([(0, 1), (1, 3)], StoreFault::BadChunk(0)),
        ([(0, 6), (1, 3)], StoreFault::BadChunk(0)),
        ([(0, 2), (1, 6)], StoreFault::BadChunk(1)),
        ([(0, 2), (1, 2)], StoreFault::Repeated(0, 1)),
        ([(3, 2), (3, 3)], StoreFault::Repeated(0, 1)),
    ] {
        assert!(rt; put(&mut d, 40, &sector_of(entries)));
        assert_eq!(rt; pair.fault(alloc, &mut d), Some(fault), "{entries:?}");
    }
    Ok(())
}
