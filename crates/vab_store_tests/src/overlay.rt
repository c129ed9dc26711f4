// Blocks that are written into a store over their partition.
ghost use Rattle.std.specs.Prelude.{IfSome};
ghost use Rattle.std.specs.List.Sorted.{IsStrictlyIncreasing};
ghost use Rattle.vab_space.specs.declared.Chunk.TheVariants.{One};
ghost use Rattle.vab_store.specs.View.{Fits};

use crate::pair::{Pair, ascending};
use std::alloc::Global;
use std::test::*;
use vab_disk::{Blend, Disk, MemPort};
use vab_overlay::{OverlayFault, overlay_write};
use vab_scan::scan;
use vab_space::Chunk;
use vab_store::StoreView;

// The exceptions of a store whose chunks are of one block.
fn scanned(alloc: Global, d: &mut MemPort, pair: &Pair) -> Option<StoreView>
    ensures { IfSome result (Fits One pair.now.blocks pair.now.store) }
{
    if !pair.lies_on(d) {
        return None;
    }
    scan(alloc, d, &pair.store, pair.blocks, Chunk::One).ok()
}

// Whether both lists are one.
fn are_same(a: &StoreView, b: &StoreView) -> bool {
    if a.count() != b.count() {
        return false;
    }
    for j in 0..a.count() {
        if a.at(j) != b.at(j) {
            return false;
        }
    }
    true
}

// What a write of a block of one byte answers.
fn attempt(
    d: &mut MemPort,
    pair: &Pair,
    view: &mut StoreView,
    block: u64,
    byte: u8,
) -> Option<Result<(), OverlayFault>>
    requires { Fits One pair.now.blocks pair.now.store view.old }
{
    if !pair.lies_on(d) || block >= pair.blocks {
        return None;
    }
    Some(overlay_write(d, &pair.store, view, block, &[byte; 4096]))
}

// What it answers, where the view is then what a scan gives.
fn write(
    alloc: Global,
    d: &mut MemPort,
    pair: &Pair,
    block: u64,
    byte: u8,
) -> Option<Result<(), OverlayFault>> {
    let mut view = scanned(alloc, d, pair)?;
    let result = attempt(d, pair, &mut view, block, byte)?;
    let now = scanned(alloc, d, pair)?;
    if are_same(&view, &now) {
        Some(result)
    } else {
        None
    }
}

// The old and the new chunk of each exception.
fn entries(alloc: Global, d: &mut MemPort, pair: &Pair) -> Result<Vec<(u64, u64)>, Fail> {
    let view = scanned(alloc, d, pair).ok_or("the store is scanned")?;
    let mut found = Vec::new(alloc);
    for j in 0..view.count() {
        let exception = view.at(j);
        found.push((exception.old_chunk, exception.new_chunk))?;
    }
    Ok(found)
}

/// A store with these exceptions, which ascend. Their blocks are filled with 7.
pub(crate) fn written(alloc: Global, pair: &Pair, olds: &[u64]) -> Result<MemPort, Fail>
    requires { IsStrictlyIncreasing olds.now }
{
    let mut d = pair.disk(alloc)?;
    if !pair.write(&mut d, olds, &[7; 8192]) {
        return Err("the store is written")?;
    }
    Ok(d.next_run(Vec::new(alloc)))
}

#[test]
fn a_block_gets_the_lowest_free_chunk_until_the_store_is_full(rt: HostRuntime) -> Result<(), Fail> {
    let alloc = rt.alloc();
    let pair = Pair::new(alloc, 10, 6, Chunk::One)?;
    let mut d = written(alloc, &pair, &[])?;
    for (block, byte, wanted) in [
        (5, 1, [(5, 2)].as_slice()),
        (5, 2, [(5, 3)].as_slice()),
        (9, 3, [(5, 3), (9, 2)].as_slice()),
        (0, 4, [(5, 3), (9, 2), (0, 4)].as_slice()),
        (1, 5, [(5, 3), (9, 2), (0, 4), (1, 5)].as_slice()),
    ] {
        assert_eq!(rt; write(alloc, &mut d, &pair, block, byte), Some(Ok(())));
        assert_eq!(rt; entries(alloc, &mut d, &pair)?.as_slice(), wanted);
    }
    for block in [2, 5] {
        let full = Some(Err(OverlayFault::Full(7, 6)));
        assert_eq!(rt; write(alloc, &mut d, &pair, block, 6), full);
    }
    let blocks = [4, 5, 0, 0, 0, 2, 0, 0, 0, 3];
    assert_eq!(rt; pair.count(alloc, &mut d, &blocks, 4096), Some(4));
    Ok(())
}

#[test]
fn a_block_that_is_written_often_has_one_exception(rt: HostRuntime) -> Result<(), Fail> {
    let alloc = rt.alloc();
    let pair = Pair::new(alloc, 2, 4, Chunk::One)?;
    let mut d = written(alloc, &pair, &[])?;
    for byte in 0..100u8 {
        assert_eq!(rt; write(alloc, &mut d, &pair, 1, byte), Some(Ok(())));
        let chunk = if byte % 2 == 0 { 2 } else { 3 };
        assert_eq!(rt;
            entries(alloc, &mut d, &pair)?.as_slice(),
            [(1, chunk)].as_slice()
        );
    }
    assert_eq!(rt; pair.count(alloc, &mut d, &[0, 99], 4096), Some(1));
    Ok(())
}

// The next page of the store is in the sectors from 4464 on. What it holds would be exceptions.
#[test]
fn a_page_that_is_filled_is_followed_by_an_empty_one(rt: HostRuntime) -> Result<(), Fail> {
    let alloc = rt.alloc();
    let pair = Pair::new(alloc, 300, 262, Chunk::One)?;
    let mut d = written(alloc, &pair, &[])?;
    assert_eq!(rt; d.sectors(), 4496);
    assert!(rt; d.write_sector(4464, &[1; 512]).is_ok());
    for block in 0..257 {
        assert_eq!(rt;
            write(alloc, &mut d, &pair, block, 8),
            Some(Ok(())),
            "of {block}"
        );
    }
    let found = entries(alloc, &mut d, &pair)?;
    assert_eq!(rt; found.len(), 257);
    let last = [(254, 256), (255, 257), (256, 259)];
    assert_eq!(rt; &found[254..], last.as_slice());
    Ok(())
}

// Exceptions of a store, and the byte that fills a block.
#[derive(Drop)]
struct Held {
    view: StoreView,
    byte: u8,
}

// Whether the store has these exceptions, and the block is filled with the byte.
fn holds(alloc: Global, d: &mut MemPort, pair: &Pair, held: &Held, block: u64) -> bool {
    match pair.scan(alloc, d) {
        Some(view) => {
            are_same(&view, &held.view) && pair.reads(d, &view, block, &[held.byte; 4096])
        }
        None => false,
    }
}

// Whether each blend of what a crash may leave holds that, or the other where it may be new.
fn blends_hold(
    alloc: Global,
    d: &MemPort,
    pair: &Pair,
    block: u64,
    old: &Held,
    new: &Held,
    may_be_new: bool,
) -> bool {
    for blend in [Blend::Old, Blend::New, Blend::Even, Blend::Odd] {
        let held = match d.outcome(blend) {
            Ok(mut left) => {
                holds(alloc, &mut left, pair, old, block)
                    || (may_be_new && holds(alloc, &mut left, pair, new, block))
            }
            Err(_) => false,
        };
        if !held {
            return false;
        }
    }
    true
}

// Whether it is so behind a write that is cut behind so many calls, and its view the old one.
fn holds_when_cut(
    alloc: Global,
    d: &mut MemPort,
    pair: &Pair,
    block: u64,
    old: &Held,
    new: &Held,
    stop: u64,
    calls: u64,
) -> bool {
    let mut view = match scanned(alloc, d, pair) {
        Some(view) => view,
        None => return false,
    };
    d.stop_after(stop);
    attempt(d, pair, &mut view, block, 9) == Some(Err(OverlayFault::DiskFault))
        && are_same(&view, &old.view)
        && blends_hold(
            alloc,
            d,
            pair,
            block,
            old,
            new,
            stop.saturating_add(1) >= calls,
        )
}

// The first cut of a write of so many calls behind which it isn't so. The last but one of them
// writes the entry.
fn lost_when_cut(
    alloc: Global,
    pair: &Pair,
    olds: &[u64],
    block: u64,
    was: u8,
    calls: u64,
) -> Result<Option<u64>, Fail>
    requires { IsStrictlyIncreasing olds.now }
{
    let mut d = written(alloc, pair, olds)?;
    let view = scanned(alloc, &mut d, pair).ok_or("the store is scanned")?;
    let old = Held { view, byte: was };
    if write(alloc, &mut d, pair, block, 9) != Some(Ok(())) {
        return Ok(Some(calls));
    }
    let view = scanned(alloc, &mut d, pair).ok_or("the store is scanned")?;
    let new = Held { view, byte: 9 };
    for stop in 0..calls {
        let mut d = written(alloc, pair, olds)?;
        if !holds_when_cut(alloc, &mut d, pair, block, &old, &new, stop, calls) {
            return Ok(Some(stop));
        }
    }
    Ok(None)
}

// The calls are: the eight sectors of the block, sync, the sector of the entry, sync.
#[test]
fn no_blend_of_a_cut_write_has_a_part_of_a_block(rt: HostRuntime) -> Result<(), Fail> {
    let alloc = rt.alloc();
    let pair = Pair::new(alloc, 4, 6, Chunk::One)?;
    for (block, was) in [(1, 7), (3, 0)] {
        let lost = lost_when_cut(alloc, &pair, &[0, 1], block, was, 11)?;
        assert_eq!(rt; lost, None, "of {block}");
    }
    Ok(())
}

// With the eight sectors of the next page before the first sync.
#[test]
fn no_blend_of_a_cut_write_opens_the_next_page(rt: HostRuntime) -> Result<(), Fail> {
    let alloc = rt.alloc();
    let pair = Pair::new(alloc, 256, 260, Chunk::One)?;
    let olds = ascending(alloc, 0, 255)?;
    assert_eq!(rt; lost_when_cut(alloc, &pair, &olds, 255, 0, 19)?, None);
    Ok(())
}
