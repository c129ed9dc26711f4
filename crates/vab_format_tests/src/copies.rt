// Texts in two copies on a disk in memory.

use std::alloc::Global;
use std::test::*;
use vab_copies::{read_text, rewrite_copy, store_copies, write_copy};
use vab_disk::{Disk, MemPort};

// A disk of twelve sectors: copies of three stand in sectors 2 to 4 and 6 to 8.
fn port(alloc: Global) -> Result<MemPort, Fail> {
    let port = MemPort::new(alloc, 12, Vec::new(alloc));
    Ok(port.ok().ok_or("there is memory for a disk")?)
}

fn store(d: &mut MemPort, text: &[u8]) -> bool {
    d.sectors() == 12 && store_copies(d, 2, 6, 3, text).is_ok()
}

fn write(d: &mut MemPort, text: &[u8]) -> bool {
    d.sectors() == 12 && write_copy(d, 6, 3, text).is_ok()
}

fn rewrite(d: &mut MemPort, text: &[u8]) -> bool {
    d.sectors() == 12 && rewrite_copy(d, 6, 3, text).is_ok()
}

// The bytes of three sectors.
fn copy_at(alloc: Global, d: &mut MemPort, at: u64) -> Result<Vec<u8>, Fail> {
    if at > 9 || d.sectors() != 12 {
        return Ok(Vec::new(alloc));
    }
    Ok(read_text(alloc, d, at, 3).ok().ok_or("a copy is read")?)
}

// Whether a copy holds so many bytes of a kind, and zeros behind them.
fn holds(copy: &[u8], count: usize, byte: u8) -> bool {
    copy.len() == 1536
        && copy
            .iter()
            .enumerate()
            .all(|(i, b)| *b == if i < count { byte } else { 0 })
}

#[test]
fn both_copies_hold_the_text_and_zeros_behind_it(rt: HostRuntime) -> Result<(), Fail> {
    let mut d = port(rt.alloc())?;
    assert!(rt; store(&mut d, &[9u8; 1536]));
    assert!(rt; store(&mut d, &[7u8; 1100]));
    for at in [2u64, 6] {
        let copy = copy_at(rt.alloc(), &mut d, at)?;
        assert!(rt; holds(&copy, 1100, 7));
    }
    Ok(())
}

// The first bytes of the first two sectors of the copy there.
fn firsts(alloc: Global, d: &mut MemPort, at: u64) -> Result<[u8; 2], Fail> {
    let copy = copy_at(alloc, d, at)?;
    match (copy.get(0), copy.get(512)) {
        (Some(first), Some(second)) => Ok([*first, *second]),
        _ => Err("a copy is read".into()),
    }
}

// A second text is cut behind so many writes and syncs: the first bytes of what is left.
fn cut(alloc: Global, stop: u64) -> Result<[u8; 4], Fail> {
    let mut d = port(alloc)?;
    if !store(&mut d, &[1u8; 1536]) {
        return Err("the first text is stored".into());
    }
    let mut d = d.next_run(Vec::new(alloc));
    d.stop_after(stop);
    if store(&mut d, &[2u8; 1536]) {
        return Err("the second text isn't stored".into());
    }
    let mut d = d.next_run(Vec::new(alloc));
    let [first, second] = firsts(alloc, &mut d, 2)?;
    let [third, fourth] = firsts(alloc, &mut d, 6)?;
    Ok([first, second, third, fourth])
}

#[test]
fn a_cut_leaves_one_copy_whole(rt: HostRuntime) -> Result<(), Fail> {
    let alloc = rt.alloc();
    // After so many writes and syncs: the first byte of each copy's first sector, and of its
    // second.
    let left = [
        (0u64, [1u8, 1, 1, 1]),
        (1, [0, 1, 1, 1]),
        (4, [0, 2, 1, 1]),
        (6, [2, 2, 1, 1]),
        (8, [2, 2, 0, 1]),
        (13, [2, 2, 2, 2]),
    ];
    for (stop, want) in left {
        assert!(rt; cut(alloc, stop)? == want, "after {stop} calls");
    }
    Ok(())
}

#[test]
fn a_copy_is_written_again(rt: HostRuntime) -> Result<(), Fail> {
    let mut d = port(rt.alloc())?;
    assert!(rt; rewrite(&mut d, &[5u8; 1400]));
    let copy = copy_at(rt.alloc(), &mut d, 6)?;
    assert!(rt; holds(&copy, 1400, 5));
    assert!(rt; write(&mut d, &[6u8; 1400]));
    let copy = copy_at(rt.alloc(), &mut d, 6)?;
    assert!(rt; holds(&copy, 1400, 6));
    Ok(())
}
