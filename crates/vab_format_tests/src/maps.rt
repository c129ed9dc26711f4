// Blocks on runs of sectors.

use std::alloc::Global;
use std::test::*;
use vab_disk::{Disk, MemPort};
use vab_linear::{Map, read_at, write_at};

// Five blocks on a disk of 64 sectors.
fn map(alloc: Global) -> Result<Map, Fail> {
    let map = Map::new(alloc, &[(48, 16), (8, 8), (16, 16)]);
    Ok(map.ok().ok_or("there is memory for a map")?)
}

fn write(d: &mut MemPort, map: &Map, block: u64, byte: u8) -> bool {
    d.sectors() == 64
        && block < map.len()
        && map.sector_of(block) <= 56
        && write_at(d, map, block, &[byte; 4096]).is_ok()
}

fn read(d: &mut MemPort, map: &Map, block: u64) -> Option<[u8; 4096]> {
    let mut bytes = [9u8; 4096];
    let is_on = d.sectors() == 64 && block < map.len() && map.sector_of(block) <= 56;
    if is_on && read_at(d, map, block, &mut bytes).is_ok() {
        Some(bytes)
    } else {
        None
    }
}

// The first byte of a sector.
fn byte_at(d: &mut MemPort, sector: u64) -> Option<u8> {
    let mut bytes = [9u8; 512];
    if sector < d.sectors() && d.read_sector(sector, &mut bytes).is_ok() {
        Some(bytes[0])
    } else {
        None
    }
}

#[test]
fn blocks_follow_the_runs_in_their_order(rt: HostRuntime) -> Result<(), Fail> {
    let map = map(rt.alloc())?;
    assert!(rt; map.len() == 5);
    for (block, sector) in [(0u64, 48u64), (1, 56), (2, 8), (3, 16), (4, 24)] {
        assert!(rt; block < map.len());
        assert!(rt; map.sector_of(block) == sector, "of block {block}");
    }
    Ok(())
}

#[test]
fn a_part_of_a_block_is_none(rt: HostRuntime) -> Result<(), Fail> {
    let map = Map::new(rt.alloc(), &[(0, 7), (10, 15), (30, 0)]);
    let map = map.ok().ok_or("there is memory for a map")?;
    assert!(rt; map.len() == 1);
    assert!(rt; map.len() > 0 && map.sector_of(0) == 10);
    Ok(())
}

// The five blocks and what each is filled with.
const FILLED: [(u64, u8); 5] = [(0, 1), (1, 2), (2, 3), (3, 4), (4, 5)];

// A disk on which each block is filled.
fn filled(alloc: Global, map: &Map) -> Result<MemPort, Fail> {
    let port = MemPort::new(alloc, 64, Vec::new(alloc));
    let mut d = port.ok().ok_or("there is memory for a disk")?;
    for (block, byte) in FILLED {
        if !write(&mut d, map, block, byte) {
            return Err("a block is written".into());
        }
    }
    Ok(d)
}

#[test]
fn a_block_is_written_at_its_sectors_and_read_back(rt: HostRuntime) -> Result<(), Fail> {
    let map = map(rt.alloc())?;
    let mut d = filled(rt.alloc(), &map)?;
    // Of the disk's blocks, the one before the first and the one between two runs are as before.
    for (sector, want) in [
        (0u64, 0u8),
        (8, 3),
        (15, 3),
        (16, 4),
        (24, 5),
        (32, 0),
        (48, 1),
        (56, 2),
    ] {
        assert!(rt; byte_at(&mut d, sector) == Some(want), "in sector {sector}");
    }
    for (block, byte) in FILLED {
        assert!(rt;
            read(&mut d, &map, block) == Some([byte; 4096]),
            "at {block}"
        );
    }
    Ok(())
}
