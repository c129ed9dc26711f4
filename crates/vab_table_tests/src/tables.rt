// A partition table in two copies: an update that is cut while the primary copy is written, and
// which sectors are read.

use crate::texts::{THREE_PARTITIONS, TWO_PARTITIONS};
use std::alloc::Global;
use std::test::*;
use vab_disk::{CallKind, Disk, MemPort};
use vab_geometry::Geometry;
use vab_lpstore::{LoadFault, Loaded, load_table, store_table};

// Two slots with copies of four sectors behind the geometry.
const GEOMETRY: Geometry = Geometry {
    max: 2048,
    slots: 2,
};

const SECTORS: u64 = 4136;

#[tactic(auto, unfolding(vab_lpstore::specs::Layout::backup_of))]
fn store(d: &mut MemPort, text: &[u8]) -> bool {
    d.sectors() == SECTORS && text.len() <= 2048 && store_table(d, &GEOMETRY, 0, text).is_ok()
}

#[tactic(auto, unfolding(vab_lpstore::specs::Layout::backup_of))]
fn load(alloc: Global, d: &mut MemPort) -> Result<Loaded, LoadFault> {
    if d.sectors() != SECTORS {
        return Err(LoadFault::NoMemory);
    }
    load_table(alloc, d, &GEOMETRY, 0)
}

// The calls are: the primary's first sector as zeros, sync, its second sector, sync, its first
// sector, and so on.
#[test]
fn an_update_of_664_bytes_to_740_is_cut(rt: HostRuntime) -> Result<(), Fail> {
    let alloc = rt.alloc();
    for (stop, partitions, primary) in [
        (0, 2, true),
        (1, 2, false),
        (2, 2, false),
        (3, 2, false),
        (4, 2, false),
        (5, 3, true),
        (6, 3, true),
    ] {
        let d = MemPort::new(alloc, SECTORS, Vec::new(alloc));
        let mut d = d.ok().ok_or("there is memory for a disk")?;
        assert!(rt; store(&mut d, &TWO_PARTITIONS));
        let mut d = d.next_run(Vec::new(alloc));
        d.stop_after(stop);
        assert!(rt; !store(&mut d, &THREE_PARTITIONS));
        let mut d = d.next_run(Vec::new(alloc));
        let loaded = load(alloc, &mut d).ok().ok_or("a table is loaded")?;
        assert_eq!(rt;
            (loaded.table.partitions.len(), loaded.primary),
            (partitions, primary)
        );
    }
    Ok(())
}

// Of each copy the first sector is read, and then the two that its text has: six reads.
#[test]
fn a_sector_behind_a_tables_text_is_not_read(rt: HostRuntime) -> Result<(), Fail> {
    let alloc = rt.alloc();
    for (failing, partitions) in [(0, None), (5, None), (6, Some(2usize)), (7, Some(2))] {
        let d = MemPort::new(alloc, SECTORS, Vec::new(alloc));
        let mut d = d.ok().ok_or("there is memory for a disk")?;
        assert!(rt; store(&mut d, &TWO_PARTITIONS));
        let mut d = d.next_run(Vec::new(alloc));
        assert!(rt; d.fail_at(CallKind::Disk, failing).is_ok());
        let found = match load(alloc, &mut d) {
            Ok(loaded) => Some(loaded.table.partitions.len()),
            Err(_) => None,
        };
        assert_eq!(rt; found, partitions);
    }
    Ok(())
}
