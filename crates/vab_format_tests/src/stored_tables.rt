// Tables that are stored, loaded and repaired in their two copies.

use crate::texts::text_of_groups;
use std::alloc::Global;
use std::test::*;
use vab_disk::{Disk, MemPort};
use vab_geometry::Geometry;
use vab_lpstore::{LoadFault, Loaded, load_table, repair_table, store_table};
use vab_tables::TableFault;

// Two slots with copies of two sectors: slot 0 has its primary in sector 4120, and its backup in
// sector 4124.
const GEOMETRY: Geometry = Geometry {
    max: 1024,
    slots: 2,
};

const PRIMARY: u64 = 4120;

const BACKUP: u64 = 4124;

const SECTORS: u64 = 4128;

fn port(alloc: Global) -> Result<MemPort, Fail> {
    let port = MemPort::new(alloc, SECTORS, Vec::new(alloc));
    Ok(port.ok().ok_or("there is memory for a disk")?)
}

#[tactic(auto, unfolding(vab_lpstore::specs::Layout::backup_of))]
fn store(d: &mut MemPort, text: &[u8]) -> bool {
    d.sectors() == SECTORS && text.len() <= 1024 && store_table(d, &GEOMETRY, 0, text).is_ok()
}

#[tactic(auto, unfolding(vab_lpstore::specs::Layout::backup_of))]
fn load(alloc: Global, d: &mut MemPort) -> Result<Loaded, LoadFault> {
    if d.sectors() != SECTORS {
        return Err(LoadFault::NoMemory);
    }
    load_table(alloc, d, &GEOMETRY, 0)
}

#[tactic(auto, unfolding(vab_lpstore::specs::Layout::backup_of))]
fn repair(alloc: Global, d: &mut MemPort) -> bool {
    if d.sectors() != SECTORS {
        return false;
    }
    match load_table(alloc, d, &GEOMETRY, 0) {
        Ok(loaded) => repair_table(d, &GEOMETRY, 0, &loaded).is_ok(),
        Err(_) => false,
    }
}

fn one_group(alloc: Global) -> Result<Vec<u8>, Fail> {
    text_of_groups(alloc, &[b"default"])
}

fn two_groups(alloc: Global) -> Result<Vec<u8>, Fail> {
    text_of_groups(alloc, &[b"default", b"cow"])
}

fn spoil(d: &mut MemPort, at: u64) -> bool {
    at < d.sectors() && d.write_sector(at, &[7u8; 512]).is_ok()
}

// How many groups the slot's table has, and which copies hold its text.
fn seen(alloc: Global, d: &mut MemPort) -> Result<(usize, bool, bool), LoadFault> {
    let loaded = load(alloc, d)?;
    Ok((loaded.table.groups.len(), loaded.primary, loaded.backup))
}

// The text of the slot's table.
fn text_in(alloc: Global, d: &mut MemPort) -> Result<Vec<u8>, Fail> {
    let loaded = load(alloc, d).ok().ok_or("a table is loaded")?;
    Ok(loaded.text.as_slice().to_vec(alloc)?)
}

// Whether the slot's table has one group, and which copies hold its text.
fn has_one_group(alloc: Global, d: &mut MemPort, copies: (bool, bool)) -> bool {
    match seen(alloc, d) {
        Ok((groups, primary, backup)) => groups == 1 && (primary, backup) == copies,
        Err(_) => false,
    }
}

#[test]
fn what_is_stored_is_loaded(rt: HostRuntime) -> Result<(), Fail> {
    let alloc = rt.alloc();
    let mut d = port(alloc)?;
    let text = one_group(alloc)?;
    assert!(rt; store(&mut d, &two_groups(alloc)?) && store(&mut d, &text));
    assert!(rt; has_one_group(alloc, &mut d, (true, true)));
    assert!(rt; text_in(alloc, &mut d)?.as_slice() == text.as_slice());
    Ok(())
}

// How many groups there are where a table of two is stored in place of one of one, and that is cut
// behind so many writes and syncs.
fn groups_after(alloc: Global, stop: u64) -> Result<usize, Fail> {
    let mut d = port(alloc)?;
    if !store(&mut d, &one_group(alloc)?) {
        return Err("the first table is stored".into());
    }
    let mut d = d.next_run(Vec::new(alloc));
    d.stop_after(stop);
    if store(&mut d, &two_groups(alloc)?) {
        return Err("the second table is cut".into());
    }
    let mut d = d.next_run(Vec::new(alloc));
    let loaded = load(alloc, &mut d).ok().ok_or("a table is loaded")?;
    Ok(loaded.table.groups.len())
}

#[test]
fn a_cut_leaves_the_old_table_or_the_new(rt: HostRuntime) -> Result<(), Fail> {
    for stop in 0..8u64 {
        // The third is the write of the primary's first sector.
        let groups = if stop < 3 { 1 } else { 2 };
        assert!(rt;
            groups_after(rt.alloc(), stop)? == groups,
            "after {stop} calls"
        );
    }
    Ok(())
}

// A disk whose copy of a table of one group is spoilt there.
fn spoilt(alloc: Global, at: u64) -> Result<MemPort, Fail> {
    let mut d = port(alloc)?;
    if !store(&mut d, &one_group(alloc)?) || !spoil(&mut d, at) {
        return Err("a table is stored".into());
    }
    Ok(d)
}

#[test]
fn a_repair_leaves_the_loaded_table_wherever_it_is_cut(rt: HostRuntime) -> Result<(), Fail> {
    let alloc = rt.alloc();
    for (at, held) in [(PRIMARY, (false, true)), (BACKUP, (true, false))] {
        for stop in 0..6u64 {
            let mut d = spoilt(alloc, at)?;
            assert!(rt; has_one_group(alloc, &mut d, held));
            let mut d = d.next_run(Vec::new(alloc));
            d.stop_after(stop);
            let _whole = repair(alloc, &mut d);
            let mut d = d.next_run(Vec::new(alloc));
            assert!(rt; seen(alloc, &mut d).map(|found| found.0) == Ok(1));
            assert!(rt; repair(alloc, &mut d));
            assert!(rt; has_one_group(alloc, &mut d, (true, true)));
        }
    }
    Ok(())
}

#[test]
fn where_both_copies_are_bad_both_faults_are_told(rt: HostRuntime) -> Result<(), Fail> {
    let alloc = rt.alloc();
    let mut bad = one_group(alloc)?;
    if bad.len() > 300 {
        bad[300] = 1;
    }
    let mut d = port(alloc)?;
    assert!(rt; store(&mut d, &bad));
    assert!(rt; spoil(&mut d, PRIMARY));
    let faults = LoadFault::BothBad(TableFault::NoHeader, TableFault::BadTablesSum);
    assert!(rt; seen(alloc, &mut d) == Err(faults));
    Ok(())
}
