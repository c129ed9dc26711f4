// A disk that holds writes back and reads ahead, over one in memory that fails.

use std::alloc::Global;
use std::test::*;
use vab_buffer::{Buffered, Sectorwise};
use vab_disk::{CallKind, Disk, MemPort};

type InMemory = Buffered<Sectorwise<MemPort>>;

// A disk of 300 sectors of zeros. One call of the port below fails, where a number is given.
fn disk(alloc: Global, fails: Option<u64>) -> Result<InMemory, Fail> {
    let port = MemPort::new(alloc, 300, Vec::new(alloc));
    let mut port = port.ok().ok_or("there is memory for a port")?;
    if let Some(nth) = fails {
        let listed = port.fail_at(CallKind::Disk, nth);
        listed.ok().ok_or("there is memory for a list")?;
    }
    let disk = Buffered::new(alloc, Sectorwise::new(port));
    Ok(disk.ok().ok_or("there is memory for a buffer")?)
}

fn write(d: &mut InMemory, at: u64, byte: u8) -> bool {
    at < d.sectors() && d.write_sector(at, &[byte; 512]).is_ok()
}

// The bytes of a sector, where they are all the same.
fn read(d: &mut InMemory, at: u64) -> Option<u8> {
    let mut bytes = [9u8; 512];
    if at < d.sectors() && d.read_sector(at, &mut bytes).is_ok() && bytes == [bytes[0]; 512] {
        Some(bytes[0])
    } else {
        None
    }
}

// What a sync has made of a sector in the port below.
fn settled(d: &InMemory, at: u64) -> Option<u8> {
    let port = d.store().disk();
    if at < port.sectors() {
        Some(port.settled_sector(at)[0])
    } else {
        None
    }
}

#[test]
fn what_was_written_last_is_read_in_and_out_of_order(rt: HostRuntime) -> Result<(), Fail> {
    let mut d = disk(rt.alloc(), None)?;
    for at in 0..300u64 {
        assert!(rt; write(&mut d, at, (at % 251) as u8));
    }
    for at in [7u64, 299, 8, 7, 130, 129, 128, 0] {
        assert!(rt; write(&mut d, at, 255));
        assert_eq!(rt; read(&mut d, at), Some(255));
    }
    for at in 0..300u64 {
        let is_new = [0u64, 7, 8, 128, 129, 130, 299].contains(&at);
        let wanted = if is_new { 255 } else { (at % 251) as u8 };
        assert_eq!(rt; read(&mut d, at), Some(wanted), "sector {at}");
    }
    for at in [298u64, 5, 131, 6, 127, 4, 3, 130] {
        let wanted = if at == 130 { 255 } else { (at % 251) as u8 };
        assert_eq!(rt; read(&mut d, at), Some(wanted), "sector {at}");
    }
    Ok(())
}

#[test]
fn a_sync_writes_out_what_is_held_back(rt: HostRuntime) -> Result<(), Fail> {
    let mut d = disk(rt.alloc(), None)?;
    for at in 10..13u64 {
        assert!(rt; write(&mut d, at, 5));
    }
    assert_eq!(rt; settled(&d, 10), Some(0));
    assert!(rt; d.sync().is_ok());
    for at in 10..13u64 {
        assert_eq!(rt; settled(&d, at), Some(5));
    }
    assert_eq!(rt; d.store().disk().syncs(), 1);
    Ok(())
}

// Writes, syncs, reads and tries again what failed, in the order of an update. How often a call
// failed.
fn update(d: &mut InMemory) -> u64 {
    let mut failed = 0u64;
    for at in [20u64, 21, 22, 40, 41, 21] {
        if !write(d, at, at as u8) {
            failed = failed.saturating_add(1);
            if !write(d, at, at as u8) {
                failed = failed.saturating_add(1);
            }
        }
    }
    if d.sync().is_err() {
        failed = failed.saturating_add(1);
        if d.sync().is_err() {
            failed = failed.saturating_add(1);
        }
    }
    for at in [19u64, 20, 21, 22, 23, 24, 41] {
        if read(d, at).is_none() {
            failed = failed.saturating_add(1);
            if read(d, at).is_none() {
                failed = failed.saturating_add(1);
            }
        }
    }
    failed
}

#[test]
fn nothing_is_forgotten_where_one_call_of_the_store_fails(rt: HostRuntime) -> Result<(), Fail> {
    // Calls 0 to 2, 3 and 4, and 5 write runs, 6 syncs, and 7, 8 to 15, and 16 read runs.
    for nth in 0..17u64 {
        let mut d = disk(rt.alloc(), Some(nth))?;
        assert!(rt; update(&mut d) <= 1, "call {nth}");
        for at in [20u64, 21, 22, 40, 41] {
            assert_eq!(rt;
                settled(&d, at),
                Some(at as u8),
                "sector {at} where call {nth} fails"
            );
            assert_eq!(rt;
                read(&mut d, at),
                Some(at as u8),
                "sector {at} where call {nth} fails"
            );
        }
        assert_eq!(rt; d.store().disk().syncs(), 1);
    }
    Ok(())
}

#[test]
fn a_sector_that_is_only_read_ahead_fails_nothing(rt: HostRuntime) -> Result<(), Fail> {
    // Sector 0 is read alone by call 0, and sectors 1 to 8 by calls 1 to 8.
    let mut d = disk(rt.alloc(), Some(5))?;
    for at in 0..9u64 {
        assert_eq!(rt; read(&mut d, at), Some(0), "sector {at}");
    }
    // Where the sector itself fails, its read does.
    let mut d = disk(rt.alloc(), Some(0))?;
    assert_eq!(rt; read(&mut d, 0), None);
    assert_eq!(rt; read(&mut d, 0), Some(0));
    Ok(())
}

#[test]
fn a_sync_that_failed_is_tried_again(rt: HostRuntime) -> Result<(), Fail> {
    // Call 0 writes the sector, and call 1 syncs.
    let mut d = disk(rt.alloc(), Some(1))?;
    assert!(rt; write(&mut d, 3, 8));
    assert!(rt; d.sync().is_err());
    assert_eq!(rt; settled(&d, 3), Some(0));
    assert!(rt; d.sync().is_ok());
    assert_eq!(rt; settled(&d, 3), Some(8));
    Ok(())
}
