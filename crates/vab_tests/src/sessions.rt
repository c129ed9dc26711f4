// What sessions write, and where they end.

use crate::runs::{ONE, SECTORS, Step, port, steps, words};
use std::alloc::Global;
use std::test::Fail;
use vab_cli::run;
use vab_disk::{CallKind, Disk, MemPort};

/// A sector of the disk, where it is on it and can be read.
pub(crate) fn sector(d: &mut MemPort, at: u64) -> Option<[u8; 512]> {
    let mut sector = [0u8; 512];
    if at >= d.sectors() || d.read_sector(at, &mut sector).is_err() {
        return None;
    }
    Some(sector)
}

/// The bytes of so many sectors from one on.
pub(crate) fn text_at(
    alloc: Global,
    d: &mut MemPort,
    at: u64,
    count: u64,
) -> Result<Vec<u8>, Fail> {
    let mut text = Vec::new(alloc);
    for index in 0..count {
        let bytes = sector(d, at.saturating_add(index)).ok_or("a sector is read")?;
        text.extend_from_slice(&bytes)?;
    }
    Ok(text)
}

/// Writes a sector, where it is on the disk and can be written.
pub(crate) fn put(d: &mut MemPort, at: u64, bytes: &[u8; 512]) -> bool {
    at < d.sectors() && d.write_sector(at, bytes).is_ok() && d.sync().is_ok()
}

/// Another byte in a sector, where it is on the disk and can be written.
pub(crate) fn damage(d: &mut MemPort, at: u64, byte: usize, value: u8) -> bool {
    let Some(mut bytes) = sector(d, at) else {
        return false;
    };
    if byte >= 512 {
        return false;
    }
    bytes[byte] = value;
    put(d, at, &bytes)
}

const FRESH: &[&str] = &["serve", "--fresh"];

#[test]
fn commands_on_slots_change_the_boot_control(rt: HostRuntime) -> Result<(), Fail> {
    let active = b"FB01\0\0\0\0\0\0\0\x0cset_active:a\0\0\0\0\0\0\0\x08oem boot".as_slice();
    let mark = b"FB01\0\0\0\0\0\0\0\x13oem mark-successful\0\0\0\0\0\0\0\x06reboot".as_slice();
    let told = b"FB01\0\0\0\0\0\0\0\x04OKAY\0\0\0\0\0\0\0\x05OKAYa".as_slice();
    let first: [Step; 1] = [(FRESH, active, 0, told)];
    let mut d = steps(&rt, rt.alloc(), SECTORS, &first)?;
    assert!(rt; matches!(sector(&mut d, 4), Some(bytes) if bytes[12] == 0xef && bytes[13] == 0));
    let both: [Step; 2] = [(FRESH, active, 0, told), (&["serve"], mark, 0, told)];
    let mut d = steps(&rt, rt.alloc(), SECTORS, &both)?;
    assert!(rt; matches!(sector(&mut d, 4), Some(bytes) if bytes[12] == 0x8f && bytes[13] == 0));
    Ok(())
}

#[test]
fn a_made_device_has_the_boot_control_of_slot_a(rt: HostRuntime) -> Result<(), Fail> {
    let made: [Step; 1] = [(&["make"], &ONE, 0, b"made 1 images, 1 of 256 blocks\n")];
    let mut d = steps(&rt, rt.alloc(), SECTORS, &made)?;
    let bytes = sector(&mut d, 4).ok_or("the sector is read")?;
    let want = b"_a\0\0BCAB\x01\x02\0\0\x8f\0\0\0".as_slice();
    assert_eq!(rt; &bytes[..16], want);
    Ok(())
}

// Hearing fails from the second time on: all of the input comes with the first.
#[test]
fn nothing_is_heard_behind_a_reboot(rt: HostRuntime) -> Result<(), Fail> {
    let alloc = rt.alloc();
    let input = b"FB01\0\0\0\0\0\0\0\x08continue\0\0\0\0\0\0\0\x03xyz";
    let mut d = port(alloc, SECTORS, input)?;
    assert!(rt; d.fail_at(CallKind::Hear, 1).is_ok());
    let fresh = words(alloc, FRESH)?;
    assert_eq!(rt; run(alloc, &fresh, &mut d).code(), 0);
    assert_eq!(rt; d.told(), b"FB01\0\0\0\0\0\0\0\x05OKAYa".as_slice());
    Ok(())
}

// Byte 300 of the first sector of a table of one partition is the number of its extents.
#[test]
fn a_table_with_one_good_copy_is_repaired(rt: HostRuntime) -> Result<(), Fail> {
    let alloc = rt.alloc();
    for (primary, backup, status, told) in [
        (true, false, 0, b"booted a\n".as_slice()),
        (false, true, 0, b"booted a\n".as_slice()),
        (true, true, 5, b"not a device\n".as_slice()),
    ] {
        let made: [Step; 1] = [(&["make"], &ONE, 0, b"made 1 images, 1 of 256 blocks\n")];
        let mut d = steps(&rt, alloc, SECTORS, &made)?;
        assert!(rt; !primary || damage(&mut d, 4120, 300, 0));
        assert!(rt; !backup || damage(&mut d, 4376, 300, 0));
        let mut d = d.next_run(Vec::new(alloc));
        let boot = words(alloc, &["boot"])?;
        assert_eq!(rt; run(alloc, &boot, &mut d).code(), status);
        assert_eq!(rt; d.told(), told);
        let repaired = matches!(sector(&mut d, 4120), Some(bytes) if bytes[300] == 1);
        assert_eq!(rt; repaired, status == 0);
    }
    Ok(())
}
