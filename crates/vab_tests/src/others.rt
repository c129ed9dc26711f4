// What the verbs leave of a disk of pseudo-random bytes, as a whole and where they are cut.

use crate::runs::{ONE, Step, port, steps_on, words};
use crate::sessions::{put, sector};
use crate::sets::filled;
use std::alloc::Global;
use std::process::Abort;
use std::test::Fail;
use vab_cli::run;
use vab_disk::{Disk, MemPort};

// One block more than a device of one block needs.
const SECTORS: u64 = 6160;

// The bytes of a sector, eight of each 64 of a linear congruential generator that starts with the
// sector's number.
fn random(at: u64) -> [u8; 512] {
    let mut state = at;
    let mut bytes = [0xff; 512];
    for index in 0..8usize {
        state = state
            .wrapping_mul(6364136223846793005)
            .wrapping_add(1442695040888963407);
        bytes[64 * index..64 * index + 8].copy_from_slice(&state.to_le_bytes());
    }
    bytes
}

// A disk of such sectors, with nothing pending.
fn disk_of_random(alloc: Global) -> Result<MemPort, Fail> {
    let mut d = port(alloc, SECTORS, b"")?;
    for at in 0..SECTORS {
        if at >= d.sectors() || d.write_sector(at, &random(at)).is_err() {
            return Err("a sector is written".into());
        }
    }
    match d.sync() {
        Ok(()) => Ok(d),
        Err(_) => Err("the disk is synced".into()),
    }
}

// The sectors that are written of a device of one block, with tables of up to 65536 bytes and two
// sectors of text: boot control, the mark, both geometries, the copies of slot a's table, the
// block.
const WRITTEN: [(u64, u64); 6] = [
    (4, 5),
    (2048, 2049),
    (4104, 4120),
    (4120, 4122),
    (4376, 4378),
    (6144, 6152),
];

fn is_written(at: u64) -> bool {
    WRITTEN.iter().any(|(from, to)| *from <= at && at < *to)
}

// The first sector beside those of the device that has other bytes than at first; where there is no
// device, the first of all.
fn first_changed(d: &mut MemPort, is_device: bool) -> Option<u64> {
    for at in 0..SECTORS {
        let old = random(at);
        let is_kept = match sector(d, at) {
            Some(new) if is_device && at == 4 => new[32..] == old[32..],
            Some(new) => is_device && is_written(at) || new == old,
            None => false,
        };
        if !is_kept {
            return Some(at);
        }
    }
    None
}

// The sectors of which the device has two, both with a part of the geometry or of the table.
const COPIES: [(u64, u64); 3] = [(4104, 4112), (4120, 4376), (4121, 4377)];

// The first of these that the second isn't.
fn first_other(d: &mut MemPort) -> Option<u64> {
    for (first, second) in COPIES {
        if sector(d, first) != sector(d, second) {
            return Some(first);
        }
    }
    None
}

const SESSION: &[u8] = b"FB01\0\0\0\0\0\0\0\x0cset_active:a\0\0\0\0\0\0\0\x08oem boot\
    \0\0\0\0\0\0\0\x13oem mark-successful\0\0\0\0\0\0\0\x0adownload:5\0\0\0\0\0\0\0\x05hello";

const ANSWERS: &[u8] = b"FB01\0\0\0\0\0\0\0\x04OKAY\0\0\0\0\0\0\0\x05OKAYa\
    \0\0\0\0\0\0\0\x04OKAY\0\0\0\0\0\0\0\x0cDATA00000005\0\0\0\0\0\0\0\x04OKAY";

const MADE: &[u8] = b"made 1 images, 1 of 2 blocks\n";

const NO_DEVICE: &[u8] = b"not a device\n";

#[test]
fn verbs_write_the_devices_sectors_alone(rt: HostRuntime) -> Result<(), Fail> {
    let alloc = rt.alloc();
    let image = filled(alloc, b"abc", 4096)?;
    let sum = b"73fbfd76aa2143de160edd509ff93771f44db16924bd51235f311f32aaf5fc42\n";
    let before: [Step; 7] = [
        (&["boot"], b"", 5, NO_DEVICE),
        (&["mark"], b"", 5, NO_DEVICE),
        (&["activate", "a"], b"", 5, NO_DEVICE),
        (&["print", "x_a"], b"", 5, NO_DEVICE),
        (&["digest", "x_a"], b"", 5, NO_DEVICE),
        (&["serve"], SESSION, 5, b""),
        (
            &["make", "--limit", "1"],
            &ONE,
            4,
            b"refused: group limit: 4096 of 1 bytes\n",
        ),
    ];
    let after: [Step; 10] = [
        (&["make"], &ONE, 0, MADE),
        (&["boot"], b"", 0, b"booted a\n"),
        (&["activate", "a"], b"", 0, b"active a\n"),
        (&["activate", "b"], b"", 4, b"refused: slot has no images\n"),
        (&["mark"], b"", 0, b"marked a\n"),
        (&["print", "x_a"], b"", 0, image.as_slice()),
        (&["digest", "x_a"], b"", 0, sum),
        (&["serve"], SESSION, 0, ANSWERS),
        (&["serve", "--fresh"], SESSION, 0, ANSWERS),
        (&["print", "x_a"], b"", 4, b"refused: unknown partition\n"),
    ];
    let d = disk_of_random(alloc)?;
    let mut d = steps_on(&rt, alloc, d, &before)?;
    assert_eq!(rt; first_changed(&mut d, false), None);
    let mut d = steps_on(&rt, alloc, d, &after)?;
    assert_eq!(rt; first_changed(&mut d, true), None);
    assert_eq!(rt; first_other(&mut d), None);
    Ok(())
}

// Whether a device is opened of the disk, where boot says so.
fn opens(alloc: Global, d: MemPort) -> Result<(bool, MemPort), Fail> {
    let mut d = d.next_run(Vec::new(alloc));
    let boot = words(alloc, &["boot"])?;
    let status = run(alloc, &boot, &mut d).code();
    match (status, d.told()) {
        (0, b"booted a\n") => Ok((true, d)),
        (5, NO_DEVICE) => Ok((false, d)),
        _ => Err("a device or none".into()),
    }
}

// The settled bytes of the sectors that are written.
fn settled(alloc: Global, d: &MemPort) -> Result<Vec<(u64, [u8; 512])>, Fail> {
    let mut all = Vec::new(alloc);
    for (from, to) in WRITTEN {
        for at in from..to {
            if at >= d.sectors() {
                return Err("a sector of the disk".into());
            }
            all.push((at, d.settled_sector(at)))?;
        }
    }
    Ok(all)
}

// Cuts a run after so many writes and syncs, on the disk that other runs leave. Tells whether it
// was cut; then nothing was told.
fn is_cut(
    rt: &impl Abort,
    alloc: Global,
    d: MemPort,
    runs: (&[Step<'_>], Step<'_>),
    stop: u64,
) -> Result<(bool, MemPort), Fail> {
    let (texts, input, status, told) = runs.1;
    let words = words(alloc, texts)?;
    let d = steps_on(rt, alloc, d, runs.0)?;
    let mut d = d.next_run(input.to_vec(alloc)?);
    d.stop_after(stop);
    let ended = run(alloc, &words, &mut d).code();
    if ended == status {
        assert_eq!(rt; d.told(), told);
        return Ok((false, d));
    }
    assert_eq!(rt; (ended, d.told().len()), (6, 0), "at {stop}");
    Ok((true, d))
}

// Cuts a run after 0, 1 and so on writes and syncs, until it comes to its end. Tells at how many
// cuts a device is opened of all that was written.
fn opened_of_all(
    rt: &impl Abort,
    alloc: Global,
    d: MemPort,
    runs: (&[Step<'_>], Step<'_>),
) -> Result<(u64, MemPort), Fail> {
    let mut d = d;
    let mut opened = 0u64;
    for stop in 0..200u64 {
        let (cut, left) = is_cut(rt, alloc, d, runs, stop)?;
        if !cut {
            return Ok((opened, left.next_run(Vec::new(alloc))));
        }
        let (opens, left) = opens(alloc, left)?;
        opened = opened.saturating_add(u64::from(opens));
        d = left;
    }
    Err("a run that comes to its end".into())
}

// The same of what was settled alone, each time on another disk of zeros, and how many cuts there
// are.
fn opened_of_settled(
    rt: &impl Abort,
    alloc: Global,
    runs: (&[Step<'_>], Step<'_>),
) -> Result<(u64, u64), Fail> {
    let mut opened = 0u64;
    for stop in 0..200u64 {
        let (cut, left) = is_cut(rt, alloc, port(alloc, SECTORS, b"")?, runs, stop)?;
        if !cut {
            return Ok((opened, stop));
        }
        let settled = settled(alloc, &left)?;
        let mut d = left.next_run(Vec::new(alloc));
        for (at, bytes) in settled.iter() {
            assert!(rt; put(&mut d, *at, bytes));
        }
        let (opens, _) = opens(alloc, d)?;
        opened = opened.saturating_add(u64::from(opens));
    }
    Err("a run that comes to its end".into())
}

// The mark is the first that is written where a device is made, and the last. A fresh session opens
// the device that it has made, and may be cut there too.
#[test]
fn cuts_leave_other_sectors_and_a_device_or_none(rt: HostRuntime) -> Result<(), Fail> {
    let alloc = rt.alloc();
    let make: Step = (&["make"], &ONE, 0, MADE);
    let fresh: Step = (&["serve", "--fresh"], b"FB01", 0, b"FB01");
    let activate: Step = (&["activate", "a"], b"", 0, b"active a\n");
    let none = [].as_slice();
    let made = [make];
    let mut d = disk_of_random(alloc)?;
    for (before, run, of_all, of_settled, least) in [
        (none, make, 1, 0, 10),
        (&made, fresh, 3, 3, 10),
        (&made, activate, 2, 2, 2),
    ] {
        let (opened, left) = opened_of_all(&rt, alloc, d, (before, run))?;
        assert_eq!(rt; opened, of_all);
        let (opened, cuts) = opened_of_settled(&rt, alloc, (before, run))?;
        assert_eq!(rt; opened, of_settled);
        assert!(rt; least <= cuts);
        d = left;
    }
    assert_eq!(rt; first_changed(&mut d, true), None);
    Ok(())
}
