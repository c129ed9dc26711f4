// A device that an earlier program made, the last one that wrote version 1 of the mark (commit
// d3177b8), in the middle of a merge. It is opened, also where its opening is cut, and goes on to
// the images that were installed.
//
// That program ran over 6400 sectors of zeros, but for those from 2081 to 2113: `make
// --metadata-max 1024`, `install`, `activate b`, `boot`, `mark`, `begin-merge` and `merge 1`. Each
// block of an image has one byte throughout: those of x_a 0x11 and 0x12, those of y_a 0x21 and
// 0x22, those of x_b 0x31, 0x12 and 0x33, and those of y_b 0x21 and 0x42.

use crate::life::*;
use std::alloc::Global;
use std::process::Abort;
use std::test::Fail;
use vab_disk::{Blend, Disk, MemPort};

const SECTORS: u64 = 6400;

// Pieces of its sectors, each with the sector, and the byte in it at which the piece begins. All
// else is zeros, but for copies and runs.
const PIECES: [(u64, usize, &[u8]); 72] = [
    (4, 0, b"_b\0\0BCAB\x01\x02\0\0\x8e\0\x8f"),
    (4, 28, b"?Qd\xc5"),
    (2048, 0, b"VABU\x01\x03\x01"),
    (2048, 508, b"+\x14\xc5\xa7"),
    (2049, 0, b"VABS\x01\x01\x08\0x_b"),
    (2049, 44, b"\x02"),
    (2049, 508, b"\xea\xe3\xbc\xf4"),
    (2050, 0, b"VABS\x01\x01\x08\0y_b"),
    (2050, 44, b"\x01"),
    (2050, 508, b"\xe2\xbblj"),
    (4104, 0, b"gDla4\0\0\02-mS\xcaq|H{w\xd7(}\xbe\xb6\x92\xd5"),
    (4104, 25, b"\xc8\x92/\x01*u\x15}\x19\xed\xc9\xeaH\xed\x8a\0"),
    (4104, 41, b"\x04\0\0\x02\0\0\0\0\x10"),
    (4120, 0, b"0PLA\n\0\x02\0\0\x01\0\0\xf4\x86\x98\xeb\xcf\x8b"),
    (4120, 18, b"\x8e\x19\xcfn\x8d=/\x06@d\x06&D-Gwn\x8f\xf8\xde"),
    (4120, 38, b"\\\xb2\xf2\xb6O\xe1h\x01\0\0L\x970\x07P\xdb\x15"),
    (4120, 55, b"\x16\xfe\xef\x8e\xa1\xe2'r.\"uH\xb5{\xa9\xac"),
    (4120, 71, b"\xc3\x98k\xa6\xa2\xe1\x93,\xeb\0\0\0\0\x02\0\0"),
    (4120, 88, b"4\0\0\0h\0\0\0\x02\0\0\0\x18\0\0\0\x98\0\0\0"),
    (4120, 108, b"\x03\0\0\00\0\0\0(\x01\0\0\x01\0\0\0@\0\0\0"),
    (4120, 128, b"\x01"),
    (4120, 256, b"x_a"),
    (4120, 292, b"\x01\0\0\0\0\0\0\0\x01\0\0\0\x01\0\0\0y_a"),
    (4120, 344, b"\x01\0\0\0\x01\0\0\0\x01\0\0\0\x01\0\0\0\x10"),
    (4120, 373, b"\x08"),
    (4120, 384, b"\x10"),
    (4120, 396, b"\x10\x08"),
    (4120, 408, b"default"),
    (4120, 456, b"main_a"),
    (4120, 504, b"main_b"),
    (4121, 41, b"\x08"),
    (4121, 50, b"\x10\0\0\0\0\0\0\0\x12\0\0\0\0\0super"),
    (4122, 0, b"0PLA\n\0\x02\0\0\x01\0\0\xd0\xae+\xc4\xb3\xfb"),
    (4122, 18, b"\x84\x04{\xe5\xa9\x1e\x92\xb5\xc8'\xe7vh\x1c"),
    (4122, 32, b"\x1d\xe5\xaeZ!',\xfd\x06,8C\xe0\x02\0\0'\xa2"),
    (4122, 50, b"\x0f\xf3O\xac\x11\x0el}\xb9\xc5\xe8`\\\x0fB\x9f"),
    (4122, 66, b"u\xe2\xe2\xf9\x88\xb7\xf7=\xbf\xa8\x93SN\x82\0"),
    (4122, 84, b"\x06\0\0\04\0\0\08\x01\0\0\x07\0\0\0\x18\0\0\0"),
    (4122, 104, b"\xe0\x01\0\0\x04\0\0\00\0\0\0\xa0\x02\0\0\x01"),
    (4122, 124, b"@\0\0\0\x01"),
    (4122, 256, b"x_a"),
    (4122, 292, b"\x01\0\0\0\0\0\0\0\x01\0\0\0\x01\0\0\0y_a"),
    (4122, 344, b"\x01\0\0\0\x01\0\0\0\x01\0\0\0\x01\0\0\0x_b"),
    (4122, 396, b"\x05\0\0\0\x02\0\0\0\x02\0\0\0\x02\0\0\0y_b"),
    (4122, 448, b"\x05\0\0\0\x04\0\0\0\x01\0\0\0\x02"),
    (4122, 464, b"x_b-cow"),
    (4122, 504, b"\x05\0\0\0\x01"),
    (4123, 0, b"\x03\0\0\0y_b-cow"),
    (4123, 44, b"\x06\0\0\0\x01\0\0\0\x03\0\0\0\x10"),
    (4123, 69, b"\x08"),
    (4123, 80, b"\x10"),
    (4123, 92, b"\x10\x08"),
    (4123, 104, b"\x10"),
    (4123, 117, b"\x08"),
    (4123, 128, b"\x08"),
    (4123, 140, b" \x08"),
    (4123, 152, b"\x10"),
    (4123, 164, b"\x10\x08"),
    (4123, 176, b"("),
    (4123, 188, b"(\x08"),
    (4123, 200, b" "),
    (4123, 212, b"P\x08"),
    (4123, 224, b"default"),
    (4123, 272, b"main_a"),
    (4123, 320, b"main_b"),
    (4123, 368, b"cow"),
    (4123, 417, b"\x08"),
    (4123, 426, b"\x10\0\0\0\0\0\0\0\x12\0\0\0\0\0super"),
    (6184, 0, b"SnAp\x01\0\0\0\x01\0\0\0\x08"),
    (6192, 8, b"\x02"),
    (6224, 0, b"SnAp\x01\0\0\0\x01\0\0\0\x08"),
    (6232, 0, b"\x01\0\0\0\0\0\0\0\x02"),
];

// The backups of the geometry and of both tables, each behind the sector that it is a copy of.
const COPIES: [(u64, u64); 5] = [
    (4104, 4112),
    (4120, 4124),
    (4121, 4125),
    (4122, 4126),
    (4123, 4127),
];

// Runs of sectors of one byte, each with its first sector and the one behind its last: what the
// disk held before it was a device, and blocks of images and of stores.
const RUNS: [(u64, u64, u8); 9] = [
    (2081, 2114, 0xff),
    (6144, 6152, 0x11),
    (6152, 6160, 0x12),
    (6160, 6168, 0x21),
    (6168, 6176, 0x22),
    (6176, 6184, 0x33),
    (6200, 6208, 0x31),
    (6208, 6216, 0x33),
    (6240, 6248, 0x42),
];

// What that program told of the device.
const PAGE: &[u8] = b"cap 32\ncurrent b\nphase merging 2\nslot a none\n\
    slot b images 2 priority 15 tries 0 successful yes\nimage b x 12288\nimage b y 8192\n";

// The sums of the images.
const DIGESTS: [(Verb<'static>, &[u8]); 2] = [
    (
        (&["digest", "x_b"], b""),
        b"4339efbac0f7699d30c417d47335cc14dbf7f0b7c2c8fd21c943c4e56b110a05\n",
    ),
    (
        (&["digest", "y_b"], b""),
        b"ace297138f525a122dd7d648c69606e235a8b6e8f78199905e38f8ec6fd7425e\n",
    ),
];

const BLENDS: [Blend; 4] = [Blend::Old, Blend::New, Blend::Even, Blend::Odd];

fn sector(d: &mut MemPort, at: u64) -> Result<[u8; 512], Fail> {
    let mut bytes = [0u8; 512];
    if at >= d.sectors() || d.read_sector(at, &mut bytes).is_err() {
        return Err("a sector is read".into());
    }
    Ok(bytes)
}

fn put(d: &mut MemPort, at: u64, bytes: &[u8; 512]) -> Result<(), Fail> {
    if at >= d.sectors() || d.write_sector(at, bytes).is_err() {
        return Err("a sector is written".into());
    }
    Ok(())
}

// That sector with a piece in it.
fn with_piece(mut sector: [u8; 512], from: usize, piece: &[u8]) -> Result<[u8; 512], Fail> {
    if from > 512 || piece.len() > 512 - from {
        return Err("a piece is within its sector".into());
    }
    sector[from..from + piece.len()].copy_from_slice(piece);
    Ok(sector)
}

fn put_pieces(d: &mut MemPort) -> Result<(), Fail> {
    for (at, from, piece) in PIECES {
        let bytes = with_piece(sector(d, at)?, from, piece)?;
        put(d, at, &bytes)?;
    }
    Ok(())
}

fn put_copies(d: &mut MemPort) -> Result<(), Fail> {
    for (from, to) in COPIES {
        let bytes = sector(d, from)?;
        put(d, to, &bytes)?;
    }
    Ok(())
}

fn put_runs(d: &mut MemPort) -> Result<(), Fail> {
    for (from, to, byte) in RUNS {
        for at in from..to {
            put(d, at, &[byte; 512])?;
        }
    }
    Ok(())
}

// The device, on which nothing is pending.
fn device(alloc: Global) -> Result<MemPort, Fail> {
    let mut d = MemPort::new(alloc, SECTORS, Vec::new(alloc)).map_err(|_| Fail::from("memory"))?;
    put_pieces(&mut d)?;
    put_copies(&mut d)?;
    put_runs(&mut d)?;
    left_by(&d, Blend::New)
}

// Whether the mark has version 2 and says the same as it did, the statuses that this version adds
// are none, and the sector behind them is as it was.
fn is_raised(d: &mut MemPort) -> Result<bool, Fail> {
    for at in 2081..2113 {
        if sector(d, at)? != [0; 512] {
            return Ok(false);
        }
    }
    Ok(sector(d, 2113)? == [0xff; 512] && sector(d, 2048)?.starts_with(b"VABU\x02\x03\x01"))
}

// The merge is ended, and the images are those that were installed.
fn is_merged(rt: &impl Abort, alloc: Global, d: MemPort) -> Result<(), Fail> {
    let mut d = all_done(rt, alloc, d, &[MERGE])?;
    for (digest, sum) in DIGESTS {
        d = all_done(rt, alloc, d, &[digest])?;
        assert!(rt; d.told() == sum);
    }
    Ok(())
}

#[test]
fn a_device_of_an_earlier_program_is_merged(rt: HostRuntime) -> Result<(), Fail> {
    let alloc = rt.alloc();
    let d = asked(alloc, device(alloc)?)?;
    assert!(rt; d.told() == PAGE);
    let mut d = left_by(&d, Blend::Old)?;
    assert!(rt; is_raised(&mut d)?);
    is_merged(&rt, alloc, d)
}

// What an opening leaves that is stopped behind so many writes and syncs is merged, over each
// blend. Whether it was done.
fn is_merged_behind(rt: &impl Abort, alloc: Global, d: MemPort, stop: u64) -> Result<bool, Fail> {
    let mut d = d;
    d.stop_after(stop);
    let ended = status(alloc, &mut d, &STATUS)?;
    assert!(rt; ended == 0 || ended == 6, "after {stop}");
    for blend in BLENDS {
        is_merged(rt, alloc, left_by(&d, blend)?)?;
    }
    Ok(ended == 0)
}

#[test]
fn its_opening_is_stopped_anywhere(rt: HostRuntime) -> Result<(), Fail> {
    let alloc = rt.alloc();
    for stop in 0..60 {
        if is_merged_behind(&rt, alloc, device(alloc)?, stop)? {
            return Ok(());
        }
    }
    Err("it is opened in the end".into())
}
