// Blocks that are written over a partition, each time on the device that is opened again.

use crate::devices::{reply, reply_staged};
use crate::opening::{opened, sector};
use std::alloc::Global;
use std::process::Abort;
use std::test::*;
use vab_bytes::Name36;
use vab_device::PartImage;
use vab_disk::{Disk, MemPort};
use vab_make::make_device;
use vab_model::{Command, Refusal, Reply};
use vab_set::read_set;

// The first sector of the partition.
const FIRST: u64 = 6144;

// The SHA-256 of `abc` and zeros, three blocks.
const BASE: [u8; 32] = [
    179, 122, 132, 86, 87, 137, 26, 248, 40, 149, 134, 187, 29, 40, 103, 2, 240, 33, 197, 153, 61,
    30, 193, 77, 196, 125, 68, 55, 62, 110, 171, 106,
];

// Of the same with sevens in block 1, and with nines there.
const SEVENS: [u8; 32] = [
    169, 128, 46, 25, 218, 248, 143, 189, 171, 148, 206, 88, 164, 91, 108, 186, 205, 230, 158, 228,
    19, 149, 65, 156, 34, 186, 4, 126, 26, 33, 137, 195,
];

const NINES: [u8; 32] = [
    240, 140, 25, 171, 113, 193, 91, 180, 206, 230, 68, 134, 161, 62, 23, 32, 207, 211, 189, 49,
    82, 109, 129, 109, 111, 126, 117, 5, 138, 204, 143, 20,
];

// Of 257 blocks, `abc` and zeros, the first 255, 256 or 257 of which are written over, block `i`
// with the byte `i % 251 + 1`.
const OF_255: [u8; 32] = [
    129, 173, 103, 14, 99, 239, 235, 193, 114, 151, 114, 102, 69, 22, 254, 230, 20, 224, 24, 181,
    196, 152, 21, 173, 210, 128, 80, 195, 160, 99, 182, 171,
];

const OF_256: [u8; 32] = [
    149, 192, 226, 38, 94, 79, 11, 218, 38, 253, 233, 251, 105, 213, 97, 96, 198, 53, 166, 31, 218,
    111, 54, 32, 23, 109, 96, 28, 196, 23, 61, 102,
];

const OF_257: [u8; 32] = [
    52, 181, 242, 213, 96, 172, 173, 90, 231, 221, 49, 116, 165, 16, 100, 113, 218, 139, 44, 164,
    55, 30, 78, 182, 10, 178, 201, 39, 196, 230, 55, 120,
];

// Of the first 256, block `i` with the byte `i % 251 + 2`.
const AGAIN: [u8; 32] = [
    68, 179, 180, 50, 184, 219, 135, 254, 223, 98, 246, 196, 3, 46, 128, 84, 37, 19, 80, 97, 147,
    210, 116, 193, 185, 155, 249, 239, 9, 32, 72, 201,
];

// A device of one image `system` of `abc`, of so many blocks, on a disk of `cap`.
fn device_of(alloc: Global, blocks: u16, cap: u16) -> Result<MemPort, Fail> {
    let mut bytes = b"VABSET1\n\x01\0\0\0\x06system".to_vec(alloc)?;
    for number in [4096 * u64::from(blocks), 0, 3] {
        bytes.extend_from_slice(&number.to_le_bytes())?;
    }
    bytes.extend_from_slice(b"abc")?;
    let set = match read_set(alloc, &bytes) {
        Ok(set) => set,
        Err(_) => return Err("the bytes are a set".into()),
    };
    let d = MemPort::new(alloc, FIRST + 8 * u64::from(cap), Vec::new(alloc));
    let mut d = d.ok().ok_or("there is memory for a disk")?;
    match make_device(alloc, &mut d, &set, 0, 65536) {
        Ok(()) => Ok(d.next_run(Vec::new(alloc))),
        Err(_) => Err("a device is made".into()),
    }
}

// Writes this byte over all of a block.
fn write(alloc: Global, d: &mut MemPort, block: u64, byte: u8) -> Result<Option<Reply>, Fail> {
    let bytes = vec![in alloc; byte; 4096]?;
    Ok(reply_staged(alloc, d, &Command::OverlayWrite(block), Some(&bytes)))
}

// What is read of the partition: its digest, and how many exceptions it is read through; none where
// it isn't overlaid.
type Read = ([u8; 32], Option<u64>);

fn read(alloc: Global, d: &mut MemPort) -> Result<Read, Fail> {
    let sum = match reply(alloc, d, &Command::Digest(b"system_a")) {
        Some(Reply::Digest(sum)) => sum,
        _ => return Err("a digest is told".into()),
    };
    let device = opened(alloc, d)?;
    let count = match &device.overlay {
        Some(part) => match &part.image {
            PartImage::Written(_, view) => Some(view.count()),
            _ => return Err("an overlay is read through its store".into()),
        },
        None => None,
    };
    Ok((sum, count))
}

// Begins an overlay, and drops one.
fn begin(alloc: Global, d: &mut MemPort, size: u64) -> bool {
    reply(alloc, d, &Command::Overlay(b"system_a", size)) == Some(Reply::Done)
}

fn discard(alloc: Global, d: &mut MemPort) -> bool {
    reply(alloc, d, &Command::OverlayDiscard) == Some(Reply::Done)
}

// Whether the image is printed.
fn is_printed(alloc: Global, d: &mut MemPort) -> Result<bool, Fail> {
    let name = Name36::parse(b"system_a").ok().ok_or("it is a name")?;
    Ok(reply(alloc, d, &Command::Print(b"system_a")) == Some(Reply::Bytes(name)))
}

// Whether the partition's own block from this sector on is of zeros.
fn is_zero(d: &mut MemPort, first: u64) -> bool {
    for i in 0..8u64 {
        if sector(d, first.saturating_add(i)) != Some([0; 512]) {
            return false;
        }
    }
    true
}

#[test]
fn a_block_that_is_written_over_is_read_in_place_of_the_partitions(
    rt: HostRuntime,
) -> Result<(), Fail> {
    let alloc = rt.alloc();
    let mut d = device_of(alloc, 3, 16)?;
    assert!(rt; read(alloc, &mut d)? == (BASE, None));
    assert!(rt; begin(alloc, &mut d, 0));
    assert!(rt; read(alloc, &mut d)? == (BASE, Some(0)));
    assert!(rt; write(alloc, &mut d, 1, 7)? == Some(Reply::Done));
    assert!(rt; read(alloc, &mut d)? == (SEVENS, Some(1)));
    assert!(rt; is_printed(alloc, &mut d)?);
    assert!(rt; is_zero(&mut d, FIRST + 8));
    // What is written last is read, through the one exception.
    assert!(rt; write(alloc, &mut d, 1, 9)? == Some(Reply::Done));
    assert!(rt; read(alloc, &mut d)? == (NINES, Some(1)));
    Ok(())
}

#[test]
fn what_was_written_before_a_discard_is_not_read(rt: HostRuntime) -> Result<(), Fail> {
    let alloc = rt.alloc();
    let mut d = device_of(alloc, 3, 16)?;
    assert!(rt; begin(alloc, &mut d, 0));
    assert!(rt; write(alloc, &mut d, 1, 7)? == Some(Reply::Done));
    assert!(rt; write(alloc, &mut d, 2, 7)? == Some(Reply::Done));
    assert!(rt; discard(alloc, &mut d));
    assert!(rt; read(alloc, &mut d)? == (BASE, None));
    assert!(rt; begin(alloc, &mut d, 0));
    assert!(rt; read(alloc, &mut d)? == (BASE, Some(0)));
    assert!(rt; write(alloc, &mut d, 1, 9)? == Some(Reply::Done));
    assert!(rt; read(alloc, &mut d)? == (NINES, Some(1)));
    Ok(())
}

// Writes over the blocks from the first up to the end, block `i` with the byte `i % 251` and this
// much more. Whether each was done.
fn write_each(
    alloc: Global,
    d: &mut MemPort,
    first: u64,
    end: u64,
    more: u8,
) -> Result<bool, Fail> {
    for block in first..end {
        let byte = ((block % 251) as u8).wrapping_add(more);
        if write(alloc, d, block, byte)? != Some(Reply::Done) {
            return Ok(false);
        }
    }
    Ok(true)
}

// A page has 256 exceptions.
#[test]
fn every_page_of_exceptions_is_read_and_none_of_an_older_overlay(
    rt: HostRuntime,
) -> Result<(), Fail> {
    let alloc = rt.alloc();
    let mut d = device_of(alloc, 257, 520)?;
    assert!(rt; begin(alloc, &mut d, 0));
    for (first, end, sum) in [(0, 255, OF_255), (255, 256, OF_256), (256, 257, OF_257)] {
        assert!(rt; write_each(alloc, &mut d, first, end, 1)?, "from {first}");
        assert!(rt; read(alloc, &mut d)? == (sum, Some(end)), "up to {end}");
    }
    assert!(rt; discard(alloc, &mut d));
    // A store that is full with its first page, and what was in the second is not read.
    assert!(rt; begin(alloc, &mut d, 259 * 4096));
    assert!(rt; write_each(alloc, &mut d, 0, 256, 2)?);
    assert!(rt; read(alloc, &mut d)? == (AGAIN, Some(256)));
    let full = Some(Reply::Refused(Refusal::StoreFull(260, 259)));
    assert!(rt; write(alloc, &mut d, 256, 7)? == full);
    assert!(rt; read(alloc, &mut d)? == (AGAIN, Some(256)));
    Ok(())
}

// A command, how many bytes are staged, and why it is refused.
type Refused = (Command<'static>, usize, Refusal);

const WITHOUT: [Refused; 8] = [
    (Command::OverlayWrite(1), 4096, Refusal::NotOverlaid),
    (Command::OverlayDiscard, 0, Refusal::NotOverlaid),
    (Command::Overlay(b"system_b", 0), 0, Refusal::BadName),
    (Command::Overlay(b"system", 0), 0, Refusal::BadName),
    (Command::Overlay(b"x_a", 0), 0, Refusal::Unknown),
    (Command::Overlay(b"system_a", 4096), 0, Refusal::BadSize),
    (
        Command::Overlay(b"system_a", (1 << 40) + 1),
        0,
        Refusal::BadSize,
    ),
    (
        Command::Overlay(b"system_a", 57344),
        0,
        Refusal::NoRoom(17, 16),
    ),
];

// Over an overlay whose store has room for two exceptions and has them.
const OVER: [Refused; 13] = [
    (Command::Overlay(b"system_a", 0), 0, Refusal::NotIdle),
    (Command::Begin, 0, Refusal::NotIdle),
    (Command::Factory, 0, Refusal::NotIdle),
    (Command::UpdateSuper, 4096, Refusal::NotIdle),
    (Command::Finish, 0, Refusal::NotInstalling),
    (Command::Cancel, 0, Refusal::NothingToCancel),
    (Command::BeginMerge, 0, Refusal::NotStaged),
    (Command::Merge(1), 0, Refusal::NotMerging),
    (Command::OverlayWrite(1), 4095, Refusal::BadLength(4095)),
    (Command::OverlayWrite(1), 4097, Refusal::BadLength(4097)),
    (Command::OverlayWrite(3), 4096, Refusal::BadBlock(3, 3)),
    (Command::OverlayWrite(2), 4096, Refusal::StoreFull(5, 4)),
    (Command::OverlayWrite(1), 4096, Refusal::StoreFull(5, 4)),
];

// Each is refused, and nothing is written.
fn each_is_refused(
    rt: &impl Abort,
    alloc: Global,
    d: &mut MemPort,
    refused: &[Refused],
) -> Result<(), Fail> {
    let syncs = d.syncs();
    for (command, staged, refusal) in refused {
        let bytes = vec![in alloc; 9u8; *staged]?;
        let told = reply_staged(alloc, d, command, Some(&bytes));
        assert!(rt;
            told == Some(Reply::Refused(*refusal)),
            "{command:?}: {told:?}"
        );
    }
    assert!(rt; d.syncs() == syncs);
    Ok(())
}

#[test]
fn what_an_overlay_refuses_changes_nothing(rt: HostRuntime) -> Result<(), Fail> {
    let alloc = rt.alloc();
    let mut d = device_of(alloc, 3, 16)?;
    each_is_refused(&rt, alloc, &mut d, &WITHOUT)?;
    assert!(rt; begin(alloc, &mut d, 16384));
    let write_none = reply(alloc, &mut d, &Command::OverlayWrite(1));
    assert!(rt; write_none == Some(Reply::Refused(Refusal::NothingStaged)));
    assert!(rt; write(alloc, &mut d, 1, 7)? == Some(Reply::Done));
    assert!(rt; write(alloc, &mut d, 2, 0)? == Some(Reply::Done));
    each_is_refused(&rt, alloc, &mut d, &OVER)?;
    assert!(rt; read(alloc, &mut d)? == (SEVENS, Some(2)));
    // While an update is installed there is no overlay.
    assert!(rt; discard(alloc, &mut d));
    assert!(rt; reply(alloc, &mut d, &Command::Begin) == Some(Reply::Done));
    each_is_refused(&rt, alloc, &mut d, &OVER[..1])
}
