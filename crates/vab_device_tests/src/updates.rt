// An update of a made device: begun, edited, flashed and dropped, each time on the device that is
// opened again.

use crate::devices::{device_of_one, reply, reply_staged};
use std::alloc::Global;
use std::process::Abort;
use std::test::*;
use vab_device::{PartImage, PhaseKind};
use vab_disk::{Disk, MemPort};
use vab_model::{Command, Refusal, Reply};
use vab_recover::start;
use vab_space::Chunk;

// What is planned in a place: the partition's blocks, its store's, `k`, `d` or `w` for kept,
// declared or written, and how many exceptions.
type Planned = (u64, u64, u8, u64);

// What is planned there on a disk; nothing where nothing is planned or there is no such place.
fn planned(alloc: Global, d: &mut MemPort, place: usize) -> Option<Planned> {
    let device = match start(alloc, d) {
        Ok(device) => device,
        Err(_) => return None,
    };
    let plan = match &device.plan {
        Some(plan) => plan.as_slice(),
        None => return None,
    };
    let part = match plan.get(place) {
        Some(part) => part,
        None => return None,
    };
    let store = match &part.store {
        Some(store) => store.len(),
        None => 0,
    };
    let (letter, exceptions) = match &part.image {
        PartImage::Kept => (b'k', 0),
        PartImage::Declared => (b'd', 0),
        PartImage::Written(_, view) => (b'w', view.count()),
    };
    Some((part.map.len(), store, letter, exceptions))
}

// A command, the bytes that are staged, and its reply.
type Step<'a> = (Command<'a>, Option<&'a [u8]>, Reply);

// Carries out these on a disk. Behind them this is planned in the first two places.
fn each_is_told(
    rt: &impl Abort,
    alloc: Global,
    d: &mut MemPort,
    steps: &[Step<'_>],
    plan: [Option<Planned>; 2],
) {
    for (command, staged, told) in steps {
        let reply = reply_staged(alloc, d, command, *staged);
        assert!(rt; reply == Some(*told), "{command:?}: {reply:?}");
    }
    assert!(rt; planned(alloc, d, 0) == plan[0] && planned(alloc, d, 1) == plan[1]);
}

// What is planned at first.
const KEPT: Option<Planned> = Some((1, 0, b'k', 0));

// What an update that isn't begun refuses.
const FIRST: [Step<'static>; 3] = [
    (
        Command::Delete(b"x_b"),
        None,
        Reply::Refused(Refusal::NotInstalling),
    ),
    (
        Command::Flash(b"x_b", Chunk::One),
        Some(b"abc"),
        Reply::Refused(Refusal::NotInstalling),
    ),
    (Command::Begin, None, Reply::Done),
];

const EDITS: [Step<'static>; 8] = [
    (Command::Begin, None, Reply::Refused(Refusal::NotIdle)),
    (Command::Create(b"y_b", 8192), None, Reply::Done),
    (
        Command::Create(b"y_b", 0),
        None,
        Reply::Refused(Refusal::Exists),
    ),
    (
        Command::Resize(b"z_b", 0),
        None,
        Reply::Refused(Refusal::Unknown),
    ),
    (
        Command::Snapshot(b"y_b", 4096),
        None,
        Reply::Refused(Refusal::BadSize),
    ),
    (Command::Snapshot(b"y_b", 0), None, Reply::Done),
    (
        Command::Resize(b"y_b", 4096),
        None,
        Reply::Refused(Refusal::HasStore),
    ),
    (
        Command::Create(b"z_b", 1 << 40),
        None,
        Reply::Refused(Refusal::NoRoom(268435463, 256)),
    ),
];

const FLASHES: [Step<'static>; 6] = [
    (
        Command::Flash(b"x", Chunk::One),
        Some(b"abc"),
        Reply::Refused(Refusal::BadName),
    ),
    (
        Command::Flash(b"z_b", Chunk::One),
        Some(b"abc"),
        Reply::Refused(Refusal::Unknown),
    ),
    (
        Command::Flash(b"x_b", Chunk::One),
        Some(b"abc"),
        Reply::Refused(Refusal::NoStore),
    ),
    (
        Command::Flash(b"y_b", Chunk::One),
        None,
        Reply::Refused(Refusal::NothingStaged),
    ),
    (
        Command::Flash(b"y_b", Chunk::One),
        Some(b"\x3a\xff\x26\xed"),
        Reply::Refused(Refusal::Sparse),
    ),
    (
        Command::Flash(b"y_b", Chunk::One),
        Some(b"abc"),
        Reply::Done,
    ),
];

// A store is as full as the image differs.
const STORES: [Step<'static>; 4] = [
    (
        Command::Flash(b"y_b", Chunk::One),
        Some(b"abc"),
        Reply::Refused(Refusal::Written),
    ),
    (Command::Snapshot(b"x_b", 8192), None, Reply::Done),
    (
        Command::Flash(b"x_b", Chunk::One),
        Some(b"abd"),
        Reply::Refused(Refusal::StoreFull(3, 2)),
    ),
    (
        Command::Flash(b"x_b", Chunk::One),
        Some(b"abc"),
        Reply::Done,
    ),
];

const AGAIN: [Step<'static>; 2] = [
    (
        Command::Cancel,
        None,
        Reply::Refused(Refusal::NothingToCancel),
    ),
    (Command::Begin, None, Reply::Done),
];

#[test]
fn an_update_is_begun_edited_flashed_and_dropped(rt: HostRuntime) -> Result<(), Fail> {
    let alloc = rt.alloc();
    let mut d = device_of_one(alloc)?;
    each_is_told(&rt, alloc, &mut d, &FIRST, [KEPT, None]);
    each_is_told(&rt, alloc, &mut d, &EDITS, [KEPT, Some((2, 4, b'd', 0))]);
    let large = vec![in alloc; 0u8; 8193]?;
    let refused = Reply::Refused(Refusal::TooLarge(8193, 8192));
    let too_large: [Step; 1] = [(Command::Flash(b"y_b", Chunk::One), Some(&large), refused)];
    each_is_told(
        &rt,
        alloc,
        &mut d,
        &too_large,
        [KEPT, Some((2, 4, b'd', 0))],
    );
    let written = Some((2, 4, b'w', 2));
    each_is_told(&rt, alloc, &mut d, &FLASHES, [KEPT, written]);
    // The source's image stays.
    let image = reply(alloc, &mut d, &Command::Print(b"x_a"));
    assert!(rt; matches!(image, Some(Reply::Bytes(_))));
    each_is_told(
        &rt,
        alloc,
        &mut d,
        &STORES,
        [Some((1, 2, b'w', 0)), written],
    );
    // What is dropped is gone from the next update.
    let cancel: [Step; 1] = [(Command::Cancel, None, Reply::Done)];
    each_is_told(&rt, alloc, &mut d, &cancel, [None, None]);
    each_is_told(&rt, alloc, &mut d, &AGAIN, [KEPT, None]);
    Ok(())
}

// Where an update stands, and of the first image of slot b `k` or `w` for its own blocks or through
// its store, and how many exceptions that has.
fn ready(alloc: Global, d: &mut MemPort) -> Option<(PhaseKind, u8, u64)> {
    let device = match start(alloc, d) {
        Ok(device) => device,
        Err(_) => return None,
    };
    let parts = match device.images(1) {
        Some(parts) => parts.as_slice(),
        None => return Some((device.phase(), b'-', 0)),
    };
    let part = match parts.get(0) {
        Some(part) => part,
        None => return None,
    };
    let (letter, exceptions) = match &part.image {
        PartImage::Kept => (b'k', 0),
        PartImage::Declared => (b'd', 0),
        PartImage::Written(_, view) => (b'w', view.count()),
    };
    Some((device.phase(), letter, exceptions))
}

// A store that holds a block which the source has as well counts as it is, and the image is what it
// holds.
#[test]
fn a_store_counts_all_its_exceptions(rt: HostRuntime) -> Result<(), Fail> {
    let alloc = rt.alloc();
    let mut d = device_of_one(alloc)?;
    for command in [Command::Begin, Command::Snapshot(b"x_b", 0)] {
        assert!(rt; reply(alloc, &mut d, &command) == Some(Reply::Done));
    }
    let flashed = reply_staged(
        alloc,
        &mut d,
        &Command::Flash(b"x_b", Chunk::One),
        Some(b"abd"),
    );
    assert!(rt; flashed == Some(Reply::Done));
    assert!(rt; ready(alloc, &mut d) == Some((PhaseKind::Installing(0), b'-', 0)));
    // Somebody else writes that image into the source's block.
    let mut bytes = [0u8; 512];
    bytes[..3].copy_from_slice(b"abd");
    assert!(rt; d.sectors() > 6144 && d.write_sector(6144, &bytes).is_ok() && d.sync().is_ok());
    assert!(rt; reply(alloc, &mut d, &Command::Finish) == Some(Reply::Done));
    assert!(rt; ready(alloc, &mut d) == Some((PhaseKind::Staged(0), b'w', 1)));
    let a = reply(alloc, &mut d, &Command::Digest(b"x_a"));
    assert!(rt; a == reply(alloc, &mut d, &Command::Digest(b"x_b")));
    assert!(rt; matches!(a, Some(Reply::Digest(_))));
    Ok(())
}

// Cuts a command behind so many writes and syncs: whether it was done, and the port.
fn cut(
    alloc: Global,
    d: MemPort,
    stop: u64,
    command: &Command,
    staged: Option<&[u8]>,
) -> (bool, MemPort) {
    let mut d = d;
    d.stop_after(stop);
    let done = reply_staged(alloc, &mut d, command, staged).is_some();
    (done, d.next_run(Vec::new(alloc)))
}

// A disk with an update that is begun.
fn begun(alloc: Global) -> Result<MemPort, Fail> {
    let mut d = device_of_one(alloc)?;
    if reply(alloc, &mut d, &Command::Begin) != Some(Reply::Done) {
        return Err("an update is begun".into());
    }
    Ok(d.next_run(Vec::new(alloc)))
}

// Wherever it is cut, a finish leaves the update installed or ready, and a cancel of a ready one
// ready or dropped. What is acknowledged stands.
#[test]
fn the_end_of_an_installation_is_cut(rt: HostRuntime) -> Result<(), Fail> {
    let alloc = rt.alloc();
    let installed = Some((PhaseKind::Installing(0), b'-', 0));
    let staged = Some((PhaseKind::Staged(0), b'k', 0));
    let mut seen = [false; 4];
    // A finish makes four writes and syncs, a cancel two.
    for stop in 0..7u64 {
        let (done, mut d) = cut(alloc, begun(alloc)?, stop, &Command::Finish, None);
        let kept = ready(alloc, &mut d);
        assert!(rt; kept == staged || (kept == installed && !done));
        seen[usize::from(done)] = true;
        if !done {
            continue;
        }
        let behind = stop.saturating_sub(4);
        let (dropped, mut d) = cut(alloc, d, behind, &Command::Cancel, None);
        let left = ready(alloc, &mut d);
        let idle = left == Some((PhaseKind::Idle, b'-', 0));
        assert!(rt; idle || (left == kept && !dropped));
        seen[2 + usize::from(dropped)] = true;
    }
    assert!(rt; seen == [true; 4], "{seen:?}");
    Ok(())
}

// The steps of an update that are cut, and what is planned behind each.
const CUT: [(Command<'static>, Planned); 3] = [
    (Command::Begin, (1, 0, b'k', 0)),
    (Command::Snapshot(b"x_b", 0), (1, 3, b'd', 0)),
    (Command::Flash(b"x_b", Chunk::One), (1, 3, b'w', 1)),
];

// Wherever it is cut, each of begin, an edit and a flash leaves the device before it or after it.
#[test]
fn an_update_that_is_cut_is_the_old_one_or_the_new_one(rt: HostRuntime) -> Result<(), Fail> {
    let alloc = rt.alloc();
    // Of each step, whether it was cut at some call, and done at another.
    let mut seen = [[false; 2]; 3];
    // A begin makes some 70 calls, most of them zeros over the statuses.
    for stop in 0..112u64 {
        let mut d = device_of_one(alloc)?;
        let mut before = None;
        let stops = [stop, stop.saturating_sub(32) / 4, stop.saturating_sub(77)];
        for (step, (command, after)) in CUT.iter().enumerate() {
            let (done, left) = cut(alloc, d, stops[step], command, Some(b"abd"));
            d = left;
            let now = planned(alloc, &mut d, 0);
            assert!(rt; now == Some(*after) || (now == before && !done));
            seen[step][usize::from(done)] = true;
            if !done {
                break;
            }
            before = now;
        }
    }
    assert!(rt; seen == [[true; 2]; 3], "{seen:?}");
    Ok(())
}
