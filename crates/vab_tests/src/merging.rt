// Updates that are merged: begun, in turns and by runs, cut off, and to the end.

use crate::packets::{Case, SYSTEM, session};
use crate::runs::{SECTORS, Step, port, steps, steps_on, words};
use crate::sessions::{put, sector, text_at};
use crate::sets::filled;
use crate::staged::{MADE, serve, staged};
use std::alloc::Global;
use std::process::Abort;
use std::test::Fail;
use vab_cli::run;
use vab_disk::{Blend, Disk, MemPort};

// A port on what is left of this one.
fn left_by(d: &MemPort, blend: Blend) -> Result<MemPort, Fail> {
    d.outcome(blend).map_err(|_| Fail::from("memory"))
}

// Slot b is marked as one that works, and was booted last.
pub(crate) const B_WORKS: [u8; 4] = [0x8e, 0, 0x8f, 0];

// Blocks 10 to 59.
const FIFTY: [u8; 50] = [
    10, 11, 12, 13, 14, 15, 16, 17, 18, 19, 20, 21, 22, 23, 24, 25, 26, 27, 28, 29, 30, 31, 32, 33,
    34, 35, 36, 37, 38, 39, 40, 41, 42, 43, 44, 45, 46, 47, 48, 49, 50, 51, 52, 53, 54, 55, 56, 57,
    58, 59,
];

// The image of `system`, 100 blocks, where each of these blocks begins with its number.
pub(crate) fn image(alloc: Global, blocks: &[u8]) -> Result<Vec<u8>, Fail> {
    let mut image = filled(alloc, b"abc", 409600)?;
    for block in blocks {
        let at = usize::from(*block).saturating_mul(4096);
        if at < image.len() {
            image[at] = *block;
        }
    }
    Ok(image)
}

// An update of `system` to this image through a store of so many bytes, whose slot is booted and
// marked.
fn works(rt: &impl Abort, alloc: Global, store: &[u8], image: &[u8]) -> Result<MemPort, Fail> {
    let d = steps(rt, alloc, SECTORS, &[(&["make"], &SYSTEM, 0, MADE)])?;
    let mut snapshot = Vec::from_slice(alloc, b"oem snapshot system_b ")?;
    snapshot.extend_from_slice(store)?;
    let staged = image.to_vec(alloc)?;
    let cases: [Case; 9] = [
        (b"oem begin".as_slice(), b"OKAY".as_slice()),
        (&snapshot, b"OKAY"),
        (b"download:00064000", b"DATA00064000"),
        (&staged, b"OKAY"),
        (b"flash:system_b", b"OKAY"),
        (b"oem finish", b"OKAY"),
        (b"set_active:b", b"OKAY"),
        (b"oem boot", b"OKAYb"),
        (b"oem mark-successful", b"OKAY"),
    ];
    serve(rt, alloc, d, &cases, B_WORKS)
}

// The same, where the merge is begun and so many blocks are left.
fn merging(
    rt: &impl Abort,
    alloc: Global,
    store: &[u8],
    image: &[u8],
    told: &[u8],
) -> Result<MemPort, Fail> {
    let d = works(rt, alloc, store, image)?;
    steps_on(rt, alloc, d, &[(&["begin-merge"], b"", 0, told)])
}

#[test]
fn a_merge_is_begun_once_its_slot_works(rt: HostRuntime) -> Result<(), Fail> {
    let alloc = rt.alloc();
    let d = staged(&rt, alloc)?;
    let cases: [Case; 6] = [
        (
            b"oem begin-merge".as_slice(),
            b"FAILthe target slot is not running".as_slice(),
        ),
        (b"oem boot", b"OKAYb"),
        (b"oem begin-merge", b"FAILthe slot is not marked successful"),
        (b"oem merge 1", b"FAILno merge is in progress"),
        (b"oem mark-successful", b"OKAY"),
        (b"snapshot-update:merge", b"FAILno merge is in progress"),
    ];
    let d = serve(&rt, alloc, d, &cases, B_WORKS)?;
    let runs: [Step; 5] = [
        (
            &["merge", "1"],
            b"",
            4,
            b"refused: no merge is in progress\n".as_slice(),
        ),
        (&["begin-merge"], b"", 0, b"merging, left 0\n"),
        (&["begin-merge"], b"", 4, b"refused: no update is staged\n"),
        (&["merge", "1"], b"", 0, b"merged\n"),
        (
            &["merge", "1"],
            b"",
            4,
            b"refused: no merge is in progress\n",
        ),
    ];
    steps_on(&rt, alloc, d, &runs)?;
    Ok(())
}

// The image is the source's, so nothing is left to merge.
#[test]
fn a_merge_of_an_empty_store_ends_at_once(rt: HostRuntime) -> Result<(), Fail> {
    let alloc = rt.alloc();
    let image = image(alloc, &[])?;
    let d = works(&rt, alloc, b"8192", &image)?;
    let cases: [Case; 3] = [
        (b"oem begin-merge".as_slice(), b"OKAY".as_slice()),
        (b"oem merge 1", b"OKAYmerged"),
        (b"getvar:snapshot-update-status", b"OKAYnone"),
    ];
    let d = serve(&rt, alloc, d, &cases, B_WORKS)?;
    steps_on(&rt, alloc, d, &[(&["print", "system_b"], b"", 0, &image)])?;
    Ok(())
}

#[test]
fn a_merge_goes_by_turns_to_its_end(rt: HostRuntime) -> Result<(), Fail> {
    let alloc = rt.alloc();
    let image = image(alloc, &[10, 20, 30, 40, 50])?;
    let d = works(&rt, alloc, b"28672", &image)?;
    let cases: [Case; 12] = [
        (b"oem begin-merge".as_slice(), b"OKAY".as_slice()),
        (b"getvar:snapshot-update-status", b"OKAYmerging"),
        (b"oem begin-merge", b"FAILno update is staged"),
        (b"set_active:a", b"FAILslot has no images"),
        (b"oem digest system_a", b"FAILslot has no images"),
        (
            b"snapshot-update:cancel",
            b"FAILmerging cannot be cancelled",
        ),
        (b"oem begin", b"FAILan update is in progress"),
        (b"flash:system_b", b"FAILno update is being installed"),
        (b"oem merge 3", b"OKAYleft 2"),
        (b"getvar:partition-size:system_b", b"OKAY0x64000"),
        (b"set_active:b", b"OKAY"),
        (b"oem boot", b"OKAYb"),
    ];
    let d = serve(&rt, alloc, d, &cases, [0x8e, 0, 0xef, 0])?;
    let print: Step = (&["print", "system_b"], b"", 0, &image);
    let d = steps_on(&rt, alloc, d, &[print])?;
    let ends: [Case; 5] = [
        (b"oem merge 2".as_slice(), b"OKAYleft 0".as_slice()),
        (b"snapshot-update:merge", b"OKAYmerged"),
        (b"oem merge 1", b"FAILno merge is in progress"),
        (b"snapshot-update:cancel", b"FAILno update to cancel"),
        (b"getvar:snapshot-update-status", b"OKAYnone"),
    ];
    let d = serve(&rt, alloc, d, &ends, [0x8e, 0, 0xef, 0])?;
    steps_on(
        &rt,
        alloc,
        d,
        &[print, (&["boot"], b"", 0, b"booted b\n"), print],
    )?;
    Ok(())
}

// Forty of fifty blocks that follow one another are one run, with two syncs; all of them and the
// end are three.
#[test]
fn blocks_that_follow_one_another_are_merged_at_once(rt: HostRuntime) -> Result<(), Fail> {
    let alloc = rt.alloc();
    let image = image(alloc, &FIFTY)?;
    let left: &[u8] = b"merging, left 50\n";
    let print: Step = (&["print", "system_b"], b"", 0, &image);
    let d = merging(&rt, alloc, b"212992", &image, left)?;
    let d = steps_on(&rt, alloc, d, &[(&["merge", "40"], b"", 0, b"left 10\n")])?;
    assert_eq!(rt; d.syncs(), 2);
    let d = steps_on(
        &rt,
        alloc,
        d,
        &[print, (&["merge", "11"], b"", 0, b"merged\n")],
    )?;
    assert_eq!(rt; d.syncs(), 3);
    steps_on(&rt, alloc, d, &[print])?;
    // Cut at the clear, where the one sector of entries has landed and the other hasn't.
    let mut first = merging(&rt, alloc, b"212992", &image, left)?;
    for (landed, told) in [(0usize, b"left 9\n".as_slice()), (1, b"left 31\n")] {
        let mut d = left_by(&first, Blend::New)?;
        d.stop_after(323);
        let forty = words(alloc, &["merge", "40"])?;
        assert_eq!(rt; run(alloc, &forty, &mut d).code(), 6);
        let mut d = d.next_run(Vec::new(alloc));
        let pending = pending_sectors(alloc, &mut first, &mut d)?;
        assert_eq!(rt; pending.len(), 2);
        for (place, (at, settled)) in pending.iter().enumerate() {
            assert!(rt; place == landed || put(&mut d, *at, settled));
        }
        let goes_on: [Step; 4] = [
            print,
            (&["merge", "1"], b"", 0, told),
            (&["merge", "50"], b"", 0, b"merged\n"),
            print,
        ];
        steps_on(&rt, alloc, d, &goes_on)?;
    }
    Ok(())
}

// The sectors that a run has written on a copy of a disk, where it wasn't synced behind that, with
// their settled bytes.
fn pending_sectors(
    alloc: Global,
    before: &mut MemPort,
    d: &mut MemPort,
) -> Result<Vec<(u64, [u8; 512])>, Fail> {
    let mut found = Vec::new(alloc);
    for at in 0..before.sectors() {
        let written = sector(d, at).ok_or("the sector is read")?;
        let first = sector(before, at).ok_or("the sector is read")?;
        if at >= d.sectors() {
            return Err("the sector is read".into());
        }
        if written != first {
            let settled = d.settled_sector(at);
            if settled != written {
                found.push((at, settled))?;
            }
        }
    }
    Ok(found)
}

// A small device of slot b whose partitions, of two blocks and of one, are to be merged.
fn small(rt: &impl Abort, alloc: Global) -> Result<MemPort, Fail> {
    let cases: [Case; 15] = [
        (b"oem begin".as_slice(), b"OKAY".as_slice()),
        (b"create-logical-partition:x_b:8192", b"OKAY"),
        (b"create-logical-partition:y_b:4096", b"OKAY"),
        (b"oem snapshot x_b 0", b"OKAY"),
        (b"oem snapshot y_b 0", b"OKAY"),
        (b"download:00000003", b"DATA00000003"),
        (b"xxx", b"OKAY"),
        (b"flash:x_b", b"OKAY"),
        (b"download:00000003", b"DATA00000003"),
        (b"yyy", b"OKAY"),
        (b"flash:y_b", b"OKAY"),
        (b"oem finish", b"OKAY"),
        (b"set_active:b", b"OKAY"),
        (b"oem boot", b"OKAYb"),
        (b"oem mark-successful", b"OKAY"),
    ];
    let (input, told) = session(alloc, &cases)?;
    let runs: [Step; 2] = [
        (&["serve", "--fresh"], &input, 0, &told),
        (&["begin-merge"], b"", 0, b"merging, left 3\n"),
    ];
    steps_on(rt, alloc, port(alloc, 6400, b"")?, &runs)
}

// The images `x` and `y` of slot b are there.
fn has_images(rt: &impl Abort, alloc: Global, d: MemPort) -> Result<MemPort, Fail> {
    let x = filled(alloc, b"xxx", 8192)?;
    let y = filled(alloc, b"yyy", 4096)?;
    let prints: [Step; 2] = [
        (&["print", "x_b"], b"", 0, &x),
        (&["print", "y_b"], b"", 0, &y),
    ];
    steps_on(rt, alloc, d, &prints)
}

// A merge of all on a disk: its status, and the port.
fn merged(alloc: Global, d: MemPort) -> Result<(u8, MemPort), Fail> {
    let all = words(alloc, &["merge", "4"])?;
    let mut d = d;
    let status = run(alloc, &all, &mut d).code();
    Ok((status, d.next_run(Vec::new(alloc))))
}

// The images are there in front of a merge and behind it, and the slot is booted then. Nothing is
// left to be merged only where a merge may be at its end.
fn goes_on(rt: &impl Abort, alloc: Global, left: MemPort, at_end: bool) -> Result<(), Fail> {
    let left = has_images(rt, alloc, left)?;
    let (status, left) = merged(alloc, left.next_run(Vec::new(alloc)))?;
    assert!(rt; status == 0 || (status == 4 && at_end));
    let left = has_images(rt, alloc, left)?;
    steps_on(rt, alloc, left, &[(&["boot"], b"", 0, b"booted b\n")])?;
    Ok(())
}

// Where that device has its bytes: boot control, the mark and the statuses, the table of slot b in
// two copies, and the blocks that are used.
const PLACES: [(u64, u64); 5] = [
    (4, 5),
    (2048, 2081),
    (4248, 4252),
    (4504, 4508),
    (6144, 6224),
];

// The bytes of the device on a disk.
fn bytes_of(alloc: Global, d: &mut MemPort) -> Result<Vec<u8>, Fail> {
    let mut bytes = Vec::new(alloc);
    for (from, to) in PLACES {
        let part = text_at(alloc, d, from, to - from)?;
        bytes.extend_from_slice(&part)?;
    }
    Ok(bytes)
}

// Whether these bytes are among those that were seen before.
fn is_among(seen: &[Vec<u8>], bytes: &[u8]) -> bool {
    for before in seen {
        if before.as_slice() == bytes {
            return true;
        }
    }
    false
}

// A merge stops behind so many writes and syncs. Whether what was pending then has landed or not,
// it goes on. A disk that was seen before isn't tried again.
fn is_cut(
    rt: &impl Abort,
    alloc: Global,
    first: &MemPort,
    stop: u64,
    seen: &mut Vec<Vec<u8>>,
) -> Result<(), Fail> {
    let mut d = left_by(first, Blend::New)?;
    d.stop_after(stop);
    let (status, d) = merged(alloc, d)?;
    assert!(rt;
        status == if stop < 32 { 6 } else { 0 },
        "after {stop} calls"
    );
    for blend in [Blend::Old, Blend::New] {
        let mut left = left_by(&d, blend)?;
        let bytes = bytes_of(alloc, &mut left)?;
        if !is_among(seen, &bytes) {
            goes_on(rt, alloc, left, stop > 30)?;
            seen.push(bytes)?;
        }
    }
    Ok(())
}

// Two runs, of 19 and 11 writes and syncs, and the end, of two: in each copy, before and behind its
// sync, in each clear, and in the end.
#[test]
fn a_merge_that_is_cut_off_goes_on(rt: HostRuntime) -> Result<(), Fail> {
    let first = small(&rt, rt.alloc())?;
    let mut seen = Vec::new(rt.alloc());
    for stop in [0, 5, 16, 17, 18, 19, 28, 29, 30, 31, 32u64] {
        is_cut(&rt, rt.alloc(), &first, stop, &mut seen)?;
    }
    Ok(())
}

// Partitions without a source have an exception for each block; a store without one is passed over.
#[test]
fn stores_are_merged_in_the_order_of_the_table(rt: HostRuntime) -> Result<(), Fail> {
    let alloc = rt.alloc();
    let d = steps(&rt, alloc, SECTORS, &[(&["make"], &SYSTEM, 0, MADE)])?;
    let cases: [Case; 21] = [
        (b"oem begin".as_slice(), b"OKAY".as_slice()),
        (b"create-logical-partition:z_b:8192", b"OKAY"),
        (b"create-logical-partition:c_b:8192", b"OKAY"),
        (b"oem snapshot z_b 0", b"OKAY"),
        (b"oem snapshot system_b 8192", b"OKAY"),
        (b"oem snapshot c_b 0", b"OKAY"),
        (b"download:00000003", b"DATA00000003"),
        (b"zzz", b"OKAY"),
        (b"flash:z_b", b"OKAY"),
        (b"download:00000003", b"DATA00000003"),
        (b"abc", b"OKAY"),
        (b"flash:system_b", b"OKAY"),
        (b"download:00000003", b"DATA00000003"),
        (b"ccc", b"OKAY"),
        (b"flash:c_b", b"OKAY"),
        (b"oem finish", b"OKAY"),
        (b"set_active:b", b"OKAY"),
        (b"oem boot", b"OKAYb"),
        (b"oem mark-successful", b"OKAY"),
        (b"oem begin-merge", b"OKAY"),
        (b"oem merge 1", b"OKAYleft 3"),
    ];
    let d = serve(&rt, alloc, d, &cases, B_WORKS)?;
    let system = image(alloc, &[])?;
    let z = filled(alloc, b"zzz", 8192)?;
    let c = filled(alloc, b"ccc", 8192)?;
    let runs: [Step; 8] = [
        (&["print", "z_b"], b"", 0, z.as_slice()),
        (&["print", "c_b"], b"", 0, &c),
        (&["merge", "2"], b"", 0, b"left 1\n"),
        (&["print", "system_b"], b"", 0, &system),
        (&["merge", "2"], b"", 0, b"merged\n"),
        (&["print", "z_b"], b"", 0, &z),
        (&["print", "system_b"], b"", 0, &system),
        (&["print", "c_b"], b"", 0, &c),
    ];
    steps_on(&rt, alloc, d, &runs)?;
    Ok(())
}

// The target of the one update is the source of the next.
#[test]
fn an_update_follows_on_a_merged_one(rt: HostRuntime) -> Result<(), Fail> {
    let alloc = rt.alloc();
    let first = image(alloc, &[10, 20, 30])?;
    let second = image(alloc, &[20, 21])?;
    let d = merging(&rt, alloc, b"28672", &first, b"merging, left 3\n")?;
    let d = steps_on(&rt, alloc, d, &[(&["merge", "4"], b"", 0, b"merged\n")])?;
    let cases: [Case; 9] = [
        (b"oem begin".as_slice(), b"OKAY".as_slice()),
        (b"oem snapshot system_a 28672", b"OKAY"),
        (b"download:00064000", b"DATA00064000"),
        (&second, b"OKAY"),
        (b"flash:system_a", b"OKAY"),
        (b"oem finish", b"OKAY"),
        (b"set_active:a", b"OKAY"),
        (b"oem boot", b"OKAYa"),
        (b"oem mark-successful", b"OKAY"),
    ];
    let d = serve(&rt, alloc, d, &cases, [0x8f, 0, 0x8e, 0])?;
    let runs: [Step; 6] = [
        (&["print", "system_b"], b"", 0, first.as_slice()),
        (&["begin-merge"], b"", 0, b"merging, left 3\n"),
        (&["merge", "3"], b"", 0, b"left 0\n"),
        (&["print", "system_a"], b"", 0, &second),
        (&["merge", "1"], b"", 0, b"merged\n"),
        (&["print", "system_a"], b"", 0, &second),
    ];
    steps_on(&rt, alloc, d, &runs)?;
    Ok(())
}
