// An update that is ready: both slots have images, are booted and marked; the target is dropped.

use crate::packets::{Case, SYSTEM, session};
use crate::runs::{ONE, SECTORS, Step, port, steps, steps_on, words};
use crate::sessions::{damage, put, sector};
use crate::sets::filled;
use crate::slots::device_of_b;
use std::alloc::Global;
use std::process::Abort;
use std::test::Fail;
use vab_cli::run;
use vab_disk::{CallKind, MemPort};

pub(crate) const MADE: &[u8] = b"made 1 images, 100 of 256 blocks\n";

// Runs a session of these packets, and asks for the first bytes that boot control has of the slots.
pub(crate) fn serve(
    rt: &impl Abort,
    alloc: Global,
    d: MemPort,
    cases: &[Case<'_>],
    slots: [u8; 4],
) -> Result<MemPort, Fail> {
    let (input, told) = session(alloc, cases)?;
    let runs: [Step; 1] = [(&["serve"], &input, 0, &told)];
    let mut d = steps_on(rt, alloc, d, &runs)?;
    let bytes = sector(&mut d, 4).ok_or("the sector is read")?;
    assert_eq!(rt; &bytes[12..16], slots.as_slice());
    Ok(d)
}

// A device of slot a with an update of the same image, which is to be booted next.
pub(crate) fn staged(rt: &impl Abort, alloc: Global) -> Result<MemPort, Fail> {
    let d = steps(rt, alloc, SECTORS, &[(&["make"], &SYSTEM, 0, MADE)])?;
    let cases: [Case; 9] = [
        (b"oem begin".as_slice(), b"OKAY".as_slice()),
        (b"oem finish", b"OKAY"),
        (b"oem finish", b"FAILno update is being installed"),
        (b"oem begin", b"FAILan update is in progress"),
        (b"flash:system_b", b"FAILno update is being installed"),
        (b"getvar:snapshot-update-status", b"OKAYsnapshotted"),
        (b"getvar:slot-unbootable:b", b"OKAYyes"),
        (b"set_active:b", b"OKAY"),
        (b"getvar:slot-retry-count:b", b"OKAY6"),
    ];
    serve(rt, alloc, d, &cases, [0x8e, 0, 0x6f, 0])
}

#[test]
fn a_target_is_booted_until_its_tries_are_spent(rt: HostRuntime) -> Result<(), Fail> {
    let alloc = rt.alloc();
    let d = staged(&rt, alloc)?;
    let cases: [Case; 11] = [
        (b"oem boot".as_slice(), b"OKAYb".as_slice()),
        (b"oem boot", b"OKAYb"),
        (b"oem boot", b"OKAYb"),
        (b"oem boot", b"OKAYb"),
        (b"oem boot", b"OKAYb"),
        (b"oem boot", b"OKAYb"),
        (b"getvar:current-slot", b"OKAYb"),
        (b"getvar:slot-retry-count:b", b"OKAY0"),
        (b"snapshot-update:cancel", b"FAILthe target slot is running"),
        (b"oem boot", b"OKAYa"),
        (b"getvar:slot-unbootable:b", b"OKAYyes"),
    ];
    let d = serve(&rt, alloc, d, &cases, [0x8e, 0, 0x0f, 0])?;
    let dropped: [Case; 4] = [
        (b"snapshot-update:cancel".as_slice(), b"OKAY".as_slice()),
        (b"getvar:snapshot-update-status", b"OKAYnone"),
        (b"oem digest system_b", b"FAILslot has no images"),
        (b"oem begin", b"OKAY"),
    ];
    serve(&rt, alloc, d, &dropped, [0x8e, 0, 0, 0])?;
    Ok(())
}

#[test]
fn a_target_that_works_is_marked_and_not_dropped(rt: HostRuntime) -> Result<(), Fail> {
    let alloc = rt.alloc();
    let d = staged(&rt, alloc)?;
    let marked: [Case; 4] = [
        (b"oem boot".as_slice(), b"OKAYb".as_slice()),
        (b"oem mark-successful", b"OKAY"),
        (b"snapshot-update:cancel", b"FAILthe target slot is running"),
        (b"getvar:slot-successful:b", b"OKAYyes"),
    ];
    let d = serve(&rt, alloc, d, &marked, [0x8e, 0, 0x8f, 0])?;
    let back: [Case; 4] = [
        (b"oem boot".as_slice(), b"OKAYb".as_slice()),
        (b"set_active:a", b"OKAY"),
        (b"oem boot", b"OKAYa"),
        (b"oem merge 1", b"FAILno merge is in progress"),
    ];
    let d = serve(&rt, alloc, d, &back, [0xef, 0, 0x8e, 0])?;
    let dropped: [Case; 2] = [
        (b"snapshot-update:cancel".as_slice(), b"OKAY".as_slice()),
        (b"set_active:b", b"FAILslot has no images"),
    ];
    serve(&rt, alloc, d, &dropped, [0xef, 0, 0x8e, 0])?;
    Ok(())
}

// What isn't written is named by the least base name.
#[test]
fn an_incomplete_update_is_not_finished(rt: HostRuntime) -> Result<(), Fail> {
    let alloc = rt.alloc();
    let d = steps(&rt, alloc, SECTORS, &[(&["make"], &SYSTEM, 0, MADE)])?;
    let cases: [Case; 11] = [
        (b"oem begin".as_slice(), b"OKAY".as_slice()),
        (b"resize-logical-partition:system_b:163840", b"OKAY"),
        (b"resize-logical-partition:system_b:409600", b"OKAY"),
        (b"oem finish", b"FAILincomplete: system"),
        (b"create-logical-partition:z_b:0", b"OKAY"),
        (b"create-logical-partition:b_b:0", b"OKAY"),
        (b"create-logical-partition:b.c_b:0", b"OKAY"),
        (b"oem finish", b"FAILincomplete: b"),
        (b"delete-logical-partition:b_b", b"OKAY"),
        (b"oem finish", b"FAILincomplete: b.c"),
        (b"set_active:b", b"FAILslot has no images"),
    ];
    serve(&rt, alloc, d, &cases, [0x8f, 0, 0, 0])?;
    Ok(())
}

// A short image has zeros behind it, whatever the disk held, and an empty one no bytes.
#[test]
fn images_of_a_target_are_read_through_their_stores(rt: HostRuntime) -> Result<(), Fail> {
    let alloc = rt.alloc();
    let mut d = port(alloc, SECTORS, b"")?;
    for at in 6144..6400u64 {
        assert!(rt; put(&mut d, at, &[255; 512]));
    }
    let short = [b'A'; 5000];
    let cases: [Case; 13] = [
        (b"oem begin".as_slice(), b"OKAY".as_slice()),
        (b"create-logical-partition:t_b:12288", b"OKAY"),
        (b"create-logical-partition:empty_b:0", b"OKAY"),
        (b"oem snapshot t_b 0", b"OKAY"),
        (b"oem snapshot empty_b 0", b"OKAY"),
        (b"download:00001388", b"DATA00001388"),
        (&short, b"OKAY"),
        (b"flash:t_b", b"OKAY"),
        (b"download:0", b"DATA00000000"),
        (b"flash:empty_b", b"OKAY"),
        (b"oem finish", b"OKAY"),
        (b"getvar:partition-size:t_b", b"OKAY0x3000"),
        (
            b"oem digest empty_b",
            b"OKAYe3b0c44298fc1c149afbf4c8996fb92427ae41e4649b934ca495991b7852b855",
        ),
    ];
    let (input, told) = session(alloc, &cases)?;
    // The download of no bytes has both its replies at once.
    let mut both = Vec::new(alloc);
    for byte in told.as_slice() {
        both.push(*byte)?;
        if both.as_slice().ends_with(b"DATA00000000") {
            both.extend_from_slice(b"\0\0\0\0\0\0\0\x04OKAY")?;
        }
    }
    let image = filled(alloc, &short, 12288)?;
    let none = b"e3b0c44298fc1c149afbf4c8996fb92427ae41e4649b934ca495991b7852b855\n";
    let runs: [Step; 6] = [
        (&["serve", "--fresh"], &input, 0, &both),
        (&["print", "t_b"], b"", 0, &image),
        (&["digest", "empty_b"], b"", 0, none),
        (&["print", "t_a"], b"", 4, b"refused: unknown partition\n"),
        (&["activate", "b"], b"", 0, b"active b\n"),
        (&["cancel"], b"", 0, b"cancelled\n"),
    ];
    steps_on(&rt, alloc, d, &runs)?;
    Ok(())
}

#[test]
fn an_update_of_slot_b_is_booted_and_dropped(rt: HostRuntime) -> Result<(), Fail> {
    let alloc = rt.alloc();
    let d = device_of_b(&rt, alloc)?;
    let cases: [Case; 12] = [
        (b"oem begin".as_slice(), b"OKAY".as_slice()),
        (b"oem snapshot x_a 0", b"OKAY"),
        (b"download:00000003", b"DATA00000003"),
        (b"abd", b"OKAY"),
        (b"flash:x_a", b"OKAY"),
        (b"oem finish", b"OKAY"),
        (
            b"oem digest x_b",
            b"OKAY73fbfd76aa2143de160edd509ff93771f44db16924bd51235f311f32aaf5fc42",
        ),
        (b"set_active:a", b"OKAY"),
        (b"oem boot", b"OKAYa"),
        (b"snapshot-update:cancel", b"FAILthe target slot is running"),
        (b"set_active:b", b"OKAY"),
        (b"oem boot", b"OKAYb"),
    ];
    let d = serve(&rt, alloc, d, &cases, [0x5e, 0, 0xef, 0])?;
    let image = filled(alloc, b"abd", 4096)?;
    let d = steps_on(&rt, alloc, d, &[(&["print", "x_a"], b"", 0, &image)])?;
    let dropped: [Case; 2] = [
        (b"snapshot-update:cancel".as_slice(), b"OKAY".as_slice()),
        (b"oem digest x_a", b"FAILslot has no images"),
    ];
    serve(&rt, alloc, d, &dropped, [0x5e, 0, 0xef, 0])?;
    Ok(())
}

// A target of the higher priority that wasn't booted is dropped, and the source is booted.
#[test]
fn a_target_that_was_not_booted_is_dropped(rt: HostRuntime) -> Result<(), Fail> {
    let alloc = rt.alloc();
    let d = staged(&rt, alloc)?;
    let runs: [Step; 5] = [
        (&["cancel"], b"", 0, b"cancelled\n".as_slice()),
        (&["cancel"], b"", 4, b"refused: no update to cancel\n"),
        (&["boot"], b"", 0, b"booted a\n"),
        (
            &["digest", "system_b"],
            b"",
            4,
            b"refused: slot has no images\n",
        ),
        (&["activate", "b"], b"", 4, b"refused: slot has no images\n"),
    ];
    let d = steps_on(&rt, alloc, d, &runs)?;
    serve(&rt, alloc, d, &[(b"oem begin", b"OKAY")], [0x8e, 0, 0, 0])?;
    Ok(())
}

// An update without partitions is one, and isn't dropped by a verb once it was booted.
#[test]
fn an_update_without_partitions_is_booted(rt: HostRuntime) -> Result<(), Fail> {
    let alloc = rt.alloc();
    let cases: [Case; 3] = [
        (b"oem begin".as_slice(), b"OKAY".as_slice()),
        (b"oem finish", b"OKAY"),
        (b"set_active:b", b"OKAY"),
    ];
    let (input, told) = session(alloc, &cases)?;
    let runs: [Step; 5] = [
        (&["serve", "--fresh"], &input, 0, &told),
        (&["boot"], b"", 0, b"booted b\n"),
        (&["mark"], b"", 0, b"marked b\n"),
        (
            &["cancel"],
            b"",
            4,
            b"refused: the target slot is running\n",
        ),
        (&["activate", "a"], b"", 0, b"active a\n"),
    ];
    steps(&rt, alloc, SECTORS, &runs)?;
    Ok(())
}

// Whatever boot control said of the target, a finish says that it has no priority.
#[test]
fn a_finish_says_nothing_of_its_target(rt: HostRuntime) -> Result<(), Fail> {
    let alloc = rt.alloc();
    let mut ready = staged(&rt, alloc)?;
    let control = sector(&mut ready, 4).ok_or("the sector is read")?;
    let d = steps(&rt, alloc, SECTORS, &[(&["make"], &SYSTEM, 0, MADE)])?;
    let mut d = serve(&rt, alloc, d, &[(b"oem begin", b"OKAY")], [0x8f, 0, 0, 0])?;
    assert!(rt; put(&mut d, 4, &control));
    let cases: [Case; 4] = [
        (
            b"set_active:b".as_slice(),
            b"FAILslot has no images".as_slice(),
        ),
        (b"getvar:slot-retry-count:b", b"OKAY0"),
        (b"oem finish", b"OKAY"),
        (b"oem boot", b"OKAYa"),
    ];
    serve(&rt, alloc, d, &cases, [0x8e, 0, 0, 0])?;
    Ok(())
}

// One good copy of the target's table suffices, and the bad one is repaired; without one there is
// no device.
#[test]
fn a_table_of_a_ready_target_is_repaired(rt: HostRuntime) -> Result<(), Fail> {
    let alloc = rt.alloc();
    for (primary, backup, status, told) in [
        (true, false, 0, b"booted b\n".as_slice()),
        (false, true, 0, b"booted b\n".as_slice()),
        (true, true, 5, b"not a device\n".as_slice()),
    ] {
        let mut d = staged(&rt, alloc)?;
        let good = sector(&mut d, 4248).ok_or("the sector is read")?;
        assert!(rt; !primary || damage(&mut d, 4248, 300, 0xff));
        assert!(rt; !backup || damage(&mut d, 4504, 300, 0xff));
        let mut d = steps_on(&rt, alloc, d, &[(&["boot"], b"", status, told)])?;
        for at in [4248, 4504u64] {
            let is_good = matches!(sector(&mut d, at), Some(bytes) if bytes == good);
            assert_eq!(rt; is_good, status == 0);
        }
    }
    Ok(())
}

// A session of refusals and questions makes no sync, and no sector of the tables changes.
fn only_tells(
    rt: &impl Abort,
    alloc: Global,
    d: MemPort,
    cases: &[Case<'_>],
) -> Result<MemPort, Fail> {
    let mut d = d;
    let before = sector(&mut d, 4248).ok_or("the sector is read")?;
    let (input, told) = session(alloc, cases)?;
    let mut d = steps_on(rt, alloc, d, &[(&["serve"], &input, 0, &told)])?;
    assert_eq!(rt; d.syncs(), 0);
    let after = sector(&mut d, 4248).ok_or("the sector is read")?;
    assert!(rt; before == after);
    Ok(d)
}

#[test]
fn a_refused_command_writes_nothing(rt: HostRuntime) -> Result<(), Fail> {
    let alloc = rt.alloc();
    let d = steps(&rt, alloc, SECTORS, &[(&["make"], &SYSTEM, 0, MADE)])?;
    let idle: [Case; 7] = [
        (
            b"set_active:b".as_slice(),
            b"FAILslot has no images".as_slice(),
        ),
        (b"snapshot-update:cancel", b"FAILno update to cancel"),
        (b"oem finish", b"FAILno update is being installed"),
        (
            b"create-logical-partition:x_b:0",
            b"FAILno update is being installed",
        ),
        (b"flash:system_b", b"FAILno update is being installed"),
        (b"oem merge 1", b"FAILno merge is in progress"),
        (b"getvar:current-slot", b"OKAYa"),
    ];
    let d = only_tells(&rt, alloc, d, &idle)?;
    let d = serve(&rt, alloc, d, &[(b"oem begin", b"OKAY")], [0x8f, 0, 0, 0])?;
    let installing: [Case; 6] = [
        (
            b"oem begin".as_slice(),
            b"FAILan update is in progress".as_slice(),
        ),
        (
            b"create-logical-partition:system_b:0",
            b"FAILpartition exists",
        ),
        (b"resize-logical-partition:x_b:0", b"FAILunknown partition"),
        (
            b"oem snapshot system_b 8388608",
            b"FAILno room: 2148 of 256 blocks",
        ),
        (b"delete-logical-partition:x_b", b"FAILunknown partition"),
        (b"flash:system_b", b"FAILpartition has no store"),
    ];
    only_tells(&rt, alloc, d, &installing)?;
    let ready: [Case; 4] = [
        (
            b"oem begin".as_slice(),
            b"FAILan update is in progress".as_slice(),
        ),
        (b"oem finish", b"FAILno update is being installed"),
        (
            b"delete-logical-partition:system_b",
            b"FAILno update is being installed",
        ),
        (b"set_active:c", b"FAILbad argument"),
    ];
    only_tells(&rt, alloc, staged(&rt, alloc)?, &ready)?;
    Ok(())
}

// The store of an image that differs in 256 blocks needs a second area, which is zeroed.
#[test]
fn a_full_area_has_a_zeroed_one_behind_it(rt: HostRuntime) -> Result<(), Fail> {
    let alloc = rt.alloc();
    let mut d = port(alloc, 10264, b"")?;
    for at in 10256..10264u64 {
        assert!(rt; put(&mut d, at, &[255; 512]));
    }
    let mut big = Vec::new(alloc);
    for _ in 0..1_048_576u64 {
        big.push(1u8)?;
    }
    let cases: [Case; 13] = [
        (b"oem begin".as_slice(), b"OKAY".as_slice()),
        (b"create-logical-partition:big_b:1048576", b"OKAY"),
        (b"oem snapshot big_b 1056768", b"OKAY"),
        (b"download:00100000", b"DATA00100000"),
        (&big, b"OKAY"),
        (b"flash:big_b", b"FAILstore full: 259 of 258 blocks"),
        (b"snapshot-update:cancel", b"OKAY"),
        (b"oem begin", b"OKAY"),
        (b"create-logical-partition:big_b:1048576", b"OKAY"),
        (b"oem snapshot big_b 1060864", b"OKAY"),
        (
            b"create-logical-partition:x_b:4096",
            b"FAILno room: 516 of 515 blocks",
        ),
        (b"flash:big_b", b"OKAY"),
        (b"oem finish", b"OKAY"),
    ];
    let (input, told) = session(alloc, &cases)?;
    let runs: [Step; 2] = [
        (&["serve", "--fresh"], &input, 0, &told),
        (&["print", "big_b"], b"", 0, &big),
    ];
    let mut d = steps_on(&rt, alloc, d, &runs)?;
    for at in 10256..10264u64 {
        let bytes = sector(&mut d, at).ok_or("the sector is read")?;
        assert_eq!(rt; bytes.as_slice(), [0; 512].as_slice());
    }
    Ok(())
}

// The status of a session whose disk call of this number fails, and the disk.
fn failing(alloc: Global, d: MemPort, input: &[u8], nth: u64) -> Result<(u8, MemPort), Fail> {
    let mut d = d.next_run(input.to_vec(alloc)?);
    d.fail_at(CallKind::Disk, nth)
        .map_err(|_| Fail::from("memory"))?;
    let serve = words(alloc, &["serve"])?;
    let status = run(alloc, &serve, &mut d).code();
    Ok((status, d))
}

// Wherever a call of a finish fails, the update is installed or ready, and once `OKAY` is told it
// is ready. The source's image is the same.
#[test]
fn a_finish_that_fails_leaves_an_update_installed_or_ready(rt: HostRuntime) -> Result<(), Fail> {
    let alloc = rt.alloc();
    let (begin, begun) = session(alloc, &[(b"oem begin", b"OKAY")])?;
    let (input, told) = session(alloc, &[(b"oem finish", b"OKAY")])?;
    let sum = b"73fbfd76aa2143de160edd509ff93771f44db16924bd51235f311f32aaf5fc42\n";
    let made = b"made 1 images, 1 of 256 blocks\n".as_slice();
    let first: [Step; 2] = [
        (&["make"], &ONE, 0, made),
        (&["serve"], &begin, 0, begun.as_slice()),
    ];
    let (asked, _) = session(alloc, &[(b"oem finish", b"")])?;
    let (_, ready) = session(alloc, &[(b"", b"FAILno update is being installed")])?;
    let serve = words(alloc, &["serve"])?;
    let mut seen = [false; 3];
    for nth in 0..1024u64 {
        let d = steps(&rt, alloc, SECTORS, &first)?;
        let (status, d) = failing(alloc, d, &input, nth)?;
        assert!(rt; told.starts_with(d.told()));
        if status == 0 {
            seen[2] = true;
            break;
        }
        assert_eq!(rt; status, 6);
        let mut d = steps_on(&rt, alloc, d, &[(&["digest", "x_a"], b"", 0, sum)])?;
        d = d.next_run(asked.to_vec(alloc)?);
        assert_eq!(rt; run(alloc, &serve, &mut d).code(), 0);
        let is_ready = d.told() == ready.as_slice();
        assert!(rt; is_ready || d.told() == told.as_slice());
        seen[usize::from(is_ready)] = true;
    }
    assert!(rt; seen.iter().all(|came| *came), "{seen:?}");
    Ok(())
}
