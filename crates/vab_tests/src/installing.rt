// An update by packets: begun, edited, downloaded, flashed and dropped, each packet with its reply.

use crate::packets::{Case, SYSTEM, put_packet, session};
use crate::runs::{ONE, SECTORS, Step, port, steps, steps_on, words};
use crate::slots::device_of_b;
use std::alloc::Global;
use std::test::Fail;
use vab_cli::run;
use vab_disk::{CallKind, MemPort};

const MADE: &[u8] = b"made 1 images, 100 of 256 blocks\n";

#[test]
fn edits_are_made_by_packets(rt: HostRuntime) -> Result<(), Fail> {
    let cases: [Case; 21] = [
        (b"oem begin".as_slice(), b"OKAY".as_slice()),
        (b"oem begin", b"FAILan update is in progress"),
        (b"getvar:snapshot-update-status", b"OKAYnone"),
        (b"getvar:partition-size:system_b", b"OKAY0x64000"),
        (
            b"resize-logical-partition:system_b:1099511627777",
            b"FAILbad size",
        ),
        (
            b"resize-logical-partition:system_b:1099511627776",
            b"FAILno room: 268435456 of 256 blocks",
        ),
        (
            b"create-logical-partition:x_b:827392",
            b"FAILno room: 302 of 256 blocks",
        ),
        (
            b"create-logical-partition:x_a:4096",
            b"FAILbad partition name",
        ),
        (
            b"create-logical-partition:system_b:0",
            b"FAILpartition exists",
        ),
        (b"create-logical-partition:x_b:8192", b"OKAY"),
        (b"delete-logical-partition:y_b", b"FAILunknown partition"),
        (b"oem snapshot x_b 4096", b"FAILbad size"),
        (b"oem snapshot x_b 0", b"OKAY"),
        (b"oem snapshot x_b 0", b"FAILpartition has a store"),
        (
            b"resize-logical-partition:x_b:4096",
            b"FAILpartition has a store",
        ),
        (
            b"delete-logical-partition:x_b",
            b"FAILpartition has a store",
        ),
        (b"oem finish", b"FAILincomplete: x"),
        (b"oem merge 1", b"FAILno merge is in progress"),
        (b"snapshot-update:cancel", b"OKAY"),
        (b"snapshot-update:cancel", b"FAILno update to cancel"),
        (b"getvar:partition-size:x_b", b"FAILunknown partition"),
    ];
    let (input, told) = session(rt.alloc(), &cases)?;
    let runs: [Step; 2] = [
        (&["make"], &SYSTEM, 0, MADE),
        (&["serve"], &input, 0, &told),
    ];
    steps(&rt, rt.alloc(), SECTORS, &runs)?;
    Ok(())
}

// The staged bytes stay until a flash is done, and an image that is the source's fills no block of
// a store.
#[test]
fn an_update_is_installed_by_packets(rt: HostRuntime) -> Result<(), Fail> {
    let cases: [Case; 25] = [
        (b"oem begin".as_slice(), b"OKAY".as_slice()),
        (b"create-logical-partition:x_b:8192", b"OKAY"),
        (b"create-logical-partition:z_b:0", b"OKAY"),
        (b"oem snapshot x_b 0", b"OKAY"),
        (b"oem snapshot z_b 0", b"OKAY"),
        (b"flash:x_b", b"FAILnothing downloaded"),
        (b"flash:system_b", b"FAILpartition has no store"),
        (b"flash:system_a", b"FAILbad partition name"),
        (b"flash:y_b", b"FAILunknown partition"),
        (b"download:00000004", b"DATA00000004"),
        (b"\x3a\xff\x26\xed", b"OKAY"),
        (b"flash:x_b", b"FAILsparse images are not supported"),
        (b"download:00000003", b"DATA00000003"),
        (b"abd", b"OKAY"),
        (b"flash:z_b", b"FAILimage of 3 bytes for 0 bytes"),
        (b"oem snapshot system_b 8192", b"OKAY"),
        (b"flash:system_b", b"FAILstore full: 3 of 2 blocks"),
        (b"flash:x_b", b"OKAY"),
        (b"flash:system_b", b"FAILnothing downloaded"),
        (b"flash:x_b", b"FAILpartition is already written"),
        (b"getvar:partition-size:x_b", b"OKAY0x2000"),
        (b"download:00000003", b"DATA00000003"),
        (b"abc", b"OKAY"),
        (b"flash:system_b", b"OKAY"),
        (b"set_active:b", b"FAILslot has no images"),
    ];
    let (input, told) = session(rt.alloc(), &cases)?;
    let runs: [Step; 2] = [
        (&["make"], &SYSTEM, 0, MADE),
        (&["serve"], &input, 0, &told),
    ];
    steps(&rt, rt.alloc(), SECTORS, &runs)?;
    Ok(())
}

// What is installed stands behind the end of a session.
#[test]
fn an_update_goes_on_in_the_next_session(rt: HostRuntime) -> Result<(), Fail> {
    let alloc = rt.alloc();
    let first: [Case; 6] = [
        (b"oem begin".as_slice(), b"OKAY".as_slice()),
        (b"oem snapshot system_b 434176", b"OKAY"),
        (b"download:00000003", b"DATA00000003"),
        (b"abd", b"OKAY"),
        (b"flash:system_b", b"OKAY"),
        (b"reboot", b"OKAYa"),
    ];
    let second: [Case; 5] = [
        (
            b"oem begin".as_slice(),
            b"FAILan update is in progress".as_slice(),
        ),
        (b"flash:system_b", b"FAILpartition is already written"),
        (b"getvar:partition-size:system_b", b"OKAY0x64000"),
        (b"snapshot-update:cancel", b"OKAY"),
        (b"oem begin", b"OKAY"),
    ];
    let (first, told) = session(alloc, &first)?;
    let (second, told_then) = session(alloc, &second)?;
    let runs: [Step; 6] = [
        (&["make"], &SYSTEM, 0, MADE),
        (&["serve"], &first, 0, &told),
        (&["boot"], b"", 0, b"booted a\n"),
        (&["activate", "b"], b"", 4, b"refused: slot has no images\n"),
        (
            &["digest", "system_b"],
            b"",
            4,
            b"refused: slot has no images\n",
        ),
        (&["serve"], &second, 0, &told_then),
    ];
    steps(&rt, alloc, SECTORS, &runs)?;
    Ok(())
}

#[test]
fn an_update_is_installed_from_slot_b(rt: HostRuntime) -> Result<(), Fail> {
    let alloc = rt.alloc();
    let cases: [Case; 14] = [
        (b"oem begin".as_slice(), b"OKAY".as_slice()),
        (b"getvar:current-slot", b"OKAYb"),
        (
            b"create-logical-partition:y_b:4096",
            b"FAILbad partition name",
        ),
        (b"create-logical-partition:y_a:4096", b"OKAY"),
        (b"oem snapshot y_a 0", b"OKAY"),
        (b"oem snapshot x_a 8192", b"OKAY"),
        (b"download:00000003", b"DATA00000003"),
        (b"abd", b"OKAY"),
        (b"flash:x_a", b"FAILstore full: 3 of 2 blocks"),
        (b"flash:y_a", b"OKAY"),
        (b"flash:x_a", b"FAILnothing downloaded"),
        (b"set_active:a", b"FAILslot has no images"),
        (b"snapshot-update:cancel", b"OKAY"),
        (b"getvar:partition-size:y_a", b"FAILunknown partition"),
    ];
    let (input, told) = session(alloc, &cases)?;
    let sum = b"73fbfd76aa2143de160edd509ff93771f44db16924bd51235f311f32aaf5fc42\n";
    let runs: [Step; 2] = [
        (&["serve"], &input, 0, &told),
        (&["digest", "x_b"], b"", 0, sum),
    ];
    let d = device_of_b(&rt, alloc)?;
    steps_on(&rt, alloc, d, &runs)?;
    Ok(())
}

#[test]
fn edits_are_refused_at_their_limits(rt: HostRuntime) -> Result<(), Fail> {
    let alloc = rt.alloc();
    // A copy of a table takes 1024 bytes, and each partition of one extent 76.
    let tables: [Case; 8] = [
        (b"oem begin".as_slice(), b"OKAY".as_slice()),
        (b"create-logical-partition:a_b:4096", b"OKAY"),
        (b"create-logical-partition:b_b:4096", b"OKAY"),
        (b"create-logical-partition:c_b:4096", b"OKAY"),
        (b"create-logical-partition:d_b:4096", b"OKAY"),
        (
            b"create-logical-partition:e_b:4096",
            b"FAILtable full: 1044 of 1024 bytes",
        ),
        (b"delete-logical-partition:d_b", b"OKAY"),
        (b"create-logical-partition:e_b:4096", b"OKAY"),
    ];
    // The images of a group take 417792 bytes at most.
    let groups: [Case; 4] = [
        (b"oem begin".as_slice(), b"OKAY".as_slice()),
        (b"create-logical-partition:x_b:8192", b"OKAY"),
        (
            b"create-logical-partition:y_b:4096",
            b"FAILgroup limit: 421888 of 417792 bytes",
        ),
        (b"create-logical-partition:y_b:0", b"OKAY"),
    ];
    let (tables, told) = session(alloc, &tables)?;
    let (groups, told_of_groups) = session(alloc, &groups)?;
    let runs: [Step; 4] = [
        (&["make", "--metadata-max", "1024"], &SYSTEM, 0, MADE),
        (&["serve"], &tables, 0, &told),
        (&["make", "--limit", "417792"], &SYSTEM, 0, MADE),
        (&["serve"], &groups, 0, &told_of_groups),
    ];
    steps(&rt, alloc, SECTORS, &runs)?;
    Ok(())
}

#[test]
fn a_target_has_at_most_64_partitions(rt: HostRuntime) -> Result<(), Fail> {
    let alloc = rt.alloc();
    let (mut input, mut told) = session(alloc, &[(b"oem begin", b"OKAY")])?;
    for letter in *b"abcdefghijklmnopqrstuvwyzABCDEFGHIJKLMNOPQRSTUVWXYZ0123456789_." {
        let mut packet = Vec::from_slice(alloc, b"create-logical-partition:")?;
        packet.push(letter)?;
        packet.extend_from_slice(b"_b:0")?;
        put_packet(&mut input, packet.as_slice())?;
        put_packet(&mut told, b"OKAY")?;
    }
    put_packet(&mut input, b"create-logical-partition:xx_b:0")?;
    put_packet(&mut told, b"FAILmore than 64 partitions")?;
    let runs: [Step; 2] = [
        (&["make"], &ONE, 0, b"made 1 images, 1 of 256 blocks\n"),
        (&["serve"], &input, 0, &told),
    ];
    steps(&rt, alloc, SECTORS, &runs)?;
    Ok(())
}

// The status of a session of an update whose disk call of this number fails, and the disk.
fn failing(alloc: Global, d: MemPort, input: &[u8], nth: u64) -> Result<(u8, MemPort), Fail> {
    let mut d = d.next_run(input.to_vec(alloc)?);
    d.fail_at(CallKind::Disk, nth)
        .map_err(|_| Fail::from("memory"))?;
    let serve = words(alloc, &["serve"])?;
    let status = run(alloc, &serve, &mut d).code();
    Ok((status, d))
}

// Wherever a call fails the source stays, and what was acknowledged stands.
#[test]
fn what_an_update_acknowledged_stands_where_a_call_fails(rt: HostRuntime) -> Result<(), Fail> {
    let alloc = rt.alloc();
    let cases: [Case; 5] = [
        (b"oem begin".as_slice(), b"OKAY".as_slice()),
        (b"oem snapshot x_b 0", b"OKAY"),
        (b"download:00000003", b"DATA00000003"),
        (b"abd", b"OKAY"),
        (b"flash:x_b", b"OKAY"),
    ];
    let (input, told) = session(alloc, &cases)?;
    let (again, begun) = session(alloc, &[(b"oem begin", b"FAILan update is in progress")])?;
    let (_, anew) = session(alloc, &[(b"oem begin", b"OKAY")])?;
    let sum = b"73fbfd76aa2143de160edd509ff93771f44db16924bd51235f311f32aaf5fc42\n";
    let mut seen = [false; 3];
    for nth in 0..2048u64 {
        let d = port(alloc, SECTORS, b"")?;
        let made: [Step; 1] = [(&["make"], &ONE, 0, b"made 1 images, 1 of 256 blocks\n")];
        let d = steps_on(&rt, alloc, d, &made)?;
        let (status, d) = failing(alloc, d, &input, nth)?;
        assert!(rt; told.starts_with(d.told()));
        if status == 0 {
            seen[2] = true;
            break;
        }
        assert_eq!(rt; status, 6);
        // The greeting and the reply of the begin are 16 bytes.
        let acknowledged = d.told().len() >= 16;
        let mut d = steps_on(&rt, alloc, d, &[(&["digest", "x_a"], b"", 0, sum)])?;
        d = d.next_run(again.to_vec(alloc)?);
        let serve = words(alloc, &["serve"])?;
        assert_eq!(rt; run(alloc, &serve, &mut d).code(), 0);
        assert!(rt; d.told() == begun.as_slice() || !acknowledged && d.told() == anew.as_slice());
        seen[usize::from(acknowledged)] = true;
    }
    assert!(rt; seen.iter().all(|came| *came), "{seen:?}");
    Ok(())
}
