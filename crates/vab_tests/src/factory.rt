// A factory install: the target stands apart from the source, and its images are written in place.

use crate::packets::{Case, SYSTEM, put_packet, session};
use crate::runs::{SECTORS, Step, steps, steps_on};
use crate::staged::MADE;
use std::alloc::Global;
use std::process::Abort;
use std::test::Fail;
use vab_disk::MemPort;

const WRITTEN: &[u8] = b"FAILpartition is already written";

// Runs a session of these packets.
fn serve(rt: &impl Abort, alloc: Global, d: MemPort, cases: &[Case<'_>]) -> Result<MemPort, Fail> {
    let (input, told) = session(alloc, cases)?;
    let runs: [Step; 1] = [(&["serve"], &input, 0, &told)];
    steps_on(rt, alloc, d, &runs)
}

// A device of slot a, whose one image `system` has 100 blocks of 256.
fn made(rt: &impl Abort, alloc: Global) -> Result<MemPort, Fail> {
    steps(rt, alloc, SECTORS, &[(&["make"], &SYSTEM, 0, MADE)])
}

#[test]
fn the_space_of_both_slots_is_needed(rt: HostRuntime) -> Result<(), Fail> {
    let alloc = rt.alloc();
    let d = made(&rt, alloc)?;
    let cases: [Case; 8] = [
        (b"oem factory".as_slice(), b"OKAY".as_slice()),
        (b"oem factory", b"FAILan update is in progress"),
        (b"oem begin", b"FAILan update is in progress"),
        (b"getvar:partition-size:system_b", b"FAILunknown partition"),
        (b"create-logical-partition:system_b:409600", b"OKAY"),
        (
            b"create-logical-partition:x_b:233472",
            b"FAILno room: 257 of 256 blocks",
        ),
        (b"create-logical-partition:x_b:229376", b"OKAY"),
        (b"oem finish", b"FAILincomplete: system"),
    ];
    let d = serve(&rt, alloc, d, &cases)?;
    let status = b"cap 256\ncurrent a\nphase installing\n\
        slot a images 1 priority 15 tries 0 successful yes\nimage a system 409600\n\
        slot b none\nplan system 409600 declared\nplan x 229376 declared\n";
    steps_on(&rt, alloc, d, &[(&["status"], b"", 0, status)])?;
    Ok(())
}

#[test]
fn edits_of_a_partition_in_place_are_refused_once_it_is_written(
    rt: HostRuntime,
) -> Result<(), Fail> {
    let alloc = rt.alloc();
    let d = made(&rt, alloc)?;
    let cases: [Case; 20] = [
        (b"oem factory".as_slice(), b"OKAY".as_slice()),
        (
            b"oem snapshot system_b 0",
            b"FAILno store in a factory install",
        ),
        (b"flash:x_b", b"FAILunknown partition"),
        (b"create-logical-partition:x_b:8192", b"OKAY"),
        (b"resize-logical-partition:x_b:8192", b"OKAY"),
        (b"resize-logical-partition:x_b:12288", b"OKAY"),
        (b"resize-logical-partition:x_b:4096", b"OKAY"),
        (b"flash:x_b", b"FAILnothing downloaded"),
        (b"download:00000003", b"DATA00000003"),
        (b"abd", b"OKAY"),
        (b"flash:x_b", b"OKAY"),
        (b"flash:x_b", WRITTEN),
        (b"resize-logical-partition:x_b:4096", WRITTEN),
        (
            b"resize-logical-partition:x_b:1099511627777",
            b"FAILbad size",
        ),
        (b"delete-logical-partition:x_b", WRITTEN),
        (
            b"create-logical-partition:x_b:4096",
            b"FAILpartition exists",
        ),
        (b"getvar:partition-size:x_b", b"OKAY0x1000"),
        (b"create-logical-partition:empty_b:0", b"OKAY"),
        (b"delete-logical-partition:empty_b", b"OKAY"),
        (b"snapshot-update:cancel", b"OKAY"),
    ];
    let d = serve(&rt, alloc, d, &cases)?;
    let again: [Case; 2] = [
        (b"oem factory".as_slice(), b"OKAY".as_slice()),
        (b"oem finish", b"OKAY"),
    ];
    serve(&rt, alloc, d, &again)?;
    Ok(())
}

// An image of three bytes in a partition of one block, and one of none in one of none.
fn flashes(alloc: Global) -> Result<(Vec<u8>, Vec<u8>), Fail> {
    let cases: [Case; 6] = [
        (b"oem factory".as_slice(), b"OKAY".as_slice()),
        (b"create-logical-partition:x_b:4096", b"OKAY"),
        (b"create-logical-partition:empty_b:0", b"OKAY"),
        (b"download:00000003", b"DATA00000003"),
        (b"abd", b"OKAY"),
        (b"flash:x_b", b"OKAY"),
    ];
    let (mut input, mut told) = session(alloc, &cases)?;
    put_packet(&mut input, b"download:0")?;
    put_packet(&mut told, b"DATA00000000")?;
    put_packet(&mut told, b"OKAY")?;
    for (packet, reply) in [
        (
            b"oem finish".as_slice(),
            b"FAILincomplete: empty".as_slice(),
        ),
        (b"flash:empty_b", b"OKAY"),
        (b"oem finish", b"OKAY"),
    ] {
        put_packet(&mut input, packet)?;
        put_packet(&mut told, reply)?;
    }
    Ok((input, told))
}

#[test]
fn images_in_place_are_booted_and_merged_at_once(rt: HostRuntime) -> Result<(), Fail> {
    let alloc = rt.alloc();
    let (input, told) = flashes(alloc)?;
    let d = made(&rt, alloc)?;
    let d = steps_on(&rt, alloc, d, &[(&["serve"], &input, 0, &told)])?;
    let cases: [Case; 8] = [
        (
            b"getvar:snapshot-update-status".as_slice(),
            b"OKAYsnapshotted".as_slice(),
        ),
        (b"set_active:b", b"OKAY"),
        (b"oem boot", b"OKAYb"),
        (b"oem mark-successful", b"OKAY"),
        (b"oem begin-merge", b"OKAY"),
        (b"getvar:snapshot-update-status", b"OKAYmerging"),
        (b"oem merge 1", b"OKAYmerged"),
        (b"getvar:snapshot-update-status", b"OKAYnone"),
    ];
    let d = serve(&rt, alloc, d, &cases)?;
    let mut printed = Vec::from_slice(alloc, b"abd")?;
    printed.extend_from_slice(&[0; 4093])?;
    let runs: [Step; 3] = [
        (&["print", "x_b"], b"", 0, &printed),
        (&["print", "empty_b"], b"", 0, b""),
        (
            &["print", "system_a"],
            b"",
            4,
            b"refused: slot has no images\n",
        ),
    ];
    steps_on(&rt, alloc, d, &runs)?;
    Ok(())
}
