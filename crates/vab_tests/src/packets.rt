// Packets of a session over a made device, each with its reply.

use crate::runs::{SECTORS, Step, steps};
use std::alloc::Global;
use std::test::Fail;

// One image `system` of three bytes for a partition of 409600 bytes, 100 blocks.
pub(crate) const SYSTEM: [u8; 46] = [
    b'V', b'A', b'B', b'S', b'E', b'T', b'1', b'\n', 1, 0, 0, 0, 6, b's', b'y', b's', b't', b'e',
    b'm', 0, 64, 6, 0, 0, 0, 0, 0, 0, 0, 0, 0, 0, 0, 0, 0, 3, 0, 0, 0, 0, 0, 0, 0, b'a', b'b',
    b'c',
];

// A packet and its reply.
pub(crate) type Case<'a> = (&'a [u8], &'a [u8]);

// Puts a packet behind others.
pub(crate) fn put_packet(packets: &mut Vec<u8>, text: &[u8]) -> Result<(), Fail> {
    packets.extend_from_slice(&(text.len() as u64).to_be_bytes())?;
    packets.extend_from_slice(text)?;
    Ok(())
}

// The packets of a session, and its replies.
pub(crate) fn session(alloc: Global, cases: &[Case<'_>]) -> Result<(Vec<u8>, Vec<u8>), Fail> {
    let mut input = Vec::from_slice(alloc, b"FB01")?;
    let mut told = Vec::from_slice(alloc, b"FB01")?;
    for (packet, reply) in cases {
        put_packet(&mut input, packet)?;
        put_packet(&mut told, reply)?;
    }
    Ok((input, told))
}

#[test]
fn each_packet_has_its_reply(rt: HostRuntime) -> Result<(), Fail> {
    let cases: [Case; 51] = [
        (b"getvar:version".as_slice(), b"OKAY0.4".as_slice()),
        (b"getvar:current-slot", b"OKAYa"),
        (b"getvar:slot-count", b"OKAY2"),
        (b"getvar:max-download-size", b"OKAY0x10000000"),
        (b"getvar:has-slot:system", b"OKAYyes"),
        (b"getvar:has-slot:system_a", b"OKAYno"),
        (b"getvar:slot-successful:a", b"OKAYyes"),
        (b"getvar:slot-successful:_b", b"OKAYno"),
        (b"getvar:slot-unbootable:_a", b"OKAYno"),
        (b"getvar:slot-unbootable:b", b"OKAYyes"),
        (b"getvar:slot-retry-count:a", b"OKAY0"),
        (b"getvar:slot-retry-count:b", b"OKAY0"),
        (b"getvar:partition-size:system_a", b"OKAY0x64000"),
        (b"getvar:partition-size:system_b", b"FAILunknown partition"),
        (b"getvar:is-logical:system_a", b"OKAYyes"),
        (b"getvar:is-logical:boot_a", b"OKAYno"),
        (b"getvar:snapshot-update-status", b"OKAYnone"),
        (b"getvar:xyz", b"FAILunknown variable"),
        (b"getvar:has-slot", b"FAILbad argument"),
        (b"getvar:slot-count:2", b"FAILbad argument"),
        (b"getvar:slot-successful:c", b"FAILbad argument"),
        (b"getvar:partition-size:a b", b"FAILbad argument"),
        (b"set_active:a", b"OKAY"),
        (b"getvar:slot-retry-count:a", b"OKAY6"),
        (
            b"create-logical-partition:x_b:4096",
            b"FAILno update is being installed",
        ),
        (
            b"create-logical-partition:x_b:18446744073709551615",
            b"FAILno update is being installed",
        ),
        (
            b"resize-logical-partition:system_b:0x1000",
            b"FAILno update is being installed",
        ),
        (
            b"delete-logical-partition:system_b",
            b"FAILno update is being installed",
        ),
        (
            b"oem snapshot system_b 0",
            b"FAILno update is being installed",
        ),
        (b"oem finish", b"FAILno update is being installed"),
        (b"flash:system_b", b"FAILno update is being installed"),
        (b"download:00000004", b"DATA00000004"),
        (b"abcd", b"OKAY"),
        (b"flash:system_b", b"FAILno update is being installed"),
        (b"snapshot-update:cancel", b"FAILno update to cancel"),
        (b"snapshot-update:merge", b"FAILno merge is in progress"),
        (b"oem begin-merge", b"FAILno update is staged"),
        (b"oem merge 1", b"FAILno merge is in progress"),
        (b"oem merge 4294967295", b"FAILno merge is in progress"),
        (b"oem begin x", b"FAILbad argument"),
        (b"oem merge 0", b"FAILbad argument"),
        (b"oem merge 4294967296", b"FAILbad argument"),
        (b"create-logical-partition:x_b", b"FAILbad argument"),
        (b"create-logical-partition:x_b:0x", b"FAILbad argument"),
        (
            b"create-logical-partition:x_b:000000000000000000001",
            b"FAILbad argument",
        ),
        (
            b"create-logical-partition:x_b:18446744073709551616",
            b"FAILbad argument",
        ),
        (b"oem snapshot system_b", b"FAILbad argument"),
        (b"oem finish x", b"FAILbad argument"),
        (b"snapshot-update", b"FAILbad argument"),
        (b"snapshot-update:", b"FAILbad argument"),
        (b"flash:", b"FAILbad argument"),
    ];
    let (input, told) = session(rt.alloc(), &cases)?;
    let runs: [Step; 2] = [
        (&["make"], &SYSTEM, 0, b"made 1 images, 100 of 256 blocks\n"),
        (&["serve"], &input, 0, &told),
    ];
    steps(&rt, rt.alloc(), SECTORS, &runs)?;
    Ok(())
}
