// A session by packets that writes over a partition.

use std::alloc::Global;
use std::test::*;
use vab_disk::MemPort;
use vab_make::make_device;
use vab_recover::start;
use vab_session::{Ended, serve};
use vab_set::read_set;

// One image `system` of three bytes for a partition of 8192 bytes.
const ONE: &[u8] =
    b"VABSET1\n\x01\0\0\0\x06system\0\x20\0\0\0\0\0\0\0\0\0\0\0\0\0\0\x03\0\0\0\0\0\0\0abc";

// A hello, and these packets.
fn packed(alloc: Global, packets: &[&[u8]]) -> Result<Vec<u8>, Fail> {
    let mut out = b"FB01".to_vec(alloc)?;
    for packet in packets {
        out.extend_from_slice(&(packet.len() as u64).to_be_bytes())?;
        out.extend_from_slice(packet)?;
    }
    Ok(out)
}

// A made device of that image that hears these packets.
fn device(alloc: Global, packets: &[&[u8]]) -> Result<MemPort, Fail> {
    let d = MemPort::new(alloc, 6208, Vec::new(alloc));
    let mut d = d.ok().ok_or("there is memory for a disk")?;
    let set = match read_set(alloc, ONE) {
        Ok(set) => set,
        Err(_) => return Err("the bytes are a set".into()),
    };
    match make_device(alloc, &mut d, &set, 0, 65536) {
        Ok(()) => Ok(d.next_run(packed(alloc, packets)?)),
        Err(_) => Err("a device is made".into()),
    }
}

// How a session of these packets ends, and what it tells.
fn session(alloc: Global, packets: &[&[u8]]) -> Result<(Ended, Vec<u8>), Fail> {
    let mut d = device(alloc, packets)?;
    let device = match start(alloc, &mut d) {
        Ok(device) => device,
        Err(_) => return Err("it is a device".into()),
    };
    let ended = match serve(alloc, &mut d, device) {
        Ok((ended, _)) => ended,
        Err(_) => return Err("a session is held".into()),
    };
    Ok((ended, d.told().to_vec(alloc)?))
}

#[test]
fn packets_write_over_a_partition(rt: HostRuntime) -> Result<(), Fail> {
    let alloc = rt.alloc();
    let packets = [
        b"oem overlay-write 0x1".as_slice(),
        b"oem overlay system_a 0",
        b"oem overlay-write 0x1",
        b"download:00001000",
        &[7; 4096],
        b"oem overlay-write 0x2",
        b"oem overlay-write 0x1",
        b"getvar:partition-size:system_a",
        b"oem overlay-write 0x1",
        b"oem begin",
        b"oem overlay-discard",
        b"oem overlay-discard",
    ];
    let replies = [
        b"FAILno overlay".as_slice(),
        b"OKAY",
        b"FAILnothing downloaded",
        b"DATA00001000",
        b"OKAY",
        b"FAILblock 2 of 2",
        b"OKAY",
        b"OKAY0x2000",
        b"FAILnothing downloaded",
        b"FAILan update is in progress",
        b"OKAY",
        b"FAILno overlay",
    ];
    let (ended, told) = session(alloc, &packets)?;
    assert_eq!(rt; ended, Ended::Closed);
    assert!(rt; told.as_slice() == packed(alloc, &replies)?.as_slice());
    Ok(())
}
