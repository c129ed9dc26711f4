// Sessions over a made device whose input isn't what it should be, or is more than they may take.

use std::alloc::Global;
use std::test::*;
use vab_disk::MemPort;
use vab_make::make_device;
use vab_recover::start;
use vab_session::{Ended, SessionFault, serve_up_to};
use vab_set::read_set;

// A set without images.
const NONE: [u8; 12] = *b"VABSET1\n\0\0\0\0";

// The hello, and the packet `getvar:version`: 26 bytes.
const VERSION: &[u8] = b"FB01\0\0\0\0\0\0\0\x0egetvar:version";

// A made device without images that hears this input.
fn device(alloc: Global, input: &[u8]) -> Result<MemPort, Fail> {
    let d = MemPort::new(alloc, 6200, Vec::new(alloc));
    let mut d = d.ok().ok_or("there is memory for a disk")?;
    let set = match read_set(alloc, &NONE) {
        Ok(set) => set,
        Err(_) => return Err("the bytes are a set".into()),
    };
    match make_device(alloc, &mut d, &set, 0, 65536) {
        Ok(()) => Ok(d.next_run(input.to_vec(alloc)?)),
        Err(_) => Err("a device is made".into()),
    }
}

// How a session of at most so many bytes ends, and what it tells.
fn session(
    alloc: Global,
    input: &[u8],
    most: u64,
) -> Result<(Result<Ended, SessionFault>, Vec<u8>), Fail> {
    let mut d = device(alloc, input)?;
    let device = match start(alloc, &mut d) {
        Ok(device) => device,
        Err(_) => return Err("it is a device".into()),
    };
    let ended = match serve_up_to(alloc, &mut d, device, most) {
        Ok((ended, _)) => Ok(ended),
        Err(fault) => Err(fault),
    };
    Ok((ended, d.told().to_vec(alloc)?))
}

#[test]
fn a_session_takes_as_many_bytes_as_it_may(rt: HostRuntime) -> Result<(), Fail> {
    let alloc = rt.alloc();
    let reply = b"FB01\0\0\0\0\0\0\0\x07OKAY0.4".as_slice();
    for (most, ended, told) in [
        (3, Err(SessionFault::Spent), b"FB01".as_slice()),
        (25, Err(SessionFault::Spent), b"FB01"),
        (26, Err(SessionFault::Spent), reply),
        (27, Ok(Ended::Closed), reply),
    ] {
        let (now, tells) = session(alloc, VERSION, most)?;
        assert_eq!(rt; now, ended, "at most {most} bytes");
        assert!(rt; tells.as_slice() == told, "at most {most} bytes");
    }
    Ok(())
}

#[test]
fn hellos_and_lengths_that_are_none_end_a_session(rt: HostRuntime) -> Result<(), Fail> {
    let alloc = rt.alloc();
    for (input, fault) in [
        (b"FB0x".as_slice(), SessionFault::BadHello),
        (
            b"FB01\xff\xff\xff\xff\xff\xff\xff\xff",
            SessionFault::TooLong(18446744073709551615),
        ),
    ] {
        let (ended, told) = session(alloc, input, 100)?;
        assert_eq!(rt; ended, Err(fault));
        assert!(rt; told.as_slice() == b"FB01".as_slice());
    }
    Ok(())
}

#[test]
fn an_empty_packet_is_no_command(rt: HostRuntime) -> Result<(), Fail> {
    let (ended, told) = session(rt.alloc(), b"FB01\0\0\0\0\0\0\0\0", 100)?;
    assert_eq!(rt; ended, Ok(Ended::Closed));
    assert!(rt; told.as_slice() == b"FB01\0\0\0\0\0\0\0\x13FAILunknown command".as_slice());
    Ok(())
}

#[test]
fn a_packet_has_at_most_4096_bytes(rt: HostRuntime) -> Result<(), Fail> {
    let alloc = rt.alloc();
    let unknown = b"FB01\0\0\0\0\0\0\0\x13FAILunknown command".as_slice();
    for (count, ended, told) in [
        (4096u64, Ok(Ended::Closed), unknown),
        (4097, Err(SessionFault::TooLong(4097)), b"FB01"),
    ] {
        let mut input = b"FB01".to_vec(alloc)?;
        input.extend_from_slice(&count.to_be_bytes())?;
        for _byte in 0..count {
            input.push(b'x')?;
        }
        let (now, tells) = session(alloc, &input, 5000)?;
        assert_eq!(rt; now, ended, "{count} bytes");
        assert!(rt; tells.as_slice() == told, "{count} bytes");
    }
    Ok(())
}
