// An overlay of a small device, stopped at each of its writes and syncs over each blend of what was
// pending, and with each of its calls failing once: what is printed then is the partition at a step
// of the session.

use crate::life::{MAKE, Verb, all_done, left_by, next, status};
use std::alloc::Global;
use std::process::Abort;
use std::test::Fail;
use vab_disk::{Blend, CallKind, MemPort};

// A small disk: 32 blocks.
const SMALL: u64 = 6400;

// More calls than the session makes.
const MOST: u64 = 1000;

const PRINT: Verb<'static> = (&["print", "x_a"], b"");

const BLENDS: [Blend; 4] = [Blend::Old, Blend::New, Blend::Even, Blend::Odd];

fn put_packet(session: &mut Vec<u8>, packet: &[u8]) -> Result<(), Fail> {
    session.extend_from_slice(&(packet.len() as u64).to_be_bytes())?;
    session.extend_from_slice(packet)?;
    Ok(())
}

// Writes a block of this byte over that block.
fn put_write(session: &mut Vec<u8>, command: &[u8], byte: u8) -> Result<(), Fail> {
    put_packet(session, b"download:00001000")?;
    put_packet(session, &[byte; 4096])?;
    put_packet(session, command)
}

// An overlay begins, its first block is written twice, its last one once, and it is discarded.
fn session(alloc: Global) -> Result<Vec<u8>, Fail> {
    let mut session = b"FB01".to_vec(alloc)?;
    put_packet(&mut session, b"oem overlay x_a 0")?;
    put_write(&mut session, b"oem overlay-write 0", b'1')?;
    put_write(&mut session, b"oem overlay-write 0", b'2')?;
    put_write(&mut session, b"oem overlay-write 1", b'3')?;
    put_packet(&mut session, b"oem overlay-discard")?;
    Ok(session)
}

// Two blocks.
fn image(alloc: Global, first: &[u8; 4096], second: &[u8; 4096]) -> Result<Vec<u8>, Fail> {
    let mut image = first.to_vec(alloc)?;
    image.extend_from_slice(second)?;
    Ok(image)
}

// The partition as it is made, and behind each write.
fn steps(alloc: Global) -> Result<Vec<Vec<u8>>, Fail> {
    let mut base = [0u8; 4096];
    base[..3].copy_from_slice(b"abc");
    let mut steps = Vec::new(alloc);
    steps.push(image(alloc, &base, &[0; 4096])?)?;
    steps.push(image(alloc, &[b'1'; 4096], &[0; 4096])?)?;
    steps.push(image(alloc, &[b'2'; 4096], &[0; 4096])?)?;
    steps.push(image(alloc, &[b'2'; 4096], &[b'3'; 4096])?)?;
    Ok(steps)
}

// The partition that is printed is one of these.
fn is_step(rt: &impl Abort, alloc: Global, left: MemPort, steps: &[Vec<u8>]) -> Result<(), Fail> {
    let mut d = next(alloc, left, &PRINT)?;
    assert_eq!(rt; status(alloc, &mut d, &PRINT)?, 0);
    for step in steps {
        if step.as_slice() == d.told() {
            return Ok(());
        }
    }
    Err("the partition is one of a step".into())
}

// The made device.
fn made(rt: &impl Abort, alloc: Global) -> Result<MemPort, Fail> {
    let d = MemPort::new(alloc, SMALL, Vec::new(alloc)).map_err(|_| Fail::from("memory"))?;
    all_done(rt, alloc, d, &[MAKE])
}

#[test]
fn an_overlay_is_stopped_anywhere(rt: HostRuntime) -> Result<(), Fail> {
    let alloc = rt.alloc();
    let (input, steps) = (session(alloc)?, steps(alloc)?);
    let verb: Verb<'_> = (&["serve"], &input);
    let start = made(&rt, alloc)?;
    for stop in 0..MOST {
        let mut d = next(alloc, left_by(&start, Blend::New)?, &verb)?;
        d.stop_after(stop);
        let ended = status(alloc, &mut d, &verb)?;
        for blend in BLENDS {
            is_step(&rt, alloc, left_by(&d, blend)?, &steps)?;
        }
        if ended == 0 {
            return is_step(&rt, alloc, d, steps.get(..1).unwrap_or(&[]));
        }
        assert_eq!(rt; ended, 6, "after {stop}");
    }
    Err("the session is done in the end".into())
}

#[test]
fn an_overlay_meets_a_fault_of_each_call(rt: HostRuntime) -> Result<(), Fail> {
    let alloc = rt.alloc();
    let (input, steps) = (session(alloc)?, steps(alloc)?);
    let verb: Verb<'_> = (&["serve"], &input);
    let start = made(&rt, alloc)?;
    for nth in 0..MOST {
        let mut d = next(alloc, left_by(&start, Blend::New)?, &verb)?;
        d.fail_at(CallKind::Disk, nth)
            .map_err(|_| Fail::from("memory"))?;
        let ended = status(alloc, &mut d, &verb)?;
        is_step(&rt, alloc, left_by(&d, Blend::New)?, &steps)?;
        if ended == 0 {
            return Ok(());
        }
        assert_eq!(rt; ended, 6, "call {nth}");
    }
    Err("the session is done in the end".into())
}
