// Updates of a device of 100 blocks, whose block i is filled with the byte i, and of one of one
// block.

use crate::packets::{Case, put_packet, session};
use crate::runs::{ONE, SECTORS, Step, steps};
use crate::sessions::sector;
use crate::sets::{filled, set_of_one};
use crate::staged::MADE;
use std::alloc::Global;
use std::test::Fail;

// A hundred blocks, each filled with its number.
fn numbered(alloc: Global) -> Result<Vec<u8>, Fail> {
    let mut image = Vec::new(alloc);
    for block in 0..100u8 {
        image.extend_from_slice(&[block; 4096])?;
    }
    Ok(image)
}

// The store of 106 blocks takes all that the source and the larger target leave. The table that is
// stored has 256 bytes and 484 behind them.
#[test]
fn a_store_takes_the_last_block(rt: HostRuntime) -> Result<(), Fail> {
    let alloc = rt.alloc();
    let image = numbered(alloc)?;
    let set = set_of_one(alloc, &(b"system", 409600, &image))?;
    let cases: [Case; 6] = [
        (b"oem begin".as_slice(), b"OKAY".as_slice()),
        (b"resize-logical-partition:system_b:614400", b"OKAY"),
        (
            b"oem snapshot system_b 0",
            b"FAILno room: 302 of 256 blocks",
        ),
        (b"oem snapshot system_b 434176", b"OKAY"),
        (
            b"create-logical-partition:x_b:4096",
            b"FAILno room: 257 of 256 blocks",
        ),
        (b"getvar:partition-size:system_b", b"OKAY0x96000"),
    ];
    let (input, told) = session(alloc, &cases)?;
    let runs: [Step; 3] = [
        (&["make"], &set, 0, MADE),
        (&["serve"], &input, 0, &told),
        (&["print", "system_a"], b"", 0, &image),
    ];
    let mut d = steps(&rt, alloc, SECTORS, &runs)?;
    let bytes = sector(&mut d, 4248).ok_or("the sector is read")?;
    assert_eq!(rt; &bytes[44..48], 484u32.to_le_bytes().as_slice());
    Ok(())
}

// Of sixteen bytes that were due five came, and then twelve: the session ends, and the next one
// finishes what was installed before.
#[test]
fn an_overrun_in_an_update_loses_nothing(rt: HostRuntime) -> Result<(), Fail> {
    let alloc = rt.alloc();
    let cases: [Case; 6] = [
        (b"oem begin".as_slice(), b"OKAY".as_slice()),
        (b"oem snapshot x_b 0", b"OKAY"),
        (b"download:00000003", b"DATA00000003"),
        (b"abd", b"OKAY"),
        (b"flash:x_b", b"OKAY"),
        (b"download:00000010", b"DATA00000010"),
    ];
    let (mut input, told) = session(alloc, &cases)?;
    put_packet(&mut input, b"hello")?;
    put_packet(&mut input, b"hello world!")?;
    let (finish, finished) = session(alloc, &[(b"oem finish", b"OKAY")])?;
    let image = filled(alloc, b"abd", 4096)?;
    let made = b"made 1 images, 1 of 256 blocks\n".as_slice();
    let runs: [Step; 4] = [
        (&["make"], &ONE, 0, made),
        (&["serve"], &input, 3, &told),
        (&["serve"], &finish, 0, &finished),
        (&["print", "x_b"], b"", 0, &image),
    ];
    steps(&rt, alloc, SECTORS, &runs)?;
    Ok(())
}
