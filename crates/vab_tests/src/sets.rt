// Sets of images: as many as there may be, their names, and images without bytes.

use crate::runs::{SECTORS, Step, steps, steps_on};
use std::alloc::Global;
use std::process::Abort;
use std::test::Fail;
use vab_disk::MemPort;

/// An image: its name, the size of its partition, and its bytes.
pub(crate) type Image<'a> = (&'a [u8], u64, &'a [u8]);

fn put_image(set: &mut Vec<u8>, image: &Image<'_>) -> Result<(), Fail> {
    let (name, size, bytes) = *image;
    set.extend_from_slice(&name.len().to_le_bytes()[..1])?;
    set.extend_from_slice(name)?;
    set.extend_from_slice(&size.to_le_bytes())?;
    set.extend_from_slice(&[0; 8])?;
    set.extend_from_slice(&bytes.len().to_le_bytes())?;
    set.extend_from_slice(bytes)?;
    Ok(())
}

// What stands before the images of a set of so many.
fn front(alloc: Global, count: u8) -> Result<Vec<u8>, Fail> {
    let mut set = b"VABSET1\n".to_vec(alloc)?;
    set.extend_from_slice(&[count, 0, 0, 0])?;
    Ok(set)
}

/// The set of one image.
pub(crate) fn set_of_one(alloc: Global, image: &Image<'_>) -> Result<Vec<u8>, Fail> {
    let mut set = front(alloc, 1)?;
    put_image(&mut set, image)?;
    Ok(set)
}

/// The set of two images.
pub(crate) fn set_of(
    alloc: Global,
    first: &Image<'_>,
    second: &Image<'_>,
) -> Result<Vec<u8>, Fail> {
    let mut set = front(alloc, 2)?;
    put_image(&mut set, first)?;
    put_image(&mut set, second)?;
    Ok(set)
}

/// The set of so many images `p00`, `p01` and so on, of one byte, the number in the name.
pub(crate) fn set_of_many(alloc: Global, count: u8) -> Result<Vec<u8>, Fail> {
    let mut set = front(alloc, count)?;
    for index in 0..count {
        let name = [b'p', b'0' + index / 10, b'0' + index % 10];
        put_image(&mut set, &(&name, 4096, &[index]))?;
    }
    Ok(set)
}

/// These bytes, and zeros behind them up to so many bytes.
pub(crate) fn filled(alloc: Global, bytes: &[u8], count: usize) -> Result<Vec<u8>, Fail> {
    let mut all = bytes.to_vec(alloc)?;
    for _i in bytes.len()..count {
        all.push(0)?;
    }
    Ok(all)
}

// A disk with a device of 64 partitions.
fn device_of_many(rt: &impl Abort, alloc: Global) -> Result<MemPort, Fail> {
    let set = set_of_many(alloc, 64)?;
    let told = b"made 64 images, 64 of 256 blocks\n";
    steps(rt, alloc, SECTORS, &[(&["make"], set.as_slice(), 0, told)])
}

#[test]
fn a_slot_has_at_most_64_partitions(rt: HostRuntime) -> Result<(), Fail> {
    let alloc = rt.alloc();
    let set = set_of_many(alloc, 65)?;
    let last = filled(alloc, &[63], 4096)?;
    let cases: [Step; 5] = [
        (&["print", "p63_a"], b"", 0, last.as_slice()),
        (&["print", "p64_a"], b"", 4, b"refused: unknown partition\n"),
        (&["make"], set.as_slice(), 3, b""),
        (&["boot"], b"", 0, b"booted a\n"),
        (&["print", "p63_a"], b"", 0, last.as_slice()),
    ];
    let d = device_of_many(&rt, alloc)?;
    steps_on(&rt, alloc, d, &cases)?;
    Ok(())
}

#[test]
fn names_are_told_apart_and_images_may_be_empty(rt: HostRuntime) -> Result<(), Fail> {
    let alloc = rt.alloc();
    let block = filled(alloc, b"", 4096)?;
    let large = filled(alloc, b"yz", 8192)?;
    let twice = set_of(alloc, &(b"x", 4096, b"abc"), &(b"x", 4096, b""))?;
    let empty = set_of(alloc, &(b"x", 0, b""), &(b"X", 4097, b"yz"))?;
    let short = set_of(alloc, &(b"x", 1, b""), &(b"y", 0, b"z"))?;
    let zeros = set_of(alloc, &(b"x", 1, b""), &(b"y", 0, b""))?;
    let whole = set_of(alloc, &(b"x", 1048576, b""), &(b"y", 0, b""))?;
    let more = set_of(alloc, &(b"x", 1048576, b""), &(b"y", 1, b""))?;
    let nothing = b"e3b0c44298fc1c149afbf4c8996fb92427ae41e4649b934ca495991b7852b855\n";
    let cases: [Step; 14] = [
        (&["make"], twice.as_slice(), 3, b""),
        (&["make"], short.as_slice(), 3, b""),
        (&["boot"], b"", 5, b"not a device\n"),
        (
            &["make"],
            empty.as_slice(),
            0,
            b"made 2 images, 2 of 256 blocks\n",
        ),
        (&["print", "x_a"], b"", 0, b""),
        (&["digest", "x_a"], b"", 0, nothing),
        (&["print", "X_a"], b"", 0, large.as_slice()),
        (
            &["make"],
            zeros.as_slice(),
            0,
            b"made 2 images, 1 of 256 blocks\n",
        ),
        (&["print", "x_a"], b"", 0, block.as_slice()),
        (&["digest", "y_a"], b"", 0, nothing),
        (&["print", "X_a"], b"", 4, b"refused: unknown partition\n"),
        (
            &["make"],
            more.as_slice(),
            4,
            b"refused: no room: 257 of 256 blocks\n",
        ),
        (&["print", "x_a"], b"", 0, block.as_slice()),
        (
            &["make"],
            whole.as_slice(),
            0,
            b"made 2 images, 256 of 256 blocks\n",
        ),
    ];
    steps(&rt, alloc, SECTORS, &cases)?;
    Ok(())
}
