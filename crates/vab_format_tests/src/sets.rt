// A set that is read and written, and what is wrong with others.

use std::alloc::Global;
use std::test::*;
use vab_names::MAX_PARTITIONS;
use vab_set::{SetFault, SetImage, read_set, write_set};

// An image more than a set may have.
const MORE: u8 = MAX_PARTITIONS as u8 + 1;

// One image `x` of three bytes for a partition of 4096 bytes.
const ONE: [u8; 41] = [
    b'V', b'A', b'B', b'S', b'E', b'T', b'1', b'\n', 1, 0, 0, 0, 1, b'x', 0, 16, 0, 0, 0, 0, 0, 0,
    0, 0, 0, 0, 0, 0, 0, 0, 3, 0, 0, 0, 0, 0, 0, 0, b'a', b'b', b'c',
];

fn fault_of(alloc: Global, bytes: &[u8]) -> Option<SetFault> {
    read_set(alloc, bytes).err()
}

// The bytes with one changed.
fn changed(at: usize, byte: u8) -> [u8; 41] {
    let mut bytes = ONE;
    if at < 41 {
        bytes[at] = byte;
    }
    bytes
}

// Whether an image is that of `ONE`.
fn is_one(image: &SetImage<'_>) -> bool {
    image.name.text() == b"x".as_slice()
        && image.size == 4096
        && image.store == 0
        && image.bytes.as_slice() == b"abc".as_slice()
}

#[test]
fn one_image_is_read_and_written_again(rt: HostRuntime) -> Result<(), Fail> {
    let set = read_set(rt.alloc(), &ONE)
        .ok()
        .ok_or("the bytes are a set")?;
    assert!(rt; set.len() == 1);
    for image in set.as_slice() {
        assert!(rt; is_one(image));
    }
    let bytes = write_set(rt.alloc(), &set).ok().ok_or("there is memory")?;
    assert!(rt; bytes.as_slice() == ONE.as_slice());
    Ok(())
}

#[test]
fn each_fault_is_the_first_from_the_left(rt: HostRuntime) -> Result<(), Fail> {
    let alloc = rt.alloc();
    let cuts = [
        (6usize, SetFault::BadMagic),
        (8, SetFault::Cut(0)),
        (11, SetFault::Cut(0)),
        (12, SetFault::Cut(0)),
        (40, SetFault::Cut(0)),
    ];
    for (len, want) in cuts {
        assert!(rt;
            fault_of(alloc, &ONE[..len]) == Some(want),
            "of {len} bytes"
        );
    }
    let changes = [
        (0usize, b'W', SetFault::BadMagic),
        (8, MORE, SetFault::TooMany(MORE as u32)),
        (8, 2, SetFault::Cut(1)),
        (8, 0, SetFault::Trailing),
        (12, 0, SetFault::BadName(0)),
        (12, 31, SetFault::Cut(0)),
        (13, b'-', SetFault::BadName(0)),
        (15, 0, SetFault::TooBig(0)),
        (19, 2, SetFault::TooBig(0)),
    ];
    for (at, byte, want) in changes {
        assert!(rt;
            fault_of(alloc, &changed(at, byte)) == Some(want),
            "at {at}"
        );
    }
    Ok(())
}

// Of an image of 4096 bytes three are there; one of 4097 is refused before any is missed.
#[test]
fn an_image_is_no_longer_than_its_partition(rt: HostRuntime) -> Result<(), Fail> {
    for (low, want) in [(0, SetFault::Cut(0)), (1, SetFault::TooBig(0))] {
        let mut set = changed(30, low);
        set[31] = 16;
        assert!(rt; fault_of(rt.alloc(), &set) == Some(want), "4096 and {low}");
    }
    Ok(())
}

// A name of 31 bytes `x` that is there as a whole, and one of nine bytes that ends behind four.
#[test]
fn names_that_are_too_long_or_cut_off_are_refused(rt: HostRuntime) -> Result<(), Fail> {
    let mut set = b"VABSET1\n\x01\0\0\0\x1f".to_vec(rt.alloc())?;
    for _i in 0..31u8 {
        set.push(b'x')?;
    }
    let cut = b"VABSET1\n\x01\0\0\0\x09syst";
    assert!(rt; fault_of(rt.alloc(), &set) == Some(SetFault::BadName(0)));
    assert!(rt; fault_of(rt.alloc(), cut) == Some(SetFault::Cut(0)));
    Ok(())
}
