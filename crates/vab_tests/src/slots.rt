// A device whose images are in slot b.

use crate::runs::{ONE, SECTORS, Step, steps, steps_on};
use crate::sessions::{damage, put, sector};
use crate::sets::filled;
use std::alloc::Global;
use std::process::Abort;
use std::test::Fail;
use vab_disk::MemPort;

// The boot control where slot b is current and successful, of priority 15, and its sum.
const CONTROL: [u8; 32] =
    *b"_b\0\0BCAB\x01\x02\0\0\0\0\x8f\0\0\0\0\0\0\0\0\0\0\0\0\0\x60\x4a\x1b\xb9";

// The text of slot b's table: `x_b` of the first block, in the group `main_b`.
const TABLE: [u8; 492] = [
    48, 80, 76, 65, 10, 0, 2, 0, 0, 1, 0, 0, 191, 52, 206, 232, 246, 216, 96, 242, 247, 36, 196,
    43, 129, 101, 151, 60, 135, 12, 216, 112, 23, 235, 145, 151, 33, 136, 112, 137, 166, 152, 123,
    150, 236, 0, 0, 0, 134, 91, 145, 54, 5, 216, 147, 117, 233, 1, 9, 109, 253, 3, 115, 251, 177,
    134, 87, 247, 140, 93, 136, 190, 229, 154, 112, 71, 41, 80, 14, 228, 0, 0, 0, 0, 1, 0, 0, 0,
    52, 0, 0, 0, 52, 0, 0, 0, 1, 0, 0, 0, 24, 0, 0, 0, 76, 0, 0, 0, 2, 0, 0, 0, 48, 0, 0, 0, 172,
    0, 0, 0, 1, 0, 0, 0, 64, 0, 0, 0, 1, 0, 0, 0, 0, 0, 0, 0, 0, 0, 0, 0, 0, 0, 0, 0, 0, 0, 0, 0,
    0, 0, 0, 0, 0, 0, 0, 0, 0, 0, 0, 0, 0, 0, 0, 0, 0, 0, 0, 0, 0, 0, 0, 0, 0, 0, 0, 0, 0, 0, 0, 0,
    0, 0, 0, 0, 0, 0, 0, 0, 0, 0, 0, 0, 0, 0, 0, 0, 0, 0, 0, 0, 0, 0, 0, 0, 0, 0, 0, 0, 0, 0, 0, 0,
    0, 0, 0, 0, 0, 0, 0, 0, 0, 0, 0, 0, 0, 0, 0, 0, 0, 0, 0, 0, 0, 0, 0, 0, 0, 0, 0, 0, 0, 0, 0, 0,
    0, 0, 0, 0, 0, 0, 0, 0, 0, 0, 0, 0, 120, 95, 98, 0, 0, 0, 0, 0, 0, 0, 0, 0, 0, 0, 0, 0, 0, 0,
    0, 0, 0, 0, 0, 0, 0, 0, 0, 0, 0, 0, 0, 0, 0, 0, 0, 0, 1, 0, 0, 0, 0, 0, 0, 0, 1, 0, 0, 0, 1, 0,
    0, 0, 8, 0, 0, 0, 0, 0, 0, 0, 0, 0, 0, 0, 0, 8, 0, 0, 0, 0, 0, 0, 0, 0, 0, 0, 100, 101, 102,
    97, 117, 108, 116, 0, 0, 0, 0, 0, 0, 0, 0, 0, 0, 0, 0, 0, 0, 0, 0, 0, 0, 0, 0, 0, 0, 0, 0, 0,
    0, 0, 0, 0, 0, 0, 0, 0, 0, 0, 0, 0, 0, 0, 0, 0, 109, 97, 105, 110, 95, 98, 0, 0, 0, 0, 0, 0, 0,
    0, 0, 0, 0, 0, 0, 0, 0, 0, 0, 0, 0, 0, 0, 0, 0, 0, 0, 0, 0, 0, 0, 0, 0, 0, 0, 0, 0, 0, 0, 0, 0,
    0, 0, 0, 0, 8, 0, 0, 0, 0, 0, 0, 0, 0, 16, 0, 0, 0, 0, 0, 0, 0, 32, 0, 0, 0, 0, 0, 115, 117,
    112, 101, 114, 0, 0, 0, 0, 0, 0, 0, 0, 0, 0, 0, 0, 0, 0, 0, 0, 0, 0, 0, 0, 0, 0, 0, 0, 0, 0, 0,
    0, 0, 0, 0, 0, 0, 0, 0,
];

// The sum of the mark of a device without an update whose images are in slot b.
const MARK_SUM: [u8; 4] = [55, 124, 134, 247];

fn control() -> [u8; 512] {
    let mut bytes = [0u8; 512];
    bytes[..32].copy_from_slice(&CONTROL);
    bytes
}

fn mark() -> [u8; 512] {
    let mut bytes = [0u8; 512];
    bytes[..7].copy_from_slice(b"VABU\x01\0\x01");
    bytes[508..].copy_from_slice(&MARK_SUM);
    bytes
}

// The first two sectors of the text, with zeros behind it.
fn halves(text: &[u8]) -> ([u8; 512], [u8; 512]) {
    let mut first = [0u8; 512];
    let mut second = [0u8; 512];
    let cut = text.len().min(512);
    let end = text.len().min(1024);
    first[..cut].copy_from_slice(&text[..cut]);
    second[..end - cut].copy_from_slice(&text[cut..end]);
    (first, second)
}

// A disk with the device of one image, where slot b has what slot a had; the table of slot a still
// stands. Of copies of 128 sectors the fourth from sector 4120 on is the backup of slot b's table.
pub(crate) fn device_of_b(rt: &impl Abort, alloc: Global) -> Result<MemPort, Fail> {
    let made: [Step; 1] = [(&["make"], &ONE, 0, b"made 1 images, 1 of 256 blocks\n")];
    let mut d = steps(rt, alloc, SECTORS, &made)?;
    let (first, second) = halves(&TABLE);
    let sectors = [
        (4, control()),
        (2048, mark()),
        (4248, first),
        (4249, second),
        (4504, first),
        (4505, second),
    ];
    for (at, bytes) in sectors {
        assert!(rt; put(&mut d, at, &bytes));
    }
    Ok(d)
}

const SESSION: &[u8] = b"FB01\0\0\0\0\0\0\0\x13getvar:current-slot\0\0\0\0\0\0\0\x0cset_active:a\
    \0\0\0\0\0\0\0\x0cset_active:b\0\0\0\0\0\0\0\x08oem boot\
    \0\0\0\0\0\0\0\x13oem mark-successful\0\0\0\0\0\0\0\x0eoem digest x_b\0\0\0\0\0\0\0\x06reboot";

const ANSWERS: &[u8] = b"FB01\0\0\0\0\0\0\0\x05OKAYb\0\0\0\0\0\0\0\x16FAILslot has no images\
    \0\0\0\0\0\0\0\x04OKAY\0\0\0\0\0\0\0\x05OKAYb\0\0\0\0\0\0\0\x04OKAY\
    \0\0\0\0\0\0\0\x44OKAY73fbfd76aa2143de160edd509ff93771f44db16924bd51235f311f32aaf5fc42\
    \0\0\0\0\0\0\0\x05OKAYb";

#[test]
fn a_device_of_slot_b_is_used(rt: HostRuntime) -> Result<(), Fail> {
    let alloc = rt.alloc();
    let image = filled(alloc, b"abc", 4096)?;
    let none = b"refused: slot has no images\n";
    let sum = b"73fbfd76aa2143de160edd509ff93771f44db16924bd51235f311f32aaf5fc42\n";
    // Each run, and the first bytes that boot control has of the slots after it.
    let cases: [(Step, [u8; 4]); 13] = [
        ((&["boot"], b"", 0, b"booted b\n"), [0, 0, 0x8f, 0]),
        ((&["activate", "b"], b"", 0, b"active b\n"), [0, 0, 0xef, 0]),
        ((&["activate", "a"], b"", 4, none), [0, 0, 0xef, 0]),
        ((&["boot"], b"", 0, b"booted b\n"), [0, 0, 0xef, 0]),
        ((&["mark"], b"", 0, b"marked b\n"), [0, 0, 0x8f, 0]),
        (
            (&["print", "x_b"], b"", 0, image.as_slice()),
            [0, 0, 0x8f, 0],
        ),
        ((&["digest", "x_b"], b"", 0, sum), [0, 0, 0x8f, 0]),
        ((&["print", "x_a"], b"", 4, none), [0, 0, 0x8f, 0]),
        (
            (&["digest", "y_b"], b"", 4, b"refused: unknown partition\n"),
            [0, 0, 0x8f, 0],
        ),
        ((&["serve"], SESSION, 0, ANSWERS), [0, 0, 0x8f, 0]),
        (
            (&["make"], &ONE, 0, b"made 1 images, 1 of 256 blocks\n"),
            [0x8f, 0, 0, 0],
        ),
        ((&["boot"], b"", 0, b"booted a\n"), [0x8f, 0, 0, 0]),
        ((&["digest", "x_b"], b"", 4, none), [0x8f, 0, 0, 0]),
    ];
    let mut d = device_of_b(&rt, alloc)?;
    for (step, slots) in cases {
        d = steps_on(&rt, alloc, d, &[step])?;
        let bytes = sector(&mut d, 4).ok_or("the sector is read")?;
        assert_eq!(rt; &bytes[12..16], slots.as_slice());
        assert_eq!(rt; bytes[1] == b'b', slots[2] != 0);
    }
    Ok(())
}

// A copy of its own table is repaired. That of slot a isn't read.
#[test]
fn a_device_of_slot_b_rests_on_its_own_table(rt: HostRuntime) -> Result<(), Fail> {
    let alloc = rt.alloc();
    for (at, byte, status, repaired) in [
        (4248, 300, 0, true),
        (4504, 300, 0, true),
        (4120, 300, 0, false),
        (4376, 300, 0, false),
        (2048, 6, 5, false),
        (4, 1, 5, false),
    ] {
        let mut d = device_of_b(&rt, alloc)?;
        assert!(rt; damage(&mut d, at, byte, 0));
        let told = if status == 0 {
            b"booted b\n".as_slice()
        } else {
            b"not a device\n"
        };
        let mut d = steps_on(&rt, alloc, d, &[(&["boot"], b"", status, told)])?;
        let bytes = sector(&mut d, at).ok_or("the sector is read")?;
        assert_eq!(rt; bytes.get(byte).copied() == Some(1), repaired, "at {at}");
    }
    Ok(())
}
