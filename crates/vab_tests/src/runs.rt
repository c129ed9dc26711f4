// Runs over a port in memory, each on the disk that the one before has left.

use crate::sessions::sector;
use std::alloc::Global;
use std::process::Abort;
use std::test::Fail;
use vab_cli::run;
use vab_disk::MemPort;

pub(crate) const SECTORS: u64 = 8192;

// One image `x` of three bytes for a partition of 4096 bytes.
pub(crate) const ONE: [u8; 41] = [
    b'V', b'A', b'B', b'S', b'E', b'T', b'1', b'\n', 1, 0, 0, 0, 1, b'x', 0, 16, 0, 0, 0, 0, 0, 0,
    0, 0, 0, 0, 0, 0, 0, 0, 3, 0, 0, 0, 0, 0, 0, 0, b'a', b'b', b'c',
];

// A set without images.
const NONE: &[u8] = b"VABSET1\n\0\0\0\0";

/// These words.
pub(crate) fn words(alloc: Global, texts: &[&str]) -> Result<Vec<String>, Fail> {
    let mut words = Vec::new(alloc);
    for text in texts {
        words.push(String::from_str(alloc, text)?)?;
    }
    Ok(words)
}

/// A port of so many sectors of zeros that hears this input.
pub(crate) fn port(alloc: Global, sectors: u64, input: &[u8]) -> Result<MemPort, Fail> {
    let bytes = input.to_vec(alloc)?;
    let sectors = sectors.min(1 << 20);
    MemPort::new(alloc, sectors, bytes).map_err(|_| Fail::from("memory"))
}

/// A run: its words, its input, its status, and what it tells.
pub(crate) type Step<'a> = (&'a [&'a str], &'a [u8], u8, &'a [u8]);

/// Runs these steps on the port's disk, one after another, and gives the port.
pub(crate) fn steps_on(
    rt: &impl Abort,
    alloc: Global,
    port: MemPort,
    steps: &[Step<'_>],
) -> Result<MemPort, Fail> {
    let mut port = port;
    for (texts, input, status, told) in steps {
        port = port.next_run(input.to_vec(alloc)?);
        let words = words(alloc, texts)?;
        let ended = run(alloc, &words, &mut port);
        assert_eq!(rt; ended.code(), *status, "{texts:?}");
        assert_eq!(rt; port.told(), *told, "{texts:?}");
    }
    Ok(port)
}

/// Runs these steps on a disk of so many sectors of zeros, one after another, and gives the port.
pub(crate) fn steps(
    rt: &impl Abort,
    alloc: Global,
    sectors: u64,
    steps: &[Step<'_>],
) -> Result<MemPort, Fail> {
    steps_on(rt, alloc, port(alloc, sectors, b"")?, steps)
}

const FRESH: &[&str] = &["serve", "--fresh"];

#[test]
fn a_fresh_session_answers_as_the_worked_cases_say(rt: HostRuntime) -> Result<(), Fail> {
    let cases: [Step; 13] = [
        (FRESH, b"FB01", 0, b"FB01"),
        (
            FRESH,
            b"FB01\0\0\0\0\0\0\0\x0egetvar:version",
            0,
            b"FB01\0\0\0\0\0\0\0\x07OKAY0.4",
        ),
        (FRESH, b"FB00", 3, b"FB01"),
        (FRESH, b"FB", 3, b"FB01"),
        (FRESH, b"FB01\0\0\0\0\0\0\x10\x01", 3, b"FB01"),
        (FRESH, b"FB01\0\0\0", 3, b"FB01"),
        (FRESH, b"FB01\0\0\0\0\0\0\0\x05abc", 3, b"FB01"),
        (
            FRESH,
            b"FB01\0\0\0\0\0\0\0\x03xyz\0\0\0\0\0\0\0\0",
            0,
            b"FB01\0\0\0\0\0\0\0\x13FAILunknown command\0\0\0\0\0\0\0\x13FAILunknown command",
        ),
        (
            FRESH,
            b"FB99\0\0\0\0\0\0\0\x0cset_active:a\0\0\0\0\0\0\0\x0cset_active:b",
            0,
            b"FB01\0\0\0\0\0\0\0\x04OKAY\0\0\0\0\0\0\0\x16FAILslot has no images",
        ),
        (
            FRESH,
            b"FB01\0\0\0\0\0\0\0\x0cset_active:c\0\0\0\0\0\0\0\x0bset_active:",
            0,
            b"FB01\0\0\0\0\0\0\0\x10FAILbad argument\0\0\0\0\0\0\0\x10FAILbad argument",
        ),
        (
            FRESH,
            b"FB01\0\0\0\0\0\0\0\x0bgetvar:nope\0\0\0\0\0\0\0\x13getvar:current-slot",
            0,
            b"FB01\0\0\0\0\0\0\0\x14FAILunknown variable\0\0\0\0\0\0\0\x05OKAYa",
        ),
        (
            FRESH,
            b"FB01\0\0\0\0\0\0\0\x11getvar:slot-count\0\0\0\0\0\0\0\x10getvar:version:1",
            0,
            b"FB01\0\0\0\0\0\0\0\x05OKAY2\0\0\0\0\0\0\0\x10FAILbad argument",
        ),
        (
            FRESH,
            b"FB01\0\0\0\0\0\0\0\x0eoem digest x_a\0\0\0\0\0\0\0\x0coem digest x",
            0,
            b"FB01\0\0\0\0\0\0\0\x15FAILunknown partition\0\0\0\0\0\0\0\x16FAILbad partition name",
        ),
    ];
    steps(&rt, rt.alloc(), SECTORS, &cases)?;
    Ok(())
}

#[test]
fn too_few_sectors_and_no_device_are_status_5(rt: HostRuntime) -> Result<(), Fail> {
    let alloc = rt.alloc();
    steps(&rt, alloc, 6151, &[(FRESH, b"FB01", 5, b"")])?;
    steps(&rt, alloc, 6151, &[(&["make"], NONE, 5, b"not a device\n")])?;
    steps(&rt, alloc, 4119, &[(&["serve"], b"FB01", 5, b"")])?;
    let none = b"not a device\n";
    let cases: [Step; 6] = [
        (&["serve"], b"FB01", 5, b""),
        (&["boot"], b"", 5, none),
        (&["mark"], b"", 5, none),
        (&["activate", "a"], b"", 5, none),
        (&["print", "x_a"], b"", 5, none),
        (&["digest", "x_a"], b"", 5, none),
    ];
    steps(&rt, alloc, SECTORS, &cases)?;
    Ok(())
}

#[test]
fn words_that_ask_for_nothing_are_status_2(rt: HostRuntime) -> Result<(), Fail> {
    let five = ["make", "--limit", "4096", "--metadata-max", "1024"];
    let cases: [Step; 9] = [
        (&[], b"", 2, b""),
        (&["merge", "0"], b"", 2, b""),
        (&["activate", "c"], b"", 2, b""),
        (&["make", "--limit", "x"], NONE, 2, b""),
        (&["make", "--metadata-max", "513"], NONE, 2, b""),
        (&["--help"], b"", 2, b""),
        (
            &["make", "--limit", "4096", "--metadata-max", "1024", "x"],
            &ONE,
            2,
            b"",
        ),
        (&["serve", "--fresh", "a", "b", "c", "d"], b"FB01", 2, b""),
        (&["boot", "", "", "", "", ""], b"", 2, b""),
    ];
    let mut d = steps(&rt, rt.alloc(), SECTORS, &cases)?;
    for at in 0..SECTORS {
        assert_eq!(rt; sector(&mut d, at), Some([0; 512]));
    }
    let made = b"made 1 images, 1 of 256 blocks\n";
    steps_on(&rt, rt.alloc(), d, &[(&five, &ONE, 0, made)])?;
    Ok(())
}

#[test]
fn a_device_of_one_image_is_made_and_used(rt: HostRuntime) -> Result<(), Fail> {
    let cases: [Step; 12] = [
        (&["make"], &ONE, 0, b"made 1 images, 1 of 256 blocks\n"),
        (
            &["digest", "x_a"],
            b"",
            0,
            b"73fbfd76aa2143de160edd509ff93771f44db16924bd51235f311f32aaf5fc42\n",
        ),
        (&["print", "x_b"], b"", 4, b"refused: slot has no images\n"),
        (&["print", "y_a"], b"", 4, b"refused: unknown partition\n"),
        (&["digest", "x"], b"", 4, b"refused: bad partition name\n"),
        (&["boot"], b"", 0, b"booted a\n"),
        (&["activate", "a"], b"", 0, b"active a\n"),
        (&["activate", "b"], b"", 4, b"refused: slot has no images\n"),
        (&["mark"], b"", 0, b"marked a\n"),
        (&["serve"], b"FB01\0\0\0", 3, b"FB01"),
        (&["boot"], b"", 0, b"booted a\n"),
        (
            &["serve"],
            b"FB01\0\0\0\0\0\0\0\x0eoem digest x_a",
            0,
            b"FB01\0\0\0\0\0\0\0\x44OKAY\
              73fbfd76aa2143de160edd509ff93771f44db16924bd51235f311f32aaf5fc42",
        ),
    ];
    steps(&rt, rt.alloc(), SECTORS, &cases)?;
    Ok(())
}

#[test]
fn an_image_is_printed_whole(rt: HostRuntime) -> Result<(), Fail> {
    let alloc = rt.alloc();
    let mut want = b"abc".to_vec(alloc)?;
    for _i in 0..4093u32 {
        want.push(0)?;
    }
    let made = b"made 1 images, 1 of 256 blocks\n";
    let cases: [Step; 2] = [
        (&["make"], &ONE, 0, made),
        (&["print", "x_a"], b"", 0, want.as_slice()),
    ];
    steps(&rt, alloc, SECTORS, &cases)?;
    Ok(())
}

#[test]
fn sets_that_are_refused_change_nothing(rt: HostRuntime) -> Result<(), Fail> {
    let alloc = rt.alloc();
    let mut longer = ONE.to_vec(alloc)?;
    longer.push(0)?;
    let none = b"not a device\n";
    let cases: [Step; 6] = [
        (&["make"], longer.as_slice(), 3, b""),
        (&["make"], b"VABSET", 3, b""),
        (
            &["make", "--metadata-max", "512"],
            &ONE,
            4,
            b"refused: table full: 540 of 512 bytes\n",
        ),
        (
            &["make", "--limit", "4095"],
            &ONE,
            4,
            b"refused: group limit: 4096 of 4095 bytes\n",
        ),
        (&["boot"], b"", 5, none),
        (&["make"], NONE, 0, b"made 0 images, 0 of 256 blocks\n"),
    ];
    steps(&rt, alloc, SECTORS, &cases)?;
    Ok(())
}

#[test]
fn the_longest_command_is_answered(rt: HostRuntime) -> Result<(), Fail> {
    let alloc = rt.alloc();
    let mut input = b"FB01\0\0\0\0\0\0\x10\0".to_vec(alloc)?;
    for _i in 0..4096u32 {
        input.push(b'x')?;
    }
    let told = b"FB01\0\0\0\0\0\0\0\x13FAILunknown command".as_slice();
    steps(&rt, alloc, SECTORS, &[(FRESH, input.as_slice(), 0, told)])?;
    Ok(())
}
