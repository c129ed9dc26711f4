// A set that is installed by one verb, and the page of a device on the way.

use crate::packets::SYSTEM;
use crate::runs::{SECTORS, Step, port, steps, steps_on, words};
use crate::sets::{Image, filled, set_of, set_of_many, set_of_one};
use crate::staged::MADE;
use std::alloc::Global;
use std::process::Abort;
use std::test::Fail;
use vab_cli::run;

// The image of `system` with another block 3 and two blocks more.
fn update(alloc: Global) -> Result<Vec<u8>, Fail> {
    let mut image = filled(alloc, b"abc", 417792)?;
    let at = 3 * 4096;
    if at < image.len() {
        image[at] = 1;
    }
    Ok(image)
}

#[test]
fn a_set_is_installed_booted_and_merged(rt: HostRuntime) -> Result<(), Fail> {
    let alloc = rt.alloc();
    let image = update(alloc)?;
    let set = set_of_one(alloc, &(b"system", 417792, &image))?;
    let set = set.as_slice();
    let status = ["status"];
    let cases: [Step; 14] = [
        (&["make"], &SYSTEM, 0, MADE),
        (
            &status,
            b"",
            0,
            b"cap 256\ncurrent a\nphase idle\n\
              slot a images 1 priority 15 tries 0 successful yes\nimage a system 409600\n\
              slot b none\n",
        ),
        (&["install"], set, 0, b"installed 1 images, left 3\n"),
        (
            &status,
            b"",
            0,
            b"cap 256\ncurrent a\nphase staged 3\n\
              slot a images 1 priority 14 tries 0 successful yes\nimage a system 409600\n\
              slot b images 1 priority 15 tries 6 successful no\nimage b system 417792\n",
        ),
        (&["install"], set, 4, b"refused: an update is in progress\n"),
        (&["boot"], b"", 0, b"booted b\n"),
        (&["mark"], b"", 0, b"marked b\n"),
        (&["begin-merge"], b"", 0, b"merging, left 3\n"),
        (&["merge", "2"], b"", 0, b"left 1\n"),
        (
            &status,
            b"",
            0,
            b"cap 256\ncurrent b\nphase merging 1\nslot a none\n\
              slot b images 1 priority 15 tries 0 successful yes\nimage b system 417792\n",
        ),
        (&["install"], set, 4, b"refused: an update is in progress\n"),
        (&["merge", "2"], b"", 0, b"merged\n"),
        (&["print", "system_b"], b"", 0, image.as_slice()),
        (&["install"], set, 0, b"installed 1 images, left 0\n"),
    ];
    steps(&rt, alloc, SECTORS, &cases)?;
    Ok(())
}

#[test]
fn a_refused_installation_stops_and_may_be_dropped(rt: HostRuntime) -> Result<(), Fail> {
    let alloc = rt.alloc();
    let small: Image = (b"boot", 4096, b"xyz");
    let large: Image = (b"vendor", 1 << 20, b"");
    let set = set_of(alloc, &small, &large)?;
    let none = set_of_many(alloc, 0)?;
    let idle = b"cap 256\ncurrent a\nphase idle\n\
        slot a images 1 priority 15 tries 0 successful yes\nimage a system 409600\nslot b none\n";
    let cases: [Step; 9] = [
        (&["status"], b"", 5, b"not a device\n"),
        (&["install"], set.as_slice(), 5, b"not a device\n"),
        (&["make"], &SYSTEM, 0, MADE),
        (
            &["install"],
            set.as_slice(),
            4,
            b"refused: no room: 360 of 256 blocks\n",
        ),
        (
            &["status"],
            b"",
            0,
            b"cap 256\ncurrent a\nphase installing\n\
              slot a images 1 priority 15 tries 0 successful yes\nimage a system 409600\n\
              slot b none\nplan boot 4096 written\nplan system 409600 kept\n",
        ),
        (&["cancel"], b"", 0, b"cancelled\n"),
        (&["install"], b"VABSET2\n\0\0\0\0", 3, b""),
        (&["status"], b"", 0, idle),
        (
            &["install"],
            none.as_slice(),
            0,
            b"installed 0 images, left 0\n",
        ),
    ];
    steps(&rt, alloc, SECTORS, &cases)?;
    Ok(())
}

#[test]
fn sixty_four_images_are_installed(rt: HostRuntime) -> Result<(), Fail> {
    let alloc = rt.alloc();
    let set = set_of_many(alloc, 64)?;
    let cases: [Step; 3] = [
        (
            &["make"],
            set.as_slice(),
            0,
            b"made 64 images, 64 of 256 blocks\n",
        ),
        (
            &["install"],
            set.as_slice(),
            0,
            b"installed 64 images, left 0\n",
        ),
        (&["boot"], b"", 0, b"booted b\n"),
    ];
    steps(&rt, alloc, SECTORS, &cases)?;
    Ok(())
}

// However early it is cut off, the device opens, boots the old slot until the new one is active,
// and its image reads as before.
#[test]
fn an_installation_is_cut_off(rt: HostRuntime) -> Result<(), Fail> {
    let alloc = rt.alloc();
    let set = set_of_one(alloc, &(b"x", 8192, b"new"))?;
    let install = words(alloc, &["install"])?;
    let old = filled(alloc, b"abc", 4096)?;
    let one = crate::runs::ONE.as_slice();
    let told = b"made 1 images, 1 of 256 blocks\n";
    for stop in [0, 1, 7, 20, 33, 65, 78, 82, 85, 86, 87u64] {
        let mut d = steps(&rt, alloc, SECTORS, &[(&["make"], one, 0, told)])?;
        d = d.next_run(set.to_vec(alloc)?);
        d.stop_after(stop);
        assert_eq!(rt; run(alloc, &install, &mut d).code(), 6, "{stop}");
        steps_on(
            &rt,
            alloc,
            d,
            &[(&["print", "x_a"], b"", 0, old.as_slice())],
        )?;
    }
    let d = port(alloc, SECTORS, b"")?;
    steps_on(&rt, alloc, d, &[(&["install"], b"", 5, b"not a device\n")])?;
    Ok(())
}
