// Updates through stores with chunks of 8, 16 and 32 sectors.

use crate::merging::{B_WORKS, image};
use crate::packets::{Case, SYSTEM, session};
use crate::runs::{SECTORS, Step, port, steps, steps_on};
use crate::sets::filled;
use crate::staged::{MADE, serve};
use std::alloc::Global;
use std::process::Abort;
use std::test::Fail;
use vab_disk::MemPort;

// Blocks 10, 11 and 13 differ: three chunks of one block, two of two blocks, and two of four.
#[test]
fn a_store_is_as_full_as_chunks_differ(rt: HostRuntime) -> Result<(), Fail> {
    let alloc = rt.alloc();
    let image = image(alloc, &[10, 11, 13])?;
    let d = steps(&rt, alloc, SECTORS, &[(&["make"], &SYSTEM, 0, MADE)])?;
    let cases: [Case; 18] = [
        (b"download:00064000".as_slice(), b"DATA00064000".as_slice()),
        (&image, b"OKAY"),
        (b"oem begin", b"OKAY"),
        (b"oem snapshot system_b 16384", b"OKAY"),
        (b"oem flash system_b 8", b"FAILstore full: 5 of 4 blocks"),
        (b"snapshot-update:cancel", b"OKAY"),
        (b"oem begin", b"OKAY"),
        (b"oem snapshot system_b 28672", b"OKAY"),
        (b"oem flash system_b 16", b"FAILstore full: 8 of 7 blocks"),
        (b"snapshot-update:cancel", b"OKAY"),
        (b"oem begin", b"OKAY"),
        (b"oem snapshot system_b 61440", b"OKAY"),
        (b"oem flash system_b 32", b"FAILstore full: 16 of 15 blocks"),
        (b"oem flash system_b 16", b"OKAY"),
        (b"oem finish", b"OKAY"),
        (b"set_active:b", b"OKAY"),
        (b"oem boot", b"OKAYb"),
        (b"oem mark-successful", b"OKAY"),
    ];
    let d = serve(&rt, alloc, d, &cases, B_WORKS)?;
    let runs: [Step; 5] = [
        (&["print", "system_b"], b"", 0, &image),
        (&["begin-merge"], b"", 0, b"merging, left 2\n"),
        (&["merge", "1"], b"", 0, b"left 1\n"),
        (&["merge", "2"], b"", 0, b"merged\n"),
        (&["print", "system_b"], b"", 0, &image),
    ];
    steps_on(&rt, alloc, d, &runs)?;
    Ok(())
}

// New partitions of one, three and five blocks: the last chunks of two of them aren't full.
fn mixed(rt: &impl Abort, alloc: Global) -> Result<MemPort, Fail> {
    let cases: [Case; 21] = [
        (b"oem begin".as_slice(), b"OKAY".as_slice()),
        (b"create-logical-partition:x_b:4096", b"OKAY"),
        (b"create-logical-partition:y_b:12288", b"OKAY"),
        (b"create-logical-partition:z_b:20480", b"OKAY"),
        (b"oem snapshot x_b 12288", b"OKAY"),
        (b"oem snapshot y_b 32768", b"OKAY"),
        (b"oem snapshot z_b 65536", b"OKAY"),
        (b"download:00000003", b"DATA00000003"),
        (b"xxx", b"OKAY"),
        (b"oem flash x_b 8", b"OKAY"),
        (b"download:00000003", b"DATA00000003"),
        (b"yyy", b"OKAY"),
        (b"oem flash y_b 16", b"OKAY"),
        (b"download:00000003", b"DATA00000003"),
        (b"zzz", b"OKAY"),
        (b"oem flash z_b 32", b"OKAY"),
        (b"oem finish", b"OKAY"),
        (b"set_active:b", b"OKAY"),
        (b"oem boot", b"OKAYb"),
        (b"oem mark-successful", b"OKAY"),
        (b"getvar:snapshot-update-status", b"OKAYsnapshotted"),
    ];
    let (input, told) = session(alloc, &cases)?;
    let runs: [Step; 1] = [(&["serve", "--fresh"], &input, 0, &told)];
    steps_on(rt, alloc, port(alloc, SECTORS, b"")?, &runs)
}

// The images of that update are there.
fn has_mixed(rt: &impl Abort, alloc: Global, d: MemPort) -> Result<MemPort, Fail> {
    let x = filled(alloc, b"xxx", 4096)?;
    let y = filled(alloc, b"yyy", 12288)?;
    let z = filled(alloc, b"zzz", 20480)?;
    let prints: [Step; 3] = [
        (&["print", "x_b"], b"", 0, &x),
        (&["print", "y_b"], b"", 0, &y),
        (&["print", "z_b"], b"", 0, &z),
    ];
    steps_on(rt, alloc, d, &prints)
}

#[test]
fn chunks_of_three_sizes_are_merged_in_one_update(rt: HostRuntime) -> Result<(), Fail> {
    let alloc = rt.alloc();
    let mut d = has_mixed(&rt, alloc, mixed(&rt, alloc)?)?;
    let runs: [Step; 4] = [
        (&["begin-merge"], b"", 0, b"merging, left 5\n"),
        (&["merge", "2"], b"", 0, b"left 3\n"),
        (&["merge", "2"], b"", 0, b"left 1\n"),
        (&["merge", "2"], b"", 0, b"merged\n"),
    ];
    for step in runs {
        d = has_mixed(&rt, alloc, steps_on(&rt, alloc, d, &[step])?)?;
    }
    Ok(())
}
