// Turns of a merge that a session makes between two packets.

use crate::merging::{B_WORKS, image};
use crate::packets::{Case, SYSTEM, session};
use crate::runs::{SECTORS, Step, steps, steps_on, words};
use crate::staged::{MADE, serve};
use std::alloc::Global;
use std::process::Abort;
use std::test::Fail;
use vab_cli::run;
use vab_disk::{Blend, CallKind, MemPort};

// The SHA-256 of the image with blocks 10 to 12.
const DIGEST: &[u8] = b"OKAY23008fe357f9ec695179d8e06c14b1b8f205b6903a5149ab470d08763adbe71e";

const STATUS: &[u8] = b"getvar:snapshot-update-status";

// An update of three blocks, whose slot is booted and marked.
fn works(rt: &impl Abort, alloc: Global) -> Result<MemPort, Fail> {
    let d = steps(rt, alloc, SECTORS, &[(&["make"], &SYSTEM, 0, MADE)])?;
    let staged = image(alloc, &[10, 11, 12])?;
    let cases: [Case; 9] = [
        (b"oem begin".as_slice(), b"OKAY".as_slice()),
        (b"oem snapshot system_b 20480", b"OKAY"),
        (b"download:00064000", b"DATA00064000"),
        (&staged, b"OKAY"),
        (b"flash:system_b", b"OKAY"),
        (b"oem finish", b"OKAY"),
        (b"set_active:b", b"OKAY"),
        (b"oem boot", b"OKAYb"),
        (b"oem mark-successful", b"OKAY"),
    ];
    serve(rt, alloc, d, &cases, B_WORKS)
}

// What is left of this one.
fn left_by(d: &MemPort) -> Result<MemPort, Fail> {
    d.outcome(Blend::New).map_err(|_| Fail::from("memory"))
}

#[test]
fn a_merge_goes_on_behind_each_reply(rt: HostRuntime) -> Result<(), Fail> {
    let alloc = rt.alloc();
    let ready = works(&rt, alloc)?;
    for (turns, status) in [
        ("0", b"OKAYmerging".as_slice()),
        ("1", b"OKAYmerging"),
        ("2", b"OKAYnone"),
        ("4294967295", b"OKAYnone"),
    ] {
        let cases: [Case; 3] = [
            (b"oem begin-merge".as_slice(), b"OKAY".as_slice()),
            (b"oem digest system_b", DIGEST),
            (STATUS, status),
        ];
        let (input, told) = session(alloc, &cases)?;
        let runs: [Step; 1] = [(&["serve", "--turns", turns], &input, 0, &told)];
        steps_on(&rt, alloc, left_by(&ready)?, &runs)?;
    }
    Ok(())
}

#[test]
fn as_many_turns_as_are_asked_for(rt: HostRuntime) -> Result<(), Fail> {
    let alloc = rt.alloc();
    let d = steps_on(
        &rt,
        alloc,
        works(&rt, alloc)?,
        &[(&["begin-merge"], b"", 0, b"merging, left 3\n")],
    )?;
    for (turns, input, told) in [
        ("3", b"FB01".as_slice(), b"merged\n".as_slice()),
        ("2", b"FB01", b"left 0\n"),
        ("1", b"FB01\0\0\0\0\0\0\0\x0egetvar:version", b"left 0\n"),
        ("2", b"FB01\0\0\0\0\0\0\0\x06reboot", b"left 0\n"),
        ("2", b"FB0", b"left 2\n"),
        ("2", b"FB01\0\0\0\0\0\0\0\x11download:00000010", b"left 0\n"),
    ] {
        let mut port = left_by(&d)?.next_run(input.to_vec(alloc)?);
        let serve = words(alloc, &["serve", "--turns", turns])?;
        let _ = run(alloc, &serve, &mut port);
        steps_on(
            &rt,
            alloc,
            left_by(&port)?,
            &[(&["merge", "1"], b"", 0, told)],
        )?;
    }
    Ok(())
}

#[test]
fn a_disk_that_fails_in_a_turn_is_status_6_behind_all_earlier_replies(
    rt: HostRuntime,
) -> Result<(), Fail> {
    let alloc = rt.alloc();
    let ready = works(&rt, alloc)?;
    let cases: [Case; 1] = [(b"oem begin-merge".as_slice(), b"OKAY".as_slice())];
    let (input, told) = session(alloc, &cases)?;
    let serve = words(alloc, &["serve", "--turns", "4"])?;
    let mut late = false;
    for nth in 0..4096u64 {
        // Each call behind the reply is one of a turn; of those before it a few are tried.
        if late || nth % 29 == 0 {
            let mut port = left_by(&ready)?.next_run(input.to_vec(alloc)?);
            port.fail_at(CallKind::Disk, nth)
                .map_err(|_| Fail::from("memory"))?;
            let status = run(alloc, &serve, &mut port);
            if status.code() == 0 {
                break;
            }
            assert_eq!(rt; status.code(), 6);
            assert!(rt; told.starts_with(port.told()));
            late = port.told() == told.as_slice();
            if late && nth % 8 == 0 {
                let digest: [Case; 1] = [(b"oem digest system_b".as_slice(), DIGEST)];
                crate::staged::serve(&rt, alloc, left_by(&port)?, &digest, B_WORKS)?;
            }
        }
    }
    assert!(rt; late);
    Ok(())
}
