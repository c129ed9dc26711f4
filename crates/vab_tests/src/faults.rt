// Calls that fail once.

use crate::runs::{SECTORS, port, words};
use std::alloc::Global;
use std::test::Fail;
use vab_cli::run;
use vab_disk::CallKind;

const INPUT: &[u8] = b"FB01\0\0\0\0\0\0\0\x0cset_active:a";

// The status of a fresh session whose call of a kind fails, and how many bytes it tells.
fn status_of(alloc: Global, kind: CallKind, nth: u64) -> Result<(u8, usize), Fail> {
    let mut port = port(alloc, SECTORS, INPUT)?;
    port.fail_at(kind, nth).map_err(|_| Fail::from("memory"))?;
    let fresh = words(alloc, &["serve", "--fresh"])?;
    let status = run(alloc, &fresh, &mut port);
    Ok((status.code(), port.told().len()))
}

#[test]
fn each_disk_call_that_fails_is_status_6_and_no_reply_is_told_before_its_sync(
    rt: HostRuntime,
) -> Result<(), Fail> {
    let alloc = rt.alloc();
    let mut calls = 0u64;
    for nth in 0..4096u64 {
        let (status, told) = status_of(alloc, CallKind::Disk, nth)?;
        if status == 0 {
            break;
        }
        assert_eq!(rt; status, 6);
        assert!(rt; told == 0 || told == 4);
        calls = nth;
    }
    assert!(rt; 10 < calls && calls < 4095);
    Ok(())
}

#[test]
fn a_port_call_that_fails_is_status_7(rt: HostRuntime) -> Result<(), Fail> {
    let alloc = rt.alloc();
    for (kind, nth) in [
        (CallKind::Say, 0),
        (CallKind::Say, 1),
        (CallKind::Hear, 0),
        (CallKind::Hear, 1),
    ] {
        let (status, _) = status_of(alloc, kind, nth)?;
        assert_eq!(rt; status, 7);
    }
    Ok(())
}
