// Inputs of a port in memory.

use std::alloc::Global;
use std::test::*;
use vab_disk::{CallKind, MemPort};
use vab_input::{InputFault, hear_all};

// A port that hears so many bytes.
fn port(alloc: Global, length: usize) -> Result<MemPort, Fail> {
    let mut input = Vec::new(alloc);
    for i in 0..length {
        input.push((i % 251) as u8)?;
    }
    Ok(
        MemPort::new(alloc, 0, input)
            .ok()
            .ok_or("there is memory for a port")?,
    )
}

#[test]
fn inputs_come_whole_up_to_the_bound(rt: HostRuntime) -> Result<(), Fail> {
    for (length, most) in [
        (0, 0),
        (1, 1),
        (65536, 65536),
        (70000, 70000),
        (70000, u64::MAX),
    ] {
        let heard = hear_all(rt.alloc(), &mut port(rt.alloc(), length)?, most);
        assert_eq!(rt; heard.map(|v| v.len()), Ok(length));
    }
    for (length, most) in [(1, 0), (65537, 65536), (140000, 70000)] {
        let heard = hear_all(rt.alloc(), &mut port(rt.alloc(), length)?, most);
        assert_eq!(rt; heard.map(|v| v.len()), Err(InputFault::TooLong));
    }
    Ok(())
}

#[test]
fn a_call_that_fails_is_told(rt: HostRuntime) -> Result<(), Fail> {
    let mut p = port(rt.alloc(), 70000)?;
    p.fail_at(CallKind::Hear, 1).ok().ok_or("there is memory")?;
    let heard = hear_all(rt.alloc(), &mut p, 70000);
    assert_eq!(rt; heard.map(|v| v.len()), Err(InputFault::Source));
    Ok(())
}
