// A command on a disk in memory, and beside it on the machine.

use crate::held::state_of;
use crate::spelled::spelled;
use std::alloc::Global;
use std::process::Abort;
use std::test::*;
use vab_commands::run_one;
use vab_device::Device;
use vab_disk::MemPort;
use vab_machine::{is_small, step};
use vab_model::{Command, Refusal, Reply, State};
use vab_recover::start;

/// The state of the device that is opened.
pub(crate) fn opened(alloc: Global, d: &mut MemPort) -> Result<State, Fail> {
    match start(alloc, d) {
        Ok(device) => state_of(alloc, d, &device),
        Err(_) => Err("a device is opened".into()),
    }
}

// Opens the device and carries out a command on it.
fn carried(
    alloc: Global,
    d: &mut MemPort,
    command: &Command,
    staged: Option<&[u8]>,
) -> Option<(Device, Reply)> {
    let device = match start(alloc, d) {
        Ok(device) => device,
        Err(_) => return None,
    };
    run_one(alloc, d, device, command, staged).ok()
}

// What the machine makes of it.
fn stepped(
    alloc: Global,
    state: &State,
    command: &Command,
    staged: Option<&[u8]>,
) -> Result<(State, Reply), Fail> {
    if !is_small(state) {
        return Err("a state is small".into());
    }
    Ok(step(alloc, state, command, staged)?)
}

// The image of a wipe was taken, or refused for a partition.
fn is_done_or_filled(want: &Reply) -> bool {
    matches!(want, Reply::Done | Reply::Refused(Refusal::NotEmpty(_)))
}

// The state behind a command: the machine's where the replies are the same, and the one before it
// where the disk alone refuses.
fn next_of(
    rt: &impl Abort,
    alloc: Global,
    command: &Command,
    state: &State,
    stepped: (State, Reply),
    told: &Reply,
) -> Result<State, Fail> {
    let (next, want) = stepped;
    match told {
        Reply::Refused(Refusal::TableFull(_, _)) => {
            assert_eq!(rt; want, Reply::Done, "{command:?}");
            Ok(state.copy(alloc)?)
        }
        Reply::Refused(Refusal::OtherGeometry | Refusal::OtherDevice) => {
            assert!(rt; is_done_or_filled(&want), "{command:?}: {want:?}");
            Ok(state.copy(alloc)?)
        }
        _ => {
            assert_eq!(rt; *told, want, "{command:?}");
            Ok(next)
        }
    }
}

// What the disk makes of a command: the state behind it and the reply.
fn held(
    alloc: Global,
    d: &mut MemPort,
    command: &Command,
    staged: Option<&[u8]>,
) -> Result<(State, Reply), Fail> {
    let (device, told) = carried(alloc, d, command, staged).ok_or("a command is carried out")?;
    Ok((state_of(alloc, d, &device)?, told))
}

// Both states are the same.
fn is_same(alloc: Global, left: &State, right: &State) -> Result<bool, Fail> {
    let left = spelled(alloc, left)?;
    let right = spelled(alloc, right)?;
    Ok(left.as_slice() == right.as_slice())
}

/// Carries out a command on the device of a disk, and on the machine in this state, which is that
/// of the device. The replies are the same; or the table was full where the machine's is `Done`, or
/// a wipe's image is that of another device, and then nothing has changed. So are the states behind
/// them.
pub(crate) fn beside(
    rt: &impl Abort,
    alloc: Global,
    d: &mut MemPort,
    state: &State,
    command: &Command,
    staged: Option<&[u8]>,
) -> Result<(State, Reply), Fail> {
    let stepped = stepped(alloc, state, command, staged)?;
    let (held, told) = held(alloc, d, command, staged)?;
    let next = next_of(rt, alloc, command, state, stepped, &told)?;
    assert!(rt;
        is_same(alloc, &held, &next)?,
        "the state behind {command:?}"
    );
    let again = opened(alloc, d)?;
    assert!(rt;
        is_same(alloc, &again, &next)?,
        "the state opened behind {command:?}"
    );
    Ok((next, told))
}
