// A device made of a set of images, and commands on it, each after it was opened again.

ghost use Rattle.std.specs.Prelude.{◌<◌, ◌^◌, IfOk};
ghost use Rattle.vab_set.specs.Spelling.{IsSet};

use std::alloc::Global;
use std::test::*;
use vab_commands::run_one;
use vab_disk::{Disk, MemPort};
use vab_make::{MakeFault, make_device};
use vab_model::{Command, Refusal, Reply};
use vab_recover::start;
use vab_set::{Set, read_set};

pub const SECTORS: u64 = 8192;

// One image `x` of three bytes for a partition of 4096 bytes.
const ONE: [u8; 41] = [
    b'V', b'A', b'B', b'S', b'E', b'T', b'1', b'\n', 1, 0, 0, 0, 1, b'x', 0, 16, 0, 0, 0, 0, 0, 0,
    0, 0, 0, 0, 0, 0, 0, 0, 3, 0, 0, 0, 0, 0, 0, 0, b'a', b'b', b'c',
];

// The SHA-256 of `abc` and 4093 zeros.
const SUM: [u8; 32] = [
    115, 251, 253, 118, 170, 33, 67, 222, 22, 14, 221, 80, 159, 249, 55, 113, 244, 77, 177, 105,
    36, 189, 81, 35, 95, 49, 31, 50, 170, 245, 252, 66,
];

pub(crate) fn set_of_one(alloc: Global) -> Result<Set<'static>, Fail>
    ensures { IfOk result (λ set. IsSet set) }
{
    match read_set(alloc, &ONE) {
        Ok(set) => Ok(set),
        Err(_) => Err("the bytes are a set".into()),
    }
}

// A disk with the device of one image.
pub(crate) fn device_of_one(alloc: Global) -> Result<MemPort, Fail> {
    let d = MemPort::new(alloc, SECTORS, Vec::new(alloc));
    let mut d = d.ok().ok_or("there is memory for a disk")?;
    let set = set_of_one(alloc)?;
    match make_device(alloc, &mut d, &set, 0, 65536) {
        Ok(()) => Ok(d.next_run(Vec::new(alloc))),
        Err(_) => Err("a device is made".into()),
    }
}

// Opens the device of a disk and carries out a command on it, where the disk doesn't fail.
pub(crate) fn reply(alloc: Global, d: &mut MemPort, command: &Command) -> Option<Reply> {
    reply_staged(alloc, d, command, None)
}

// The same, where these bytes are staged.
pub(crate) fn reply_staged(
    alloc: Global,
    d: &mut MemPort,
    command: &Command,
    staged: Option<&[u8]>,
) -> Option<Reply> {
    let device = match start(alloc, d) {
        Ok(device) => device,
        Err(_) => return None,
    };
    let (_device, reply) = match run_one(alloc, d, device, command, staged) {
        Ok(done) => done,
        Err(_) => return None,
    };
    Some(reply)
}

// What boot control says of a slot: its priority and tries, and whether it works.
fn info(d: &mut MemPort, slot: usize) -> Result<[u8; 2], Fail>
    requires { slot < 2 }
{
    let mut sector = [0u8; 512];
    if d.sectors() <= 4 || d.read_sector(4, &mut sector).is_err() {
        return Err("the boot control is read".into());
    }
    Ok([sector[12 + 2 * slot], sector[13 + 2 * slot]])
}

#[test]
fn commands_on_a_made_device(rt: HostRuntime) -> Result<(), Fail> {
    let alloc = rt.alloc();
    let mut d = device_of_one(alloc)?;
    // Each command, its reply, and what boot control says of slot a after it.
    let cases = [
        (Command::Boot, Reply::Booted(0), [0x8f, 0]),
        (Command::SetActive(0), Reply::Done, [0xef, 0]),
        (Command::Boot, Reply::Booted(0), [0xef, 0]),
        (
            Command::SetActive(1),
            Reply::Refused(Refusal::NoImages),
            [0xef, 0],
        ),
        (Command::Mark, Reply::Done, [0x8f, 0]),
        (Command::Digest(b"x_a"), Reply::Digest(SUM), [0x8f, 0]),
        (
            Command::Digest(b"x_b"),
            Reply::Refused(Refusal::NoImages),
            [0x8f, 0],
        ),
        (
            Command::Print(b"y_a"),
            Reply::Refused(Refusal::Unknown),
            [0x8f, 0],
        ),
        (
            Command::Print(b"x"),
            Reply::Refused(Refusal::BadName),
            [0x8f, 0],
        ),
    ];
    for (command, told, slot_a) in cases {
        assert!(rt; reply(alloc, &mut d, &command) == Some(told), "{command:?}");
        assert!(rt; info(&mut d, 0)? == slot_a);
        assert!(rt; info(&mut d, 1)? == [0, 0]);
    }
    let told = reply(alloc, &mut d, &Command::Print(b"x_a"));
    assert!(rt; matches!(told, Some(Reply::Bytes(_))));
    Ok(())
}

// The calls that write are one write and one sync.
#[test]
fn a_command_that_is_cut_leaves_the_old_boot_control_or_the_new_one(
    rt: HostRuntime,
) -> Result<(), Fail> {
    let alloc = rt.alloc();
    for (stop, slot_a) in [(0, [0x8f, 0]), (1, [0xef, 0]), (2, [0xef, 0])] {
        let mut d = device_of_one(alloc)?;
        d.stop_after(stop);
        let told = reply(alloc, &mut d, &Command::SetActive(0));
        assert!(rt; told == (if stop == 2 { Some(Reply::Done) } else { None }));
        let mut d = d.next_run(Vec::new(alloc));
        assert!(rt; info(&mut d, 0)? == slot_a);
        assert!(rt; start(alloc, &mut d).is_ok());
    }
    Ok(())
}

#[test]
fn a_device_that_is_not_made_is_what_the_disk_was(rt: HostRuntime) -> Result<(), Fail> {
    let alloc = rt.alloc();
    let set = set_of_one(alloc)?;
    let mut d = device_of_one(alloc)?;
    assert!(rt; reply(alloc, &mut d, &Command::SetActive(0)) == Some(Reply::Done));
    let made = make_device(alloc, &mut d, &set, 0, 512);
    assert!(rt; made == Err(MakeFault::TableFull(540, 512)));
    assert!(rt; info(&mut d, 0)? == [0xef, 0]);
    // Two calls were made. After four more the mark is gone, and there is no device until the made
    // one.
    d.stop_after(6);
    assert!(rt; make_device(alloc, &mut d, &set, 0, 65536).is_err());
    let mut d = d.next_run(Vec::new(alloc));
    assert!(rt; start(alloc, &mut d).is_err());
    assert!(rt; make_device(alloc, &mut d, &set, 0, 65536) == Ok(()));
    let mut d = d.next_run(Vec::new(alloc));
    assert!(rt; reply(alloc, &mut d, &Command::Digest(b"x_a")) == Some(Reply::Digest(SUM)));
    Ok(())
}
