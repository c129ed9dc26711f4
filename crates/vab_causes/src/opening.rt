// Why a disk is no device.

use crate::bytes::write_bytes;
use std::fmt;
use vab_bootctl::ControlFault;
use vab_bytes::Name36;
use vab_device::StartFault;

// The sector of the update mark.
const MARK: u64 = 2048;

fn control_text(fault: ControlFault) -> &'static str {
    match fault {
        ControlFault::BadMagic => "bad magic",
        ControlFault::BadVersion => "bad version",
        ControlFault::BadSum => "bad sum",
        ControlFault::BadSlots => "not two slots, or no slot's suffix",
    }
}

fn state_text(rule: u8) -> &'static str {
    match rule {
        1 => "the current slot has no images",
        2 => "boot control doesn't say of the mark's slot that it has worked and may be booted",
        3 => "a partition that the update writes has no status",
        _ => "the slot is overlaid, and not exactly one of its partitions has a store",
    }
}

fn write_mark<W: fmt::Write>(f: &mut fmt::Formatter<W>, sector: u64) -> fmt::Result {
    if sector == MARK {
        return write!(f, "sector 2048 is no update mark");
    }
    write!(
        f,
        "sector {sector} is no status of a partition, or one of a partition that has one"
    )
}

fn write_named<W: fmt::Write>(
    f: &mut fmt::Formatter<W>,
    head: &str,
    name: &Name36,
    tail: &str,
) -> fmt::Result {
    write!(f, "{head}")?;
    write_bytes(f, name.text())?;
    write!(f, "{tail}")
}

// Writes what is wrong with the contents of a disk.
fn write_contents<W: fmt::Write>(f: &mut fmt::Formatter<W>, fault: &StartFault) -> fmt::Result {
    match fault {
        StartFault::TooSmall(need, have) => {
            write!(f, "{have} sectors, and a device has at least {need}")
        }
        StartFault::BadMark(sector) => write_mark(f, *sector),
        StartFault::BadControl(fault) => {
            write!(f, "sector 4 is no boot control: {}", control_text(*fault))
        }
        StartFault::BadPhysical => write!(
            f,
            "sector 2113 holds no sizes of physical partitions, or the disk is too small for them"
        ),
        StartFault::BadGeometry => write!(
            f,
            "neither copy of the geometry passes, or the tables would pass the end of the disk"
        ),
        StartFault::BadTable(0) => write!(f, "neither copy of slot a's table passes"),
        StartFault::BadTable(_) => write!(f, "neither copy of slot b's table passes"),
        StartFault::BadPartition(name) => {
            write_named(f, "partition ", name, " breaks a rule of its table")
        }
        StartFault::BadStore(name) => {
            write_named(
                f,
                "the store of ",
                name,
                " isn't there as its status or the overlay says",
            )
        }
        StartFault::BadState(rule) => write!(f, "{}", state_text(*rule)),
        StartFault::NoMemory => write!(f, "out of memory"),
        StartFault::Disk(_) => write!(f, "the disk failed"),
    }
}

/// Writes why no device was opened.
pub(crate) fn write_opening<W: fmt::Write>(
    f: &mut fmt::Formatter<W>,
    fault: &StartFault,
) -> fmt::Result {
    match fault {
        StartFault::NoMemory | StartFault::Disk(_) => {}
        _ => write!(f, "no device: ")?,
    }
    write_contents(f, fault)
}
