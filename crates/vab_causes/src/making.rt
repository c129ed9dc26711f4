// Why no device is made.

use std::fmt;
use vab_make::MakeFault;

/// Writes why no device was made.
pub(crate) fn write_making<W: fmt::Write>(
    f: &mut fmt::Formatter<W>,
    fault: &MakeFault,
) -> fmt::Result {
    match fault {
        MakeFault::TooSmall(need, have) => {
            write!(
                f,
                "no device: {have} sectors, and one is made on at least {need}"
            )
        }
        MakeFault::GroupLimit(bytes, limit) => {
            write!(f, "refused: group limit: {bytes} of {limit} bytes")
        }
        MakeFault::NoRoom(blocks, cap) => write!(f, "refused: no room: {blocks} of {cap} blocks"),
        MakeFault::TableFull(bytes, most) => {
            write!(f, "refused: table full: {bytes} of {most} bytes")
        }
        MakeFault::NoMemory => write!(f, "out of memory"),
        MakeFault::Disk(_) => write!(f, "the disk failed"),
    }
}
