//! A block of a partition, read and written on the disk.

ghost use Rattle.std.specs.Prelude.{◌≡◌, ◌<◌, ◌≤◌, ◌+◌, length, slice_index, OnOk};
ghost use Rattle.vab_disk.specs.Calls.{OnlyReads, Touches, FailsWithDisk};
ghost use Rattle.vab_gate.specs.Gate.{set_block, sectors_at, IsAmong};

use crate::Map;
use vab_disk::Disk;
use vab_gate::{DiskFault, get_block, put_block};

/// Reads a block of a partition.
pub fn read_at<D: Disk>(
    d: &mut D,
    map: &Map,
    block: u64,
    out: &mut [u8; 4096],
) -> Result<(), DiskFault>
    requires block { block < length map.now }
    requires on_disk { slice_index map.now block + 8 ≤ D.size d.old }
    ensures bytes { D.is_modelled → OnOk result
        (out.new ≡ sectors_at 8 (D.seen d.old) (slice_index map.now block)) }
    ensures reads { OnlyReads D.Disk d.old d.new }
    ensures faults { FailsWithDisk D.Disk d.old d.new result }
{
    get_block(d, map.sector_of(block), out)
}

/// Writes a block of a partition, and doesn't sync.
pub fn write_at<D: Disk>(
    d: &mut D,
    map: &Map,
    block: u64,
    from: &[u8; 4096],
) -> Result<(), DiskFault>
    requires block { block < length map.now }
    requires on_disk { slice_index map.now block + 8 ≤ D.size d.old }
    ensures written { D.is_modelled → OnOk result
        (D.seen d.new ≡ set_block (D.seen d.old) (slice_index map.now block) from.now) }
    // Its eight sectors alone, each old or new by itself.
    ensures touches { Touches D.Disk (IsAmong 8 (slice_index map.now block) from.now) d.old d.new }
    ensures faults { FailsWithDisk D.Disk d.old d.new result }
{
    put_block(d, map.sector_of(block), from)
}
