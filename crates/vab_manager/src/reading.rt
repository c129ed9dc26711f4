//! A block of a partition.

ghost use Rattle.std.specs.Prelude.{◌≡◌, ◌<◌, length, slice_index, OnOk};
ghost use Rattle.vab_disk.specs.Calls.{FailsWithDisk, OnlyReads};
ghost use Rattle.vab_gate.specs.Gate.{sectors_at};
ghost use Rattle.vab_device.specs.Kept.{IsPart};
ghost use Rattle.vab_device.specs.Mounted.{sectors_read};

use vab_device::{Part, PartImage};
use vab_disk::Disk;
use vab_gate::DiskFault;
use vab_linear::read_at;
use vab_snapread::read_block;

/// Reads a block of a partition: where it is written and has a store, what that has in place of its
/// own. The error comes where the disk has failed.
pub fn read_part<D: Disk>(
    d: &mut D,
    part: &Part,
    block: u64,
    out: &mut [u8; 4096],
) -> Result<(), DiskFault>
    requires kept { IsPart (D.size d.old) part.now }
    requires block { block < length part.now.map }
    ensures bytes { D.is_modelled → OnOk result
        (out.new ≡ sectors_at 8 (D.seen d.old) (slice_index (sectors_read part.now) block)) }
    ensures reads { OnlyReads D.Disk d.old d.new }
    ensures faults { FailsWithDisk D.Disk d.old d.new result }
{
    match &part.image {
        PartImage::Kept => read_at(d, &part.map, block, out),
        PartImage::Declared => read_at(d, &part.map, block, out),
        PartImage::Written(chunk, view) => match &part.store {
            Some(store) => read_block(d, &part.map, store, view, block, out, *chunk),
            None => read_at(d, &part.map, block, out),
        },
    }
}
