//! A partition's image in its own blocks.

ghost use Rattle.std.specs.Prelude.{◌≡◌, ◌*◌, ◌≤◌, length, OnOk};
ghost use Rattle.vab_disk.specs.Calls.{IsAtRest, InSectors, Touches, FailsWithDisk};
ghost use Rattle.vab_store.specs.Layout.{IsOnDisk, IsApart, InFirst};
ghost use Rattle.vab_install.specs.InPlace.{HoldsImage};

use vab_disk::Disk;
use vab_gate::{DiskFault, settle};
use vab_linear::{Map, write_at};
use vab_store::image_block;

// Writes an image into the blocks of a partition, and doesn't sync.
fn write_blocks<D: Disk>(d: &mut D, map: &Map, image: &[u8]) -> Result<(), DiskFault>
    requires on_disk { IsOnDisk map.now (D.size d.old) }
    requires apart { D.is_modelled → IsApart map.now }
    ensures holds { D.is_modelled
        → OnOk result (HoldsImage map.now image.now (D.seen d.new) (length map.now)) }
    ensures touches { Touches D.Disk (InSectors (InFirst map.now (length map.now))) d.old d.new }
    ensures faults { FailsWithDisk D.Disk d.old d.new result }
{
    for block in 0..map.len() {
        write_at(d, map, block, &image_block(image, block))?;
    }
    Ok(())
}

/// Writes an image into the blocks of a partition, with zeros behind its end up to the last of
/// them, and syncs. Takes no memory.
pub fn write_image<D: Disk>(d: &mut D, map: &Map, image: &[u8]) -> Result<(), DiskFault>
    requires fits { length image.now ≤ 4096 * length map.now }
    requires on_disk { IsOnDisk map.now (D.size d.old) }
    requires apart { D.is_modelled → IsApart map.now }
    // Each block is that of the image, whatever it held before.
    ensures holds { D.is_modelled
        → OnOk result (HoldsImage map.now image.now (D.seen d.new) (length map.now)) }
    ensures settled { D.is_modelled → OnOk result (IsAtRest D.Disk d.new) }
    // It touches the partition's blocks alone.
    ensures touches { Touches D.Disk (InSectors (InFirst map.now (length map.now))) d.old d.new }
    ensures faults { FailsWithDisk D.Disk d.old d.new result }
{
    match write_blocks(d, map, image) {
        Ok(()) => settle(d),
        Err(fault) => Err(fault),
    }
}
