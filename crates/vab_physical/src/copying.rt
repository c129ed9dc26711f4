//! What one partition holds, in another.

ghost use Rattle.std.specs.Prelude.{◌≡◌, ◌≤◌, length, OnOk};
ghost use Rattle.vab_disk.specs.Calls.{FailsWithDisk, InSectors, IsAtRest, Touches};
ghost use Rattle.vab_store.specs.Layout.{AreDisjoint, InFirst, IsApart, IsOnDisk};
ghost use Rattle.vab_physical.specs.Copy.{HoldsCopy};

use vab_disk::Disk;
use vab_gate::{DiskFault, settle};
use vab_linear::{Map, read_at, write_at};

// Copies the blocks one by one, and doesn't sync.
fn copy_blocks<D: Disk>(d: &mut D, from: &Map, to: &Map) -> Result<(), DiskFault>
    requires fits { length to.now ≤ length from.now }
    requires from_on_disk { IsOnDisk from.now (D.size d.old) }
    requires to_on_disk { IsOnDisk to.now (D.size d.old) }
    requires apart { D.is_modelled → IsApart to.now }
    requires disjoint { D.is_modelled → AreDisjoint from.now to.now }
    ensures holds { D.is_modelled → OnOk result
        (HoldsCopy from.now to.now (D.seen d.old) (D.seen d.new) (length to.now)) }
    ensures touches { Touches D.Disk (InSectors (InFirst to.now (length to.now))) d.old d.new }
    ensures faults { FailsWithDisk D.Disk d.old d.new result }
{
    let mut bytes = [0; 4096];
    for block in 0..to.len() {
        read_at(d, from, block, &mut bytes)?;
        write_at(d, to, block, &bytes)?;
    }
    Ok(())
}

/// Makes each block of the partition `to` what that of the partition `from` holds, which has as
/// many blocks or more and none in common with it, and syncs. One block is held in memory at a
/// time, and no other memory is taken.
pub fn copy_image<D: Disk>(d: &mut D, from: &Map, to: &Map) -> Result<(), DiskFault>
    requires fits { length to.now ≤ length from.now }
    requires from_on_disk { IsOnDisk from.now (D.size d.old) }
    requires to_on_disk { IsOnDisk to.now (D.size d.old) }
    requires apart { D.is_modelled → IsApart to.now }
    requires disjoint { D.is_modelled → AreDisjoint from.now to.now }
    ensures holds { D.is_modelled → OnOk result
        (HoldsCopy from.now to.now (D.seen d.old) (D.seen d.new) (length to.now)) }
    ensures settled { D.is_modelled → OnOk result (IsAtRest D.Disk d.new) }
    // It touches the blocks of `to` alone.
    ensures touches { Touches D.Disk (InSectors (InFirst to.now (length to.now))) d.old d.new }
    ensures faults { FailsWithDisk D.Disk d.old d.new result }
{
    match copy_blocks(d, from, to) {
        Ok(()) => settle(d),
        Err(fault) => Err(fault),
    }
}
