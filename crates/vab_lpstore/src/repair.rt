//! Repairing the copy that doesn't hold the loaded text.

ghost use Rattle.std.specs.Prelude.{◌≡◌, ◌≤◌, ◌<◌, ◌+◌, length, true, OnOk};
ghost use Rattle.vab_disk.specs.Disk.{Adds};
ghost use Rattle.vab_disk.specs.Calls.{IsAtRest, Touches, FailsWithDisk};
ghost use Rattle.vab_geometry.specs.Geometry.{IsGeometry};
ghost use Rattle.vab_lpstore.specs.Layout.{copy_sectors, backup_of, primary_bytes, backup_bytes};
ghost use Rattle.vab_lpstore.specs.Layout.{text_sectors, BothHold};
ghost use Rattle.vab_lpstore.specs.Loading.{IsLoaded};
ghost use Rattle.vab_lpstore.specs.Storing.{IsOfRepair, LeavesTable};

use crate::layout;
use crate::loaded::Loaded;
use vab_copies::{rewrite_copy, write_copy};
use vab_disk::Disk;
use vab_gate::DiskFault;
use vab_geometry::Geometry;

/// Writes the loaded text into the copy that doesn't hold it: into the primary so that it is no
/// table's text until it is whole.
pub fn repair_table<D: Disk>(
    d: &mut D,
    geometry: &Geometry,
    slot: usize,
    loaded: &Loaded,
) -> Result<(), DiskFault>
    requires rules { IsGeometry geometry.now }
    requires slot { slot < geometry.now.slots }
    requires on_disk { backup_of geometry.now slot + copy_sectors geometry.now ≤ D.size d.old }
    requires fits { length loaded.now.text ≤ geometry.now.max }
    requires loaded { D.is_modelled → IsLoaded geometry.now.max
        (primary_bytes geometry.now slot (D.seen d.old))
        (backup_bytes geometry.now slot (D.seen d.old)) loaded.now }
    ensures repaired { D.is_modelled
        → OnOk result (BothHold geometry.now slot loaded.now.text (D.seen d.new)) }
    ensures settled { D.is_modelled → IsAtRest D.Disk d.old → OnOk result (IsAtRest D.Disk d.new) }
    // It touches the copy that doesn't hold the text, and where both do, the disk isn't asked.
    ensures touches { Touches D.Disk
        (IsOfRepair loaded.now.primary loaded.now.backup geometry.now slot loaded.now.text) d.old
        d.new }
    ensures untouched { loaded.now.primary ≡ true → loaded.now.backup ≡ true → d.new ≡ d.old }
    // Where nothing was pending, the slot's table is the loaded one in each outcome.
    ensures table { D.is_modelled
        → IsAtRest D.Disk d.old
        → Adds D.moment D.outcomes d.old d.new
        (LeavesTable (D.told d.old) geometry.now slot (text_sectors (length loaded.now.text))
        (D.seen d.old) loaded.now.table) }
    ensures faults { FailsWithDisk D.Disk d.old d.new result }
{
    let text = loaded.text.as_slice();
    let count = layout::sectors(text.len());
    if !loaded.primary {
        return write_copy(d, layout::primary(geometry, slot), count, text);
    }
    if !loaded.backup {
        return rewrite_copy(d, layout::backup(geometry, slot), count, text);
    }
    Ok(())
}
