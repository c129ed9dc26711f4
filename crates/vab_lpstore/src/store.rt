//! Storing a slot's table.

ghost use Rattle.std.specs.Prelude.{◌≡◌, ◌≤◌, ◌<◌, ◌+◌, length, Ok, OnOk};
ghost use Rattle.vab_disk.specs.Disk.{Adds};
ghost use Rattle.vab_disk.specs.Calls.{IsAtRest, Touches, FailsWithDisk};
ghost use Rattle.vab_copies.specs.Copies.{with_text};
ghost use Rattle.vab_geometry.specs.Geometry.{IsGeometry};
ghost use Rattle.vab_tables.specs.declared.table.Table.{Table};
ghost use Rattle.vab_tables.specs.Text.{IsTableText};
ghost use Rattle.vab_tables.specs.Reading.{table_of};
ghost use Rattle.vab_lpstore.specs.Layout.{copy_sectors, primary_of, backup_of, primary_bytes};
ghost use Rattle.vab_lpstore.specs.Layout.{backup_bytes, text_sectors, BothHold};
ghost use Rattle.vab_lpstore.specs.Storing.{IsOfTable, LeavesEitherTable};

use crate::layout;
use vab_copies::store_copies;
use vab_disk::Disk;
use vab_gate::DiskFault;
use vab_geometry::Geometry;

/// Writes a table's text into the primary copy, and when it stands there, into the backup. The
/// text's last sector is filled up with zeros; the sectors of a copy behind the text stay.
pub fn store_table<D: Disk>(
    d: &mut D,
    geometry: &Geometry,
    slot: usize,
    text: &[u8],
) -> Result<(), DiskFault>
    requires rules { IsGeometry geometry.now }
    requires slot { slot < geometry.now.slots }
    requires on_disk { backup_of geometry.now slot + copy_sectors geometry.now ≤ D.size d.old }
    requires fits { length text.now ≤ geometry.now.max }
    ensures written { D.is_modelled → OnOk result
        (D.seen d.new ≡ with_text (text_sectors (length text.now)) text.now
        (with_text (text_sectors (length text.now)) text.now (D.seen d.old)
        (primary_of geometry.now slot))
        (backup_of geometry.now slot)) }
    ensures stored { D.is_modelled
        → OnOk result (BothHold geometry.now slot text.now (D.seen d.new)) }
    ensures settled { D.is_modelled → OnOk result (IsAtRest D.Disk d.new) }
    ensures touches { Touches D.Disk (IsOfTable geometry.now slot text.now) d.old d.new }
    // Where nothing was pending and both copies are of one table, the slot's table is that one or
    // the new one in each outcome.
    ensures table { D.is_modelled
        → IsAtRest D.Disk d.old
        → (t u : Table)
        → table_of geometry.now.max (primary_bytes geometry.now slot (D.seen d.old)) ≡ Ok t
        → table_of geometry.now.max (backup_bytes geometry.now slot (D.seen d.old)) ≡ Ok t
        → IsTableText geometry.now.max text.now u
        → Adds D.moment D.outcomes d.old d.new
        (LeavesEitherTable (D.told d.old) geometry.now slot (text_sectors (length text.now))
        (D.seen d.old) t u) }
    ensures faults { FailsWithDisk D.Disk d.old d.new result }
{
    let count = layout::sectors(text.len());
    store_copies(
        d,
        layout::primary(geometry, slot),
        layout::backup(geometry, slot),
        count,
        text,
    )
}
