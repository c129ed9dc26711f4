//! Loading a slot's table.

ghost use Rattle.std.specs.Prelude.{◌≡◌, ◌⊎◌, ◌≤◌, ◌<◌, ◌+◌, ◌*◌, ◌^◌, ℕ, List, length, IfOk};
ghost use Rattle.std.specs.Prelude.{IsErrOf};
ghost use Rattle.vab_disk.specs.Disk.{DiskFailed};
ghost use Rattle.vab_disk.specs.Calls.{OnlyReads};
ghost use Rattle.vab_gate.specs.Gate.{sectors_at};
ghost use Rattle.vab_geometry.specs.Geometry.{IsGeometry};
ghost use Rattle.vab_tables.specs.Text.{IsTableText};
ghost use Rattle.vab_tables.specs.Spelling.{table_size_of};
ghost use Rattle.vab_lpstore.specs.Front.{IsFront};
ghost use Rattle.vab_lpstore.specs.Layout.{copy_sectors, backup_of, primary_bytes, backup_bytes};
ghost use Rattle.vab_lpstore.specs.Loading.{slot_table, IsLoaded, Gives, AreFaults, IsDiskFault};

use crate::judge::choose;
use crate::layout;
use crate::loaded::{LoadFault, Loaded};
use std::alloc::Global;
use vab_copies::{ReadFault, read_text};
use vab_disk::Disk;
use vab_geometry::Geometry;
use vab_tables::needed_size;

// As much of a copy as decides what it says: its first sector, or where that is a whole header, the
// sectors of header and tables.
fn read_front<D: Disk>(
    alloc: Global,
    d: &mut D,
    at: u64,
    count: u64,
    max: u32,
) -> Result<Vec<u8>, ReadFault>
    requires some { 1 ≤ count }
    requires room { max ≤ 512 * count }
    requires on_disk { at + count ≤ D.size d.old }
    ensures front { D.is_modelled → IfOk result
        (λ front. IsFront max (sectors_at count (D.seen d.old) at) front.items) }
    ensures reads { OnlyReads D.Disk d.old d.new }
    ensures steady { IsErrOf result ReadFault.Disk ⊎ (D.faults d.new ≡ D.faults d.old) }
    ensures cause { IsErrOf result ReadFault.Disk
        → DiskFailed (D.faults d.old) (D.faults d.new) }
{
    let first = read_text(alloc, d, at, 1)?;
    let needed = layout::sectors(needed_size(&first, max));
    if needed <= 1 {
        return Ok(first);
    }
    read_text(alloc, d, at, needed)
}

/// The primary copy's table, or else the backup's. `BothBad` comes exactly where neither copy is a
/// table's text, with the faults of both, which are never `NoMemory`. Of a copy the first sector is
/// read, and where its header is whole, those of header and tables.
#[tactic(auto, unfolding(crate::specs::Loading::slot_table))]
pub fn load_table<D: Disk>(
    alloc: Global,
    d: &mut D,
    geometry: &Geometry,
    slot: usize,
) -> Result<Loaded, LoadFault>
    requires rules { IsGeometry geometry.now }
    requires slot { slot < geometry.now.slots }
    requires on_disk { backup_of geometry.now slot + copy_sectors geometry.now ≤ D.size d.old }
    ensures table { D.is_modelled → Gives result (slot_table geometry.now slot (D.seen d.old)) }
    ensures loaded { D.is_modelled → IfOk result
        (λ l. IsLoaded geometry.now.max
        (primary_bytes geometry.now slot (D.seen d.old))
        (backup_bytes geometry.now slot (D.seen d.old)) l) }
    ensures text { IfOk result (λ l. IsTableText geometry.now.max l.text l.table) }
    ensures fits { IfOk result (λ l. length l.text ≤ geometry.now.max) }
    // Entries of several kinds may share bytes of the text, so that the table is written in more,
    // but in less than three times the maximum.
    ensures small { IfOk result (λ l. table_size_of l.table < 2 ^ 24) }
    ensures faults { AreFaults result }
    ensures reads { OnlyReads D.Disk d.old d.new }
    ensures steady { IsDiskFault result ⊎ (D.faults d.new ≡ D.faults d.old) }
    ensures cause { IsDiskFault result → DiskFailed (D.faults d.old) (D.faults d.new) }
{
    let count = layout::copy_size(geometry);
    let primary = read_front(
        alloc,
        d,
        layout::primary(geometry, slot),
        count,
        geometry.max,
    )?;
    let backup = read_front(
        alloc,
        d,
        layout::backup(geometry, slot),
        count,
        geometry.max,
    )?;
    choose(alloc, primary, backup, geometry.max)
}
