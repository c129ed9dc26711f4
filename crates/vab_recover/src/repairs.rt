//! Repairs of what was read, and what is written behind a merge that has ended.

ghost use Rattle.std.specs.Prelude.{◌≡◌, ◌<◌, IfSome, Ok, OnOk};
ghost use Rattle.vab_marks.specs.Mark.{mark_of};
ghost use Rattle.vab_disk.specs.Disk.{Adds};
ghost use Rattle.vab_disk.specs.Calls.{OnlyReads, Touches, IsAtRest, IsQuiet, FailsWithDisk};
ghost use Rattle.vab_device.specs.Kept.{IsDevice};
ghost use Rattle.vab_device.specs.Reading.{device, Represents, RepresentsUnder, version_at};
ghost use Rattle.vab_tidy.specs.Kept.{device_after};
ghost use Rattle.vab_tidy.specs.Planned.{IsDue, IsTidying};
ghost use Rattle.vab_tidy.specs.Stays.{LeavesSame, Stays};
ghost use Rattle.vab_recover.specs.Opened.{AreTablesThere, IsOpened, with_tables};
ghost use Rattle.vab_recover.specs.Opening.{IsOfOpening, IsOfMending, HasVersion2};
ghost use Rattle.vab_recover.specs.Opening.{HasNoneCompleted, IsTidied};
ghost use Rattle.vab_recover.specs.Repairs.{IsRepair, BothCopiesHold};

use crate::table::{Tables, with_tables};
use vab_device::Device;
use vab_disk::Disk;
use vab_gate::DiskFault;
use vab_lpstore::repair_table;
use vab_tidy::{Tidying, migrate, tidy_if_due};

// Repairs the tables that were read, the source's first.
fn repair_tables<D: Disk>(d: &mut D, kept: &Device, tables: &Tables) -> Result<(), DiskFault>
    requires is { IsDevice (with_tables tables.now kept.now) (D.size d.old) }
    requires there { AreTablesThere kept.now.tail.super_end kept.now.geometry
        kept.now.mark tables.now }
    requires read { D.is_modelled
        → IsOpened kept.now tables.now (D.size d.old) (D.seen d.old) }
    ensures represents { D.is_modelled → OnOk result
        (RepresentsUnder (version_at (D.seen d.old)) (with_tables tables.now kept.now)
        (D.size d.old) (D.seen d.new)) }
    ensures same { D.is_modelled → OnOk result
        (device (D.size d.old) (D.seen d.new) ≡ device (D.size d.old) (D.seen d.old)) }
    ensures touches { D.is_modelled
        → Touches D.Disk (IsRepair (D.size d.old) (D.seen d.old)) d.old d.new }
    ensures healthy { D.is_modelled
        → BothCopiesHold (D.size d.old) (D.seen d.old)
        → d.new ≡ d.old }
    ensures settled { D.is_modelled → IsAtRest D.Disk d.old → OnOk result (IsAtRest D.Disk d.new) }
    ensures quiet { IsQuiet D.Disk d.old d.new }
    ensures time { D.is_modelled
        → IsAtRest D.Disk d.old
        → Adds D.moment D.outcomes d.old d.new
        (LeavesSame (D.told d.old) (D.size d.old) (D.seen d.old)) }
    ensures faults { FailsWithDisk D.Disk d.old d.new result }
{
    let slot = kept.mark.slot;
    match repair_table(d, &kept.geometry, slot, &tables.source) {
        Err(fault) => Err(fault),
        Ok(()) => match &tables.target {
            None => Ok(()),
            Some(target) => repair_table(d, &kept.geometry, 1 - slot, target),
        },
    }
}

// Repairs the tables that were read, and goes on with version 2 where the mark has version 1.
fn mend_copies<D: Disk>(d: &mut D, kept: &Device, tables: &Tables) -> Result<(), DiskFault>
    requires is { IsDevice (with_tables tables.now kept.now) (D.size d.old) }
    requires there { AreTablesThere kept.now.tail.super_end kept.now.geometry
        kept.now.mark tables.now }
    requires read { D.is_modelled
        → IsOpened kept.now tables.now (D.size d.old) (D.seen d.old) }
    ensures represents { D.is_modelled → OnOk result
        (Represents (with_tables tables.now kept.now) (D.size d.old) (D.seen d.new)) }
    ensures same { D.is_modelled → OnOk result
        (device (D.size d.old) (D.seen d.new) ≡ device (D.size d.old) (D.seen d.old)) }
    ensures mark { D.is_modelled
        → OnOk result (mark_of (D.seen d.new 2048) ≡ mark_of (D.seen d.old 2048)) }
    ensures touches { D.is_modelled
        → Touches D.Disk (IsOfMending (D.size d.old) (D.seen d.old)) d.old d.new }
    ensures healthy { D.is_modelled
        → BothCopiesHold (D.size d.old) (D.seen d.old)
        → HasVersion2 (D.seen d.old)
        → OnlyReads D.Disk d.old d.new }
    ensures settled { D.is_modelled → IsAtRest D.Disk d.old → OnOk result (IsAtRest D.Disk d.new) }
    ensures quiet { IsQuiet D.Disk d.old d.new }
    ensures time { D.is_modelled
        → IsAtRest D.Disk d.old
        → Adds D.moment D.outcomes d.old d.new
        (LeavesSame (D.told d.old) (D.size d.old) (D.seen d.old)) }
    ensures order { D.is_modelled
        → IsAtRest D.Disk d.old
        → Adds D.moment D.outcomes d.old d.new
        (λ o. mark_of (o.image 2048) ≡ mark_of (D.seen d.old 2048)) }
    ensures faults { FailsWithDisk D.Disk d.old d.new result }
{
    match repair_tables(d, kept, tables) {
        Err(fault) => Err(fault),
        Ok(()) => migrate(d, &kept.mark),
    }
}

/// Repairs the tables that were read, goes on with version 2 where the mark has version 1, and then
/// does what is to be done behind a merge that has ended.
pub fn mend<D: Disk>(
    d: &mut D,
    kept: Device,
    tables: Tables,
    tidying: Option<Tidying>,
) -> Result<Device, DiskFault>
    requires is { IsDevice (with_tables tables kept) (D.size d.old) }
    requires there { AreTablesThere kept.tail.super_end kept.geometry kept.mark tables }
    requires read { D.is_modelled → IsOpened kept tables (D.size d.old) (D.seen d.old) }
    requires due { D.is_modelled → IsDue kept.mark (D.seen d.old) tidying }
    requires tidying { IfSome tidying
        (IsTidying kept.geometry.max kept.mark tables.source.table) }
    ensures stays { Stays D.Disk (IsOfOpening (D.size d.old) (D.seen d.old))
        (device_after tidying (with_tables tables kept)) d.old d.new result }
    ensures tidied { D.is_modelled → OnOk result
        (IsTidied (device_after tidying (with_tables tables kept)) (D.seen d.old) (D.seen d.new)) }
    ensures healthy { D.is_modelled
        → BothCopiesHold (D.size d.old) (D.seen d.old)
        → HasVersion2 (D.seen d.old)
        → HasNoneCompleted (D.seen d.old)
        → OnlyReads D.Disk d.old d.new }
{
    match mend_copies(d, &kept, &tables) {
        Err(fault) => Err(fault),
        Ok(()) => tidy_if_due(d, with_tables(kept, tables), tidying),
    }
}
