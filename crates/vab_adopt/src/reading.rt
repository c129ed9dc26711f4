//! What a disk would be with the heads of a device without an update.

ghost use Rattle.std.specs.Prelude.{◌≡◌, ◌<◌, ◌≤◌, IfOk, IfErr, Err};
ghost use Rattle.vab_disk.specs.Calls.{OnlyReads};
ghost use Rattle.vab_device.specs.Faults.{IsOfContents};
ghost use Rattle.vab_device.specs.Kept.{IsDevice};
ghost use Rattle.vab_tidy.specs.Counts.{CountsFaults};
ghost use Rattle.vab_recover.specs.Opened.{IsHeaded, AreHeads, IsOpened, with_tables};
ghost use Rattle.vab_adopt.specs.Adopted.{adopted, with_heads};

use crate::heads::{adopted_control, idle_mark};
use std::alloc::Global;
use vab_device::{Device, StartFault};
use vab_disk::Disk;
use vab_marks::MarkVersion;
use vab_recover::{Heads, MIN_SECTORS, Tables, open_behind, read_geometry, whole_disk};
use vab_statuses::Statuses;

// The heads that the disk is to have, with the geometry that it has.
fn heads<D: Disk>(d: &mut D, slot: usize) -> Result<Heads, StartFault>
    requires slot { slot < 2 }
    ensures headed { D.is_modelled → IfOk result (λ h.
        IsHeaded (D.size d.old) (with_heads slot (D.seen d.old))
        h.mark h.version h.statuses.items h.control h.tail h.geometry) }
    ensures fault { D.is_modelled → IfErr result
        (λ f. IsOfContents f → adopted (D.size d.old) slot (D.seen d.old) ≡ Err f) }
    ensures are { IfOk result
        (λ h. AreHeads (D.size d.old) h.mark h.control h.tail h.geometry) }
    ensures reads { OnlyReads D.Disk d.old d.new }
    ensures counts { CountsFaults D.Disk d.old d.new result }
{
    let sectors = d.sectors();
    if sectors < MIN_SECTORS {
        return Err(StartFault::TooSmall(MIN_SECTORS, sectors));
    }
    match read_geometry(d, sectors) {
        Err(fault) => Err(fault),
        Ok(geometry) => Ok(Heads {
            mark: idle_mark(slot),
            version: MarkVersion::Two,
            statuses: Statuses::new(),
            control: adopted_control(slot),
            tail: whole_disk(sectors),
            geometry,
        }),
    }
}

/// Reads the device that the disk would be with these heads, but for its tables, and the tables
/// that it was read from.
pub(crate) fn read_adopted<D: Disk>(
    alloc: Global,
    d: &mut D,
    slot: usize,
) -> Result<(Device, Tables), StartFault>
    requires slot { slot < 2 }
    ensures opened { D.is_modelled → IfOk result
        (λ r. IsOpened r.0 r.1 (D.size d.old) (with_heads slot (D.seen d.old))) }
    ensures fault { D.is_modelled → IfErr result
        (λ f. IsOfContents f → adopted (D.size d.old) slot (D.seen d.old) ≡ Err f) }
    ensures enough { IfOk result (λ r. 4120 ≤ D.size d.old) }
    ensures kept { IfOk result (λ r. IsDevice (with_tables r.1 r.0) (D.size d.old)) }
    ensures reads { OnlyReads D.Disk d.old d.new }
    ensures counts { CountsFaults D.Disk d.old d.new result }
{
    match heads(d, slot) {
        Err(fault) => Err(fault),
        Ok(heads) => open_behind(alloc, d, heads),
    }
}
