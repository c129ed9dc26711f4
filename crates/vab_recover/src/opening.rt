//! Opening a device.

ghost use Rattle.std.specs.Prelude.{◌≡◌, ◌⊎◌, ◌<◌, ◌≤◌, IfOk, OnOk, IfErr, IfSome, Ok, Err};
ghost use Rattle.vab_disk.specs.Disk.{Adds, Image};
ghost use Rattle.vab_disk.specs.Calls.{OnlyReads, Touches, IsAtRest, IsQuiet};
ghost use Rattle.vab_device.specs.declared.fault.StartFault.{StartFault as Fault};
ghost use Rattle.vab_device.specs.Faults.{IsOfContents, IsOfDisk};
ghost use Rattle.vab_device.specs.Kept.{IsDevice};
ghost use Rattle.vab_device.specs.Mounted.{mounted_on};
ghost use Rattle.vab_device.specs.Reading.{device, Represents};
ghost use Rattle.vab_tidy.specs.Counts.{CountsFaults};
ghost use Rattle.vab_recover.specs.Behind.{SameSuper};
ghost use Rattle.vab_recover.specs.Memory.{IsNamed, HasHeads};
ghost use Rattle.vab_recover.specs.Opened.{IsHeaded, IsFramed, AreHeads, AreTablesThere};
ghost use Rattle.vab_recover.specs.Opened.{with_tables};
ghost use Rattle.vab_recover.specs.Opened.{IsOpened};
ghost use Rattle.vab_recover.specs.Opening.{IsOfOpening, HasVersion2, HasNoneCompleted};
ghost use Rattle.vab_recover.specs.Opening.{IsTidied, GoesOn};
ghost use Rattle.vab_recover.specs.Repairs.{BothCopiesHold};
ghost use Rattle.vab_tidy.specs.Planned.{IsDue, IsTidying};
ghost use Rattle.vab_tidy.specs.Stays.{LeavesSame};

use crate::frame::{Frame, Heads, read_heads};
use crate::judge::{assemble, judge_parts, judge_slots};
use crate::repairs::mend;
use crate::stores::read_stores;
use crate::table::{Tables, read_tables};
use std::alloc::Global;
use vab_device::{Device, StartFault};
use vab_disk::Disk;
use vab_tidy::{Tidying, prepare};

// The device of what was read in front of the stores, but for its tables, and these.
fn open_framed<D: Disk>(
    alloc: Global,
    d: &mut D,
    frame: Frame,
) -> Result<(Device, Tables), StartFault>
    requires are { AreHeads (D.size d.old) frame.heads.mark frame.heads.control
        frame.heads.tail frame.heads.geometry }
    requires there { AreTablesThere frame.heads.tail.super_end frame.heads.geometry
        frame.heads.mark frame.tables }
    ensures opened { D.is_modelled
        → (image : Image)
        → SameSuper (D.seen d.old) image
        → IsFramed (D.size d.old) image frame
        → IfOk result (λ r. IsOpened r.0 r.1 (D.size d.old) image) }
    ensures fault { D.is_modelled
        → (image : Image)
        → SameSuper (D.seen d.old) image
        → IsFramed (D.size d.old) image frame
        → IfErr result (λ f. IsOfContents f → device (D.size d.old) image ≡ Err f) }
    ensures kept { IfOk result (λ r. IsDevice (with_tables r.1 r.0) (D.size d.old)) }
    ensures there { IfOk result
        (λ r. AreTablesThere r.0.tail.super_end r.0.geometry r.0.mark r.1) }
    ensures reads { OnlyReads D.Disk d.old d.new }
    ensures counts { CountsFaults D.Disk d.old d.new result }
{
    let Frame { heads, tables } = frame;
    match judge_parts(alloc, &tables, &heads.mark, heads.version.partitions()) {
        Err(fault) => Err(fault),
        Ok(()) => match read_stores(alloc, d, &tables, &heads.statuses, &heads.mark) {
            Err(fault) => Err(fault),
            Ok(stored) => match judge_slots(&heads.control, &heads.mark, &stored.through) {
                Err(fault) => Err(fault),
                Ok(()) => match assemble(
                    alloc,
                    &tables.source.table,
                    heads.geometry,
                    heads.control,
                    heads.mark,
                    heads.tail,
                    stored,
                ) {
                    Err(fault) => Err(fault),
                    Ok(device) => Ok((device, tables)),
                },
            },
        },
    }
}

/// Reads what stands behind these heads: the device that the disk would be with them, but for its
/// tables, and the tables that it was read from. Each fault of the disk's contents comes only where
/// with these heads it would be no device and that is the first thing wrong; want of memory may
/// come in its place.
pub fn open_behind<D: Disk>(
    alloc: Global,
    d: &mut D,
    heads: Heads,
) -> Result<(Device, Tables), StartFault>
    requires are { AreHeads (D.size d.old) heads.mark heads.control heads.tail
        heads.geometry }
    ensures opened { D.is_modelled
        → (image : Image)
        → SameSuper (D.seen d.old) image
        → IsHeaded (D.size d.old) image heads.mark heads.version heads.statuses.items
        heads.control heads.tail heads.geometry
        → IfOk result (λ r. IsOpened r.0 r.1 (D.size d.old) image) }
    ensures fault { D.is_modelled
        → (image : Image)
        → SameSuper (D.seen d.old) image
        → IsHeaded (D.size d.old) image heads.mark heads.version heads.statuses.items
        heads.control heads.tail heads.geometry
        → IfErr result (λ f. IsOfContents f → device (D.size d.old) image ≡ Err f) }
    ensures kept { IfOk result (λ r. IsDevice (with_tables r.1 r.0) (D.size d.old)) }
    ensures there { IfOk result
        (λ r. AreTablesThere r.0.tail.super_end r.0.geometry r.0.mark r.1) }
    ensures reads { OnlyReads D.Disk d.old d.new }
    ensures counts { CountsFaults D.Disk d.old d.new result }
{
    match read_tables(alloc, d, heads.tail.super_end, &heads.geometry, &heads.mark) {
        Err(fault) => Err(fault),
        Ok(tables) => open_framed(alloc, d, Frame { heads, tables }),
    }
}

/// Reads the device of a disk, but for its tables, and the tables that it was read from.
pub fn open<D: Disk>(alloc: Global, d: &mut D) -> Result<(Device, Tables), StartFault>
    ensures opened { D.is_modelled
        → IfOk result (λ r. IsOpened r.0 r.1 (D.size d.old) (D.seen d.old)) }
    ensures fault { D.is_modelled → IfErr result
        (λ f. IsOfContents f → device (D.size d.old) (D.seen d.old) ≡ Err f) }
    ensures memory { D.is_modelled → IfErr result
        (λ f. IsNamed f ⊎ HasHeads (D.size d.old) (D.seen d.old)) }
    ensures kept { IfOk result (λ r. IsDevice (with_tables r.1 r.0) (D.size d.old)) }
    ensures there { IfOk result
        (λ r. AreTablesThere r.0.tail.super_end r.0.geometry r.0.mark r.1) }
    ensures reads { OnlyReads D.Disk d.old d.new }
    ensures counts { CountsFaults D.Disk d.old d.new result }
{
    match read_heads(d) {
        Err(fault) => Err(fault),
        Ok(heads) => open_behind(alloc, d, heads),
    }
}

// Reads the device of a disk, but for its tables, the tables that it was read from, and what is to
// be done behind a merge that has ended.
fn look<D: Disk>(alloc: Global, d: &mut D) -> Result<(Device, Tables, Option<Tidying>), StartFault>
    ensures opened { D.is_modelled
        → IfOk result (λ r. IsOpened r.0 r.1 (D.size d.old) (D.seen d.old)) }
    ensures due { D.is_modelled → IfOk result (λ r. IsDue r.0.mark (D.seen d.old) r.2) }
    ensures tidying { IfOk result
        (λ r. IfSome r.2 (IsTidying r.0.geometry.max r.0.mark r.1.source.table)) }
    ensures fault { D.is_modelled → IfErr result
        (λ f. IsOfContents f → device (D.size d.old) (D.seen d.old) ≡ Err f) }
    ensures memory { D.is_modelled → IfErr result
        (λ f. IsNamed f ⊎ HasHeads (D.size d.old) (D.seen d.old)) }
    ensures kept { IfOk result (λ r. IsDevice (with_tables r.1 r.0) (D.size d.old)) }
    ensures there { IfOk result
        (λ r. AreTablesThere r.0.tail.super_end r.0.geometry r.0.mark r.1) }
    ensures reads { OnlyReads D.Disk d.old d.new }
    ensures counts { CountsFaults D.Disk d.old d.new result }
{
    match open(alloc, d) {
        Err(fault) => Err(fault),
        Ok((device, tables)) => {
            let max = device.geometry.max;
            match prepare(alloc, d, &device.mark, max, &tables.source.table) {
                Err(fault) => Err(fault),
                Ok(tidying) => Ok((device, tables, tidying)),
            }
        }
    }
}

/// Opens the device of a disk: it reads it, repairs the copies of its tables that a cut of power
/// has left behind, gives a mark of version 1 version 2, once the statuses that it adds are none,
/// and tidies a merge that has ended: the table of its slot loses the stores and what belongs to
/// the other slot, and then the mark says that there is no update. A table whose text would be
/// longer than a copy may be is left as it is. Each fault of the disk's contents comes only where
/// the disk is no device and that is the first thing wrong; behind the geometry want of memory may
/// come in its place. Nothing is written then. Where both copies of each table hold its text, the
/// mark has version 2 and no merge has ended, nothing is written and nothing is synced.
pub fn start<D: Disk>(alloc: Global, d: &mut D) -> Result<Device, StartFault>
    // It answers the device that the disk was, which it still is.
    ensures device { D.is_modelled → IfOk result
        (λ r. device (D.size d.old) (D.seen d.old) ≡ Ok (mounted_on r (D.seen d.new))) }
    ensures represents { D.is_modelled
        → IfOk result (λ r. Represents r (D.size d.old) (D.seen d.new)) }
    ensures kept { IfOk result (λ r. IsDevice r (D.size d.old)) }
    ensures fault { D.is_modelled → IfErr result
        (λ f. IsOfContents f → device (D.size d.old) (D.seen d.old) ≡ Err f) }
    // Memory is refused only where size, mark, boot control, the end of `super` and geometry are
    // those of a device.
    ensures memory { D.is_modelled → IfErr result
        (λ f. IsNamed f ⊎ HasHeads (D.size d.old) (D.seen d.old)) }
    ensures unwritten { IfErr result (λ f. (IsOfDisk f → ⊥) → OnlyReads D.Disk d.old d.new) }
    // Of a disk that is no device nothing is written, also where the disk fails.
    ensures none { D.is_modelled
        → (f : Fault)
        → device (D.size d.old) (D.seen d.old) ≡ Err f
        → OnlyReads D.Disk d.old d.new }
    // What it touches, it repairs, of each table the one copy that doesn't hold its text, or it
    // goes on with version 2, or it tidies.
    ensures touches { D.is_modelled
        → Touches D.Disk (IsOfOpening (D.size d.old) (D.seen d.old)) d.old d.new }
    ensures healthy { D.is_modelled
        → BothCopiesHold (D.size d.old) (D.seen d.old)
        → HasVersion2 (D.seen d.old)
        → HasNoneCompleted (D.seen d.old)
        → OnlyReads D.Disk d.old d.new }
    // A merge that has ended is tidied.
    ensures tidied { D.is_modelled → IfOk result
        (λ r. IsTidied r (D.seen d.old) (D.seen d.new)) }
    ensures settled { D.is_modelled → IsAtRest D.Disk d.old → OnOk result (IsAtRest D.Disk d.new) }
    ensures quiet { IsQuiet D.Disk d.old d.new }
    // Where nothing was pending, each outcome is a disk that means the same, and of which a merge
    // that has ended is tidied to the same end.
    ensures time { D.is_modelled
        → IsAtRest D.Disk d.old
        → Adds D.moment D.outcomes d.old d.new
        (LeavesSame (D.told d.old) (D.size d.old) (D.seen d.old)) }
    ensures order { D.is_modelled
        → IsAtRest D.Disk d.old
        → Adds D.moment D.outcomes d.old d.new
        (λ o. GoesOn (D.size d.old) (D.seen d.old) o.image) }
    ensures counts { CountsFaults D.Disk d.old d.new result }
{
    let (device, tables, tidying) = look(alloc, d)?;
    match mend(d, device, tables, tidying) {
        Ok(device) => Ok(device),
        Err(fault) => Err(StartFault::Disk(fault)),
    }
}
