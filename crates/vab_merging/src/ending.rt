//! A merge that ends.

ghost use Rattle.std.specs.Prelude.{◌≡◌, ◌+◌};
ghost use Rattle.vab_marks.specs.declared.mark.MarkPhase.TheVariants as marks;
ghost use Rattle.vab_device.specs.Kept.{IsDevice};
ghost use Rattle.vab_device.specs.Mounted.{count_at};
ghost use Rattle.vab_device.specs.Reading.{Represents};
ghost use Rattle.vab_merging.specs.Ends.{EndsMerge};

use crate::kept::ended;
use vab_device::Device;
use vab_disk::Disk;
use vab_gate::DiskFault;
use vab_install::put_mark;
use vab_marks::{MarkPhase, UpdateMark};

/// Ends a merge whose stores have no exception left, by one gate of the update mark: there is no
/// update any more. The table keeps its stores, of which nothing is read any more.
pub(crate) fn end_merge<D: Disk>(d: &mut D, device: Device) -> Result<Device, DiskFault>
    requires kept { IsDevice device (D.size d.old) }
    requires represents { D.is_modelled → Represents device (D.size d.old) (D.seen d.old) }
    requires merging { device.mark.phase ≡ marks.Merging }
    requires none { D.is_modelled → count_at device.a + count_at device.b ≡ 0 }
    ensures { EndsMerge D.Disk device d.old d.new result }
{
    let mark = UpdateMark {
        phase: MarkPhase::Completed,
        apart: false,
        overlaid: false,
        ..device.mark
    };
    match put_mark(d, &mark) {
        Err(fault) => Err(fault),
        Ok(()) => Ok(ended(device)),
    }
}
