//! One edit of the target's table.

ghost use Rattle.std.specs.Prelude.{ℕ, List, Option};
ghost use Rattle.vab_device.specs.Kept.{IsDevice};
ghost use Rattle.vab_device.specs.Reading.{Represents};
ghost use Rattle.vab_device.specs.Does.{Does};
ghost use Rattle.vab_edit.specs.Writes.{IsOfEdit, command_by, edit_by, guard_by};

use crate::carry::with_table;
use crate::prepared::prepare;
use std::alloc::Global;
use vab_builder::Edit;
use vab_device::Device;
use vab_disk::Disk;
use vab_gate::DiskFault;
use vab_lpstore::store_table;
use vab_model::Reply;

/// Edits the table of an update's target: a partition more, another size, one less, or an exception
/// store. Sizes are in bytes. Where the device that is kept is that of the disk, the reply and the
/// device after it are those of the table of effects; where nothing was pending, each outcome since
/// is the device before the edit or the one after it. It writes the copies of the target's table
/// alone, with the one text of the table that the edit gives, and a refusal writes nothing.
/// `NotInstalling` comes where no update is installed, and there alone. Where the target stands
/// apart, a store is refused with `InPlace` before all else, and another size or the end of a
/// partition that is written with `Written`. Want of memory comes in place of `Done` and of
/// `TableFull` alone. The error comes where the disk has failed.
pub fn edit<D: Disk>(
    alloc: Global,
    d: &mut D,
    device: Device,
    edit: &Edit,
) -> Result<(Device, Reply), DiskFault>
    requires kept { IsDevice device (D.size d.old) }
    requires represents { D.is_modelled → Represents device (D.size d.old) (D.seen d.old) }
    ensures { (staged : Option (List ℕ))
        → Does D.Disk device staged (command_by edit.now)
        (IsOfEdit device (guard_by edit.now) (edit_by edit.now)) d.old d.new result }
{
    match prepare(alloc, &device, edit) {
        Err(refusal) => Ok((device, Reply::Refused(refusal))),
        Ok(next) => {
            let target = 1 - device.mark.slot;
            match store_table(d, &device.geometry, target, &next.text) {
                Err(fault) => Err(fault),
                Ok(()) => Ok((
                    with_table(device, target, next.table, next.plan),
                    Reply::Done,
                )),
            }
        }
    }
}
