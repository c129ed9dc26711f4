//! The wipe of `super`.

ghost use Rattle.std.specs.Prelude.{◌≡◌, option_map};
ghost use Rattle.vab_model.specs.Commands.{UpdateSuper};
ghost use Rattle.vab_device.specs.Kept.{IsDevice};
ghost use Rattle.vab_device.specs.Reading.{Represents};
ghost use Rattle.vab_device.specs.Does.{Does};
ghost use Rattle.vab_wipe.specs.Kept.{with_slot};
ghost use Rattle.vab_wipe.specs.Writes.{IsOfWipe};

use crate::prepared::{Prepared, prepare};
use std::alloc::Global;
use vab_device::Device;
use vab_disk::Disk;
use vab_gate::DiskFault;
use vab_lpstore::store_table;
use vab_model::Reply;

// The device with what is left of the image in the slot of its mark.
fn with_wiped(device: Device, next: Prepared) -> Device
    ensures { result ≡ with_slot device next.table next.parts next.groups }
{
    let Prepared {
        table,
        parts,
        groups,
        ..
    } = next;
    let device = Device { groups, ..device };
    if device.mark.slot == 0 {
        Device {
            a: Some(parts),
            table_a: Some(table),
            ..device
        }
    } else {
        Device {
            b: Some(parts),
            table_b: Some(table),
            ..device
        }
    }
}

/// Makes the partitions of the staged image of an empty `super` those of the current slot, each
/// without blocks, and its groups the device's. Where the device that is kept is that of the disk,
/// the reply and the device after it are those of the table of effects; where nothing was pending,
/// each outcome since is the device before the wipe or the one after it. It touches the copies of
/// the current slot's table alone, and a refusal touches nothing. Want of memory comes in place of
/// `Done`, and of the refusals that follow from the image that was read, alone. The error comes
/// where the disk has failed.
pub fn update_super<D: Disk>(
    alloc: Global,
    d: &mut D,
    device: Device,
    staged: Option<&[u8]>,
) -> Result<(Device, Reply), DiskFault>
    requires kept { IsDevice device (D.size d.old) }
    requires represents { D.is_modelled → Represents device (D.size d.old) (D.seen d.old) }
    ensures { Does D.Disk device (option_map (λ s. s.now) staged.entry) UpdateSuper
        (IsOfWipe device (option_map (λ s. s.now) staged.entry)) d.old d.new result }
{
    match prepare(alloc, &device, staged) {
        Err(refusal) => Ok((device, Reply::Refused(refusal))),
        Ok(next) => match store_table(d, &device.geometry, device.mark.slot, &next.text) {
            Err(fault) => Err(fault),
            Ok(()) => Ok((with_wiped(device, next), Reply::Done)),
        },
    }
}
