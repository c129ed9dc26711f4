//! The end of an overlay.

ghost use Rattle.std.specs.Prelude.{◌≡◌, ℕ, List, Option, true};
ghost use Rattle.vab_model.specs.Commands.{OverlayDiscard};
ghost use Rattle.vab_device.specs.Does.{Does};
ghost use Rattle.vab_device.specs.Kept.{IsDevice};
ghost use Rattle.vab_device.specs.Reading.{Represents};
ghost use Rattle.vab_overlaying.specs.Discarded.{without_overlay};
ghost use Rattle.vab_overlaying.specs.Writes.{IsOfDiscard};

use vab_device::Device;
use vab_disk::Disk;
use vab_gate::DiskFault;
use vab_install::put_mark;
use vab_model::{Refusal, Reply};

// The device without its overlay.
fn plain(device: Device) -> Device
    ensures { result ≡ without_overlay device }
{
    Device {
        mark: device.mark.with_overlay(false),
        overlay: None,
        ..device
    }
}

// Drops the overlay: the mark says that there is none.
fn end_overlay<D: Disk>(d: &mut D, device: Device) -> Result<(Device, Reply), DiskFault>
    requires kept { IsDevice device (D.size d.old) }
    requires represents { D.is_modelled → Represents device (D.size d.old) (D.seen d.old) }
    requires overlaid { device.mark.overlaid ≡ true }
    ensures { (staged : Option (List ℕ))
        → Does D.Disk device staged OverlayDiscard (IsOfDiscard device) d.old d.new result }
{
    let mark = device.mark.with_overlay(false);
    match put_mark(d, &mark) {
        Err(fault) => Err(fault),
        Ok(()) => Ok((plain(device), Reply::Done)),
    }
}

/// Drops the overlay of the current slot, by one gate: the update mark says that there is none, and
/// the partition reads as its own blocks. All else on the disk stays: its store keeps its blocks in
/// the slot's table, where no command reads it. Refused with `NotOverlaid` where there is none.
/// Takes no memory.
pub fn overlay_discard<D: Disk>(d: &mut D, device: Device) -> Result<(Device, Reply), DiskFault>
    requires kept { IsDevice device (D.size d.old) }
    requires represents { D.is_modelled → Represents device (D.size d.old) (D.seen d.old) }
    ensures { (staged : Option (List ℕ))
        → Does D.Disk device staged OverlayDiscard (IsOfDiscard device) d.old d.new result }
{
    if device.mark.overlaid {
        end_overlay(d, device)
    } else {
        Ok((device, Reply::Refused(Refusal::NotOverlaid)))
    }
}
