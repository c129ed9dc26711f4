//! What is written behind a merge that has ended.

ghost use Rattle.std.specs.Prelude.{◌≡◌, ◌<◌, ◌≤◌, ◌+◌, false, IfSome, IsNone, Ok, OnOk};
ghost use Rattle.vab_marks.specs.declared.mark.MarkPhase.TheVariants as marks;
ghost use Rattle.vab_marks.specs.Mark.{mark_of, mark_spelling, rephased};
ghost use Rattle.vab_disk.specs.Disk.{IsAt};
ghost use Rattle.vab_lpstore.specs.Storing.{IsOfTable};
ghost use Rattle.vab_device.specs.Kept.{IsDevice};
ghost use Rattle.vab_device.specs.Reading.{Represents};
ghost use Rattle.vab_tidy.specs.Kept.{with_table, tidied_device, device_after};
ghost use Rattle.vab_tidy.specs.Planned.{IsAloneFor, IsTidyingFor};
ghost use Rattle.vab_tidy.specs.Stays.{Stays};
ghost use Rattle.vab_tidy.specs.Writes.{IsOfTidied, IsOfTidyings};

use crate::prepared::{Alone, MARK_SECTOR, Tidying};
use vab_device::Device;
use vab_disk::Disk;
use vab_gate::{DiskFault, put_gate};
use vab_lpstore::store_table;
use vab_marks::{MarkPhase, encode_mark};
use vab_tables::Table;

// The device with another table of the slot of its mark.
fn with_table(device: Device, table: Table) -> Device
    requires { device.mark.slot < 2 }
    ensures { result ≡ with_table table device }
{
    if device.mark.slot == 0 {
        Device {
            table_a: Some(table),
            ..device
        }
    } else {
        Device {
            table_b: Some(table),
            ..device
        }
    }
}

// Stores the table of the slot alone in both copies.
fn put_alone<D: Disk>(d: &mut D, device: Device, alone: Alone) -> Result<Device, DiskFault>
    requires kept { IsDevice device (D.size d.old) }
    requires represents { D.is_modelled → Represents device (D.size d.old) (D.seen d.old) }
    requires alone { IsAloneFor device alone }
    ensures { Stays D.Disk
        (IsOfTable device.geometry device.mark.slot alone.text)
        (with_table alone.table device) d.old d.new result }
{
    let text = alone.text.as_slice();
    match store_table(d, &device.geometry, device.mark.slot, text) {
        Err(fault) => Err(fault),
        Ok(()) => Ok(with_table(device, alone.table)),
    }
}

// Writes the mark of no update by one gate.
fn put_idle<D: Disk>(d: &mut D, device: Device) -> Result<Device, DiskFault>
    requires kept { IsDevice device (D.size d.old) }
    requires represents { D.is_modelled → Represents device (D.size d.old) (D.seen d.old) }
    requires idle { device.mark.phase ≡ marks.Idle }
    requires plain { device.mark.overlaid ≡ false }
    ensures stays { Stays D.Disk
        (IsAt 2048 (mark_spelling (rephased marks.Idle device.mark))) device d.old d.new result }
    ensures mark { D.is_modelled
        → OnOk result (mark_of (D.seen d.new 2048) ≡ Ok (rephased marks.Idle device.mark)) }
{
    let mark = device.mark.with_phase(MarkPhase::Idle);
    match put_gate(d, MARK_SECTOR, &encode_mark(&mark)) {
        Err(fault) => Err(fault),
        Ok(()) => Ok(device),
    }
}

// Does what is to be done.
fn tidy<D: Disk>(d: &mut D, device: Device, tidying: Tidying) -> Result<Device, DiskFault>
    requires kept { IsDevice device (D.size d.old) }
    requires represents { D.is_modelled → Represents device (D.size d.old) (D.seen d.old) }
    requires tidying { IsTidyingFor device tidying }
    ensures stays { Stays D.Disk (IsOfTidied device tidying) (tidied_device tidying device)
        d.old d.new result }
    ensures mark { D.is_modelled
        → OnOk result (mark_of (D.seen d.new 2048) ≡ Ok (rephased marks.Idle device.mark)) }
{
    let Tidying { alone } = tidying;
    match alone {
        None => put_idle(d, device),
        Some(alone) => match put_alone(d, device, alone) {
            Err(fault) => Err(fault),
            Ok(device) => put_idle(d, device),
        },
    }
}

/// Does what is to be done behind a merge that has ended: the table of the slot alone is stored in
/// two copies, and then one gate writes the mark that there is no update. The disk means the same
/// in each outcome, and the device that is kept has the new table in place of the old one. Where
/// there is nothing to do the disk isn't asked. Takes no memory.
pub fn tidy_if_due<D: Disk>(
    d: &mut D,
    device: Device,
    tidying: Option<Tidying>,
) -> Result<Device, DiskFault>
    requires kept { IsDevice device (D.size d.old) }
    requires represents { D.is_modelled → Represents device (D.size d.old) (D.seen d.old) }
    requires tidying { IfSome tidying (IsTidyingFor device) }
    ensures stays { Stays D.Disk (IsOfTidyings device tidying) (device_after tidying device)
        d.old d.new result }
    ensures mark { D.is_modelled
        → OnOk result
        (IfSome tidying (λ x. mark_of (D.seen d.new 2048) ≡ Ok (rephased marks.Idle device.mark))) }
    ensures still { IsNone tidying → d.new ≡ d.old }
{
    match tidying {
        None => Ok(device),
        Some(tidying) => tidy(d, device, tidying),
    }
}
