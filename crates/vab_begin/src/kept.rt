//! What is kept of a device as an update begins or ends.

ghost use Rattle.std.specs.Prelude.{◌≡◌, ◌<◌};
ghost use Rattle.vab_begin.specs.Kept.{with_update, without_target};

use vab_bytes::Listing;
use vab_device::{Device, Part};
use vab_marks::UpdateMark;
use vab_tables::Table;

/// The device with this mark of the same slot, with this table of the other slot, and this plan.
pub fn with_update(
    device: Device,
    mark: UpdateMark,
    table: Option<Table>,
    plan: Option<Listing<Part>>,
) -> Device
    requires { device.mark.slot < 2 }
    ensures { result ≡ with_update device mark table plan }
{
    if device.mark.slot == 0 {
        Device {
            mark,
            table_b: table,
            plan,
            ..device
        }
    } else {
        Device {
            mark,
            table_a: table,
            plan,
            ..device
        }
    }
}

/// The device without images of the slot that isn't the mark's.
pub fn without_target(device: Device) -> Device
    requires { device.mark.slot < 2 }
    ensures { result ≡ without_target device }
{
    if device.mark.slot == 0 {
        Device { b: None, ..device }
    } else {
        Device { a: None, ..device }
    }
}
