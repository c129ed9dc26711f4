//! The device as its installation ends.

ghost use Rattle.std.specs.Prelude.{◌≡◌, ◌<◌};
ghost use Rattle.vab_finish.specs.Finished.{finished_device};

use vab_device::Device;
use vab_install::cleared;
use vab_marks::MarkPhase;

/// The device whose plan has become the images of the target.
pub fn finished(device: Device) -> Device
    requires { device.mark.slot < 2 }
    ensures { result ≡ finished_device device }
{
    let mut device = device;
    let slot = device.mark.slot;
    let control = cleared(&device.control, 1 - slot);
    let mark = device.mark.with_phase(MarkPhase::Staged);
    let plan = device.plan.take();
    if slot == 0 {
        Device {
            control,
            mark,
            b: plan,
            ..device
        }
    } else {
        Device {
            control,
            mark,
            a: plan,
            ..device
        }
    }
}
