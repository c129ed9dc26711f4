//! Keeping a physical partition.

ghost use Rattle.std.specs.Prelude.{◌≡◌, ◌<◌, ℕ, List, Option};
ghost use Rattle.vab_disk.specs.Disk.{Image};
ghost use Rattle.vab_model.specs.Commands.{Keep};
ghost use Rattle.vab_model.specs.declared.command.Reply.TheVariants.{Refused};
ghost use Rattle.vab_model.specs.Effects.{answers};
ghost use Rattle.vab_device.specs.Mounted.{mounted_on};
ghost use Rattle.vab_device.specs.Updates.{effect_on};

use crate::chosen::place_of;
use vab_device::Device;
use vab_model::{Refusal, Reply};
use vab_names::{base_of, is_full};

// Why a name isn't that of a physical partition of the target, of which no device has one yet.
fn refusal(device: &Device, name: &[u8]) -> Refusal
    requires { device.now.mark.slot < 2 }
    ensures { (image : Image) (staged : Option (List ℕ))
        → effect_on (mounted_on device.now image) staged (Keep name.now)
        ≡ answers (Refused result) }
{
    match &device.plan {
        None => Refusal::NotInstalling,
        Some(plan) => {
            if is_full(name, 1 - device.mark.slot) {
                match place_of(plan, base_of(name)) {
                    Some(_) => Refusal::NotPhysical,
                    None => Refusal::Unknown,
                }
            } else {
                Refusal::BadName
            }
        }
    }
}

/// Makes what a physical partition of the source holds what that of the target holds. No device has
/// physical partitions yet, so each is refused: with `NotInstalling` where no update is installed,
/// with `BadName` where the name isn't one of the target's slot, with `NotPhysical` where the
/// target has such a partition, and else with `Unknown`.
pub fn keep(device: &Device, name: &[u8]) -> Reply
    requires { device.now.mark.slot < 2 }
    ensures { (image : Image) (staged : Option (List ℕ))
        → effect_on (mounted_on device.now image) staged (Keep name.now) ≡ answers result }
{
    Reply::Refused(refusal(device, name))
}
