//! The images of a set, installed into the slot that isn't running.
ghost use Rattle.std.specs.Prelude.{◌≡◌, ◌<◌, false};
ghost use Rattle.vab_disk.specs.Disk.{Image};
ghost use Rattle.vab_set.specs.Spelling.{IsImage, IsSet};
ghost use Rattle.vab_model.specs.Kinds.{changes_source};
ghost use Rattle.vab_device.specs.Kept.{IsDevice};
ghost use Rattle.vab_model.specs.Commands.{command_of};
ghost use Rattle.vab_device.specs.Mounted.{mounted_on, state_on};
ghost use Rattle.vab_fbvars.specs.Variables.{has_image};
ghost use Rattle.vab_device.specs.Reading.{Represents};
ghost use Rattle.vab_update.specs.Written.{CarriesOrders};
ghost use Rattle.vab_update.specs.Install.{image_orders, install_orders};
ghost use Rattle.vab_update.specs.Install.{size_command, target_name};

use crate::Stop;
use crate::carry::follow_order;
use std::alloc::Global;
use vab_bytes::Name36;
use vab_device::Device;
use vab_disk::Disk;
use vab_manager::kept_part;
use vab_model::Command;
use vab_names::full_name;
use vab_set::{Set, SetImage};
use vab_space::Chunk;

// Whether the source has an image of this base name.
fn is_there(device: &Device, source: usize, name: &[u8]) -> bool
    requires { source < 2 }
    ensures { (image : Image) → has_image (state_on device.now image) source name.now ≡ result }
{
    kept_part(device, source, name).is_some()
}

// The command that gives an image's partition its size, by its whole name.
fn size_command<'a>(device: &Device, source: usize, image: &SetImage, name: &'a [u8]) -> Command<'a>
    requires slot { source < 2 }
    requires named { name.now ≡ target_name source image.now }
    ensures is { (disk : Image)
        → size_command source image.now (mounted_on device.now disk) ≡ command_of result }
    ensures plain { changes_source (command_of result) ≡ false }
{
    if is_there(device, source, image.name.text()) {
        Command::Resize(name, image.size)
    } else {
        Command::Create(name, image.size)
    }
}

// Installs an image: its partition gets its size and a store, and is written.
fn install_image<D: Disk>(
    alloc: Global,
    d: &mut D,
    device: Device,
    source: usize,
    image: &SetImage,
) -> Result<Device, Stop>
    requires slot { source < 2 }
    requires image { IsImage image.now }
    requires kept { IsDevice device (D.size d.old) }
    requires represents { D.is_modelled → Represents device (D.size d.old) (D.seen d.old) }
    ensures { CarriesOrders D.Disk device (image_orders source image.now) d.old d.new result }
{
    let full = full_name(&image.name, 1 - source);
    let name = full.text();
    let sized = size_command(&device, source, image, name);
    let next = follow_order(alloc, d, device, &sized, None)?;
    let snapshot = Command::Snapshot(name, image.store);
    let next = follow_order(alloc, d, next, &snapshot, None)?;
    let bytes = image.bytes.as_slice();
    let flash = Command::Flash(name, Chunk::One);
    follow_order(alloc, d, next, &flash, Some(bytes))
}

/// Installs the images of a set into the slot that isn't running, as an update that is ready, and
/// makes that slot the next one to boot. It stops at the first command that is refused; those
/// before it are done. Where that was one of an image, `at` is the image's name, and else none.
/// Where the device that is kept is that of the disk and nothing was pending, each outcome since is
/// a step of one of the commands; and each command writes what it writes on the device that it came
/// to, and nothing where it is refused, also where the disk fails.
pub fn install<D: Disk>(
    alloc: Global,
    d: &mut D,
    device: Device,
    set: &Set,
    at: &mut Option<Name36>,
) -> Result<Device, Stop>
    requires set { IsSet set.now }
    requires kept { IsDevice device (D.size d.old) }
    requires represents { D.is_modelled → Represents device (D.size d.old) (D.seen d.old) }
    ensures { CarriesOrders D.Disk device (install_orders device.control.current set.now)
        d.old d.new result }
{
    let source = device.current();
    *at = None;
    let mut next = follow_order(alloc, d, device, &Command::Begin, None)?;
    for image in set.as_slice() {
        *at = Some(image.name);
        next = install_image(alloc, d, next, source, image)?;
    }
    *at = None;
    let next = follow_order(alloc, d, next, &Command::Finish, None)?;
    follow_order(alloc, d, next, &Command::SetActive(1 - source), None)
}
