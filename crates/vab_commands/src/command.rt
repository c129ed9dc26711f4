//! One command.

ghost use Rattle.std.specs.Prelude.{◌≡◌, option_map};
ghost use Rattle.vab_model.specs.Commands.{command_of};
ghost use Rattle.vab_device.specs.Does.{Does};
ghost use Rattle.vab_device.specs.Kept.{IsDevice};
ghost use Rattle.vab_device.specs.Reading.{Represents};
ghost use Rattle.vab_commands.specs.Writes.{IsOfCommand};

use std::alloc::Global;
use vab_begin::{begin, cancel};
use vab_builder::Edit;
use vab_device::Device;
use vab_disk::Disk;
use vab_edit::edit;
use vab_finish::finish;
use vab_flash::{flash, keep};
use vab_gate::DiskFault;
use vab_manager::{boot, digest, mark, print, set_active};
use vab_merging::{begin_merge, merge};
use vab_model::{Command, Reply};
use vab_overlaying::{overlay, overlay_discard, overlay_write};
use vab_wipe::update_super;

/// Carries out one command on a device, where these bytes are staged. Where the device that is kept
/// is that of the disk, the reply and the device after it are those of the table of effects; where
/// nothing was pending, each outcome since is a step of the command. A command touches what is its
/// own alone, and a question or a refusal nothing. Want of memory comes in place of `Done` and of
/// `TableFull` alone, of a wipe also in place of what its image is refused for, and then nothing is
/// written. An error comes where the disk has failed.
pub fn run_one<D: Disk>(
    alloc: Global,
    d: &mut D,
    device: Device,
    command: &Command,
    staged: Option<&[u8]>,
) -> Result<(Device, Reply), DiskFault>
    requires kept { IsDevice device (D.size d.old) }
    requires represents { D.is_modelled → Represents device (D.size d.old) (D.seen d.old) }
    ensures { Does D.Disk device (option_map (λ s. s.now) staged.entry) (command_of command.now)
        (IsOfCommand D.is_modelled device (D.seen d.old 4) (command_of command.now))
        d.old d.new result }
{
    match *command {
        Command::SetActive(slot) => set_active(d, device, slot),
        Command::Boot => boot(d, device),
        Command::Mark => mark(d, device),
        Command::Print(name) => {
            let reply = print(&device, name);
            Ok((device, reply))
        }
        Command::Digest(name) => match digest(d, &device, name) {
            Ok(reply) => Ok((device, reply)),
            Err(fault) => Err(fault),
        },
        Command::Begin => begin(alloc, d, device, false),
        Command::Factory => begin(alloc, d, device, true),
        Command::Create(name, size) => edit(alloc, d, device, &Edit::Create(name, size)),
        Command::Resize(name, size) => edit(alloc, d, device, &Edit::Resize(name, size)),
        Command::Delete(name) => edit(alloc, d, device, &Edit::Delete(name)),
        Command::Snapshot(name, size) => edit(alloc, d, device, &Edit::AddStore(name, size)),
        Command::Flash(name, chunk) => flash(alloc, d, device, name, staged, chunk),
        Command::Keep(name) => {
            let reply = keep(&device, name);
            Ok((device, reply))
        }
        Command::Cancel => cancel(d, device),
        Command::Finish => finish(d, device),
        Command::BeginMerge => begin_merge(d, device),
        Command::Merge(blocks) => merge(d, device, blocks),
        Command::UpdateSuper => update_super(alloc, d, device, staged),
        Command::Overlay(name, size) => overlay(alloc, d, device, name, size),
        Command::OverlayWrite(block) => overlay_write(d, device, staged, block),
        Command::OverlayDiscard => overlay_discard(d, device),
    }
}
