//! One of the commands.
ghost use Rattle.std.specs.Prelude.{◌≡◌, ◌∷◌, [], false, IfSome, None, option_map};
ghost use Rattle.vab_model.specs.Commands.{command_of};
ghost use Rattle.vab_model.specs.Kinds.{changes_source};
ghost use Rattle.vab_device.specs.Kept.{IsDevice};
ghost use Rattle.vab_device.specs.Mounted.{mounted_on};
ghost use Rattle.vab_device.specs.Reading.{Represents};
ghost use Rattle.vab_update.specs.Written.{CarriesOrders};
ghost use Rattle.vab_update.specs.Orders.{Order, is_refused};

use crate::Stop;
use std::alloc::Global;
use vab_commands::run_one;
use vab_device::Device;
use vab_disk::Disk;
use vab_model::{Command, Refusal, Reply};

// Why a command was refused, where it was.
fn refusal_in(reply: &Reply) -> Option<Refusal>
    ensures some { IfSome result (λ refusal. reply.now ≡ Reply.Refused refusal) }
    ensures none { result ≡ None → is_refused reply.now ≡ false }
{
    match reply {
        Reply::Refused(refusal) => Some(*refusal),
        Reply::Done
        | Reply::Booted(_)
        | Reply::Bytes(_)
        | Reply::Digest(_)
        | Reply::Left(_)
        | Reply::Merged => None,
    }
}

/// Carries out a command, where these bytes are staged.
pub(crate) fn follow_order<D: Disk>(
    alloc: Global,
    d: &mut D,
    device: Device,
    command: &Command,
    staged: Option<&[u8]>,
) -> Result<Device, Stop>
    requires kept { IsDevice device (D.size d.old) }
    requires represents { D.is_modelled → Represents device (D.size d.old) (D.seen d.old) }
    requires plain { changes_source (command_of command.now) ≡ false }
    ensures { (order : Order)
        → order.command (mounted_on device (D.seen d.old)) ≡ command_of command.now
        → order.staged ≡ option_map (λ s. s.now) staged.entry
        → CarriesOrders D.Disk device (order ∷ []) d.old d.new result }
{
    match run_one(alloc, d, device, command, staged) {
        Err(fault) => Err(Stop::Disk(fault)),
        Ok((device, reply)) => match refusal_in(&reply) {
            Some(refusal) => Err(Stop::Refused(refusal)),
            None => Ok(device),
        },
    }
}
