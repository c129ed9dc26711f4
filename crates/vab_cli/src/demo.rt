//! The whole life of a device whose images are drawn from a number: it is made, updated, booted,
//! marked, merged, and its digests are told.
ghost use Rattle.std.specs.Prelude.{◌≡◌, ◌≢◌, ◌⊎◌, ◌≤◌, ◌<◌, ◌+◌, ◌/◌, ◌^◌, [], ◌∷◌, ◌++◌, map};
ghost use Rattle.std.specs.Prelude.{replicate, take, codes, None};
ghost use Rattle.vab_disk.specs.Disk.{DiskFailed, SinkFailed};
ghost use Rattle.vab_gen.specs.Sets.{fresh_set};
ghost use Rattle.vab_set.specs.Spelling.{IsImage, IsSet};
ghost use Rattle.vab_model.specs.Commands.{Merge as MergeOf};
ghost use Rattle.vab_update.specs.Install.{order};
ghost use Rattle.vab_device.specs.Kept.{IsDevice};
ghost use Rattle.vab_device.specs.Mounted.{mounted_on};
ghost use Rattle.vab_device.specs.Reading.{Represents};
ghost use Rattle.vab_words.specs.Values.{IsScale};
ghost use Rattle.vab_cli.specs.Acts.{DoesActs, command_act, line_act};
ghost use Rattle.vab_cli.specs.Causes.{IsUnmade};
ghost use Rattle.vab_make.specs.Made.{refusal_of};
ghost use Rattle.vab_commands.specs.Copies.{HasBothCopies};
ghost use Rattle.vab_cli.specs.Copies.{IsAnswered};
ghost use Rattle.vab_cli.specs.Counts.{IsSteady};
ghost use Rattle.vab_cli.specs.Demo.{Demonstrates, DemonstratesOf, digest_act, digest_front};
ghost use Rattle.vab_cli.specs.Demo.{digest_order, life, sevens, take_over, take_over_orders};
ghost use Rattle.vab_cli.specs.Demo.{update_acts, update_orders};
ghost use Rattle.vab_cli.specs.Installing.{left_behind};
ghost use Rattle.vab_cli.specs.Verbs.{done_making};

use crate::Status;
use crate::acts::{ended, perform};
use crate::installing::install_set;
use crate::line::Line;
use crate::making::{tell_made, tell_unmade};
use arrayvec::ArrayVec;
use std::alloc::Global;
use vab_causes::Cause;
use vab_device::Device;
use vab_disk::{Disk, Port};
use vab_fbproto::put;
use vab_gen::{next_scaled, set_scaled};
use vab_make::make_device;
use vab_merging::left;
use vab_model::Command;
use vab_names::full_name;
use vab_recover::start;
use vab_set::{Set, SetImage};

/// The most bytes of a copy of a table.
const METADATA_MAX: u32 = 65536;

/// How many turns of a merge are taken by one command.
const TURNS: u64 = 7;

// Tells that the device is made.
fn begin_life<P: Port>(port: &mut P, device: Device, set: &Set) -> Result<Device, Status>
    requires set { IsSet set.now }
    requires size { 6152 ≤ P.size port.old }
    requires kept { IsDevice device (P.size port.old) }
    requires represents { P.is_modelled → Represents device (P.size port.old) (P.seen port.old) }
    ensures { DoesActs P.Disk device
        (line_act (done_making set.now (P.size port.old)) ∷ []) []
        port.old port.new result }
{
    match tell_made(port, set) {
        Status::Done => Ok(device),
        status => Err(status),
    }
}

// The slot that isn't running takes over: it is booted and marked, and the merge is begun.
fn take_over<P: Port>(
    alloc: Global,
    port: &mut P,
    device: Device,
    cause: &mut Option<Cause>,
) -> Result<Device, Status>
    requires kept { IsDevice device (P.size port.old) }
    requires represents { P.is_modelled → Represents device (P.size port.old) (P.seen port.old) }
    ensures { DoesActs P.Disk device take_over take_over_orders port.old port.new result }
{
    let next = perform(alloc, port, device, &Command::Boot, b"", cause)?;
    let next = perform(alloc, port, next, &Command::Mark, b"", cause)?;
    perform(alloc, port, next, &Command::BeginMerge, b"", cause)
}

// Takes seven turns of a merge, so many times.
fn merge_by_sevens<P: Port>(
    alloc: Global,
    port: &mut P,
    device: Device,
    times: u64,
    cause: &mut Option<Cause>,
) -> Result<Device, Status>
    requires kept { IsDevice device (P.size port.old) }
    requires represents { P.is_modelled → Represents device (P.size port.old) (P.seen port.old) }
    ensures { DoesActs P.Disk device (replicate times (command_act [] (MergeOf 7)))
        (replicate times (order (MergeOf 7)))
        port.old port.new result }
{
    let mut next = device;
    for _time in 0..times {
        next = perform(alloc, port, next, &Command::Merge(TURNS), b"", cause)?;
    }
    Ok(next)
}

// Tells the digest of an image in slot b, behind its name.
fn tell_digest<P: Port>(
    alloc: Global,
    port: &mut P,
    device: Device,
    image: &SetImage,
    cause: &mut Option<Cause>,
) -> Result<Device, Status>
    requires image { IsImage image.now }
    requires kept { IsDevice device (P.size port.old) }
    requires represents { P.is_modelled → Represents device (P.size port.old) (P.seen port.old) }
    ensures { DoesActs P.Disk device (digest_act image.now ∷ []) (digest_order image.now ∷ [])
        port.old port.new result }
{
    let full = full_name(&image.name, 1);
    let name = full.text();
    let mut front: Line = ArrayVec::new();
    put(b"digest ", &mut front);
    put(name, &mut front);
    put(b" ", &mut front);
    perform(
        alloc,
        port,
        device,
        &Command::Digest(name),
        front.as_slice(),
        cause,
    )
}

// Tells the digest of each image of a set in slot b.
fn tell_digests<P: Port>(
    alloc: Global,
    port: &mut P,
    device: Device,
    set: &Set,
    cause: &mut Option<Cause>,
) -> Result<Device, Status>
    requires set { IsSet set.now }
    requires kept { IsDevice device (P.size port.old) }
    requires represents { P.is_modelled → Represents device (P.size port.old) (P.seen port.old) }
    ensures { DoesActs P.Disk device (map digest_act set.now) (map digest_order set.now)
        port.old port.new result }
{
    let mut next = device;
    for image in set.as_slice() {
        next = tell_digest(alloc, port, next, image, cause)?;
    }
    Ok(next)
}

// Installs a set, boots and marks its slot, merges it, and tells its digests.
fn update<P: Port>(
    alloc: Global,
    port: &mut P,
    device: Device,
    set: &Set,
    cause: &mut Option<Cause>,
) -> Result<Device, Status>
    requires set { IsSet set.now }
    requires kept { IsDevice device (P.size port.old) }
    requires represents { P.is_modelled → Represents device (P.size port.old) (P.seen port.old) }
    ensures { DoesActs P.Disk device
        (update_acts set.now (left_behind (mounted_on device (P.seen port.old)) set.now))
        (update_orders device.control.current set.now
        (left_behind (mounted_on device (P.seen port.old)) set.now))
        port.old port.new result }
{
    let next = install_set(alloc, port, device, set, cause)?;
    let blocks = left(&next);
    let next = take_over(alloc, port, next, cause)?;
    let next = merge_by_sevens(alloc, port, next, blocks / TURNS + 1, cause)?;
    tell_digests(alloc, port, next, set, cause)
}

// Tells that the device is made, and updates it.
fn live<P: Port>(
    alloc: Global,
    port: &mut P,
    device: Device,
    set: &Set,
    next: &Set,
    cause: &mut Option<Cause>,
) -> Result<Device, Status>
    requires set { IsSet set.now }
    requires next { IsSet next.now }
    requires size { 6152 ≤ P.size port.old }
    requires kept { IsDevice device (P.size port.old) }
    requires represents { P.is_modelled → Represents device (P.size port.old) (P.seen port.old) }
    ensures { DoesActs P.Disk device
        (life (done_making set.now (P.size port.old)) next.now
        (left_behind (mounted_on device (P.seen port.old)) next.now))
        (update_orders device.control.current next.now
        (left_behind (mounted_on device (P.seen port.old)) next.now))
        port.old port.new result }
{
    let made = begin_life(port, device, set)?;
    update(alloc, port, made, next, cause)
}

// Makes a device of a set, opens it, and updates it by the next one.
fn demonstrate<P: Port>(
    alloc: Global,
    port: &mut P,
    set: &Set,
    next: &Set,
    cause: &mut Option<Cause>,
) -> Status
    requires set { IsSet set.now }
    requires next { IsSet next.now }
    ensures does { Demonstrates P.Disk set.now next.now port.old port.new result }
    ensures copies { P.is_modelled
        → refusal_of set.now 0 65536 (P.size port.old) ≡ None
        → IsAnswered result
        → HasBothCopies (P.size port.old) (P.seen port.new) }
    ensures steady { IsSteady P.Disk port.old port.new result }
    ensures words { result ≢ Status.Usage }
    ensures disk { result ≡ Status.Disk → DiskFailed (P.faults port.old) (P.faults port.new) }
    ensures port { result ≡ Status.Port → SinkFailed (P.faults port.old) (P.faults port.new) }
    ensures unmade { P.is_modelled
        → result ≡ Status.NotADevice
        → IsUnmade P.Disk port.old set.now 0 65536 cause.new }
{
    match make_device(alloc, port, set, 0, METADATA_MAX) {
        Ok(()) => {}
        Err(fault) => {
            *cause = Some(Cause::Making(fault));
            return tell_unmade(port, fault);
        }
    }
    let device = match start(alloc, port) {
        Ok(device) => device,
        Err(fault) => return Status::from(fault),
    };
    ended(live(alloc, port, device, set, next, cause))
}

/// Makes a device of the set that is drawn from a number, and updates it by the one that is drawn
/// after it, with so many times as many blocks.
pub(crate) fn demo<P: Port>(
    alloc: Global,
    port: &mut P,
    seed: u64,
    scale: u64,
    cause: &mut Option<Cause>,
) -> Status
    requires { IsScale scale }
    ensures does { DemonstratesOf P.Disk seed scale port.old port.new result }
    // Where a device is made and it is done or refused, both copies of each table agree.
    ensures copies { P.is_modelled
        → refusal_of (fresh_set scale seed) 0 65536 (P.size port.old) ≡ None
        → IsAnswered result
        → HasBothCopies (P.size port.old) (P.seen port.new) }
    ensures steady { IsSteady P.Disk port.old port.new result }
    ensures words { result ≢ Status.Usage }
    ensures disk { result ≡ Status.Disk → DiskFailed (P.faults port.old) (P.faults port.new) }
    ensures port { result ≡ Status.Port → SinkFailed (P.faults port.old) (P.faults port.new) }
    // Where none is made, the cause is the first refusal.
    ensures unmade { P.is_modelled
        → result ≡ Status.NotADevice
        → IsUnmade P.Disk port.old (fresh_set scale seed) 0 65536 cause.new }
{
    let set = match set_scaled(alloc, seed, scale) {
        Ok(set) => set,
        Err(_) => return Status::NoMemory,
    };
    let next = match next_scaled(alloc, seed, scale, &set) {
        Ok(next) => next,
        Err(_) => return Status::NoMemory,
    };
    demonstrate(alloc, port, &set, &next, cause)
}
