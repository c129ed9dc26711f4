//! Telling the bytes of an image.
ghost use Rattle.std.specs.Prelude.{◌≡◌, ◌≢◌, ◌⊎◌, ◌≤◌, ◌<◌, ◌+◌, [], length, take, drop};
ghost use Rattle.std.specs.Prelude.{IfOk, IfErr, OnOk, OnErr, IsErrOf, Ok, Err};
ghost use Rattle.vab_disk.specs.Disk.{Image, DiskFailed, SinkFailed};
ghost use Rattle.vab_disk.specs.Calls.{Changes, FailsWithDisk, OnlyReads};
ghost use Rattle.vab_bootctl.specs.declared.slots.Control.{Control};
ghost use Rattle.vab_bootctl.specs.Control.{control_of};
ghost use Rattle.vab_model.specs.Commands.{Print as PrintOf};
ghost use Rattle.vab_model.specs.Effects.{found_of};
ghost use Rattle.vab_device.specs.declared.fault.StartFault.{StartFault as Fault};
ghost use Rattle.vab_device.specs.declared.device.Part.{Part};
ghost use Rattle.vab_device.specs.Kept.{IsDevice};
ghost use Rattle.vab_device.specs.Mounted.{Mounted, mounted_on, bytes_at, sectors_read};
ghost use Rattle.vab_device.specs.Reading.{device, IsIn, Represents};
ghost use Rattle.vab_manager.specs.Blocks.{KeepsPart};
ghost use Rattle.vab_cli.specs.Causes.{IsNoDevice, IsRefusedAs, IsRefusedOn};
ghost use Rattle.vab_commands.specs.Copies.{HasBothCopies};
ghost use Rattle.vab_cli.specs.Copies.{IsAnswered};
ghost use Rattle.vab_cli.specs.Counts.{HearsNothing, IsSteady};
ghost use Rattle.vab_cli.specs.Telling.{DoesItem, Says};
ghost use Rattle.vab_cli.specs.Verbs.{none_line, refused_line as line_of, print_told};
ghost use Rattle.vab_cli.specs.Verbs.{command_item, verb_status};
ghost use Rattle.vab_cli.specs.Touched.{IsOfVerb};
ghost use Rattle.vab_cli.specs.Runs.{RunsItem, FailsBefore, RunsNone, IsFailed};

use crate::Status;
use crate::line::{NOT_A_DEVICE, refused_line};
use crate::noting::note_refusal;
use crate::opening::open;
use arrayvec::ArrayVec;
use std::alloc::Global;
use vab_causes::Cause;
use vab_device::Device;
use vab_disk::{Disk, Port};
use vab_exchanges::say_all;
use vab_gate::DiskFault;
use vab_manager::{locate, read_block};
use vab_model::Refusal;
use vab_names::base_of;

/// The most blocks of 4096 bytes that are told at once.
const PIECE: u64 = 16;

// The bytes of so many blocks.
type Piece = ArrayVec<u8, 65536>;

// Reads so many blocks of an image, from one on, into a piece that is empty.
fn read_piece<P: Port>(
    port: &mut P,
    device: &Device,
    slot: usize,
    name: &[u8],
    first: u64,
    count: u64,
    piece: &mut Piece,
) -> Result<(), DiskFault>
    requires kept { IsDevice device.now (P.size port.old) }
    requires slot { slot < 2 }
    requires part { (p : Part)
        × KeepsPart device.now slot name.now p
        × (first + count ≤ length p.map) }
    requires few { count ≤ 16 }
    requires empty { piece.old.items ≡ [] }
    ensures bytes { P.is_modelled
        → (p : Part)
        → KeepsPart device.now slot name.now p
        → OnOk result
        (piece.new.items
        ≡ bytes_at (P.seen port.old) (take count (drop first (sectors_read p)))) }
    ensures reads { OnlyReads P.Disk port.old port.new }
    ensures faults { FailsWithDisk P.Disk port.old port.new result }
{
    for block in 0..count {
        let mut bytes = [0u8; 4096];
        read_block(port, device, slot, name, first + block, &mut bytes)?;
        let _ = piece.try_extend_from_slice(&bytes);
    }
    Ok(())
}

// Tells so many blocks of an image, from one on.
fn tell_piece<P: Port>(
    port: &mut P,
    device: &Device,
    slot: usize,
    name: &[u8],
    first: u64,
    count: u64,
) -> Result<(), Status>
    requires kept { IsDevice device.now (P.size port.old) }
    requires slot { slot < 2 }
    requires part { (p : Part)
        × KeepsPart device.now slot name.now p
        × (first + count ≤ length p.map) }
    requires few { count ≤ 16 }
    ensures says { P.is_modelled
        → (p : Part)
        → KeepsPart device.now slot name.now p
        → Says P.Disk (bytes_at (P.seen port.old) (take count (drop first (sectors_read p))))
        port.old port.new result }
    ensures size { P.size port.new ≡ P.size port.old }
    ensures steady { OnOk result (P.faults port.new ≡ P.faults port.old) }
    ensures failed { IfErr result IsFailed }
    ensures disk { IsErrOf result Status.Disk
        → DiskFailed (P.faults port.old) (P.faults port.new) }
    ensures port { IsErrOf result Status.Port
        → SinkFailed (P.faults port.old) (P.faults port.new) }
{
    let mut piece = ArrayVec::new();
    match read_piece(port, device, slot, name, first, count, &mut piece) {
        Ok(()) => {}
        Err(_) => return Err(Status::Disk),
    }
    match say_all(port, piece.as_slice()) {
        Ok(()) => Ok(()),
        Err(_) => Err(Status::Port),
    }
}

// How many blocks the next piece has, where so many are left.
fn next_count(left: u64) -> u64
    ensures fits { result ≤ left }
    ensures few { result ≤ 16 }
    ensures some { 1 ≤ left → 1 ≤ result }
{
    if left < PIECE { left } else { PIECE }
}

// Tells all blocks of an image, in pieces of 64 KiB.
fn tell_blocks<P: Port>(
    port: &mut P,
    device: &Device,
    slot: usize,
    name: &[u8],
    blocks: u64,
) -> Result<(), Status>
    requires kept { IsDevice device.now (P.size port.old) }
    requires slot { slot < 2 }
    requires part { (p : Part) × KeepsPart device.now slot name.now p × (blocks ≡ length p.map) }
    ensures says { P.is_modelled
        → (p : Part)
        → KeepsPart device.now slot name.now p
        → Says P.Disk (bytes_at (P.seen port.old) (sectors_read p)) port.old port.new result }
    ensures size { P.size port.new ≡ P.size port.old }
    ensures steady { OnOk result (P.faults port.new ≡ P.faults port.old) }
    ensures failed { IfErr result IsFailed }
    ensures disk { IsErrOf result Status.Disk
        → DiskFailed (P.faults port.old) (P.faults port.new) }
    ensures port { IsErrOf result Status.Port
        → SinkFailed (P.faults port.old) (P.faults port.new) }
{
    let mut done = 0;
    while done < blocks {
        let count = next_count(blocks - done);
        match tell_piece(port, device, slot, name, done, count) {
            Ok(()) => {}
            Err(status) => return Err(status),
        }
        done += count;
    }
    Ok(())
}

// Tells a refusal's line.
fn refuse<P: Port>(port: &mut P, refusal: Refusal) -> Result<Status, Status>
    ensures says { P.is_modelled → Says P.Disk (line_of refusal) port.old port.new result }
    ensures size { P.size port.new ≡ P.size port.old }
    ensures steady { OnOk result (P.faults port.new ≡ P.faults port.old) }
    ensures status { IfOk result (λ status. status ≡ Status.Refused) }
    ensures failed { IfErr result (λ status. status ≡ Status.Port) }
    ensures port { OnErr result (SinkFailed (P.faults port.old) (P.faults port.new)) }
{
    let mut line = ArrayVec::new();
    refused_line(refusal, &mut line);
    match say_all(port, line.as_slice()) {
        Ok(()) => Ok(Status::Refused),
        Err(_) => Err(Status::Port),
    }
}

// Tells an image's bytes, or why there are none.
fn print_image<P: Port>(
    port: &mut P,
    device: &Device,
    name: &[u8],
    cause: &mut Option<Cause>,
) -> Result<Status, Status>
    requires kept { IsDevice device.now (P.size port.old) }
    requires represents { P.is_modelled
        → Represents device.now (P.size port.old) (P.seen port.old) }
    ensures does { P.is_modelled
        → (s : Mounted)
        → IsIn (P.size port.old) s (P.seen port.old)
        → DoesItem P.Disk (P.size port.old)
        (command_item s (PrintOf name.now) (print_told (found_of s.state name.now)))
        port.old port.new result }
    ensures status { P.is_modelled
        → (s : Mounted)
        → IsIn (P.size port.old) s (P.seen port.old)
        → IfOk result (λ status. status ≡ verb_status s (PrintOf name.now)) }
    ensures changes { P.is_modelled → Changes P.Disk (λ s b. ⊥) port.old port.new }
    ensures quiet { P.is_modelled → HearsNothing P.Disk port.old port.new }
    ensures steady { OnOk result (P.faults port.new ≡ P.faults port.old) }
    ensures done { IfOk result (λ status. (status ≡ Status.Done) ⊎ (status ≡ Status.Refused)) }
    ensures failed { IfErr result IsFailed }
    ensures disk { IsErrOf result Status.Disk
        → DiskFailed (P.faults port.old) (P.faults port.new) }
    ensures port { IsErrOf result Status.Port
        → SinkFailed (P.faults port.old) (P.faults port.new) }
    ensures refused { IfOk result (λ status. status ≡ Status.Refused
        → (image : Image)
        → IsRefusedOn (mounted_on device.now image) (PrintOf name.now) cause.new) }
{
    match locate(device, name) {
        Ok((slot, blocks)) => match tell_blocks(port, device, slot, base_of(name), blocks) {
            Ok(()) => Ok(Status::Done),
            Err(status) => Err(status),
        },
        Err(refusal) => {
            note_refusal(&refusal, cause);
            refuse(port, refusal)
        }
    }
}

/// Opens the device, and tells the bytes of an image alone, or why there are none.
pub(crate) fn print<P: Port>(
    alloc: Global,
    port: &mut P,
    name: &[u8],
    cause: &mut Option<Cause>,
) -> Status
    ensures runs { P.is_modelled
        → (s : Mounted)
        → IsIn (P.size port.old) s (P.seen port.old)
        → RunsItem P.Disk (P.size port.old) s
        (command_item s (PrintOf name.now) (print_told (found_of s.state name.now)))
        (verb_status s (PrintOf name.now))
        port.old port.new result
        ⊎ FailsBefore P.Disk (P.size port.old) s port.old port.new result }
    ensures none { P.is_modelled
        → (fault : Fault)
        → device (P.size port.old) (P.seen port.old) ≡ Err fault
        → RunsNone P.Disk (P.size port.old) none_line port.old port.new result }
    ensures changes { P.is_modelled
        → (s : Mounted)
        → IsIn (P.size port.old) s (P.seen port.old)
        → (boot : Control)
        → control_of (P.seen port.old 4) ≡ Ok boot
        → Changes P.Disk
        (IsOfVerb (P.size port.old) (P.seen port.old) s boot (PrintOf name.now))
        port.old port.new }
    ensures quiet { P.is_modelled → HearsNothing P.Disk port.old port.new }
    // Where it is done or refused, both copies of each table agree.
    ensures copies { P.is_modelled
        → (s : Mounted)
        → IsIn (P.size port.old) s (P.seen port.old)
        → IsAnswered result
        → HasBothCopies (P.size port.old) (P.seen port.new) }
    ensures steady { IsSteady P.Disk port.old port.new result }
    ensures words { result ≢ Status.Usage }
    ensures disk { result ≡ Status.Disk → DiskFailed (P.faults port.old) (P.faults port.new) }
    ensures port { result ≡ Status.Port → SinkFailed (P.faults port.old) (P.faults port.new) }
    // Where there is none, the cause is the first thing that is wrong with the disk.
    ensures unopened { P.is_modelled
        → result ≡ Status.NotADevice
        → IsNoDevice P.Disk port.old cause.new }
    // Where the name is refused, it is the refusal of the table of effects.
    ensures refused { P.is_modelled
        → result ≡ Status.Refused
        → IsRefusedAs P.Disk port.old (PrintOf name.now) cause.new }
{
    let device = match open(alloc, port, NOT_A_DEVICE, cause) {
        Ok(device) => device,
        Err(status) => return status,
    };
    match print_image(port, &device, name, cause) {
        Ok(status) => status,
        Err(status) => status,
    }
}
