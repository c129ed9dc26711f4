//! The session: a greeting, a hello, and then exchange after exchange.
ghost use Rattle.std.specs.Prelude.{◌≡◌, ◌<◌, ◌++◌, ◌^◌, ℕ, List, slice_index, codes, IfOk, OnOk};
ghost use Rattle.std.specs.Prelude.{take, drop};
ghost use Rattle.vab_fbtcp.specs.declared.event.Place.TheVariants.{Length};
ghost use Rattle.vab_device.specs.Kept.{IsDevice};
ghost use Rattle.vab_device.specs.Mounted.{mounted_on};
ghost use Rattle.vab_device.specs.Reading.{IsIn, Represents};
ghost use Rattle.vab_commands.specs.Copies.{HasBothCopies};
ghost use Rattle.vab_commands.specs.Touched.{ChangesBy};
ghost use Rattle.vab_exchanges.specs.Reading.{stands_at, rest_of, beyond_of, total_of, count_of};
ghost use Rattle.vab_exchanges.specs.Reading.{most_of, IsFed};
ghost use Rattle.vab_exchanges.specs.Runs.{Ran};
ghost use Rattle.vab_session.specs.Sparing.{IsPlain, SparesSource};
ghost use Rattle.vab_session.specs.Responses.{machine};
ghost use Rattle.vab_session.specs.Served.{kept_on, Held, Says, reached, SaysSlot};
ghost use Rattle.vab_session.specs.Served.{ServesDevice, HasCause, nothing_staged};
ghost use Rattle.vab_session.specs.Written.{WritesInTurn};

use crate::answer::{answer, is_last};
use crate::between::go_on;
use crate::{Ended, KeptDevice, SessionFault};
use arrayvec::ArrayVec;
use std::alloc::Global;
use vab_device::Device;
use vab_disk::{Disk, Port};
use vab_exchanges::{Reader, say_all};
use vab_fbproto::read_command;

/// The most bytes that a session takes.
pub const MAX_SESSION: u64 = 1 << 44;

// The device alone: what is staged is let go.
fn device_of(kept: KeptDevice) -> Device
    ensures { result ≡ kept.device }
{
    let KeptDevice { device, staged: _ } = kept;
    device
}

// Answers the exchanges that are left. Before it hears the next packet it makes so many turns of a
// merge.
fn answer_all<P: Port>(
    alloc: Global,
    p: &mut P,
    reader: &mut Reader,
    kept: KeptDevice,
    turns: u64,
) -> Result<(Ended, Device), SessionFault>
    requires place { stands_at reader.old ≡ Length }
    requires fed { IsFed reader.old }
    requires device { IsDevice kept.device (P.size p.old) }
    requires stands { P.is_modelled → Represents kept.device (P.size p.old) (P.seen p.old) }
    ensures ran { P.is_modelled
        → ((k : ℕ) → slice_index (rest_of reader.old (P.input_left p.old)) k < 256)
        → (told : List ℕ)
        → P.told p.old ≡ told ++ codes "FB01"
        → Ran (machine turns) (IsIn (P.size p.old)) P.Disk
        (Held result) (Says result) (reached result (P.seen p.new))
        (count_of reader.old (P.input_left p.old))
        (total_of reader.old (P.input_left p.old))
        (most_of reader.old)
        (rest_of reader.old (P.input_left p.old))
        (beyond_of reader.old (P.input_left p.old))
        (kept_on kept (P.seen p.old)) told p.old p.new }
    ensures device { IfOk result (λ r. IsDevice r.1 (P.size p.old)) }
    ensures stands { P.is_modelled
        → IfOk result (λ r. Represents r.1 (P.size p.old) (P.seen p.new)) }
    ensures slot { IfOk result (λ r. SaysSlot r.0 r.1) }
    ensures size { P.size p.new ≡ P.size p.old }
    ensures changes { P.is_modelled
        → ChangesBy P.Disk kept.device
        (IsPlain turns (P.told p.old) (rest_of reader.old (P.input_left p.old)))
        p.old p.new }
    ensures copies { P.is_modelled
        → Held result
        → HasBothCopies (P.size p.old) (P.seen p.new) }
    ensures writes { P.is_modelled
        → (told : List ℕ)
        → P.told p.old ≡ told ++ codes "FB01"
        → WritesInTurn P.Disk turns (P.size p.old) kept.device
        (kept_on kept (P.seen p.old)) (rest_of reader.old (P.input_left p.old)) p.old p.new }
    ensures cause { HasCause P.Disk p.old p.new result }
{
    let mut kept = kept;
    let mut packet = ArrayVec::new();
    loop {
        match go_on(p, kept, turns) {
            Ok(next) => kept = next,
            Err(fault) => return Err(fault),
        }
        match reader.packet(p, &mut packet) {
            Ok(true) => {}
            Ok(false) => return Ok((Ended::Closed, device_of(kept))),
            Err(fault) => return Err(SessionFault::from(fault)),
        }
        let request = read_command(packet.as_slice());
        let last = is_last(&request);
        match answer(alloc, p, reader, kept, request) {
            Ok(next) => kept = next,
            Err(fault) => return Err(fault),
        }
        if last {
            let device = device_of(kept);
            return Ok((Ended::Rebooted(device.current()), device));
        }
    }
}

// A session of at most so many bytes of input, with so many turns of a merge behind the hello and
// behind each reply.
fn hold_session<P: Port>(
    alloc: Global,
    p: &mut P,
    device: Device,
    most: u64,
    turns: u64,
) -> Result<(Ended, Device), SessionFault>
    requires device { IsDevice device (P.size p.old) }
    requires stands { P.is_modelled → Represents device (P.size p.old) (P.seen p.old) }
    ensures serves { P.is_modelled
        → ServesDevice (P.size p.old) P.Disk device most turns p.old p.new result }
    ensures device { IfOk result (λ r. IsDevice r.1 (P.size p.old)) }
    ensures stands { P.is_modelled
        → IfOk result (λ r. Represents r.1 (P.size p.old) (P.seen p.new)) }
    ensures slot { IfOk result (λ r. SaysSlot r.0 r.1) }
    ensures size { P.size p.new ≡ P.size p.old }
    ensures changes { P.is_modelled
        → ChangesBy P.Disk device (SparesSource most turns (P.input_left p.old)) p.old p.new }
    ensures copies { P.is_modelled
        → Held result
        → HasBothCopies (P.size p.old) (P.seen p.new) }
    // The packets behind the hello write in turn: one that changes the device what its command
    // writes there, and each other nothing, also where the disk fails. In front of each, and behind
    // the last, they are the turns of a merge.
    ensures writes { P.is_modelled
        → WritesInTurn P.Disk turns (P.size p.old) device
        (nothing_staged (mounted_on device (P.seen p.old)))
        (drop 4 (take most (P.input_left p.old))) p.old p.new }
    ensures cause { HasCause P.Disk p.old p.new result }
{
    if say_all(p, b"FB01").is_err() {
        return Err(SessionFault::Sink);
    }
    let mut reader = Reader::new(most);
    match reader.hello(p) {
        Ok(()) => {}
        Err(fault) => return Err(SessionFault::from(fault)),
    }
    let kept = KeptDevice {
        device,
        staged: None,
    };
    answer_all(alloc, p, &mut reader, kept, turns)
}

/// A session of at most `most` bytes of input, over a device that is kept as the disk has it.
///
/// It tells `FB01`, reads the hello of the other side (any version from 01 on is spoken as 1), and
/// answers packets one by one until the input ends or a packet asks for a boot and the end. It
/// hears only where all that has come is answered. A download wants as much memory as it announces,
/// and an update as much as its tables and stores; where that is refused `FAILout of memory` is
/// told. However it ends, it has changed what its commands may write alone: boot control by the
/// boot rules, the update mark, the statuses, tables, and blocks behind them. Where no packet asks
/// for a merge or a wipe, those are the target's table, and blocks of no image. Source: the
/// fastboot README, protocol 0.4, TCP version 1.
pub fn serve_up_to<P: Port>(
    alloc: Global,
    p: &mut P,
    device: Device,
    most: u64,
) -> Result<(Ended, Device), SessionFault>
    requires device { IsDevice device (P.size p.old) }
    requires stands { P.is_modelled → Represents device (P.size p.old) (P.seen p.old) }
    ensures serves { P.is_modelled
        → ServesDevice (P.size p.old) P.Disk device most 0 p.old p.new result }
    ensures device { IfOk result (λ r. IsDevice r.1 (P.size p.old)) }
    ensures stands { P.is_modelled
        → IfOk result (λ r. Represents r.1 (P.size p.old) (P.seen p.new)) }
    ensures slot { IfOk result (λ r. SaysSlot r.0 r.1) }
    ensures size { P.size p.new ≡ P.size p.old }
    ensures changes { P.is_modelled
        → ChangesBy P.Disk device (SparesSource most 0 (P.input_left p.old)) p.old p.new }
    ensures copies { P.is_modelled
        → Held result
        → HasBothCopies (P.size p.old) (P.seen p.new) }
    // The packets behind the hello write in turn: one that changes the device what its command
    // writes there, and each other nothing, also where the disk fails.
    ensures writes { P.is_modelled
        → WritesInTurn P.Disk 0 (P.size p.old) device
        (nothing_staged (mounted_on device (P.seen p.old)))
        (drop 4 (take most (P.input_left p.old))) p.old p.new }
    ensures cause { HasCause P.Disk p.old p.new result }
{
    hold_session(alloc, p, device, most, 0)
}

/// A session, of at most 2^44 bytes, that goes on with a merge by itself: behind the hello, and
/// behind each item's last reply, it makes `turns` turns before it hears the next packet, fewer
/// only where the merge ends. Behind a packet that asks for a boot and the end it makes none. The
/// turns tell nothing and take no memory; a fault of the disk in one of them is the session's.
pub fn serve_with<P: Port>(
    alloc: Global,
    p: &mut P,
    device: Device,
    turns: u64,
) -> Result<(Ended, Device), SessionFault>
    requires device { IsDevice device (P.size p.old) }
    requires stands { P.is_modelled → Represents device (P.size p.old) (P.seen p.old) }
    ensures serves { P.is_modelled
        → ServesDevice (P.size p.old) P.Disk device (2 ^ 44) turns p.old p.new result }
    ensures device { IfOk result (λ r. IsDevice r.1 (P.size p.old)) }
    ensures stands { P.is_modelled
        → IfOk result (λ r. Represents r.1 (P.size p.old) (P.seen p.new)) }
    ensures slot { IfOk result (λ r. SaysSlot r.0 r.1) }
    ensures size { P.size p.new ≡ P.size p.old }
    ensures changes { P.is_modelled
        → ChangesBy P.Disk device (SparesSource (2 ^ 44) turns (P.input_left p.old)) p.old p.new }
    ensures copies { P.is_modelled
        → Held result
        → HasBothCopies (P.size p.old) (P.seen p.new) }
    // The packets behind the hello write in turn: one that changes the device what its command
    // writes there, and each other nothing, also where the disk fails. In front of each, and behind
    // the last, they are the turns of a merge.
    ensures writes { P.is_modelled
        → WritesInTurn P.Disk turns (P.size p.old) device
        (nothing_staged (mounted_on device (P.seen p.old)))
        (drop 4 (take (2 ^ 44) (P.input_left p.old))) p.old p.new }
    ensures cause { HasCause P.Disk p.old p.new result }
{
    hold_session(alloc, p, device, MAX_SESSION, turns)
}

/// A session, of at most 2^44 bytes.
pub fn serve<P: Port>(
    alloc: Global,
    p: &mut P,
    device: Device,
) -> Result<(Ended, Device), SessionFault>
    requires device { IsDevice device (P.size p.old) }
    requires stands { P.is_modelled → Represents device (P.size p.old) (P.seen p.old) }
    ensures serves { P.is_modelled
        → ServesDevice (P.size p.old) P.Disk device (2 ^ 44) 0 p.old p.new result }
    ensures device { IfOk result (λ r. IsDevice r.1 (P.size p.old)) }
    ensures stands { P.is_modelled
        → IfOk result (λ r. Represents r.1 (P.size p.old) (P.seen p.new)) }
    ensures slot { IfOk result (λ r. SaysSlot r.0 r.1) }
    ensures size { P.size p.new ≡ P.size p.old }
    ensures changes { P.is_modelled
        → ChangesBy P.Disk device (SparesSource (2 ^ 44) 0 (P.input_left p.old)) p.old p.new }
    ensures copies { P.is_modelled
        → Held result
        → HasBothCopies (P.size p.old) (P.seen p.new) }
    // The packets behind the hello write in turn: one that changes the device what its command
    // writes there, and each other nothing, also where the disk fails.
    ensures writes { P.is_modelled
        → WritesInTurn P.Disk 0 (P.size p.old) device
        (nothing_staged (mounted_on device (P.seen p.old)))
        (drop 4 (take (2 ^ 44) (P.input_left p.old))) p.old p.new }
    ensures cause { HasCause P.Disk p.old p.new result }
{
    serve_with(alloc, p, device, 0)
}
