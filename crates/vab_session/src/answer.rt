//! One exchange: what it changes, and then its reply.
ghost use Rattle.std.specs.Prelude.{◌≡◌, ◌≤◌, ℕ, List, length, OnOk, IfOk, Ok, MatchOption};
ghost use Rattle.std.specs.Prelude.{Result, option_map, false};
ghost use Rattle.vab_fbtcp.specs.declared.event.Place.TheVariants.{Length};
ghost use Rattle.vab_device.specs.Kept.{IsDevice};
ghost use Rattle.vab_device.specs.Reading.{Represents};
ghost use Rattle.vab_fbproto.specs.Requests.{Asked, Do, Download, request_of};
ghost use Rattle.vab_fbproto.specs.declared.request.BadCommand.{BadCommand};
ghost use Rattle.vab_model.specs.Commands.{command_of};
ghost use Rattle.vab_device.specs.Does.{KeepsSource};
ghost use Rattle.vab_model.specs.Kinds.{changes_source};
ghost use Rattle.vab_commands.specs.Copies.{HasBothCopies};
ghost use Rattle.vab_commands.specs.Touched.{ChangesDevice, ChangesBy, FollowsBy};
ghost use Rattle.vab_exchanges.specs.Session.{is_last};
ghost use Rattle.vab_exchanges.specs.Reading.{stands_at, rest_of, beyond_of, room_of, total_of};
ghost use Rattle.vab_exchanges.specs.Reading.{count_of, most_of, IsFed};
ghost use Rattle.vab_exchanges.specs.Items.{AsksNoData, staged_after};
ghost use Rattle.vab_session.specs.Sparing.{asks_source};
ghost use Rattle.vab_session.specs.Responses.{response, still, takes_staged};
ghost use Rattle.vab_session.specs.Served.{kept_on, AnswersOrFails, HasCause, Held};
ghost use Rattle.vab_session.specs.Read.{asked_in};
ghost use Rattle.vab_session.specs.Written.{IsOfAsked, IsOfChange, WritesAs, command_asked};

use crate::tell::{data_text, tell_reply};
use crate::{KeptDevice, SessionFault};
use arrayvec::ArrayVec;
use std::alloc::Global;
use vab_commands::run_one;
use vab_disk::{Disk, Port};
use vab_exchanges::Reader;
use vab_fbproto::{BadCommand, Request, bad_text, reply_text};
use vab_fbvars::variable;
use vab_merging::left;
use vab_model::{Command, Reply};

/// The most bytes of a download.
pub const MAX_DATA: u32 = 0x10000000;

// Tells a reply where nothing changes. It hears nothing.
fn tell_still<P: Port>(p: &mut P, kept: KeptDevice, text: &[u8]) -> Result<KeptDevice, SessionFault>
    requires short { length text.now ≤ 256 }
    requires device { IsDevice kept.device (P.size p.old) }
    requires stands { P.is_modelled → Represents kept.device (P.size p.old) (P.seen p.old) }
    ensures size { P.size p.new ≡ P.size p.old }
    ensures left { P.is_modelled → P.input_left p.new ≡ P.input_left p.old }
    ensures device { IfOk result (λ k. IsDevice k.device (P.size p.old)) }
    ensures source { IfOk result (λ k. KeepsSource kept.device k.device) }
    ensures stands { P.is_modelled
        → IfOk result (λ k. Represents k.device (P.size p.old) (P.seen p.new)) }
    ensures does { P.is_modelled
        → (command before beyond : List ℕ) (count total most : ℕ)
        → (asked : Result Asked BadCommand)
        → request_of command ≡ asked
        → AsksNoData asked
        → (let k = kept_on kept (P.seen p.old) in response k.now k.staged asked ≡ still text.now)
        → AnswersOrFails (P.size p.old) P.Disk (kept_on kept (P.seen p.old))
        command before before beyond count total most p.old p.new result }
    ensures changes { P.is_modelled → ChangesDevice P.Disk kept.device p.old p.new }
    ensures copies { P.is_modelled
        → Held result
        → HasBothCopies (P.size p.old) (P.seen p.new) }
    ensures writes { P.is_modelled → WritesAs P.Disk (λ s b. ⊥) p.old p.new }
    ensures cause { HasCause P.Disk p.old p.new result }
{
    match tell_reply(p, text) {
        Ok(()) => Ok(kept),
        Err(_) => Err(SessionFault::Sink),
    }
}

// The staged bytes.
fn bytes_of(staged: &Option<Vec<u8>>) -> Option<&[u8]>
    ensures { option_map (λ s. s.now) result ≡ option_map (λ v. v.items) staged.now }
{
    match staged {
        None => None,
        Some(bytes) => Some(bytes.as_slice()),
    }
}

// Whether a command has used up the staged bytes: a flash, a wipe or a block of an overlay that is
// done.
#[tactic(auto, unfolding(crate::specs::Responses::takes_staged))]
fn takes_staged(command: &Command, reply: &Reply) -> bool
    ensures { result ≡ takes_staged (command_of command.now) reply.now }
{
    match (command, reply) {
        (Command::Flash(_, _), Reply::Done) => true,
        (Command::UpdateSuper, Reply::Done) => true,
        (Command::OverlayWrite(_), Reply::Done) => true,
        _ => false,
    }
}

// What is staged behind a command.
fn left_staged(command: &Command, reply: &Reply, staged: Option<Vec<u8>>) -> Option<Vec<u8>>
    ensures { option_map (λ v. v.items) result
        ≡ staged_after (takes_staged (command_of command.now) reply.now)
        (option_map (λ v. v.items) staged) }
{
    if takes_staged(command, reply) {
        None
    } else {
        staged
    }
}

// Carries out a command, and then tells its reply. It hears nothing.
fn do_command<P: Port>(
    alloc: Global,
    p: &mut P,
    kept: KeptDevice,
    command: &Command,
) -> Result<KeptDevice, SessionFault>
    requires device { IsDevice kept.device (P.size p.old) }
    requires stands { P.is_modelled → Represents kept.device (P.size p.old) (P.seen p.old) }
    ensures size { P.size p.new ≡ P.size p.old }
    ensures left { P.is_modelled → P.input_left p.new ≡ P.input_left p.old }
    ensures device { IfOk result (λ k. IsDevice k.device (P.size p.old)) }
    ensures follows { IfOk result
        (λ k. FollowsBy kept.device (changes_source (command_of command.now) ≡ false) k.device) }
    ensures stands { P.is_modelled
        → IfOk result (λ k. Represents k.device (P.size p.old) (P.seen p.new)) }
    ensures does { P.is_modelled
        → (packet before beyond : List ℕ) (count total most : ℕ)
        → (asked : Result Asked BadCommand)
        → request_of packet ≡ asked
        → AsksNoData asked
        → (let k = kept_on kept (P.seen p.old) in
        response k.now k.staged asked ≡ response k.now k.staged (Ok (Do (command_of command.now))))
        → AnswersOrFails (P.size p.old) P.Disk (kept_on kept (P.seen p.old))
        packet before before beyond count total most p.old p.new result }
    ensures changes { P.is_modelled
        → ChangesBy P.Disk kept.device (changes_source (command_of command.now) ≡ false)
        p.old p.new }
    ensures copies { P.is_modelled
        → Held result
        → HasBothCopies (P.size p.old) (P.seen p.new) }
    ensures writes { P.is_modelled
        → WritesAs P.Disk
        (IsOfChange P.is_modelled kept.device (kept_on kept (P.seen p.old)) (P.seen p.old 4)
        (command_of command.now))
        p.old p.new }
    ensures cause { HasCause P.Disk p.old p.new result }
{
    let KeptDevice { device, staged } = kept;
    let (device, reply) = match run_one(alloc, p, device, command, bytes_of(&staged)) {
        Ok(done) => done,
        Err(_) => return Err(SessionFault::Disk),
    };
    let staged = left_staged(command, &reply, staged);
    let mut text = ArrayVec::new();
    reply_text(&reply, &mut text);
    match tell_reply(p, text.as_slice()) {
        Ok(()) => Ok(KeptDevice { device, staged }),
        Err(_) => Err(SessionFault::Sink),
    }
}

// Answers a download: its data are staged in place of the earlier ones once their `OKAY` is told.
fn download<P: Port>(
    alloc: Global,
    p: &mut P,
    reader: &mut Reader,
    kept: KeptDevice,
    size: u32,
) -> Result<KeptDevice, SessionFault>
    requires place { stands_at reader.old ≡ Length }
    requires fed { IsFed reader.old }
    requires device { IsDevice kept.device (P.size p.old) }
    requires stands { P.is_modelled → Represents kept.device (P.size p.old) (P.seen p.old) }
    ensures size { P.size p.new ≡ P.size p.old }
    ensures place { OnOk result (stands_at reader.new ≡ Length) }
    ensures fed { OnOk result (IsFed reader.new) }
    ensures room { OnOk result (room_of reader.new ≤ room_of reader.old) }
    ensures count { P.is_modelled → OnOk result
        (total_of reader.new (P.input_left p.new) ≡ total_of reader.old (P.input_left p.old)) }
    ensures beyond { P.is_modelled → OnOk result
        (beyond_of reader.new (P.input_left p.new) ≡ beyond_of reader.old (P.input_left p.old)) }
    ensures most { most_of reader.new ≡ most_of reader.old }
    ensures device { IfOk result (λ k. IsDevice k.device (P.size p.old)) }
    ensures source { IfOk result (λ k. KeepsSource kept.device k.device) }
    ensures stands { P.is_modelled
        → IfOk result (λ k. Represents k.device (P.size p.old) (P.seen p.new)) }
    ensures does { P.is_modelled
        → (command : List ℕ)
        → request_of command ≡ Ok (Download size)
        → AnswersOrFails (P.size p.old) P.Disk (kept_on kept (P.seen p.old))
        command
        (rest_of reader.old (P.input_left p.old))
        (rest_of reader.new (P.input_left p.new))
        (beyond_of reader.old (P.input_left p.old))
        (count_of reader.old (P.input_left p.old))
        (total_of reader.old (P.input_left p.old))
        (most_of reader.old) p.old p.new result }
    ensures changes { P.is_modelled → ChangesDevice P.Disk kept.device p.old p.new }
    ensures copies { P.is_modelled
        → Held result
        → HasBothCopies (P.size p.old) (P.seen p.new) }
    ensures writes { P.is_modelled → WritesAs P.Disk (λ s b. ⊥) p.old p.new }
    ensures cause { HasCause P.Disk p.old p.new result }
{
    if size > MAX_DATA {
        match tell_reply(p, b"FAILtoo large") {
            Ok(()) => return Ok(kept),
            Err(_) => return Err(SessionFault::Sink),
        }
    }
    let mut bytes = match Vec::with_capacity(alloc, size as usize) {
        Ok(bytes) => bytes,
        Err(_) => match tell_reply(p, b"FAILout of memory") {
            Ok(()) => return Ok(kept),
            Err(_) => return Err(SessionFault::Sink),
        },
    };
    match tell_reply(p, data_text(size).as_slice()) {
        Ok(()) => {}
        Err(_) => return Err(SessionFault::Sink),
    }
    match reader.data(p, &mut bytes, size as u64) {
        Ok(()) => {}
        Err(fault) => return Err(SessionFault::from(fault)),
    }
    match tell_reply(p, b"OKAY") {
        Ok(()) => {}
        Err(_) => return Err(SessionFault::Sink),
    }
    let KeptDevice { device, staged: _ } = kept;
    Ok(KeptDevice {
        device,
        staged: Some(bytes),
    })
}

/// Whether the session ends behind what a packet asks for.
pub(crate) fn is_last(request: &Result<Request<'_>, BadCommand>) -> bool
    ensures { result ≡ is_last (asked_in request.now) }
{
    matches!(request, Ok(Request::BootAndEnd))
}

/// Answers what a packet asks for, with the data that it brings. Where the device that is kept is
/// that of the disk and nothing is pending, in each outcome since some front of the reply is told
/// and the disk is in one of the item's steps, and where the whole reply is told, in the last of
/// them.
#[tactic(auto, using(crate::proofs::Changing::on_ok))]
pub(crate) fn answer<P: Port>(
    alloc: Global,
    p: &mut P,
    reader: &mut Reader,
    kept: KeptDevice,
    request: Result<Request<'_>, BadCommand>,
) -> Result<KeptDevice, SessionFault>
    requires place { stands_at reader.old ≡ Length }
    requires fed { IsFed reader.old }
    requires device { IsDevice kept.device (P.size p.old) }
    requires stands { P.is_modelled → Represents kept.device (P.size p.old) (P.seen p.old) }
    ensures size { P.size p.new ≡ P.size p.old }
    ensures place { OnOk result (stands_at reader.new ≡ Length) }
    ensures fed { OnOk result (IsFed reader.new) }
    ensures room { OnOk result (room_of reader.new ≤ room_of reader.old) }
    ensures count { P.is_modelled → OnOk result
        (total_of reader.new (P.input_left p.new) ≡ total_of reader.old (P.input_left p.old)) }
    ensures beyond { P.is_modelled → OnOk result
        (beyond_of reader.new (P.input_left p.new) ≡ beyond_of reader.old (P.input_left p.old)) }
    ensures most { most_of reader.new ≡ most_of reader.old }
    ensures device { IfOk result (λ k. IsDevice k.device (P.size p.old)) }
    ensures follows { IfOk result
        (λ k. FollowsBy kept.device (asks_source (asked_in request.entry) ≡ false) k.device) }
    ensures stands { P.is_modelled
        → IfOk result (λ k. Represents k.device (P.size p.old) (P.seen p.new)) }
    ensures does { P.is_modelled
        → (packet : List ℕ)
        → request_of packet ≡ asked_in request.entry
        → AnswersOrFails (P.size p.old) P.Disk (kept_on kept (P.seen p.old))
        packet
        (rest_of reader.old (P.input_left p.old))
        (rest_of reader.new (P.input_left p.new))
        (beyond_of reader.old (P.input_left p.old))
        (count_of reader.old (P.input_left p.old))
        (total_of reader.old (P.input_left p.old))
        (most_of reader.old) p.old p.new result }
    ensures changes { P.is_modelled
        → ChangesBy P.Disk kept.device (asks_source (asked_in request.entry) ≡ false) p.old p.new }
    ensures copies { P.is_modelled
        → Held result
        → HasBothCopies (P.size p.old) (P.seen p.new) }
    // What is written is what its command writes, where it changes the device.
    ensures writes { P.is_modelled
        → WritesAs P.Disk
        (IsOfAsked P.is_modelled kept.device (kept_on kept (P.seen p.old)) (P.seen p.old 4)
        (command_asked kept.device (asked_in request.entry)))
        p.old p.new }
    ensures cause { HasCause P.Disk p.old p.new result }
{
    match request {
        Ok(Request::Download(size)) => download(alloc, p, reader, kept, size),
        Ok(Request::Getvar(asked)) => {
            let mut text = ArrayVec::new();
            variable(&kept.device, &asked, &mut text);
            tell_still(p, kept, text.as_slice())
        }
        Ok(Request::Do(command)) => do_command(alloc, p, kept, &command),
        Ok(Request::MergeAll) => {
            let command = Command::Merge(left(&kept.device) + 1);
            do_command(alloc, p, kept, &command)
        }
        Ok(Request::BootAndEnd) => do_command(alloc, p, kept, &Command::Boot),
        Err(bad) => tell_still(p, kept, bad_text(bad)),
    }
}
