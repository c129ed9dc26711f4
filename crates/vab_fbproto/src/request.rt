//! What a packet asks for.
ghost use Rattle.std.specs.Prelude.{◌≡◌, ◌≤◌, ◌<◌, length, MatchResult, Ok, Err, option_map};
ghost use Rattle.vab_fbproto.specs.Requests.{asked_of, plain, argued_variable, asked_variable};
ghost use Rattle.vab_fbproto.specs.Requests.{update_action, super_action, asked_overlay};
ghost use Rattle.vab_fbproto.specs.Requests.{asked_oem, asked_update, request_of};

use crate::argument::{
    blank_argument, chunk_argument, colon_argument, count_argument, length_argument, name_argument,
    no_argument, number_argument, slot_argument,
};
use crate::word::{split_at_colon, split_packet};
use vab_model::Command;
use vab_space::Chunk;

/// A variable that `getvar` asks for. A slot is 0 for a and 1 for b.
#[derive(Clone, Copy, Debug)]
pub enum Var<'a> {
    /// The protocol's version.
    Version,
    /// The slot that was booted last.
    CurrentSlot,
    /// How many slots there are.
    SlotCount,
    /// The most bytes of a download.
    MaxDownloadSize,
    /// Whether a slot has an image of this base name.
    HasSlot(&'a [u8]),
    /// Whether the slot is marked as one that works.
    SlotSuccessful(usize),
    /// Whether the slot can't be booted.
    SlotUnbootable(usize),
    /// How many tries a slot has left.
    SlotRetryCount(usize),
    /// How many bytes the image of this name has.
    PartitionSize(&'a [u8]),
    /// Whether there is an image of this name.
    IsLogical(&'a [u8]),
    /// Where an update stands.
    SnapshotUpdateStatus,
    /// A variable that isn't known.
    Unknown,
}

/// What a packet asks for.
#[derive(Clone, Copy, Debug)]
pub enum Request<'a> {
    /// A variable.
    Getvar(Var<'a>),
    /// To take so many bytes of data, the most that eight hexadecimal digits spell.
    Download(u32),
    /// A command.
    Do(Command<'a>),
    /// To merge all that is left, and to end the merge.
    MergeAll,
    /// A boot, behind which the session ends.
    BootAndEnd,
}

/// Why a packet asks for nothing.
#[derive(Clone, Copy, Debug, PartialEq, Eq)]
pub enum BadCommand {
    /// Its word isn't known.
    Unknown,
    /// Its word is known, and what stands behind it isn't such a word's.
    BadArgument,
}

// A request of a word without an argument.
fn plain<'a>(rest: Option<&[u8]>, request: Request<'a>) -> Result<Request<'a>, BadCommand>
    ensures { let text = option_map (λ r. r.now) rest.entry in
        MatchResult result
        (λ r. plain text (asked_of request.entry) ≡ Ok (asked_of r))
        (λ e. plain text (asked_of request.entry) ≡ Err e) }
{
    match no_argument(rest) {
        Ok(()) => Ok(request),
        Err(bad) => Err(bad),
    }
}

// A variable of a slot or a name.
#[tactic(auto, unfolding(crate::specs::Requests::argued_variable))]
fn argued_variable<'a>(word: &[u8], rest: Option<&'a [u8]>) -> Result<Request<'a>, BadCommand>
    ensures { let text = option_map (λ r. r.now) rest.entry in
        MatchResult result
        (λ r. argued_variable word.now text ≡ Ok (asked_of r))
        (λ e. argued_variable word.now text ≡ Err e) }
{
    if word == b"has-slot".as_slice() {
        Ok(Request::Getvar(Var::HasSlot(name_argument(rest)?)))
    } else if word == b"slot-successful".as_slice() {
        Ok(Request::Getvar(Var::SlotSuccessful(slot_argument(rest)?)))
    } else if word == b"slot-unbootable".as_slice() {
        Ok(Request::Getvar(Var::SlotUnbootable(slot_argument(rest)?)))
    } else if word == b"slot-retry-count".as_slice() {
        Ok(Request::Getvar(Var::SlotRetryCount(slot_argument(rest)?)))
    } else if word == b"partition-size".as_slice() {
        Ok(Request::Getvar(Var::PartitionSize(name_argument(rest)?)))
    } else if word == b"is-logical".as_slice() {
        Ok(Request::Getvar(Var::IsLogical(name_argument(rest)?)))
    } else {
        Ok(Request::Getvar(Var::Unknown))
    }
}

// `getvar:VAR`.
#[tactic(auto, unfolding(crate::specs::Requests::asked_variable))]
fn read_variable(rest: Option<&[u8]>) -> Result<Request<'_>, BadCommand>
    ensures { let text = option_map (λ r. r.now) rest.entry in
        MatchResult result
        (λ r. asked_variable text ≡ Ok (asked_of r))
        (λ e. asked_variable text ≡ Err e) }
{
    let (word, rest) = split_at_colon(rest.ok_or(BadCommand::BadArgument)?);
    if word == b"version".as_slice() {
        plain(rest, Request::Getvar(Var::Version))
    } else if word == b"current-slot".as_slice() {
        plain(rest, Request::Getvar(Var::CurrentSlot))
    } else if word == b"slot-count".as_slice() {
        plain(rest, Request::Getvar(Var::SlotCount))
    } else if word == b"max-download-size".as_slice() {
        plain(rest, Request::Getvar(Var::MaxDownloadSize))
    } else if word == b"snapshot-update-status".as_slice() {
        plain(rest, Request::Getvar(Var::SnapshotUpdateStatus))
    } else {
        argued_variable(word, rest)
    }
}

// `snapshot-update:cancel` and `snapshot-update:merge`.
#[tactic(auto, unfolding(crate::specs::Requests::update_action))]
fn read_action<'a>(rest: Option<&[u8]>) -> Result<Request<'a>, BadCommand>
    ensures { let text = option_map (λ r. r.now) rest.entry in
        MatchResult result
        (λ r. update_action text ≡ Ok (asked_of r))
        (λ e. update_action text ≡ Err e) }
{
    let action = rest.ok_or(BadCommand::BadArgument)?;
    if action == b"cancel".as_slice() {
        Ok(Request::Do(Command::Cancel))
    } else if action == b"merge".as_slice() {
        Ok(Request::MergeAll)
    } else {
        Err(BadCommand::BadArgument)
    }
}

// `update-super:super:wipe`.
#[tactic(auto, unfolding(crate::specs::Requests::super_action))]
fn read_super_action<'a>(rest: Option<&[u8]>) -> Result<Request<'a>, BadCommand>
    ensures { let text = option_map (λ r. r.now) rest.entry in
        MatchResult result
        (λ r. super_action text ≡ Ok (asked_of r))
        (λ e. super_action text ≡ Err e) }
{
    let action = rest.ok_or(BadCommand::BadArgument)?;
    if action == b"super:wipe".as_slice() {
        Ok(Request::Do(Command::UpdateSuper))
    } else {
        Err(BadCommand::BadArgument)
    }
}

// The words of an overlay, behind `oem`.
#[tactic(auto, unfolding(crate::specs::Requests::asked_overlay))]
fn read_overlay<'a>(word: &[u8], rest: Option<&'a [u8]>) -> Result<Request<'a>, BadCommand>
    ensures { let text = option_map (λ r. r.now) rest.entry in
        MatchResult result
        (λ r. asked_overlay word.now text ≡ Ok (asked_of r))
        (λ e. asked_overlay word.now text ≡ Err e) }
{
    if word == b"oem overlay".as_slice() {
        let (name, store) = blank_argument(rest)?;
        Ok(Request::Do(Command::Overlay(name, store)))
    } else if word == b"oem overlay-write".as_slice() {
        Ok(Request::Do(Command::OverlayWrite(number_argument(rest)?)))
    } else if word == b"oem overlay-discard".as_slice() {
        plain(rest, Request::Do(Command::OverlayDiscard))
    } else {
        Err(BadCommand::Unknown)
    }
}

// The words behind `oem`.
#[tactic(auto, unfolding(crate::specs::Requests::asked_oem))]
fn read_oem<'a>(word: &[u8], rest: Option<&'a [u8]>) -> Result<Request<'a>, BadCommand>
    ensures { let text = option_map (λ r. r.now) rest.entry in
        MatchResult result
        (λ r. asked_oem word.now text ≡ Ok (asked_of r))
        (λ e. asked_oem word.now text ≡ Err e) }
{
    if word == b"oem boot".as_slice() {
        plain(rest, Request::Do(Command::Boot))
    } else if word == b"oem mark-successful".as_slice() {
        plain(rest, Request::Do(Command::Mark))
    } else if word == b"oem finish".as_slice() {
        plain(rest, Request::Do(Command::Finish))
    } else if word == b"oem begin".as_slice() {
        plain(rest, Request::Do(Command::Begin))
    } else if word == b"oem factory".as_slice() {
        plain(rest, Request::Do(Command::Factory))
    } else if word == b"oem begin-merge".as_slice() {
        plain(rest, Request::Do(Command::BeginMerge))
    } else if word == b"oem merge".as_slice() {
        Ok(Request::Do(Command::Merge(count_argument(rest)?)))
    } else if word == b"oem snapshot".as_slice() {
        let (name, size) = blank_argument(rest)?;
        Ok(Request::Do(Command::Snapshot(name, size)))
    } else if word == b"oem flash".as_slice() {
        let (name, chunk) = chunk_argument(rest)?;
        Ok(Request::Do(Command::Flash(name, chunk)))
    } else if word == b"oem keep".as_slice() {
        Ok(Request::Do(Command::Keep(name_argument(rest)?)))
    } else if word == b"oem digest".as_slice() {
        Ok(Request::Do(Command::Digest(name_argument(rest)?)))
    } else {
        read_overlay(word, rest)
    }
}

// The words of an update.
#[tactic(auto, unfolding(crate::specs::Requests::asked_update))]
fn read_update<'a>(word: &[u8], rest: Option<&'a [u8]>) -> Result<Request<'a>, BadCommand>
    ensures { let text = option_map (λ r. r.now) rest.entry in
        MatchResult result
        (λ r. asked_update word.now text ≡ Ok (asked_of r))
        (λ e. asked_update word.now text ≡ Err e) }
{
    if word == b"create-logical-partition".as_slice() {
        let (name, size) = colon_argument(rest)?;
        Ok(Request::Do(Command::Create(name, size)))
    } else if word == b"resize-logical-partition".as_slice() {
        let (name, size) = colon_argument(rest)?;
        Ok(Request::Do(Command::Resize(name, size)))
    } else if word == b"delete-logical-partition".as_slice() {
        Ok(Request::Do(Command::Delete(name_argument(rest)?)))
    } else if word == b"flash".as_slice() {
        let name = name_argument(rest)?;
        Ok(Request::Do(Command::Flash(name, Chunk::One)))
    } else if word == b"snapshot-update".as_slice() {
        read_action(rest)
    } else if word == b"update-super".as_slice() {
        read_super_action(rest)
    } else {
        read_oem(word, rest)
    }
}

/// What a packet asks for. Its word is what stands before its first colon, or, where it begins with
/// `oem` and a blank, before its second blank; `BadArgument` comes where the word is known and what
/// stands behind it isn't such a word's.
#[tactic(auto, unfolding(crate::specs::Requests::request_of))]
pub fn read_command(packet: &[u8]) -> Result<Request<'_>, BadCommand>
    ensures { MatchResult result
        (λ r. request_of packet.now ≡ Ok (asked_of r))
        (λ e. request_of packet.now ≡ Err e) }
{
    let (word, rest) = split_packet(packet);
    if word == b"getvar".as_slice() {
        read_variable(rest)
    } else if word == b"download".as_slice() {
        Ok(Request::Download(length_argument(rest)?))
    } else if word == b"set_active".as_slice() {
        Ok(Request::Do(Command::SetActive(slot_argument(rest)?)))
    } else if word == b"reboot".as_slice() || word == b"continue".as_slice() {
        plain(rest, Request::BootAndEnd)
    } else {
        read_update(word, rest)
    }
}
