//! The lines that verbs tell.
ghost use Rattle.std.specs.Prelude.{◌≡◌, ◌≤◌, ◌∷◌, ◌++◌, [], length, decimal};
ghost use Rattle.vab_model.specs.Commands.{command_of};
ghost use Rattle.vab_cli.specs.Installing.{installed_line};
ghost use Rattle.vab_cli.specs.Verbs as verbs;

use arrayvec::ArrayVec;
use vab_fbproto::{digits_of, put, put_decimal, put_refusal, slot_letter};
use vab_model::{Command, Refusal, Reply};

/// The line of a verb that finds no device.
pub(crate) const NOT_A_DEVICE: &[u8] = b"not a device\n";

/// The line of a disk that isn't adopted, since it is a device.
pub(crate) const ALREADY_DEVICE: &[u8] = b"refused: already a device\n";

/// A line: at most 256 bytes, with its newline.
pub(crate) type Line = ArrayVec<u8, 256>;

// Puts two texts as a line.
fn put_line(out: &mut Line, head: &[u8], tail: &[u8])
    requires room { length out.old.items ≤ 80 }
    requires short { length head.now ≤ 32 }
    requires fits { length tail.now ≤ 64 }
    ensures { out.new.items ≡ out.old.items ++ ((head.now ++ tail.now) ++ 10 ∷ []) }
{
    put(head, out);
    put(tail, out);
    put(b"\n", out);
}

/// Puts the line of a refusal.
pub(crate) fn refused_line(refusal: Refusal, out: &mut Line)
    requires { length out.old.items ≤ 80 }
    ensures { out.new.items ≡ out.old.items ++ verbs.refused_line refusal }
{
    put(b"refused: ", out);
    put_refusal(&refusal, out);
    put(b"\n", out);
}

// Puts the line of how many blocks are left to merge.
fn put_left(out: &mut Line, head: &[u8], blocks: u64)
    requires room { length out.old.items ≤ 80 }
    requires short { length head.now ≤ 32 }
    ensures { out.new.items ≡ out.old.items ++ ((head.now ++ decimal blocks) ++ 10 ∷ []) }
{
    put(head, out);
    put_decimal(blocks, out);
    put(b"\n", out);
}

/// The line of so many images that are installed, with so many blocks left to merge.
pub(crate) fn installed_line(images: u64, left: u64, out: &mut Line)
    requires { out.old.items ≡ [] }
    ensures { out.new.items ≡ installed_line images left }
{
    put(b"installed ", out);
    put_decimal(images, out);
    put(b" images, left ", out);
    put_decimal(left, out);
    put(b"\n", out);
}

// Puts the line of a command that is done.
fn done_line(command: &Command, current: usize, left: u64, out: &mut Line)
    requires { length out.old.items ≤ 80 }
    ensures { out.new.items
        ≡ out.old.items ++ verbs.done_line (command_of command.now) current left }
{
    match command {
        Command::SetActive(slot) => put_line(out, b"active ", slot_letter(*slot)),
        Command::Mark => put_line(out, b"marked ", slot_letter(current)),
        Command::Cancel => put_line(out, b"cancelled", b""),
        Command::BeginMerge => put_left(out, b"merging, left ", left),
        Command::Boot
        | Command::Print(_)
        | Command::Digest(_)
        | Command::Begin
        | Command::Factory
        | Command::Create(_, _)
        | Command::Resize(_, _)
        | Command::Delete(_)
        | Command::Snapshot(_, _)
        | Command::Flash(_, _)
        | Command::Keep(_)
        | Command::Finish
        | Command::Merge(_)
        | Command::UpdateSuper
        | Command::Overlay(_, _)
        | Command::OverlayWrite(_)
        | Command::OverlayDiscard => put_line(out, b"", b""),
    }
}

/// Puts a text, where a command isn't refused.
pub(crate) fn put_front(front: &[u8], reply: &Reply, out: &mut Line)
    requires empty { out.old.items ≡ [] }
    requires short { length front.now ≤ 80 }
    ensures { out.new.items ≡ verbs.unless_refused reply.now front.now }
{
    match reply {
        Reply::Refused(_) => {}
        Reply::Done
        | Reply::Booted(_)
        | Reply::Bytes(_)
        | Reply::Digest(_)
        | Reply::Left(_)
        | Reply::Merged => put(front, out),
    }
}

/// Puts the line of the reply to a command, where this slot was the current one and so many blocks
/// were left to merge.
#[tactic(auto, unfolding(crate::specs::Verbs::reply_line))]
pub(crate) fn reply_line(
    command: &Command,
    current: usize,
    left: u64,
    reply: &Reply,
    out: &mut Line,
)
    requires { length out.old.items ≤ 80 }
    ensures { out.new.items
        ≡ out.old.items ++ verbs.reply_line (command_of command.now) current left reply.now }
{
    match reply {
        Reply::Done => done_line(command, current, left, out),
        Reply::Booted(slot) => put_line(out, b"booted ", slot_letter(*slot)),
        Reply::Bytes(_) => put_line(out, b"", b""),
        Reply::Digest(sum) => put_line(out, b"", &digits_of(sum)),
        Reply::Left(blocks) => put_left(out, b"left ", *blocks),
        Reply::Merged => put_line(out, b"merged", b""),
        Reply::Refused(refusal) => refused_line(*refusal, out),
    }
}
