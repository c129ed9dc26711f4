//! The variables.
ghost use Rattle.std.specs.Prelude.{◌≡◌, ◌≤◌, ◌++◌, ℕ, [], length, codes, decimal};
ghost use Rattle.vab_disk.specs.Disk.{Image};
ghost use Rattle.vab_device.specs.Kept.{IsDevice};
ghost use Rattle.vab_device.specs.Mounted.{state_on};
ghost use Rattle.vab_fbproto.specs.Requests.{variable_of};
ghost use Rattle.vab_fbproto.specs.Texts.{slot_letter as letter_of};
ghost use Rattle.vab_fbvars.specs.Variables.{AreSectors, yes_or_no, size_text, status_of};
ghost use Rattle.vab_fbvars.specs.Variables.{variable_text};

use crate::images::{has_base, size_of};
use crate::put_hexadecimal;
use crate::slots::{is_successful, is_unbootable, slot_info, tries_left};
use arrayvec::ArrayVec;
use vab_device::{Device, PhaseKind};
use vab_fbproto::{Var, put, put_decimal, slot_letter};

// `yes` or `no`.
fn put_answer(yes: bool, out: &mut ArrayVec<u8, 256>)
    requires { out.old.items ≡ [] }
    ensures text { out.new.items ≡ yes_or_no yes }
    ensures short { length out.new.items ≤ 256 }
{
    if yes {
        put(b"OKAYyes", out)
    } else {
        put(b"OKAYno", out)
    }
}

// A slot's letter.
fn put_letter(slot: usize, out: &mut ArrayVec<u8, 256>)
    requires { out.old.items ≡ [] }
    ensures text { out.new.items ≡ codes "OKAY" ++ letter_of slot }
    ensures short { length out.new.items ≤ 256 }
{
    put(b"OKAY", out);
    put(slot_letter(slot), out);
}

// How many there are.
fn put_count(count: u8, out: &mut ArrayVec<u8, 256>)
    requires { out.old.items ≡ [] }
    ensures text { out.new.items ≡ codes "OKAY" ++ decimal count }
    ensures short { length out.new.items ≤ 256 }
{
    put(b"OKAY", out);
    put_decimal(count as u64, out);
}

// The size of an image, where there is one.
fn put_size(size: Option<u64>, out: &mut ArrayVec<u8, 256>)
    requires { out.old.items ≡ [] }
    ensures text { out.new.items ≡ size_text size }
    ensures short { length out.new.items ≤ 256 }
{
    match size {
        Some(size) => {
            put(b"OKAY0x", out);
            put_hexadecimal(size, out)
        }
        None => put(b"FAILunknown partition", out),
    }
}

// Whether an update is ready or merged.
fn put_status(phase: PhaseKind, out: &mut ArrayVec<u8, 256>)
    requires { out.old.items ≡ [] }
    ensures text { out.new.items ≡ status_of phase }
    ensures short { length out.new.items ≤ 256 }
{
    match phase {
        PhaseKind::Idle => put(b"OKAYnone", out),
        PhaseKind::Installing(_) => put(b"OKAYnone", out),
        PhaseKind::Staged(_) => put(b"OKAYsnapshotted", out),
        PhaseKind::Merging(_) => put(b"OKAYmerging", out),
    }
}

/// What is told of a variable of a device: `OKAY` and its value, or `FAIL` where it isn't known or
/// its partition isn't. Nothing is read from the disk.
#[tactic(auto, unfolding(crate::specs::Variables::variable_text))]
pub fn variable(device: &Device, variable: &Var, out: &mut ArrayVec<u8, 256>)
    requires kept { (size : ℕ) × IsDevice device.now size }
    requires empty { out.old.items ≡ [] }
    ensures text { (size : ℕ) (image : Image)
        → IsDevice device.now size
        → AreSectors size image
        → out.new.items ≡ variable_text (state_on device.now image) (variable_of variable.now) }
    ensures short { length out.new.items ≤ 256 }
{
    match variable {
        Var::Version => put(b"OKAY0.4", out),
        Var::CurrentSlot => put_letter(device.current(), out),
        Var::SlotCount => put(b"OKAY2", out),
        Var::MaxDownloadSize => put(b"OKAY0x10000000", out),
        Var::HasSlot(base) => put_answer(has_base(device, base), out),
        Var::SlotSuccessful(slot) => put_answer(is_successful(slot_info(device, *slot)), out),
        Var::SlotUnbootable(slot) => put_answer(is_unbootable(slot_info(device, *slot)), out),
        Var::SlotRetryCount(slot) => put_count(tries_left(slot_info(device, *slot)), out),
        Var::PartitionSize(name) => put_size(size_of(device, name), out),
        Var::IsLogical(name) => put_answer(size_of(device, name).is_some(), out),
        Var::SnapshotUpdateStatus => put_status(device.phase(), out),
        Var::Unknown => put(b"FAILunknown variable", out),
    }
}
