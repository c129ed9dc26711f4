//! The facts of the page of `status`, a line for each.

ghost use Rattle.std.specs.Prelude.{◌≡◌, ◌++◌, ◌*◌, ◌^◌, ◌≤◌, ℕ, length, IfOk, OnOk};
ghost use Rattle.std.specs.List.{flat_map};
ghost use Rattle.vab_device.specs.Kept.{ArePresent, IsDevice};
ghost use Rattle.vab_status.specs.Kept as kept;
ghost use Rattle.vab_status.specs.Page.{yes_or_no};
ghost use Rattle.vab_look.specs.Facts as texts;

use crate::copies::begin_of_slot;
use crate::form::{Form, begin, end, put_counted, put_word};
use crate::line::{Line, push_line};
use std::alloc::Global;
use vab_bootctl::Info;
use vab_bytes::Listing;
use vab_device::{Device, Part, PartImage, PhaseKind};
use vab_fbproto::slot_letter;
use vab_merging::left;
use vab_model::NoMemory;
use vab_status::{bytes_of, exceptions, store_blocks};

fn phase_word(phase: PhaseKind) -> &'static [u8]
    ensures text { result.now ≡ texts.phase_word phase }
    ensures short { length result.now ≤ 10 }
{
    match phase {
        PhaseKind::Idle => b"idle",
        PhaseKind::Installing(_) => b"installing",
        PhaseKind::Staged(_) => b"staged",
        PhaseKind::Merging(_) => b"merging",
    }
}

// The fact of the whole device, where so many blocks are left to merge.
fn head_fact(form: Form, cap: u64, current: usize, phase: PhaseKind, left: u64) -> Line
    ensures { result.items ≡ texts.head_fact form cap current phase left }
{
    let mut line = begin(form, b"status");
    put_counted(form, b"cap", cap, &mut line);
    put_word(form, b"current", slot_letter(current), &mut line);
    put_word(form, b"phase", phase_word(phase), &mut line);
    put_counted(form, b"left", left, &mut line);
    end(form, &mut line);
    line
}

fn word_of(yes: bool) -> &'static [u8]
    ensures text { result.now ≡ yes_or_no yes }
    ensures short { length result.now ≤ 3 }
{
    if yes { b"yes" } else { b"no" }
}

// The fact of a slot with so many images, of which boot control says this.
fn slot_fact(form: Form, slot: usize, images: usize, info: Info) -> Line
    ensures { result.items ≡ texts.slot_fact form slot images info }
{
    let mut line = begin_of_slot(form, b"slot", slot);
    put_counted(form, b"images", images as u64, &mut line);
    put_counted(form, b"priority", u64::from(info.priority), &mut line);
    put_counted(form, b"tries", u64::from(info.tries), &mut line);
    put_word(form, b"successful", word_of(info.successful), &mut line);
    end(form, &mut line);
    line
}

// The fact of an image.
#[tactic(auto, using(vab_bytes::proofs::NameLaws::name_fits))]
fn image_fact(form: Form, slot: usize, part: &Part) -> Line
    requires { length part.now.map ≤ 2 ^ 28 }
    ensures { result.items ≡ texts.image_fact form slot part.now }
{
    let mut line = begin_of_slot(form, b"image", slot);
    put_word(form, b"name", part.name.text(), &mut line);
    put_counted(form, b"bytes", bytes_of(part), &mut line);
    end(form, &mut line);
    line
}

fn plan_word(image: &PartImage) -> &'static [u8]
    ensures text { result.now ≡ kept.plan_word image.now }
    ensures short { length result.now ≤ 8 }
{
    match image {
        PartImage::Kept => b"kept",
        PartImage::Declared => b"declared",
        PartImage::Written(_, _) => b"written",
    }
}

// The fact of a planned partition.
#[tactic(auto, using(vab_bytes::proofs::NameLaws::name_fits))]
fn plan_fact(form: Form, part: &Part) -> Line
    requires { length part.now.map ≤ 2 ^ 28 }
    ensures { result.items ≡ texts.plan_fact form part.now }
{
    let mut line = begin(form, b"plan");
    put_word(form, b"name", part.name.text(), &mut line);
    put_counted(form, b"bytes", bytes_of(part), &mut line);
    put_word(form, b"state", plan_word(&part.image), &mut line);
    end(form, &mut line);
    line
}

// The facts of images, in the order of the table.
fn push_images(form: Form, slot: usize, parts: &[Part], page: &mut Vec<u8>) -> Result<(), NoMemory>
    requires { kept.AreSmall parts.now }
    ensures { OnOk result (page.new.items
        ≡ page.old.items ++ flat_map (texts.image_fact form slot) parts.now) }
{
    for part in parts {
        push_line(&image_fact(form, slot, part), page)?;
    }
    Ok(())
}

// The facts of a slot, where it has images.
fn push_slot(
    form: Form,
    slot: usize,
    info: Info,
    parts: &Option<Listing<Part>>,
    page: &mut Vec<u8>,
) -> Result<(), NoMemory>
    requires { (size : ℕ) × ArePresent size parts.now }
    ensures { OnOk result
        (page.new.items ≡ page.old.items ++ texts.slot_facts form slot info parts.now) }
{
    match parts {
        None => Ok(()),
        Some(parts) => {
            push_line(&slot_fact(form, slot, parts.len(), info), page)?;
            push_images(form, slot, parts.as_slice(), page)
        }
    }
}

// The facts of planned partitions, in the order of the table.
fn push_planned(form: Form, parts: &[Part], page: &mut Vec<u8>) -> Result<(), NoMemory>
    requires { kept.AreSmall parts.now }
    ensures { OnOk result
        (page.new.items ≡ page.old.items ++ flat_map (texts.plan_fact form) parts.now) }
{
    for part in parts {
        push_line(&plan_fact(form, part), page)?;
    }
    Ok(())
}

// The facts of the plan, while an update is installed.
fn push_plan(form: Form, plan: &Option<Listing<Part>>, page: &mut Vec<u8>) -> Result<(), NoMemory>
    requires { (size : ℕ) × ArePresent size plan.now }
    ensures { OnOk result (page.new.items ≡ page.old.items ++ texts.plan_facts form plan.now) }
{
    match plan {
        None => Ok(()),
        Some(parts) => push_planned(form, parts.as_slice(), page),
    }
}

// The fact of a partition that is written over.
#[tactic(auto, using(vab_bytes::proofs::NameLaws::name_fits))]
fn overlay_fact(form: Form, part: &Part) -> Line
    requires { length part.now.map ≤ 2 ^ 28 }
    ensures { result.items ≡ texts.overlay_fact form part.now }
{
    let mut line = begin(form, b"overlay");
    put_word(form, b"name", part.name.text(), &mut line);
    put_counted(form, b"bytes", bytes_of(part), &mut line);
    put_counted(form, b"store", store_blocks(part), &mut line);
    put_counted(form, b"written", exceptions(part), &mut line);
    end(form, &mut line);
    line
}

// The fact of an overlay, where there is one.
fn push_overlay(form: Form, overlay: &Option<Part>, page: &mut Vec<u8>) -> Result<(), NoMemory>
    requires { kept.IsSmall overlay.now }
    ensures { OnOk result
        (page.new.items ≡ page.old.items ++ texts.overlay_facts form overlay.now) }
{
    match overlay {
        None => Ok(()),
        Some(part) => push_line(&overlay_fact(form, part), page),
    }
}

/// The facts of the page of a device.
pub(crate) fn status_facts(alloc: Global, form: Form, device: &Device) -> Result<Vec<u8>, NoMemory>
    requires { (size : ℕ) × IsDevice device.now size }
    ensures { IfOk result (λ text. text.items ≡ texts.status_facts form device.now) }
{
    let mut page = Vec::new(alloc);
    let head = head_fact(
        form,
        device.cap(),
        device.current(),
        device.phase(),
        left(device),
    );
    push_line(&head, &mut page)?;
    push_slot(form, 0, device.control.a, &device.a, &mut page)?;
    push_slot(form, 1, device.control.b, &device.b, &mut page)?;
    push_plan(form, &device.plan, &mut page)?;
    push_overlay(form, &device.overlay, &mut page)?;
    Ok(page)
}
