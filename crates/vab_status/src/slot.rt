//! What is told of a slot.
ghost use Rattle.std.specs.Prelude.{◌≡◌, ◌++◌, ℕ, map, OnOk};
ghost use Rattle.std.specs.List.{flat_map};
ghost use Rattle.vab_device.specs.Kept.{ArePresent};
ghost use Rattle.vab_status.specs.Kept as kept;

use crate::line::{image_line, none_line, slot_line};
use crate::order::by_name;
use crate::page::push_line;
use std::alloc::Global;
use vab_bootctl::Info;
use vab_bytes::Listing;
use vab_device::Part;
use vab_model::NoMemory;

// The lines of images, in this order.
fn push_images(slot: usize, parts: &[&Part], page: &mut Vec<u8>) -> Result<(), NoMemory>
    requires { kept.AreSmall (map (λ p. p.now) parts.now) }
    ensures { OnOk result (page.new.items
        ≡ page.old.items ++ flat_map (kept.image_line slot) (map (λ p. p.now) parts.now)) }
{
    for part in parts {
        push_line(&image_line(slot, part), page)?;
    }
    Ok(())
}

/// The lines of a slot with these partitions, of which boot control says this.
pub(crate) fn push_slot(
    alloc: Global,
    slot: usize,
    info: Info,
    parts: &Option<Listing<Part>>,
    page: &mut Vec<u8>,
) -> Result<(), NoMemory>
    requires { (size : ℕ) × ArePresent size parts.now }
    ensures { OnOk result
        (page.new.items ≡ page.old.items ++ kept.slot_page slot info parts.now) }
{
    match parts {
        None => push_line(&none_line(slot), page),
        Some(parts) => {
            push_line(&slot_line(slot, parts.len(), info), page)?;
            push_images(slot, &by_name(alloc, parts.as_slice())?, page)
        }
    }
}
