//! The blocks that an update or a store may still take.

ghost use Rattle.std.specs.Prelude.{◌≡◌, ◌<◌, ◌++◌, IfOk, OnOk};
ghost use Rattle.vab_tables.specs.Rules.{cap_of};
ghost use Rattle.vab_blocks.specs.Blocks.{free_below};
ghost use Rattle.vab_layout.specs.Layout.{blocks_of_parts};
ghost use Rattle.vab_layout.specs.Slots.{other_slot, own_parts, store_parts};
ghost use Rattle.vab_builder.specs.Edits.{free_of};
ghost use Rattle.vab_builder.specs.Overlay.{free_beside};

use std::alloc::Global;
use vab_blocks::{Blocks, Runs};
use vab_layout::{Layout, Part};
use vab_names::{is_of_slot, is_store};
use vab_tables::{BlockDevice, NoMemory};

/// The blocks that are in no partition of the source, and in no partition and no store of the
/// target.
pub(crate) fn free_blocks(
    alloc: Global,
    source: &Layout,
    target: &Layout,
    slot: usize,
) -> Result<Runs, NoMemory>
    requires { slot < 2 }
    ensures { IfOk result (λ r. r ≡ free_of slot source.now target.now) }
{
    let taken = taken(alloc, source, target, slot)?;
    free_below(alloc, &target.device, &taken)
}

/// The blocks that are in none of the slot's own partitions.
pub(crate) fn free_beside(alloc: Global, layout: &Layout, slot: usize) -> Result<Runs, NoMemory>
    requires { slot < 2 }
    ensures { IfOk result (λ r. r ≡ free_beside slot layout.now) }
{
    let mut taken = Blocks::new(alloc);
    push_own(&mut taken, layout.parts.as_slice(), slot)?;
    free_below(alloc, &layout.device, &taken)
}

// The blocks of the device that are not taken.
fn free_below(alloc: Global, device: &BlockDevice, taken: &Blocks) -> Result<Runs, NoMemory>
    ensures { IfOk result (λ r. r ≡ free_below (cap_of device.now) taken.now) }
{
    let taken = Runs::sorted(alloc, taken)?;
    Runs::free(alloc, device.cap(), &taken)
}

// The blocks of the source, and those of the target and of its stores.
fn taken(alloc: Global, source: &Layout, target: &Layout, slot: usize) -> Result<Blocks, NoMemory>
    requires { slot < 2 }
    ensures { IfOk result (λ b. b
        ≡ blocks_of_parts (own_parts (other_slot slot) (source.now).parts)
        ++ blocks_of_parts
        (own_parts slot (target.now).parts ++ store_parts slot (target.now).parts)) }
{
    let mut blocks = Blocks::new(alloc);
    push_own(&mut blocks, source.parts.as_slice(), 1 - slot)?;
    push_own(&mut blocks, target.parts.as_slice(), slot)?;
    push_stores(&mut blocks, target.parts.as_slice(), slot)?;
    Ok(blocks)
}

// Writes the blocks of the slot's partitions at the end.
fn push_own(blocks: &mut Blocks, parts: &[Part], slot: usize) -> Result<(), NoMemory>
    requires { slot < 2 }
    ensures { OnOk result (blocks.new ≡ blocks.old ++ blocks_of_parts (own_parts slot parts.now)) }
{
    for part in parts {
        if is_of_slot(part.name.text(), slot) {
            blocks.append(&part.blocks)?;
        }
    }
    Ok(())
}

// Writes the blocks of the slot's stores at the end.
fn push_stores(blocks: &mut Blocks, parts: &[Part], slot: usize) -> Result<(), NoMemory>
    requires { slot < 2 }
    ensures { OnOk result
        (blocks.new ≡ blocks.old
        ++ blocks_of_parts (store_parts slot parts.now)) }
{
    for part in parts {
        if is_store(part.name.text(), slot) {
            blocks.append(&part.blocks)?;
        }
    }
    Ok(())
}
