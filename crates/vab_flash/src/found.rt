//! Which chunks of an image differ from the source's partition.

ghost use Rattle.std.specs.Prelude.{◌≡◌, ◌≤◌, ◌<◌, ◌^◌, [], length, unwrap_or, IfOk, IfSome};
ghost use Rattle.std.specs.Option.{option_copied};
ghost use Rattle.vab_disk.specs.Calls.{OnlyReads, FailsWithDisk};
ghost use Rattle.vab_space.specs.Chunks.{chunks_for};
ghost use Rattle.vab_store.specs.Layout.{IsOnDisk};
ghost use Rattle.vab_install.specs.Differing.{AscendsBelow};
ghost use Rattle.vab_flash.specs.Chosen.{base_of_place, differing_at};
ghost use Rattle.vab_flash.specs.Chosen.{blocks_or, store_long};
ghost use Rattle.vab_flash.specs.Place.{plan_or, planned_at};

use crate::chosen::{part_at, planned_at};
use std::alloc::Global;
use vab_device::{Device, Part};
use vab_disk::Disk;
use vab_gate::DiskFault;
use vab_install::{Differing, list_differing};
use vab_linear::Map;
use vab_space::Chunk;

// The blocks of a partition, where it is there.
fn map_of(part: Option<&Part>) -> Option<&Map>
    ensures { unwrap_or (option_copied result) [] ≡ blocks_or (option_copied part.entry) }
{
    match part {
        Some(part) => Some(&part.map),
        None => None,
    }
}

/// How many blocks the store of a planned partition has; none, where it has no store.
pub fn store_blocks(device: &Device, place: usize) -> u64
    requires { place < length (plan_or device.now.plan) }
    ensures { result ≡ store_long device.now place }
{
    match &planned_at(device, place).store {
        Some(store) => store.len(),
        None => 0,
    }
}

/// The chunks of an image that differ from the source's partition of the planned one at a place,
/// which may not be there. They are listed where they are no more than the store's blocks.
pub fn find_differing<D: Disk>(
    alloc: Global,
    d: &mut D,
    device: &Device,
    place: usize,
    staged: &[u8],
    chunk: Chunk,
) -> Result<Differing, DiskFault>
    requires slot { device.now.mark.slot < 2 }
    requires place { place < length (plan_or device.now.plan) }
    requires on_disk { IsOnDisk (base_of_place device.now place) (D.size d.old) }
    requires small { length (planned_at device.now place).map ≤ 2 ^ 28 }
    ensures count { D.is_modelled → IfOk result
        (λ f. f.count ≡ length (differing_at chunk device.now place (D.seen d.old) staged.now)) }
    ensures most { IfOk result (λ f. f.count ≤ 2 ^ 28) }
    ensures exact { D.is_modelled → IfOk result
        (λ f. IfSome f.chunks
        (λ v. v.items ≡ differing_at chunk device.now place (D.seen d.old) staged.now)) }
    ensures lists { IfOk result
        (λ f. IfSome f.chunks
        (λ v. AscendsBelow (chunks_for chunk (length (planned_at device.now place).map))
        (store_long device.now place) f.count v.items)) }
    ensures reads { OnlyReads D.Disk d.old d.new }
    ensures faults { FailsWithDisk D.Disk d.old d.new result }
{
    let entry = planned_at(device, place);
    let base = map_of(part_at(device, device.mark.slot, entry.name.text()));
    let most = store_blocks(device, place);
    list_differing(alloc, d, base, staged, entry.map.len(), chunk, most)
}
