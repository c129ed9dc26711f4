//! An exception store for a partition.

ghost use Rattle.std.specs.Prelude.{◌≡◌, ◌≤◌, ◌<◌, ◌^◌, ◌++◌, ◌∷◌, [], ◌==◌, length, true, IfOk};
ghost use Rattle.std.specs.Prelude.{if◌then◌else◌};
ghost use Rattle.vab_names.specs.Names.{is_full, store_of, store_group_name};
ghost use Rattle.vab_space.specs.Space.{need_of, blocks_of};
ghost use Rattle.vab_tables.specs.Rules.{NamesDiffer};
ghost use Rattle.vab_layout.specs.Layout.{layout_of};
ghost use Rattle.vab_layout.specs.Slots.{twins_by, IsOwn};
ghost use Rattle.vab_builder.specs.Import.{stores_group};
ghost use Rattle.vab_builder.specs.Edits.{changed, free_of, store_blocks, stored, updated};
ghost use Rattle.vab_builder.specs.Edits.{with_group, with_store};
ghost use Rattle.vab_builder.specs.Judged.{AreTables, Judges};

use crate::counts::{count_named, has_part};
use crate::fault::EditFault;
use crate::find::count_part;
use crate::names::{full_name, has_store, is_store_size, judged_name};
use crate::parts::{mark_updated, push_free, with_group};
use crate::room::{capacity, in_use};
use crate::wanted::Change;
use std::alloc::Global;
use vab_blocks::Blocks;
use vab_bytes::{Listing, Name36};
use vab_layout::{Layout, Part};
use vab_names::{store_group, store_of};
use vab_space::{blocks, fits, need};
use vab_tables::{NoMemory, Table};

// Blocks of a store of so many bytes for a partition of so many blocks; 0 bytes are as many blocks
// as all of them may need.
fn store_blocks(count: u64, bytes: u64) -> u64
    requires { count ≤ 2 ^ 28 }
    ensures { result ≡ (if bytes == 0 then need_of count else blocks_of bytes) }
{
    if bytes == 0 {
        need(count)
    } else {
        blocks(bytes)
    }
}

/// The first refusal of an exception store for a partition.
pub(crate) fn store_fault(
    source: &Table,
    target: &Table,
    slot: usize,
    name: &[u8],
    bytes: u64,
    apart: bool,
) -> Option<EditFault>
    requires { AreTables slot apart source.now target.now }
    ensures { Judges result
        (stored slot (twins_by apart (layout_of source.now).parts)
        (layout_of source.now) (layout_of target.now) name.now bytes) }
{
    let Some(name) = full_name(name, slot) else {
        return Some(EditFault::BadName);
    };
    if !is_store_size(bytes) {
        return Some(EditFault::BadSize);
    }
    if !has_part(name.text(), target) {
        return Some(EditFault::Unknown);
    }
    if has_store(&name, target) {
        return Some(EditFault::HasStore);
    }
    let count = store_blocks(count_named(name.text(), target), bytes);
    let used = in_use(
        source,
        target,
        slot,
        &Change::Store(name.text(), count),
        apart,
    );
    let cap = capacity(target);
    if !fits(used, cap) {
        return Some(EditFault::NoRoom(used, cap));
    }
    None
}

/// The target with an exception store for a partition, for which the edit was judged. `NoMemory`
/// where memory is refused.
pub(crate) fn add_store(
    alloc: Global,
    source: &Layout,
    target: Layout,
    slot: usize,
    name: &[u8],
    bytes: u64,
) -> Result<Layout, NoMemory>
    requires slot { slot < 2 }
    requires own { IsOwn slot target.parts }
    requires differ { NamesDiffer (λ p. p.name) target.parts }
    requires full { is_full slot name.now ≡ true }
    requires room { store_blocks target name.now bytes
        ≤ length (free_of slot source.now target) }
    ensures { IfOk result (λ l. l
        ≡ with_store slot source.now target name.now (store_blocks target name.now bytes)) }
{
    let name = judged_name(name, slot);
    let blocks = count_part(name.text(), target.parts.as_slice());
    let count = store_blocks(blocks, bytes);
    let mut fresh = Blocks::new(alloc);
    push_free(alloc, &mut fresh, source, &target, slot, count)?;
    with_store(target, &name, fresh)
}

// The target with a store of these blocks at the end, in the stores' group, its partition marked as
// updated.
fn with_store(target: Layout, name: &Name36, blocks: Blocks) -> Result<Layout, NoMemory>
    requires differ { NamesDiffer (λ p. p.name) target.parts }
    requires short { length name.now ≤ 32 }
    ensures { IfOk result
        (λ l. l
        ≡ record target {
          parts =
              changed name.now updated target.parts
              ++ record {
                name = store_of name.now;
                attributes = 0;
                group = store_group_name;
                blocks =
                    blocks;
              } ∷ [];
          groups = with_group stores_group target.groups;
        }) }
{
    let Layout {
        parts,
        groups,
        device,
        flags,
    } = target;
    let mut parts = parts.into_vec();
    mark_updated(&mut parts, name.text());
    parts.push(Part {
        name: store_of(name),
        attributes: 0,
        group: store_group(),
        blocks,
    })?;
    Ok(Layout {
        parts: Listing::from_vec(parts),
        groups: Listing::from_vec(with_group(groups.into_vec(), store_group())?),
        device,
        flags,
    })
}
