//! Partitions and groups by their names.

ghost use Rattle.std.specs.Prelude.{◌≡◌, ◌≤◌, ◌<◌, ◌^◌, ◌++◌, [], length, position, take, drop};
ghost use Rattle.std.specs.Prelude.{MatchOption, OnOk};
ghost use Rattle.std.specs.List.{list_any};
ghost use Rattle.std.specs.Str.{bytes_eq};
ghost use Rattle.vab_layout.specs.Slots.{blocks_named, before_of};

use vab_blocks::Blocks;
use vab_bytes::Name36;
use vab_layout::Part;
use vab_names::in_slot;
use vab_tables::{Group, NoMemory};

/// The index of the first partition of this name.
pub(crate) fn place_of(name: &[u8], parts: &[Part]) -> Option<usize>
    ensures { result ≡ position (λ p. bytes_eq p.name name.now) parts.now }
{
    parts.iter().position(|part| part.name.text() == name)
}

/// The first partition of this name.
pub(crate) fn find_part<'a>(name: &[u8], parts: &'a [Part]) -> Option<&'a Part>
    ensures { MatchOption result (blocks_named name.now parts.now ≡ [])
        (λ p. (p.now).blocks ≡ blocks_named name.now parts.now) }
{
    for part in parts {
        if part.name.text() == name {
            return Some(part);
        }
    }
    None
}

/// How many blocks the first partition of this name has; 0 where there is no such partition.
pub(crate) fn count_part(name: &[u8], parts: &[Part]) -> u64
    requires { length (blocks_named name.now parts.now) < 2 ^ 64 }
    ensures { result ≡ length (blocks_named name.now parts.now) }
{
    match find_part(name, parts) {
        Some(part) => part.blocks.len(),
        None => 0,
    }
}

/// Writes blocks of the first partition of this name at the end, so many, from the one with the
/// index `skip` on.
pub(crate) fn push_named(
    blocks: &mut Blocks,
    name: &[u8],
    parts: &[Part],
    skip: u64,
    count: u64,
) -> Result<(), NoMemory>
    ensures { OnOk result (blocks.new
        ≡ blocks.old ++ take count (drop skip (blocks_named name.now parts.now))) }
{
    match find_part(name, parts) {
        Some(part) => blocks.append_part(&part.blocks, skip, count),
        None => Ok(()),
    }
}

/// Writes the first blocks of the twin of the same base name at the end, so many.
pub(crate) fn push_before(
    blocks: &mut Blocks,
    twins: &[Part],
    slot: usize,
    name: &Name36,
    count: u64,
) -> Result<(), NoMemory>
    requires slot { slot < 2 }
    requires long { 2 ≤ length name.now }
    ensures { OnOk result
        (blocks.new ≡ blocks.old
        ++ take count (before_of slot twins.now name.now)) }
{
    push_named(blocks, in_slot(name, 1 - slot).text(), twins, 0, count)
}

/// Whether a group of this name is among these.
pub(crate) fn has_group(groups: &[Group], name: &Name36) -> bool
    ensures { result ≡ list_any (λ g. bytes_eq g.name name.now) groups.now }
{
    groups.iter().any(|group| group.name == *name)
}
