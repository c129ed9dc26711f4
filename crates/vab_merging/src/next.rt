//! The partition whose store the next turn takes.

ghost use Rattle.std.specs.Prelude.{◌≡◌, ◌<◌, ◌==◌, IsTrue, Some, None, option_map};
ghost use Rattle.std.specs.Prelude.{if◌then◌else◌, ◌&&◌, position};
ghost use Rattle.std.specs.Str.{bytes_eq};
ghost use Rattle.vab_names.specs.Names.{is_store};
ghost use Rattle.vab_device.specs.Kept.{parts_at, table_of_slot};
ghost use Rattle.vab_merging.specs.Turns.{has_exceptions, place_of, stores_in, first_place};
ghost use Rattle.vab_merging.specs.Turns.{next_of, part_at};

use vab_bytes::Listing;
use vab_device::{Device, Part, PartImage};
use vab_names::is_store;
use vab_tables::Table;

/// Bytes that the name of a store has behind the base name: the slot's suffix and `-cow`.
const BEHIND: usize = 6;

// Whether the store of a partition has exceptions.
fn has_exceptions(part: &Part) -> bool
    ensures { result ≡ has_exceptions part.now }
{
    match &part.image {
        PartImage::Kept => false,
        PartImage::Declared => false,
        PartImage::Written(_, view) => view.count() > 0,
    }
}

// The place of the first partition of a base name whose store has exceptions.
fn place_named(parts: &Listing<Part>, base: &[u8]) -> Option<usize>
    ensures { result
        ≡ position (λ p. bytes_eq p.name base.now && has_exceptions p) parts.now }
{
    parts
        .as_slice()
        .iter()
        .position(|p| p.name.text() == base && has_exceptions(p))
}

// The place of the partition of a store that has exceptions.
fn place_of(parts: &Listing<Part>, slot: usize, store: &[u8]) -> Option<usize>
    requires slot { slot < 2 }
    requires store { IsTrue (is_store slot store.now) }
    ensures { result ≡ place_of slot parts.now store.now }
{
    place_named(parts, &store[..store.len() - BEHIND])
}

// The same of a partition of the table, where it is a store.
fn place_by(parts: &Listing<Part>, slot: usize, name: &[u8]) -> Option<usize>
    requires { slot < 2 }
    ensures { result
        ≡ (if is_store slot name.now then place_of slot parts.now name.now else None) }
{
    if is_store(name, slot) {
        place_of(parts, slot, name)
    } else {
        None
    }
}

// That of the first store of the table that has exceptions.
fn first_place(parts: &Listing<Part>, slot: usize, table: &Table) -> Option<usize>
    requires { slot < 2 }
    ensures { result ≡ first_place slot parts.now (stores_in slot (Some table.now)) }
{
    for partition in table.partitions.as_slice() {
        if let Some(place) = place_by(parts, slot, partition.name.text()) {
            return Some(place);
        }
    }
    None
}

// The table of a slot, where it is read.
fn table_at(device: &Device, slot: usize) -> Option<&Table>
    requires { slot < 2 }
    ensures { option_map (λ t. t.now) result ≡ table_of_slot device.now slot }
{
    if slot == 0 {
        device.table_a.as_ref()
    } else {
        device.table_b.as_ref()
    }
}

/// The place of the partition whose store the next turn takes: that of the first store, in the
/// order of the table, that has exceptions.
pub(crate) fn next_place(device: &Device) -> Option<usize>
    requires { device.now.mark.slot < 2 }
    ensures { result ≡ next_of device.now }
{
    let slot = device.mark.slot;
    match device.images(slot) {
        None => None,
        Some(parts) => match table_at(device, slot) {
            None => None,
            Some(table) => first_place(parts, slot, table),
        },
    }
}

// Whether the store of the partition at a place has exceptions.
fn has_more(device: &Device, place: usize) -> bool
    requires { device.now.mark.slot < 2 }
    ensures { result ≡ has_exceptions (part_at device.now place) }
{
    match device.images(device.mark.slot) {
        None => false,
        Some(parts) => match parts.as_slice().get(place) {
            None => false,
            Some(part) => has_exceptions(part),
        },
    }
}

/// The same behind a run in the store of the partition at a place: that place until its store has
/// no exception any more.
pub(crate) fn next_behind(device: &Device, place: usize) -> Option<usize>
    requires slot { device.now.mark.slot < 2 }
    requires same { IsTrue (has_exceptions (part_at device.now place))
        → next_of device.now ≡ Some place }
    ensures { result ≡ next_of device.now }
{
    if has_more(device, place) {
        Some(place)
    } else {
        next_place(device)
    }
}
