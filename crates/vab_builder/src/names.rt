//! The name that an edit gives, and the sizes that it may ask for.

ghost use Rattle.std.specs.Prelude.{◌≡◌, ◌↔◌, ◌<◌, ◌≤◌, ◌^◌, length, true, IfSome, IsSome};
ghost use Rattle.std.specs.Prelude.{IsTrue};
ghost use Rattle.vab_names.specs.Names.{is_full, store_of};
ghost use Rattle.vab_layout.specs.Layout.{layout_of};
ghost use Rattle.vab_builder.specs.Passes.{store_size};
ghost use Rattle.vab_builder.specs.Sizes.{has_part};

use crate::counts::has_part;
use vab_bytes::Name36;
use vab_names::{is_full, store_of};
use vab_space::blocks;
use vab_tables::Table;

/// The most bytes of a partition or a store.
pub(crate) const MAX_BYTES: u64 = 1 << 40;

/// The name, if it is a base name and the slot's suffix.
#[tactic(auto, using(vab_names::proofs::NameCases::full_named))]
pub(crate) fn full_name(name: &[u8], slot: usize) -> Option<Name36>
    requires { slot < 2 }
    ensures value { IfSome result (λ n. n ≡ name.now) }
    ensures exact { IsSome result ↔ IsTrue (is_full slot name.now) }
{
    if is_full(name, slot) {
        Name36::parse(name).ok()
    } else {
        None
    }
}

/// The name of an edit that was judged: a base name and the slot's suffix.
pub(crate) fn judged_name(name: &[u8], slot: usize) -> Name36
    requires slot { slot < 2 }
    requires full { is_full slot name.now ≡ true }
    ensures { result ≡ name.now }
{
    match full_name(name, slot) {
        Some(name) => name,
        None => unreachable!(),
    }
}

/// Whether the partition of this name has a store.
pub(crate) fn has_store(name: &Name36, table: &Table) -> bool
    requires { length name.now ≤ 32 }
    ensures { result ≡ has_part (store_of name.now) (layout_of table.now).parts }
{
    has_part(store_of(name).text(), table)
}

/// Whether a store may have so many bytes: 0, or more than a block.
pub(crate) fn is_store_size(bytes: u64) -> bool
    ensures { result ≡ store_size bytes }
{
    bytes <= MAX_BYTES && (bytes == 0 || blocks(bytes) > 1)
}
