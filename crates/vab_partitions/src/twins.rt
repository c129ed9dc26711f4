//! Groups of both slots, and block devices, compared.

ghost use Rattle.std.specs.Prelude.{◌≡◌, ◌↔◌, ◌<◌, ◌≤◌, ◌+◌, [], ◌∷◌, length, drop, get_or, List};
ghost use Rattle.std.specs.Prelude.{ℕ, IsTrue, IfSome, IfNone, true, false};
ghost use Rattle.std.specs.Cmp.Lexicographic.{pointwise};
ghost use Rattle.vab_names.specs.Names.{is_of_slot, base_of};
ghost use Rattle.vab_tables.specs.declared.entries.Group.{Group};
ghost use Rattle.vab_layout.specs.Slots.{other_slot, groups_of_slot};
ghost use Rattle.vab_partitions.specs.Twins.{is_twin, are_twins, are_devices};

use vab_names::{base_of, is_of_slot};
use vab_tables::{Group, Table};

// Whether both have one base name and one limit.
fn is_twin(a: &Group, b: &Group) -> bool
    requires a { 2 ≤ length a.now.name }
    requires b { 2 ≤ length b.now.name }
    ensures { result
        ≡ is_twin (base_of a.now.name, a.now.maximum_size)
        (base_of b.now.name, b.now.maximum_size) }
{
    base_of(a.name.text()) == base_of(b.name.text()) && a.maximum_size == b.maximum_size
}

// Where the next group of the slot stands.
fn next_own(groups: &[Group], from: usize, slot: usize) -> Option<usize>
    requires slot { slot < 2 }
    requires from { from ≤ length groups.now }
    ensures none { IfNone result (groups_of_slot slot (drop from groups.now) ≡ []) }
    ensures within { IfSome result (λ i. i < length groups.now) }
    ensures own { IfSome result
        (λ i. (d : Group) → is_of_slot slot (get_or groups.now i d).name ≡ true) }
    ensures next { IfSome result (λ i. (d : Group)
        → groups_of_slot slot (drop from groups.now)
        ≡ (base_of (get_or groups.now i d).name, (get_or groups.now i d).maximum_size)
        ∷ groups_of_slot slot (drop (i + 1) groups.now)) }
{
    for at in from..groups.len() {
        if is_of_slot(groups[at].name.text(), slot) {
            return Some(at);
        }
    }
    None
}

// The place behind the next group of the other slot, where that is this one's twin.
fn behind_twin(source: &[Group], from: usize, group: &Group, slot: usize) -> Option<usize>
    requires slot { slot < 2 }
    requires from { from ≤ length source.now }
    requires own { is_of_slot slot group.now.name ≡ true }
    ensures none { IfNone result ((rest : List (List ℕ × ℕ))
        → pointwise is_twin (groups_of_slot (other_slot slot) (drop from source.now))
        ((base_of group.now.name, group.now.maximum_size) ∷ rest)
        ≡ false) }
    ensures within { IfSome result (λ i. i ≤ length source.now) }
    ensures behind { IfSome result (λ i. (rest : List (List ℕ × ℕ))
        → pointwise is_twin (groups_of_slot (other_slot slot) (drop from source.now))
        ((base_of group.now.name, group.now.maximum_size) ∷ rest)
        ≡ pointwise is_twin (groups_of_slot (other_slot slot) (drop i source.now)) rest) }
{
    let at = next_own(source, from, 1 - slot)?;
    if is_twin(&source[at], group) {
        Some(at + 1)
    } else {
        None
    }
}

// Whether the groups of the slot are twins of those of the other.
fn are_twins(source: &[Group], target: &[Group], slot: usize) -> bool
    requires { slot < 2 }
    ensures { result ≡ are_twins slot source.now target.now }
{
    let mut from = 0;
    for group in target {
        if is_of_slot(group.name.text(), slot) {
            match behind_twin(source, from, group, slot) {
                Some(next) => from = next,
                None => return false,
            }
        }
    }
    next_own(source, from, 1 - slot).is_none()
}

/// Whether the groups of the target's slot are those of the source's, the other slot: the same
/// names without the suffix, each with the same limit in bytes, in the same order. Other groups
/// aren't looked at.
pub fn has_twins(source: &Table, target: &Table, slot: usize) -> bool
    requires { slot < 2 }
    ensures is { result ≡ are_twins slot source.now.groups target.now.groups }
    ensures exact { IsTrue result
        ↔ (groups_of_slot (other_slot slot) source.now.groups
        ≡ groups_of_slot slot target.now.groups) }
{
    are_twins(source.groups.as_slice(), target.groups.as_slice(), slot)
}

/// Whether two tables have the same block devices, in all fields.
#[tactic(auto, unfolding(crate::specs::Twins::are_devices))]
pub fn same_device(a: &Table, b: &Table) -> bool
    ensures is { result ≡ are_devices a.now.devices b.now.devices }
    ensures exact { IsTrue result ↔ (a.now.devices ≡ b.now.devices) }
{
    a.devices.as_slice() == b.devices.as_slice()
}
