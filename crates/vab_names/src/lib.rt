//! Names of partitions and groups that belong to a slot: a base name and the slot's suffix, `_a` or
//! `_b`.
#![tactic(auto)]

ghost use Rattle.std.specs.Prelude.{◌≡◌, ◌≤◌, ◌<◌, ◌+◌, ◌++◌, ◌↔◌, length, IsTrue, ◌==◌, IsSome};
ghost use Rattle.std.specs.Prelude.{IfSome};
ghost use Rattle.std.specs.List.{list_any};
ghost use Rattle.vab_bytes.specs.Name.{IsName};
ghost use Rattle.vab_names.specs.Names.{is_base, suffix_of, is_of_slot, base_of, in_slot, is_full};
ghost use Rattle.vab_names.specs.Names.{is_store, store_of, default_name, store_group_name};

use arrayvec::ArrayVec;
use vab_bytes::Name36;

/// The most partitions of a slot, and so the most images of a set.
pub const MAX_PARTITIONS: usize = 64;

/// The longest name, in bytes.
const MAX: usize = 36;

/// The longest base name, in bytes.
const MAX_BASE: usize = 30;

/// Bytes of a slot's suffix.
const SUFFIX: usize = 2;

/// The base name with this text: 1 to 30 bytes of `A-Z a-z 0-9 _ .`; `None` where the text is none.
#[tactic(auto, unfolding(crate::specs::Names::is_base))]
pub fn parse_base(text: &[u8]) -> Option<Name36>
    ensures value { IfSome result (λ n. n ≡ text.now) }
    ensures exact { IsSome result ↔ IsTrue (is_base text.now) }
{
    if text.len() <= MAX_BASE && !has_hyphen(text) {
        Name36::parse(text).ok()
    } else {
        None
    }
}

/// Whether the name ends in the suffix of the slot, 0 for a and 1 for b.
#[tactic(auto, unfolding(crate::specs::Names::is_of_slot))]
pub fn is_of_slot(name: &[u8], slot: usize) -> bool
    requires { slot < 2 }
    ensures { result ≡ is_of_slot slot name.now }
{
    name.ends_with(suffix(slot))
}

/// The name without its suffix, the last two bytes.
#[tactic(auto, unfolding(crate::specs::Names::base_of))]
pub fn base_of(name: &[u8]) -> &[u8]
    requires { 2 ≤ length name.now }
    ensures { result.now ≡ base_of name.now }
{
    &name[..name.len() - SUFFIX]
}

/// The name with the suffix of this slot in place of its own.
#[tactic(auto, unfolding(crate::specs::Names::in_slot), using(crate::proofs::NameLaws::in_slot_is_name))]
pub fn in_slot(name: &Name36, slot: usize) -> Name36
    requires slot { slot < 2 }
    requires long { 2 ≤ length name.now }
    ensures { result ≡ in_slot slot name.now }
{
    joined(base_of(name.text()), suffix(slot))
}

/// The base name with the slot's suffix.
pub fn full_name(base: &Name36, slot: usize) -> Name36
    requires slot { slot < 2 }
    requires short { length base.now ≤ 34 }
    ensures { result ≡ base.now ++ suffix_of slot }
{
    joined(base.text(), suffix(slot))
}

/// Whether this is a base name and the slot's suffix.
#[tactic(auto, unfolding(crate::specs::Names::is_full))]
pub fn is_full(text: &[u8], slot: usize) -> bool
    requires { slot < 2 }
    ensures { result ≡ is_full slot text.now }
{
    is_of_slot(text, slot) && parse_base(base_of(text)).is_some()
}

/// Whether this is the name of an exception store of the slot: it ends in the slot's suffix and
/// `-cow`.
#[tactic(auto, unfolding(crate::specs::Names::is_store))]
pub fn is_store(name: &[u8], slot: usize) -> bool
    requires { slot < 2 }
    ensures { result ≡ is_store slot name.now }
{
    name.ends_with(if slot == 0 { b"_a-cow" } else { b"_b-cow" })
}

/// The name of a partition's exception store: the partition's and `-cow`.
#[tactic(auto, unfolding(crate::specs::Names::store_of))]
pub fn store_of(name: &Name36) -> Name36
    requires { length name.now ≤ 32 }
    ensures { result ≡ store_of name.now }
{
    joined(name.text(), b"-cow")
}

/// The group of no slot.
pub fn default_group() -> Name36
    ensures { result ≡ default_name }
{
    joined(b"default", b"")
}

/// The group of exception stores.
pub fn store_group() -> Name36
    ensures { result ≡ store_group_name }
{
    joined(b"cow", b"")
}

fn suffix(slot: usize) -> &'static [u8]
    requires { slot < 2 }
    ensures { result.now ≡ suffix_of slot }
{
    if slot == 0 { b"_a" } else { b"_b" }
}

fn has_hyphen(text: &[u8]) -> bool
    ensures { result ≡ list_any (λ b. b == 45) text.now }
{
    text.iter().any(|b| *b == b'-')
}

// The one text and then the other, as a name.
fn joined(front: &[u8], back: &[u8]) -> Name36
    requires name { IsName (front.now ++ back.now) }
    requires short { length front.now + length back.now ≤ 36 }
    ensures { result ≡ front.now ++ back.now }
{
    let mut text = ArrayVec::<u8, MAX>::new();
    let _ = text.try_extend_from_slice(front);
    let _ = text.try_extend_from_slice(back);
    match Name36::parse(text.as_slice()) {
        Ok(name) => name,
        Err(_) => unreachable!(),
    }
}
