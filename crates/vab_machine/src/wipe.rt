//! The wipe of `super`: the staged image's partitions become those of the current slot.

ghost use Rattle.std.specs.Prelude.{◌≡◌, ◌≤◌, ◌<◌, length, map, All, IfOk, IfSome};
ghost use Rattle.std.specs.Option.{option_copied};
ghost use Rattle.vab_names.specs.Names.{is_of_slot, base_of};
ghost use Rattle.vab_tables.specs.Rules.{KeepsRules, IsGroup};
ghost use Rattle.vab_layout.specs.Layout.{layout_of, part_of};
ghost use Rattle.vab_layout.specs.Slots.{IsOwn};
ghost use Rattle.vab_super_image.specs.SuperImage.{super_image_of};
ghost use Rattle.vab_super_image.specs.declared.image.SuperImage.{SuperImage as SuperImageOf};
ghost use Rattle.vab_model.specs.Effects.{after_of, if_plain};
ghost use Rattle.vab_model.specs.Groups.{limits_of, group_of};
ghost use Rattle.vab_model.specs.Wipe.{empty_image, empty_images, wiped, wipe_effect, no_judge};

use crate::answer::refuse;
use crate::parts::a_or_b;
use std::alloc::Global;
use vab_bytes::{Bytes, Listing, Name36};
use vab_model::{GroupLimit, Image, NoMemory, Phase, Refusal, Reply, State, is_sparse};
use vab_names::{base_of, default_group, is_of_slot};
use vab_super_image::{SuperImage, first_filled, read_super_image};
use vab_tables::{Group, Partition, Table};

// Whether a name ends in the slot's suffix.
#[tactic(auto, using(crate::proofs::SideLaws::of_side))]
fn is_of(name: &[u8], slot: usize) -> bool
    ensures { result ≡ is_of_slot slot name.now }
{
    is_of_slot(name, a_or_b(slot))
}

// A name without its suffix.
fn base(name: &Name36) -> Name36
    requires { 3 ≤ length name.now }
    ensures { result ≡ base_of name.now }
{
    match Name36::parse(base_of(name.text())) {
        Ok(base) => base,
        Err(_) => unreachable!(),
    }
}

// ---- the partitions that are left

// A group without its slot's suffix; none for that of no slot.
#[tactic(auto, using(vab_layout::proofs::OwnNames::group_long))]
fn group_base(group: &Group) -> Option<Name36>
    requires { IsGroup group.now }
    ensures { result ≡ group_of (group.now).name }
{
    if group.name == default_group() {
        None
    } else {
        Some(base(&group.name))
    }
}

// The image of a partition, without bytes.
fn empty_image(alloc: Global, table: &Table, partition: &Partition) -> Image
    requires groups { All IsGroup table.now.groups }
    requires group { (partition.now).group < length table.now.groups }
    requires long { 3 ≤ length (partition.now).name }
    ensures { result ≡ empty_image (part_of table.now partition.now) }
{
    Image {
        name: base(&partition.name),
        group: group_base(&table.groups.as_slice()[partition.group as usize]),
        bytes: Bytes::from_vec(Vec::new(alloc)),
    }
}

// Those of a slot's own partitions, in the order of the table.
fn empty_images(alloc: Global, table: &Table, slot: usize) -> Result<Listing<Image>, NoMemory>
    requires keeps { KeepsRules table.now }
    requires own { IsOwn slot (layout_of table.now).parts }
    ensures { IfOk result (λ x. x ≡ empty_images slot table.now) }
{
    let mut images = Vec::new(alloc);
    for partition in table.partitions.as_slice() {
        if is_of(partition.name.text(), slot) {
            images.push(empty_image(alloc, table, partition))?;
        }
    }
    Ok(Listing::from_vec(images))
}

// ---- the groups that are left

// A group with its limit.
#[tactic(auto, using(vab_layout::proofs::OwnNames::group_long))]
fn limit(group: &Group) -> GroupLimit
    requires { IsGroup group.now }
    ensures { result ≡ record { name = base_of group.now.name; limit = group.now.maximum_size } }
{
    GroupLimit {
        name: base(&group.name),
        limit: group.maximum_size,
    }
}

// The groups of a slot, in the order of the table.
fn limits(alloc: Global, table: &Table, slot: usize) -> Result<Listing<GroupLimit>, NoMemory>
    requires { All IsGroup table.now.groups }
    ensures { IfOk result (λ x. x ≡ limits_of slot table.now.groups) }
{
    let mut limits = Vec::new(alloc);
    for group in table.groups.as_slice() {
        if is_of(group.name.text(), slot) {
            limits.push(limit(group))?;
        }
    }
    Ok(Listing::from_vec(limits))
}

// ---- the state

// The slot has the partitions of the image, each empty, and its groups.
fn wiped(alloc: Global, state: &State, slot: usize, image: &SuperImage) -> Result<State, NoMemory>
    requires keeps { KeepsRules (image.now).table }
    requires own { IsOwn slot (layout_of (image.now).table).parts }
    ensures { IfOk result (λ s. s ≡ wiped state.now slot image.now) }
{
    let images = empty_images(alloc, &image.table, slot)?;
    let groups = limits(alloc, &image.table, slot)?;
    let copy = state.copy(alloc)?;
    if slot == 0 {
        Ok(State {
            a: Some(images),
            groups,
            ..copy
        })
    } else {
        Ok(State {
            b: Some(images),
            groups,
            ..copy
        })
    }
}

// The image that these bytes are, whose partitions of the slot keep their rules.
fn image_in(alloc: Global, bytes: &[u8], slot: usize) -> Result<Option<SuperImage>, NoMemory>
    ensures exact { IfOk result (λ i. i ≡ super_image_of slot bytes.now) }
    ensures keeps { IfOk result (λ i. IfSome i (λ (i : SuperImageOf). KeepsRules i.table)) }
    ensures own { IfOk result
        (λ i. IfSome i (λ (i : SuperImageOf). IsOwn slot (layout_of i.table).parts)) }
{
    match read_super_image(alloc, bytes, a_or_b(slot)) {
        Ok(image) => Ok(image),
        Err(_) => Err(NoMemory),
    }
}

/// The wipe of `super`, where there is no update and no overlay.
pub(crate) fn update_super(
    alloc: Global,
    state: &State,
    staged: Option<&[u8]>,
) -> Result<(State, Reply), NoMemory>
    ensures state { IfOk result (λ r. r.0
        ≡ after_of state.now
        (if_plain state.now.overlay
        (wipe_effect no_judge no_judge (wiped state.now state.now.control.current)
        state.now.control.current (option_copied staged.entry) state.now.phase))) }
    ensures reply { IfOk result (λ r. r.1
        ≡ (if_plain state.now.overlay
        (wipe_effect no_judge no_judge (wiped state.now state.now.control.current)
        state.now.control.current (option_copied staged.entry) state.now.phase)).reply) }
{
    if state.overlay.is_some() {
        return refuse(alloc, state, Refusal::NotIdle);
    }
    let Phase::Idle = &state.phase else {
        return refuse(alloc, state, Refusal::NotIdle);
    };
    let Some(staged) = staged else {
        return refuse(alloc, state, Refusal::NothingStaged);
    };
    if is_sparse(staged) {
        return refuse(alloc, state, Refusal::Sparse);
    }
    let slot = state.control.current;
    let Some(image) = image_in(alloc, staged, slot)? else {
        return refuse(alloc, state, Refusal::BadSuperImage);
    };
    match first_filled(&image.table) {
        Some(name) => refuse(alloc, state, Refusal::NotEmpty(name)),
        None => Ok((wiped(alloc, state, slot, &image)?, Reply::Done)),
    }
}
