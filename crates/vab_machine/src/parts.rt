//! Parts of a state.

ghost use Rattle.std.specs.Prelude.{◌≡◌, ◌<◌, ℕ, true, false, MatchOption};
ghost use Rattle.std.specs.Option.{option_copied};
ghost use Rattle.vab_names.specs.Names.{is_full, base_of};
ghost use Rattle.vab_model.specs.declared.state.Plan.{Plan as PlanOf};
ghost use Rattle.vab_model.specs.declared.state.State.{State as StateOf};
ghost use Rattle.vab_model.specs.Effects.{Effect, refuses};
ghost use Rattle.vab_model.specs.Machine.{if_installing, is_written, is_settled};
ghost use Rattle.vab_model.specs.Plans.{other_slot, images_of, twins_of, bytes_named, entry_named};
ghost use Rattle.vab_model.specs.Plans.{is_planned, same_group, first_group};
ghost use Rattle.vab_machine.specs.Sides.{a_or_b};

use vab_bytes::{Listing, Name36};
use vab_model::{GroupLimit, Image, Phase, Plan, PlanEntry, PlanImage, Refusal, State};
use vab_names::{base_of, is_full, parse_base};

/// The slot that isn't this one.
pub(crate) fn other_slot(slot: usize) -> usize
    ensures is { result ≡ other_slot slot }
    ensures low { result < 2 }
{
    if slot == 0 { 1 } else { 0 }
}

/// A slot as 0 or 1: any but 0 is b.
pub(crate) fn a_or_b(slot: usize) -> usize
    ensures is { result ≡ a_or_b slot }
    ensures low { result < 2 }
{
    if slot == 0 { 0 } else { 1 }
}

/// The source of an update that is installed, and the plan of its target.
pub(crate) fn installing(state: &State) -> Option<(usize, &Plan)>
    ensures { MatchOption result
        ((row : ℕ → PlanOf → Effect StateOf)
        → if_installing state.now.phase row ≡ refuses Refusal.NotInstalling)
        (λ u. state.now.phase ≡ Phase.Installing u.0 u.1.now) }
{
    match &state.phase {
        Phase::Idle => None,
        Phase::Installing(source, plan) => Some((*source, plan)),
        Phase::Staged(_, _) => None,
        Phase::Merging(_, _) => None,
    }
}

/// The images of a slot; none where it has none. Any slot but 0 is b.
pub(crate) fn images_of(state: &State, slot: usize) -> &[Image]
    ensures { result.now ≡ images_of state.now slot }
{
    let images = if slot == 0 { &state.a } else { &state.b };
    match images {
        None => &[],
        Some(images) => images.as_slice(),
    }
}

/// The images of the source whose blocks the target's entries of the same names begin with: all of
/// them, or none where it stands apart.
pub(crate) fn twins_of(apart: bool, source: &[Image]) -> &[Image]
    ensures { result.now ≡ twins_of apart source.now }
{
    if apart { &[] } else { source }
}

/// The bytes of the image of this base name; none where there is no such image.
pub(crate) fn bytes_named<'a>(images: &'a [Image], name: &[u8]) -> &'a [u8]
    ensures { result.now ≡ bytes_named name.now images.now }
{
    for image in images {
        if image.name.text() == name {
            return image.bytes.as_slice();
        }
    }
    &[]
}

/// The entry of this base name.
pub(crate) fn entry_named<'a>(plan: &'a [PlanEntry], name: &[u8]) -> Option<&'a PlanEntry>
    ensures { option_copied result ≡ entry_named name.now plan.now }
{
    for entry in plan {
        if entry.name.text() == name {
            return Some(entry);
        }
    }
    None
}

/// Whether an entry has this base name.
pub(crate) fn is_planned(plan: &[PlanEntry], name: &[u8]) -> bool
    ensures { result ≡ is_planned name.now plan.now }
{
    entry_named(plan, name).is_some()
}

/// Whether an entry was flashed.
pub(crate) fn is_written(image: &PlanImage) -> bool
    ensures { result ≡ is_written image.now }
{
    matches!(image, PlanImage::Written(_, _))
}

/// Whether an entry's image is written in place, so that its blocks stay.
pub(crate) fn is_settled(plan: &Plan, entry: &PlanEntry) -> bool
    ensures { result ≡ is_settled plan.now entry.now }
{
    plan.apart && is_written(&entry.image)
}

/// Whether two groups are the same; `None` is that of no slot.
pub(crate) fn same_group(a: &Option<Name36>, b: &Option<Name36>) -> bool
    ensures { result ≡ same_group a.now b.now }
{
    match (a, b) {
        (None, None) => true,
        (None, Some(_)) => false,
        (Some(_), None) => false,
        (Some(a), Some(b)) => a.text() == b.text(),
    }
}

/// The first of the groups, or that of no slot.
pub(crate) fn first_group(groups: &Listing<GroupLimit>) -> Option<Name36>
    ensures { result ≡ first_group groups.now }
{
    match groups.as_slice() {
        [] => None,
        [first, ..] => Some(first.name),
    }
}

/// The base name of a partition of the target of an update from this source; `None` where the name
/// isn't one.
#[tactic(auto, using(vab_model::proofs::Names::full_long, vab_names::proofs::NameCases::full_base))]
pub(crate) fn base_named(name: &[u8], source: usize) -> Option<Name36>
    ensures { MatchOption result
        (is_full (other_slot source) name.now ≡ false)
        (λ base. (is_full (other_slot source) name.now ≡ true) × (base ≡ base_of name.now)) }
{
    if is_full(name, other_slot(source)) {
        parse_base(base_of(name))
    } else {
        None
    }
}
