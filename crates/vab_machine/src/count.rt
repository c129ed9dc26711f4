//! What is counted of a plan.

ghost use Rattle.std.specs.Prelude.{◌≡◌, ◌<◌, ◌^◌, IfOk};
ghost use Rattle.vab_model.specs.Plans.{blocks_in, store_blocks, want_of, in_use, group_bytes};
ghost use Rattle.vab_model.specs.Plans.{limit_named, limit_of, is_within};

use crate::parts::{bytes_named, same_group, twins_of};
use std::alloc::Global;
use vab_bytes::{Listing, Name36};
use vab_model::{GroupLimit, Image, NoMemory, Plan, PlanEntry};
use vab_space::{Want, used};

/// Whole blocks of 4096 bytes of an image.
pub(crate) fn blocks_in(bytes: &[u8]) -> u64
    ensures is { result ≡ blocks_in bytes.now }
    ensures few { result < 2 ^ 52 }
{
    bytes.len() as u64 / 4096
}

// Blocks of a store; 0 where there is none.
fn store_blocks(store: &Option<u64>) -> u64
    ensures { result ≡ store_blocks store.now }
{
    match store {
        None => 0,
        Some(blocks) => *blocks,
    }
}

// What an entry wants beside its twin.
fn want_of(twins: &[Image], entry: &PlanEntry) -> Want
    ensures { result ≡ want_of twins.now entry.now }
{
    Want {
        before: blocks_in(bytes_named(twins, entry.name.text())),
        blocks: entry.blocks,
        store: store_blocks(&entry.store),
    }
}

/// Blocks in use: of the source's images, of what the plan adds to them, and of stores.
pub(crate) fn in_use(alloc: Global, source: &[Image], plan: &Plan) -> Result<u64, NoMemory>
    requires { in_use source.now plan.now < 2 ^ 63 }
    ensures { IfOk result (λ n. n ≡ in_use source.now plan.now) }
{
    let sizes: Vec<u64> = source
        .iter()
        .map(|image| blocks_in(image.bytes.as_slice()))
        .collect(alloc)?;
    let twins = twins_of(plan.apart, source);
    let wants: Vec<Want> = plan
        .entries
        .as_slice()
        .iter()
        .map(|entry| want_of(twins, entry))
        .collect(alloc)?;
    Ok(used(&sizes, &wants))
}

/// Bytes of all entries in a group.
#[tactic(auto, using(crate::proofs::Bounds::group_more))]
pub(crate) fn group_bytes(group: &Option<Name36>, plan: &[PlanEntry]) -> u64
    requires { group_bytes group.now plan.now < 2 ^ 63 }
    ensures { result ≡ group_bytes group.now plan.now }
{
    let mut blocks = 0;
    for entry in plan {
        if same_group(&entry.group, group) {
            blocks += entry.blocks;
        }
    }
    4096 * blocks
}

fn limit_named(groups: &[GroupLimit], name: &[u8]) -> u64
    ensures { result ≡ limit_named name.now groups.now }
{
    for group in groups {
        if group.name.text() == name {
            return group.limit;
        }
    }
    0
}

/// The limit of a group in bytes; 0 is none.
pub(crate) fn limit_of(groups: &Listing<GroupLimit>, group: &Option<Name36>) -> u64
    ensures { result ≡ limit_of groups.now group.now }
{
    match group {
        None => 0,
        Some(name) => limit_named(groups.as_slice(), name.text()),
    }
}

/// Whether so many bytes are within a limit.
pub(crate) fn is_within(sum: u64, limit: u64) -> bool
    ensures { result ≡ is_within sum limit }
{
    limit == 0 || sum <= limit
}
