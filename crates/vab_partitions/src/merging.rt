//! A slot whose stores are merged, judged in the order of its table.

ghost use Rattle.std.specs.Prelude.{◌≡◌, ◌↔◌, ◌<◌, ◌≤◌, ◌||◌, ◌++◌, true, IfOk, IfSome, IsNone};
ghost use Rattle.std.specs.Prelude.{IsTrue};
ghost use Rattle.vab_names.specs.Names.{is_of_slot, is_store, most_partitions};
ghost use Rattle.vab_tables.specs.Rules.{KeepsRules};
ghost use Rattle.vab_layout.specs.Layout.{layout_of};
ghost use Rattle.vab_blocks.specs.Blocks.{is_distinct};
ghost use Rattle.vab_partitions.specs.Front.{Joins, IsJoined};
ghost use Rattle.vab_partitions.specs.Together.{FirstBad};
ghost use Rattle.vab_partitions.specs.Merging.{FitsMerging, KeepsMerging};
ghost use Rattle.vab_partitions.specs.MergingRules.{bad_merging_of};

use crate::beside::{is_own_part, is_store_alone};
use crate::target::{Front, is_of_target};
use std::alloc::Global;
use vab_bytes::Name36;
use vab_layout::{Layout, Part};
use vab_names::is_of_slot;
use vab_tables::{NoMemory, Table};

// Whether a partition of the slot or a store keeps the rules that don't speak of those before it.
fn keeps_merging(target: &[Part], part: &Part, slot: usize) -> bool
    requires slot { slot < 2 }
    requires either { (is_of_slot slot part.now.name || is_store slot part.now.name) ≡ true }
    ensures { IsTrue result ↔ KeepsMerging slot target.now part.now }
{
    if is_of_slot(part.name.text(), slot) {
        is_own_part(part, slot)
    } else {
        is_store_alone(target, part, slot)
    }
}

// Whether a partition or a store may stand behind those that were seen. Where it may, it is one of
// them.
fn join(
    alloc: Global,
    front: &mut Front,
    target: &[Part],
    part: &Part,
    slot: usize,
    most: usize,
) -> Result<bool, NoMemory>
    requires slot { slot < 2 }
    requires either { (is_of_slot slot part.now.name || is_store slot part.now.name) ≡ true }
    requires few { front.old.own ≤ most }
    requires apart { front.old.apart ≡ true
        → is_distinct (front.old.seen ++ part.now.blocks) ≡ true }
    ensures joins { IfOk result
        (λ ok. IsTrue ok ↔ Joins most slot (KeepsMerging slot target.now) front.old part.now) }
    ensures joined { IfOk result (λ ok. IsTrue ok → IsJoined slot front.old front.new part.now) }
{
    Ok(front.push(alloc, part, slot, most)? && keeps_merging(target, part, slot))
}

// The first partition or store of the slot that breaks a rule.
fn first_bad(
    alloc: Global,
    target: &[Part],
    slot: usize,
    most: usize,
) -> Result<Option<Name36>, NoMemory>
    requires slot { slot < 2 }
    requires most { most ≤ most_partitions }
    ensures kept { IfOk result (λ bad. IsNone bad ↔ FitsMerging most slot target.now) }
    ensures first { IfOk result
        (λ bad. IfSome bad (FirstBad most slot (KeepsMerging slot target.now) target.now)) }
    ensures is { IfOk result (λ bad. bad ≡ bad_merging_of most slot target.now) }
{
    let mut front = Front::start(alloc, target, slot)?;
    for part in target {
        if is_of_target(part, slot) && !join(alloc, &mut front, target, part, slot, most)? {
            return Ok(Some(part.name));
        }
    }
    Ok(None)
}

/// The first partition or store of a slot whose stores are merged, in the order of its table, that
/// breaks a rule beside those before it.
///
/// No source stands beside the slot any more. A partition of the slot keeps the rules of
/// [`bad_partition`](crate::bad_partition). A store stands in the group `cow`, and its partition is
/// there and marked as updated. No block stands twice. `NoMemory` where memory is refused.
pub fn bad_merging(
    alloc: Global,
    table: &Table,
    slot: usize,
    most: usize,
) -> Result<Option<Name36>, NoMemory>
    requires slot { slot < 2 }
    requires keeps { KeepsRules table.now }
    requires most { most ≤ most_partitions }
    // None exactly where the slot keeps all of its rules and has at most so many partitions.
    ensures kept { IfOk result
        (λ bad. IsNone bad ↔ FitsMerging most slot (layout_of table.now).parts) }
    ensures first { IfOk result (λ bad. IfSome bad
        (FirstBad most slot (KeepsMerging slot (layout_of table.now).parts)
        (layout_of table.now).parts)) }
    // It is a function of the table.
    ensures is { IfOk result (λ bad. bad ≡ bad_merging_of most slot (layout_of table.now).parts) }
{
    let layout = Layout::of_table(alloc, table)?;
    first_bad(alloc, layout.parts.as_slice(), slot, most)
}
