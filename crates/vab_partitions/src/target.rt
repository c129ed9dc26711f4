//! An update's target, judged in the order of its table.

ghost use Rattle.std.specs.Prelude.{◌≡◌, ◌↔◌, ◌<◌, ◌≤◌, ◌||◌, ◌++◌, [], ◌∷◌, true, IfOk, IfSome};
ghost use Rattle.std.specs.Prelude.{IsNone, IsTrue, OnOk};
ghost use Rattle.vab_names.specs.Names.{is_of_slot, is_store, most_partitions};
ghost use Rattle.vab_tables.specs.Rules.{KeepsRules};
ghost use Rattle.vab_layout.specs.Layout.{layout_of, blocks_of_parts};
ghost use Rattle.vab_layout.specs.Slots.{other_slot, own_parts, twins_by, IsOwn};
ghost use Rattle.vab_blocks.specs.Blocks.{is_distinct};
ghost use Rattle.vab_partitions.specs.Together.{target_parts};
ghost use Rattle.vab_partitions.specs.Target.{KeepsAlone, FitsBeside, IsFirstBad};
ghost use Rattle.vab_partitions.specs.TargetRules.{bad_beside};

use crate::beside::keeps_alone;
use std::alloc::Global;
use vab_blocks::Blocks;
use vab_bytes::Name36;
use vab_layout::{Layout, Part};
use vab_names::{is_of_slot, is_store};
use vab_tables::{NoMemory, Table};

/// The blocks of the partitions and stores that were seen, and how many partitions these are.
/// `apart` tells that no block stands twice in the whole target, so that it need not be judged
/// again.
#[derive(Debug, Drop)]
pub(crate) struct Front {
    pub(crate) seen: Blocks,
    pub(crate) own: usize,
    pub(crate) apart: bool,
}

// The blocks of a slot's own partitions, one after another.
fn taken_by(alloc: Global, parts: &[Part], slot: usize) -> Result<Blocks, NoMemory>
    requires { slot < 2 }
    ensures { IfOk result (λ b. b ≡ blocks_of_parts (own_parts slot parts.now)) }
{
    let mut blocks = Blocks::new(alloc);
    for part in parts {
        if is_of_slot(part.name.text(), slot) {
            blocks.append(&part.blocks)?;
        }
    }
    Ok(blocks)
}

// The blocks of the target's partitions and stores, one after another.
fn blocks_of_target(alloc: Global, parts: &[Part], slot: usize) -> Result<Blocks, NoMemory>
    requires { slot < 2 }
    ensures { IfOk result (λ b. b ≡ blocks_of_parts (target_parts slot parts.now)) }
{
    let mut blocks = Blocks::new(alloc);
    for part in parts {
        if is_of_target(part, slot) {
            blocks.append(&part.blocks)?;
        }
    }
    Ok(blocks)
}

// Whether no block stands twice, where that may be known before.
fn is_once(alloc: Global, blocks: &Blocks, apart: bool) -> Result<bool, NoMemory>
    requires { apart ≡ true → is_distinct blocks.now ≡ true }
    ensures { IfOk result (λ once. once ≡ is_distinct blocks.now) }
{
    if apart {
        return Ok(true);
    }
    blocks.is_distinct(alloc)
}

/// Whether this is a partition of the slot or a store.
pub(crate) fn is_of_target(part: &Part, slot: usize) -> bool
    requires { slot < 2 }
    ensures { result ≡ (is_of_slot slot part.now.name || is_store slot part.now.name) }
{
    is_of_slot(part.name.text(), slot) || is_store(part.name.text(), slot)
}

impl Front {
    ghost use Rattle.vab_partitions.specs.Front.{IsStart, HasRoom, Joins, IsJoined};

    /// In front of all of them.
    pub(crate) fn start(alloc: Global, target: &[Part], slot: usize) -> Result<Front, NoMemory>
        requires { slot < 2 }
        ensures { IfOk result (λ front. IsStart slot target.now front) }
    {
        let all = blocks_of_target(alloc, target, slot)?;
        Ok(Front {
            seen: Blocks::new(alloc),
            own: 0,
            apart: all.is_distinct(alloc)?,
        })
    }

    /// Whether there is room for a partition or a store behind those that were seen: no block
    /// stands twice, and at most so many are partitions. Where there is, it is one of them.
    pub(crate) fn push(
        &mut self,
        alloc: Global,
        part: &Part,
        slot: usize,
        most: usize,
    ) -> Result<bool, NoMemory>
        requires slot { slot < 2 }
        requires few { self.old.own ≤ most }
        requires apart { self.old.apart ≡ true
            → is_distinct (self.old.seen ++ part.now.blocks) ≡ true }
        ensures room { IfOk result (λ ok. IsTrue ok ↔ HasRoom most slot self.old part.now) }
        ensures joined { IfOk result (λ ok. IsTrue ok → IsJoined slot self.old self.new part.now) }
    {
        self.seen.append(&part.blocks)?;
        if !is_once(alloc, &self.seen, self.apart)? {
            return Ok(false);
        }
        if is_of_slot(part.name.text(), slot) {
            if self.own >= most {
                return Ok(false);
            }
            self.own += 1;
        }
        Ok(true)
    }

    // Whether a partition or a store may stand behind those that were seen. Where it may, it is one
    // of them.
    fn join(
        &mut self,
        alloc: Global,
        twins: &[Part],
        source: &[Part],
        target: &[Part],
        taken: &Blocks,
        part: &Part,
        slot: usize,
        most: usize,
    ) -> Result<bool, NoMemory>
        requires slot { slot < 2 }
        requires twins { IsOwn (other_slot slot) twins.now }
        requires source { IsOwn (other_slot slot) source.now }
        requires taken { taken.now ≡ blocks_of_parts (own_parts (other_slot slot) source.now) }
        requires either { (is_of_slot slot part.now.name || is_store slot part.now.name) ≡ true }
        requires few { self.old.own ≤ most }
        requires apart { self.old.apart ≡ true
            → is_distinct (self.old.seen ++ part.now.blocks) ≡ true }
        ensures joins { IfOk result (λ ok. IsTrue ok
            ↔ Joins most slot (KeepsAlone slot twins.now source.now target.now) self.old part.now) }
        ensures joined { IfOk result (λ ok. IsTrue ok → IsJoined slot self.old self.new part.now) }
    {
        if !self.push(alloc, part, slot, most)? {
            return Ok(false);
        }
        keeps_alone(alloc, twins, source, target, taken, part, slot)
    }
}

// The first partition or store of the target that breaks a rule.
fn first_bad(
    alloc: Global,
    twins: &[Part],
    source: &[Part],
    target: &[Part],
    slot: usize,
    most: usize,
) -> Result<Option<Name36>, NoMemory>
    requires slot { slot < 2 }
    requires twins { IsOwn (other_slot slot) twins.now }
    requires source { IsOwn (other_slot slot) source.now }
    requires most { most ≤ most_partitions }
    ensures kept { IfOk result
        (λ bad. IsNone bad ↔ FitsBeside most slot twins.now source.now target.now) }
    ensures first { IfOk result
        (λ bad. IfSome bad (IsFirstBad most slot twins.now source.now target.now)) }
    ensures is { IfOk result (λ bad. bad ≡ bad_beside most slot twins.now source.now target.now) }
{
    let taken = taken_by(alloc, source, 1 - slot)?;
    let mut front = Front::start(alloc, target, slot)?;
    for part in target {
        if is_of_target(part, slot)
            && !front.join(alloc, twins, source, target, &taken, part, slot, most)?
        {
            return Ok(Some(part.name));
        }
    }
    Ok(None)
}

/// The first partition or store of an update's target, in the order of its table, that breaks a
/// rule beside those before it.
///
/// A partition of the slot keeps the rules of [`bad_partition`](crate::bad_partition), begins with
/// the blocks of its twin, the source's partition of the same base name, as many as it has or all,
/// and has no other block of the source; where it isn't marked as updated it has its twin's blocks
/// and no store. A store stands in the group `cow`, its partition is there and marked as updated,
/// and it has no block of the source. No block stands twice. The source is the other slot's, whose
/// own partitions keep their rules. Where the target stands `apart`, no partition has a twin: each
/// is marked as updated, and has no block of the source. `NoMemory` where memory is refused.
pub fn bad_target(
    alloc: Global,
    source: &Table,
    target: &Table,
    slot: usize,
    most: usize,
    apart: bool,
) -> Result<Option<Name36>, NoMemory>
    requires slot { slot < 2 }
    requires source_keeps { KeepsRules source.now }
    requires target_keeps { KeepsRules target.now }
    requires source_own { IsOwn (other_slot slot) (layout_of source.now).parts }
    requires most { most ≤ most_partitions }
    // None exactly where the target keeps all of its rules and has at most so many partitions.
    ensures kept { IfOk result (λ bad. IsNone bad
        ↔ FitsBeside most slot (twins_by apart (layout_of source.now).parts)
        (layout_of source.now).parts (layout_of target.now).parts) }
    ensures first { IfOk result (λ bad. IfSome bad
        (IsFirstBad most slot (twins_by apart (layout_of source.now).parts)
        (layout_of source.now).parts (layout_of target.now).parts)) }
    // It is a function of both tables.
    ensures is { IfOk result (λ bad. bad
        ≡ bad_beside most slot (twins_by apart (layout_of source.now).parts)
        (layout_of source.now).parts (layout_of target.now).parts) }
{
    let source = Layout::of_table(alloc, source)?;
    let target = Layout::of_table(alloc, target)?;
    first_bad(
        alloc,
        source.twins(apart),
        source.parts.as_slice(),
        target.parts.as_slice(),
        slot,
        most,
    )
}
