//! The blocks that are in use.

ghost use Rattle.std.specs.Prelude.{◌≡◌, ◌≤◌, ◌<◌, ◌+◌, ◌^◌, length, sum_by, true, Contains};
ghost use Rattle.vab_names.specs.Names.{is_of_slot};
ghost use Rattle.vab_tables.specs.Rules.{cap_of, KeepsRules};
ghost use Rattle.vab_layout.specs.Layout.{layout_of, part_of};
ghost use Rattle.vab_layout.specs.Slots.{twins_by};
ghost use Rattle.vab_builder.specs.Passes.{created_in_use};
ghost use Rattle.vab_builder.specs.Sizes.{used_by, want_of};
ghost use Rattle.vab_builder.specs.Judged.{AreTables};
ghost use Rattle.vab_builder.specs.Sums.{own_taken, wants_changed, IsSmall};

use crate::counts::{count_before, count_blocks, count_named};
use crate::sizes::slot_blocks;
use crate::wanted::{Change, changed_want};
use vab_bytes::Name36;
use vab_names::{is_of_slot, store_of};
use vab_space::{Want, used};
use vab_tables::{Partition, Table};

// What the update wants of a partition of the target.
fn want(source: &Table, target: &Table, partition: &Partition, slot: usize, apart: bool) -> Want
    requires tables { AreTables slot apart source.now target.now }
    requires listed { Contains (target.now).partitions partition.now }
    requires own { is_of_slot slot (partition.now).name ≡ true }
    ensures { result ≡ want_of slot (twins_by apart (layout_of source.now).parts)
        (layout_of target.now).parts (part_of target.now partition.now) }
{
    Want {
        before: count_before(source, slot, &partition.name, apart),
        blocks: count_blocks(target, partition),
        store: count_named(store_of(&partition.name).text(), target),
    }
}

// The blocks that are in use for a partition of the target, beside those of the source; 0 where it
// is of no slot or the other.
fn taken(
    source: &Table,
    target: &Table,
    partition: &Partition,
    slot: usize,
    change: &Change,
    apart: bool,
) -> u64
    requires tables { AreTables slot apart source.now target.now }
    requires listed { Contains (target.now).partitions partition.now }
    requires small { IsSmall change.now }
    ensures { result
        ≡ own_taken slot (twins_by apart (layout_of source.now).parts) target.now change.now
        partition.now }
{
    if is_of_slot(partition.name.text(), slot) {
        let want = want(source, target, partition, slot, apart);
        used(&[], &[changed_want(change, &partition.name, want)])
    } else {
        0
    }
}

// The same of all partitions of the target.
fn all_taken(source: &Table, target: &Table, slot: usize, change: &Change, apart: bool) -> u64
    requires tables { AreTables slot apart source.now target.now }
    requires small { IsSmall change.now }
    ensures { result
        ≡ sum_by
        (own_taken slot (twins_by apart (layout_of source.now).parts) target.now change.now)
        (target.now).partitions }
{
    let partitions = target.partitions.as_slice();
    let mut blocks = 0;
    for partition in partitions {
        blocks += taken(source, target, partition, slot, change, apart);
    }
    blocks
}

/// The blocks in use with a change.
pub(crate) fn in_use(
    source: &Table,
    target: &Table,
    slot: usize,
    change: &Change,
    apart: bool,
) -> u64
    requires tables { AreTables slot apart source.now target.now }
    requires small { IsSmall change.now }
    ensures is { result ≡ used_by slot (layout_of source.now).parts
        (wants_changed slot (twins_by apart (layout_of source.now).parts)
        (layout_of target.now).parts change.now) }
    ensures small { result < 2 ^ 63 }
{
    slot_blocks(source, 1 - slot) + all_taken(source, target, slot, change, apart)
}

/// The blocks in use with a partition more, of so many blocks.
pub(crate) fn created_in_use(
    source: &Table,
    target: &Table,
    slot: usize,
    name: &Name36,
    count: u64,
    apart: bool,
) -> u64
    requires tables { AreTables slot apart source.now target.now }
    requires long { 2 ≤ length name.now }
    requires small { count ≤ 2 ^ 28 }
    ensures { result
        ≡ created_in_use slot (twins_by apart (layout_of source.now).parts)
        (layout_of source.now) (layout_of target.now) name.now count }
{
    let want = Want {
        before: count_before(source, slot, name, apart),
        blocks: count,
        store: 0,
    };
    in_use(source, target, slot, &Change::Nothing, apart) + used(&[], &[want])
}

/// The blocks that the table's device has.
pub(crate) fn capacity(table: &Table) -> u64
    requires { KeepsRules table.now }
    ensures { result ≡ cap_of (layout_of table.now).device }
{
    table.devices.as_slice()[0].cap()
}
