//! Blocks of a slot's partitions together.

ghost use Rattle.std.specs.Prelude.{◌≡◌, ◌<◌, length, map, sum, Contains};
ghost use Rattle.vab_tables.specs.Rules.{KeepsRules};
ghost use Rattle.vab_layout.specs.Layout.{layout_of};
ghost use Rattle.vab_layout.specs.Slots.{own_parts, IsOwn};
ghost use Rattle.vab_builder.specs.Sums.{own_size};

use crate::counts::count_blocks;
use vab_names::is_of_slot;
use vab_tables::{Partition, Table};

// The blocks of a partition of the slot; 0 where it is of no slot or the other.
fn own_blocks(table: &Table, partition: &Partition, slot: usize) -> u64
    requires slot { slot < 2 }
    requires keeps { KeepsRules table.now }
    requires own { IsOwn slot (layout_of table.now).parts }
    requires listed { Contains (table.now).partitions partition.now }
    ensures { result ≡ own_size slot table.now partition.now }
{
    if is_of_slot(partition.name.text(), slot) {
        count_blocks(table, partition)
    } else {
        0
    }
}

/// The blocks of the slot's partitions.
pub(crate) fn slot_blocks(table: &Table, slot: usize) -> u64
    requires slot { slot < 2 }
    requires keeps { KeepsRules table.now }
    requires own { IsOwn slot (layout_of table.now).parts }
    ensures { result
        ≡ sum (map (λ p. length p.blocks) (own_parts slot (layout_of table.now).parts)) }
{
    let partitions = table.partitions.as_slice();
    let mut blocks = 0;
    for partition in partitions {
        blocks += own_blocks(table, partition, slot);
    }
    blocks
}
