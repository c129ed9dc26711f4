// The table of a slot with a store over one of its partitions, and the store that a table has.

ghost use Rattle.std.specs.Prelude.{◌≡◌, ◌<◌, ◌^◌, IfOk};
ghost use Rattle.vab_tables.specs.Rules.{KeepsRules};
ghost use Rattle.vab_tables.specs.Spelling.{table_size_of};
ghost use Rattle.vab_layout.specs.Layout.{layout_of};
ghost use Rattle.vab_layout.specs.Slots.{IsOwn};

use crate::updates::{P1, SAME, SYSTEM, TO_B, after, blocks, source, tables_after, text_size};
use std::alloc::Global;
use std::test::*;
use vab_builder::{Edit, EditFault, blocks_beside, has_own, with_overlay};
use vab_partitions::{is_apart, overlaid};
use vab_tables::Table;

// The table of a slot with a store of so many blocks over the partition of this name, or its
// refusal.
fn with_store(
    alloc: Global,
    table: &Table,
    slot: usize,
    name: &[u8],
    blocks: u64,
    max: u32,
) -> Result<Result<Table, EditFault>, Fail>
    requires slot { slot < 2 }
    requires keeps { KeepsRules table.now }
    requires small { table_size_of table.now < 2 ^ 24 }
    requires own { IsOwn slot (layout_of table.now).parts }
    ensures { IfOk result (λ r. IfOk r KeepsRules) }
{
    for partition in table.partitions.as_slice() {
        let text = partition.name.text();
        if text == name && has_own(table, slot, text) && blocks <= blocks_beside(table, slot) {
            let made = with_overlay(alloc, table, slot, &partition.name, blocks, max);
            return Ok(made);
        }
    }
    Err("a partition of the slot, and room for the store".into())
}

// The name of the one store over a partition of the slot, and whether it is apart from the slot's
// blocks.
fn store_over(alloc: Global, table: &Table, slot: usize) -> Result<(&[u8], bool), Fail>
    requires slot { slot < 2 }
    requires keeps { KeepsRules table.now }
{
    match overlaid(table, slot) {
        Some(overlay) => Ok((
            overlay.store.name.text(),
            is_apart(alloc, table, slot, overlay.store)?,
        )),
        None => Ok((b"", false)),
    }
}

const STORE: &[u8] = b"system_b-cow";

// The slot's partition has 40 of the 100 blocks that the other slot's has, and the store may take
// the others.
#[test]
fn a_store_over_a_partition_takes_the_lowest_blocks(rt: HostRuntime) -> Result<(), Fail> {
    let alloc = rt.alloc();
    let small = Edit::Resize(SYSTEM, 163840);
    let source = source(alloc, &TO_B)?;
    let target = after(
        alloc,
        &TO_B,
        &source,
        &[SAME, SAME, SAME, SAME, SAME, small],
    )?;
    assert_eq!(rt; blocks_beside(&target, 1), 216);
    let full = with_store(alloc, &target, 1, SYSTEM, 3, 615)?;
    assert_eq!(rt; full.err(), Some(EditFault::TableFull(616, 615)));
    let table = with_store(alloc, &target, 1, SYSTEM, 3, 616)??;
    assert_eq!(rt; text_size(alloc, &table)?, 616);
    assert_eq!(rt;
        blocks(alloc, &table, STORE)?.as_slice(),
        [40, 41, 42].as_slice()
    );
    assert_eq!(rt; store_over(alloc, &table, 1)?, (STORE, true));
    Ok(())
}

#[test]
fn a_slot_has_no_store_or_one_or_two(rt: HostRuntime) -> Result<(), Fail> {
    let alloc = rt.alloc();
    let store = Edit::AddStore(SYSTEM, 8192);
    let other = Edit::AddStore(b"p1_b", 8192);
    for (edits, found) in [
        ([SAME, SAME, SAME, SAME, SAME, P1], (b"".as_slice(), false)),
        ([SAME, SAME, SAME, SAME, P1, store], (STORE, true)),
        ([SAME, SAME, SAME, P1, other, store], (b"", false)),
    ] {
        let (target, _) = tables_after(alloc, &TO_B, &edits)?;
        assert_eq!(rt; store_over(alloc, &target, 1)?, found);
    }
    Ok(())
}
