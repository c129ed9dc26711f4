// Values of the format, and the happy path of each function that allocates.

ghost use Rattle.std.specs.Prelude.{◌≡◌, IfOk, IfSome};
ghost use Rattle.vab_tables.specs.Rules.{KeepsRules};
ghost use Rattle.vab_tables.specs.Spelling.{table_size_of};
ghost use Rattle.vab_layout.specs.Layout.{layout_of, table_of};

use crate::texts::{put, put_device, text_of};
use std::alloc::Global;
use std::test::*;
use vab_layout::{Layout, Part};
use vab_tables::{Table, decode_table};

// The sectors of each extent and where it begins, on a device of 256 blocks from sector 2048 on.
const EXTENTS: [[u32; 2]; 9] = [
    [8, 2048],
    [8, 2056],
    [8, 2080],
    [16, 2064],
    [8, 2104],
    [8, 2096],
    [8, 2088],
    [1024, 2048],
    [1024, 3072],
];

// `a_a` of `main_a` has the blocks 0, 1 and 4 in three extents; `b_a` of `default` has 2 and 3,
// `c_a` none, `d_a` 7, 6 and 5 in this order, `e_a` all of the device.
const PARTITIONS: [(&[u8], [u32; 4]); 5] = [
    (b"a_a", [1, 0, 3, 1]),
    (b"b_a", [0, 3, 1, 0]),
    (b"c_a", [0, 0, 0, 0]),
    (b"d_a", [0, 4, 3, 1]),
    (b"e_a", [0, 7, 2, 0]),
];

fn table(alloc: Global) -> Result<Table, Fail>
    ensures { IfOk result (λ t. KeepsRules t) }
{
    let mut tables = Vec::new(alloc);
    for (name, numbers) in PARTITIONS {
        put(&mut tables, name, &numbers)?;
    }
    for extent in EXTENTS {
        put(&mut tables, b"", &[extent[0], 0, 0, extent[1], 0, 0])?;
    }
    put(&mut tables, b"default", &[0, 0, 0])?;
    put(&mut tables, b"main_a", &[0, 0, 0])?;
    put_device(&mut tables)?;
    let text = text_of(alloc, 2, [5, 9, 2, 1], &tables)?;
    Ok(decode_table(alloc, &text, 1024)?)
}

// The sectors of each extent and where they begin.
fn sectors(alloc: Global, table: &Table) -> Result<Vec<(u64, u64)>, Fail> {
    let mut all = Vec::new(alloc);
    for extent in table.extents.as_slice() {
        all.push((extent.sectors, extent.first_sector))?;
    }
    Ok(all)
}

// The blocks of a partition one by one, as a plain program reads them off its extents.
fn plain(alloc: Global, table: &Table, index: usize) -> Result<Vec<u64>, Fail> {
    let partition = table.partitions.as_slice().get(index).ok_or("no such")?;
    let mut all = Vec::new(alloc);
    for i in 0..partition.extent_count {
        let at = partition.first_extent.wrapping_add(i) as usize;
        let extent = table.extents.as_slice().get(at).ok_or("no extent")?;
        for sector in 0..extent.sectors {
            if sector % 8 == 0 {
                all.push(extent.first_sector.wrapping_sub(2048).wrapping_add(sector) / 8)?;
            }
        }
    }
    Ok(all)
}

// The blocks of a partition of the layout, one by one.
fn numbers(alloc: Global, part: &Part) -> Result<Vec<u64>, Fail> {
    let mut all = Vec::new(alloc);
    for run in part.blocks.runs() {
        for i in 0..run.1 {
            all.push(run.0.wrapping_add(i))?;
        }
    }
    Ok(all)
}

// Whether each partition of the layout has the blocks that the plain program reads.
fn reads_as_plain(alloc: Global, table: &Table, layout: &Layout) -> Result<bool, Fail> {
    for (i, part) in layout.parts.as_slice().iter().enumerate() {
        if numbers(alloc, part)?.as_slice() != plain(alloc, table, i)?.as_slice() {
            return Ok(false);
        }
    }
    Ok(true)
}

#[test]
fn blocks_are_those_that_a_plain_program_reads(rt: HostRuntime) -> Result<(), Fail> {
    let table = table(rt.alloc())?;
    let layout = Layout::of_table(rt.alloc(), &table)?;
    assert!(rt; reads_as_plain(rt.alloc(), &table, &layout)?);
    let runs: [&[(u64, u64)]; 5] = [
        &[(0, 2), (4, 1)],
        &[(2, 2)],
        &[],
        &[(7, 1), (6, 1), (5, 1)],
        &[(0, 256)],
    ];
    for (part, own) in layout.parts.as_slice().iter().zip(runs.iter()) {
        assert!(rt; part.blocks.runs() == *own);
    }
    Ok(())
}

// Bytes of the text of the layout's table, where there are five partitions in two groups.
fn size_of(table: &Table, layout: &Layout) -> Option<u64>
    requires keeps { KeepsRules table.now }
    requires layout { layout.now ≡ layout_of table.now }
    ensures { IfSome result (λ size. size ≡ table_size_of (table_of layout.now)) }
{
    if table.partitions.len() == 5 && layout.parts.len() == 5 && layout.groups.len() == 2 {
        Some(layout.text_size())
    } else {
        None
    }
}

// The layout's table with joined extents, whose text takes 844 bytes.
fn joined(alloc: Global) -> Result<Table, Fail>
    ensures { IfOk result (λ t. KeepsRules t) }
{
    let table = table(alloc)?;
    let layout = Layout::of_table(alloc, &table)?;
    match size_of(&table, &layout) {
        Some(844) => Ok(layout.to_table(alloc)?),
        _ => Err("844 bytes".into()),
    }
}

// Whether the layout begins with `a_a` of `main_a`, which has these runs.
fn begins_with_a(layout: &Layout) -> bool {
    match layout.parts.as_slice().first() {
        Some(part) => {
            layout.parts.len() == 5
                && part.name.text() == b"a_a".as_slice()
                && part.attributes == 1
                && part.group.text() == b"main_a".as_slice()
                && part.blocks.runs() == [(0, 2), (4, 1)].as_slice()
        }
        None => false,
    }
}

// The first extent of the second partition, its count of extents and its group.
fn second(table: &Table) -> Option<[u32; 3]> {
    let partition = table.partitions.as_slice().get(1)?;
    Some([
        partition.first_extent,
        partition.extent_count,
        partition.group,
    ])
}

const JOINED: [(u64, u64); 7] = [
    (16, 2048),
    (8, 2080),
    (16, 2064),
    (8, 2104),
    (8, 2096),
    (8, 2088),
    (2048, 2048),
];

#[test]
fn runs_become_extents_and_blocks_again(rt: HostRuntime) -> Result<(), Fail> {
    let alloc = rt.alloc();
    let first = Layout::of_table(alloc, &table(alloc)?)?;
    assert!(rt; begins_with_a(&first));
    let joined = joined(alloc)?;
    assert!(rt; joined.minor == 2 && joined.flags == 1 && joined.partitions.len() == 5);
    assert!(rt; sectors(alloc, &joined)?.as_slice() == JOINED.as_slice());
    assert!(rt; second(&joined) == Some([2, 1, 0]));
    let again = Layout::of_table(alloc, &joined)?;
    assert!(rt; begins_with_a(&again));
    Ok(())
}
