// Values of the format and of the field, and the happy path of each function that allocates.

ghost use Rattle.std.specs.Prelude.{IfOk};
ghost use Rattle.vab_tables.specs.Rules.{KeepsRules};

use crate::texts::{put, put_device, text_of};
use std::alloc::Global;
use std::test::*;
use vab_blocks::{Blocks, Runs};
use vab_bytes::Name36;
use vab_tables::{Table, decode_table};

// `a_a` has block 4, and 0 and 1; `b_a` has 4 and 7; `c_a` has none. Each has its first extent and
// how many.
const PARTITIONS: [(&[u8], [u32; 4]); 3] = [
    (b"a_a", [0, 0, 2, 0]),
    (b"b_a", [0, 2, 2, 0]),
    (b"c_a", [0, 0, 0, 0]),
];

fn table(alloc: Global) -> Result<Table, Fail>
    ensures { IfOk result (λ t. KeepsRules t) }
{
    let mut tables = Vec::new(alloc);
    for (name, numbers) in PARTITIONS {
        put(&mut tables, name, &numbers)?;
    }
    for extent in [[8, 2080], [16, 2048], [8, 2080], [8, 2104]] {
        put(&mut tables, b"", &[extent[0], 0, 0, extent[1], 0, 0])?;
    }
    put(&mut tables, b"main_a", &[0, 0, 0])?;
    put_device(&mut tables)?;
    let text = text_of(alloc, 2, [3, 4, 1, 1], &tables)?;
    Ok(decode_table(alloc, &text, 620)?)
}

fn name(text: &[u8]) -> Result<Name36, Fail> {
    Ok(Name36::parse(text).ok().ok_or("a name")?)
}

// The numbers of blocks, one by one.
fn numbers(alloc: Global, blocks: &Blocks) -> Result<Vec<u64>, Fail> {
    let mut all = Vec::new(alloc);
    for run in blocks.runs() {
        for i in 0..run.1 {
            all.push(run.0.wrapping_add(i))?;
        }
    }
    Ok(all)
}

// The runs of these numbers, put together one by one.
fn blocks(alloc: Global, numbers: &[u64]) -> Result<Blocks, Fail> {
    let mut blocks = Blocks::new(alloc);
    for number in numbers {
        if *number < 1 << 32 {
            blocks.push_run(*number, 1)?;
        }
    }
    Ok(blocks)
}

// Whether the blocks of these partitions, each once, are these runs.
fn has_runs(
    alloc: Global,
    table: &Table,
    names: &[&[u8]],
    runs: &[(u64, u64)],
) -> Result<bool, Fail>
    requires { KeepsRules table.now }
{
    let mut parsed = Vec::new(alloc);
    for text in names {
        parsed.push(name(text)?)?;
    }
    let found = Runs::of_table(alloc, table, &parsed)?;
    Ok(found.runs() == runs)
}

// The names of partitions, and the runs of their blocks.
const NAMED: [(&[&[u8]], &[(u64, u64)]); 6] = [
    (&[b"a_a", b"a_a"], &[(0, 2), (4, 1)]),
    (&[b"b_a"], &[(4, 1), (7, 1)]),
    (&[b"b_a", b"c_a", b"a_a"], &[(0, 2), (4, 1), (7, 1)]),
    (&[b"c_a"], &[]),
    (&[b"a_b"], &[]),
    (&[], &[]),
];

#[test]
fn blocks_of_named_partitions_each_once(rt: HostRuntime) -> Result<(), Fail> {
    let table = table(rt.alloc())?;
    for (names, runs) in NAMED {
        assert!(rt; has_runs(rt.alloc(), &table, names, runs)?, "{runs:?}");
    }
    Ok(())
}

// The blocks of eight that `a_a` leaves.
fn left_by_a(alloc: Global) -> Result<Runs, Fail> {
    let table = table(alloc)?;
    let taken = Runs::of_table(alloc, &table, &[name(b"a_a")?])?;
    Ok(Runs::free(alloc, 8, &taken)?)
}

// The runs of the lowest of these blocks, so many, where there are.
fn lowest(alloc: Global, free: &Runs, count: u64) -> Result<Option<Vec<(u64, u64)>>, Fail> {
    match free.take_lowest(alloc, count)? {
        Some(lowest) => Ok(Some(lowest.as_blocks().runs().to_vec(alloc)?)),
        None => Ok(None),
    }
}

// Whether these are among the blocks, and these not.
fn parts(free: &Runs, inside: &[u64], outside: &[u64]) -> bool {
    for block in inside {
        if !free.contains(*block) {
            return false;
        }
    }
    for block in outside {
        if free.contains(*block) {
            return false;
        }
    }
    true
}

#[test]
fn the_lowest_free_blocks(rt: HostRuntime) -> Result<(), Fail> {
    let alloc = rt.alloc();
    let free = left_by_a(alloc)?;
    assert!(rt; free.runs() == [(2, 2), (5, 3)].as_slice());
    assert!(rt; free.count() == 5 && parts(&free, &[2, 7], &[1, 4, 8]));
    for (count, runs) in [
        (3, [(2, 2), (5, 1)].as_slice()),
        (5, &[(2, 2), (5, 3)]),
        (2, &[(2, 2)]),
        (0, &[]),
    ] {
        let lowest = lowest(alloc, &free, count)?.ok_or("so many")?;
        assert!(rt; lowest.as_slice() == runs);
    }
    assert!(rt; lowest(alloc, &free, 6)?.is_none());
    Ok(())
}

// The numbers below `cap` that are listed, or those that aren't, as a plain program finds them.
fn plain(alloc: Global, cap: u64, numbers: &[u64], listed: bool) -> Result<Vec<u64>, Fail> {
    let mut all = Vec::new(alloc);
    for number in 0..cap {
        if numbers.contains(&number) == listed {
            all.push(number)?;
        }
    }
    Ok(all)
}

// Whether no number stands twice, each beside all before it.
fn plain_distinct(numbers: &[u64]) -> bool {
    for (i, number) in numbers.iter().enumerate() {
        if numbers.get(..i).unwrap_or(&[]).contains(number) {
            return false;
        }
    }
    true
}

// The numbers of a list in their order, each once.
fn sorted(alloc: Global, list: &[u64]) -> Result<Vec<u64>, Fail> {
    let listed = blocks(alloc, list)?;
    let sorted = Runs::sorted(alloc, &listed)?;
    numbers(alloc, sorted.as_blocks())
}

// The numbers below ten that aren't in a list.
fn free(alloc: Global, list: &[u64]) -> Result<Vec<u64>, Fail> {
    let listed = blocks(alloc, list)?;
    let sorted = Runs::sorted(alloc, &listed)?;
    let free = Runs::free(alloc, 10, &sorted)?;
    numbers(alloc, free.as_blocks())
}

fn is_distinct(alloc: Global, list: &[u64]) -> Result<bool, Fail> {
    let listed = blocks(alloc, list)?;
    Ok(listed.is_distinct(alloc)?)
}

// The first two numbers of a list.
fn front(alloc: Global, list: &[u64]) -> Result<Vec<u64>, Fail> {
    let listed = blocks(alloc, list)?;
    let front = listed.take(alloc, 2)?;
    numbers(alloc, &front)
}

// The two numbers behind them.
fn back(alloc: Global, list: &[u64]) -> Result<Vec<u64>, Fail> {
    let listed = blocks(alloc, list)?;
    let mut back = Blocks::new(alloc);
    back.append_part(&listed, 2, 2)?;
    numbers(alloc, &back)
}

// All of a list twice.
fn twice(alloc: Global, list: &[u64]) -> Result<Vec<u64>, Fail> {
    let listed = blocks(alloc, list)?;
    let mut twice = listed.copy(alloc)?;
    twice.append(&listed)?;
    numbers(alloc, &twice)
}

// All of a list twice, as a plain program puts it together.
fn plain_twice(alloc: Global, list: &[u64]) -> Result<Vec<u64>, Fail> {
    let mut whole = list.to_vec(alloc)?;
    whole.extend_from_slice(list)?;
    Ok(whole)
}

// The numbers of a list from a place on, two at most.
fn plain_part(list: &[u64], from: usize) -> &[u64] {
    let rest = list.get(from..).unwrap_or(&[]);
    rest.get(..2).unwrap_or(rest)
}

// Runs that touch, that overlap and that stand out of order, runs of one block, no block, a full
// device.
const LISTS: [&[u64]; 8] = [
    &[],
    &[5],
    &[0, 1, 2, 3, 4, 5, 6, 7, 8, 9],
    &[3, 4, 0, 1, 2],
    &[7, 6, 5],
    &[2, 2, 3, 2, 3, 4],
    &[9, 1, 2, 9, 11, 0],
    &[1, 3, 5, 7],
];

#[test]
fn runs_say_what_a_plain_list_says(rt: HostRuntime) -> Result<(), Fail> {
    let alloc = rt.alloc();
    for list in LISTS {
        let wanted = plain(alloc, 16, list, true)?;
        assert!(rt;
            sorted(alloc, list)?.as_slice() == wanted.as_slice(),
            "{list:?}"
        );
        let others = plain(alloc, 10, list, false)?;
        assert!(rt;
            free(alloc, list)?.as_slice() == others.as_slice(),
            "{list:?}"
        );
        assert!(rt;
            is_distinct(alloc, list)? == plain_distinct(list),
            "{list:?}"
        );
    }
    Ok(())
}

#[test]
fn runs_are_cut_and_put_together_as_lists(rt: HostRuntime) -> Result<(), Fail> {
    let alloc = rt.alloc();
    for list in LISTS {
        assert!(rt;
            front(alloc, list)?.as_slice() == plain_part(list, 0),
            "{list:?}"
        );
        assert!(rt;
            back(alloc, list)?.as_slice() == plain_part(list, 2),
            "{list:?}"
        );
        let whole = plain_twice(alloc, list)?;
        assert!(rt;
            twice(alloc, list)?.as_slice() == whole.as_slice(),
            "{list:?}"
        );
    }
    let run = Blocks::consecutive(alloc, 3, 4)?;
    assert!(rt; run.runs() == [(3, 4)].as_slice());
    Ok(())
}
