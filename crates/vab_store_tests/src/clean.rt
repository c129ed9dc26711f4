// Lists of exceptions that end clean, and those with an exception behind their end.
use crate::overlay::written;
use crate::pair::{Pair, ascending};
use std::alloc::Global;
use std::test::*;
use vab_disk::{Disk, MemPort};
use vab_space::Chunk;

// Changes a byte of a sector.
fn spoil(d: &mut MemPort, at: u64, byte: usize) -> bool {
    let mut sector = [0; 512];
    if byte >= 512 || at >= d.sectors() || d.read_sector(at, &mut sector).is_err() {
        return false;
    }
    sector[byte] ^= 1;
    d.write_sector(at, &sector).is_ok()
}

// Whether a list of so many exceptions ends clean, where a byte of a sector was changed.
fn ends_clean(
    alloc: Global,
    pair: &Pair,
    count: u16,
    spoiled: Option<(u64, usize)>,
) -> Result<Option<bool>, Fail> {
    let count = u64::from(count);
    let mut d = written(alloc, pair, &ascending(alloc, 0, count)?)?;
    if let Some((at, byte)) = spoiled
        && !spoil(&mut d, at, byte)
    {
        return Ok(None);
    }
    Ok(pair.ends_clean(&mut d, count))
}

// The store begins at sector 2400. Its first page has the sectors from 2408 on and its second one
// those from 4464 on, of 32 entries each; the new chunk of an entry begins at its byte 8.
#[test]
fn a_list_ends_clean_where_its_last_page_has_no_other_exception(
    rt: HostRuntime,
) -> Result<(), Fail> {
    let alloc = rt.alloc();
    let pair = Pair::new(alloc, 300, 262, Chunk::One)?;
    for (count, spoiled, clean) in [
        (0, None, true),
        (0, Some((2408, 8)), false),
        (0, Some((2415, 504)), false),
        (0, Some((4464, 8)), true),
        (255, None, true),
        (255, Some((2415, 504)), false),
        (255, Some((4464, 8)), true),
        (256, None, true),
        (256, Some((4464, 8)), false),
        (256, Some((4471, 504)), false),
    ] {
        let found = ends_clean(alloc, &pair, count, spoiled)?;
        assert_eq!(rt; found, Some(clean), "of {count} and {spoiled:?}");
    }
    Ok(())
}
