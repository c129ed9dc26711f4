// Images that are written into a store on a disk in memory.

ghost use Rattle.std.specs.Prelude.{◌≡◌, ◌+◌, ◌*◌, ◌<◌, ◌^◌, IfOk};
ghost use Rattle.vab_linear.specs.Map.{run_of};

use std::alloc::Global;
use std::test::*;
use vab_disk::{Disk, MemPort};
use vab_install::{list_differing, write_snapshot};
use vab_linear::Map;
use vab_space::{Chunk, need_at};
use vab_store::StoreView;

// Blocks that follow one another from a sector on.
fn partition(alloc: Global, first: u64, blocks: u64) -> Result<Map, Fail>
    requires { first + 8 * blocks < 2 ^ 60 }
    ensures { IfOk result (λ m. m ≡ run_of first blocks) }
{
    let map = Map::new(alloc, &[(first, 8 * blocks)]);
    match map {
        Ok(map) => Ok(map),
        Err(_) => Err("there is memory for a map")?,
    }
}

// Writes the four blocks of an image beside a partition of three, where the store behind it has
// room.
fn written<D: Disk>(
    alloc: Global,
    d: &mut D,
    base: &Map,
    store: &Map,
    image: &[u8],
) -> Option<StoreView>
    requires base { base.now ≡ run_of 0 3 }
    requires store { store.now ≡ run_of 24 5 }
{
    if d.sectors() < 64 {
        return None;
    }
    let found = match list_differing(alloc, d, Some(base), image, 4, Chunk::One, 4) {
        Ok(found) => found,
        Err(_) => return None,
    };
    let olds = found.chunks?;
    if need_at(found.count, Chunk::One) > store.len() {
        return None;
    }
    match write_snapshot(alloc, d, store, image, &olds, Chunk::One) {
        Ok(view) => Some(view),
        Err(_) => None,
    }
}

// A block of sevens, one of zeros, and a nine.
fn image(alloc: Global) -> Result<Vec<u8>, Fail> {
    let mut bytes = Vec::new(alloc);
    for _i in 0..4096u32 {
        bytes.push(7u8)?;
    }
    for _i in 0..4096u32 {
        bytes.push(0u8)?;
    }
    bytes.push(9u8)?;
    Ok(bytes)
}

#[test]
fn blocks_that_differ_get_exceptions(rt: HostRuntime) -> Result<(), Fail> {
    let alloc = rt.alloc();
    let base = partition(alloc, 0, 3)?;
    let store = partition(alloc, 24, 5)?;
    let port = MemPort::new(alloc, 64, Vec::new(alloc));
    let mut d = port.ok().ok_or("there is memory for a disk")?;
    let image = image(alloc)?;
    let view = written(alloc, &mut d, &base, &store, image.as_slice());
    let view = view.ok_or("an image is written")?;
    assert!(rt; view.count() == 3);
    for (block, chunk) in [(0u64, Some(2u64)), (1, None), (2, Some(3)), (3, Some(4))] {
        assert!(rt; view.chunk_of(block) == chunk, "block {block}");
    }
    assert!(rt; d.sectors() == 64);
    assert!(rt; d.settled_sector(40) == [7; 512]);
    let mut nine = [0; 512];
    nine[0] = 9;
    assert!(rt; d.settled_sector(48) == nine);
    assert!(rt; d.settled_sector(56) == [0; 512]);
    assert!(rt; d.settled_sector(0) == [0; 512]);
    Ok(())
}

#[test]
fn an_empty_image_differs_behind_the_partitions_end(rt: HostRuntime) -> Result<(), Fail> {
    let alloc = rt.alloc();
    let base = partition(alloc, 0, 3)?;
    let store = partition(alloc, 24, 5)?;
    let port = MemPort::new(alloc, 64, Vec::new(alloc));
    let mut d = port.ok().ok_or("there is memory for a disk")?;
    let view = written(alloc, &mut d, &base, &store, &[]);
    let view = view.ok_or("an image is written")?;
    assert!(rt; view.count() == 1);
    assert!(rt; view.chunk_of(3) == Some(2));
    Ok(())
}
