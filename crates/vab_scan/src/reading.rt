//! A store, scanned.

ghost use Rattle.std.specs.Prelude.{◌≡◌, ◌<◌, ◌≤◌, length, take, IfOk, IsErrOf};
ghost use Rattle.vab_disk.specs.Calls.{OnlyReads, FailsWithDisk};
ghost use Rattle.vab_store.specs.Answers.{Answers, ReadsStore};
ghost use Rattle.vab_store.specs.Layout.{chunk_bytes, IsOnDisk};
ghost use Rattle.vab_store.specs.Scan.{scan_of};
ghost use Rattle.vab_store.specs.View.{Fits};
ghost use Rattle.vab_scan.specs.List.{finished_of, IsFinished};

use crate::list::{End, Found, read_list};
use std::alloc::Global;
use vab_disk::Disk;
use vab_exceptions::{HeaderFault, decode_store_header};
use vab_gate::{DiskFault, SECTOR};
use vab_linear::{Map, read_at};
use vab_space::Chunk;
use vab_store::{StoreFault, StoreView};

fn first_sector(block: &[u8; 4096]) -> [u8; 512]
    ensures { result ≡ take 512 block.now }
{
    let mut sector = [0; SECTOR];
    sector.copy_from_slice(&block[..512]);
    sector
}

// Reads the header's sector.
fn read_header<D: Disk>(d: &mut D, map: &Map) -> Result<[u8; 512], DiskFault>
    requires some { 0 < length map.now }
    requires on_disk { IsOnDisk map.now (D.size d.old) }
    ensures bytes { D.is_modelled
        → IfOk result (λ bytes. bytes ≡ take 512 (chunk_bytes map.now (D.seen d.old) 0)) }
    ensures reads { OnlyReads D.Disk d.old d.new }
    ensures faults { FailsWithDisk D.Disk d.old d.new result }
{
    let mut block = [0; 4096];
    read_at(d, map, 0, &mut block)?;
    Ok(first_sector(&block))
}

// The answer for what was read of the list.
fn finish(alloc: Global, found: Found) -> Result<StoreView, StoreFault>
    ensures answers { Answers result (finished_of found.items.items found.end) }
    ensures kind { IsErrOf result StoreFault.DiskFault → ⊥ }
    ensures kept { IfOk result (IsFinished found.items.items found.end) }
{
    let Found { items, end } = found;
    match StoreView::indexed(alloc, items) {
        Err(fault) => Err(fault),
        Ok(view) => match end {
            End::Ended => Ok(view),
            End::Unended => Err(StoreFault::Unended),
            End::Bad => Err(StoreFault::BadChunk(view.count())),
        },
    }
}

/// The exceptions of the store on these blocks, whose chunks have this size, or where it has none
/// the first fault. An old chunk has to be one of those in which the first `blocks` blocks stand:
/// so long is the partition that the store is for.
pub fn scan<D: Disk>(
    alloc: Global,
    d: &mut D,
    map: &Map,
    blocks: u64,
    chunk: Chunk,
) -> Result<StoreView, StoreFault>
    requires { IsOnDisk map.now (D.size d.old) }
    ensures answers { D.is_modelled → Answers result
        (scan_of chunk map.now blocks (D.seen d.old)) }
    ensures fits { IfOk result (Fits chunk blocks map.now) }
    ensures reads { OnlyReads D.Disk d.old d.new }
    ensures faults { ReadsStore D.Disk d.old d.new result }
{
    if map.len() < 2 {
        return Err(StoreFault::Unended);
    }
    match read_header(d, map) {
        Err(DiskFault) => Err(StoreFault::DiskFault),
        Ok(header) => match decode_store_header(&header) {
            Err(fault) => Err(StoreFault::Header(fault)),
            Ok(told) => {
                if told.blocks() != chunk.blocks() {
                    return Err(StoreFault::Header(HeaderFault::BadChunk));
                }
                match read_list(alloc, d, map, chunk, blocks) {
                    Err(fault) => Err(fault),
                    Ok(found) => finish(alloc, found),
                }
            }
        },
    }
}
