//! Entries that are zeroed in their sectors.

ghost use Rattle.std.specs.Prelude.{◌≡◌, ℕ, ◌+◌, ◌-◌, ◌/◌, ◌<◌, ◌≤◌, length, slice_index, OnOk};
ghost use Rattle.vab_disk.specs.Calls.{Touches, FailsWithDisk};
ghost use Rattle.vab_store.specs.Layout.{slots_of, pages_of, IsOnDisk, IsApart};
ghost use Rattle.vab_store.specs.Sectors.{page_sector};
ghost use Rattle.vab_merge.specs.Cleared.{IsCleared, IsClearing, AreCleared};

use vab_bytes::put_le64;
use vab_disk::Disk;
use vab_gate::{DiskFault, SECTOR, get_sector, put_sector};
use vab_linear::Map;
use vab_space::Chunk;

/// Entries of a sector.
const SECTOR_ENTRIES: u64 = 32;

/// Sectors of a page.
const PAGE_SECTORS: u64 = 8;

// The i-th sector of a store's pages.
fn sector_at(store: &Map, chunk: Chunk, i: u64) -> u64
    requires { i / 8 < pages_of chunk store.now }
    ensures { result ≡ page_sector chunk store.now i }
{
    let _blocks = store.len();
    store.sector_of(chunk.page_block(i / PAGE_SECTORS)) + i % PAGE_SECTORS
}

// Zeroes the entries of a sector from the one up to the other.
fn clear_sector(sector: &mut [u8; 512], from: usize, to: usize)
    requires order { from ≤ to }
    requires within { to ≤ 32 }
    ensures { IsCleared from to sector.old sector.new }
{
    for i in from..to {
        put_le64(sector, 16 * i, 0);
        put_le64(sector, 16 * i + 8, 0);
    }
}

/// Zeroes the entries from `first` up to `end` of a store, counted through its pages, in their
/// sectors alone, and doesn't sync.
pub(crate) fn clear_entries<D: Disk>(
    d: &mut D,
    store: &Map,
    chunk: Chunk,
    first: u64,
    end: u64,
) -> Result<(), DiskFault>
    requires order { first < end }
    requires there { end ≤ slots_of chunk store.now }
    requires on_disk { IsOnDisk store.now (D.size d.old) }
    requires apart { D.is_modelled → IsApart store.now }
    ensures cleared { D.is_modelled → OnOk result
        (AreCleared chunk store.now first end (D.seen d.old) (D.seen d.new)) }
    ensures touches { Touches D.Disk
        (IsClearing chunk store.now first end (D.seen d.old)) d.old d.new }
    ensures faults { FailsWithDisk D.Disk d.old d.new result }
{
    for i in first / SECTOR_ENTRIES..end.div_ceil(SECTOR_ENTRIES) {
        let at = sector_at(store, chunk, i);
        let before = SECTOR_ENTRIES * i;
        let mut sector = [0; SECTOR];
        get_sector(d, at, &mut sector)?;
        clear_sector(
            &mut sector,
            first.saturating_sub(before) as usize,
            (end - before).min(SECTOR_ENTRIES) as usize,
        );
        put_sector(d, at, &sector)?;
    }
    Ok(())
}
