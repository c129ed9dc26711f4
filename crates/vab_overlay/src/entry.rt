//! An entry that is written in its sector.

ghost use Rattle.std.specs.Prelude.{◌≡◌, ◌+◌, ◌/◌, ◌%◌, ◌<◌, ◌≤◌, length, slice_index, OnOk};
ghost use Rattle.vab_disk.specs.Disk.{Adds};
ghost use Rattle.vab_disk.specs.Calls.{Touches, IsAtRest, FailsWithDisk};
ghost use Rattle.vab_space.specs.declared.Chunk.TheVariants.{One};
ghost use Rattle.vab_store.specs.Layout.{slots_of, IsOnDisk};
ghost use Rattle.vab_store.specs.Sectors.{entry_sector};
ghost use Rattle.vab_overlay.specs.Entry.{IsPut, WithEntry, LeavesEntry, IsEntryAt};

use vab_bytes::put_le64;
use vab_disk::Disk;
use vab_exceptions::Exception;
use vab_gate::{DiskFault, SECTOR, get_sector, put_gate};
use vab_linear::Map;
use vab_space::Chunk;

/// Entries of a sector and of a page.
const SECTOR_ENTRIES: u64 = 32;

const PAGE_ENTRIES: u64 = 256;

/// Bytes of an entry.
const ENTRY: usize = 16;

// The sector of the entry at a place, counted through the pages of a store.
fn entry_sector(store: &Map, place: u64) -> u64
    requires { place < slots_of One store.now }
    ensures { result ≡ entry_sector One store.now place }
{
    let _blocks = store.len();
    let page = Chunk::One.page_block(place / PAGE_ENTRIES);
    store.sector_of(page) + place / SECTOR_ENTRIES % (PAGE_ENTRIES / SECTOR_ENTRIES)
}

// Writes the i-th entry of a sector.
fn put_entry(sector: &mut [u8; 512], i: usize, exception: Exception)
    requires { i < 32 }
    ensures { IsPut i exception sector.old sector.new }
{
    put_le64(sector, ENTRY * i, exception.old_chunk);
    put_le64(sector, ENTRY * i + 8, exception.new_chunk);
}

/// Writes the entry at a place, counted through the pages of a store, in its sector alone, and
/// syncs.
pub(crate) fn gate_entry<D: Disk>(
    d: &mut D,
    store: &Map,
    place: u64,
    exception: Exception,
) -> Result<(), DiskFault>
    requires there { place < slots_of One store.now }
    requires on_disk { IsOnDisk store.now (D.size d.old) }
    ensures written { D.is_modelled → OnOk result
        (WithEntry store.now place exception (D.seen d.old) (D.seen d.new)) }
    ensures settled { D.is_modelled → OnOk result (IsAtRest D.Disk d.new) }
    // Where nothing was pending, each outcome is the old disk or the one with that entry.
    ensures gate { D.is_modelled
        → IsAtRest D.Disk d.old
        → Adds D.moment D.outcomes d.old d.new
        (LeavesEntry store.now place exception (D.told d.old) (D.seen d.old)) }
    ensures touches { Touches D.Disk
        (IsEntryAt store.now place exception (D.seen d.old)) d.old d.new }
    ensures faults { FailsWithDisk D.Disk d.old d.new result }
{
    let at = entry_sector(store, place);
    let mut sector = [0; SECTOR];
    get_sector(d, at, &mut sector)?;
    put_entry(&mut sector, (place % SECTOR_ENTRIES) as usize, exception);
    put_gate(d, at, &sector)
}
