//! The data of a block that is written into a store.

ghost use Rattle.std.specs.Prelude.{◌≡◌, ◌≢◌, ◌+◌, ◌/◌, ◌%◌, ◌<◌, ◌≤◌, ◌^◌, length, replicate};
ghost use Rattle.std.specs.Prelude.{OnOk, IfSome};
ghost use Rattle.std.specs.Option.{ForSome};
ghost use Rattle.vab_disk.specs.Calls.{Touches, IsAtRest, FailsWithDisk};
ghost use Rattle.vab_store.specs.Layout.{chunk_bytes, IsOnDisk, IsApart};
ghost use Rattle.vab_overlay.specs.Data.{next_page, IsZeroAt, IsDataAt};

use vab_disk::Disk;
use vab_gate::{DiskFault, settle};
use vab_linear::{Map, write_at};
use vab_space::Chunk;

/// Entries of a page.
const PAGE_ENTRIES: u64 = 256;

/// The block of the next page of a store of `count` exceptions, where an entry behind them fills
/// its page.
pub(crate) fn next_page(count: u64, place: u64) -> Option<u64>
    requires { place + 256 < 2 ^ 60 }
    ensures { result ≡ next_page count place }
{
    if place == count && place % PAGE_ENTRIES == PAGE_ENTRIES - 1 {
        Some(Chunk::One.page_block(place / PAGE_ENTRIES + 1))
    } else {
        None
    }
}

// Writes zeros into a page of a store, where there is one.
fn zero_page<D: Disk>(d: &mut D, store: &Map, page: Option<u64>) -> Result<(), DiskFault>
    requires page { ForSome page (λ page. page < length store.now) }
    requires on_disk { IsOnDisk store.now (D.size d.old) }
    ensures zeros { D.is_modelled → OnOk result
        (IfSome page (λ page.
        chunk_bytes store.now (D.seen d.new) page ≡ replicate 4096 0)) }
    ensures touches { Touches D.Disk (IsZeroAt store.now page) d.old d.new }
    ensures faults { FailsWithDisk D.Disk d.old d.new result }
{
    match page {
        None => Ok(()),
        Some(page) => write_at(d, store, page, &[0; 4096]),
    }
}

/// Writes these bytes into a block of a store and zeros into the next page, where there is one, and
/// syncs.
pub(crate) fn put_data<D: Disk>(
    d: &mut D,
    store: &Map,
    chunk: u64,
    from: &[u8; 4096],
    next: Option<u64>,
) -> Result<(), DiskFault>
    requires chunk { chunk < length store.now }
    requires next { ForSome next (λ page. page < length store.now) }
    requires other { ForSome next (λ page. page ≢ chunk) }
    requires on_disk { IsOnDisk store.now (D.size d.old) }
    requires apart { D.is_modelled → IsApart store.now }
    ensures bytes { D.is_modelled → OnOk result
        (chunk_bytes store.now (D.seen d.new) chunk ≡ from.now) }
    ensures zeros { D.is_modelled → OnOk result
        (IfSome next (λ page.
        chunk_bytes store.now (D.seen d.new) page ≡ replicate 4096 0)) }
    ensures settled { D.is_modelled → OnOk result (IsAtRest D.Disk d.new) }
    ensures touches { Touches D.Disk (IsDataAt store.now chunk from.now next) d.old d.new }
    ensures faults { FailsWithDisk D.Disk d.old d.new result }
{
    write_at(d, store, chunk, from)?;
    zero_page(d, store, next)?;
    settle(d)
}
