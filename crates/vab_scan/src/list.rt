//! The entries of a store, page after page.

ghost use Rattle.std.specs.Prelude.{◌≡◌, ℕ, ◌+◌, ◌*◌, ◌<◌, ◌≤◌, ◌^◌, length, IfOk, IfErr};
ghost use Rattle.vab_disk.specs.Calls.{OnlyReads};
ghost use Rattle.vab_store.specs.Answers.{ReadsStore};
ghost use Rattle.vab_store.specs.Layout.{pages_of, chunks_of, IsOnDisk};
ghost use Rattle.vab_store.specs.Scan.{lies};
ghost use Rattle.vab_scan.specs.List.{Takes, StepsOver, IsFound, IsKept, IsOutside};

use std::alloc::Global;
use vab_disk::{Disk, NoMemory};
use vab_exceptions::{Exception, decode_area};
use vab_gate::DiskFault;
use vab_linear::{Map, read_at};
use vab_space::Chunk;
use vab_store::StoreFault;

/// Entries of a page.
const PAGE_ENTRIES: usize = 256;

/// Why no further exception is read.
#[derive(Clone, Copy, Debug, PartialEq, Eq)]
pub(crate) enum End {
    /// An entry ends the list.
    Ended,
    /// The last page is full.
    Unended,
    /// The next exception doesn't lie in the partition and in the store.
    Bad,
}

/// The exceptions before the end, or before the first that doesn't lie there.
#[derive(Drop)]
pub(crate) struct Found {
    pub(crate) items: Vec<Exception>,
    pub(crate) end: End,
}

fn lies(exception: &Exception, chunk: Chunk, chunks: u64, bound: u64) -> bool
    ensures { result ≡ lies chunk chunks bound exception.now }
{
    exception.old_chunk < bound
        && (exception.new_chunk < chunks && chunk.is_data(exception.new_chunk))
}

/// Adds the exceptions of a page up to the first that doesn't lie there, and says whether all do.
fn take_lying(
    items: &mut Vec<Exception>,
    page: &[Exception],
    chunk: Chunk,
    chunks: u64,
    bound: u64,
) -> Result<bool, NoMemory>
    ensures { IfOk result (Takes chunk chunks bound page.now items.old.items items.new.items) }
{
    for exception in page {
        if !lies(exception, chunk, chunks, bound) {
            return Ok(false);
        }
        items.push(*exception)?;
    }
    Ok(true)
}

/// Reads a page and adds its exceptions. An answer says why it is the last.
fn read_page<D: Disk>(
    d: &mut D,
    map: &Map,
    chunk: Chunk,
    page: u64,
    items: &mut Vec<Exception>,
    bound: u64,
) -> Result<Option<End>, StoreFault>
    requires on_disk { IsOnDisk map.now (D.size d.old) }
    requires there { page < pages_of chunk map.now }
    ensures step { IfOk result
        (StepsOver D.is_modelled chunk map.now bound (D.seen d.old) page
        items.old.items items.new.items) }
    ensures kind { IfErr result IsOutside }
    ensures reads { OnlyReads D.Disk d.old d.new }
    ensures faults { ReadsStore D.Disk d.old d.new result }
{
    let blocks = map.len();
    let mut block = [0; 4096];
    match read_at(d, map, chunk.page_block(page), &mut block) {
        Ok(()) => {}
        Err(DiskFault) => return Err(StoreFault::DiskFault),
    }
    let found = decode_area(&block);
    let entries = found.as_slice();
    match take_lying(
        items,
        entries,
        chunk,
        chunk.chunks_in(blocks),
        chunk.chunks_for(bound),
    ) {
        Err(NoMemory) => Err(StoreFault::NoMemory),
        Ok(false) => Ok(Some(End::Bad)),
        Ok(true) => {
            if entries.len() < PAGE_ENTRIES {
                Ok(Some(End::Ended))
            } else {
                Ok(None)
            }
        }
    }
}

/// Reads the pages of a store up to the end of its list, or to the first exception that doesn't lie
/// there.
pub(crate) fn read_list<D: Disk>(
    alloc: Global,
    d: &mut D,
    map: &Map,
    chunk: Chunk,
    bound: u64,
) -> Result<Found, StoreFault>
    requires { IsOnDisk map.now (D.size d.old) }
    ensures found { D.is_modelled
        → IfOk result (λ f. IsFound chunk map.now bound (D.seen d.old) f.items.items f.end) }
    ensures kept { IfOk result (λ f. IsKept chunk map.now bound f.items.items f.end) }
    ensures kind { IfErr result IsOutside }
    ensures reads { OnlyReads D.Disk d.old d.new }
    ensures faults { ReadsStore D.Disk d.old d.new result }
{
    let mut items = Vec::new(alloc);
    for page in 0..chunk.pages_in(map.len()) {
        match read_page(d, map, chunk, page, &mut items, bound) {
            Err(fault) => return Err(fault),
            Ok(Some(end)) => return Ok(Found { items, end }),
            Ok(None) => {}
        }
    }
    Ok(Found {
        items,
        end: End::Unended,
    })
}
