//! Whether a store's list ends clean.

ghost use Rattle.std.specs.Prelude.{◌≡◌, ◌<◌, ◌≤◌, length, IfOk};
ghost use Rattle.vab_disk.specs.Calls.{OnlyReads, FailsWithDisk};
ghost use Rattle.vab_space.specs.declared.Chunk.TheVariants.{One};
ghost use Rattle.vab_store.specs.Clean.{is_clear, ends_clean};
ghost use Rattle.vab_store.specs.Layout.{slots_of, IsOnDisk};

use vab_bytes::le64_at;
use vab_disk::Disk;
use vab_gate::DiskFault;
use vab_linear::{Map, read_at};
use vab_space::Chunk;

/// Entries of a page.
const PAGE_ENTRIES: usize = 256;

/// Bytes of an entry, and where its new chunk stands in them.
const ENTRY: usize = 16;

const NEW_CHUNK: usize = 8;

// Whether no entry of a page is an exception from this one on.
fn is_clear(page: &[u8; 4096], from: usize) -> bool
    requires { from ≤ 256 }
    ensures { result ≡ is_clear page.now from }
{
    for i in from..PAGE_ENTRIES {
        if le64_at(page, ENTRY * i + NEW_CHUNK) != 0 {
            return false;
        }
    }
    true
}

/// Whether the page of a store in which a list of so many exceptions ends has no exception behind
/// that end. Chunks are of one block. The other pages are not looked at.
pub fn ends_clean<D: Disk>(d: &mut D, store: &Map, count: u64) -> Result<bool, DiskFault>
    requires on_disk { IsOnDisk store.now (D.size d.old) }
    requires there { count < slots_of One store.now }
    ensures exact { D.is_modelled
        → IfOk result (λ clean. clean ≡ ends_clean store.now count (D.seen d.old)) }
    ensures reads { OnlyReads D.Disk d.old d.new }
    ensures faults { FailsWithDisk D.Disk d.old d.new result }
{
    let _blocks = store.len();
    let mut page = [0; 4096];
    let number = Chunk::One.page_block(count / PAGE_ENTRIES as u64);
    read_at(d, store, number, &mut page)?;
    Ok(is_clear(&page, (count % PAGE_ENTRIES as u64) as usize))
}
