//! Areas: lists of exceptions, one block long.

ghost use Rattle.std.specs.Prelude.{◌≡◌, ◌+◌, ◌*◌, ◌/◌, ◌≤◌, ◌<◌, length};
ghost use Rattle.vab_exceptions.specs.Entries.{AllListed, FitsEntry, entry_at};
ghost use Rattle.vab_exceptions.specs.Entries.{area_of, put_entry, area_bytes};

use arrayvec::ArrayVec;
use vab_bytes::{le64_at, put_le64};

/// The most exceptions that an area holds.
pub const AREA_ENTRIES: usize = 1024;

/// Bytes of an entry.
const ENTRY: usize = 16;

/// A chunk of a partition that is read from its exception store. Both numbers count chunks of 4096
/// bytes from 0.
#[derive(Clone, Copy, Debug, Default, PartialEq, Eq)]
pub struct Exception {
    /// The chunk of the partition.
    pub old_chunk: u64,
    /// The chunk of the store that stands for it. 0 is no exception: it ends the list.
    pub new_chunk: u64,
}

/// The exceptions of one area, in their order.
pub type Area = ArrayVec<Exception, 1024>;

// The entry at a place of an area.
#[tactic(auto, unfolding(crate::specs::Entries::entry_at))]
fn entry_at(bytes: &[u8], i: usize) -> Exception
    requires { 16 * i + 16 ≤ length bytes.now }
    ensures { result ≡ entry_at bytes.now i }
{
    Exception {
        old_chunk: le64_at(bytes, ENTRY * i),
        new_chunk: le64_at(bytes, ENTRY * i + 8),
    }
}

/// The entries of an area up to the first whose new chunk is 0, which ends the list. An entry is
/// its old chunk and its new chunk, in eight bytes each, the low byte first.
pub fn decode_area(bytes: &[u8]) -> Area
    requires { length bytes.now ≤ 16384 }
    ensures { result.items ≡ area_of (length bytes.now / 16) bytes.now }
{
    let mut area = ArrayVec::new();
    for i in 0..bytes.len() / ENTRY {
        let entry = entry_at(bytes, i);
        if entry.new_chunk == 0 {
            return area;
        }
        area.push(entry);
    }
    area
}

// Writes the entry at a place of an area.
fn put_entry(bytes: &mut [u8], i: usize, entry: &Exception)
    requires { 16 * i + 16 ≤ length bytes.old }
    ensures bytes { bytes.new ≡ put_entry bytes.old i entry.now }
    ensures fits { FitsEntry entry.now }
{
    put_le64(bytes, ENTRY * i, entry.old_chunk);
    put_le64(bytes, ENTRY * i + 8, entry.new_chunk);
}

/// Writes an area with these exceptions: their entries, and zeros behind them.
pub fn encode_area(area: &Area, bytes: &mut [u8])
    requires room { 16 * length area.now.items ≤ length bytes.old }
    ensures bytes { bytes.new ≡ area_bytes (length bytes.old) area.now.items }
    // Where no entry ends the list, what is written is read back.
    ensures read { AllListed area.now.items
        → area_of (length bytes.old / 16) bytes.new ≡ area.now.items }
{
    bytes.fill(0);
    for (i, entry) in area.as_slice().iter().enumerate() {
        put_entry(bytes, i, entry);
    }
}
