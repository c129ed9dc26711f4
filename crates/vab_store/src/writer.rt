//! A store written for an image.

ghost use Rattle.std.specs.Prelude.{◌≡◌, ℕ, ◌+◌, ◌*◌, ◌<◌, ◌≤◌, ◌^◌, length, slice_index, All, Ok};
ghost use Rattle.std.specs.Prelude.{OnOk};
ghost use Rattle.std.specs.List.Sorted.{IsStrictlyIncreasing};
ghost use Rattle.vab_disk.specs.Calls.{InSectors, Touches, FailsWithDisk};
ghost use Rattle.vab_space.specs.Chunks.{blocks_in, block_in, chunks_for, need_at, new_chunk_of};
ghost use Rattle.vab_exceptions.specs.Entries.{area_bytes};
ghost use Rattle.vab_store.specs.Scan.{scan_of};
ghost use Rattle.vab_store.specs.Layout.{chunk_bytes, IsOnDisk, IsApart, InFirst};
ghost use Rattle.vab_store.specs.Writing.{planned_at, planned_of, page_entries_of, header_block};
ghost use Rattle.vab_store.specs.Writing.{block_of, store_block, HoldsStore};

use arrayvec::ArrayVec;
use vab_disk::Disk;
use vab_exceptions::{Exception, encode_area, encode_store_header};
use vab_gate::{DiskFault, SECTOR};
use vab_linear::{Map, write_at};
use vab_space::{BLOCK, Chunk, need_at};

/// Entries of a page.
const PAGE_ENTRIES: usize = 256;

// The block with the header.
fn header_block(chunk: Chunk) -> [u8; 4096]
    ensures { result ≡ header_block chunk }
{
    let mut bytes = [0; BLOCK];
    bytes[..SECTOR].copy_from_slice(&encode_store_header(chunk));
    bytes
}

// The j-th exception of a store that we write.
pub(crate) fn planned(chunk: Chunk, olds: &[u64], j: usize) -> Exception
    requires there { j < length olds.now }
    requires small { j < 2 ^ 62 }
    ensures { result ≡ planned_at chunk olds.now j }
{
    Exception {
        old_chunk: olds[j],
        new_chunk: chunk.new_chunk(j as u64),
    }
}

// A page of entries.
fn page_block(chunk: Chunk, olds: &[u64], page: usize) -> [u8; 4096]
    requires small { length olds.now < 2 ^ 62 }
    requires page { page < 2 ^ 54 }
    ensures { result ≡ area_bytes 4096 (page_entries_of chunk olds.now page) }
{
    let first = PAGE_ENTRIES * page;
    let count = olds.len().saturating_sub(first).min(PAGE_ENTRIES);
    let mut entries = ArrayVec::new();
    for i in 0..count {
        entries.push(planned(chunk, olds, first + i));
    }
    let mut bytes = [0; BLOCK];
    encode_area(&entries, &mut bytes);
    bytes
}

/// Block `block` of an image, 4096 bytes each, with zeros behind the image's end.
pub fn image_block(image: &[u8], block: u64) -> [u8; 4096]
    ensures { result ≡ block_of image.now block }
{
    let mut bytes = [0; BLOCK];
    if block <= (image.len() / BLOCK) as u64 {
        let rest = &image[BLOCK * block as usize..];
        let count = rest.len().min(BLOCK);
        bytes[..count].copy_from_slice(&rest[..count]);
    }
    bytes
}

// A block of a chunk of the image, with zeros behind its end.
fn image_block_in(image: &[u8], chunk: Chunk, old: u64, place: u64) -> [u8; 4096]
    requires { place < 4 }
    ensures { result ≡ block_of image.now (block_in chunk old place) }
{
    if old <= (image.len() / BLOCK) as u64 {
        image_block(image, chunk.block_in(old, place))
    } else {
        [0; BLOCK]
    }
}

// What a block of the store holds.
#[tactic(auto, unfolding(crate::specs::Writing::store_block))]
fn store_block(chunk: Chunk, olds: &[u64], image: &[u8], block: u64) -> [u8; 4096]
    requires there { block < need_at (length olds.now) chunk }
    requires small { length olds.now < 2 ^ 62 }
    requires block { block < 2 ^ 60 }
    ensures { result ≡ store_block chunk olds.now image.now block }
{
    let number = chunk.chunk_at(block);
    let place = chunk.place_in(block);
    if number == 0 {
        if place == 0 {
            header_block(chunk)
        } else {
            [0; BLOCK]
        }
    } else if chunk.is_area(number) {
        page_block(chunk, olds, chunk.page_of(block) as usize)
    } else {
        image_block_in(image, chunk, olds[chunk.entry_of(number) as usize], place)
    }
}

/// Writes a store with an exception for each of these chunks of an image, which ascend: the header,
/// the areas, and in the new chunk of each exception the image's blocks. With areas of `n` entries
/// the new chunk of exception `j` is `2 + j + j / n`. Behind the image's end there are zeros. It
/// doesn't sync.
pub fn write_store<D: Disk>(
    d: &mut D,
    map: &Map,
    olds: &[u64],
    image: &[u8],
    chunk: Chunk,
) -> Result<(), DiskFault>
    requires room { need_at (length olds.now) chunk ≤ length map.now }
    requires ascend { IsStrictlyIncreasing olds.now }
    requires on_disk { IsOnDisk map.now (D.size d.old) }
    requires apart { D.is_modelled → IsApart map.now }
    ensures holds { D.is_modelled → OnOk result
        (HoldsStore chunk map.now olds.now image.now (D.seen d.new)
        (need_at (length olds.now) chunk)) }
    // A scan then gives these exceptions, whatever the blocks held before.
    ensures scanned { D.is_modelled → OnOk result
        ((bound : ℕ)
        → All (λ old. old < chunks_for chunk bound) olds.now
        → scan_of chunk map.now bound (D.seen d.new) ≡ Ok (planned_of chunk olds.now)) }
    ensures blocks { D.is_modelled → OnOk result
        ((j r : ℕ)
        → j < length olds.now
        → r < blocks_in chunk
        → chunk_bytes map.now (D.seen d.new) (block_in chunk (new_chunk_of chunk j) r)
        ≡ block_of image.now (block_in chunk (slice_index olds.now j) r)) }
    // Blocks behind the last one that is needed stay.
    ensures touches { Touches D.Disk
        (InSectors (InFirst map.now (need_at (length olds.now) chunk))) d.old d.new }
    ensures faults { FailsWithDisk D.Disk d.old d.new result }
{
    let _blocks = map.len();
    for block in 0..need_at(olds.len() as u64, chunk) {
        write_at(d, map, block, &store_block(chunk, olds, image, block))?;
    }
    Ok(())
}
