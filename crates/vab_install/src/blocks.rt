//! The chunks of an image that differ from a partition's blocks.

ghost use Rattle.std.specs.Prelude.{◌≡◌, ◌<◌, ◌≤◌, ◌^◌, [], length, IfOk, IfSome, option_map};
ghost use Rattle.std.specs.Prelude.{unwrap_or};
ghost use Rattle.std.specs.Option.{option_copied};
ghost use Rattle.vab_disk.specs.Calls.{OnlyReads, FailsWithDisk};
ghost use Rattle.vab_space.specs.Chunks.{chunks_for};
ghost use Rattle.vab_space.specs.Differing.{chunk_differs};
ghost use Rattle.vab_store.specs.Layout.{IsOnDisk};
ghost use Rattle.vab_install.specs.Differing.{differs_at, differing_of, AscendsBelow};
ghost use Rattle.vab_install.specs.Pushed.{IsPushed};

use std::alloc::Global;
use vab_disk::Disk;
use vab_gate::DiskFault;
use vab_linear::{Map, read_at};
use vab_space::{BLOCK, Chunk};
use vab_store::image_block;

/// The chunks of an image that differ.
#[derive(Drop)]
pub struct Differing {
    /// How many they are.
    pub count: u64,
    /// Their numbers, in ascending order. There is no list where they are more than were asked for,
    /// or where memory was refused.
    pub chunks: Option<Vec<u64>>,
}

// Whether the image's block isn't the partition's, or the partition has none.
fn differs<D: Disk>(
    d: &mut D,
    base: Option<&Map>,
    image: &[u8],
    block: u64,
) -> Result<bool, DiskFault>
    requires { IsOnDisk (unwrap_or (option_copied base) []) (D.size d.old) }
    ensures exact { D.is_modelled → IfOk result
        (λ b. b
        ≡ differs_at (unwrap_or (option_copied base.entry) []) (D.seen d.old) image.now
        block) }
    ensures reads { OnlyReads D.Disk d.old d.new }
    ensures faults { FailsWithDisk D.Disk d.old d.new result }
{
    let base = match base {
        Some(base) => base,
        None => return Ok(true),
    };
    if block >= base.len() {
        return Ok(true);
    }
    let mut bytes = [0; BLOCK];
    match read_at(d, base, block, &mut bytes) {
        Ok(()) => Ok(bytes.as_slice() != image_block(image, block).as_slice()),
        Err(fault) => Err(fault),
    }
}

// Whether one of the chunk's blocks differs that are among the first `blocks`.
fn chunk_differs<D: Disk>(
    d: &mut D,
    base: Option<&Map>,
    image: &[u8],
    blocks: u64,
    chunk: Chunk,
    number: u64,
) -> Result<bool, DiskFault>
    requires on_disk { IsOnDisk (unwrap_or (option_copied base) []) (D.size d.old) }
    requires within { number < chunks_for chunk blocks }
    requires small { number < 2 ^ 61 }
    ensures exact { D.is_modelled → IfOk result
        (λ b. b
        ≡ chunk_differs chunk
        (differs_at (unwrap_or (option_copied base.entry) []) (D.seen d.old) image.now)
        blocks number) }
    ensures reads { OnlyReads D.Disk d.old d.new }
    ensures faults { FailsWithDisk D.Disk d.old d.new result }
{
    for place in 0..chunk.blocks() {
        let block = chunk.block_in(number, place);
        if block < blocks && differs(d, base, image, block)? {
            return Ok(true);
        }
    }
    Ok(false)
}

// The list with this chunk behind the others, where there is one and it has less than `most`. Where
// memory is refused there is none.
fn push_within(chunks: Option<Vec<u64>>, number: u64, most: u64) -> Option<Vec<u64>>
    ensures { IsPushed (option_map (λ v. v.items) chunks) number most
        (option_map (λ v. v.items) result) }
{
    let mut list = match chunks {
        Some(list) => list,
        None => return None,
    };
    if list.len() as u64 >= most {
        return None;
    }
    match list.push(number) {
        Ok(()) => Some(list),
        Err(_) => None,
    }
}

/// The chunks of an image of so many blocks that differ from the partition's, each block of which
/// is read once. A chunk differs where one of its blocks does that are among the first `blocks`;
/// the image is filled up with zeros, and a block behind the partition's end differs. All are
/// counted, and `most` of them are listed.
pub fn list_differing<D: Disk>(
    alloc: Global,
    d: &mut D,
    base: Option<&Map>,
    image: &[u8],
    blocks: u64,
    chunk: Chunk,
    most: u64,
) -> Result<Differing, DiskFault>
    requires on_disk { IsOnDisk (unwrap_or (option_copied base) []) (D.size d.old) }
    requires small { blocks ≤ 2 ^ 60 }
    ensures count { D.is_modelled → IfOk result
        (λ f. f.count
        ≡ length
        (differing_of chunk (unwrap_or (option_copied base.entry) []) (D.seen d.old)
        image.now blocks)) }
    ensures most { IfOk result (λ f. f.count ≤ blocks) }
    ensures exact { D.is_modelled → IfOk result
        (λ f. IfSome f.chunks
        (λ v. v.items
        ≡ differing_of chunk (unwrap_or (option_copied base.entry) []) (D.seen d.old)
        image.now blocks)) }
    ensures lists { IfOk result
        (λ f. IfSome f.chunks
        (λ v. AscendsBelow (chunks_for chunk blocks) most f.count v.items)) }
    ensures reads { OnlyReads D.Disk d.old d.new }
    ensures faults { FailsWithDisk D.Disk d.old d.new result }
{
    let mut count = 0;
    let mut chunks = Some(Vec::new(alloc));
    for number in 0..chunk.chunks_for(blocks) {
        if chunk_differs(d, base, image, blocks, chunk, number)? {
            count += 1;
            chunks = push_within(chunks, number, most);
        }
    }
    Ok(Differing { count, chunks })
}
