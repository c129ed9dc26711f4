//! What is told of a partition that is written over.
ghost use Rattle.std.specs.Prelude.{◌≡◌, ◌++◌, ◌*◌, ◌^◌, ◌≤◌, length, OnOk};
ghost use Rattle.vab_device.specs.Mounted.{blocks_there, count_of};
ghost use Rattle.vab_status.specs.Kept as kept;

use crate::line::{Line, bytes_of};
use crate::page::push_line;
use arrayvec::ArrayVec;
use vab_device::{Part, PartImage};
use vab_fbproto::{put, put_decimal};
use vab_model::NoMemory;

/// How many blocks of 4096 bytes the store of a partition has.
pub fn store_blocks(part: &Part) -> u64
    ensures { result ≡ length (blocks_there part.now.store) }
{
    match &part.store {
        None => 0,
        Some(store) => store.len(),
    }
}

/// How many exceptions the store of a partition has.
pub fn exceptions(part: &Part) -> u64
    ensures { result ≡ count_of part.now.image }
{
    match &part.image {
        PartImage::Kept => 0,
        PartImage::Declared => 0,
        PartImage::Written(_, view) => view.count(),
    }
}

// The line of such a partition.
#[tactic(auto, using(vab_bytes::proofs::NameLaws::name_fits))]
fn overlay_line(part: &Part) -> Line
    requires { length part.now.map ≤ 2 ^ 28 }
    ensures { result.items ≡ kept.overlay_line part.now }
{
    let mut line = ArrayVec::new();
    put(b"overlay ", &mut line);
    put(part.name.text(), &mut line);
    put(b" ", &mut line);
    put_decimal(bytes_of(part), &mut line);
    put(b" store ", &mut line);
    put_decimal(store_blocks(part), &mut line);
    put(b" written ", &mut line);
    put_decimal(exceptions(part), &mut line);
    put(b"\n", &mut line);
    line
}

/// Its line, where there is one.
pub(crate) fn push_overlay(overlay: &Option<Part>, page: &mut Vec<u8>) -> Result<(), NoMemory>
    requires { kept.IsSmall overlay.now }
    ensures { OnOk result (page.new.items ≡ page.old.items ++ kept.overlay_page overlay.now) }
{
    match overlay {
        None => Ok(()),
        Some(part) => push_line(&overlay_line(part), page),
    }
}
