// What a set and a disk refuse by their sizes.
ghost use Rattle.std.specs.Prelude.{◌≡◌, ◌+◌, ◌≤◌, ◌^◌, ℕ, OnOk, IfErr};
ghost use Rattle.vab_set.specs.Spelling.{IsSet};
ghost use Rattle.vab_tables.specs.Rules.{cap_of};
ghost use Rattle.vab_make.specs.Made.{set_blocks, made_device, refusal_of};
ghost use Rattle.vab_make.specs.Refusals.{Refuses, PassesSizes};

use crate::fault::MakeFault;
use vab_set::Set;
use vab_space::{BLOCK, blocks};

// The least disk: the copies of two slots' tables, and one block behind the first megabyte of
// `super`.
const LEAST: u64 = 6152;

// The disk sector of the device's first block.
pub const FIRST: u64 = 6144;

/// The blocks of 4096 bytes that all images of a set take.
pub fn set_blocks(set: &Set) -> u64
    requires { IsSet set.now }
    ensures blocks { result ≡ set_blocks set.now }
    ensures few { result ≤ 2 ^ 34 }
{
    let mut sum = 0;
    for image in set.as_slice() {
        sum += blocks(image.size);
    }
    sum
}

/// The blocks that a made device has on a disk of so many sectors.
pub fn capacity(sectors: u64) -> u64
    requires { 6152 ≤ sectors }
    ensures { result ≡ cap_of (made_device sectors) }
{
    (sectors - FIRST) / 8
}

// The first of the refusals that sizes decide.
pub fn check_sizes(set: &Set, limit: u64, sectors: u64) -> Result<(), MakeFault>
    requires { IsSet set.now }
    ensures passed { OnOk result (PassesSizes set.now limit sectors) }
    ensures refused { IfErr result (λ f. (max : ℕ)
        → Refuses f (refusal_of set.now limit max sectors)) }
{
    if sectors < LEAST {
        return Err(MakeFault::TooSmall(LEAST, sectors));
    }
    let used = set_blocks(set);
    if limit != 0 && limit < BLOCK as u64 * used {
        return Err(MakeFault::GroupLimit(BLOCK as u64 * used, limit));
    }
    let cap = capacity(sectors);
    if cap < used {
        return Err(MakeFault::NoRoom(used, cap));
    }
    Ok(())
}
