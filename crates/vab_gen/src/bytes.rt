//! The bytes of blocks.

ghost use Rattle.std.specs.Prelude.{◌≡◌, ◌+◌, ◌<◌, ◌≤◌, ◌^◌, ◌++◌, OnOk, IfOk};
ghost use Rattle.vab_gen.specs.Draws.{draw, drawn};
ghost use Rattle.vab_gen.specs.Blocks.{copies, filled, block_of, next_block, joined};

use crate::draws::Draws;
use std::alloc::Global;
use vab_set::{NoMemory, SetImage};
use vab_space::{BLOCK, blocks};

// How often the 8 bytes of a number stand in a block.
const COPIES: u64 = 512;

// A block of the old image is kept where the number that is drawn for it is below this one.
const KEPT: u64 = 1 << 63;

// Adds these bytes so many times.
#[tactic(auto, using(crate::proofs::BlockLaws::copies_none, crate::proofs::BlockLaws::copies_more))]
fn put_copies(out: &mut Vec<u8>, bytes: &[u8], count: u64) -> Result<(), NoMemory>
    ensures { OnOk result (out.new.items ≡ out.old.items ++ copies count bytes.now) }
{
    for _ in 0..count {
        out.extend_from_slice(bytes)?;
    }
    Ok(())
}

// Adds a block that is filled with the bytes of a number.
#[tactic(auto, unfolding(crate::specs::Blocks::filled))]
fn put_filled(out: &mut Vec<u8>, number: u64) -> Result<(), NoMemory>
    ensures { OnOk result (out.new.items ≡ out.old.items ++ filled number) }
{
    put_copies(out, &number.to_le_bytes(), COPIES)
}

// A block of these bytes, with zeros behind them.
fn block_of(bytes: &[u8], index: usize) -> [u8; 4096]
    requires { index < 2 ^ 52 }
    ensures { result ≡ block_of bytes.now index }
{
    let mut block = [0u8; BLOCK];
    let start = (BLOCK * index).min(bytes.len());
    let rest = &bytes[start..];
    let piece = &rest[..rest.len().min(BLOCK)];
    block[..piece.len()].copy_from_slice(piece);
    block
}

// Adds the block in the place of the old image's: that one where there is one and it is kept, or
// else one that is filled.
#[tactic(auto, unfolding(crate::specs::Blocks::next_block))]
fn put_next(out: &mut Vec<u8>, old: &SetImage, index: u64, number: u64) -> Result<(), NoMemory>
    requires { index < 2 ^ 30 }
    ensures { OnOk result (out.new.items ≡ out.old.items ++ next_block old.now index number) }
{
    if number < KEPT && index < blocks(old.size) {
        out.extend_from_slice(&block_of(old.bytes.as_slice(), index as usize))?;
    } else {
        put_filled(out, number)?;
    }
    Ok(())
}

/// So many blocks, each filled with the next number.
#[tactic(auto, using(crate::proofs::BlockLaws::joined_none, crate::proofs::BlockLaws::joined_more, crate::proofs::BlockLaws::drawn_none, crate::proofs::BlockLaws::drawn_more))]
pub fn filled_blocks(alloc: Global, draws: &mut Draws, count: u64) -> Result<Vec<u8>, NoMemory>
    requires { count ≤ 2 ^ 30 }
    ensures bytes { IfOk result
        (λ v. v.items ≡ joined (λ i. filled (drawn (i + 1) draws.old.last)) count) }
    ensures draws { OnOk result (draws.new.last ≡ drawn count draws.old.last) }
{
    let mut out = Vec::with_capacity(alloc, BLOCK * count as usize)?;
    for _ in 0..count {
        put_filled(&mut out, draws.draw())?;
    }
    Ok(out)
}

/// So many blocks in the place of an old image's, each kept or filled as the next number says.
#[tactic(auto, using(crate::proofs::BlockLaws::joined_none, crate::proofs::BlockLaws::joined_more, crate::proofs::BlockLaws::drawn_none, crate::proofs::BlockLaws::drawn_more))]
pub fn next_blocks(
    alloc: Global,
    draws: &mut Draws,
    old: &SetImage,
    count: u64,
) -> Result<Vec<u8>, NoMemory>
    requires { count ≤ 2 ^ 30 }
    ensures bytes { IfOk result
        (λ v. v.items ≡ joined (λ i. next_block old.now i (drawn (i + 1) draws.old.last)) count) }
    ensures draws { OnOk result (draws.new.last ≡ drawn count draws.old.last) }
{
    let mut out = Vec::with_capacity(alloc, BLOCK * count as usize)?;
    for index in 0..count {
        put_next(&mut out, old, index, draws.draw())?;
    }
    Ok(out)
}
