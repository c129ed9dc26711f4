// Texts of tables, as the public format has them (AOSP `metadata_format.h`).

use sha2::{Digest, Sha256};
use std::alloc::Global;
use std::test::*;

const SIZES: [u32; 4] = [52, 24, 48, 64];

/// Writes a name's field, if there is a name, and numbers of 32 bits.
pub(crate) fn put(out: &mut Vec<u8>, name: &[u8], numbers: &[u32]) -> Result<(), Fail> {
    if !name.is_empty() {
        out.extend_from_slice(name)?;
        for _ in name.len()..36 {
            out.push(0)?;
        }
    }
    for number in numbers {
        out.extend_from_slice(&number.to_le_bytes())?;
    }
    Ok(())
}

/// Writes a device of 256 blocks that begins at sector 2048.
pub(crate) fn put_device(out: &mut Vec<u8>) -> Result<(), Fail> {
    put(out, b"", &[2048, 0, 1048576, 0, 2097152, 0])?;
    put(out, b"super", &[0])
}

// What stands behind the header's sum: the length and the sum of the tables, and where each is.
fn back_of(alloc: Global, minor: u8, counts: [u32; 4], tables: &[u8]) -> Result<Vec<u8>, Fail> {
    let mut back = Vec::new(alloc);
    let len = u32::try_from(tables.len()).ok().ok_or("too long")?;
    back.extend_from_slice(&len.to_le_bytes())?;
    back.extend_from_slice(&Sha256::digest(tables))?;
    let mut offset: u32 = 0;
    for i in 0..4 {
        put(&mut back, b"", &[offset, counts[i], SIZES[i]])?;
        offset = offset.wrapping_add(counts[i].wrapping_mul(SIZES[i]));
    }
    if minor == 2 {
        back.extend_from_slice(&[1])?;
        back.extend_from_slice(&[0; 127])?;
    }
    Ok(back)
}

// The header with this sum.
fn header(alloc: Global, minor: u8, sum: &[u8; 32], back: &[u8]) -> Result<Vec<u8>, Fail> {
    let size = if minor == 2 { 1 } else { 0 };
    let mut header = b"0PLA".to_vec(alloc)?;
    header.extend_from_slice(&[10, 0, minor, 0, 128 * (1 - size), size, 0, 0])?;
    header.extend_from_slice(sum)?;
    header.extend_from_slice(back)?;
    Ok(header)
}

/// A text with right sums around these tables, so many of partitions, extents, groups and devices.
pub(crate) fn text_of(
    alloc: Global,
    minor: u8,
    counts: [u32; 4],
    tables: &[u8],
) -> Result<Vec<u8>, Fail> {
    let back = back_of(alloc, minor, counts, tables)?;
    let unsummed = header(alloc, minor, &[0; 32], &back)?;
    let sum = Sha256::digest(unsummed.as_slice());
    let mut text = header(alloc, minor, &sum, &back)?;
    text.extend_from_slice(tables)?;
    Ok(text)
}

/// A text of these groups alone.
pub(crate) fn text_of_groups(alloc: Global, groups: &[&[u8]]) -> Result<Vec<u8>, Fail> {
    let mut tables = Vec::new(alloc);
    for name in groups {
        put(&mut tables, name, &[0, 0, 0])?;
    }
    put_device(&mut tables)?;
    let count = u32::try_from(groups.len()).ok().ok_or("too many")?;
    text_of(alloc, 2, [0, 0, count, 1], &tables)
}
