// Sets of known seeds.

use std::alloc::Global;
use std::test::*;
use vab_gen::{next_scaled, next_set, set_from, set_scaled};
use vab_set::Set;

const BLOCK: usize = 4096;

// The blocks of the images.
fn blocks_of(alloc: Global, set: &Set) -> Result<Vec<u64>, Fail> {
    let mut blocks = Vec::new(alloc);
    for image in set.as_slice() {
        blocks.push(image.size / BLOCK as u64)?;
    }
    Ok(blocks)
}

// The 8 bytes at a place of an image, as a number of its hexadecimal digits.
fn bytes_at(set: &Set, image: usize, at: usize) -> u64 {
    match set.as_slice().get(image) {
        Some(image) => {
            let front = image.bytes.as_slice().iter().skip(at).take(8);
            front.fold(0u64, |so_far, byte| {
                so_far.wrapping_mul(256).wrapping_add(u64::from(*byte))
            })
        }
        None => 0,
    }
}

#[test]
fn images_of_seeds_are_known(rt: HostRuntime) -> Result<(), Fail> {
    let alloc = rt.alloc();
    // The seed and the scale; the blocks of its set and of the next one; the first 8 bytes of `odm`
    // and the last 8 of `vendor` in both.
    let cases = [
        (
            (0u64, 1u64),
            ([19u64, 18, 10, 12], [22u64, 20, 11, 14]),
            (0x326dba8411ee081au64, 0x55fe999d6b84e757u64),
            (0x326dba8411ee081au64, 0x9d708f6a42a52eb6u64),
        ),
        (
            (7, 1),
            ([18, 19, 12, 17], [20, 20, 12, 20]),
            (0x912ea88f7f1aa6f4, 0x953db156456b8a80),
            (0x912ea88f7f1aa6f4, 0x73133b019aaf0349),
        ),
        (
            (0, 16),
            ([304, 224, 64, 304], [352, 272, 112, 352]),
            (0x326dba8411ee081a, 0x34c38334469f42bf),
            (0x326dba8411ee081a, 0xf4e2ab22f84d1237),
        ),
    ];
    for ((seed, scale), (blocks, grown), (front, back), (next_front, next_back)) in cases {
        let low = scale <= 64;
        assert!(rt; low);
        let set = set_scaled(alloc, seed, scale)
            .ok()
            .ok_or("there is memory")?;
        assert!(rt; blocks_of(alloc, &set)?.as_slice() == blocks.as_slice());
        assert!(rt; bytes_at(&set, 0, 0) == front);
        let last = (blocks[3] as usize).saturating_mul(BLOCK).saturating_sub(8);
        assert!(rt; bytes_at(&set, 3, last) == back);
        let next = next_scaled(alloc, seed, scale, &set)
            .ok()
            .ok_or("there is memory")?;
        assert!(rt; blocks_of(alloc, &next)?.as_slice() == grown.as_slice());
        assert!(rt; bytes_at(&next, 0, 0) == next_front);
        let last = (grown[3] as usize).saturating_mul(BLOCK).saturating_sub(8);
        assert!(rt; bytes_at(&next, 3, last) == next_back);
    }
    Ok(())
}

#[test]
fn kept_blocks_are_those_of_the_old_image(rt: HostRuntime) -> Result<(), Fail> {
    let alloc = rt.alloc();
    let set = set_from(alloc, 0).ok().ok_or("there is memory")?;
    let next = next_set(alloc, 0, &set).ok().ok_or("there is memory")?;
    // Which blocks of `odm` and of `product` stay.
    let kept = [
        (0usize, 19usize, "kkkkkkkkkkkkkkkkkkk"),
        (1, 18, "kkkkkfkkfkfffffkkk"),
    ];
    for (image, blocks, marks) in kept {
        for (block, mark) in (0..blocks).zip(marks.bytes()) {
            let at = BLOCK.saturating_mul(block);
            let same = bytes_at(&set, image, at) == bytes_at(&next, image, at);
            assert!(rt; same == (mark == b'k'), "block {block} of image {image}");
        }
    }
    for (image, name) in next
        .as_slice()
        .iter()
        .zip(["odm", "product", "system", "vendor"])
    {
        assert!(rt; image.name.text() == name.as_bytes());
        assert!(rt; image.store == 0);
        assert!(rt; image.bytes.len() as u64 == image.size);
    }
    Ok(())
}
