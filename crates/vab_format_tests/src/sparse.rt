// Sparse images: what each chunk gives, and what is wrong with other files.

use std::alloc::Global;
use std::test::*;
use vab_sparse::{SparseFault, expand, is_sparse};

// An image of four blocks of four bytes: raw `abcd`, two filled with `wxyz`, one that isn't cared
// for, and the CRC-32 of them all, as zlib has it.
const FILE: [u8; 88] = [
    58, 255, 38, 237, 1, 0, 0, 0, 28, 0, 12, 0, 4, 0, 0, 0, 4, 0, 0, 0, 4, 0, 0, 0, 0, 0, 0, 0,
    193, 202, 0, 0, 1, 0, 0, 0, 16, 0, 0, 0, 97, 98, 99, 100, 194, 202, 0, 0, 2, 0, 0, 0, 16, 0, 0,
    0, 119, 120, 121, 122, 195, 202, 0, 0, 1, 0, 0, 0, 12, 0, 0, 0, 196, 202, 0, 0, 0, 0, 0, 0, 16,
    0, 0, 0, 125, 39, 99, 50,
];

const IMAGE: &[u8; 16] = b"abcdwxyzwxyz\0\0\0\0";

// The file with one byte changed.
fn changed(at: usize, byte: u8) -> [u8; 88] {
    let mut file = FILE;
    if at < 88 {
        file[at] = byte;
    }
    file
}

fn fault_of(alloc: Global, file: &[u8]) -> Option<SparseFault> {
    expand(alloc, file, 16).err()
}

#[test]
fn each_chunk_of_a_sparse_file_gives_its_blocks(rt: HostRuntime) -> Result<(), Fail> {
    assert!(rt; is_sparse(&FILE));
    assert!(rt; !is_sparse(IMAGE));
    let image = expand(rt.alloc(), &FILE, 16)
        .ok()
        .ok_or("it is a sparse image")?;
    assert!(rt; image.as_slice() == IMAGE.as_slice());
    Ok(())
}

#[test]
fn the_first_fault_of_a_sparse_file_is_told(rt: HostRuntime) -> Result<(), Fail> {
    let alloc = rt.alloc();
    assert_eq!(rt;
        expand(alloc, &FILE, 15).err(),
        Some(SparseFault::TooLarge(16))
    );
    let cuts = [
        (3usize, SparseFault::NotSparse),
        (27, SparseFault::Cut(0)),
        (28, SparseFault::Cut(28)),
        (43, SparseFault::Cut(28)),
        (59, SparseFault::Cut(44)),
        (87, SparseFault::Cut(72)),
    ];
    for (len, want) in cuts {
        assert_eq!(rt; fault_of(alloc, &FILE[..len]), Some(want), "of {len} bytes");
    }
    let changes = [
        (0usize, 0u8, SparseFault::NotSparse),
        (4, 2, SparseFault::BadVersion(2)),
        (8, 27, SparseFault::BadHeader(27)),
        (10, 11, SparseFault::BadChunkHeader(11)),
        (12, 6, SparseFault::BadBlock(6)),
        (16, 5, SparseFault::TooLarge(20)),
        (16, 3, SparseFault::TooManyBlocks(60)),
        (20, 5, SparseFault::Cut(88)),
        (20, 3, SparseFault::Trailing(72)),
        (20, 2, SparseFault::TooFewBlocks(1)),
        (24, 1, SparseFault::BadChecksum),
        (28, 0xc5, SparseFault::BadType(28)),
        (36, 15, SparseFault::BadSize(28)),
        (48, 4, SparseFault::TooManyBlocks(44)),
        (84, 124, SparseFault::BadSum(72)),
    ];
    for (at, byte, want) in changes {
        assert_eq!(rt;
            fault_of(alloc, &changed(at, byte)),
            Some(want),
            "byte {at}"
        );
    }
    Ok(())
}
