// The header and the areas of an exception store as bytes.

use std::test::*;
use vab_exceptions::{
    Area, Exception, HeaderFault, decode_area, decode_store_header, encode_area,
    encode_store_header,
};
use vab_space::Chunk;

#[test]
fn header_begins_with_snap_and_three_numbers(rt: HostRuntime) {
    let bytes = encode_store_header(Chunk::One);
    let front = [0x53, 0x6e, 0x41, 0x70, 1, 0, 0, 0, 1, 0, 0, 0, 8, 0, 0, 0];
    assert!(rt; bytes[..16] == front[..]);
    assert!(rt; bytes[16] == 0);
    assert!(rt; decode_store_header(&bytes) == Ok(Chunk::One));
}

#[test]
fn a_chunk_has_8_16_or_32_sectors(rt: HostRuntime) {
    for (sectors, wanted) in [
        (0, Err(HeaderFault::BadChunk)),
        (4, Err(HeaderFault::BadChunk)),
        (8, Ok(Chunk::One)),
        (12, Err(HeaderFault::BadChunk)),
        (16, Ok(Chunk::Two)),
        (32, Ok(Chunk::Four)),
        (64, Err(HeaderFault::BadChunk)),
    ] {
        let mut bytes = encode_store_header(Chunk::One);
        bytes[12] = sectors;
        assert!(rt; decode_store_header(&bytes) == wanted);
    }
}

#[test]
fn entries_are_two_numbers_of_eight_bytes(rt: HostRuntime) {
    let mut area = Area::new();
    area.push(Exception {
        old_chunk: 5,
        new_chunk: 2,
    });
    area.push(Exception {
        old_chunk: 258,
        new_chunk: 3,
    });
    let mut bytes = [0; 4096];
    encode_area(&area, &mut bytes);
    for (entry, wanted) in [
        (&bytes[..16], b"\x05\0\0\0\0\0\0\0\x02\0\0\0\0\0\0\0"),
        (&bytes[16..32], b"\x02\x01\0\0\0\0\0\0\x03\0\0\0\0\0\0\0"),
        (&bytes[32..48], &[0; 16]),
    ] {
        assert!(rt; entry == wanted.as_slice());
    }
    assert!(rt; decode_area(&bytes).as_slice() == area.as_slice());
}
