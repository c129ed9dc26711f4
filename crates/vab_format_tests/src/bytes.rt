// Numbers, sums, names and lists.

use std::test::*;
use vab_bytes::{
    Bytes, Listing, Name36, crc32, le16_at, le32_at, le64_at, put_le16, put_le32, put_le64,
};

#[test]
fn sum_of_the_nine_digits(rt: HostRuntime) {
    assert!(rt; crc32(b"123456789") == 0xcbf4_3926);
    assert!(rt; crc32(b"") == 0);
}

#[test]
fn numbers_with_the_low_byte_first(rt: HostRuntime) {
    let mut bytes = [0xff; 12];
    put_le16(&mut bytes, 1, 0x0201);
    put_le64(&mut bytes, 3, 0x0a09_0807_0605_0403);
    assert!(rt; bytes == [0xff, 1, 2, 3, 4, 5, 6, 7, 8, 9, 10, 0xff]);
    assert!(rt; le16_at(&bytes, 1) == 0x0201);
    assert!(rt; le32_at(&bytes, 2) == 0x0504_0302);
    assert!(rt; le64_at(&bytes, 4) == 0xff0a_0908_0706_0504);
    put_le32(&mut bytes, 8, 0x8004_0201);
    assert!(rt; &bytes[8..] == [1, 2, 4, 0x80].as_slice());
}

#[test]
fn what_is_a_name(rt: HostRuntime) {
    for text in [b"a".as_slice(), b"system_a", b"A.b-9_z", &[b'x'; 36]] {
        assert!(rt; Name36::parse(text).is_ok());
    }
    for text in [
        b"".as_slice(),
        b"a b",
        b"a/b",
        b"\xe9",
        b"a\0",
        b"a:",
        b"@",
        &[b'x'; 37],
    ] {
        assert!(rt; Name36::parse(text).is_err());
    }
}

// The field of the name with this text.
const FIELD: [u8; 36] = *b"system_a\0\0\0\0\0\0\0\0\0\0\0\0\0\0\0\0\0\0\0\0\0\0\0\0\0\0\0\0";

// Whether a field has a name with this text, which is the one that is parsed.
fn is_named(field: &[u8; 36], text: &[u8]) -> bool {
    match (Name36::from_field(field), Name36::parse(text)) {
        (Ok(name), Ok(parsed)) => name.text() == text && name == parsed,
        _ => false,
    }
}

#[test]
fn names_in_their_field(rt: HostRuntime) -> Result<(), Fail> {
    let name = Name36::parse(b"system_a").ok().ok_or("a name")?;
    assert!(rt; name.to_field() == FIELD);
    let mut field = FIELD;
    assert!(rt; is_named(&field, b"system_a") && is_named(&[b'x'; 36], &[b'x'; 36]));
    field[35] = b'a';
    assert!(rt; Name36::from_field(&field).is_err());
    assert!(rt; Name36::from_field(&[0; 36]).is_err());
    assert!(rt; !is_named(&FIELD, &[b'x'; 36]));
    Ok(())
}

// Whether a list holds these numbers, and so does the vector that it gives back.
fn holds(list: Listing<Option<u64>>, numbers: &[Option<u64>]) -> bool {
    let is_whole = list.as_slice() == numbers
        && list.len() == numbers.len()
        && list.is_empty() == numbers.is_empty();
    is_whole && list.into_vec().as_slice() == numbers
}

// The same of bytes.
fn holds_bytes(list: Bytes, bytes: &[u8]) -> bool {
    let is_whole = list.as_slice() == bytes
        && list.len() == bytes.len()
        && list.is_empty() == bytes.is_empty();
    is_whole && list.into_vec().as_slice() == bytes
}

#[test]
fn lists_that_own_their_memory(rt: HostRuntime) -> Result<(), Fail> {
    let bytes = Bytes::from_vec([1, 2, 3].to_vec(rt.alloc())?);
    assert!(rt; holds_bytes(bytes, &[1, 2, 3]));
    let names = Listing::from_vec([Some(7u64), None].to_vec(rt.alloc())?);
    assert!(rt; holds(names, &[Some(7), None]));
    assert!(rt; Listing::<u8>::from_vec(Vec::new(rt.alloc())).is_empty());
    Ok(())
}
