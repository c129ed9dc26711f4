// The mark of an update and statuses as bytes.

use std::test::*;
use vab_bytes::{Name36, crc32, put_le32};
use vab_marks::{
    MarkFault, MarkPhase, MarkVersion, PartStatus, PhysicalSizes, StatusImage, UpdateMark,
    decode_mark, decode_physical, decode_status, encode_mark, encode_physical, encode_status,
};
use vab_space::Chunk;

/// Writes the sum of the sector.
fn put_sum(bytes: &mut [u8; 512]) {
    let sum = crc32(&bytes[..508]);
    put_le32(bytes, 508, sum);
}

// Whether a sector begins with these bytes, has zeros behind them, and ends with this sum.
fn is_sector(bytes: &[u8; 512], front: &[u8], sum: [u8; 4]) -> bool {
    front.len() <= 508
        && bytes.starts_with(front)
        && bytes[front.len()..508].iter().all(|b| *b == 0)
        && bytes.ends_with(&sum)
}

// Slot a's mark without an update.
const IDLE: UpdateMark = UpdateMark {
    phase: MarkPhase::Idle,
    slot: 0,
    apart: false,
    overlaid: false,
    physical: false,
};

#[test]
fn marks_as_bytes(rt: HostRuntime) {
    let mark = UpdateMark {
        phase: MarkPhase::Merging,
        slot: 1,
        apart: false,
        overlaid: false,
        physical: false,
    };
    let bytes = encode_mark(&mark);
    let sum = [0x0c, 0x0b, 0x94, 0xb3];
    assert!(rt; is_sector(&bytes, b"VABU\x02\x03\x01\0", sum));
    assert!(rt; decode_mark(&bytes) == Ok(mark));
    let front = |phase: u8| [b'V', b'A', b'B', b'U', 2, phase, 0, 0];
    for (byte, phase, apart, overlaid) in [
        (0, MarkPhase::Idle, false, false),
        (1, MarkPhase::Installing, false, false),
        (2, MarkPhase::Staged, false, false),
        (3, MarkPhase::Merging, false, false),
        (4, MarkPhase::Completed, false, false),
        (5, MarkPhase::Installing, true, false),
        (6, MarkPhase::Staged, true, false),
        (7, MarkPhase::Idle, false, true),
    ] {
        let mut bytes = [0; 512];
        bytes[..8].copy_from_slice(&front(byte));
        put_sum(&mut bytes);
        let mark = UpdateMark {
            phase,
            slot: 0,
            apart,
            overlaid,
            physical: false,
        };
        assert!(rt; decode_mark(&bytes) == Ok(mark), "{byte}");
        assert!(rt; encode_mark(&mark) == bytes, "{byte}");
    }
    let ready = IDLE.begun(true).with_phase(MarkPhase::Staged);
    assert!(rt; ready.apart && ready.phase == MarkPhase::Staged);
    assert!(rt; !ready.with_phase(MarkPhase::Merging).apart);
    assert!(rt; !IDLE.begun(false).apart);
}

#[test]
fn a_mark_of_physical_partitions(rt: HostRuntime) {
    let mark = UpdateMark {
        physical: true,
        ..IDLE
    };
    let mut bytes = [0; 512];
    bytes[..8].copy_from_slice(b"VABU\x02\0\0\x01");
    put_sum(&mut bytes);
    assert!(rt; decode_mark(&bytes) == Ok(mark));
    assert!(rt; encode_mark(&mark) == bytes);
    assert!(rt;
        mark.begun(false)
            .with_phase(MarkPhase::Merging)
            .with_slot(1)
            .physical
    );
    bytes[7] = 2;
    put_sum(&mut bytes);
    assert!(rt; decode_mark(&bytes) == Err(MarkFault::BadField));
}

#[test]
fn sizes_of_physical_partitions(rt: HostRuntime) {
    let sizes = PhysicalSizes {
        boot: 1 << 20,
        vbmeta: 1,
    };
    let bytes = encode_physical(&sizes);
    assert!(rt; bytes.starts_with(b"VABP\x01\0\0\0\0\0\x10\0\0\0\0\0\x01\0"));
    assert!(rt; decode_physical(&bytes) == Ok(sizes));
    assert!(rt; decode_physical(&[0; 512]) == Err(MarkFault::BadMagic));
    for (at, byte) in [(5, 1), (8, 1), (16, 0), (24, 1), (507, 1)] {
        let mut bytes = bytes;
        bytes[at] = byte;
        assert!(rt; decode_physical(&bytes) == Err(MarkFault::BadSum), "{at}");
        put_sum(&mut bytes);
        assert!(rt; decode_physical(&bytes) == Err(MarkFault::BadField), "{at}");
    }
}

#[test]
fn a_mark_of_version_1_is_read(rt: HostRuntime) {
    let mark = UpdateMark {
        phase: MarkPhase::Merging,
        slot: 1,
        apart: false,
        overlaid: false,
        physical: false,
    };
    let mut bytes = [0u8; 512];
    bytes[..8].copy_from_slice(b"VABU\x01\x03\x01\0");
    bytes[508..].copy_from_slice(&[0x2b, 0x14, 0xc5, 0xa7]);
    assert!(rt; decode_mark(&bytes) == Ok(mark));
    assert!(rt; MarkVersion::of_mark(&bytes) == MarkVersion::One);
    assert!(rt; MarkVersion::of_mark(&encode_mark(&mark)) == MarkVersion::Two);
    assert!(rt; MarkVersion::One.partitions() == 32 && MarkVersion::Two.partitions() == 64);
}

// The fault of an idle mark with these bytes in these places, and then its sum or not.
fn fault_of(changes: &[(usize, u8)], summed: bool) -> Option<MarkFault> {
    let mut bytes = encode_mark(&IDLE);
    for (at, byte) in changes {
        if *at < 512 {
            bytes[*at] = *byte;
        }
    }
    if summed {
        put_sum(&mut bytes);
    }
    decode_mark(&bytes).err()
}

#[test]
fn faults_of_a_mark_in_their_order(rt: HostRuntime) {
    for (changes, summed, fault) in [
        ([(6, 2)].as_slice(), false, MarkFault::BadSum),
        (&[(6, 2)], true, MarkFault::BadField),
        (&[(6, 2), (4, 0)], false, MarkFault::BadVersion),
        (&[(6, 2), (4, 3)], false, MarkFault::BadVersion),
        (&[(6, 2), (4, 3), (3, b'S')], false, MarkFault::BadMagic),
        (&[(5, 8)], true, MarkFault::BadField),
        (&[(507, 1)], true, MarkFault::BadField),
    ] {
        assert!(rt; fault_of(changes, summed) == Some(fault), "{fault:?}");
    }
}

#[test]
fn statuses_as_bytes(rt: HostRuntime) -> Result<(), Fail> {
    let status = PartStatus {
        name: Name36::parse(b"system_b").ok().ok_or("a name")?,
        image: StatusImage::Stored {
            count: 258,
            chunk: Chunk::One,
        },
    };
    let bytes = encode_status(&status);
    let front = b"VABS\x01\x01\x08\0system_b\0\0\0\0\0\0\0\0\0\0\0\0\0\0\
        \0\0\0\0\0\0\0\0\0\0\0\0\0\0\x02\x01";
    assert!(rt; is_sector(&bytes, front, [0x04, 0xfe, 0xf2, 0x8f]));
    assert!(rt; decode_status(&bytes) == Ok(status));
    assert!(rt; decode_status(&[0; 512]) == Err(MarkFault::BadMagic));
    for (chunk, sectors) in [(Chunk::Two, 16), (Chunk::Four, 32)] {
        let image = StatusImage::Stored { count: 258, chunk };
        let other = PartStatus { image, ..status };
        let bytes = encode_status(&other);
        assert!(rt; bytes[6..8] == [sectors, 0][..]);
        assert!(rt; decode_status(&bytes) == Ok(other));
    }
    Ok(())
}

// The status of a partition whose image is in place.
fn placed() -> Result<PartStatus, Fail> {
    Ok(PartStatus {
        name: Name36::parse(b"system_b").ok().ok_or("a name")?,
        image: StatusImage::InPlace,
    })
}

#[test]
fn a_status_in_place_as_bytes(rt: HostRuntime) -> Result<(), Fail> {
    let status = placed()?;
    let bytes = encode_status(&status);
    let sum = [0xb9, 0x31, 0x23, 0x32];
    assert!(rt; is_sector(&bytes, b"VABS\x01\x02\x08\0system_b", sum));
    assert!(rt; decode_status(&bytes) == Ok(status));
    assert!(rt; status.image.count() == 0);
    // It has chunks of eight sectors and no exceptions, and no other state is named.
    for (at, byte, fault) in [
        (6, 16, Some(MarkFault::BadField)),
        (6, 32, Some(MarkFault::BadField)),
        (44, 1, Some(MarkFault::BadField)),
        (51, 1, Some(MarkFault::BadField)),
        (52, 1, Some(MarkFault::BadField)),
        (5, 0, Some(MarkFault::BadField)),
        (5, 3, Some(MarkFault::BadField)),
        (5, 1, None),
    ] {
        let mut other = bytes;
        if at < 508 {
            other[at] = byte;
        }
        put_sum(&mut other);
        assert!(rt; decode_status(&other).err() == fault, "{at}: {byte}");
    }
    Ok(())
}
