// The geometry of a made device, and others.

use std::alloc::Global;
use std::test::*;
use vab_bytes::put_le32;
use vab_disk::{Disk, MemPort};
use vab_geometry::{
    BACKUP, Geometry, GeometryFault, LoadFault, PRIMARY, decode_geometry, encode_geometry,
    load_geometry,
};

// SHA-256 sums from outside, of copies of 65536 bytes, two slots and blocks of 4096 bytes, and of
// others.
const MADE: [u8; 32] = [
    0x4e, 0x31, 0xcf, 0x64, 0x27, 0x54, 0x42, 0xf4, 0x0e, 0x25, 0xc7, 0x72, 0xa1, 0x8d, 0x1f, 0xcc,
    0xd8, 0xb1, 0x29, 0x12, 0x32, 0xe5, 0x93, 0xf6, 0x5e, 0x52, 0x2f, 0xc7, 0xac, 0x07, 0xdf, 0x03,
];

const ODD_SIZE: [u8; 32] = [
    0x92, 0xa5, 0x26, 0x16, 0x38, 0xff, 0x77, 0x2f, 0x6e, 0xa8, 0x29, 0x00, 0x77, 0xfb, 0xe9, 0x35,
    0x56, 0x52, 0xc6, 0x59, 0x90, 0x26, 0x90, 0xbd, 0x74, 0x0b, 0xd1, 0x13, 0xaa, 0x28, 0xb5, 0x89,
];

const NINE_SLOTS: [u8; 32] = [
    0x23, 0xef, 0x52, 0x3a, 0x3e, 0x9f, 0xac, 0x94, 0x08, 0x82, 0xbd, 0x4f, 0xbf, 0xa7, 0x74, 0xad,
    0xb1, 0x61, 0x81, 0xbd, 0xf2, 0x87, 0x8d, 0xbc, 0x59, 0x81, 0xc2, 0xcc, 0xe1, 0x78, 0x62, 0xea,
];

const SMALL_BLOCK: [u8; 32] = [
    0xce, 0xd2, 0x48, 0xb9, 0xbf, 0xe9, 0xfd, 0x66, 0xd2, 0x09, 0x5a, 0x64, 0x95, 0x31, 0xe5, 0x32,
    0x88, 0x75, 0xa6, 0xc1, 0x02, 0x80, 0x0a, 0x5c, 0xc0, 0x74, 0x8c, 0xa8, 0xd2, 0xc4, 0x55, 0xca,
];

fn sector(sum: &[u8; 32], max: u32, slots: u32, block: u32) -> [u8; 512] {
    let mut bytes = [0u8; 512];
    put_le32(&mut bytes, 0, 0x616C4467);
    put_le32(&mut bytes, 4, 52);
    bytes[8..40].copy_from_slice(sum);
    put_le32(&mut bytes, 40, max);
    put_le32(&mut bytes, 44, slots);
    put_le32(&mut bytes, 48, block);
    bytes
}

fn made() -> [u8; 512] {
    sector(&MADE, 65536, 2, 4096)
}

#[test]
fn a_made_devices_geometry_has_these_bytes(rt: HostRuntime) {
    let geometry = Geometry {
        max: 65536,
        slots: 2,
    };
    let bytes = encode_geometry(&geometry);
    assert!(rt; bytes.as_slice() == made().as_slice());
    assert!(rt; &bytes[..8] == [0x67u8, 0x44, 0x6c, 0x61, 52, 0, 0, 0].as_slice());
    assert!(rt; decode_geometry(&bytes) == Ok(geometry));
}

#[test]
fn the_first_fault_of_a_geometry_is_told(rt: HostRuntime) {
    let mut other_size = made();
    other_size[4] = 51;
    let mut other_field = made();
    other_field[42] = 2;
    let faults = [
        ([0u8; 512], GeometryFault::BadMagic),
        (other_size, GeometryFault::BadSize),
        (other_field, GeometryFault::BadSum),
        (sector(&ODD_SIZE, 1000, 2, 4096), GeometryFault::BadField),
        (sector(&NINE_SLOTS, 65536, 9, 4096), GeometryFault::BadField),
        (sector(&SMALL_BLOCK, 65536, 2, 512), GeometryFault::BadField),
    ];
    for (bytes, fault) in faults {
        assert!(rt; decode_geometry(&bytes) == Err(fault));
    }
}

// Writes these sectors as the primary and the backup, and loads.
fn loaded(
    alloc: Global,
    primary: &[u8; 512],
    backup: &[u8; 512],
) -> Option<Result<Geometry, LoadFault>> {
    let mut d = MemPort::new(alloc, 4120, Vec::new(alloc)).ok()?;
    if d.sectors() < 4120 {
        return None;
    }
    d.write_sector(PRIMARY, primary).ok()?;
    d.write_sector(BACKUP, backup).ok()?;
    Some(load_geometry(&mut d))
}

#[test]
fn the_primary_geometry_is_taken_or_else_the_backup(rt: HostRuntime) {
    let alloc = rt.alloc();
    let geometry = Geometry {
        max: 65536,
        slots: 2,
    };
    let mut bad = made();
    bad[44] = 3;
    assert!(rt; loaded(alloc, &made(), &[0u8; 512]) == Some(Ok(geometry)));
    assert!(rt; loaded(alloc, &bad, &made()) == Some(Ok(geometry)));
    let fault = LoadFault::BothBad(GeometryFault::BadSum, GeometryFault::BadMagic);
    assert!(rt; loaded(alloc, &bad, &[0u8; 512]) == Some(Err(fault)));
}
