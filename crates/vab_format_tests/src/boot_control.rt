// Boot control as bytes, and what boots.

use std::test::*;
use vab_bootctl::{
    Control, ControlFault, Info, activated, booted, choose, decode_control, encode_control_into,
    marked,
};
use vab_bytes::{crc32, put_le32};

const GOOD: Info = Info {
    priority: 15,
    tries: 0,
    successful: true,
};

const NEVER: Info = Info {
    priority: 0,
    tries: 0,
    successful: false,
};

const TRIED: Info = Info {
    priority: 15,
    tries: 6,
    successful: false,
};

const MADE: Control = Control {
    current: 0,
    a: GOOD,
    b: NEVER,
};

fn put_sum(bytes: &mut [u8; 512]) {
    let sum = crc32(&bytes[..28]);
    put_le32(bytes, 28, sum);
}

/// The sector that begins with these bytes, with its sum.
fn sector(front: &[u8; 16]) -> [u8; 512] {
    let mut bytes = [0; 512];
    bytes[..16].copy_from_slice(front);
    put_sum(&mut bytes);
    bytes
}

fn made() -> [u8; 512] {
    sector(b"_a\0\0BCAB\x01\x02\0\0\x8f\0\0\0")
}

#[test]
fn faults_of_boot_control_in_their_order(rt: HostRuntime) {
    assert!(rt; decode_control(&made()) == Ok(MADE));
    let mut bytes = made();
    bytes[28] ^= 1;
    assert!(rt; decode_control(&bytes) == Err(ControlFault::BadSum));
    bytes[8] = 2;
    assert!(rt; decode_control(&bytes) == Err(ControlFault::BadVersion));
    bytes[4] = 0;
    assert!(rt; decode_control(&bytes) == Err(ControlFault::BadMagic));
    for front in [
        b"_a\0\0BCAB\x01\x03\0\0\x8f\0\0\0",
        b"_c\0\0BCAB\x01\x02\0\0\x8f\0\0\0",
        b"_a\0\x01BCAB\x01\x02\0\0\x8f\0\0\0",
    ] {
        assert!(rt; decode_control(&sector(front)) == Err(ControlFault::BadSlots));
    }
}

#[test]
fn what_is_no_field_stays(rt: HostRuntime) {
    let mut bytes = [0xff; 512];
    encode_control_into(&MADE, &mut bytes);
    assert!(rt; &bytes[..16] == b"_a\0\0BCAB\x01\xfa\xff\xff\x8f\xff\0\xff".as_slice());
    assert!(rt; &bytes[16..28] == [0xff; 12].as_slice());
    assert!(rt; &bytes[32..] == [0xff; 480].as_slice());
    assert!(rt; decode_control(&bytes) == Ok(MADE));
}

#[test]
fn active_booted_and_marked(rt: HostRuntime) {
    let has = [true, false];
    let mut bytes = made();
    let active = activated(&MADE, 0);
    encode_control_into(&active, &mut bytes);
    assert!(rt; bytes[12] == 0xef);
    let booted = booted(&active, has);
    assert!(rt; booted == active);
    encode_control_into(&marked(&booted), &mut bytes);
    assert!(rt; bytes[12] == 0x8f);
}

#[test]
fn seven_boots_of_a_slot_that_never_works(rt: HostRuntime) {
    let has = [true, true];
    let mut bytes = made();
    let mut control = activated(&MADE, 1);
    encode_control_into(&control, &mut bytes);
    assert!(rt; &bytes[12..16] == [0x8e, 0, 0x6f, 0].as_slice());
    assert!(rt; control.b == TRIED);
    for _ in 0..6 {
        assert!(rt; choose(&control, has) == Some(1));
        control = booted(&control, has);
        assert!(rt; control.current == 1);
    }
    assert!(rt; control.b == Info { tries: 0, ..TRIED });
    assert!(rt; choose(&control, has) == Some(0));
    assert!(rt; booted(&control, has).current == 0);
}

#[test]
fn a_on_a_tie_and_none_without_images(rt: HostRuntime) {
    let both = Control { b: GOOD, ..MADE };
    assert!(rt; choose(&both, [true, true]) == Some(0));
    assert!(rt; choose(&both, [false, true]) == Some(1));
    assert!(rt; choose(&both, [false, false]) == None);
    assert!(rt; booted(&both, [false, false]) == both);
}
