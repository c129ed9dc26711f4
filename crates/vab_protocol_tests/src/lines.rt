// Lines that are written out.

use arrayvec::ArrayVec;
use std::test::*;
use vab_lines::{adopted_line, made_line, make_refused_line};
use vab_make::MakeFault;

#[test]
fn a_made_device_has_its_line(rt: HostRuntime) {
    let mut out = ArrayVec::new();
    made_line(1, 1, 256, &mut out);
    assert_eq!(rt;
        out.as_slice(),
        b"made 1 images, 1 of 256 blocks\n".as_slice()
    );
}

#[test]
fn an_adopted_disk_has_its_line(rt: HostRuntime) {
    let mut out = ArrayVec::new();
    adopted_line(1, 100, 256, &mut out);
    assert_eq!(rt;
        out.as_slice(),
        b"adopted 1 images, 100 of 256 blocks\n".as_slice()
    );
}

#[test]
fn a_refused_set_has_its_line(rt: HostRuntime) {
    for (fault, line) in [
        (
            MakeFault::GroupLimit(8192, 4096),
            b"refused: group limit: 8192 of 4096 bytes\n".as_slice(),
        ),
        (
            MakeFault::NoRoom(257, 256),
            b"refused: no room: 257 of 256 blocks\n",
        ),
        (
            MakeFault::TableFull(540, 512),
            b"refused: table full: 540 of 512 bytes\n",
        ),
    ] {
        let mut out = ArrayVec::new();
        make_refused_line(&fault, &mut out);
        assert_eq!(rt; out.as_slice(), line);
    }
}
