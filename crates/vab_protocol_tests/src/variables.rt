// Numbers that are written out.

use arrayvec::ArrayVec;
use std::test::*;
use vab_fbvars::put_hexadecimal;

#[test]
fn hexadecimal_digits_are_upper_case_without_leading_zeros(rt: HostRuntime) {
    for (n, digits) in [
        (0, b"0".as_slice()),
        (9, b"9"),
        (0x64000, b"64000"),
        (0xabcdef, b"ABCDEF"),
        (u64::MAX, b"FFFFFFFFFFFFFFFF"),
    ] {
        let mut out = ArrayVec::new();
        put_hexadecimal(n, &mut out);
        assert_eq!(rt; out.as_slice(), digits);
    }
}
