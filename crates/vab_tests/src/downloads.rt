// Downloads of a session: nothing takes their bytes yet.

use crate::runs::{SECTORS, Step, steps};
use std::test::Fail;

const FRESH: &[&str] = &["serve", "--fresh"];

// Sixteen bytes in packets of 5, 0 and 11, and then a question.
const IN_PIECES: &[u8] = b"FB01\0\0\0\0\0\0\0\x11download:00000010\
    \0\0\0\0\0\0\0\x05hello\0\0\0\0\0\0\0\0\0\0\0\0\0\0\0\x0bhello world\
    \0\0\0\0\0\0\0\x0egetvar:version";

// Of twelve bytes that were due eleven came, and then twelve.
const TOO_MANY: &[u8] = b"FB01\0\0\0\0\0\0\0\x0adownload:c\
    \0\0\0\0\0\0\0\x0bhello world\0\0\0\0\0\0\0\x0chello world!";

const UNFINISHED: &[u8] = b"FB01\0\0\0\0\0\0\0\x0adownload:c\0\0\0\0\0\0\0\x05hello";

const EMPTY: &[u8] = b"FB01\0\0\0\0\0\0\0\x0adownload:0\0\0\0\0\0\0\0\x06reboot";

const TOO_LARGE: &[u8] = b"FB01\0\0\0\0\0\0\0\x11download:10000001\0\0\0\0\0\0\0\x06reboot";

const NO_NUMBER: &[u8] = b"FB01\0\0\0\0\0\0\0\x0adownload:x\0\0\0\0\0\0\0\x12download:000000010";

#[test]
fn downloads_are_taken_in_packets_of_any_length(rt: HostRuntime) -> Result<(), Fail> {
    let cases: [Step; 6] = [
        (
            FRESH,
            IN_PIECES,
            0,
            b"FB01\0\0\0\0\0\0\0\x0cDATA00000010\0\0\0\0\0\0\0\x04OKAY\0\0\0\0\0\0\0\x07OKAY0.4",
        ),
        (FRESH, TOO_MANY, 3, b"FB01\0\0\0\0\0\0\0\x0cDATA0000000c"),
        (FRESH, UNFINISHED, 3, b"FB01\0\0\0\0\0\0\0\x0cDATA0000000c"),
        (
            FRESH,
            EMPTY,
            0,
            b"FB01\0\0\0\0\0\0\0\x0cDATA00000000\0\0\0\0\0\0\0\x04OKAY\0\0\0\0\0\0\0\x05OKAYa",
        ),
        (
            FRESH,
            TOO_LARGE,
            0,
            b"FB01\0\0\0\0\0\0\0\x0dFAILtoo large\0\0\0\0\0\0\0\x05OKAYa",
        ),
        (
            FRESH,
            NO_NUMBER,
            0,
            b"FB01\0\0\0\0\0\0\0\x10FAILbad argument\0\0\0\0\0\0\0\x10FAILbad argument",
        ),
    ];
    steps(&rt, rt.alloc(), SECTORS, &cases)?;
    Ok(())
}
