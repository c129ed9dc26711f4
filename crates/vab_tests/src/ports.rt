// Runs over a file and over streams of the tests' own.

use crate::runs::words;
use std::fs;
use std::io::{self, Read};
use std::test::Fail;
use vab_cli::run;
use vab_real::FilePort;

// A reader that gives one byte at a time.
#[derive(Drop)]
struct OneByOne<'a> {
    rest: &'a [u8],
}

impl Read for OneByOne<'_> {
    fn read(&mut self, buf: &mut [u8]) -> io::Result<usize> {
        match (self.rest.first(), buf.first_mut()) {
            (Some(byte), Some(cell)) => *cell = *byte,
            _ => return Ok(0),
        }
        self.rest = &self.rest[1..];
        Ok(1)
    }
}

#[test]
fn one_byte_at_a_time_is_told_the_same(rt: HostRuntime) -> Result<(), Fail> {
    let alloc = rt.alloc();
    let input = OneByOne {
        rest: b"FB01\0\0\0\0\0\0\0\x0egetvar:version\0\0\0\0\0\0\0\x03xyz",
    };
    let mut told = Vec::new(alloc);
    {
        let mut port = FilePort::zeroed(alloc, 8192, input, &mut told);
        let fresh = words(alloc, &["serve", "--fresh"])?;
        assert_eq!(rt; run(alloc, &fresh, &mut port).code(), 0);
    }
    let want = b"FB01\0\0\0\0\0\0\0\x07OKAY0.4\0\0\0\0\0\0\0\x13FAILunknown command";
    assert_eq!(rt; told.as_slice(), want.as_slice());
    Ok(())
}

#[test]
fn a_file_keeps_the_device(rt: HostRuntime) -> Result<(), Fail> {
    let alloc = rt.alloc();
    let zeros = vec![in alloc; 0u8; 512 * 6200]?;
    fs::write(&rt, "device.img", zeros.as_slice())?;
    let first = OneByOne {
        rest: b"FB01\0\0\0\0\0\0\0\x0cset_active:a",
    };
    let mut told = Vec::new(alloc);
    {
        let mut port = FilePort::open(&rt, "device.img", first, &mut told).map_err(|_| Fail::from(
            "open",
        ))?;
        let fresh = words(alloc, &["serve", "--fresh"])?;
        assert_eq!(rt; run(alloc, &fresh, &mut port).code(), 0);
    }
    let image = fs::read(&rt, "device.img")?;
    assert_eq!(rt; image.get(4 * 512 + 12).copied(), Some(0xef));
    assert_eq!(rt; image.len(), 512 * 6200);
    let again = OneByOne {
        rest: b"FB01\0\0\0\0\0\0\0\x13getvar:current-slot",
    };
    let mut answers = Vec::new(alloc);
    {
        let mut port = FilePort::open(&rt, "device.img", again, &mut answers).map_err(
            |_| Fail::from("open"),
        )?;
        let serve = words(alloc, &["serve"])?;
        assert_eq!(rt; run(alloc, &serve, &mut port).code(), 0);
    }
    assert_eq!(rt;
        answers.as_slice(),
        b"FB01\0\0\0\0\0\0\0\x05OKAYa".as_slice()
    );
    Ok(())
}
