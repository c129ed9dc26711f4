//! The set of a file in memory, and a file that isn't there.

ghost use Rattle.std.specs.Prelude.{Some, None, not, if◌then◌else◌};
ghost use Rattle.std.specs.Str.{bytes_eq};

use crate::pack::pack;
use crate::refusal::Refusal;
use crate::source::{MAX_BYTES, Source, Unread};
use std::alloc::Global;
use std::io;
use std::test::*;

// One file in memory; each other path is of no file.
#[derive(Drop)]
struct OneFile {
    alloc: Global,
    path: &'static str,
    bytes: &'static [u8],
}

impl Source for OneFile {
    ghost bytes_at = { λ f path. if bytes_eq path f.path.now then Some f.bytes.now else None };

    ghost fails = { λ f path. not (bytes_eq path f.path.now) };

    fn read_file(&self, path: &str) -> Result<Vec<u8>, Unread> {
        if path != self.path {
            return Err(Unread::File(io::Error::from(io::ErrorKind::NotFound)));
        }
        if self.bytes.len() as u64 > MAX_BYTES {
            return Err(Unread::NoMemory);
        }
        match Vec::from_slice(self.alloc, self.bytes) {
            Ok(bytes) => Ok(bytes),
            Err(_) => Err(Unread::NoMemory),
        }
    }
}

// One image `x` of three bytes for a partition of 4096 bytes.
const SET: [u8; 41] = [
    b'V', b'A', b'B', b'S', b'E', b'T', b'1', b'\n', 1, 0, 0, 0, 1, b'x', 0, 16, 0, 0, 0, 0, 0, 0,
    0, 0, 0, 0, 0, 0, 0, 0, 3, 0, 0, 0, 0, 0, 0, 0, b'a', b'b', b'c',
];

fn word(alloc: Global, text: &str) -> Result<Vec<String>, Fail> {
    let mut words = Vec::new(alloc);
    words.push(String::from_str(alloc, text)?)?;
    Ok(words)
}

// The set with the size of the partition, a block or two, and the size of its store, below 256.
fn with_sizes(blocks: u8, store: u8) -> [u8; 41] {
    let mut bytes = SET;
    bytes[15] = blocks.saturating_mul(16);
    bytes[22] = store;
    bytes
}

#[test]
fn a_size_and_a_store_stand_in_the_set(rt: HostRuntime) -> Result<(), Fail> {
    let alloc = rt.alloc();
    let source = OneFile {
        alloc,
        path: "x.img",
        bytes: b"abc",
    };
    for (text, blocks, store) in [
        ("x:4097=x.img", 2, 0),
        ("x:8K:7=x.img", 2, 7),
        ("x::9=x.img", 1, 9),
    ] {
        let words = word(alloc, text)?;
        match pack(alloc, &source, &words) {
            Ok(set) => assert_eq!(rt;
                set.as_slice(),
                with_sizes(blocks, store).as_slice(),
                "of {text}"
            ),
            Err(_) => return Err("the file is packed")?,
        }
    }
    let words = word(alloc, "x:0=x.img")?;
    match pack(alloc, &source, &words) {
        Err(Refusal::TooSmall(path)) => assert_eq!(rt; path, "x.img"),
        _ => return Err("the partition is too small")?,
    }
    Ok(())
}

#[test]
fn a_file_in_memory_is_packed_and_no_other(rt: HostRuntime) -> Result<(), Fail> {
    let alloc = rt.alloc();
    let source = OneFile {
        alloc,
        path: "out/x.img",
        bytes: b"abc",
    };
    let words = word(alloc, "x=out/x.img")?;
    match pack(alloc, &source, &words) {
        Ok(set) => assert_eq!(rt; set.as_slice(), SET.as_slice()),
        Err(_) => return Err("the file is packed")?,
    }
    let words = word(alloc, "x=out/y.img")?;
    match pack(alloc, &source, &words) {
        Err(Refusal::File(path, _)) => assert_eq!(rt; path, "out/y.img"),
        _ => return Err("there is no such file")?,
    }
    Ok(())
}
