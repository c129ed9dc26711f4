//! Where the bytes of files come from.

ghost use Rattle.std.specs.Prelude.{◌≡◌, ℕ, ◌+◌, ◌^◌, List, Option, Bool, true, IfSome, IfOk};
ghost use Rattle.std.specs.Prelude.{IfErr, None, take};
ghost use Rattle.vabpack.specs.Packed.{IsUnread};

use std::alloc::Global;
use std::fs::File;
use std::io::{self, Read};

/// The most bytes of a set, as the program that takes it has it.
pub const MAX_BYTES: u64 = 1 << 32;

/// Why a file isn't read.
#[derive(Debug, Drop)]
pub enum Unread {
    /// Memory was refused.
    NoMemory,
    /// It can't be opened or read.
    File(io::Error),
}

/// What has the files of which a set is made.
pub trait Source {
    // The bytes of the file at a path, where they are known.
    ghost bytes_at: { Self → List ℕ → Option (List ℕ) };

    // Whether the file at a path may fail to be opened or read.
    ghost fails: { Self → List ℕ → Bool };

    /// The bytes of the file at a path, up to one more than a set may have.
    fn read_file(&self, path: &str) -> Result<Vec<u8>, Unread>
        ensures read { IfOk result (λ read. IfSome (bytes_at self.now path.now)
            (λ bytes. read.items ≡ take (2 ^ 32 + 1) bytes)) }
        ensures unread { IfErr result (IsUnread (fails self.now path.now)) };
}

// What is left to read, up to one byte more than a set may have.
fn read_whole<F: Read + Drop>(alloc: Global, file: F) -> io::Result<Vec<u8>>
    ensures { IfOk result
        (λ v. IfSome (F.remaining file) (λ rest. v.items ≡ take (2 ^ 32 + 1) rest)) }
{
    let mut bytes = Vec::new(alloc);
    file.take(MAX_BYTES + 1).read_to_end(&mut bytes)?;
    Ok(bytes)
}

// The file of the machine at a path, up to one byte more than a set may have.
fn read_at(rt: &HostRuntime, path: &str) -> io::Result<Vec<u8>> {
    read_whole(rt.alloc(), File::open(rt, path)?)
}

/// The files of the machine, of whose bytes no contract can speak, and each of which may fail.
impl Source for HostRuntime {
    ghost bytes_at = { λ _ _. None };

    ghost fails = { λ _ _. true };

    fn read_file(&self, path: &str) -> Result<Vec<u8>, Unread> {
        match read_at(self, path) {
            Ok(bytes) => Ok(bytes),
            Err(fault) if fault.kind() == io::ErrorKind::OutOfMemory => Err(Unread::NoMemory),
            Err(fault) => Err(Unread::File(fault)),
        }
    }
}
