// Why an input is no set of images.

use std::fmt;
use vab_set::SetFault;

// Writes what is wrong with a set. Images are counted from 1.
fn write_fault<W: fmt::Write>(f: &mut fmt::Formatter<W>, fault: &SetFault) -> fmt::Result {
    match fault {
        SetFault::BadMagic => write!(f, "it doesn't begin as a set of images does"),
        SetFault::TooMany(count) => write!(f, "a set of {count} images, and 64 are the most"),
        SetFault::BadName(image) => write!(
            f,
            "image {}: the name isn't 1 to 30 of A-Z a-z 0-9 _ .",
            image.saturating_add(1)
        ),
        SetFault::Repeated(first, image) => write!(
            f,
            "image {}: image {} has the same name",
            image.saturating_add(1),
            first.saturating_add(1)
        ),
        SetFault::TooBig(image) => write!(
            f,
            "image {}: its size is above 2^40 bytes, or below that of its bytes",
            image.saturating_add(1)
        ),
        SetFault::Cut(image) => { write!(f, "it ends within image {}", image.saturating_add(1)) }
        SetFault::Trailing => write!(f, "bytes stand behind its last image"),
        SetFault::NoMemory => write!(f, "out of memory"),
    }
}

/// Writes why the input is no set of images.
pub(crate) fn write_set<W: fmt::Write>(f: &mut fmt::Formatter<W>, fault: &SetFault) -> fmt::Result {
    if *fault != SetFault::NoMemory {
        write!(f, "malformed input: ")?;
    }
    write_fault(f, fault)
}
