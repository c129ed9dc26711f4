//! The version of an update mark.

ghost use Rattle.std.specs.Prelude.{◌≡◌, ◌≤◌};
ghost use Rattle.vab_marks.specs.Version.{version_byte, version_of, is_version, version_in};
ghost use Rattle.vab_marks.specs.Version.{partitions_under};

use vab_names::MAX_PARTITIONS;

/// The version of an update mark. Each mark that is written has version 2; one of version 1 stands
/// on a disk until it is opened.
#[derive(Clone, Copy, Debug, PartialEq, Eq)]
pub enum MarkVersion {
    /// A slot has at most 32 partitions, and 32 sectors hold statuses.
    One,
    /// Both are 64.
    Two,
}

impl MarkVersion {
    pub(crate) fn is_version(byte: u8) -> bool
        ensures { result ≡ is_version byte }
    {
        byte == 1 || byte == 2
    }

    fn from_byte(byte: u8) -> MarkVersion
        ensures { result ≡ version_of byte }
    {
        if byte == 1 {
            MarkVersion::One
        } else {
            MarkVersion::Two
        }
    }

    pub(crate) fn to_byte(self) -> u8
        ensures { result ≡ version_byte self }
    {
        match self {
            MarkVersion::One => 1,
            MarkVersion::Two => 2,
        }
    }

    /// The version of a sector that holds a mark.
    pub fn of_mark(bytes: &[u8; 512]) -> MarkVersion
        ensures { result ≡ version_in bytes.now }
    {
        MarkVersion::from_byte(bytes[4])
    }

    /// The most partitions that a slot may have under it, and how many sectors hold statuses.
    pub fn partitions(self) -> usize
        ensures is { result ≡ partitions_under self }
        ensures most { result ≤ partitions_under MarkVersion.Two }
    {
        match self {
            MarkVersion::One => 32,
            MarkVersion::Two => MAX_PARTITIONS,
        }
    }
}
