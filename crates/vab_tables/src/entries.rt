//! The entries of a table.

ghost use Rattle.std.specs.Prelude.{◌≡◌, ◌+◌, ◌≤◌, ◌++◌, length, List, ℕ, Option, OnOk};
ghost use Rattle.vab_bytes.specs.Number.{field};
ghost use Rattle.vab_bytes.specs.Name.{name_of_field};
ghost use Rattle.vab_tables.specs.Entries.{partition_of, extent_of, group_of, device_of};
ghost use Rattle.vab_tables.specs.Entries.{partition_bytes, extent_bytes, group_bytes};
ghost use Rattle.vab_tables.specs.Entries.{device_bytes};

use crate::fault::NoMemory;
use vab_bytes::{Name36, le32_at, le64_at};

/// A logical partition, 52 bytes.
#[derive(Clone, Copy, Debug, PartialEq, Eq)]
pub struct Partition {
    pub name: Name36,
    /// Bits: 1 read-only, 4 updated, 8 disabled; a table of minor 0 has the first alone.
    pub attributes: u32,
    /// The index of its first extent; where it has none, at most the number of extents.
    pub first_extent: u32,
    /// How many extents it has, one after another in the table's list.
    pub extent_count: u32,
    /// The index of its group.
    pub group: u32,
}

/// A run of sectors of the block device, 24 bytes.
#[derive(Clone, Copy, Debug, PartialEq, Eq)]
pub struct Extent {
    /// How many sectors of 512 bytes.
    pub sectors: u64,
    /// 0: linear, the only kind that is read.
    pub target_type: u32,
    /// The first sector of the block device.
    pub first_sector: u64,
    /// The index of the block device: 0.
    pub target_source: u32,
}

/// A group of partitions, 48 bytes.
#[derive(Clone, Copy, Debug, PartialEq, Eq)]
pub struct Group {
    pub name: Name36,
    pub flags: u32,
    /// The most bytes that its partitions may have together; 0: no limit.
    pub maximum_size: u64,
}

/// The block device that the extents lie on, 64 bytes.
#[derive(Clone, Copy, Debug, PartialEq, Eq)]
pub struct BlockDevice {
    /// The first sector of 512 bytes that extents may take.
    pub first_logical_sector: u64,
    /// Bytes.
    pub alignment: u32,
    /// Bytes.
    pub alignment_offset: u32,
    /// Bytes.
    pub size: u64,
    pub partition_name: Name36,
    pub flags: u32,
}

/// An entry of a table, which is spelled as bytes of one size.
pub trait Entry: Copy {
    /// Bytes of an entry.
    ghost SIZE: { ℕ };

    /// Its bytes.
    ghost spelling: { Self → List ℕ };

    /// What bytes spell.
    ghost reading: { List ℕ → Option Self };

    const SIZE: usize;

    /// The entry that the bytes spell, if they spell one: a name may be none.
    fn read(bytes: &[u8]) -> Option<Self>
    where
        Self: Sized,
        requires { length bytes.now ≡ SIZE }
        ensures { result ≡ reading bytes.now };

    /// Writes its bytes at the end.
    fn write(&self, out: &mut Vec<u8>) -> Result<(), NoMemory>
        ensures { OnOk result (out.new.items ≡ out.old.items ++ spelling self.now) };
}

// The name in the 36 bytes from `at` on.
fn name_at(bytes: &[u8], at: usize) -> Option<Name36>
    requires { at + 36 ≤ length bytes.now }
    ensures { result ≡ name_of_field (field bytes.now at 36) }
{
    let mut name = [0; 36];
    name.copy_from_slice(&bytes[at..at + 36]);
    Name36::from_field(&name).ok()
}

impl Entry for Partition {
    ghost SIZE = { 52 };

    ghost spelling = { partition_bytes };

    ghost reading = { partition_of };

    const SIZE: usize = 52;

    #[tactic(auto, unfolding(crate::specs::Entries::partition_of))]
    fn read(bytes: &[u8]) -> Option<Partition> {
        let name = name_at(bytes, 0)?;
        Some(Partition {
            name,
            attributes: le32_at(bytes, 36),
            first_extent: le32_at(bytes, 40),
            extent_count: le32_at(bytes, 44),
            group: le32_at(bytes, 48),
        })
    }

    #[tactic(auto, unfolding(crate::specs::Entries::partition_bytes))]
    fn write(&self, out: &mut Vec<u8>) -> Result<(), NoMemory> {
        out.extend_from_slice(&self.name.to_field())?;
        out.extend_from_slice(&self.attributes.to_le_bytes())?;
        out.extend_from_slice(&self.first_extent.to_le_bytes())?;
        out.extend_from_slice(&self.extent_count.to_le_bytes())?;
        out.extend_from_slice(&self.group.to_le_bytes())?;
        Ok(())
    }
}

impl Entry for Extent {
    ghost SIZE = { 24 };

    ghost spelling = { extent_bytes };

    ghost reading = { extent_of };

    const SIZE: usize = 24;

    #[tactic(auto, unfolding(crate::specs::Entries::extent_of))]
    fn read(bytes: &[u8]) -> Option<Extent> {
        Some(Extent {
            sectors: le64_at(bytes, 0),
            target_type: le32_at(bytes, 8),
            first_sector: le64_at(bytes, 12),
            target_source: le32_at(bytes, 20),
        })
    }

    #[tactic(auto, unfolding(crate::specs::Entries::extent_bytes))]
    fn write(&self, out: &mut Vec<u8>) -> Result<(), NoMemory> {
        out.extend_from_slice(&self.sectors.to_le_bytes())?;
        out.extend_from_slice(&self.target_type.to_le_bytes())?;
        out.extend_from_slice(&self.first_sector.to_le_bytes())?;
        out.extend_from_slice(&self.target_source.to_le_bytes())?;
        Ok(())
    }
}

impl Entry for Group {
    ghost SIZE = { 48 };

    ghost spelling = { group_bytes };

    ghost reading = { group_of };

    const SIZE: usize = 48;

    #[tactic(auto, unfolding(crate::specs::Entries::group_of))]
    fn read(bytes: &[u8]) -> Option<Group> {
        let name = name_at(bytes, 0)?;
        Some(Group {
            name,
            flags: le32_at(bytes, 36),
            maximum_size: le64_at(bytes, 40),
        })
    }

    #[tactic(auto, unfolding(crate::specs::Entries::group_bytes))]
    fn write(&self, out: &mut Vec<u8>) -> Result<(), NoMemory> {
        out.extend_from_slice(&self.name.to_field())?;
        out.extend_from_slice(&self.flags.to_le_bytes())?;
        out.extend_from_slice(&self.maximum_size.to_le_bytes())?;
        Ok(())
    }
}

impl Entry for BlockDevice {
    ghost SIZE = { 64 };

    ghost spelling = { device_bytes };

    ghost reading = { device_of };

    const SIZE: usize = 64;

    #[tactic(auto, unfolding(crate::specs::Entries::device_of))]
    fn read(bytes: &[u8]) -> Option<BlockDevice> {
        let partition_name = name_at(bytes, 24)?;
        Some(BlockDevice {
            first_logical_sector: le64_at(bytes, 0),
            alignment: le32_at(bytes, 8),
            alignment_offset: le32_at(bytes, 12),
            size: le64_at(bytes, 16),
            partition_name,
            flags: le32_at(bytes, 60),
        })
    }

    #[tactic(auto, unfolding(crate::specs::Entries::device_bytes))]
    fn write(&self, out: &mut Vec<u8>) -> Result<(), NoMemory> {
        out.extend_from_slice(&self.first_logical_sector.to_le_bytes())?;
        out.extend_from_slice(&self.alignment.to_le_bytes())?;
        out.extend_from_slice(&self.alignment_offset.to_le_bytes())?;
        out.extend_from_slice(&self.size.to_le_bytes())?;
        out.extend_from_slice(&self.partition_name.to_field())?;
        out.extend_from_slice(&self.flags.to_le_bytes())?;
        Ok(())
    }
}
