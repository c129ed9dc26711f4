//! The table of logical partitions.

ghost use Rattle.std.specs.Prelude.{◌≡◌, ◌+◌, ◌≤◌, ◌<◌, ◌^◌, length};
ghost use Rattle.vab_tables.specs.Extents.{extents_of, first_sector_of};
ghost use Rattle.vab_tables.specs.Rules.{KeepsRules};
ghost use Rattle.vab_tables.specs.Spelling.{table_size_of};

use crate::entries::{BlockDevice, Extent, Group, Partition};
use vab_bytes::Listing;

/// The logical partitions of a `super` block device. Contracts see its lists as lists.
#[derive(Drop)]
pub struct Table {
    pub partitions: Listing<Partition>,
    pub extents: Listing<Extent>,
    pub groups: Listing<Group>,
    pub devices: Listing<BlockDevice>,
    /// The minor version of the text that it was read from.
    pub minor: u16,
    /// 1: a device with Virtual A/B. Minors 0 and 1 have no flags: 0.
    pub flags: u32,
}

impl Table {
    /// The first logical sector of the table's device, at which its blocks begin.
    pub fn first_sector(&self) -> u64
        requires { KeepsRules self.now }
        ensures { result ≡ first_sector_of self.now }
    {
        self.devices.as_slice()[0].first_logical_sector
    }

    /// The extents of a partition of the table, in its order.
    pub fn extents_of(&self, partition: &Partition) -> &[Extent]
        requires { (partition.now).first_extent + (partition.now).extent_count
            ≤ length (self.now).extents }
        ensures { result.now ≡ extents_of self.now partition.now }
    {
        let from = partition.first_extent as usize;
        &self.extents.as_slice()[from..from + partition.extent_count as usize]
    }
}

/// Bytes of the text that `encode_table` writes: a header of 256 bytes, and the entries.
pub fn table_size(table: &Table) -> u64
    requires partitions { length table.now.partitions < 2 ^ 32 }
    requires extents { length table.now.extents < 2 ^ 32 }
    requires groups { length table.now.groups < 2 ^ 32 }
    requires devices { length table.now.devices < 2 ^ 32 }
    ensures { result ≡ table_size_of table.now }
{
    let partitions = 52 * table.partitions.len() as u64;
    let extents = 24 * table.extents.len() as u64;
    let groups = 48 * table.groups.len() as u64;
    let devices = 64 * table.devices.len() as u64;
    256 + partitions + extents + groups + devices
}
