//! The rules that a table's entries keep.

ghost use Rattle.std.specs.Prelude.{◌≡◌, Bool};
ghost use Rattle.vab_tables.specs.Rules.{cap_of, end_of, device_passes, is_shared, has_slot};
ghost use Rattle.vab_tables.specs.Rules.{group_passes, extent_passes, attributes_of};
ghost use Rattle.vab_tables.specs.Rules.{partition_passes};

use crate::entries::{BlockDevice, Extent, Group, Partition};

/// Rules that entries keep, each by itself.
pub trait Rules<E> {
    /// Whether an entry keeps them.
    ghost passing: { Self → E → Bool };

    /// Whether the entry keeps them.
    fn admits(&self, entry: &E) -> bool
        ensures { result ≡ passing self.now entry.now };
}

/// Bytes of a sector.
const SECTOR: u64 = 512;

/// Sectors of a block of 4096 bytes.
pub const BLOCK_SECTORS: u64 = 8;

impl BlockDevice {
    /// Whole blocks of 4096 bytes from the first logical sector to the end of the device.
    pub fn cap(&self) -> u64
        ensures { result ≡ cap_of self.now }
    {
        (self.size / SECTOR).saturating_sub(self.first_logical_sector) / BLOCK_SECTORS
    }

    // The sector behind the last whole block.
    fn end(&self) -> u64
        ensures { result ≡ end_of self.now }
    {
        self.first_logical_sector + BLOCK_SECTORS * self.cap()
    }

    #[tactic(auto, unfolding(crate::specs::Rules::device_passes))]
    fn passes(&self) -> bool
        ensures { result ≡ device_passes self.now }
    {
        self.flags == 0
            && self.first_logical_sector % BLOCK_SECTORS == 0
            && self.first_logical_sector <= self.size / SECTOR
    }
}

// Whether a group of this name belongs to no slot.
#[tactic(auto, unfolding(crate::specs::Rules::is_shared))]
fn is_shared(name: &[u8]) -> bool
    ensures { result ≡ is_shared name.now }
{
    name == b"default".as_slice() || name == b"cow".as_slice()
}

// Whether `_a` or `_b` stands at the end, after at least one byte.
#[tactic(auto, unfolding(crate::specs::Rules::has_slot))]
fn has_slot(name: &[u8]) -> bool
    ensures { result ≡ has_slot name.now }
{
    let len = name.len();
    len >= 3 && name[len - 2] == b'_' && (name[len - 1] == b'a' || name[len - 1] == b'b')
}

impl Group {
    #[tactic(auto, unfolding(crate::specs::Rules::group_passes))]
    fn passes(&self) -> bool
        ensures { result ≡ group_passes self.now }
    {
        let shared = is_shared(self.name.text());
        (shared || has_slot(self.name.text()))
            && self.flags == 0
            && (!shared || self.maximum_size == 0)
    }
}

impl Extent {
    #[tactic(auto, unfolding(crate::specs::Rules::extent_passes))]
    fn passes(&self, device: &BlockDevice) -> bool
        ensures { result ≡ extent_passes device.now self.now }
    {
        let end = device.end();
        self.target_type == 0
            && self.target_source == 0
            && self.sectors > 0
            && self.sectors % BLOCK_SECTORS == 0
            && self.first_sector % BLOCK_SECTORS == 0
            && device.first_logical_sector <= self.first_sector
            && self.first_sector <= end
            && self.sectors <= end - self.first_sector
    }
}

// The attributes that partitions of a minor version may have.
fn attributes(minor: u16) -> u32
    ensures { result ≡ attributes_of minor }
{
    if minor == 0 { 1 } else { 13 }
}

impl Partition {
    // Whether it may stand in a table of this minor, with so many extents and groups.
    #[tactic(auto, unfolding(crate::specs::Rules::partition_passes))]
    fn passes(&self, minor: u16, extents: usize, groups: usize) -> bool
        ensures { result ≡ partition_passes minor extents groups self.now }
    {
        let end = self.first_extent as usize + self.extent_count as usize;
        self.attributes & attributes(minor) == self.attributes
            && end <= extents
            && (self.group as usize) < groups
    }
}

/// The rule of the block device.
#[derive(Clone, Copy)]
pub struct DeviceRules;

impl Rules<BlockDevice> for DeviceRules {
    ghost passing = { λ _ d. device_passes d };

    fn admits(&self, device: &BlockDevice) -> bool {
        device.passes()
    }
}

/// The rules of groups.
#[derive(Clone, Copy)]
pub struct GroupRules;

impl Rules<Group> for GroupRules {
    ghost passing = { λ _ g. group_passes g };

    fn admits(&self, group: &Group) -> bool {
        group.passes()
    }
}

/// The rules of extents of a block device.
#[derive(Clone, Copy)]
pub struct ExtentRules<'a> {
    pub device: &'a BlockDevice,
}

impl Rules<Extent> for ExtentRules<'_> {
    ghost passing = { λ r e. extent_passes r.device.now e };

    fn admits(&self, extent: &Extent) -> bool {
        extent.passes(self.device)
    }
}

/// The rules of partitions in a table of a minor version, with so many extents and groups.
#[derive(Clone, Copy)]
pub struct PartitionRules {
    pub minor: u16,
    pub extents: usize,
    pub groups: usize,
}

impl Rules<Partition> for PartitionRules {
    ghost passing = { λ r p. partition_passes r.minor r.extents r.groups p };

    fn admits(&self, partition: &Partition) -> bool {
        partition.passes(self.minor, self.extents, self.groups)
    }
}
