//! The table of partitions with their blocks.

ghost use Rattle.std.specs.Prelude.{◌≡◌, ◌<◌, ◌≤◌, ◌^◌, ◌++◌, ◌∷◌, [], length, map, sum_by};
ghost use Rattle.std.specs.Prelude.{position, IfOk, OnOk, All};
ghost use Rattle.std.specs.List.{flat_map};
ghost use Rattle.std.specs.Str.{bytes_eq};
ghost use Rattle.vab_tables.specs.Rules.{KeepsRules};
ghost use Rattle.vab_tables.specs.Spelling.{table_size_of};
ghost use Rattle.vab_blocks.specs.Runs.{runs_of};
ghost use Rattle.vab_layout.specs.Layout.{layout_of, table_of, extent_of_run, extents_of_part};
ghost use Rattle.vab_layout.specs.Layout.{index_of, partitions_from, runs_in, RunsFit};
ghost use Rattle.vab_layout.specs.Rules.{IsLayout};

use crate::layout::{Layout, Part};
use std::alloc::Global;
use vab_blocks::Blocks;
use vab_bytes::{Listing, Name36};
use vab_tables::{BLOCK_SECTORS, Extent, Group, NoMemory, Partition, Table};

impl Layout {
    /// Bytes of the text of the layout's table.
    #[tactic(auto, using(crate::proofs::LayoutLaws::table_size_is))]
    pub fn text_size(&self) -> u64
        requires parts { length self.now.parts < 2 ^ 56 }
        requires groups { length self.now.groups < 2 ^ 56 }
        requires runs { sum_by (λ p. length (runs_of p.blocks)) self.now.parts < 2 ^ 58 }
        ensures { result ≡ table_size_of (table_of self.now) }
    {
        let parts = 52 * self.parts.len() as u64;
        let extents = 24 * count_extents(self.parts.as_slice());
        let groups = 48 * self.groups.len() as u64;
        256 + parts + extents + groups + 64
    }

    /// The table of minor version 2 whose partitions have these blocks: the extents of each are the
    /// maximal runs of its blocks, in the order of the partitions. `NoMemory` where memory is
    /// refused.
    pub fn to_table(&self, alloc: Global) -> Result<Table, NoMemory>
        requires rules { IsLayout self.now }
        requires small { table_size_of (table_of self.now) < 2 ^ 32 }
        ensures value { IfOk result (λ t. t ≡ table_of self.now) }
        ensures keeps { IfOk result (λ t. KeepsRules t) }
        // What the table says is this layout again.
        ensures again { IfOk result (λ t. layout_of t ≡ self.now) }
    {
        let first_sector = self.device.first_logical_sector;
        let partitions = partitions(alloc, self.groups.as_slice(), self.parts.as_slice())?;
        let extents = extents(alloc, first_sector, self.parts.as_slice())?;
        let groups = Vec::from_slice(alloc, self.groups.as_slice())?;
        let devices = vec![in alloc; self.device]?;
        Ok(Table {
            partitions: Listing::from_vec(partitions),
            extents: Listing::from_vec(extents),
            groups: Listing::from_vec(groups),
            devices: Listing::from_vec(devices),
            minor: 2,
            flags: self.flags,
        })
    }
}

// How many extents these have together.
fn count_extents(parts: &[Part]) -> u64
    requires { runs_in parts.now < 2 ^ 58 }
    ensures { result ≡ runs_in parts.now }
{
    let mut count = 0;
    for part in parts {
        count += part.blocks.runs().len() as u64;
    }
    count
}

// The partitions of these, whose extents stand in their order.
fn partitions(alloc: Global, groups: &[Group], parts: &[Part]) -> Result<Vec<Partition>, NoMemory>
    requires groups { length groups.now < 2 ^ 32 }
    requires runs { runs_in parts.now < 2 ^ 32 }
    ensures { IfOk result (λ v. v.items ≡ partitions_from 0 groups.now parts.now) }
{
    let mut partitions = Vec::new(alloc);
    let mut first_extent = 0;
    for part in parts {
        let partition = partition(groups, part, first_extent);
        first_extent += partition.extent_count;
        partitions.push(partition)?;
    }
    Ok(partitions)
}

// The partition whose extents begin at this index.
fn partition(groups: &[Group], part: &Part, first_extent: u32) -> Partition
    requires groups { length groups.now < 2 ^ 32 }
    requires runs { length (runs_of (part.now).blocks) < 2 ^ 32 }
    ensures value { result ∷ [] ≡ partitions_from first_extent groups.now (part.now ∷ []) }
    ensures count { result.extent_count ≡ length (runs_of (part.now).blocks) }
{
    Partition {
        name: part.name,
        attributes: part.attributes,
        first_extent,
        extent_count: part.blocks.runs().len() as u32,
        group: group_index(groups, &part.group) as u32,
    }
}

// The index of the group of this name; 0 where there is none.
#[tactic(auto, using(crate::proofs::LayoutLaws::index_within))]
fn group_index(groups: &[Group], name: &Name36) -> usize
    ensures value { result ≡ index_of groups.now name.now }
    ensures within { result ≤ length groups.now }
{
    find_group(groups, name).unwrap_or(0)
}

// The index of the first group of this name.
fn find_group(groups: &[Group], name: &Name36) -> Option<usize>
    ensures { result ≡ position (λ g. bytes_eq g.name name.now) groups.now }
{
    groups.iter().position(|group| group.name == *name)
}

// The extents of all partitions, in their order.
fn extents(alloc: Global, first_sector: u64, parts: &[Part]) -> Result<Vec<Extent>, NoMemory>
    requires { All (λ p. RunsFit first_sector p.blocks) parts.now }
    ensures { IfOk result (λ v. v.items ≡ flat_map (extents_of_part first_sector) parts.now) }
{
    let mut extents = Vec::new(alloc);
    for part in parts {
        push_extents(&mut extents, first_sector, &part.blocks)?;
    }
    Ok(extents)
}

// Writes the maximal runs of these blocks at the end, as extents.
fn push_extents(
    extents: &mut Vec<Extent>,
    first_sector: u64,
    blocks: &Blocks,
) -> Result<(), NoMemory>
    requires { RunsFit first_sector blocks.now }
    ensures { OnOk result (extents.new.items
        ≡ extents.old.items ++ map (extent_of_run first_sector) (runs_of blocks.now)) }
{
    for run in blocks.runs() {
        extents.push(Extent {
            sectors: BLOCK_SECTORS * run.1,
            target_type: 0,
            first_sector: first_sector + BLOCK_SECTORS * run.0,
            target_source: 0,
        })?;
    }
    Ok(())
}
