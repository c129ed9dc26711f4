// The layout of the device that is made.
ghost use Rattle.std.specs.Prelude.{◌≡◌, ◌+◌, ◌*◌, ◌<◌, ◌≤◌, ◌^◌, ◌++◌, ◌∷◌, [], List, codes, IfOk};
ghost use Rattle.std.specs.Prelude.{IfErr};
ghost use Rattle.vab_bytes.specs.Name.{IsName};
ghost use Rattle.vab_names.specs.Names.{suffix_of};
ghost use Rattle.vab_space.specs.Space.{blocks_of};
ghost use Rattle.vab_tables.specs.declared.entries.Group.{Group};
ghost use Rattle.vab_set.specs.Spelling.{IsImage, IsSet};
ghost use Rattle.vab_layout.specs.declared.layout.Part.{Part};
ghost use Rattle.vab_layout.specs.Plain.{default_group};
ghost use Rattle.vab_make.specs.declared.fault.MakeFault.TheVariants.{NoMemory};
ghost use Rattle.vab_make.specs.Made.{main_group, parts_from, made_device, made_layout};

use crate::fault::MakeFault;
use std::alloc::Global;
use vab_blocks::Blocks;
use vab_bytes::{Listing, Name36};
use vab_geometry::SUPER;
use vab_layout::{Layout, Part};
use vab_names::{default_group, full_name};
use vab_set::{Set, SetImage};
use vab_space::blocks;
use vab_tables::{BlockDevice, Group};

// A name that there is.
fn named(text: &[u8]) -> Name36
    requires { IsName text.now }
    ensures { result ≡ text.now }
{
    match Name36::parse(text) {
        Ok(name) => name,
        Err(_) => unreachable!(),
    }
}

// The one group of a slot.
fn group_name(slot: usize) -> Name36
    requires { slot < 2 }
    ensures { result ≡ codes "main" ++ suffix_of slot }
{
    full_name(&named(b"main"), slot)
}

fn group(slot: usize, limit: u64) -> Group
    requires { slot < 2 }
    ensures { result ≡ main_group slot limit }
{
    Group {
        name: group_name(slot),
        flags: 0,
        maximum_size: limit,
    }
}

fn shared_group() -> Group
    ensures { result ≡ default_group }
{
    Group {
        name: default_group(),
        flags: 0,
        maximum_size: 0,
    }
}

// The partition of an image, from this block on.
fn part(alloc: Global, image: &SetImage, first: u64) -> Result<Part, MakeFault>
    requires image { IsImage image.now }
    requires fits { first < 2 ^ 63 }
    ensures value { IfOk result (λ p. p ∷ [] ≡ parts_from first (image.now ∷ [])) }
    ensures memory { IfErr result (λ f. f ≡ NoMemory) }
{
    let blocks = Blocks::consecutive(alloc, first, blocks(image.size))?;
    Ok(Part {
        name: full_name(&image.name, 0),
        attributes: 1,
        group: group_name(0),
        blocks,
    })
}

// The partitions of the images, one after another.
fn parts(alloc: Global, set: &Set) -> Result<Vec<Part>, MakeFault>
    requires { IsSet set.now }
    ensures value { IfOk result (λ v. v.items ≡ parts_from 0 set.now) }
    ensures memory { IfErr result (λ f. f ≡ NoMemory) }
{
    let mut parts = Vec::new(alloc);
    let mut first = 0;
    for image in set.as_slice() {
        let part = part(alloc, image, first)?;
        parts.push(part)?;
        first += blocks(image.size);
    }
    Ok(parts)
}

// The block device of a disk of so many sectors: `super`, with the partitions behind its first
// megabyte.
fn device(sectors: u64) -> BlockDevice
    requires least { 6152 ≤ sectors }
    requires most { sectors < 2 ^ 55 }
    ensures { result ≡ made_device sectors }
{
    BlockDevice {
        first_logical_sector: 2048,
        alignment: 1 << 20,
        alignment_offset: 0,
        size: 512 * (sectors - SUPER),
        partition_name: named(b"super"),
        flags: 0,
    }
}

// The layout of the device.
#[tactic(auto, unfolding(crate::specs::Made::made_layout))]
pub fn layout(alloc: Global, set: &Set, limit: u64, sectors: u64) -> Result<Layout, MakeFault>
    requires set { IsSet set.now }
    requires least { 6152 ≤ sectors }
    requires most { sectors < 2 ^ 55 }
    ensures value { IfOk result (λ l. l ≡ made_layout set.now limit sectors) }
    ensures memory { IfErr result (λ f. f ≡ NoMemory) }
{
    let parts = parts(alloc, set)?;
    let groups = vec![in alloc; shared_group(), group(0, limit), group(1, limit)]?;
    Ok(Layout {
        parts: Listing::from_vec(parts),
        groups: Listing::from_vec(groups),
        device: device(sectors),
        flags: 1,
    })
}
