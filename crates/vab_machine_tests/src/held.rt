// The state of the device that a disk in memory holds, read block by block.

use std::alloc::Global;
use std::test::*;
use vab_bootctl::Info;
use vab_bytes::{Bytes, Listing, Name36};
use vab_device::{Device, Part, PartImage, PhaseKind};
use vab_disk::{Disk, MemPort};
use vab_linear::Map;
use vab_model::{Image, Overlay, Phase, Plan, PlanEntry, PlanImage, State};

/// A sector of a disk.
pub(crate) fn sector(d: &mut MemPort, at: u64) -> Result<[u8; 512], Fail> {
    let mut bytes = [0u8; 512];
    if at >= d.sectors() || d.read_sector(at, &mut bytes).is_err() {
        return Err("a sector is read".into());
    }
    Ok(bytes)
}

fn sector_of(map: &Map, block: u64) -> Result<u64, Fail> {
    if block < map.len() {
        Ok(map.sector_of(block))
    } else {
        Err("a block is there".into())
    }
}

// The first sector of a block of an image: of its store, where that has its chunk.
fn place(part: &Part, block: u64) -> Result<u64, Fail> {
    match (&part.image, &part.store) {
        (PartImage::Written(chunk, view), Some(store)) => {
            match view.chunk_of(chunk.chunk_at(block)) {
                Some(new) if new < 1 << 61 => {
                    sector_of(store, chunk.block_in(new, chunk.place_in(block)))
                }
                Some(_) => Err("a chunk is in its store".into()),
                None => sector_of(&part.map, block),
            }
        }
        _ => sector_of(&part.map, block),
    }
}

fn image_bytes(alloc: Global, d: &mut MemPort, part: &Part) -> Result<Bytes, Fail> {
    let mut bytes = Vec::new(alloc);
    for block in 0..part.map.len() {
        let first = place(part, block)?;
        for i in 0..8u64 {
            bytes.extend_from_slice(&sector(d, first.saturating_add(i))?)?;
        }
    }
    Ok(Bytes::from_vec(bytes))
}

// The group without its slot's suffix.
fn group_of(name: &Name36) -> Result<Option<Name36>, Fail> {
    let text = name.text();
    if text == b"default".as_slice() || text.len() < 2 {
        return Ok(None);
    }
    let base = Name36::parse(&text[..text.len() - 2]);
    Ok(Some(base.ok().ok_or("a group has a base name")?))
}

fn images(
    alloc: Global,
    d: &mut MemPort,
    parts: &Option<Listing<Part>>,
) -> Result<Option<Listing<Image>>, Fail> {
    let Some(parts) = parts else {
        return Ok(None);
    };
    let mut images = Vec::new(alloc);
    for part in parts.as_slice() {
        let image = Image {
            name: part.name,
            group: group_of(&part.group)?,
            bytes: image_bytes(alloc, d, part)?,
        };
        images.push(image).ok().ok_or("there is memory")?;
    }
    Ok(Some(Listing::from_vec(images)))
}

fn plan(alloc: Global, d: &mut MemPort, device: &Device) -> Result<Plan, Fail> {
    let mut entries = Vec::new(alloc);
    let parts = device.plan.as_ref().ok_or("there is a plan")?;
    for part in parts.as_slice() {
        let image = match &part.image {
            PartImage::Kept => PlanImage::Kept,
            PartImage::Declared => PlanImage::Declared,
            PartImage::Written(_, view) => {
                PlanImage::Written(image_bytes(alloc, d, part)?, view.count())
            }
        };
        let entry = PlanEntry {
            name: part.name,
            group: group_of(&part.group)?,
            blocks: part.map.len(),
            store: part.store.as_ref().map(|store| store.len()),
            image,
        };
        entries.push(entry).ok().ok_or("there is memory")?;
    }
    Ok(Plan {
        apart: device.mark.apart,
        entries: Listing::from_vec(entries),
    })
}

// The blocks that a store has exceptions for, in their order.
fn blocks_over(alloc: Global, image: &PartImage) -> Result<Listing<u64>, Fail> {
    let mut blocks = Vec::new(alloc);
    if let PartImage::Written(_, view) = image {
        for j in 0..view.count() {
            blocks.push(view.at(j).old_chunk)?;
        }
    }
    Ok(Listing::from_vec(blocks))
}

// What is written over a partition, as it is read through its store.
fn overlay(alloc: Global, d: &mut MemPort, part: &Option<Part>) -> Result<Option<Overlay>, Fail> {
    let Some(part) = part else {
        return Ok(None);
    };
    let store = part.store.as_ref().map(|store| store.len());
    Ok(Some(Overlay {
        name: part.name,
        store: store.unwrap_or(0),
        blocks: blocks_over(alloc, &part.image)?,
        bytes: image_bytes(alloc, d, part)?,
    }))
}

// How many exceptions the stores of a slot with images have.
fn left(parts: &Option<Listing<Part>>) -> u64 {
    let mut left = 0u64;
    if let Some(parts) = parts {
        for part in parts.as_slice() {
            if let PartImage::Written(_, view) = &part.image {
                left = left.saturating_add(view.count());
            }
        }
    }
    left
}

fn phase(alloc: Global, d: &mut MemPort, device: &Device) -> Result<Phase, Fail> {
    let left = left(&device.a).saturating_add(left(&device.b));
    Ok(match device.phase() {
        PhaseKind::Idle => Phase::Idle,
        PhaseKind::Installing(source) => Phase::Installing(source, plan(alloc, d, device)?),
        PhaseKind::Staged(source) => Phase::Staged(source, left),
        PhaseKind::Merging(target) => Phase::Merging(target, left),
    })
}

// What boot control says of a slot; zeros where it has no images.
fn info(has_images: bool, info: &Info) -> Info {
    if has_images {
        return *info;
    }
    Info {
        priority: 0,
        tries: 0,
        successful: false,
    }
}

pub(crate) fn state_of(alloc: Global, d: &mut MemPort, device: &Device) -> Result<State, Fail> {
    let mut control = device.control;
    control.a = info(device.a.is_some(), &control.a);
    control.b = info(device.b.is_some(), &control.b);
    Ok(State {
        cap: device.cap,
        groups: Listing::from_vec(Vec::from_slice(alloc, device.groups.as_slice())?),
        control,
        a: images(alloc, d, &device.a)?,
        b: images(alloc, d, &device.b)?,
        physical: Listing::from_vec(Vec::new(alloc)),
        phase: phase(alloc, d, device)?,
        overlay: overlay(alloc, d, &device.overlay)?,
    })
}
