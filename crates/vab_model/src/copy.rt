//! Copies of a state and of its parts.

ghost use Rattle.std.specs.Prelude.{◌≡◌, IfOk};

use crate::{
    GroupLimit, Image, NoMemory, Overlay, Phase, Physical, Plan, PlanEntry, PlanImage, State,
};
use std::alloc::Global;
use vab_bytes::{Bytes, Listing};

fn copy_bytes(alloc: Global, bytes: &Bytes) -> Result<Bytes, NoMemory>
    ensures { IfOk result (λ x. x ≡ bytes.now) }
{
    Ok(Bytes::from_vec(Vec::from_slice(alloc, bytes.as_slice())?))
}

fn copy_groups(alloc: Global, groups: &Listing<GroupLimit>) -> Result<Listing<GroupLimit>, NoMemory>
    ensures { IfOk result (λ x. x ≡ groups.now) }
{
    Ok(Listing::from_vec(Vec::from_slice(alloc, groups.as_slice())?))
}

fn copy_images(alloc: Global, images: &Listing<Image>) -> Result<Listing<Image>, NoMemory>
    ensures { IfOk result (λ x. x ≡ images.now) }
{
    let mut copies = Vec::new(alloc);
    for image in images.as_slice() {
        copies.push(image.copy(alloc)?)?;
    }
    Ok(Listing::from_vec(copies))
}

fn copy_entries(alloc: Global, plan: &Listing<PlanEntry>) -> Result<Listing<PlanEntry>, NoMemory>
    ensures { IfOk result (λ x. x ≡ plan.now) }
{
    let mut copies = Vec::new(alloc);
    for entry in plan.as_slice() {
        copies.push(entry.copy(alloc)?)?;
    }
    Ok(Listing::from_vec(copies))
}

fn copy_blocks(alloc: Global, blocks: &Listing<u64>) -> Result<Listing<u64>, NoMemory>
    ensures { IfOk result (λ x. x ≡ blocks.now) }
{
    Ok(Listing::from_vec(Vec::from_slice(alloc, blocks.as_slice())?))
}

fn copy_overlay(alloc: Global, overlay: &Option<Overlay>) -> Result<Option<Overlay>, NoMemory>
    ensures { IfOk result (λ x. x ≡ overlay.now) }
{
    match overlay {
        None => Ok(None),
        Some(overlay) => Ok(Some(overlay.copy(alloc)?)),
    }
}

fn copy_held(alloc: Global, held: &Option<Bytes>) -> Result<Option<Bytes>, NoMemory>
    ensures { IfOk result (λ x. x ≡ held.now) }
{
    match held {
        None => Ok(None),
        Some(bytes) => Ok(Some(copy_bytes(alloc, bytes)?)),
    }
}

fn copy_physical(alloc: Global, physical: &Listing<Physical>) -> Result<Listing<Physical>, NoMemory>
    ensures { IfOk result (λ x. x ≡ physical.now) }
{
    let mut copies = Vec::new(alloc);
    for partition in physical.as_slice() {
        copies.push(partition.copy(alloc)?)?;
    }
    Ok(Listing::from_vec(copies))
}

fn copy_slot(
    alloc: Global,
    images: &Option<Listing<Image>>,
) -> Result<Option<Listing<Image>>, NoMemory>
    ensures { IfOk result (λ x. x ≡ images.now) }
{
    match images {
        None => Ok(None),
        Some(images) => Ok(Some(copy_images(alloc, images)?)),
    }
}

impl Image {
    fn copy(&self, alloc: Global) -> Result<Image, NoMemory>
        ensures { IfOk result (λ x. x ≡ self.now) }
    {
        Ok(Image {
            name: self.name,
            group: self.group,
            bytes: copy_bytes(alloc, &self.bytes)?,
        })
    }
}

impl PlanImage {
    fn copy(&self, alloc: Global) -> Result<PlanImage, NoMemory>
        ensures { IfOk result (λ x. x ≡ self.now) }
    {
        match self {
            PlanImage::Kept => Ok(PlanImage::Kept),
            PlanImage::Declared => Ok(PlanImage::Declared),
            PlanImage::Written(bytes, exceptions) => {
                Ok(PlanImage::Written(copy_bytes(alloc, bytes)?, *exceptions))
            }
        }
    }
}

impl PlanEntry {
    fn copy(&self, alloc: Global) -> Result<PlanEntry, NoMemory>
        ensures { IfOk result (λ x. x ≡ self.now) }
    {
        Ok(PlanEntry {
            name: self.name,
            group: self.group,
            blocks: self.blocks,
            store: self.store,
            image: self.image.copy(alloc)?,
        })
    }
}

impl Plan {
    fn copy(&self, alloc: Global) -> Result<Plan, NoMemory>
        ensures { IfOk result (λ x. x ≡ self.now) }
    {
        Ok(Plan {
            apart: self.apart,
            entries: copy_entries(alloc, &self.entries)?,
        })
    }
}

impl Phase {
    fn copy(&self, alloc: Global) -> Result<Phase, NoMemory>
        ensures { IfOk result (λ x. x ≡ self.now) }
    {
        match self {
            Phase::Idle => Ok(Phase::Idle),
            Phase::Installing(source, plan) => Ok(Phase::Installing(*source, plan.copy(alloc)?)),
            Phase::Staged(source, left) => Ok(Phase::Staged(*source, *left)),
            Phase::Merging(target, left) => Ok(Phase::Merging(*target, *left)),
        }
    }
}

impl Overlay {
    fn copy(&self, alloc: Global) -> Result<Overlay, NoMemory>
        ensures { IfOk result (λ x. x ≡ self.now) }
    {
        Ok(Overlay {
            name: self.name,
            store: self.store,
            blocks: copy_blocks(alloc, &self.blocks)?,
            bytes: copy_bytes(alloc, &self.bytes)?,
        })
    }
}

impl Physical {
    fn copy(&self, alloc: Global) -> Result<Physical, NoMemory>
        ensures { IfOk result (λ x. x ≡ self.now) }
    {
        Ok(Physical {
            name: self.name,
            blocks: self.blocks,
            a: copy_held(alloc, &self.a)?,
            b: copy_held(alloc, &self.b)?,
        })
    }
}

impl State {
    /// The same state, in memory of its own.
    pub fn copy(&self, alloc: Global) -> Result<State, NoMemory>
        ensures { IfOk result (λ x. x ≡ self.now) }
    {
        Ok(State {
            cap: self.cap,
            groups: copy_groups(alloc, &self.groups)?,
            control: self.control,
            a: copy_slot(alloc, &self.a)?,
            b: copy_slot(alloc, &self.b)?,
            physical: copy_physical(alloc, &self.physical)?,
            phase: self.phase.copy(alloc)?,
            overlay: copy_overlay(alloc, &self.overlay)?,
        })
    }
}
