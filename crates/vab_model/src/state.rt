//! The state of a device.

use vab_bootctl::Control;
use vab_bytes::{Bytes, Listing, Name36};

/// An image of a slot.
#[derive(Drop)]
pub struct Image {
    /// The base name, without the slot's suffix.
    pub name: Name36,
    /// Its group without the slot's suffix; `None` for the group of no slot.
    pub group: Option<Name36>,
    /// A whole number of blocks of 4096 bytes.
    pub bytes: Bytes,
}

/// A group of partitions, without the slot's suffix.
#[derive(Clone, Copy, Debug, PartialEq, Eq)]
pub struct GroupLimit {
    pub name: Name36,
    /// The most bytes that a slot's images in it may have together; 0: no limit.
    pub limit: u64,
}

/// What is known of the image of a planned partition.
#[derive(Drop)]
pub enum PlanImage {
    /// The source's.
    Kept,
    /// None yet.
    Declared,
    /// These bytes, and how many exceptions its store has; none where it has no store.
    Written(Bytes, u64),
}

/// A partition that the target of an update is to have.
#[derive(Drop)]
pub struct PlanEntry {
    /// The base name, without the slot's suffix.
    pub name: Name36,
    /// Its group without the slot's suffix; `None` for the group of no slot.
    pub group: Option<Name36>,
    /// Blocks of 4096 bytes.
    pub blocks: u64,
    /// Blocks of its exception store, where it has one.
    pub store: Option<u64>,
    pub image: PlanImage,
}

/// The partitions that the target of an update is to have.
#[derive(Drop)]
pub struct Plan {
    /// The target stands apart, in a factory install: no block of the source is the target's, and
    /// an image is written into the blocks of its own partition, which has no store.
    pub apart: bool,
    pub entries: Listing<PlanEntry>,
}

/// Where an update stands. A slot is 0 for a and 1 for b.
#[derive(Drop)]
pub enum Phase {
    /// No update.
    Idle,
    /// From this source; the other slot's partitions are planned.
    Installing(usize, Plan),
    /// From this source; so many blocks are left to merge.
    Staged(usize, u64),
    /// Into this target; so many blocks are left to merge.
    Merging(usize, u64),
}

/// What is written over a partition, and read in its place.
#[derive(Drop)]
pub struct Overlay {
    /// The base name of the partition, one of the current slot's.
    pub name: Name36,
    /// Blocks of 4096 bytes of the exception store that holds the writes.
    pub store: u64,
    /// The blocks of the partition that were written over, counted from 0, each once.
    pub blocks: Listing<u64>,
    /// What the partition reads as: its own bytes, with what was written last over each block.
    pub bytes: Bytes,
}

/// A physical partition: each slot has one of this name, behind `super`.
#[derive(Drop)]
pub struct Physical {
    /// The base name, without the slot's suffix: boot or vbmeta.
    pub name: Name36,
    /// Blocks of 4096 bytes.
    pub blocks: u64,
    /// What that of slot a holds, where the slot has images, or an installation has written it.
    pub a: Option<Bytes>,
    /// What that of slot b holds.
    pub b: Option<Bytes>,
}

/// The state of a device.
#[derive(Drop)]
pub struct State {
    /// Blocks of 4096 bytes that partitions may have.
    pub cap: u64,
    /// The groups in their order, but for that of no slot.
    pub groups: Listing<GroupLimit>,
    /// The boot control; zeros for a slot without images.
    pub control: Control,
    /// The images of slot a in the order of its table, where it has some.
    pub a: Option<Listing<Image>>,
    /// The images of slot b.
    pub b: Option<Listing<Image>>,
    /// The physical partitions; no command makes them more or fewer.
    pub physical: Listing<Physical>,
    pub phase: Phase,
    /// What is written over a partition of the current slot, where there is no update.
    pub overlay: Option<Overlay>,
}
