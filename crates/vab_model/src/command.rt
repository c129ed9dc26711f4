//! Commands and what is replied to them.

use vab_bytes::Name36;
use vab_space::Chunk;

/// A command on a device. A slot is 0 for a and 1 for b; a name is a partition's with its slot's
/// suffix; a size is in bytes.
#[derive(Clone, Copy, Debug)]
pub enum Command<'a> {
    /// Makes a slot the one to boot next.
    SetActive(usize),
    /// Boots the bootable slot of the higher priority.
    Boot,
    /// Marks the current slot as one that works.
    Mark,
    /// Tells an image's bytes.
    Print(&'a [u8]),
    /// Tells the SHA-256 of an image's bytes.
    Digest(&'a [u8]),
    /// Begins an update from the current slot.
    Begin,
    /// Begins a factory install beside the current slot: the target has no partitions yet, and is
    /// written in place.
    Factory,
    /// Gives the target of an update a partition of this size.
    Create(&'a [u8], u64),
    /// Gives a partition of the target another size.
    Resize(&'a [u8], u64),
    /// Takes a partition from the target.
    Delete(&'a [u8]),
    /// Gives a partition of the target an exception store of this size; 0: of the size that it
    /// needs at most.
    Snapshot(&'a [u8], u64),
    /// Makes the staged bytes the image of a partition of the target, in a store whose chunks have
    /// this size, or in a factory install in place.
    Flash(&'a [u8], Chunk),
    /// Makes what a physical partition of the source holds what that of the target holds. The name
    /// is the target's.
    Keep(&'a [u8]),
    /// Ends the installing of an update: its target has images, and may be set active.
    Finish,
    /// Drops an update.
    Cancel,
    /// Begins to merge an update into its target's partitions.
    BeginMerge,
    /// Takes so many turns of a merge, fewer only where it ends.
    Merge(u64),
    /// Makes the partitions of the staged image of an empty `super` those of the current slot.
    UpdateSuper,
    /// Overlays a partition of the current slot: what is written over it goes into an exception
    /// store of this size; 0: of the size that it needs at most.
    Overlay(&'a [u8], u64),
    /// Writes the staged bytes over this block of the overlaid partition.
    OverlayWrite(u64),
    /// Drops the overlay.
    OverlayDiscard,
}

/// Why a command is refused. A refused command changes nothing.
#[derive(Clone, Copy, Debug, PartialEq, Eq)]
pub enum Refusal {
    /// There is an update, or an overlay.
    NotIdle,
    /// No update is being installed.
    NotInstalling,
    /// No update waits to be merged.
    NotStaged,
    /// No update is being merged.
    NotMerging,
    /// There is no update.
    NothingToCancel,
    /// The update is being merged.
    Merging,
    /// The target of the update was booted last.
    RunningTarget,
    /// The target of the update wasn't booted last.
    NotRunningTarget,
    /// The slot that was booted last isn't marked as one that works.
    NotSuccessful,
    /// The name is not 1 to 30 bytes of `A-Z a-z 0-9 _ .` and a slot's suffix.
    BadName,
    /// The size is above 2^40 bytes, or that of a store, other than 0, below two blocks.
    BadSize,
    /// The slot has images, and not this one; or the target has no such partition.
    Unknown,
    /// The target has such a partition.
    Exists,
    /// The partition has an exception store.
    HasStore,
    /// The partition has no exception store.
    NoStore,
    /// The partition was flashed.
    Written,
    /// Nothing was downloaded.
    NothingStaged,
    /// The staged bytes are a sparse image.
    Sparse,
    /// So many bytes are staged for a partition of so many.
    TooLarge(u64, u64),
    /// The target would have a 65th partition.
    TooMany,
    /// The partitions of a group would have so many bytes, of so many.
    GroupLimit(u64, u64),
    /// Partitions and stores would have so many blocks, of so many.
    NoRoom(u64, u64),
    /// The exceptions would fill so many blocks of a store of so many.
    StoreFull(u64, u64),
    /// The text of the table would have so many bytes, of so many.
    TableFull(u64, u64),
    /// The partition of this base name has no image yet.
    Incomplete(Name36),
    /// The slot has no images.
    NoImages,
    /// In a factory install there are no stores.
    InPlace,
    /// The staged bytes are no image of a `super` with the current slot's partitions.
    BadSuperImage,
    /// The geometry of the staged image isn't the device's.
    OtherGeometry,
    /// The block device of the staged image isn't that of the current slot's table.
    OtherDevice,
    /// The partition of this whole name has extents in the staged image.
    NotEmpty(Name36),
    /// There is no overlay.
    NotOverlaid,
    /// So many bytes are staged, and a block has 4096.
    BadLength(u64),
    /// The partition has no block of the first number: it has the second number of blocks.
    BadBlock(u64, u64),
    /// The partition is a physical one, which has one size, and no store.
    Physical,
    /// The partition isn't a physical one.
    NotPhysical,
    /// Memory was refused.
    NoMemory,
}

/// The reply to a command.
#[derive(Clone, Copy, Debug, PartialEq, Eq)]
pub enum Reply {
    Done,
    /// This slot is booted.
    Booted(usize),
    /// The bytes of the image of this name.
    Bytes(Name36),
    /// The SHA-256 of an image's bytes.
    Digest([u8; 32]),
    /// So many blocks are left to merge.
    Left(u64),
    /// The update is merged.
    Merged,
    Refused(Refusal),
}
