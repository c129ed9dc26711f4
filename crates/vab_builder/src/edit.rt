//! Edits of the target's table.

/// A change of an update's target. The names are full names, with the target's suffix; sizes are in
/// bytes, and are rounded up to
/// whole blocks of 4096.
#[derive(Clone, Copy, Debug)]
pub enum Edit<'a> {
    /// A new partition of this size.
    Create(&'a [u8], u64),
    /// Another size of a partition.
    Resize(&'a [u8], u64),
    /// A partition less.
    Delete(&'a [u8]),
    /// An exception store of this size for a partition; 0 stands for the size that all blocks of
    /// the partition may need.
    AddStore(&'a [u8], u64),
}
