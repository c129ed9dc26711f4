//! Why a partition's image isn't written.

use vab_gate::DiskFault;

/// Why an image isn't written into a store.
#[derive(Clone, Copy, Debug, PartialEq, Eq)]
pub enum PartFault {
    /// Memory was refused, before anything was written.
    NoMemory,
    /// The disk has failed.
    Disk(DiskFault),
}
