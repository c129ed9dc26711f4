//! Why statuses aren't read.

use vab_gate::DiskFault;

/// Why the statuses of a disk are refused.
#[derive(Clone, Copy, Debug, PartialEq, Eq)]
pub enum StatusFault {
    /// This sector is the first that is neither all zeros nor a status, or that names a partition
    /// which a sector before it names.
    Bad(u64),
    /// The disk has failed.
    Disk(DiskFault),
}
