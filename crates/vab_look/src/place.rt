//! The parts of a disk in the order of opening.

/// A part of a disk.
#[derive(Clone, Copy, Debug, PartialEq, Eq)]
pub enum Place {
    Size,
    Mark,
    Statuses,
    Control,
    Geometry,
    Tables,
    Partitions,
    Stores,
    States,
}
