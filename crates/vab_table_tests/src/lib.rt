//! Tests of partition tables: those of an update, edit by edit, those with a store over a
//! partition, and two copies on a disk.
#![tactic(auto)]

#[cfg(test)]
mod overlays;
#[cfg(test)]
mod sources;
#[cfg(test)]
mod tables;
#[cfg(test)]
mod texts;
#[cfg(test)]
mod updates;
