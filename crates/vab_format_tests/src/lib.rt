//! Tests of the formats on the disk and of the tables' rules, with bytes and sums from outside.
#![tactic(auto)]

#[cfg(test)]
mod blocks;
#[cfg(test)]
mod boot_control;
#[cfg(test)]
mod bytes;
#[cfg(test)]
mod copies;
#[cfg(test)]
mod exceptions;
#[cfg(test)]
mod generated;
#[cfg(test)]
mod geometry;
#[cfg(test)]
mod layouts;
#[cfg(test)]
mod maps;
#[cfg(test)]
mod marks;
#[cfg(test)]
mod names;
#[cfg(test)]
mod packed;
#[cfg(test)]
mod partitions;
#[cfg(test)]
mod sets;
#[cfg(test)]
mod space;
#[cfg(test)]
mod sparse;
#[cfg(test)]
mod statuses;
#[cfg(test)]
mod stored_tables;
#[cfg(test)]
mod tables;
#[cfg(test)]
mod texts;
