//! Tests of the pages of `vablook`, over devices that are made and disks that are damaged.
#![tactic(auto)]

#[cfg(test)]
mod damage;
#[cfg(test)]
mod pages;
