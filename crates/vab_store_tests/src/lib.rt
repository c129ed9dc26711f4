//! Tests of exception stores: written, scanned, read through, overlaid and merged on a disk in
//! memory.
#![tactic(auto)]

#[cfg(test)]
mod clean;
#[cfg(test)]
mod cuts;
#[cfg(test)]
mod overlay;
#[cfg(test)]
mod pair;
#[cfg(test)]
mod physical;
#[cfg(test)]
mod tests;
