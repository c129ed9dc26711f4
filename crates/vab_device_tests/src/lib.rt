//! Tests that cross crates: devices that are made, opened, and given commands.
#![tactic(auto)]

#[cfg(test)]
mod adopting;
#[cfg(test)]
mod devices;
#[cfg(test)]
mod making;
#[cfg(test)]
mod opening;
#[cfg(test)]
mod others;
#[cfg(test)]
mod overlaying;
#[cfg(test)]
mod snapshots;
#[cfg(test)]
mod texts;
#[cfg(test)]
mod tidying;
#[cfg(test)]
mod updates;
#[cfg(test)]
mod versions;
#[cfg(test)]
mod wiping;
