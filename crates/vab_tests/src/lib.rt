//! Tests that cross crates: whole runs of the program over ports in memory, over files and over
//! streams of the tests' own.
#![tactic(auto)]

#[cfg(test)]
mod chunks;
#[cfg(test)]
mod demos;
#[cfg(test)]
mod downloads;
#[cfg(test)]
mod factory;
#[cfg(test)]
mod faults;
#[cfg(test)]
mod held;
#[cfg(test)]
mod installing;
#[cfg(test)]
mod installs;
#[cfg(test)]
mod merging;
#[cfg(test)]
mod others;
#[cfg(test)]
mod packets;
#[cfg(test)]
mod ports;
#[cfg(test)]
mod runs;
#[cfg(test)]
mod sessions;
#[cfg(test)]
mod sets;
#[cfg(test)]
mod slots;
#[cfg(test)]
mod staged;
#[cfg(test)]
mod turns;
#[cfg(test)]
mod worked;
