//! Tests of the plain machine: what it makes of a state, beside what the program makes of the
//! device of a disk in memory, reply by reply and state by state.
#![tactic(auto)]

#[cfg(test)]
mod beside;
#[cfg(test)]
mod held;
#[cfg(test)]
mod made;
#[cfg(test)]
mod random;
#[cfg(test)]
mod spelled;
#[cfg(test)]
mod states;
#[cfg(test)]
mod supers;
#[cfg(test)]
mod worked;
