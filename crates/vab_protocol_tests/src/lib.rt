//! Tests of packets, words and lines, and of the ports below them.
#![tactic(auto)]

#[cfg(test)]
mod buffered;
#[cfg(test)]
mod commands;
#[cfg(test)]
mod exchanges;
#[cfg(test)]
mod files;
#[cfg(test)]
mod hostile;
#[cfg(test)]
mod inputs;
#[cfg(test)]
mod lines;
#[cfg(test)]
mod overlaying;
#[cfg(test)]
mod variables;
#[cfg(test)]
mod words;
