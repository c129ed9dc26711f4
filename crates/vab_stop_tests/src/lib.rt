//! Tests of stops: each verb of a device's life cut off at each of its writes and syncs, and with
//! each of its calls failing once; and a device that an earlier program made.
#![tactic(auto)]

#[cfg(test)]
mod earlier;
#[cfg(test)]
mod life;
#[cfg(test)]
mod overlays;
#[cfg(test)]
mod stops;
