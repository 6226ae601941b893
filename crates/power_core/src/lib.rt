//! Runs of the device over lists of events: instructions, refills, cuts.
#![tactic(auto)]

mod device;

pub use device::{Core, Event, Seen};
