// Reads a whole sheet: its section count and its events, each at its place.
#![tactic(auto)]

pub mod reading;
