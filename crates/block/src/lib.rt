// The bench: up to eight sections with their detectors, of any kind, and runs of events on it.
#![tactic(auto)]

mod apply;
pub mod bench;
pub mod run;
