// One section: a bell and two lines, and how they answer an event by what their detectors read.
#![tactic(auto)]

pub mod face;
pub mod instruments;
pub mod per_line;
pub mod section;
