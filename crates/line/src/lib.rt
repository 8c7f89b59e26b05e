// One line: its record, and every way in which an event changes it.
#![tactic(auto)]

pub mod line;
mod permission;
pub mod role;
pub mod row;
pub mod sending;
