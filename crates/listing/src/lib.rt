// The text that tells what a sheet holds.
#![tactic(auto)]

mod ending_line;
mod event_line;
mod sections_line;
pub mod text;
