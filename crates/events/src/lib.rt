// The events of a sheet and the numbers that stand for their kinds and fields.
#![tactic(auto)]

pub mod event;
pub mod field;
pub mod numbered;
