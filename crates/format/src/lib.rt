// What reading a sheet answers: the faults, and the laws of the format.
#![tactic(auto)]

pub mod fault;
pub mod laws;
pub mod sections;
