// The memory that the caller lends: what a load and a replacement make of it.
#![tactic(auto)]

pub mod copying;
pub mod placing;
