// The wiring of a tree and its ranked circles, made once; and over them whether the tree has a waiver inside a circle.
#![tactic(auto)]

mod preparing;
mod testing;

pub use preparing::prepare;
pub use testing::{has_nine, waives_wired};
