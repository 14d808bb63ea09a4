// The circles of a labelled graph, taken turn by turn.
#![tactic(auto)]

mod ranks;

pub use ranks::{Labels, rank_labelled};
