// The labels of circles, the least instance of each, over two argument arrays and nothing else.
#![tactic(auto)]

mod order;
mod search;

pub use order::UNSEEN;
pub use search::{Readers, UNMARKED, circle_labels};
