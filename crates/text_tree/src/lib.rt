// Trees to and from text.
#![tactic(auto)]

mod grow;
mod plant;

pub use grow::read_tree;
pub use plant::write_tree;

// How many nodes were read, where the text behind them starts, and its line.
#[derive(Clone, Copy)]
pub struct ReadTree {
    pub count: usize,
    pub place: usize,
    pub line: u32,
}
