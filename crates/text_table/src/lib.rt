// Tables to and from text.
#![tactic(auto)]

mod read;
mod whole;
mod write;

pub use read::take_frame;
pub use whole::read_table;
pub use write::write_table;

// Where the text behind a table starts, and its line.
#[derive(Clone, Copy)]
pub struct ReadTable {
    pub place: usize,
    pub line: u32,
}
