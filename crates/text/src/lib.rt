// The front door of text: frame by frame, and tables, trees and sets to and from it. What these calls share with a session stands behind it.
#![tactic(auto)]

pub use text_frame::{Frame, Misread, Reader, Step, frame_at, next, next_at, reader_at};
pub use text_sets::dump;
pub use text_table::{ReadTable, read_table, write_table};
pub use text_tree::{ReadTree, read_tree, write_tree};
