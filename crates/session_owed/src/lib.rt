// What a session waits for and what it owes: from each state between two lines on, all that is still to be printed.
#![tactic(auto)]

mod points;

pub use points::{PART_OWNS, PARTS, announced_in, keep_point, points_in};
use text_frame::Expected;
use update::Record;

// The commands that open an update; a replacement names its point, or how many points were named.
#[derive(Clone, Copy)]
pub enum Coming {
    Load,
    Replace(usize),
    Several(usize),
}

// What is waited for: a frame of the table, a command, a point or a node of a command at its line, or nothing while an update has rounds to make; or the session is over.
#[derive(Clone, Copy)]
pub enum Awaited {
    Table(Expected),
    Command,
    Naming {
        count: usize,
        taken: usize,
        line: u32,
    },
    Nodes {
        coming: Coming,
        count: usize,
        taken: usize,
        line: u32,
    },
    Working {
        turns: u64,
    },
    Stopped,
}

// What a line or some rounds lead to, and where the next byte is printed.
#[derive(Clone, Copy)]
pub struct Told {
    pub awaited: Awaited,
    pub record: Record,
    pub printed: usize,
}
