// What a session is between two pieces of its text: a state by value, and lent memory that is judged before it is used.
#![tactic(auto)]

mod copying;
mod ending;
mod fitting;
mod gathering;

ghost use Rattle.session_memory.specs.Suspended.{StartSays};

pub use copying::{copy_in, copy_out};
pub use ending::{finish, is_stopped};
pub use fitting::{OUT, is_narrow, judge_state};
pub use gathering::{Gathered, gather};
use session_owed::Awaited;
use text_frame::Expected;
use update::Record;

// Between two pieces: the awaited, how many bytes of a line have come, the number of that line, and the update record.
#[derive(Clone, Copy)]
pub struct State {
    pub awaited: Awaited,
    pub begun: usize,
    pub line: u32,
    pub record: Record,
}

// A session that has read nothing.
pub fn start() -> State
    ensures { StartSays result }
{
    State {
        awaited: Awaited::Table(Expected::AtHeader),
        begun: 0,
        line: 1,
        record: Record::empty(),
    }
}
