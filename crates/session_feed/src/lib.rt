// The front door of sessions, however the bytes arrive: a session's text comes in pieces of any length, and the frames that it prints go out.
#![tactic(auto)]

mod feeding;

pub use feeding::feed;
pub use session_memory::{State, finish, start};

// How far the piece is taken, how many bytes are to be printed, and whether there is more to do.
#[derive(Clone, Copy)]
pub struct Fed {
    pub state: State,
    pub place: usize,
    pub printed: usize,
    pub more: bool,
}
