// A session's table and commands, line by line: what each whole line leads to.
#![tactic(auto)]

mod dumping;
mod hearing;
mod lent;
mod opening;

pub use hearing::hear;
