// What the engine's calls are refused by, judged in the order of chapter 15 (docs/RULES.md), and what they look at in the held tree.
#![tactic(auto)]

mod limits;
mod points;
mod refuse;
mod trees;
mod verdicts;
mod waivers;

pub use points::{cuts_of, judge_named};
pub use refuse::{judge_aim, judge_ground, judge_holding, judge_look, judge_step};
pub use trees::is_declared;
pub use verdicts::{judge_loaded, judge_replaced};
