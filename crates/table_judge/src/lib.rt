// The checker of a rule table: whether its words are sound, and by which number they are refused.
#![tactic(auto)]

mod form;
mod judge;

pub use judge::{judge_equation, judge_header, judge_production, judge_symbol, judge_table};
