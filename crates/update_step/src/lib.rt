// One step and a run of an update, over the arrays of the wiring and of the ranked circles (crate `update_round`).
#![tactic(auto)]

mod run;
mod step;

pub use run::{Ran, run_in};
pub use step::{Stepped, step_in};
