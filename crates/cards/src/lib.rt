// Job cards run: what a card asks for is refined, and the answer is handed back or written as a result card.
#![tactic(auto)]

mod run; // run.rt: a job card run, and its result card
mod run_marking; // run_marking.rt: a job card, run by the marking call

pub use run::{run_card, run_job};
pub use run_marking::run_job_marking;
