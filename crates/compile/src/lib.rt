// Makes every part of a formula over handles, by running its steps: inner code, which the engine and the walk over a card call.
#![tactic(auto)]

mod making;
mod running;

pub use running::run_formula;
