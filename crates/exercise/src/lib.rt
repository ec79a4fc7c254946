// Every make of catalogue made, asked and called, with what it answers: no contract of the
// catalogues is empty.
#![tactic(auto)]

mod answers;
mod asking;
mod stacks;

pub use answers::{Answers, Arguments, Outcomes, Replies};
pub use asking::{ask, call_each, exercise};
pub use stacks::{
    exercise_four_layers, exercise_holding, exercise_ledger, exercise_made, exercise_sheet,
    exercise_turned,
};
