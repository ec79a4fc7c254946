// Runs of calls that include closings, sort and plans; what is asked after a run, with the promise that
// holds of it; and the closings beside each other.
#![tactic(auto)]

mod agreement;
mod asking;
mod running;
mod step;

pub use agreement::{Closings, close_all};
pub use asking::{ask, compare};
pub use running::{make_call, run};
pub use step::{Outcome, Room, Step, StepFor};
