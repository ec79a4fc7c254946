// Label kinds: what the label of an arc or of a chain of arcs can be.
#![tactic(auto)]

mod kinds;
mod label;
mod licence;
mod minutes;
mod reach;
mod words;

pub use kinds::{Licence, Minutes, Reach};
pub use label::Label;
