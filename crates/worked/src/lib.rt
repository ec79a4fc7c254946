// Catalogues made, run, closed, sorted and planned, with what they answer from the making on: no contract
// of the closings, of sort or of plan is empty.
#![tactic(auto)]

mod alike;
mod asking;
mod five;
mod makes;

pub use alike::{TwoPlans, two_plans};
pub use asking::{close_after, label_after, sort_after};
pub use five::{PlanOfFive, groups_of_five, label_of_five, plan_of_five};
pub use makes::{
    ask_made, close_four_layers, close_ledger, close_made, close_sheet, label_in_ledger,
    label_made, sort_made,
};
