// The plan of a release: which groups of packages are rebuilt, which wait for which, and in which wave.
#![tactic(auto)]

mod building;
mod condensed;
mod marking;
mod merging;
mod planning;
mod tally;
mod waves;

pub use planning::plan;
pub use plans::PlanCounts;
