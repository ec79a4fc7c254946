// What a plan counts, and lemmas on plans: marking, sets of jobs, waits, waves and counts.
#![tactic(auto)]

mod counts;

pub use counts::PlanCounts;
