// Sort and the closings of minutes for callers in C, who hand in a sheet and lend tables, records and
// work words. A call tells 0, or the number of the refusal.
#![tactic(auto)]

pub mod elimination;
pub mod order;
pub mod rounds;
pub mod sort;
#[cfg(test)]
mod tests;
