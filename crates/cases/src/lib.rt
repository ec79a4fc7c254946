// A label kind and a layer of the tests' own, a slow reference catalogue, random numbers, and the
// tests.
#![tactic(auto)]

mod checks;
mod counts;
#[cfg(test)]
mod driving;
mod frozen;
#[cfg(test)]
mod limits;
#[cfg(test)]
mod own_kind;
mod places;
mod reference;
#[cfg(test)]
mod refusals;
mod rolls;
#[cfg(test)]
mod sheet_bytes;
#[cfg(test)]
mod stacks;
mod width;
mod widths;

pub use checks::{check, check_eq};
pub use counts::count;
pub use frozen::Frozen;
pub use places::{blank, empty_ledger};
pub use reference::Reference;
pub use rolls::Rolls;
pub use width::Width;
