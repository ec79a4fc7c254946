// Closings: the label of every pair of packages.
#![tactic(auto)]

mod direct;
mod elimination;
mod label;
mod order;
mod places;
mod relax;
mod rounds;
mod rows;

pub use elimination::by_elimination;
pub use label::label_of;
pub use order::by_order;
pub use rounds::by_rounds;
pub use rows::row;
pub use sorting::{NO_WAVE, PackageRecord, sort};
