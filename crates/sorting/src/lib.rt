// Sort, and the compressed rows that it searches.
#![tactic(auto)]

mod compressed;
mod search;
mod sorting;

pub use compressed::{Entries, fill_rows};
pub use graphs::{NO_WAVE, PackageRecord};
pub use sorting::{lacks, sort, sort_in_order};
