// What sort leaves in the records of packages, and lemmas on searches, rows and groups.
#![tactic(auto)]

mod record;

pub use record::{NO_WAVE, PackageRecord};
