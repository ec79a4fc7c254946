// Arcs, which chains and catalogues share.
#![tactic(auto)]

mod arc;

pub use arc::Arc;
