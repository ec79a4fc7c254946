// Catalogues of packages and the arcs between them, and layers over catalogues.
#![tactic(auto)]

mod call;
mod holding;
mod holds;
mod interface;
mod ledger;
mod limits;
mod reading;
mod refusal;
mod runs;
mod sheet;
mod turned;

pub use call::Call;
pub use holding::Holding;
pub use interface::{Catalogue, Layer, Make};
pub use ledger::{Blank, Ledger};
pub use limits::{MOST_ARCS, count_fits, outside};
pub use refusal::Refusal;
pub use runs::{make_call, run};
pub use sheet::Sheet;
pub use turned::Turned;
