// All closings of one catalogue. The buffers stay apart, as in `by_rounds`.
ghost use Rattle.runs.specs.AllClosings.{AllClosed, lent};

use catalogue::{Catalogue, Refusal};
use closing::{PackageRecord, by_elimination, by_order, by_rounds};

// What each closing answers.
#[derive(Clone, Copy, PartialEq, Eq, Debug)]
pub struct Closings {
    pub by_rounds: Result<usize, Refusal>,
    pub by_elimination: Result<(), Refusal>,
    pub by_order: Result<(), Refusal>,
}

// Closes in all three ways, each into a table of its own.
#[tactic(auto, using(tables::proofs::Closed::three_agree, crate::proofs::Filing::filed_whole))]
pub fn close_all<C: Catalogue>(
    catalogue: &C,
    first: &mut [C::Label],
    changed: &mut [C::Label],
    found: &mut [C::Label],
    second: &mut [C::Label],
    third: &mut [C::Label],
    records: &mut [PackageRecord],
    words: &mut [u32],
) -> Closings
    ensures { AllClosed C.Label.Label.ops (C.Catalogue.meaning catalogue.now) (lent first.old changed.old found.old second.old third.old records.old words.old) (lent first.new changed.new found.new second.new third.new records.new words.new) result }
{
    Closings {
        by_rounds: by_rounds(catalogue, first, changed, found),
        by_elimination: by_elimination(catalogue, second),
        by_order: by_order(catalogue, third, records, words),
    }
}
