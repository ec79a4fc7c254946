// What plan answers and leaves, beside the plan by the rules alone.
use crate::groups::{Groups, cells, place};
use crate::reference_plan::PlanReference;
use crate::scenes::labelled;
use crate::sorted::{check_grouped, record, unsorted, work};
use cases::{blank, check, check_eq, empty_ledger};
use catalogue::{Call, Catalogue, Holding, Layer, run};
use closing::PackageRecord;
use labels::Minutes;
use paths::Arc;
use plan::{PlanCounts, plan};
use std::alloc::Global;
use std::test::Fail;

// What stands in a set table before it is written to.
pub(crate) const UNPLANNED: u8 = 77;

// More bytes than the plans of 10 packages need.
const BYTES: usize = 105;

// The arcs that a ledger has room for.
pub(crate) const PLACES: usize = 20;

// What a plan answered and left.
#[derive(Drop)]
pub struct Planned {
    pub(crate) counts: PlanCounts,
    pub(crate) records: Vec<PackageRecord>,
    pub(crate) sets: Vec<u8>,
}

impl Planned {
    // Plans in more bytes and records than are needed, and as many words.
    pub(crate) fn new<C: Catalogue>(heap: Global, c: &C, changed: &[u32]) -> Result<Planned, Fail> {
        let mut records = unsorted(heap)?;
        let mut words = work(heap, c)?;
        let mut sets = vec![in heap; UNPLANNED; BYTES]?;
        let counts = plan(
            c,
            changed,
            records.as_mut_slice(),
            words.as_mut_slice(),
            sets.as_mut_slice(),
        )?;
        Ok(Planned {
            counts,
            records,
            sets,
        })
    }

    fn record(&self, p: u32) -> PackageRecord {
        record(self.records.as_slice(), p)
    }

    pub(crate) fn group(&self, p: u32) -> u32 {
        self.record(p).group
    }

    pub(crate) fn wave(&self, p: u32) -> u32 {
        self.record(p).wave
    }

    pub(crate) fn rank(&self, p: u32) -> u32 {
        self.record(p).rank
    }

    // The byte of the set table for two of `n` packages.
    pub(crate) fn byte(&self, n: u32, from: u32, to: u32) -> u8 {
        self.sets
            .get(place(n, from, to))
            .copied()
            .unwrap_or(UNPLANNED)
    }

    // Are the bytes behind those for `n` packages unwritten?
    pub(crate) fn spares(&self, n: u32) -> bool {
        self.sets
            .iter()
            .skip(cells(n))
            .all(|byte| *byte == UNPLANNED)
    }

    // The counts, the set table, and the record of every package.
    pub(crate) fn check(
        &self,
        arcs: &[Arc<u32>],
        groups: &Groups,
        expected: &PlanReference,
    ) -> Result<(), Fail> {
        let n = groups.n();
        check_eq(self.counts, expected.counts())?;
        check((0..n).all(|a| (0..n).all(|b| self.byte(n, a, b) == expected.byte(a, b))))?;
        check(self.spares(n))?;
        check((0..n).all(|p| self.wave(p) == expected.wave(p)))?;
        check_grouped(self.records.as_slice(), groups, arcs)
    }
}

// Plans after these calls on Holding over a ledger.
pub(crate) fn planned_after(
    heap: Global,
    n: u32,
    calls: &[Call<u32>],
    changed: &[u32],
) -> Result<Planned, Fail> {
    let mut places = blank::<Minutes>(heap, PLACES)?;
    let mut top = Holding::over(empty_ledger(n, places.as_mut_slice())?);
    let labelled_calls = labelled(heap, calls)?;
    run(&mut top, labelled_calls.as_slice());
    Planned::new(heap, &top, changed)
}
