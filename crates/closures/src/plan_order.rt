// The waits of a plan: merging as the rules tell it, in the order of the ranks that the plan left; and
// that no wait can be left out.
use crate::groups::{Groups, cells, place};
use crate::planned::Planned;
use crate::reference_plan::{PlanReference, as_word};
use cases::{check, check_eq, count};
use paths::Arc;
use std::alloc::{AllocError, Global};
use std::test::Fail;

#[derive(Drop)]
struct Merging {
    n: u32,
    sets: Vec<u8>,
    merged: usize,
    skipped: usize,
}

impl Merging {
    fn has(&self, job: u32, other: u32) -> bool {
        self.sets
            .get(place(self.n, job, other))
            .is_some_and(|byte| *byte != 0)
    }

    fn enter(&mut self, job: u32, other: u32, value: u8) {
        if let Some(byte) = self.sets.get_mut(place(self.n, job, other)) {
            *byte = value;
        }
    }

    // Skips an arc whose end is in the set of its start, and else merges: adds the end and its set.
    fn take(&mut self, arc: &Arc<u32>) {
        if self.has(arc.from, arc.to) {
            count(&mut self.skipped, true);
            return;
        }
        count(&mut self.merged, true);
        self.enter(arc.from, arc.to, 2);
        for other in 0..self.n {
            if self.has(arc.to, other) && !self.has(arc.from, other) {
                self.enter(arc.from, other, 1);
            }
        }
    }
}

// Merges by the rules: the jobs by rising rank, and the arcs of each by falling rank of the end.
pub(crate) fn check_merging(
    heap: Global,
    n: u32,
    plan: &Planned,
    expected: &PlanReference,
) -> Result<(), Fail> {
    let mut merging = Merging {
        n,
        sets: vec![in heap; 0; cells(n)]?,
        merged: 0,
        skipped: 0,
    };
    for rank in 0..n {
        for below in (0..n).rev() {
            for arc in expected.between() {
                if plan.rank(arc.from) == rank && plan.rank(arc.to) == below {
                    merging.take(arc);
                }
            }
        }
    }
    check_eq(plan.counts.merged, as_word(merging.merged))?;
    check_eq(plan.counts.skipped, as_word(merging.skipped))?;
    check(
        plan.sets
            .iter()
            .take(merging.sets.len())
            .eq(merging.sets.iter()),
    )
}

// The pairs of jobs of whom one waits for the other.
fn waits(heap: Global, n: u32, plan: &Planned) -> Result<Vec<Arc<u32>>, AllocError> {
    let mut waits = Vec::new(heap);
    for from in 0..n {
        for to in 0..n {
            if plan.byte(n, from, to) == 2 {
                waits.push(Arc { from, to, label: 0 })?;
            }
        }
    }
    Ok(waits)
}

// The waits connect the same jobs as the arcs between jobs, and without any one of them its two are not
// connected.
pub(crate) fn check_least(
    heap: Global,
    n: u32,
    plan: &Planned,
    expected: &PlanReference,
) -> Result<(), Fail> {
    let waits = waits(heap, n, plan)?;
    let led = Groups::new(heap, n, waits.as_slice())?;
    check((0..n).all(|a| (0..n).all(|b| led.leads(a, b) == expected.leads(a, b))))?;
    for wait in waits.iter() {
        let others: Vec<Arc<u32>> = waits
            .iter()
            .copied()
            .filter(|other| *other != *wait)
            .collect(heap)?;
        let led = Groups::new(heap, n, others.as_slice())?;
        check(!led.leads(wait.from, wait.to))?;
    }
    Ok(())
}
