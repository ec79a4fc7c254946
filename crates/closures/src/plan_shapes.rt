// Plans for changed packages that look random, taken and refused, and what they have come by.
use crate::groups::Groups;
use crate::plan_order::{check_least, check_merging};
use crate::plan_refusals::{check_refusals, refusal_of};
use crate::planned::Planned;
use crate::reference_plan::PlanReference;
use cases::{Reference, Rolls, check, count};
use catalogue::{Catalogue, Refusal};
use paths::Arc;
use std::alloc::{AllocError, Global};
use std::test::Fail;

// In how many catalogues of one make something was seen.
#[derive(Clone, Copy, Default)]
pub struct PlanShapes {
    // a job of several packages
    several: usize,
    // an arc that is skipped, and one within a job
    skipped: usize,
    inner: usize,
    // a job that waits for one whose wave is lower by two or more
    far: usize,
    // no changed package, two of them, and one that is listed twice
    empty: usize,
    two: usize,
    twice: usize,
    // changed packages, and a package that is not in the plan
    partial: usize,
    // a changed package that is none
    no_package: usize,
    // a plan of a package or more while another is held, and a changed package that is held
    held: usize,
    held_changed: usize,
}

impl PlanShapes {
    // Of any make.
    pub(crate) fn check(&self) -> Result<(), Fail> {
        check(self.several > 0)?;
        check(self.skipped > 0)?;
        check(self.inner > 0)?;
        check(self.far > 0)?;
        check(self.empty > 0)?;
        check(self.two > 0)?;
        check(self.twice > 0)?;
        check(self.partial > 0)?;
        check(self.no_package > 0)
    }

    // Of a make that can hold.
    pub(crate) fn check_holds(&self) -> Result<(), Fail> {
        check(self.held > 0)?;
        check(self.held_changed > 0)
    }

    // Plans for these changed packages, and for every package, where these arcs are in force and make
    // these groups.
    pub(crate) fn check_plans<C: Catalogue>(
        &mut self,
        heap: Global,
        c: &C,
        reference: &Reference<u32>,
        arcs: &[Arc<u32>],
        groups: &Groups,
        changed: &[u32],
    ) -> Result<(), Fail> {
        let all: Vec<u32> = (0..groups.n()).collect(heap)?;
        self.check_plan(heap, c, reference, arcs, groups, changed)?;
        self.check_plan(heap, c, reference, arcs, groups, all.as_slice())
    }

    // Plans for changed packages of which some may be none or held, and then for the others.
    fn check_plan<C: Catalogue>(
        &mut self,
        heap: Global,
        c: &C,
        reference: &Reference<u32>,
        arcs: &[Arc<u32>],
        groups: &Groups,
        changed: &[u32],
    ) -> Result<(), Fail> {
        let n = groups.n();
        let refusal = refusal_of(reference, changed);
        check_refusals(heap, c, reference, changed)?;
        let changed: Vec<u32> = changed
            .iter()
            .copied()
            .filter(|p| *p < n && !reference.is_held(*p))
            .collect(heap)?;
        let plan = Planned::new(heap, c, changed.as_slice())?;
        let expected = PlanReference::new(heap, arcs, groups, changed.as_slice())?;
        plan.check(arcs, groups, &expected)?;
        check_merging(heap, n, &plan, &expected)?;
        check_least(heap, n, &plan, &expected)?;
        count(&mut self.no_package, refusal == Some(Refusal::NoPackage));
        count(&mut self.held_changed, refusal == Some(Refusal::Held));
        let held = (0..n).any(|p| reference.is_held(p));
        count(&mut self.held, held && !changed.is_empty());
        self.note_changed(changed.as_slice());
        self.note(n, changed.as_slice(), &expected);
        Ok(())
    }

    fn note_changed(&mut self, changed: &[u32]) {
        count(&mut self.empty, changed.is_empty());
        if let Some(first) = changed.first() {
            count(&mut self.two, changed.iter().any(|p| *p != *first));
            count(
                &mut self.twice,
                changed.iter().skip(1).any(|p| *p == *first),
            );
        }
    }

    fn note(&mut self, n: u32, changed: &[u32], expected: &PlanReference) {
        let counts = expected.counts();
        count(&mut self.skipped, counts.skipped > 0);
        count(&mut self.inner, counts.inner > 0);
        let several = (0..n).any(|p| expected.job(p).is_some_and(|job| job != p));
        count(&mut self.several, several);
        let partial = (0..n).any(|p| expected.job(p).is_none());
        count(&mut self.partial, partial && !changed.is_empty());
        let far = (0..n).any(|a| (0..n).any(|b| waits_far(expected, a, b)));
        count(&mut self.far, far);
    }
}

fn waits_far(expected: &PlanReference, job: u32, other: u32) -> bool {
    expected.waits(job, other) && expected.wave(job) > expected.wave(other).saturating_add(1)
}

// Up to three package numbers, one in eight of which is too high.
pub(crate) fn any_changed(heap: Global, rolls: &mut Rolls, n: u32) -> Result<Vec<u32>, AllocError> {
    let len = rolls.below(4);
    (0..len)
        .map(|_| match rolls.below(8) {
            0 => n.saturating_add(rolls.below(2)),
            _ => rolls.below(n),
        })
        .collect(heap)
}
