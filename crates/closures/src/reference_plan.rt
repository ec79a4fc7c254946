// The plan of a release by the rules alone, on plain lists.
use crate::groups::Groups;
use cases::count;
use paths::Arc;
use plan::PlanCounts;
use std::alloc::{AllocError, Global};

pub(crate) const NO_WAVE: u32 = 4294967295;

// What is to be found of a plan.
#[derive(Drop)]
pub struct PlanReference {
    n: u32,
    // for each package, the name of its group if it is in the plan
    jobs: Vec<Option<u32>>,
    // the arcs between jobs, with the names of their jobs for ends
    between: Vec<Arc<u32>>,
    // how many arcs in the plan stay within a job
    inner: usize,
    // which job leads to which by those arcs
    led: Groups,
    // the wave of each job, at its name
    waves: Vec<u32>,
}

impl PlanReference {
    // The plan for these changed packages, where these arcs are in force and make these groups.
    pub(crate) fn new(
        heap: Global,
        arcs: &[Arc<u32>],
        groups: &Groups,
        changed: &[u32],
    ) -> Result<PlanReference, AllocError> {
        let n = groups.n();
        let jobs: Vec<Option<u32>> = (0..n)
            .map(|p| in_plan(groups, changed, p).then_some(groups.name(p)))
            .collect(heap)?;
        let mut between = Vec::new(heap);
        let mut inner = 0;
        for arc in arcs {
            if in_plan(groups, changed, arc.from) && in_plan(groups, changed, arc.to) {
                let from = groups.name(arc.from);
                let to = groups.name(arc.to);
                count(&mut inner, from == to);
                if from != to {
                    between.push(Arc { from, to, ..*arc })?;
                }
            }
        }
        let led = Groups::new(heap, n, between.as_slice())?;
        let waves = longest(heap, n, between.as_slice())?;
        Ok(PlanReference {
            n,
            jobs,
            between,
            inner,
            led,
            waves,
        })
    }

    // The name of a package's job, if it is in the plan.
    pub(crate) fn job(&self, p: u32) -> Option<u32> {
        self.jobs.get(p as usize).copied().flatten()
    }

    pub(crate) fn between(&self) -> &[Arc<u32>] {
        self.between.as_slice()
    }

    // Is one job in the set of the other, by one arc between jobs or more?
    pub(crate) fn leads(&self, from: u32, to: u32) -> bool {
        self.led.leads(from, to)
    }

    // Is there no way from one to the other over a third?
    pub(crate) fn waits(&self, from: u32, to: u32) -> bool {
        self.leads(from, to)
            && !(0..self.n).any(|third| {
                third != from && third != to && self.leads(from, third) && self.leads(third, to)
            })
    }

    pub(crate) fn byte(&self, from: u32, to: u32) -> u8 {
        if self.waits(from, to) {
            2
        } else {
            u8::from(self.leads(from, to))
        }
    }

    // The wave of a package.
    pub(crate) fn wave(&self, p: u32) -> u32 {
        self.job(p).map_or(NO_WAVE, |job| at(&self.waves, job))
    }

    pub(crate) fn counts(&self) -> PlanCounts {
        let mut jobs = 0;
        let mut waves = 0;
        let mut merged = 0;
        for a in 0..self.n {
            if self.jobs.contains(&Some(a)) {
                count(&mut jobs, true);
                waves = self.wave(a).saturating_add(1).max(waves);
            }
            for b in 0..self.n {
                count(&mut merged, self.waits(a, b));
            }
        }
        PlanCounts {
            jobs: as_word(jobs),
            waves,
            merged: as_word(merged),
            skipped: as_word(self.between.len().saturating_sub(merged)),
            inner: as_word(self.inner),
        }
    }
}

// Is a package changed, or does a chain lead from it to one that is?
fn in_plan(groups: &Groups, changed: &[u32], p: u32) -> bool {
    changed.iter().any(|c| p == *c || groups.leads(p, *c))
}

// For each job, 0 without an arc to another, else one more than the largest of the targets.
fn longest(heap: Global, n: u32, between: &[Arc<u32>]) -> Result<Vec<u32>, AllocError> {
    let mut waves: Vec<u32> = vec![in heap; 0; n as usize]?;
    // no way has as many arcs as there are packages
    for _ in 0..n {
        for arc in between {
            let above = at(&waves, arc.to).saturating_add(1);
            if let Some(wave) = waves.get_mut(arc.from as usize) {
                *wave = above.max(*wave);
            }
        }
    }
    Ok(waves)
}

fn at(waves: &Vec<u32>, job: u32) -> u32 {
    waves.get(job as usize).copied().unwrap_or(0)
}

pub(crate) fn as_word(len: usize) -> u32 {
    u32::try_from(len).unwrap_or(u32::MAX)
}
