// Worked plans, most of them on the five packages of the worked case.
use crate::groups::Groups;
use crate::plan_refusals::check_refused;
use crate::planned::planned_after;
use crate::reference_plan::{NO_WAVE, PlanReference, as_word};
use crate::scenes::{PLACES, in_force, labelled};
use crate::worked::{NONE, five};
use cases::{Reference, blank, check, check_eq, empty_ledger};
use catalogue::{Call, Holding, Layer, Refusal, run};
use labels::Minutes;
use plan::PlanCounts;
use std::alloc::Global;
use std::test::Fail;

// What plan and the reference give after these calls: the counts, the wave of each package, the pairs of
// whom one waits for the other, and those of whom one is only in the set of the other.
fn check_case(
    heap: Global,
    calls: &[Call<u32>],
    changed: &[u32],
    [jobs, levels, merged, skipped, inner]: [u32; 5],
    waves: &[u32],
    waits: &[(u32, u32)],
    others: &[(u32, u32)],
) -> Result<(), Fail> {
    let n = as_word(waves.len());
    let plan = planned_after(heap, n, calls, changed)?;
    let counts = PlanCounts {
        jobs,
        waves: levels,
        merged,
        skipped,
        inner,
    };
    check_eq(plan.counts, counts)?;
    check((0..n).map(|p| plan.wave(p)).eq(waves.iter().copied()))?;
    for a in 0..n {
        for b in 0..n {
            let byte = if waits.contains(&(a, b)) {
                2
            } else {
                u8::from(others.contains(&(a, b)))
            };
            check_eq(plan.byte(n, a, b), byte)?;
        }
    }
    let mut reference = Reference::new(heap, n, NONE, PLACES, 32);
    reference.run(calls)?;
    let arcs = in_force(heap, &reference)?;
    let groups = Groups::new(heap, n, arcs.as_slice())?;
    let expected = PlanReference::new(heap, arcs.as_slice(), &groups, changed)?;
    plan.check(arcs.as_slice(), &groups, &expected)
}

#[test]
fn five_packages(rt: HostRuntime) -> Result<(), Fail> {
    let heap = rt.alloc();
    let calls = five(heap, &[])?;
    // 2 and 3 are one job, whichever of them is changed
    let waves = [2, 1, 0, 0, 3];
    let waits = [(4, 0), (0, 1), (1, 2)];
    let others = [(4, 1), (4, 2), (0, 2)];
    for changed in [[3, 3], [2, 2], [3, 2], [1, 2]] {
        let counts = [4, 4, 3, 1, 2];
        check_case(
            heap,
            calls.as_slice(),
            &changed,
            counts,
            &waves,
            &waits,
            &others,
        )?;
    }
    // a second arc beside one that merges is skipped
    let parallel = five(heap, &[Call::Admit(0, 1, 6)])?;
    let counts = [4, 4, 3, 2, 2];
    check_case(
        heap,
        parallel.as_slice(),
        &[3],
        counts,
        &waves,
        &waits,
        &others,
    )?;
    let waves = [0, NO_WAVE, NO_WAVE, NO_WAVE, 1];
    let counts = [2, 2, 1, 0, 0];
    check_case(heap, calls.as_slice(), &[0], counts, &waves, &[(4, 0)], &[])?;
    check_case(heap, calls.as_slice(), &[], [0; 5], &[NO_WAVE; 5], &[], &[])
}

#[test]
fn held(rt: HostRuntime) -> Result<(), Fail> {
    let heap = rt.alloc();
    let calls = five(heap, &[Call::Hold(1)])?;
    let waves = [1, NO_WAVE, 0, 0, 2];
    let waits = [(4, 0), (0, 2)];
    let counts = [3, 3, 2, 0, 2];
    check_case(
        heap,
        calls.as_slice(),
        &[3],
        counts,
        &waves,
        &waits,
        &[(4, 2)],
    )?;
    let mut arcs = blank::<Minutes>(heap, PLACES)?;
    let mut top = Holding::over(empty_ledger(5, arcs.as_mut_slice())?);
    let labelled_calls = labelled(heap, calls.as_slice())?;
    run(&mut top, labelled_calls.as_slice());
    let enough = (25, 5, 86);
    check_refused(heap, &top, &[1], enough, Refusal::Held)?;
    check_refused(heap, &top, &[3, 1, 5], enough, Refusal::Held)?;
    check_refused(heap, &top, &[3, 5, 1], enough, Refusal::NoPackage)?;
    check_refused(heap, &top, &[u32::MAX], enough, Refusal::NoPackage)?;
    check_refused(heap, &top, &[1], (24, 5, 86), Refusal::ShortBuffer)?;
    check_refused(heap, &top, &[5], (25, 4, 86), Refusal::ShortBuffer)?;
    check_refused(heap, &top, &[], (25, 5, 85), Refusal::ShortBuffer)
}

// 0 leads to 1 by an arc and by 2, so it waits for 2 alone.
#[test]
fn by_a_third(rt: HostRuntime) -> Result<(), Fail> {
    let calls = [
        Call::Admit(0, 1, 1),
        Call::Admit(0, 2, 1),
        Call::Admit(2, 1, 1),
    ];
    let waits = [(0, 2), (2, 1)];
    let counts = [3, 3, 2, 1, 0];
    check_case(
        rt.alloc(),
        &calls,
        &[1],
        counts,
        &[2, 0, 1],
        &waits,
        &[(0, 1)],
    )
}
