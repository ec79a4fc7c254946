// The same arcs, admitted in another order, give the same plan.
use crate::planned::{PLACES, planned_after};
use crate::reference_plan::as_word;
use crate::scenes::{Ways, admission};
use cases::{Rolls, check, check_eq, count};
use catalogue::Call;
use labels::Minutes;
use std::alloc::{AllocError, Global};
use std::test::Fail;

const SCENES: u32 = 100;

// The calls in another order.
fn shuffled(
    heap: Global,
    rolls: &mut Rolls,
    calls: &[Call<u32>],
) -> Result<Vec<Call<u32>>, AllocError> {
    let mut rest: Vec<Call<u32>> = calls.iter().copied().collect(heap)?;
    let mut order = Vec::new(heap);
    for _ in calls {
        let k = rolls.below(as_word(rest.len())) as usize;
        if k < rest.len() {
            order.push(rest.swap_remove(k))?;
        }
    }
    Ok(order)
}

#[test]
fn any_order(rt: HostRuntime) -> Result<(), Fail> {
    let heap = rt.alloc();
    let mut rolls = Rolls::new(22);
    let mut ranked = 0;
    let mut skipped = 0;
    let mut inner = 0;
    for _ in 0..SCENES {
        let n = rolls.below(6).saturating_add(5);
        let ways = Ways::rolled(&mut rolls);
        let calls: Vec<Call<u32>> = (0..PLACES)
            .map(|_| admission::<Minutes>(&mut rolls, n, ways))
            .collect(heap)?;
        let others = shuffled(heap, &mut rolls, calls.as_slice())?;
        let p = rolls.below(n);
        let q = rolls.below(n);
        let plan = planned_after(heap, n, calls.as_slice(), &[p, q])?;
        let other = planned_after(heap, n, others.as_slice(), &[q, p, q])?;
        check_eq(plan.counts, other.counts)?;
        check(plan.sets.iter().eq(other.sets.iter()))?;
        check((0..n).all(|p| plan.wave(p) == other.wave(p)))?;
        check((0..n).all(|p| plan.group(p) == other.group(p)))?;
        count(&mut ranked, (0..n).any(|p| plan.rank(p) != other.rank(p)));
        count(&mut skipped, plan.counts.skipped > 0);
        count(&mut inner, plan.counts.inner > 0);
    }
    check(ranked > 0)?;
    check(skipped > 0)?;
    check(inner > 0)
}
