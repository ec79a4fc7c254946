// Plans that are refused.
use crate::groups::cells;
use crate::planned::UNPLANNED;
use crate::short_work::{check_marked, records_of};
use crate::sorted::words_for;
use cases::{Reference, check, check_eq};
use catalogue::{Catalogue, Refusal};
use plan::plan;
use std::alloc::{AllocError, Global};
use std::test::Fail;

// The refusal of the changed packages, number by number.
pub(crate) fn refusal_of(reference: &Reference<u32>, changed: &[u32]) -> Option<Refusal> {
    for p in changed {
        if *p >= reference.n() {
            return Some(Refusal::NoPackage);
        }
        if reference.is_held(*p) {
            return Some(Refusal::Held);
        }
    }
    None
}

// Is a plan in so many bytes, records and words refused so? All stays as it was.
pub(crate) fn check_refused<C: Catalogue>(
    heap: Global,
    c: &C,
    changed: &[u32],
    (bytes, records, words): (usize, u32, usize),
    refusal: Refusal,
) -> Result<(), Fail> {
    let mut sorted = records_of(heap, records)?;
    let mut work = vec![in heap; u32::MAX; words]?;
    let mut sets = vec![in heap; UNPLANNED; bytes]?;
    let answer = plan(
        c,
        changed,
        sorted.as_mut_slice(),
        work.as_mut_slice(),
        sets.as_mut_slice(),
    );
    check_eq(answer, Err(refusal))?;
    check_marked(sorted.as_slice(), records)?;
    check(work.iter().all(|word| *word == u32::MAX))?;
    check(sets.iter().all(|byte| *byte == UNPLANNED))
}

// The ends of the arcs in force, by place.
fn ends<C: Catalogue>(heap: Global, c: &C) -> Result<Vec<Option<(u32, u32)>>, AllocError> {
    (0..c.stock_len())
        .map(|k| c.arc_at(k).map(|arc| (arc.from, arc.to)))
        .collect(heap)
}

// Each buffer too short by one, whatever the changed packages; and then what these are refused for in
// just enough. The catalogue stays as it was.
pub(crate) fn check_refusals<C: Catalogue>(
    heap: Global,
    c: &C,
    reference: &Reference<u32>,
    changed: &[u32],
) -> Result<(), Fail> {
    let arcs = ends(heap, c)?;
    let n = c.n();
    let bytes = cells(n);
    let words = words_for(c);
    let short = [
        (bytes.saturating_sub(1), n, words),
        (bytes, n.saturating_sub(1), words),
        (bytes, n, words.saturating_sub(1)),
    ];
    for buffers in short {
        check_refused(heap, c, changed, buffers, Refusal::ShortBuffer)?;
    }
    if let Some(refusal) = refusal_of(reference, changed) {
        check_refused(heap, c, changed, (bytes, n, words), refusal)?;
    }
    check(ends(heap, c)?.iter().eq(arcs.iter()))?;
    check((0..n).all(|p| c.is_held(p) == reference.is_held(p)))
}
