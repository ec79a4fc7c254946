// Closing by order beside what the rules alone give.
use crate::closed::unwritten;
use crate::groups::Groups;
use crate::sorted::{check_sorted, unsorted, work};
use cases::{check, check_eq};
use catalogue::{Catalogue, Refusal};
use closing::by_order;
use labels::Label;
use paths::Arc;
use std::alloc::Global;
use std::test::Fail;

// Closes by order, where these arcs are in force and make these groups. The table of the labels has
// as many cells as one that is unwritten.
pub(crate) fn check_order<C: Catalogue>(
    heap: Global,
    c: &C,
    arcs: &[Arc<u32>],
    groups: &Groups,
    labels: &[C::Label],
) -> Result<(), Fail> {
    let mut table = unwritten::<C::Label>(heap)?;
    let mut records = unsorted(heap)?;
    let mut words = work(heap, c)?;
    let answer = by_order(
        c,
        table.as_mut_slice(),
        records.as_mut_slice(),
        words.as_mut_slice(),
    );
    check_sorted(records.as_slice(), groups, arcs)?;
    if groups.loops() > 0 {
        check_eq(answer, Err(Refusal::Loop))?;
        return check(table.iter().all(|cell| *cell == C::Label::WHOLE));
    }
    check_eq(answer, Ok(()))?;
    check(table.iter().eq(labels.iter()))
}
