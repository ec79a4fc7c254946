// Runs of calls with plans among them, taken and refused.
use crate::planned::UNPLANNED;
use crate::reference_plan::NO_WAVE;
use crate::short_work::{check_marked, marked};
use crate::steps::{Buffers, admit, buffers_after, hold, room};
use cases::check;
use runs::Step;
use std::test::Fail;

// The name and the wave of each package's group, and the set table; then both as they were.
fn check_planned(buffers: &Buffers, records: &[(u32, u32); 3], sets: &[u8; 9]) -> Result<(), Fail> {
    let mut left = buffers.records.iter();
    for (group, wave) in records {
        check(
            left.next()
                .is_some_and(|record| record.group == *group && record.wave == *wave),
        )?;
    }
    check(left.copied().eq((3..5).map(marked)))?;
    let bytes = sets.iter().copied().chain([UNPLANNED; 3]);
    check(buffers.sets.iter().copied().eq(bytes))
}

#[test]
fn planned(rt: HostRuntime) -> Result<(), Fail> {
    let heap = rt.alloc();
    let steps = [
        admit(0, 1, 4),
        admit(1, 2, 3),
        admit(0, 2, 9),
        Step::Plan(9, room(3, 51), &[2]),
        admit(2, 1, 1),
        Step::Plan(9, room(3, 51), &[1]),
        Step::Plan(12, room(5, 60), &[1]),
        hold(2),
        Step::Plan(9, room(3, 52), &[0, 2]),
        Step::Plan(9, room(3, 52), &[3, 2]),
        Step::Plan(9, room(3, 52), &[1, 1]),
        Step::Sort(room(3, 52)),
    ];
    let buffers = buffers_after(heap, &steps[..3], 3, &[])?;
    check_marked(buffers.records.as_slice(), 5)?;
    check(buffers.sets.iter().all(|byte| *byte == UNPLANNED))?;
    let sets = [0, 2, 1, 0, 0, 2, 0, 0, 0];
    let buffers = buffers_after(heap, &steps[..4], 3, &[])?;
    check_planned(&buffers, &[(0, 2), (1, 1), (2, 0)], &sets)?;
    // too few words
    let buffers = buffers_after(heap, &steps[..6], 4, &[])?;
    check_planned(&buffers, &[(0, 2), (1, 1), (2, 0)], &sets)?;
    let sets = [0, 2, 0, 0, 0, 0, 0, 0, 0];
    let buffers = buffers_after(heap, &steps[..7], 4, &[])?;
    check_planned(&buffers, &[(0, 1), (1, 0), (1, 0)], &sets)?;
    // a held package, and one that is none
    let buffers = buffers_after(heap, &steps[..10], 4, &[2])?;
    check_planned(&buffers, &[(0, 1), (1, 0), (1, 0)], &sets)?;
    let buffers = buffers_after(heap, &steps[..11], 4, &[2])?;
    check_planned(&buffers, &[(0, 1), (1, 0), (2, NO_WAVE)], &sets)?;
    // sort leaves the set table, and no wave
    let buffers = buffers_after(heap, &steps, 4, &[2])?;
    check_planned(&buffers, &[(0, NO_WAVE), (1, NO_WAVE), (2, NO_WAVE)], &sets)
}
