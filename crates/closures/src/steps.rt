// Runs of calls with closings, sort and plans among them, on Holding over a ledger of three packages.
use crate::planned::UNPLANNED;
use crate::scenes::PLACES;
use crate::short::{check_numbered, numbered};
use crate::short_work::{check_marked, marked, records_of};
use crate::worked::NONE;
use cases::{blank, check, check_eq, empty_ledger};
use catalogue::{Call, Catalogue, Holding, Layer, Refusal};
use closing::PackageRecord;
use labels::Minutes;
use plan::PlanCounts;
use runs::{Outcome, Room, Step, make_call, run};
use std::alloc::Global;
use std::test::Fail;

// A run's table and its two spare ones, each of three cells more than a closing needs; two records
// more, and more work words, than sort needs; and a set table of three bytes more than a plan needs.
#[derive(Drop)]
pub struct Buffers {
    table: Vec<Minutes>,
    changed: Vec<Minutes>,
    found: Vec<Minutes>,
    pub(crate) records: Vec<PackageRecord>,
    words: Vec<u32>,
    pub(crate) sets: Vec<u8>,
}

// What a run leaves in the buffers. The catalogue then has so many arcs, and holds these packages.
pub(crate) fn buffers_after(
    heap: Global,
    steps: &[Step<'_, Minutes>],
    stock_len: usize,
    held: &[u32],
) -> Result<Buffers, Fail> {
    let mut arcs = blank(heap, PLACES)?;
    let mut top = Holding::over(empty_ledger(3, arcs.as_mut_slice())?);
    let mut table = numbered(heap, 100..112)?;
    let mut changed = numbered(heap, 200..212)?;
    let mut found = numbered(heap, 300..312)?;
    let mut records = records_of(heap, 5)?;
    let mut words: Vec<u32> = (0..60).collect(heap)?;
    let mut sets = vec![in heap; UNPLANNED; 12]?;
    run(
        &mut top,
        steps,
        table.as_mut_slice(),
        changed.as_mut_slice(),
        found.as_mut_slice(),
        records.as_mut_slice(),
        words.as_mut_slice(),
        sets.as_mut_slice(),
    );
    check_eq(top.stock_len(), stock_len)?;
    check((0..3).all(|p| top.is_held(p) == held.contains(&p)))?;
    Ok(Buffers {
        table,
        changed,
        found,
        records,
        words,
        sets,
    })
}

pub(crate) fn admit(from: u32, to: u32, value: u32) -> Step<'static, Minutes> {
    Step::Alter(Call::Admit(from, to, Minutes { value }))
}

pub(crate) fn room(records: usize, words: usize) -> Room {
    Room { records, words }
}

pub(crate) fn hold(p: u32) -> Step<'static, Minutes> {
    Step::Alter(Call::Hold(p))
}

// Closings in as many cells as there are, in too few twice, and in just enough.
fn steps() -> [Step<'static, Minutes>; 9] {
    [
        admit(0, 1, 4),
        admit(1, 2, 3),
        admit(0, 2, 9),
        Step::Rounds(20),
        admit(2, 0, 1),
        Step::Rounds(8),
        Step::Eliminate(8),
        hold(1),
        Step::Eliminate(9),
    ]
}

// The label of every pair, row by row, and then the cells as they were.
fn check_table(tables: &Buffers, labels: &[u32; 9]) -> Result<(), Fail> {
    let cells = labels.iter().copied().chain(109..112);
    check(tables.table.iter().map(|cell| cell.value).eq(cells))
}

// A refused closing leaves what the accepted one before it left.
#[test]
fn rounds(rt: HostRuntime) -> Result<(), Fail> {
    let heap = rt.alloc();
    let labels = [NONE, 4, 7, NONE, NONE, 3, NONE, NONE, NONE];
    check_table(&buffers_after(heap, &steps()[..4], 3, &[])?, &labels)?;
    check_table(&buffers_after(heap, &steps()[..6], 4, &[])?, &labels)?;
    check_table(&buffers_after(heap, &steps()[..7], 4, &[])?, &labels)
}

// While package 1 is held, only the arcs from 0 to 2 and back are in force.
#[test]
fn elimination(rt: HostRuntime) -> Result<(), Fail> {
    let tables = buffers_after(rt.alloc(), &steps(), 4, &[1])?;
    check_table(&tables, &[10, NONE, 9, NONE, NONE, NONE, 1, NONE, 10])
}

// Where the only closing, sort or plan is refused, every buffer is as it was.
#[test]
fn refused(rt: HostRuntime) -> Result<(), Fail> {
    let refused = [
        Step::Rounds(0),
        Step::Rounds(8),
        Step::Eliminate(8),
        Step::Order(8, room(3, 50)),
        Step::Order(9, room(2, 50)),
        Step::Order(9, room(3, 49)),
        Step::Sort(room(2, 50)),
        Step::Sort(room(3, 49)),
        Step::Plan(8, room(3, 50), &[3]),
        Step::Plan(9, room(2, 50), &[0]),
        Step::Plan(9, room(3, 49), &[0]),
        Step::Plan(9, room(3, 50), &[0, 3]),
    ];
    for closing in refused {
        let steps = [admit(0, 1, 4), admit(1, 0, 3), closing, hold(2)];
        let tables = buffers_after(rt.alloc(), &steps, 2, &[2])?;
        check_numbered(tables.table.as_slice(), 100..112)?;
        check_numbered(tables.changed.as_slice(), 200..212)?;
        check_numbered(tables.found.as_slice(), 300..312)?;
        check_marked(tables.records.as_slice(), 5)?;
        check(tables.words.iter().copied().eq(0..60))?;
        check(tables.sets.iter().all(|byte| *byte == UNPLANNED))?;
    }
    Ok(())
}

// The name and the rank of each package's group, and then the records as they were.
fn check_sorted(buffers: &Buffers, sorted: &[(u32, u32); 3]) -> Result<(), Fail> {
    let records = sorted.iter().map(|(group, rank)| PackageRecord {
        group: *group,
        rank: *rank,
        wave: NONE,
    });
    check(
        buffers
            .records
            .iter()
            .copied()
            .eq(records.chain((3..5).map(marked))),
    )
}

// Sort, then a loop that a closing by order refuses, sorted too; and what is left of it while a
// package is held.
#[test]
fn sorted(rt: HostRuntime) -> Result<(), Fail> {
    let heap = rt.alloc();
    let steps = [
        admit(0, 1, 4),
        admit(1, 2, 3),
        Step::Sort(room(3, 50)),
        Step::Order(9, room(5, 60)),
        admit(1, 0, 9),
        Step::Order(12, room(3, 51)),
        hold(0),
        Step::Sort(room(9, 90)),
    ];
    let labels = [NONE, 4, 7, NONE, NONE, 3, NONE, NONE, NONE];
    let buffers = buffers_after(heap, &steps[..3], 2, &[])?;
    check_numbered(buffers.table.as_slice(), 100..112)?;
    check_sorted(&buffers, &[(0, 2), (1, 1), (2, 0)])?;
    let buffers = buffers_after(heap, &steps[..4], 2, &[])?;
    check_table(&buffers, &labels)?;
    check_sorted(&buffers, &[(0, 2), (1, 1), (2, 0)])?;
    let buffers = buffers_after(heap, &steps[..6], 3, &[])?;
    check_table(&buffers, &labels)?;
    check_sorted(&buffers, &[(0, 1), (0, 1), (2, 0)])?;
    let buffers = buffers_after(heap, &steps, 3, &[0])?;
    check_table(&buffers, &labels)?;
    check(
        buffers
            .records
            .iter()
            .map(|record| record.group)
            .take(3)
            .eq(0..3),
    )?;
    check(
        buffers
            .records
            .iter()
            .skip(3)
            .copied()
            .eq((3..5).map(marked)),
    )
}

// What each call of a run answers.
#[test]
fn answers(rt: HostRuntime) -> Result<(), Fail> {
    let heap = rt.alloc();
    let mut arcs = blank(heap, PLACES)?;
    let mut top = Holding::over(empty_ledger(3, arcs.as_mut_slice())?);
    let mut table = numbered(heap, 0..9)?;
    let mut changed = numbered(heap, 0..9)?;
    let mut found = numbered(heap, 0..9)?;
    let mut records = records_of(heap, 3)?;
    let mut words: Vec<u32> = (0..51).collect(heap)?;
    let mut sets = vec![in heap; UNPLANNED; 9]?;
    // 0 waits for 1 and 2, which lead to each other
    let counts = PlanCounts {
        jobs: 2,
        waves: 2,
        merged: 1,
        skipped: 0,
        inner: 2,
    };
    let answers = [
        (admit(0, 1, 4), Ok(Outcome::Altered)),
        (admit(1, 2, 3), Ok(Outcome::Altered)),
        (Step::Rounds(9), Ok(Outcome::Rounds(2))),
        (Step::Eliminate(9), Ok(Outcome::Eliminated)),
        (Step::Order(9, room(3, 50)), Ok(Outcome::Ordered)),
        (Step::Sort(room(3, 50)), Ok(Outcome::Sorted(3))),
        (admit(2, 1, 1), Ok(Outcome::Altered)),
        (Step::Order(9, room(3, 50)), Err(Refusal::ShortBuffer)),
        (Step::Order(9, room(3, 51)), Err(Refusal::Loop)),
        (Step::Sort(room(3, 51)), Ok(Outcome::Sorted(2))),
        (Step::Eliminate(8), Err(Refusal::ShortBuffer)),
        (
            Step::Plan(9, room(3, 51), &[1]),
            Ok(Outcome::Planned(counts)),
        ),
        (Step::Plan(9, room(3, 51), &[1, 3]), Err(Refusal::NoPackage)),
        (Step::Plan(8, room(3, 51), &[3]), Err(Refusal::ShortBuffer)),
        (hold(0), Ok(Outcome::Altered)),
        (Step::Plan(9, room(3, 51), &[0, 3]), Err(Refusal::Held)),
    ];
    for (step, answer) in answers {
        let told = make_call(
            &mut top,
            &step,
            table.as_mut_slice(),
            changed.as_mut_slice(),
            found.as_mut_slice(),
            records.as_mut_slice(),
            words.as_mut_slice(),
            sets.as_mut_slice(),
        );
        check_eq(told, answer)?;
    }
    Ok(())
}
